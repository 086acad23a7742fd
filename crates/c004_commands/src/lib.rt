//! The commands of an IMS C004's configuration link: written as bytes, read byte by byte, and the
//! answer to an enquiry.
//!
//! [`write`] puts the row that the data sheet's table has for a command, with zeros after it
//! (`row` of `specs/Commands.antt`). A [`PortNo`] is below 32. Bytes spell one list of commands,
//! and one rest (`laws::one_reading`). [`CommandReader::feed`] gives the commands of the text since
//! the last fault, and no others (`GoesOn` of `specs/Reader.antt`). It refuses just a byte that
//! can't stand where it comes (`IsFault` of `specs/Faults.antt`), and drops the command that was
//! begun. [`OutputState::read`] reads an answer as the switch spells it. Each byte whose top bit is
//! 0 says that the output is loose, and just the bytes from `a0` hex on are refused.
//!
//! The commands and their bytes are those of the INMOS IMS C004 data sheet. Where the sheet is
//! silent or terse, the choice is this project's: which bytes are refused, and the form of an
//! answer.
#![tactic(auto)]

mod answer;
mod command;
pub mod laws;
mod port;
mod reader;

pub use answer::{AnswerFormat, CONNECTED, OutputState};
pub use command::{Command, LONGEST_COMMAND, write};
pub use port::{PORTS, PortNo};
pub use reader::{CommandFault, CommandReader};

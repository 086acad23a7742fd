//! Sessions: a client speaks lines, and has a reply line to each command.
//!
//! [`serve`] reads the commands of one client and answers them from one seat of an exchange.
//! Contracts see a session as a relation between the bytes that were read, the entries that are new
//! in what the seat asked, the progress that the seat has seen, and the bytes that were written
//! (`HasEnded` of `specs/Sessions.antt`). A line means one command at most (`laws::one_meaning`).
//! Each command did what the table of commands says (`DoesCommand` of `specs/Turns.antt`), and what
//! was written are their reply lines, in order. No reading of the progress is after an earlier one
//! (`AreReadings`). Where entries may wait to be recorded, replies are held until theirs are, and
//! told together. Where a fault ends the session, the commands before it were served. Where the
//! writer fails or the record is broken, at most [`REPLY_BUFFER_BYTES`] bytes of their replies
//! aren't told (`IsCutOff`, `IsBroken`). A reader that counts is asked at most a million times
//! (`AsksWithinLimit` of `specs/Asking.antt`).
//!
//! A [`Listener`] hears beside them what was said, and what of it is refused. What it tells is told
//! of refusals (`TellsOfRefusals` of `specs/Listening.antt`); which ones no contract says.
#![tactic(auto)]

mod answering;
mod command;
mod counted_read;
mod exchange_seat;
mod fault;
mod input;
pub mod laws;
mod limits;
mod listener;
mod pending_line;
mod reply_buffer;
pub mod reply_line;
mod serving;
mod setup;
mod sources;
mod turns;

pub use command::SessionCommand;
pub use counted_read::{CountedRead, CountedReader};
pub use fault::ServeFault;
pub use limits::{COMMAND_ROOM, INPUT_BYTES, LINE_BYTES, MAX_READS, REPLY_BUFFER_BYTES};
pub use listener::{Listener, NoListener};
pub use serving::serve;

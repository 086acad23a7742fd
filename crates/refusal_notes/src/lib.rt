//! What is told of a refusal beside its line: where, what stands there, and what is wanted there.
//!
//! [`second_line`] is the one call for a command that was refused, [`session_line`] for a line of a
//! session. They are handed the refusal itself and the texts that it is of, and change no answer.
//! What they give begins with `exchange: ` and ends with a line feed (`IsWholeLine` of
//! `specs/Told.antt`), and they give nothing for lack of memory. No contract says which words stand
//! between: they are compared with rows (`rows/notes.rows`), and with those of a second
//! implementation (`tools/hostile/notes.py`).
//!
//! A refusal has the number of the line that is wrong, or of the transfer. That line alone is
//! compared with what is wanted there (`forms.rt`, `differences.rt`). Where settings of a schedule,
//! or a block, are named, the texts are read once more (`schedules.rt`).
#![tactic(auto)]

mod boards;
mod context;
mod differences;
mod expected;
mod forms;
mod line_note;
mod lines;
mod listed;
mod quote;
mod recorded;
mod schedules;
mod second;
mod sentences;

pub use context::{NamedText, OpeningRack, RefusalContext};
pub use listed::Listing;
pub use second::{file_line, second_line, session_line};

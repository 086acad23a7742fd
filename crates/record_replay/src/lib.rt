//! A record, replayed: each call is made again on a new book, and its reply is compared.
//!
//! [`replay`] makes the entries after a record's head again, all or the first ones. It gives the
//! book, whose history is legal, and the rest of the text (`IsRemade` of `specs/Replays.antt`); or
//! what is first wrong, where, and the line that is due there (`IsRecordError`).
//!
//! [`answer_replay`] is the answer of the command `replay`: the image to which the entries lead, or
//! a refusal (`IsReplayAnswer` of `specs/ReplayAnswers.antt`).
//!
//! The record that `serve`, `host` or `talk` leaves is answered by the words to which its calls
//! led, and it has each call whose reply a session got (`laws::record_is_answered`).
//!
//! Whoever has a record's bytes may call [`answer_replay`], as `exchange` does. `recorded_sessions`
//! calls [`replay`], to go on with a record.
#![tactic(auto)]

mod answering;
mod asking;
mod fault;
mod following;
pub mod laws;
mod replaying;

pub use answering::{Replayed, Torn, answer_replay, refusal_of};
pub use fault::{RecordError, RecordFault};
pub use replaying::{ReplayedEntries, replay};

//! Sessions whose record and image are kept: those of `serve`, of `host` and of `talk`.
//!
//! [`serve`] answers scripts, and then writes what they leave (`AreScriptsKept` of
//! `specs/Keeping.antt`). [`host`] and [`talk`] begin with a new book, or with that of a record
//! that they go on with (`BeginsFor` of `specs/Records.antt`). What they cut off after its entries
//! was torn off, or is the last lines (`IsResumed`); how much that was, they tell (`IsCutTold` of
//! `specs/Live.antt`). What is left of their files in the end
//! stands in `AreLiveKept`: also where something of the record is lost, it is a front of the whole
//! one, and has each entry that was told (`IsRecorded` of `record_replay`, from which its laws go
//! on). No contract says when it was written. What they answer stands in `IsLiveAnswer`
//! (`specs/Answers.antt`).
#![tactic(auto)]

mod job_result;
mod live;
mod recording;
mod sessions;

pub use job_result::{CutEntry, JobResult};
pub use live::SessionsResult;
pub use sessions::{host, serve, talk};

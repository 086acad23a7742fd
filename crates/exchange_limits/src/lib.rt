//! The limits of an exchange that many crates name: how many workers there may be, and how many
//! sessions.
//!
//! A [`WorkerCount`] is from 1 to [`MAX_WORKERS`]. [`WorkerCount::new`] takes just these numbers,
//! and [`WorkerCount::get`] gives the number back.
#![tactic(auto)]

mod limits;
mod worker_count;

pub use limits::{MAX_SESSIONS, MAX_WORKERS};
pub use worker_count::WorkerCount;

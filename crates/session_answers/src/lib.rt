//! The commands with sessions, `serve`, `host` and `talk`: from the bytes of their texts, or from a
//! book, to the bytes that are printed, and the status that the program ends with.
//!
//! [`answer_serve`] opens an exchange, serves its scripts, closes it, and gives an
//! [`Answer`](plan_answers::Answer): what is printed of the sessions, or the line of the refusal of
//! what is first wrong. [`host_on`] and [`talk_on`] do so over a [`Book`](batch_book::Book) that
//! the caller hands in, whatever its kind of history is, and which may have entries. The book that
//! is left explains by its history what each session was told, and its rack has the words to which
//! that leads.
//!
//! `IsServeAnswer`, `HasTalked` and `AreHosted` (`specs/Serving.antt`, `specs/Talking.antt`,
//! `specs/HostAnswers.antt`) say this: each session is one that its client's bytes may have, as far
//! as these are known (`IsServedSession`), unless its files couldn't be opened, and what all asked
//! is one legal history, that of the book after what it had before (`HaveOneHistory` of
//! `specs/Histories.antt`). No run of it stopped, and no session saw the runs come further than it
//! tells. What a session was told is durable. Where the book is whole all entries are; where it
//! isn't, some last ones may be missing, which nobody was told. The files of a client are opened
//! only by its one pass, of which a desk takes down that it was given
//! (`specs/Passes.antt`), and only for who shows that each client has a thread
//! ([`ThreadsStarted`]).
#![tactic(auto)]

mod client_streams;
mod closed_sessions;
mod ended_session;
mod frames;
mod host_threads;
mod hosting;
mod pass_trace;
mod plain_exchange;
mod serving;
mod session;
mod talking;
mod threads_started;

pub use client_streams::ClientStreams;
pub use closed_sessions::ClosedSessions;
pub use ended_session::Ending;
pub use frames::push_end;
pub use hosting::{Hosted, host_on};
pub use pass_trace::{NameTrace, PassTrace};
pub use plain_exchange::SessionRuntime;
pub use serving::{Served, answer_serve};
pub use talking::talk_on;
pub use threads_started::ThreadsStarted;

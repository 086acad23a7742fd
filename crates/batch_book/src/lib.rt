//! The book of an exchange: the batches that sessions hand in, the rack on which these are run, and
//! the history of what was asked and answered.
//!
//! A [`Book`] answers one [`Call`] at a time ([`Book::apply`]). Its contracts see a machine: what
//! the book holds, and which reply and which next machine each call of a session has
//! (`IsMachineStep` of `specs/Machine.antt`). The type keeps that the history is legal, which means
//! that each reply in it is one that the machine may give there, and that batches and memories are
//! where the history leads.
//!
//! The entries go where the book's [`EntryLog`] puts them: [`MemoryHistory`] has them in memory,
//! [`NullHistory`] is known to contracts alone, and others may write them, many at a time. Where
//! that fails they are [`Unrecorded`], and no later call is made ([`Book::try_apply`], `Applies` of
//! `specs/Recording.antt`).
//!
//! A [`Shared`] is one exchange for many sessions: a book under a lock, and a word that says how
//! far the runs have come, which is read without the lock. Each session calls from its own
//! [`Seat`]. Contracts see the list of what it asked, and of that what could be told: the entries
//! that were durable as [`Shared::sync`] was called. Where all seats are given back and the
//! exchange closes, what each asked is the history filtered to its session, and what could be told
//! to it is durable (`AreClosed` of `specs/Closing.antt`).
//!
//! A [`History`] whose entries wait until they are written lends its [`Recorder`]
//! ([`History::lend`]). Then the recorder has a lock of its own, and [`Shared::sync`] doesn't take
//! that of the book: so it waits for no run.
#![tactic(auto)]

mod access;
mod batch_store;
mod book;
mod book_state;
mod call;
mod calling;
mod close;
mod commit_queue;
mod entry;
mod entry_log;
mod ghost_history;
mod history;
mod limits;
mod lists;
mod locked;
mod logged;
mod memory_history;
mod naming;
mod noted;
mod null_history;
mod open;
mod pending_entries;
mod raise;
mod reading;
mod recorded_call;
mod recorder;
mod refusal;
mod reply;
mod seat;
mod shared;
mod shared_batch;
mod stored_batch;
mod unrecorded;
mod write_pacing;
mod writer_state;

pub use book::{BareBook, Book};
pub use call::Call;
pub use close::{Closed, SeatMissing};
pub use entry::Entry;
pub use entry_log::EntryLog;
pub use ghost_history::{GhostHistory, HistorySnapshot};
pub use history::History;
pub use limits::{MAX_BATCHES, MAX_ENTRIES, MAX_NUMBER, RUN_STEP};
pub use logged::{LoggedCall, LoggedReply};
pub use memory_history::MemoryHistory;
pub use naming::{ExchangeBlank, ExchangeName};
pub use noted::NotedEntry;
pub use null_history::NullHistory;
pub use open::SharedFault;
pub use pending_entries::PendingEntries;
pub use progress_word::ALL_PARTS;
pub use reading::Reading;
pub use recorded_call::RecordedCall;
pub use recorder::{NoRecorder, Recorder};
pub use refusal::BookRefusal;
pub use reply::Reply;
pub use seat::Seat;
pub use shared::Shared;
pub use shared_batch::SharedBatch;
pub use stored_batch::{BatchStage, BatchState, StoredBatch};
pub use unrecorded::Unrecorded;

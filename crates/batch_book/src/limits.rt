//! The limits of the book. They are this project's choice.

use exchange_limits::MAX_SESSIONS;

/// The most batches that the book holds at a time.
pub const MAX_BATCHES: usize = 256;

/// The most entries of a history that is kept in memory.
pub const MAX_ENTRIES: usize = 65536;

/// The greatest number of a batch or a run. A line can hold no greater one.
pub const MAX_NUMBER: usize = 999_999_999;

/// How far apart on the progress word two runs are that follow each other: the word is this many
/// times the number of a run, and the settings of it that are done. No plan has as many settings.
pub const RUN_STEP: u64 = 8192;

/// The list of what the book's side has noted, after those of all sessions.
pub(crate) const BOOK_SIDE: usize = MAX_SESSIONS;

/// The list of what the record's side has noted.
pub(crate) const RECORD_SIDE: usize = MAX_SESSIONS + 1;

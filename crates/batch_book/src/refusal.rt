use module_memory::MemoryFault;
use thiserror::Error;

/// Why the book refuses a call. Batches and memories are as they were.
///
/// The causes are tested in this order, which is this project's choice. Want of memory may come in
/// place of any cause but the first: where the history is full, no memory is asked for.
#[derive(Clone, Copy, Debug, PartialEq, Eq, Error)]
pub enum BookRefusal {
    /// The history has no room for another entry. It has none of this call.
    #[error("history full")]
    HistoryFull,
    /// The book holds as many batches as it may.
    #[error("book full")]
    BookFull,
    /// The session has no batch of this number.
    #[error("unknown")]
    Unknown,
    /// The batch waits for a plan.
    #[error("unplanned")]
    Unplanned,
    /// The plan is one of another batch.
    #[error("stranger")]
    Stranger,
    /// The batch has its plan, where one is handed in; or its run is after it.
    #[error("already")]
    Already,
    /// The rack has no such word.
    #[error("memory: {0}")]
    Memory(MemoryFault),
    /// There was no memory. The history has no entry of this call.
    #[error("no memory")]
    NoMemory,
}

use batch_book::{Book, History, MemoryHistory};
use plan_answers::Answer;

/// What is left of sessions on an exchange, once all have ended.
#[derive(Drop)]
pub struct ClosedSessions<K: History = MemoryHistory> {
    /// What is printed after them.
    pub answer: Answer,
    /// The exchange's book, and no copy: its history explains what each session was told, and its
    /// rack has the words to which that leads. It says whether each entry is durable.
    pub book: Book<K>,
}

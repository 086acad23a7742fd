use batch::Batch;
use schedule_certificate::Planned;

/// What a session asks of the book. A batch goes by the number under which it was accepted, modules
/// are counted from 0, and addresses are in bytes.
#[derive(Drop)]
pub enum Call {
    /// Accept this batch.
    Submit(Batch),
    /// Give a copy of a batch.
    Fetch(usize),
    /// Take this plan for a batch.
    Settle(usize, Planned),
    /// Run a batch by its plan.
    Run(usize),
    /// Tell how far a batch has come.
    Show(usize),
    /// Let a batch go, however far it has come.
    Discard(usize),
    /// Tell the word at an address of a module.
    Peek(usize, u32),
    /// Write a word at an address of a module: module, address, word.
    Poke(usize, u32, u32),
}

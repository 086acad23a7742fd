/// What a history tells of a call: all of it, but the plan that is settled.
#[derive(Drop)]
pub enum RecordedCall<B: Drop> {
    /// Accept this batch.
    Submit(B),
    /// Give a copy of a batch.
    Fetch(usize),
    /// Take a plan for a batch.
    Settle(usize),
    /// Run a batch by its plan.
    Run(usize),
    /// Tell how far a batch has come.
    Show(usize),
    /// Let a batch go.
    Discard(usize),
    /// Tell the word at an address of a module.
    Peek(usize, u32),
    /// Write a word at an address of a module: module, address, word.
    Poke(usize, u32, u32),
}

use batch_book::{ExchangeName, Seat};
use client_session::ServeFault;

/// A session of `serve` that has ended.
#[derive(Drop)]
pub struct ScriptSession<L: ExchangeName> {
    /// Its seat. Contracts see the list of its calls.
    pub seat: Seat<L>,
    /// What it was told.
    pub told: Vec<u8>,
    /// The fault that ended it, where one did.
    pub fault: Option<ServeFault>,
}

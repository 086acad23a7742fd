use client_session::ServeFault;

/// How the session of a client at a host ended.
#[derive(Drop)]
pub enum Ending<C> {
    /// It didn't begin, since its files couldn't be opened.
    Unopened,
    /// It was served.
    Served {
        /// The fault that ended it, where one did.
        fault: Option<ServeFault>,
        /// What is left of its writer.
        receipt: C,
    },
}

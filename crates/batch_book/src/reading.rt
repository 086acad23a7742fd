/// How far the runs of an exchange have come: so many settings are done of the run with this
/// number, and all runs before it have ended. Before the first run both are 0.
#[derive(Clone, Copy, PartialEq, Eq)]
pub struct Reading {
    /// The number of the run.
    pub run: u64,
    /// How many of its settings are done.
    pub done: u64,
}

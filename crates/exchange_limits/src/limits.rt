//! The numbers. They are this project's choice.

/// The most workers that planning or a run may be given.
pub const MAX_WORKERS: usize = 64;

/// The most sessions that share one exchange.
pub const MAX_SESSIONS: usize = 16;

//! What is known of a schedule that is refused.

/// What is known of a schedule: whether it is one of the batch, whatever certificate it has.
#[derive(Clone, Copy, PartialEq, Eq)]
pub enum Validity {
    /// Nothing is known.
    Unknown,
    /// It isn't one of the batch.
    Invalid,
    /// It is one, and so many settings are enough for the batch.
    Valid(usize),
}

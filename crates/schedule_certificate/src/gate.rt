/// Where workers arrive before they begin their part of the work, so that a test can hold them
/// until another has begun. Workers share it.
pub trait Gate: Sync {
    /// The worker of this number, from 1, is about to begin.
    fn arrive(&self, place: usize);
}

/// The gate that lets every worker through at once.
#[derive(Clone, Copy)]
pub struct OpenGate;

impl Gate for OpenGate {
    fn arrive(&self, _place: usize) {}
}

//! Which settings a picture has columns for.

/// The settings that have columns in a picture, one after the other.
#[derive(Clone, Copy)]
pub struct ShownSettings {
    /// The first of them, counted from 0.
    pub first: usize,
    /// How many there are.
    pub count: usize,
}

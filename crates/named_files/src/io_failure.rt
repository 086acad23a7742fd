//! What lacks.

/// A file that failed, and the words of its note.
#[derive(Drop)]
pub struct IoFailure {
    /// The name of the file.
    pub name: String,
    pub why: String,
}

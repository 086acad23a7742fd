use crate::command::SessionCommand;

/// The first line of the input, which is answered next, and what it commands, where it is a
/// command's line.
#[derive(Clone, Copy)]
pub(crate) struct PendingLine {
    /// How many bytes it has, without its line feed.
    pub length: usize,
    pub command: Option<SessionCommand>,
}

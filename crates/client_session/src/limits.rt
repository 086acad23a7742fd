//! The limits of sessions. They are this project's choice.

/// The longest line of a session, in bytes, without its line feed.
pub const LINE_BYTES: usize = 80;

/// How many bytes a session's input holds at most, of what was read and not yet taken.
pub const INPUT_BYTES: usize = 4096;

/// How often a session asks its reader.
pub const MAX_READS: usize = 1_000_000;

/// How many bytes the line of a command may have, without its line feed.
pub const COMMAND_ROOM: usize = 43;

/// How many bytes of reply lines a session buffers at most: a hundred short lines, and a long one.
pub const REPLY_BUFFER_BYTES: usize = 6144;

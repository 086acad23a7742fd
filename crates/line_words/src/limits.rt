//! The sizes of words and lines.

/// How many hexadecimal digits a word of 32 bits has.
pub const HEX_DIGITS: usize = 8;

/// Room for a number, whatever digits it has.
pub const NUMBER_ROOM: usize = 20;

/// How many bytes a line may have. This is the project's choice: room for each line of its
/// sessions, of which the longest tells of a stop with thirty-two transfers.
pub const LINE_ROOM: usize = 2048;

//! The statuses of calls besides those of answers. They are this project's choice.

/// The status where there was no room for the answer.
pub const NO_ROOM: u8 = 2;

/// The status where there was no memory.
pub const NO_MEMORY: u8 = 3;

/// The status where a reply is due, and stands there.
pub const REPLY: u8 = 4;

/// The status of a control byte that would be the length of a bootstrap.
pub const BOOTSTRAP: u8 = 5;

/// The status of a message whose address is no multiple of four.
pub const MISALIGNED: u8 = 6;

/// The status of a message whose address isn't in the memory.
pub const OUTSIDE: u8 = 7;

/// The status of a byte to an end that has refused one before.
pub const FAILED: u8 = 8;

/// What is told of an output that no input feeds, in place of the number of an input.
pub const LOOSE: u8 = 32;

/// What is told where no port has the number.
pub const NO_PORT: u8 = 33;

/// What is told where no switch, or no end of a link, has the state.
pub const NO_STATE: u8 = 34;

/// The status where no call has the number.
pub const NO_CALL: u8 = 35;

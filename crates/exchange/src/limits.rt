//! The statuses that the program ends with where there is no answer. They are this project's
//! choice.

/// The status where the arguments fit no command.
pub const MISUSED: u8 = 2;

/// The status where the answer couldn't be written.
pub const UNWRITTEN: u8 = 3;

//! Two modules that the switches join.

/// Two modules of a rack that the switches join: link 0 of the initiator and link 3 of the
/// responder feed each other. Where one switch joins them, these are its links `initiator` and
/// [`crate::JOINED_MODULES`] + `responder`, so both modules are below `JOINED_MODULES`. In a wider
/// rack [`crate::Wiring`] says which end is on which switch. Both may be one module. Which links a
/// module is on is this project's choice.
#[derive(Clone, Copy, PartialEq, Eq)]
pub struct Pair {
    /// The module that begins each message of a transfer.
    pub initiator: u8,
    /// The module that answers.
    pub responder: u8,
}

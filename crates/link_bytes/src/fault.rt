//! What can go wrong on a link.

use thiserror::Error;

/// Why a bit, a byte to be sent or a packet isn't taken. The rules that it breaks are those of the
/// IMS T414 data sheet, link protocol; that each is refused is this project's choice.
#[derive(Clone, Copy, Debug, PartialEq, Eq, Error)]
pub enum LinkFault {
    /// The bit after the eight data bits of a packet was high, where a low stop bit belongs.
    #[error("a data packet has no stop bit")]
    Framing,
    /// A byte was to be sent while the one before it waits for its acknowledge.
    #[error("the last byte is not acknowledged yet")]
    Busy,
    /// An acknowledge came while no byte waits for one.
    #[error("an acknowledge came, and no byte waits for one")]
    StrayAck,
}

//! The bits of an INMOS link (IMS T414 data sheet): data packets and acknowledges, read bit by bit,
//! and the wait of the sender for each acknowledge.
//!
//! [`frame`] gives the bits of a byte's packet, `packet_bits` of `specs/Line.antt`. Any bits have
//! one reading: the packets among them, and what has come of the next one, or that a packet had no
//! stop bit (`laws::one_reading`). [`BitReader::feed`] gives each packet at its last bit, and no
//! others (`HasRead` of `specs/Reading.antt`). It tells a fault exactly where the bit after eight
//! data bits is high, and at each bit from then on. An end of a link, a [`HalfLink`], has at most
//! one byte unacknowledged. It sends exactly where there is none, hands on each byte that comes,
//! and refuses just an acknowledge that nothing waits for.
#![tactic(auto)]

mod fault;
mod half_link;
pub mod laws;
mod packet;
mod reader;

pub use fault::LinkFault;
pub use half_link::HalfLink;
pub use packet::{ACK, DATA_BITS, FRAME_BITS, Packet, frame};
pub use reader::BitReader;

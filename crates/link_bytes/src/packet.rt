//! What travels on a link, and its bits (IMS T414 data sheet, link protocol).

ghost use Rattle.std.specs.Prelude.{◌≡◌, ◌<◌, ◌==◌};
ghost use Rattle.std.specs.Int.{bit_at};
ghost use Rattle.link_bytes.specs.Line.{packet_bits};
ghost use Rattle.link_bytes.specs.declared.packet.Packet.TheVariants.{Byte};

/// How many data bits a data packet has: those of a byte (IMS T414 data sheet, link protocol).
pub const DATA_BITS: usize = 8;

/// How many bits a data packet has: a start bit, a one bit, the data bits and a stop bit (IMS T414
/// data sheet, link protocol).
pub const FRAME_BITS: usize = 11;

/// What travels on a link: a byte one way, and its acknowledge the other way (IMS T414 data sheet).
#[derive(Clone, Copy, PartialEq, Eq)]
pub enum Packet {
    /// A byte of data.
    Byte(u8),
    /// The acknowledge of a byte.
    Ack,
}

/// The bits of an acknowledge, the first one first: a high start bit and a low stop bit (IMS T414
/// data sheet, link protocol).
pub const ACK: [bool; 2] = [true, false];

/// The bits of a byte's data packet, the first one first: a high start bit, a one bit, the eight
/// data bits with the least significant first, and a low stop bit (IMS T414 data sheet, link
/// protocol).
#[tactic(auto, unfolding(crate::specs::Line::data_bits))]
pub fn frame(b: u8) -> [bool; FRAME_BITS]
    ensures { result ≡ packet_bits (Byte b) }
{
    [
        true,
        true,
        is_set(b, 0),
        is_set(b, 1),
        is_set(b, 2),
        is_set(b, 3),
        is_set(b, 4),
        is_set(b, 5),
        is_set(b, 6),
        is_set(b, 7),
        false,
    ]
}

// Whether this bit of a byte is 1.
fn is_set(b: u8, bit: usize) -> bool
    requires { bit < DATA_BITS }
    ensures { result ≡ (bit_at b bit == 1) }
{
    (b >> bit) & 1 == 1
}

//! Laws of the bits of a line (IMS T414 data sheet, link protocol). They make no call.

ghost use Rattle.std.specs.Prelude.{◌≡◌, ℕ, List, Bool};
ghost use Rattle.link_bytes.specs.declared.packet.Packet.{Packet};
ghost use Rattle.link_bytes.specs.declared.packet.Packet.TheVariants.{Ack};
ghost use Rattle.link_bytes.specs.Line.{IsPacket, packet_bits};
ghost use Rattle.link_bytes.specs.Reading.{HasReading, HasOneReading, IsBegunAt, IsWhole};

use crate::packet::ACK;

/// Any bits have one reading as a line: their packets, and what has come of the next one, or that a
/// packet had no stop bit.
pub fn one_reading()
    ensures some { (bits : List Bool) → HasReading bits }
    ensures no_other { (bits : List Bool) → HasOneReading bits }
{}

/// The bits of a packet are a line with that packet, and no fewer of them have a packet.
pub fn one_packet()
    ensures before { (packet : Packet) (count : ℕ) → IsPacket packet → IsBegunAt packet count }
    ensures whole { (packet : Packet) → IsPacket packet → IsWhole packet }
{}

/// The bits of an acknowledge are `ACK`.
pub fn acknowledge()
    ensures { packet_bits Ack ≡ ACK }
{}

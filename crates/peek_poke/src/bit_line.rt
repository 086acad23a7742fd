//! One direction of a link, bit by bit.

ghost use Rattle.std.specs.Prelude.{◌≡◌, []};
ghost use Rattle.link_bytes.specs.Reading.{begun};
ghost use Rattle.peek_poke.specs.Bringing.{Brings, ReadsPacket};

use byte_streams::PassedBytes;
use link_bytes::{BitReader, Packet, laws};
use std::marker::Model;

/// A line with a reader at its other end. Contracts see what has come of the next packet, and the
/// bytes of the data packets that it brought. It takes no memory.
#[derive(Drop)]
pub struct BitLine {
    reader: BitReader,
    bytes: PassedBytes,
}

impl Model for BitLine {
    ghost use Rattle.peek_poke.specs.Bringing.{Brought};

    ghost Value = { Brought };

    ghost view = { λ l. record { reading = l.reader; bytes = l.bytes } };
}

impl BitLine {
    /// A line that has brought nothing.
    pub fn new() -> BitLine
        ensures { result ≡ record { reading = begun []; bytes = [] } }
    {
        BitLine {
            reader: BitReader::new(),
            bytes: PassedBytes::none(),
        }
    }

    /// Brings the bits of a packet to the other end, one by one, and gives the packet that was read
    /// there.
    pub fn bring(&mut self, bits: &[bool]) -> Option<Packet>
        requires { self.old.reading ≡ begun [] }
        ensures { Brings bits.now self.old result self.new }
    {
        let packet = read(&mut self.reader, bits)?;
        if let Packet::Byte(byte) = packet {
            self.bytes.add(byte);
        }
        Some(packet)
    }
}

/// Feeds the bits of a packet to a reader, and gives the packet that it read.
fn read(reader: &mut BitReader, bits: &[bool]) -> Option<Packet>
    requires { reader.old ≡ begun [] }
    ensures { ReadsPacket bits.now result reader.new }
{
    laws::one_packet();
    for bit in bits {
        match reader.feed(*bit) {
            Ok(None) => {}
            Ok(Some(packet)) => return Some(packet),
            Err(_) => return None,
        }
    }
    None
}

//! A line that is read bit by bit.

ghost use Rattle.std.specs.Prelude.{◌≡◌, ◌≢◌, ◌<◌, ◌^◌, ◌+◌, ◌↔◌, ◌++◌, ◌∷◌, [], List, Bool};
ghost use Rattle.std.specs.Prelude.{Option, IsOk, IsErr, IfOk, IfErr, OnOk, OnErr};
ghost use Rattle.std.specs.Option.{option_to_list};
ghost use Rattle.link_bytes.specs.declared.packet.Packet.{Packet};
ghost use Rattle.link_bytes.specs.Line.{ArePackets, AreLineBits, IsPacketFront, Sign, line_bits};
ghost use Rattle.link_bytes.specs.Line.{low_bits, packets_among};
ghost use Rattle.link_bytes.specs.Reading.{begun, failed, HasRead, IsPartial, IsFramingFault};
ghost use Rattle.link_bytes.specs.Reading.{EndsReading, packets_given};
ghost use Rattle.link_bytes.specs.Stages.{IsStage, Becomes, reading_of};

use crate::fault::LinkFault;
use crate::packet::{DATA_BITS, Packet};
use std::marker::Model;

// How far a packet has come.
#[derive(Clone, Copy)]
enum PacketState {
    // No bit of one.
    Idle,
    // The start bit.
    Started,
    // The start bit, the one bit and the data bits below `count`, which `value` has so far.
    Data { count: usize, value: u8 },
    // One ended in a high bit.
    Failed,
}

/// Reads the bits of a line one by one, and answers each packet at its last bit (IMS T414 data
/// sheet, link protocol). Contracts see the bits of the packet that isn't whole yet, or that the
/// reader has failed.
#[derive(Drop)]
pub struct BitReader {
    stage: PacketState,
}

impl Model for BitReader {
    ghost use Rattle.link_bytes.specs.Reading.{PacketView};

    ghost Value = { PacketView };

    ghost use Rattle.link_bytes.specs.Stages.{IsStage, reading_of};

    ghost view = { λ r. reading_of r.stage };

    ghost invariant = { λ r. IsStage r.stage };
}

impl BitReader {
    /// A reader of a line of which no bit has come.
    pub fn new() -> BitReader
        ensures { result ≡ begun [] }
    {
        BitReader {
            stage: PacketState::Idle,
        }
    }

    /// Takes the next bit and answers the packet that ends with it, if one does.
    ///
    /// The one fault is `Framing`: the bit after the eight data bits is high. From then on every
    /// bit is answered with it, which is this project's choice.
    pub fn feed(&mut self, bit: bool) -> Result<Option<Packet>, LinkFault>
        // Whatever bits came before, the packets given are those of all the bits, and no others.
        ensures text { (bits : List Bool) (packets : List Packet) → HasRead bits packets self.old
            → HasRead (bits ++ bit ∷ []) (packets ++ packets_given result) self.new }
        // What had come of a packet and the bit are a line in at most one way, and that is the
        // answer.
        ensures step { (rest left : List Bool) (given : Option Packet) → self.old ≡ begun rest
            → (AreLineBits (rest ++ bit ∷ []) (option_to_list given) left
            ↔ ((result ≡ Ok given) × (self.new ≡ begun left))) }
        // What isn't whole is less than a packet.
        ensures partial { IsPartial self.old × IsPartial self.new }
        // Bits with which the line can go on are taken.
        ensures only { (rest more left : List Bool) (signs : List Sign) → self.old ≡ begun rest
            → ArePackets (packets_among signs) → IsPacketFront left
            → rest ++ bit ∷ more ≡ line_bits signs ++ left → IsOk result }
        ensures fault { IsErr result ↔ IsFramingFault self.old bit }
        ensures framing { IfErr result (λ fault. EndsReading fault self.new) }
        ensures taken { OnOk result ((self.old ≢ failed) × (self.new ≢ failed)) }
    {
        let (stage, given) = next_stage(self.stage, bit);
        self.stage = stage;
        given
    }
}

// What one more bit makes of a packet that is begun, and the answer to it.
fn next_stage(stage: PacketState, bit: bool) -> (PacketState, Result<Option<Packet>, LinkFault>)
    requires { IsStage stage }
    ensures stage { IsStage result.0 }
    ensures taken { IfOk result.1 (λ given. Becomes stage bit given result.0) }
    ensures fault { OnErr result.1 (IsFramingFault (reading_of stage) bit) }
    ensures framing { IfErr result.1 (λ fault. EndsReading fault (reading_of result.0)) }
{
    match (stage, bit) {
        (PacketState::Idle, false) => (PacketState::Idle, Ok(None)),
        (PacketState::Idle, true) => (PacketState::Started, Ok(None)),
        (PacketState::Started, false) => (PacketState::Idle, Ok(Some(Packet::Ack))),
        (PacketState::Started, true) => (PacketState::Data { count: 0, value: 0 }, Ok(None)),
        (PacketState::Data { count, value }, bit) if count < DATA_BITS => {
            let value = with_bit(value, count, bit);
            let count = count + 1;
            (PacketState::Data { count, value }, Ok(None))
        }
        (PacketState::Data { value, .. }, false) => (
            PacketState::Idle,
            Ok(Some(Packet::Byte(value))),
        ),
        (PacketState::Data { .. }, true) | (PacketState::Failed, _) => (
            PacketState::Failed,
            Err(LinkFault::Framing),
        ),
    }
}

// The value with the next data bit above the `count` bits that it has.
fn with_bit(value: u8, count: usize, bit: bool) -> u8
    requires room { count < DATA_BITS }
    requires range { value < 2 ^ count }
    ensures bits { low_bits result (count + 1) ≡ low_bits value count ++ bit ∷ [] }
    ensures range { result < 2 ^ (count + 1) }
{
    if bit { value | 1 << count } else { value }
}

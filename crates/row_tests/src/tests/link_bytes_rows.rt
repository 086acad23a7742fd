//! The worked rows, named sizes, and a printed fault.

use super::prints::prints;
use link_bytes::{ACK, BitReader, DATA_BITS, FRAME_BITS, HalfLink, LinkFault, Packet, frame};

/// The bits of row frame-of-five.
const FIVE: [bool; 11] = [
    true, true, true, false, true, false, false, false, false, false, false,
];

/// Whether a reader gives nothing at any of these bits.
fn is_silent(reader: &mut BitReader, bits: &[bool]) -> bool {
    for bit in bits {
        if reader.feed(*bit) != Ok(None) {
            return false;
        }
    }
    true
}

/// Whether a reader gives a packet at the last bit and none before.
fn gives(reader: &mut BitReader, bits: &[bool], last: bool, packet: Packet) -> bool {
    is_silent(reader, bits) && reader.feed(last) == Ok(Some(packet))
}

/// Whether a reader has a framing fault at the last bit, and at each bit after it.
fn has_fault(reader: &mut BitReader, bits: &[bool], last: bool) -> bool {
    is_silent(reader, bits)
        && reader.feed(last) == Err(LinkFault::Framing)
        && reader.feed(false) == Err(LinkFault::Framing)
}

/// Whether a new reader gives row frame-of-five by its first bits and the last, an acknowledge, and
/// a fault where another bit is the last.
fn is_read(bits: &[bool]) -> bool {
    let mut reader = BitReader::new();
    gives(&mut reader, bits, false, Packet::Byte(5))
        && gives(&mut reader, &[true], false, Packet::Ack)
        && has_fault(&mut reader, bits, true)
}

#[test]
fn frame_of_five(rt: HostRuntime) {
    assert!(rt; frame(5) == FIVE && is_read(&FIVE[..10]));
}

#[test]
fn named_sizes(rt: HostRuntime) {
    assert!(rt; DATA_BITS == 8 && FRAME_BITS == 11 && ACK == [true, false]);
}

/// Whether a new end of a link sends one byte at a time, takes just one acknowledge then, and a
/// byte.
fn takes_turns() -> bool {
    let mut link = HalfLink::new();
    link.send(5) == Ok(frame(5))
        && link.send(6) == Err(LinkFault::Busy)
        && link.take(Packet::Ack) == Ok(None)
        && link.take(Packet::Ack) == Err(LinkFault::StrayAck)
        && link.take(Packet::Byte(9)) == Ok(Some(9))
}

#[test]
fn half_link(rt: HostRuntime) {
    assert!(rt; takes_turns());
}

#[test]
fn faults_are_printed(rt: HostRuntime) {
    let text = "an acknowledge came, and no byte waits for one";
    assert!(rt; prints(rt.alloc(), &LinkFault::StrayAck, text));
}

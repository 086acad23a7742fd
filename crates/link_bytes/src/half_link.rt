//! The sending side of a link, which waits for each acknowledge.

ghost use Rattle.std.specs.Prelude.{◌≡◌, ◌≤◌, ◌↔◌, ℕ, OnErr};
ghost use Rattle.link_bytes.specs.HalfLink.{HandsOn, EndsWait};
ghost use Rattle.link_bytes.specs.Line.{packet_bits};
ghost use Rattle.link_bytes.specs.declared.packet.Packet.TheVariants.{Ack, Byte};
ghost use Rattle.link_bytes.specs.declared.fault.LinkFault.TheVariants.{Busy, StrayAck};

use crate::fault::LinkFault;
use crate::packet::{FRAME_BITS, Packet, frame};
use std::marker::Model;

/// One end of a link: it sends a byte once the one before is acknowledged, and takes what comes
/// from the other end (IMS T414 data sheet, link protocol). Contracts see how many bytes are sent
/// and not acknowledged yet, at most 1.
#[derive(Drop)]
pub struct HalfLink {
    waits: bool,
}

impl Model for HalfLink {
    ghost use Rattle.std.specs.Prelude.{ℕ, if◌then◌else◌};

    ghost Value = { ℕ };

    ghost view = { λ h. (if h.waits then 1 else 0) };
}

impl HalfLink {
    /// An end that has sent nothing.
    pub fn new() -> HalfLink
        ensures { result ≡ 0 }
    {
        HalfLink { waits: false }
    }

    /// Sends a byte: its bits, the first one first. `Busy` where a byte that was sent waits for its
    /// acknowledge, and nothing is changed.
    pub fn send(&mut self, b: u8) -> Result<[bool; FRAME_BITS], LinkFault>
        ensures at_most_one { self.old ≤ 1 }
        ensures sent { self.old ≡ 0 → result ≡ Ok (packet_bits (Byte b)) }
        ensures busy { (result ≡ Err Busy) ↔ (self.old ≡ 1) }
        ensures waits { self.new ≡ 1 }
    {
        if self.waits {
            return Err(LinkFault::Busy);
        }
        self.waits = true;
        Ok(frame(b))
    }

    /// Takes a packet that came: a byte is handed on, an acknowledge ends the wait. `StrayAck`
    /// where no byte waits for the acknowledge, and nothing is changed.
    pub fn take(&mut self, packet: Packet) -> Result<Option<u8>, LinkFault>
        ensures at_most_one { self.old ≤ 1 }
        ensures byte { (b : ℕ) → packet ≡ Byte b → HandsOn b result self.old self.new }
        ensures ack { packet ≡ Ack → self.old ≡ 1 → EndsWait result self.new }
        ensures stray { (result ≡ Err StrayAck) ↔ ((packet ≡ Ack) × (self.old ≡ 0)) }
        ensures err { OnErr result (self.new ≡ self.old) }
    {
        match packet {
            Packet::Byte(b) => Ok(Some(b)),
            Packet::Ack if self.waits => {
                self.waits = false;
                Ok(None)
            }
            Packet::Ack => Err(LinkFault::StrayAck),
        }
    }
}

//! Wires that carry each byte as the bits of a link.

ghost use Rattle.std.specs.Prelude.{◌≡◌, []};

use crate::bit_line::BitLine;
use crate::fault::WireFault;
use crate::wire::{Wire, WireMaker};
use link_bytes::{ACK, HalfLink, laws};
use std::marker::Model;

/// A wire that never fails. Each byte goes as the bits of its data packet on one line, and its
/// acknowledge comes back on the opposite line (IMS T414 data sheet, link protocol). It takes no
/// memory.
pub struct PlainWire {
    sender: HalfLink,
    receiver: HalfLink,
    line: BitLine,
    opposite_line: BitLine,
}

impl Model for PlainWire {
    ghost use Rattle.std.specs.Prelude.{ℕ, List};
    ghost use Rattle.peek_poke.specs.Bringing.{AreIdle};

    ghost Value = { List ℕ };

    ghost view = { λ w. w.line.bytes };

    ghost invariant = { λ w. AreIdle w.sender w.receiver w.line w.opposite_line };
}

// Derived drop code is written out anew in each crate that lets go of a wire, and the code that
// moves words over the wire with it. This stands once in a program, so that code does too, and is
// inlined.
impl Drop for PlainWire {
    fn drop(self) {
        let PlainWire {
            sender: _,
            receiver: _,
            line: _,
            opposite_line: _,
        } = self;
    }
}

impl PlainWire {
    /// A wire that has carried nothing.
    pub fn new() -> PlainWire
        ensures { result ≡ [] }
    {
        PlainWire {
            sender: HalfLink::new(),
            receiver: HalfLink::new(),
            line: BitLine::new(),
            opposite_line: BitLine::new(),
        }
    }
}

impl Wire for PlainWire {
    ghost failures = { λ _. 0 };

    ghost carried = { λ wire. wire };

    ghost never_fails = { λ _. Unit {0} };

    #[inline(always)]
    fn carry(&mut self, byte: u8) -> Result<u8, WireFault> {
        laws::acknowledge();
        let Ok(bits) = self.sender.send(byte) else {
            unreachable!()
        };
        let Some(packet) = self.line.bring(&bits) else {
            unreachable!()
        };
        let Ok(Some(arrived)) = self.receiver.take(packet) else {
            unreachable!()
        };
        let Some(acknowledge) = self.opposite_line.bring(&ACK) else {
            unreachable!()
        };
        let Ok(None) = self.sender.take(acknowledge) else {
            unreachable!()
        };
        Ok(arrived)
    }
}

/// Makes wires that never fail.
#[derive(Clone, Copy)]
pub struct PlainWires;

impl WireMaker for PlainWires {
    type Line = PlainWire;

    ghost is_sure = { λ _ _. Unit {0} };

    fn line(&self, _transfer: usize) -> PlainWire {
        PlainWire::new()
    }
}

//! Wires that fail after so many bytes.

ghost use Rattle.std.specs.Prelude.{◌≡◌, ◌≢◌, ◌<◌, ◌≤◌, ◌+◌, ◌-◌, ◌↔◌, [], ◌∷◌, ◌++◌, Some, IsOk};
ghost use Rattle.std.specs.Prelude.{IfOk, OnOk, OnErr};
ghost use Rattle.std.specs.Option.{option_map};
ghost use Rattle.peek_poke.specs.FuseLines.{remaining_of, failures_of, carried_by, IsWhole};
ghost use Rattle.peek_poke.specs.FuseLines.{HasByte};

use crate::fault::WireFault;
use crate::plain::PlainWire;
use crate::wire::{Wire, WireMaker};
use byte_streams::FailureCount;
use std::marker::Model;

/// A wire that carries so many bytes as the bits of a link, and then fails every call. It takes no
/// memory.
#[derive(Drop)]
pub struct FuseWire {
    plain: PlainWire,
    remaining: usize,
    failed: FailureCount,
}

impl Model for FuseWire {
    ghost use Rattle.peek_poke.specs.Fuse.{Fuse};

    ghost Value = { Fuse };

    ghost view = { λ wire.
        record { remaining = wire.remaining; failures = wire.failed; carried = wire.plain } };
}

impl FuseWire {
    /// A wire that carries so many bytes.
    pub fn new(bytes: usize) -> FuseWire
        ensures { result ≡ record { remaining = bytes; failures = 0; carried = [] } }
    {
        FuseWire {
            plain: PlainWire::new(),
            remaining: bytes,
            failed: FailureCount::zero(),
        }
    }
}

impl Wire for FuseWire {
    ghost failures = { λ wire. wire.failures };

    ghost carried = { λ wire. wire.carried };

    ghost never_fails = { λ _. ⊥ };

    fn carry(&mut self, byte: u8) -> Result<u8, WireFault>
        ensures arrived { IfOk result (λ arrived. arrived ≡ byte) }
        ensures added { OnOk result (self.new.carried ≡ self.old.carried ++ byte ∷ []) }
        ensures kept { OnErr result (self.new.carried ≡ self.old.carried) }
        // It carries bytes just as long as some are left.
        ensures carries { IsOk result ↔ (0 < self.old.remaining) }
        ensures remaining { self.new.remaining ≡ self.old.remaining - 1 }
        ensures fault { OnErr result (self.new.failures ≡ self.old.failures + 1) }
        ensures counted { self.old.failures ≤ self.new.failures }
        ensures unfailed { OnOk result (self.new.failures ≡ self.old.failures) }
    {
        if self.remaining == 0 {
            self.failed.raise();
            return Err(WireFault);
        }
        self.remaining -= 1;
        self.plain.carry(byte)
    }
}

/// A line without a fuse, or with one.
#[derive(Drop)]
pub enum FuseLine {
    /// It never fails.
    Whole(PlainWire),
    /// It fails after so many bytes.
    Fused(FuseWire),
}

impl Wire for FuseLine {
    ghost failures = { failures_of };

    ghost carried = { carried_by };

    ghost never_fails = { IsWhole };

    fn carry(&mut self, byte: u8) -> Result<u8, WireFault>
        ensures arrived { IfOk result (λ arrived. arrived ≡ byte) }
        ensures added { OnOk result (carried_by self.new ≡ carried_by self.old ++ byte ∷ []) }
        ensures kept { OnErr result (carried_by self.new ≡ carried_by self.old) }
        ensures carries { IsOk result ↔ HasByte self.old }
        ensures remaining { remaining_of self.new
            ≡ option_map (λ remaining. remaining - 1) (remaining_of self.old) }
        ensures fault { OnErr result (failures_of self.new ≡ failures_of self.old + 1) }
        ensures counted { failures_of self.old ≤ failures_of self.new }
        ensures unfailed { OnOk result (failures_of self.new ≡ failures_of self.old) }
        ensures sure { IsWhole self.old → IsOk result }
        ensures stays_sure { IsWhole self.old → IsWhole self.new }
    {
        match self {
            FuseLine::Whole(wire) => wire.carry(byte),
            FuseLine::Fused(wire) => wire.carry(byte),
        }
    }
}

/// Makes a wire with a fuse of so many bytes for one transfer, and for the others wires that never
/// fail.
#[derive(Clone, Copy)]
pub struct FuseWires {
    /// The number of the transfer in its batch.
    pub transfer: usize,
    /// How many bytes its wire carries, either way.
    pub bytes: usize,
}

impl WireMaker for FuseWires {
    type Line = FuseLine;

    ghost is_sure = { λ wires transfer. transfer ≢ wires.transfer };

    fn line(&self, transfer: usize) -> FuseLine
        ensures fresh { failures_of result ≡ 0 }
        ensures unused { carried_by result ≡ [] }
        ensures sure { transfer ≢ self.now.transfer → IsWhole result }
        ensures fused { transfer ≡ self.now.transfer → remaining_of result ≡ Some self.now.bytes }
    {
        if transfer == self.transfer {
            FuseLine::Fused(FuseWire::new(self.bytes))
        } else {
            FuseLine::Whole(PlainWire::new())
        }
    }
}

//! Wires between two modules.

ghost use Rattle.std.specs.Prelude.{◌≡◌, ℕ, ◌<◌, ◌≤◌, List, [], ◌∷◌, ◌++◌, IfOk, OnErr, OnOk, IsOk};

use crate::fault::WireFault;
use std::marker::Send;

/// A line to an answering end and back. It carries bytes either way, one at a time.
pub trait Wire {
    /// How many calls have failed. Contracts alone see it.
    ghost failures: { Self → ℕ };

    /// The bytes that it has carried, either way, in order. Contracts alone see them.
    ghost carried: { Self → List ℕ };

    /// The wire states that it never fails.
    ghost never_fails: { Self → Type 0 };

    /// Carries a byte to the other end, and gives what arrived there, which is that byte.
    fn carry(&mut self, byte: u8) -> Result<u8, WireFault>
        ensures arrived { IfOk result (λ arrived. arrived ≡ byte) }
        // A call carries its byte, or none.
        ensures added { OnOk result (carried self.new ≡ carried self.old ++ byte ∷ []) }
        ensures kept { OnErr result (carried self.new ≡ carried self.old) }
        // A fault is a failure in this call, and there are no others. They are never taken back.
        ensures fault { OnErr result (failures self.old < failures self.new) }
        ensures counted { failures self.old ≤ failures self.new }
        ensures unfailed { OnOk result (failures self.new ≡ failures self.old) }
        ensures sure { never_fails self.old → IsOk result }
        ensures stays_sure { never_fails self.old → never_fails self.new };
}

/// Makes a wire for each transfer of a batch.
pub trait WireMaker {
    /// The wires that it makes.
    type Line: Wire + Drop + Send;

    /// The maker states that the wire of this transfer never fails.
    ghost is_sure: { Self → ℕ → Type 0 };

    /// A wire for the transfer of this number, which has not failed and has carried nothing as yet.
    fn line(&self, transfer: usize) -> Self::Line
        ensures fresh { Self.Line.failures result ≡ 0 }
        ensures unused { Self.Line.carried result ≡ [] }
        ensures sure { is_sure self.now transfer → Self.Line.never_fails result };
}

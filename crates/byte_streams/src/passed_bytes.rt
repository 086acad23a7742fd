ghost use Rattle.std.specs.Prelude.{◌≡◌, [], ◌∷◌, ◌++◌};

use std::marker::Model;
use std::snapshot::Snapshot;

/// The bytes that have passed, in order. Contracts see a list; no call tells the program of it. It
/// takes no memory, however many bytes have passed.
#[derive(Drop)]
pub struct PassedBytes {
    // What had passed before the last byte, and that byte: values that contracts alone see.
    last: Option<(Snapshot<PassedBytes>, Snapshot<u8>)>,
}

impl Model for PassedBytes {
    ghost use Rattle.std.specs.Prelude.{ℕ, List, length};
    ghost use Rattle.byte_streams.specs.Passed.{passed};

    ghost Value = { List ℕ };

    ghost view = { λ p. passed p.last };

    ghost size = { length };

    ghost use Rattle.std.proofs.Common.{arith, length-append};

    ghost size_decreases = { λ a h. Prim.grind (arith, length-append) };
}

impl PassedBytes {
    /// No byte has passed as yet.
    pub fn none() -> PassedBytes
        ensures { result ≡ [] }
    {
        PassedBytes { last: None }
    }

    /// One more byte has passed.
    pub fn add(&mut self, byte: u8)
        ensures { self.new ≡ self.old ++ byte ∷ [] }
    {
        let before = Snapshot::of(self);
        self.last = Some((before, Snapshot::of(&byte)));
    }
}

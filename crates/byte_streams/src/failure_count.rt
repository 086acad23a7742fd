ghost use Rattle.std.specs.Prelude.{◌≡◌, ◌+◌};

use std::marker::Model;
use std::snapshot::Snapshot;

/// How often something has failed. Contracts see a number; no call tells the program of it.
#[derive(Drop)]
pub struct FailureCount {
    // What the count was before it was last raised: a value that contracts alone see.
    before: Option<Snapshot<FailureCount>>,
}

impl Model for FailureCount {
    ghost use Rattle.std.specs.Prelude.{ℕ, ◌+◌};
    ghost use Rattle.byte_streams.specs.Before.{count_of};

    ghost Value = { ℕ };

    ghost view = { λ c. count_of c.before };

    ghost size = { λ n. n };

    ghost use Rattle.std.proofs.Common.{arith};

    ghost size_decreases = { λ a h. Prim.grind (arith) };
}

impl FailureCount {
    /// No failure as yet.
    pub fn zero() -> FailureCount
        ensures { result ≡ 0 }
    {
        FailureCount { before: None }
    }

    /// One more failure.
    pub fn raise(&mut self)
        ensures { self.new ≡ self.old + 1 }
    {
        let before = Snapshot::of(self);
        self.before = Some(before);
    }
}

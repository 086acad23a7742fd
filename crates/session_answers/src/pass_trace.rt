//! What contracts see of passes.

ghost use Rattle.std.specs.Prelude.{◌≡◌, [], ◌∷◌, ◌++◌};
ghost use Rattle.session_answers.specs.Passes.{all_admitted, given_to, no_passes};

use byte_streams::PassedBytes;
use std::marker::Model;
use std::snapshot::Snapshot;

/// Names, in order. Contracts see a list; no call tells the program of it, and it takes no memory.
#[derive(Drop)]
pub struct NameTrace {
    // What was there before the last name, and that name.
    last: Option<(Snapshot<NameTrace>, PassedBytes)>,
}

impl Model for NameTrace {
    ghost use Rattle.std.specs.Prelude.{ℕ, List, length};
    ghost use Rattle.session_answers.specs.Passes.{names_seen};

    ghost Value = { List (List ℕ) };

    ghost view = { λ names. names_seen names.last };

    ghost size = { length };

    ghost use Rattle.std.proofs.Common.{arith, length-append};

    ghost size_decreases = { λ a h. Prim.grind (arith, length-append) };
}

/// The bytes of a name.
fn seen(name: &str) -> PassedBytes
    ensures { result ≡ name.now }
{
    let mut bytes = PassedBytes::none();
    for byte in name.as_bytes() {
        bytes.add(*byte);
    }
    bytes
}

impl NameTrace {
    /// There is none as yet.
    pub fn none() -> NameTrace
        ensures { result ≡ [] }
    {
        NameTrace { last: None }
    }

    /// There is one more.
    pub fn add(&mut self, name: &str)
        ensures { self.new ≡ self.old ++ name.now ∷ [] }
    {
        let before = Snapshot::of(self);
        self.last = Some((before, seen(name)));
    }
}

/// To whom passes were given, and whether they were used.
#[derive(Drop)]
pub struct PassTrace {
    given: NameTrace,
    // Those that had been given as all were used.
    admitted: Option<Snapshot<NameTrace>>,
}

impl Model for PassTrace {
    ghost use Rattle.session_answers.specs.Passes.{GivenPasses, passes_seen};

    ghost Value = { GivenPasses };

    ghost view = { λ passes. passes_seen passes.given passes.admitted };
}

impl PassTrace {
    /// None was given as yet.
    pub fn none() -> PassTrace
        ensures { result ≡ no_passes }
    {
        PassTrace {
            given: NameTrace::none(),
            admitted: None,
        }
    }

    /// Takes down that one is given to the client of this name.
    pub fn give(&mut self, name: &str)
        requires { self.old.admitted ≡ [] }
        ensures { self.new ≡ given_to name.now self.old }
    {
        self.given.add(name);
    }

    /// Takes down that all were used.
    pub fn admit(&mut self)
        ensures { self.new ≡ all_admitted self.old }
    {
        self.admitted = Some(Snapshot::of(&self.given));
    }
}

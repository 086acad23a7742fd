//! Entries that have passed.

ghost use Rattle.std.specs.Prelude.{◌≡◌, [], ◌∷◌, ◌++◌};

use crate::entry::Entry;
use std::marker::Model;
use std::snapshot::Snapshot;

/// The entries that have passed, in order. Contracts see a list; no call tells the program of it.
/// It takes no memory, however many entries have passed.
#[derive(Drop)]
pub struct GhostHistory {
    // What had passed before the last entry, and that: values that contracts alone see.
    last: Option<(Snapshot<GhostHistory>, Snapshot<Entry>)>,
}

impl Model for GhostHistory {
    ghost use Rattle.std.specs.Prelude.{List, length};
    ghost use Rattle.batch_book.specs.declared.entry.Entry.{Entry};
    ghost use Rattle.batch_book.specs.Past.{past};

    ghost Value = { List Entry };

    ghost view = { λ p. past p.last };

    ghost size = { length };

    ghost use Rattle.std.proofs.Common.{arith, length-append};

    ghost size_decreases = { λ a h. Prim.grind (arith, length-append) };
}

impl GhostHistory {
    /// No entry has passed as yet.
    pub fn none() -> GhostHistory
        ensures { result ≡ [] }
    {
        GhostHistory { last: None }
    }

    /// One more entry has passed.
    pub fn add(&mut self, entry: &Entry)
        ensures { self.new ≡ self.old ++ entry.now ∷ [] }
    {
        let before = Snapshot::of(self);
        self.last = Some((before, Snapshot::of(entry)));
    }
}

/// Entries that had passed at some time. Contracts alone see them.
pub type HistorySnapshot = Snapshot<Snapshot<GhostHistory>>;

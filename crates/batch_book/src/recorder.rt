//! Where pending entries are written.

ghost use Rattle.std.specs.Prelude.{◌≡◌, [], true, false, ℕ, Bool, List, OnOk, OnErr};
ghost use Rattle.batch_book.specs.declared.entry.Entry.{Entry};
ghost use Rattle.batch_book.specs.History.{IsPrefix};

use crate::ghost_history::HistorySnapshot;
use crate::unrecorded::Unrecorded;
use std::snapshot::Snapshot;

/// Where the entries of a book are written once they were drained from the queue, many at a time.
/// It has a lock of its own.
pub trait Recorder {
    /// The entries that stand there, in order.
    ghost durable: { Self → List Entry };

    /// Those that it was given: some of the last ones may be missing there once a writing has
    /// failed.
    ghost tried: { Self → List Entry };

    /// Whether no writing has failed.
    ghost whole: { Self → Bool };

    /// After these entries, of all of those, the text of the others.
    ghost texts: { List Entry → List Entry → List ℕ };

    /// Whether no writing has failed.
    fn is_whole(&self) -> bool
        ensures whole { result ≡ whole self.now }
        ensures none { (all : List Entry) → texts all all ≡ [] };

    /// Whether a writing takes so long that who writes waits for more entries first.
    fn groups_writes(&self) -> bool;

    /// Writes the text of all of these entries that it wasn't given yet.
    fn append(&mut self, all: &HistorySnapshot, text: &[u8]) -> Result<(), Unrecorded>
        requires whole { whole self.old ≡ true }
        requires first { IsPrefix (tried self.old) all.now.value.value }
        requires text { text.now ≡ texts (tried self.old) all.now.value.value }
        ensures tried { tried self.new ≡ all.now.value.value }
        ensures durable { OnOk result (durable self.new ≡ all.now.value.value) }
        ensures whole { OnOk result (whole self.new ≡ true) }
        ensures none { OnErr result (durable self.new ≡ durable self.old) }
        ensures lost { OnErr result (whole self.new ≡ false) };
}

/// What is in a recorder's place where a history writes all itself. It writes nothing.
#[derive(Drop)]
pub struct NoRecorder {
    durable: Snapshot<HistorySnapshot>,
    tried: Snapshot<HistorySnapshot>,
    is_whole: bool,
}

impl Recorder for NoRecorder {
    ghost use Rattle.std.specs.Prelude.{[]};

    ghost durable = { λ r. r.durable.value.value.value };

    ghost tried = { λ r. r.tried.value.value.value };

    ghost whole = { λ r. r.is_whole };

    ghost texts = { λ _ _. [] };

    fn is_whole(&self) -> bool {
        self.is_whole
    }

    fn groups_writes(&self) -> bool {
        false
    }

    fn append(&mut self, all: &HistorySnapshot, _text: &[u8]) -> Result<(), Unrecorded> {
        self.tried = Snapshot::of(all);
        self.is_whole = false;
        Err(Unrecorded)
    }
}

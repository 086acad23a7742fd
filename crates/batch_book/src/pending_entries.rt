//! What is left of a history while its recorder is lent.

ghost use Rattle.std.specs.Prelude.{◌≡◌, ℕ, List, OnOk, OnErr};
ghost use Rattle.batch_book.specs.declared.entry.Entry.{Entry};
ghost use Rattle.batch_book.specs.History.{IsPrefix};

use crate::entry_log::EntryLog;
use crate::ghost_history::GhostHistory;
use std::alloc::AllocError;
use std::snapshot::Snapshot;

/// The entries of a history whose recorder is lent. What is pending is queued, and written by
/// whoever has the recorder. Of these entries `durable` are those that were queued.
pub trait PendingEntries: EntryLog {
    /// After these entries, of all of those, the text of the others.
    ghost texts: { List Entry → List Entry → List ℕ };

    /// The entries that were pushed, for contracts alone.
    fn past(&self) -> Snapshot<GhostHistory>
        ensures { result.value ≡ Self.pushed self.now };

    /// Queues what is pending: puts its text after this one. Where there is no memory for it
    /// nothing changes.
    fn queue_text(&mut self, text: &mut Vec<u8>) -> Result<(), AllocError>
        ensures pushed { Self.pushed self.new ≡ Self.pushed self.old }
        ensures whole { Self.whole self.new ≡ Self.whole self.old }
        ensures all { OnOk result (Self.durable self.new ≡ Self.pushed self.old) }
        ensures text { OnOk result ((taken : List Entry) → IsPrefix taken (Self.durable self.old)
            → text.old.items ≡ texts taken (Self.durable self.old)
            → text.new.items ≡ texts taken (Self.pushed self.old)) }
        ensures none { OnErr result (Self.durable self.new ≡ Self.durable self.old) }
        ensures same { OnErr result (text.new.items ≡ text.old.items) };
}

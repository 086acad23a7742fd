//! A history that contracts alone see.

ghost use Rattle.std.specs.Prelude.{◌≡◌, [], true, false};

use crate::call::Call;
use crate::entry::Entry;
use crate::entry_log::EntryLog;
use crate::ghost_history::GhostHistory;
use crate::history::History;
use crate::pending_entries::PendingEntries;
use crate::recorder::NoRecorder;
use std::alloc::AllocError;
use std::snapshot::Snapshot;

/// Entries that go nowhere. They take no memory, and there may be any number of them.
#[derive(Drop)]
pub struct NullHistory {
    /// The entries, which contracts alone see.
    pub past: GhostHistory,
}

impl NullHistory {
    /// No entry.
    pub fn new() -> NullHistory
        ensures { result.past ≡ [] }
    {
        NullHistory {
            past: GhostHistory::none(),
        }
    }
}

impl EntryLog for NullHistory {
    ghost pushed = { λ s. s.past };

    ghost durable = { λ s. s.past };

    ghost whole = { λ _. true };

    ghost limited = { false };

    ghost loses = { false };

    ghost drafted = { λ _ _ _. Unit {0} };

    fn is_whole(&self) -> bool {
        true
    }

    fn has_room(&self) -> bool {
        true
    }

    fn draft(&mut self, _session: usize, _call: &Call) -> Result<(), AllocError> {
        Ok(())
    }

    fn push(&mut self, entry: Entry) {
        self.past.add(&entry);
    }
}

// In the place of what is left of a history that lends no recorder.
impl PendingEntries for NullHistory {
    ghost texts = { λ _ _. [] };

    fn past(&self) -> Snapshot<GhostHistory> {
        Snapshot::of(&self.past)
    }

    fn queue_text(&mut self, _text: &mut Vec<u8>) -> Result<(), AllocError> {
        Ok(())
    }
}

impl History for NullHistory {
    type Pending = NullHistory;

    type Recorder = NoRecorder;

    fn lend(self) -> Result<(NullHistory, NoRecorder), NullHistory> {
        Err(self)
    }

    fn take_back(
        _pending: NullHistory,
        _recorder: NoRecorder,
        _text: &[u8],
    ) -> Option<NullHistory> {
        None
    }
}

//! A history in memory.

ghost use Rattle.std.specs.Prelude.{◌≡◌, ◌<◌, [], true, false, vec_len, vec_capacity};

use crate::call::Call;
use crate::entry::Entry;
use crate::entry_log::EntryLog;
use crate::history::History;
use crate::limits::MAX_ENTRIES;
use crate::null_history::NullHistory;
use crate::recorder::NoRecorder;
use std::alloc::{AllocError, Global};

/// The entries in memory, at most [`MAX_ENTRIES`] of them.
pub struct MemoryHistory {
    pub(crate) entries: Vec<Entry>,
}

// Said once, so that no function that lets go of one has to say it again.
impl Drop for MemoryHistory {
    fn drop(self) {
        let MemoryHistory { entries: _ } = self;
    }
}

impl MemoryHistory {
    /// No entry.
    pub(crate) fn new(alloc: Global) -> MemoryHistory
        ensures { result.entries.items ≡ [] }
    {
        MemoryHistory {
            entries: Vec::new(alloc),
        }
    }
}

impl EntryLog for MemoryHistory {
    ghost pushed = { λ k. k.entries.items };

    ghost durable = { λ k. k.entries.items };

    ghost whole = { λ _. true };

    ghost limited = { true };

    ghost loses = { false };

    ghost drafted = { λ k _ _. vec_len k.entries < vec_capacity k.entries };

    fn is_whole(&self) -> bool {
        true
    }

    fn has_room(&self) -> bool {
        self.entries.len() < MAX_ENTRIES
    }

    fn draft(&mut self, _session: usize, _call: &Call) -> Result<(), AllocError> {
        self.entries.reserve(1)
    }

    fn push(&mut self, entry: Entry) {
        self.entries.push(entry).unwrap();
    }
}

impl History for MemoryHistory {
    type Pending = NullHistory;

    type Recorder = NoRecorder;

    fn lend(self) -> Result<(NullHistory, NoRecorder), MemoryHistory> {
        Err(self)
    }

    fn take_back(
        _pending: NullHistory,
        _recorder: NoRecorder,
        _text: &[u8],
    ) -> Option<MemoryHistory> {
        None
    }
}

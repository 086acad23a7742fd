//! A history that is a text at a writer, which gets many entries at a time.

ghost use Rattle.std.specs.Prelude.{◌≡◌, true, false, length};
ghost use Rattle.batch_book.specs.History.{IsPrefix};
ghost use Rattle.book_record.specs.Streams.{IsWritten};
ghost use Rattle.book_record.specs.Sums.{numbered};

use crate::naming::StreamName;
use crate::pending_text::PendingText;
use crate::stream_recorder::StreamRecorder;
use batch_book::{Call, Entry, EntryLog, GhostHistory, History, PendingEntries, Recorder};
use std::alloc::{AllocError, Global};
use std::io::Write;
use std::snapshot::Snapshot;

/// Entries that go to a writer as texts, many at a time. It keeps none of them, so there may be any
/// number: of the pending ones it has the text, in memory. It lends its writer, so that entries are
/// written while calls are made.
///
/// Once a writing has failed, no later one writes anything: the writer holds what it held.
pub struct StreamHistory<W: Write, N: StreamName> {
    written: StreamRecorder<W, N>,
    waiting: PendingText,
    ghost first: { IsPrefix written.tried waiting.queued },
    ghost all: { written.whole ≡ true → written.tried ≡ waiting.queued },
}

// Said once, so that no function that lets go of one has to say it again.
impl<W: Write + Drop, N: StreamName> Drop for StreamHistory<W, N> {
    fn drop(self) {
        let StreamHistory {
            written: _,
            waiting: _,
        } = self;
    }
}

impl<W: Write, N: StreamName> StreamHistory<W, N> {
    /// A history that goes on after these entries, whose number is given, at this writer: they, and
    /// what the writer holds, are those that the stream's name has. If it groups writes, who writes
    /// waits for more entries first.
    pub fn resume_after(
        alloc: Global,
        past: GhostHistory,
        entries: u64,
        writer: W,
        groups_writes: bool,
    ) -> StreamHistory<W, N>
        requires entries { entries ≡ numbered (length past) }
        requires held { W.contents writer ≡ N.held }
        requires earlier { past ≡ N.earlier }
        ensures holds { result.written.holds ≡ W.contents writer }
        ensures all { result.waiting.all ≡ past }
        ensures durable { result.written.durable ≡ past }
        ensures whole { result.written.whole ≡ true }
    {
        let written = StreamRecorder::resume_after(&past, writer, groups_writes);
        StreamHistory {
            written,
            waiting: PendingText::resume_after(alloc, past, entries),
        }
    }

    /// The writer, and the number of entries.
    pub fn into_writer(self) -> (W, u64)
        ensures holds { W.contents result.0 ≡ self.written.holds }
        ensures written { IsWritten N.held (W.contents result.0) N.earlier self.written.durable
            self.waiting.all self.written.whole }
        ensures entries { result.1 ≡ numbered (length self.waiting.all) }
    {
        let StreamHistory { written, waiting } = self;
        // Called only for its contract: those that were queued are the first.
        waiting.text();
        let entries = waiting.entries();
        (written.into_writer(), entries)
    }
}

impl<W: Write + Send, N: StreamName + Send> EntryLog for StreamHistory<W, N> {
    ghost use Rattle.book_record.specs.Streams.{IsDrafted};

    ghost pushed = { λ s. s.waiting.all };

    ghost durable = { λ s. s.written.durable };

    ghost whole = { λ s. s.written.whole };

    ghost limited = { false };

    ghost loses = { true };

    ghost drafted = { λ s session call. IsDrafted s.waiting session call };

    fn is_whole(&self) -> bool {
        self.written.is_whole()
    }

    fn has_room(&self) -> bool {
        true
    }

    fn draft(&mut self, session: usize, call: &Call) -> Result<(), AllocError> {
        self.waiting.draft(session, call)
    }

    fn push(&mut self, entry: Entry) {
        self.waiting.push(entry);
    }
}

impl<W: Write + Send, N: StreamName + Send> History for StreamHistory<W, N> {
    type Pending = PendingText;

    type Recorder = StreamRecorder<W, N>;

    fn lend(self) -> Result<(PendingText, StreamRecorder<W, N>), StreamHistory<W, N>> {
        let StreamHistory { written, waiting } = self;
        written.all_durable();
        Ok((waiting, written))
    }

    fn take_back(
        pending: PendingText,
        recorder: StreamRecorder<W, N>,
        text: &[u8],
    ) -> Option<StreamHistory<W, N>> {
        let mut waiting = pending;
        let mut written = recorder;
        if !written.is_whole() {
            return Some(StreamHistory { written, waiting });
        }
        match written.append(&waiting.queued(), text) {
            Ok(()) => {}
            Err(_) => return Some(StreamHistory { written, waiting }),
        }
        let all = Snapshot::of(&waiting.past());
        // Where this fails the history isn't whole.
        let _ = written.append(&all, waiting.text());
        waiting.clear();
        Some(StreamHistory { written, waiting })
    }
}

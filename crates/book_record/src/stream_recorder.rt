//! A writer that gets the texts of entries, many at a time.

ghost use Rattle.std.specs.Prelude.{◌≡◌, true, false, OnOk, OnErr};
ghost use Rattle.std.specs.Io.KnownBytes.{Appends};
ghost use Rattle.byte_streams.specs.Writing.{IsCutShort};
ghost use Rattle.book_record.specs.Streams.{IsWritten};

use crate::naming::StreamName;
use batch_book::{GhostHistory, HistorySnapshot, Recorder, Unrecorded};
use byte_streams::write_bytes;
use std::io::Write;
use std::marker::{Model, PhantomData};
use std::snapshot::Snapshot;

/// A writer, and what it has got. Contracts see what it holds, the entries that stand there, and
/// those that it was given. Once a writing has failed nothing more is written.
pub struct StreamRecorder<W: Write, N: StreamName> {
    writer: W,
    groups_writes: bool,
    whole: bool,
    durable: Snapshot<HistorySnapshot>,
    tried: Snapshot<HistorySnapshot>,
    named: PhantomData<N>,
}

// Said once, so that no function that lets go of one has to say it again.
impl<W: Write + Drop, N: StreamName> Drop for StreamRecorder<W, N> {
    fn drop(self) {
        let StreamRecorder {
            writer: _,
            groups_writes: _,
            whole: _,
            durable: _,
            tried: _,
            named: _,
        } = self;
    }
}

impl<W: Write, N: StreamName> Model for StreamRecorder<W, N> {
    ghost use Rattle.book_record.specs.Streams.{WrittenState, StandsAtWriter};

    ghost Value = { WrittenState };

    ghost view = { λ s. record {
      holds = W.contents s.writer;
      durable = s.durable.value.value.value;
      tried = s.tried.value.value.value;
      whole = s.whole;
    } };

    ghost invariant = { λ s. StandsAtWriter N.held (W.contents s.writer) N.earlier
        s.durable.value.value.value s.tried.value.value.value s.whole };
}

impl<W: Write, N: StreamName> StreamRecorder<W, N> {
    /// The writer of a stream of these entries: they, and what the writer holds, are those that the
    /// stream's name has.
    pub(crate) fn resume_after(
        past: &GhostHistory,
        writer: W,
        groups_writes: bool,
    ) -> StreamRecorder<W, N>
        requires held { W.contents writer ≡ N.held }
        requires earlier { past.now ≡ N.earlier }
        ensures holds { result.holds ≡ W.contents writer }
        ensures durable { result.durable ≡ past.now }
        ensures tried { result.tried ≡ past.now }
        ensures whole { result.whole ≡ true }
    {
        let seen = Snapshot::of(&Snapshot::of(past));
        StreamRecorder {
            writer,
            groups_writes,
            whole: true,
            durable: Snapshot::of(&seen),
            tried: Snapshot::of(&seen),
            named: PhantomData,
        }
    }

    /// For its contract alone: unless a writing has failed, all that it was given is there.
    pub(crate) fn all_durable(&self)
        ensures { self.now.whole ≡ true → self.now.durable ≡ self.now.tried }
    {
        let _ = &self.writer;
    }

    /// The writer.
    pub(crate) fn into_writer(self) -> W
        ensures holds { W.contents result ≡ self.holds }
        ensures written { IsWritten N.held (W.contents result) N.earlier self.durable self.tried
            self.whole }
    {
        let StreamRecorder {
            writer,
            groups_writes: _,
            whole: _,
            durable: _,
            tried: _,
            named: _,
        } = self;
        writer
    }
}

/// Writes the bytes and flushes the writer, where there are any bytes.
fn send<W: Write>(writer: &mut W, bytes: &[u8]) -> Result<(), Unrecorded>
    ensures ok { OnOk result
        (Appends (W.contents writer.old) (W.contents writer.new) bytes.now) }
    ensures err { OnErr result
        (IsCutShort (W.contents writer.old) (W.contents writer.new) bytes.now) }
{
    if bytes.is_empty() {
        return Ok(());
    }
    match write_bytes(writer, bytes) {
        Ok(()) => Ok(()),
        Err(_) => Err(Unrecorded),
    }
}

impl<W: Write, N: StreamName> Recorder for StreamRecorder<W, N> {
    ghost use Rattle.book_record.specs.Streams.{text_behind};

    ghost durable = { λ s. s.durable };

    ghost tried = { λ s. s.tried };

    ghost whole = { λ s. s.whole };

    ghost texts = { text_behind };

    fn is_whole(&self) -> bool {
        self.whole
    }

    fn groups_writes(&self) -> bool {
        self.groups_writes
    }

    fn append(&mut self, all: &HistorySnapshot, text: &[u8]) -> Result<(), Unrecorded> {
        self.tried = Snapshot::of(all);
        match send(&mut self.writer, text) {
            Ok(()) => {
                self.durable = Snapshot::of(all);
                Ok(())
            }
            Err(lost) => {
                self.whole = false;
                Err(lost)
            }
        }
    }
}

//! The texts of pending entries.

ghost use Rattle.std.specs.Prelude.{◌≡◌, ◌++◌, [], OnOk, OnErr, length};
ghost use Rattle.batch_book.specs.History.{IsPrefix};
ghost use Rattle.book_record.specs.Streams.{text_behind};
ghost use Rattle.book_record.specs.Sums.{numbered};

use crate::writing::push_sum_of;
use crate::{id_of, push_asked, push_logged};
use batch_book::{Call, Entry, EntryLog, GhostHistory, HistorySnapshot, PendingEntries};
use client_session::reply_line::ReplyLine;
use line_words::Line;
use std::alloc::{AllocError, Global};
use std::marker::Model;
use std::mem;
use std::snapshot::Snapshot;

/// Entries, of which those that weren't queued yet are there as a text. It keeps no entry.
#[derive(Drop)]
pub struct PendingText {
    // The text of the pending entries, and that of the one that is drafted, but for the line of the
    // reply.
    buffer: Vec<u8>,
    // The number of its bytes that are of pending ones.
    waits: usize,
    // The number of the entry that is drafted.
    number: u64,
    // Where lines are put together.
    asked: Line,
    reply: ReplyLine,
    // All entries, and those that were queued: contracts alone see them.
    past: GhostHistory,
    queued: Snapshot<GhostHistory>,
}

impl Model for PendingText {
    ghost use Rattle.std.specs.Prelude.{◌≡◌, ◌≤◌, ◌-◌, length, take, drop, vec_capacity, vec_len};
    ghost use Rattle.batch_book.specs.History.{IsPrefix};
    ghost use Rattle.book_record.specs.Streams.{WaitingState, text_behind};
    ghost use Rattle.book_record.specs.Sums.{numbered};

    ghost Value = { WaitingState };

    ghost view = { λ s. record {
      all = s.past;
      queued = s.queued.value;
      text = drop s.waits s.buffer.items;
      room = vec_capacity s.buffer - vec_len s.buffer;
    } };

    ghost invariant = { λ s. ((IsPrefix s.queued.value s.past
        × (take s.waits s.buffer.items ≡ text_behind s.queued.value s.past))
        × (s.waits ≤ length s.buffer.items)) × (s.number ≡ numbered (length s.past)) };
}

impl PendingText {
    /// None of these entries, whose number is given, waits.
    pub(crate) fn resume_after(alloc: Global, past: GhostHistory, entries: u64) -> PendingText
        requires { entries ≡ numbered (length past) }
        ensures all { result.all ≡ past }
        ensures queued { result.queued ≡ past }
    {
        let queued = Snapshot::of(&past);
        PendingText {
            buffer: Vec::new(alloc),
            waits: 0,
            number: entries,
            asked: Line::new(),
            reply: ReplyLine::new(),
            past,
            queued,
        }
    }

    /// The number of entries.
    pub(crate) fn entries(&self) -> u64
        ensures { result ≡ numbered (length self.now.all) }
    {
        self.number
    }

    /// Those that were queued, for contracts alone.
    pub(crate) fn queued(&self) -> HistorySnapshot
        ensures { result.value.value ≡ self.now.queued }
    {
        Snapshot::of(&self.queued)
    }

    /// The text of the pending ones. Those that were queued are the first of all.
    pub(crate) fn text(&self) -> &[u8]
        ensures text { result.now ≡ text_behind self.now.queued self.now.all }
        ensures first { IsPrefix self.now.queued self.now.all }
    {
        &self.buffer[..self.waits]
    }

    /// None of them waits any more.
    pub(crate) fn clear(&mut self)
        ensures all { self.new.all ≡ self.old.all }
        ensures queued { self.new.queued ≡ self.old.all }
    {
        self.buffer.clear();
        self.waits = 0;
        self.queued = Snapshot::of(&self.past);
    }
}

/// Moves the text of a buffer to the end of this one. Without memory nothing changes; if this one
/// is empty, none is taken.
fn move_text(buffer: &mut Vec<u8>, text: &mut Vec<u8>) -> Result<(), AllocError>
    ensures all { OnOk result (text.new.items ≡ text.old.items ++ buffer.old.items) }
    ensures none { OnOk result (buffer.new.items ≡ []) }
    ensures same { OnErr result (text.new.items ≡ text.old.items) }
    ensures kept { OnErr result (buffer.new.items ≡ buffer.old.items) }
{
    if text.is_empty() {
        mem::swap(text, buffer);
        return Ok(());
    }
    text.extend_from_slice(buffer.as_slice())?;
    buffer.clear();
    Ok(())
}

impl EntryLog for PendingText {
    ghost use Rattle.std.specs.Prelude.{true, false};
    ghost use Rattle.book_record.specs.Streams.{IsDrafted};

    ghost pushed = { λ s. s.all };

    ghost durable = { λ s. s.queued };

    ghost whole = { λ _. true };

    ghost limited = { false };

    ghost loses = { true };

    ghost drafted = { IsDrafted };

    fn is_whole(&self) -> bool {
        true
    }

    fn has_room(&self) -> bool {
        true
    }

    fn draft(&mut self, session: usize, call: &Call) -> Result<(), AllocError> {
        self.buffer.truncate(self.waits);
        push_asked(&mut self.buffer, &mut self.asked, session, call)?;
        Ok(())
    }

    fn push(&mut self, entry: Entry) {
        self.past.add(&entry);
        let id = id_of(entry.call.told());
        push_logged(&mut self.buffer, &mut self.reply, id, &entry.reply).unwrap();
        push_sum_of(&mut self.buffer, self.waits, self.number).unwrap();
        self.number = self.number.wrapping_add(1);
        self.waits = self.buffer.len();
    }
}

impl PendingEntries for PendingText {
    ghost use Rattle.book_record.specs.Streams.{text_behind};

    ghost texts = { text_behind };

    fn past(&self) -> Snapshot<GhostHistory> {
        Snapshot::of(&self.past)
    }

    fn queue_text(&mut self, text: &mut Vec<u8>) -> Result<(), AllocError> {
        self.buffer.truncate(self.waits);
        move_text(&mut self.buffer, text)?;
        self.waits = 0;
        self.queued = Snapshot::of(&self.past);
        Ok(())
    }
}

//! The queue of entries on their way to the writer.

ghost use Rattle.std.specs.Prelude.{◌≡◌, ◌+◌, ◌++◌, ◌∷◌, ◌≤◌, ◌<◌, ◌||◌, [], true, List, length};
ghost use Rattle.std.specs.Prelude.{IsSome};
ghost use Rattle.batch_book.specs.declared.entry.Entry.{Entry};
ghost use Rattle.batch_book.specs.declared.limits.TheConstants.{BOOK_SIDE, RECORD_SIDE};
ghost use Rattle.batch_book.specs.History.{IsPrefix};
ghost use Rattle.batch_book.specs.Places.{are_placed, last_place, notes_of, AreMarkedUpTo};
ghost use Rattle.batch_book.specs.Recording.{made_in, note, marked_in};
ghost use Rattle.batch_book.specs.Replies.{is_logged};
ghost use Rattle.batch_book.specs.Seats.{IsSynced};
ghost use Rattle.batch_book.specs.Sides.{side_lists, stood_in, taken_in};

use crate::book::Book;
use crate::ghost_history::{GhostHistory, HistorySnapshot};
use crate::limits::{BOOK_SIDE, RECORD_SIDE};
use crate::naming::ExchangeName;
use crate::noted::{AskedCall, NotedEntry};
use crate::pending_entries::PendingEntries;
use crate::reply::Reply;
use crate::seat::{Seat, SeatInner, mark};
use crate::unrecorded::Unrecorded;
use crate::write_pacing::WritePacing;
use session_lists::{Keeper, OwnList};
use std::marker::PhantomData;
use std::mem;
use std::snapshot::Snapshot;
use std::sync::ledger;
use std::sync::ledger::Share;

/// The queue of entries, under a lock of its own that is held for a moment only: the text of those
/// that weren't drained yet, how many were queued, the ledger's total, and the keeper of the lists.
///
/// Each entry has the next place. The book's side has noted all entries, and those that were
/// queued; the record's side those that were drained. What could be told to a session are its first
/// entries up to the place that the record's side noted last.
#[derive(Drop)]
pub struct CommitQueue<L: ExchangeName, E: PendingEntries> {
    pub text: Vec<u8>,
    pub count: u64,
    // Up to which place all entries are durable.
    pub front: u64,
    // Whether a seat writes.
    pub writes: bool,
    // Up to which place entries went with the writings that were begun.
    pub taken_over: u64,
    pub pacing: WritePacing,
    pub queued: Snapshot<GhostHistory>,
    pub entries: ledger::Book<L>,
    pub keeper: Keeper<NotedEntry, L>,
    pub of: PhantomData<E>,
    pub ghost counted: { length (made_in keeper.history) ≡ entries.total },
    pub ghost placed: { are_placed 0 keeper.history ≡ true },
    pub ghost known: { side_lists L.earlier (notes_of BOOK_SIDE keeper.history)
        ≡ (L.earlier ++ made_in keeper.history, queued.value) },
    pub ghost first: { IsPrefix queued.value (L.earlier ++ made_in keeper.history) },
    pub ghost many: { length queued.value ≡ length L.earlier + count },
    pub ghost taken: { IsPrefix (taken_in L.earlier keeper.history) queued.value },
    pub ghost waits: { text.items
        ≡ E.texts (taken_in L.earlier keeper.history) queued.value },
    pub ghost stood: { stood_in keeper.history ≡ front },
    pub ghost told: { AreMarkedUpTo front keeper.history },
}

impl<L: ExchangeName, E: PendingEntries> CommitQueue<L, E> {
    /// Whether a writing has failed: not all that was drained is durable, and no seat writes. Then
    /// no call is made any more.
    pub fn has_write_failed(&self) -> bool {
        !self.writes && self.front < self.taken_over
    }

    /// Whether a seat writes, and not all entries up to this place are durable.
    pub fn must_wait(&self, place: u64) -> bool {
        self.writes && self.front < place
    }

    /// Whether an entry of this place goes with a writing whose number is odd.
    pub fn is_odd(&self, place: u64) -> bool {
        (place <= self.taken_over) == self.pacing.is_odd()
    }

    /// Whether who sleeps may do so where its entry's writing doesn't wake it.
    pub fn wakes_all(&self) -> bool {
        self.has_write_failed() || self.pacing.late
    }

    /// Whether entries up to this place have to be written. Then the seat that asks writes them.
    pub fn begin(&mut self, place: u64) -> bool {
        if self.has_write_failed() || place <= self.front {
            return false;
        }
        self.writes = true;
        true
    }

    /// A seat has written, in so many microseconds, since all entries up to this place were
    /// durable. Each whose entry was written may soon ask again.
    pub fn end(&mut self, before: u64, micros: u64) {
        self.writes = false;
        let written = self.front.saturating_sub(before);
        self.pacing.end(self.count.saturating_add(written), micros);
    }

    /// Notes a call whose entry has this place, and queues what is pending at the book's side.
    /// Without memory for that it stays there.
    pub fn enqueue(
        &mut self,
        book: &mut Book<E>,
        place: u64,
        share: &mut Share<L>,
        lists: (OwnList<NotedEntry, L>, OwnList<NotedEntry, L>),
        asked: AskedCall,
        reply: &Reply,
    ) -> (OwnList<NotedEntry, L>, OwnList<NotedEntry, L>)
        requires session { lists.0.session ≡ asked.session }
        requires side { lists.1.session ≡ BOOK_SIDE }
        requires logged { is_logged reply.now ≡ true }
        requires parts { 0 < share.old.parts }
        requires grown { book.old.history ≡ (side_lists L.earlier lists.1.list).0
            ++ made_in (note asked.session place asked.call.value reply.now ∷ []) }
        requires durable { book.old.durable ≡ (side_lists L.earlier lists.1.list).1 }
        requires place { length book.old.history ≡ length L.earlier + place }
        ensures history { book.new.history ≡ book.old.history }
        ensures opening { book.new.opening ≡ book.old.opening }
        ensures session { result.0.session ≡ asked.session }
        ensures list { result.0.list ≡ lists.0.list
            ++ note asked.session place asked.call.value reply.now ∷ [] }
        ensures side { result.1.session ≡ BOOK_SIDE }
        ensures lists { side_lists L.earlier result.1.list
            ≡ (book.new.history, book.new.durable) }
        ensures amount { share.new.amount ≡ share.old.amount + 1 }
        ensures parts { share.new.parts ≡ share.old.parts }
    {
        let (own, its) = lists;
        let its = self.keeper.compare(its);
        self.entries.add(share, 1);
        let own = self.keeper.add(own, &NotedEntry::of(asked, place, reply));
        drain_into::<L, E>(
            book,
            place,
            &mut self.text,
            &mut self.queued,
            &mut self.count,
        );
        self.pacing.late |= self.count != place;
        let all = Snapshot::of(&book.past());
        let note = NotedEntry::side(BOOK_SIDE, 0, &all, &Snapshot::of(&self.queued));
        let its = self.keeper.add(its, &note);
        (own, its)
    }

    /// Drains the queue for the record's side: all entries that were queued, and how many. Their
    /// text changes places with the spare one.
    pub fn take_queue(
        &mut self,
        own: OwnList<NotedEntry, L>,
        spare: &mut Vec<u8>,
    ) -> (HistorySnapshot, u64, OwnList<NotedEntry, L>)
        requires side { own.session ≡ RECORD_SIDE }
        requires spare { spare.old.items ≡ [] }
        requires none { (all : List Entry) → E.texts all all ≡ [] }
        ensures first { IsPrefix (side_lists L.earlier own.list).0 result.0.value.value }
        ensures text { spare.new.items
            ≡ E.texts (side_lists L.earlier own.list).0 result.0.value.value }
        ensures count { length result.0.value.value ≡ length L.earlier + result.1 }
        ensures side { result.2.session ≡ RECORD_SIDE }
        ensures taken { (side_lists L.earlier result.2.list).0 ≡ result.0.value.value }
        ensures place { last_place 0 result.2.list ≡ last_place 0 own.list }
    {
        let own = self.keeper.compare(own);
        let all = Snapshot::of(&self.queued);
        let note = NotedEntry::side(RECORD_SIDE, self.front, &all, &all);
        let own = self.keeper.add(own, &note);
        mem::swap(&mut self.text, spare);
        self.pacing.round = self.pacing.round.saturating_add(1);
        self.taken_over = self.count;
        (all, self.count, own)
    }

    /// Notes up to which place all entries are durable, of those that the record's side has
    /// drained.
    pub fn mark_durable(
        &mut self,
        own: OwnList<NotedEntry, L>,
        taken: &HistorySnapshot,
        front: u64,
    ) -> OwnList<NotedEntry, L>
        requires side { own.session ≡ RECORD_SIDE }
        requires taken { (side_lists L.earlier own.list).0 ≡ taken.now.value.value }
        requires below { last_place 0 own.list ≤ front }
        ensures side { result.session ≡ RECORD_SIDE }
        ensures taken { (side_lists L.earlier result.list).0 ≡ taken.now.value.value }
        ensures place { last_place 0 result.list ≡ front }
    {
        let own = self.keeper.compare(own);
        let note = NotedEntry::side(RECORD_SIDE, front, taken, taken);
        self.front = front;
        self.keeper.add(own, &note)
    }

    /// Notes that all that the seat has asked can be told, if it is durable; else the record of its
    /// calls is broken.
    pub fn sync(&mut self, seat: &mut Seat<L>) -> Result<(), Unrecorded>
        requires { IsSome seat.old.exchange }
        ensures { IsSynced seat.old result seat.new }
    {
        let session = seat.session;
        let Some(place) = seat.place.take() else {
            unreachable!()
        };
        if self.front < place.last {
            // It was lost, or there was no memory to queue it.
            seat.place = Some(place.break_off());
            return Err(Unrecorded);
        }
        seat.place = Some(self.mark(session, place));
        Ok(())
    }

    // Notes that all which a session has asked can be told.
    fn mark(&mut self, session: usize, place: SeatInner<L>) -> SeatInner<L>
        requires session { place.own.session ≡ session }
        requires covered { place.last ≤ self.old.front }
        ensures access { result.access ≡ place.access }
        ensures made { made_in result.own.list ≡ made_in place.own.list }
        ensures told { marked_in result.own.list ≡ made_in place.own.list }
        ensures session { result.own.session ≡ session }
        ensures broken { result.broken ≡ place.broken }
    {
        let SeatInner {
            access,
            own,
            last,
            has_pending,
            broken,
        } = place;
        let own = self.keeper.compare(own);
        let place = SeatInner {
            access,
            own,
            last,
            has_pending,
            broken,
        };
        mark(&mut self.keeper, session, place)
    }
}

// Drains what is pending at the book's side into the queue, where there is memory for it.
fn drain_into<L: ExchangeName, E: PendingEntries>(
    book: &mut Book<E>,
    place: u64,
    text: &mut Vec<u8>,
    queued: &mut Snapshot<GhostHistory>,
    count: &mut u64,
)
    requires queued { queued.old.value ≡ book.old.durable }
    requires first { IsPrefix book.old.durable book.old.history }
    requires place { length book.old.history ≡ length L.earlier + place }
    requires many { length book.old.durable ≡ length L.earlier + count.old }
    ensures history { book.new.history ≡ book.old.history }
    ensures opening { book.new.opening ≡ book.old.opening }
    ensures queued { queued.new.value ≡ book.new.durable }
    ensures more { IsPrefix book.old.durable book.new.durable }
    ensures first { IsPrefix book.new.durable book.new.history }
    ensures many { length book.new.durable ≡ length L.earlier + count.new }
    ensures text { (taken : List Entry) → IsPrefix taken book.old.durable
        → text.old.items ≡ E.texts taken book.old.durable
        → text.new.items ≡ E.texts taken book.new.durable }
{
    match book.queue_text(text) {
        Ok(()) => {
            *queued = book.past();
            *count = place;
        }
        Err(_) => {}
    }
}

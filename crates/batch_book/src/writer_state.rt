//! What lies under the lock of the record, and how a seat is synced.

ghost use Rattle.std.specs.Prelude.{◌≡◌, ◌+◌, [], true, List, length, IsSome};
ghost use Rattle.std.specs.Option.{option_map_or};
ghost use Rattle.batch_book.specs.declared.entry.Entry.{Entry};
ghost use Rattle.batch_book.specs.declared.limits.TheConstants.{RECORD_SIDE};
ghost use Rattle.batch_book.specs.History.{IsPrefix};
ghost use Rattle.batch_book.specs.Places.{last_place};
ghost use Rattle.batch_book.specs.Seats.{IsSynced};
ghost use Rattle.batch_book.specs.Sides.{side_lists};

use crate::book_state::BookState;
use crate::commit_queue::CommitQueue;
use crate::ghost_history::HistorySnapshot;
use crate::history::History;
use crate::naming::ExchangeName;
use crate::noted::NotedEntry;
use crate::pending_entries::PendingEntries;
use crate::recorder::Recorder;
use crate::seat::Seat;
use crate::unrecorded::Unrecorded;
use crossbar::ConfigPort;
use peek_poke::WireMaker;
use session_lists::OwnList;
use std::sync::{Condvar, Mutex, MutexGuard, Wait};
use std::thread::{sleep, yield_now};
use std::time::{Clock, Duration, Instant};

/// The recorder, all entries that were drained, the list of what was noted of these, and a spare
/// buffer.
#[derive(Drop)]
pub struct WriterState<L: ExchangeName, H: History> {
    pub recorder: H::Recorder,
    pub taken: HistorySnapshot,
    pub own: Option<OwnList<NotedEntry, L>>,
    pub spare: Vec<u8>,
    pub ghost its: { option_map_or (λ o. o.session) own 0 ≡ RECORD_SIDE },
    pub ghost known: { (side_lists L.earlier (option_map_or (λ o. o.list) own [])).0
        ≡ taken.value.value },
    pub ghost tried: { H.Recorder.tried recorder ≡ taken.value.value },
    pub ghost first: { IsPrefix (H.Recorder.durable recorder) taken.value.value },
    pub ghost many: { length (H.Recorder.durable recorder)
        ≡ length L.earlier + last_place 0 (option_map_or (λ o. o.list) own []) },
    pub ghost empty: { spare.items ≡ [] },
    pub ghost texts: { (taken all : List Entry)
        → H.Pending.texts taken all ≡ H.Recorder.texts taken all },
}

impl<L: ExchangeName, H: History> WriterState<L, H> {
    /// Drains the queue, and writes it at once. Meanwhile others make calls. Where that fails, or a
    /// writing failed before, no more is durable than before.
    fn flush<R: Wait>(&mut self, rt: &R, waiting: &Mutex<CommitQueue<L, H::Pending>>) {
        if !self.recorder.is_whole() {
            return;
        }
        let Some(own) = self.own.take() else {
            unreachable!()
        };
        let (all, count, own) = waiting.lock(rt).take_queue(own, &mut self.spare);
        match self.recorder.append(&all, self.spare.as_slice()) {
            Ok(()) => {
                let own = waiting.lock(rt).mark_durable(own, &all, count);
                self.own = Some(own);
                self.taken = all;
                self.spare.clear();
            }
            Err(_) => {
                self.own = Some(own);
                self.taken = all;
                self.spare.clear();
            }
        }
    }
}

/// What lies under the locks of an exchange with group commit: the book, the queue and the record;
/// and where seats sleep while another writes. Who has the book's lock or the record's may wait for
/// the queue's. Nobody waits for one of those two who has the other, or the queue's.
#[derive(Drop)]
pub struct GroupCommit<L: ExchangeName, P: ConfigPort, W: WireMaker, G, H: History> {
    pub book: Mutex<BookState<L, P, W, G, H::Pending>>,
    pub waiting: Mutex<CommitQueue<L, H::Pending>>,
    pub odd: Condvar,
    pub even: Condvar,
    pub record: Mutex<WriterState<L, H>>,
    pub ghost loses: { H.loses ≡ true },
    pub ghost limited: { H.Pending.limited ≡ H.limited },
}

impl<L: ExchangeName, P: ConfigPort, W: WireMaker, G, H: History> GroupCommit<L, P, W, G, H> {
    /// Syncs a seat, so that all that it has asked can be told. While another seat writes, one
    /// whose last entry isn't durable sleeps. Then it writes the whole queue, if that entry still
    /// isn't durable and no writing has failed. `Err` where one has, or there was no memory to
    /// queue the entry.
    ///
    /// Each writing wakes all whose entries it wrote, and one of those who wait for the next one,
    /// which then writes. So who sleeps does so at `odd` or `even`, by the number of its entry's
    /// writing.
    pub fn sync<R: Wait + Clock>(&self, rt: &R, seat: &mut Seat<L>) -> Result<(), Unrecorded>
        requires { IsSome seat.old.exchange }
        ensures { IsSynced seat.old result seat.new }
    {
        let last = match &seat.place {
            Some(place) => place.last,
            None => 0,
        };
        let mut side = wait_until_durable(rt, &self.waiting, &self.odd, &self.even, last);
        let writes = side.begin(last);
        let mut is_odd = false;
        if writes {
            let (groups_writes, front) = (side.pacing.groups_writes, side.front);
            gather(rt, &self.waiting, side);
            let began = if groups_writes {
                Instant::now(rt).ok()
            } else {
                None
            };
            self.record.lock(rt).flush(rt, &self.waiting);
            side = self.waiting.lock(rt);
            side.end(front, micros_since(rt, began));
            is_odd = side.pacing.is_odd();
        }
        let wakes_all = side.wakes_all();
        let settled = side.sync(seat);
        drop(side);
        if writes {
            let (done, next) = if is_odd {
                (&self.odd, &self.even)
            } else {
                (&self.even, &self.odd)
            };
            if wakes_all {
                next.notify_all();
            } else {
                next.notify_one();
            }
            done.notify_all();
        }
        settled
    }
}

// How many microseconds have passed, as far as the clock can be read.
fn micros_since<R: Clock>(rt: &R, began: Option<Instant>) -> u64 {
    match began.map(|began| began.elapsed(rt)) {
        Some(Ok(passed)) => u64::try_from(passed.as_micros()).unwrap_or(u64::MAX),
        _ => 0,
    }
}

// Lets other threads run while entries come, so that more are written at once, where that is worth
// it: until as many have come as may soon do. Where a writing takes long it naps meanwhile.
fn gather<L: ExchangeName, E: PendingEntries, R: Wait + Clock>(
    rt: &R,
    waiting: &Mutex<CommitQueue<L, E>>,
    side: MutexGuard<CommitQueue<L, E>>,
) {
    let looks = side.pacing.writer_looks();
    let nap = Duration::from_micros(side.pacing.nap);
    let (mut count, due) = (side.count, side.pacing.due);
    drop(side);
    for _ in 0..looks {
        if due <= count {
            break;
        }
        if nap.is_zero() {
            yield_now();
        } else {
            sleep(rt, nap);
        }
        let now = waiting.lock(rt).count;
        if now == count {
            break;
        }
        count = now;
    }
}

// The queue, once all entries up to this place are durable, or no seat writes.
fn wait_until_durable<'b, L: ExchangeName, E: PendingEntries, R: Wait>(
    rt: &R,
    waiting: &'b Mutex<CommitQueue<L, E>>,
    odd: &Condvar,
    even: &Condvar,
    place: u64,
) -> MutexGuard<'b, CommitQueue<L, E>> {
    let mut side = waiting.lock(rt);
    for _ in 0..side.pacing.waiter_looks() {
        if !side.must_wait(place) {
            return side;
        }
        drop(side);
        yield_now();
        side = waiting.lock(rt);
    }
    let written = if side.is_odd(place) { odd } else { even };
    written.wait_while(rt, side, |side| side.must_wait(place))
}

//! How an exchange is closed.

ghost use Rattle.std.specs.Prelude.{◌≡◌, ◌≤◌, max, true, length, All, Some, IsSome};
ghost use Rattle.batch_book.specs.Recording.{made_in};
ghost use Rattle.batch_book.specs.Closing.{AreClosed};
ghost use Rattle.batch_book.specs.Places.{LogAgrees};
ghost use Rattle.batch_book.specs.Seats.{parts_of, entries_of, AskedAgrees};
ghost use Rattle.batch_book.specs.Values.{greatest};

use crate::access::ExchangeAccess;
use crate::book::{Book, take_back};
use crate::book_state::BookState;
use crate::commit_queue::CommitQueue;
use crate::entry_log::EntryLog;
use crate::history::History;
use crate::lists::have_all_parts;
use crate::locked::LockedBook;
use crate::memory_history::MemoryHistory;
use crate::naming::ExchangeName;
use crate::noted::NotedEntry;
use crate::seat::{Seat, SeatInner};
use crate::shared::{Locks, Shared};
use crate::writer_state::{GroupCommit, WriterState};
use crossbar::ConfigPort;
use peek_poke::WireMaker;
use progress_word::{ALL_PARTS, ProgressWord};
use session_lists::Keeper;
use setting_runner::Plant;

/// What an exchange leaves.
#[derive(Drop)]
pub struct Closed<P, W, G, H: EntryLog = MemoryHistory> {
    /// The book, with the history and the rack.
    pub book: Book<H>,
    /// What runs were made with.
    pub plant: Plant<P, W, G>,
}

/// The seats aren't all seats of the exchange. All is as it was.
#[derive(Drop)]
pub struct SeatMissing<
    L: ExchangeName,
    P: ConfigPort,
    W: WireMaker,
    G,
    H: History = MemoryHistory,
> {
    pub exchange: Shared<L, P, W, G, H>,
    pub seats: Vec<Seat<L>>,
}

impl<L: ExchangeName, P: ConfigPort, W: WireMaker, G, H: History> Shared<L, P, W, G, H> {
    ghost use Rattle.batch_book.specs.Closing.{Closes};

    /// Closes the exchange, once all of its seats are given back, in any order. What each seat
    /// asked is then the history filtered to its session, without the entries that the book had
    /// before. What could be told to it is durable. It takes time by the seats, and no memory.
    pub fn close(
        self,
        seats: Vec<Seat<L>>,
    ) -> Result<Closed<P, W, G, H>, SeatMissing<L, P, W, G, H>>
        requires parts { L.parts ≡ ALL_PARTS }
        requires seats { All (λ s. s.exchange ≡ Some self.word) seats.items }
        ensures { Closes P.ConfigPort W.is_sure L.opening L.earlier self seats.items result }
    {
        if !have_all_parts(seats.as_slice()) {
            return Err(SeatMissing {
                exchange: self,
                seats,
            });
        }
        let (locks, word) = self.into_parts();
        match locks {
            Locks::Single(locked) => Ok(close_one(locked.into_inner(), &word, seats)),
            Locks::Group(locks) => {
                let GroupCommit {
                    book,
                    waiting,
                    odd: _,
                    even: _,
                    record,
                } = locks;
                Ok(close_each(
                    book.into_inner(),
                    waiting.into_inner(),
                    record.into_inner(),
                    &word,
                    seats,
                ))
            }
        }
    }
}

// What is left of an exchange with one lock.
fn close_one<L: ExchangeName, P: ConfigPort, W: WireMaker, G, H: EntryLog>(
    locked: LockedBook<L, P, W, G, H>,
    word: &ProgressWord,
    seats: Vec<Seat<L>>,
) -> Closed<P, W, G, H>
    requires parts { L.parts ≡ ALL_PARTS }
    requires all { ALL_PARTS ≤ parts_of seats.items }
    requires seats { All (λ s. s.exchange ≡ Some word.now) seats.items }
    ensures { AreClosed P.ConfigPort W.is_sure L.opening L.earlier seats.items result.book }
{
    let LockedBook {
        book,
        plant,
        mut entries,
        mut keeper,
    } = locked;
    // Asked for only for its contract: all entries are durable.
    book.log();
    let mut all = gather(word, &mut keeper, seats);
    entries.audit(&mut all.share);
    word.load(&mut all.watcher);
    Closed { book, plant }
}

// What is left of an exchange whose recorder was lent: all that is pending is written, unless a
// writing has failed.
fn close_each<L: ExchangeName, P: ConfigPort, W: WireMaker, G, H: History>(
    book: BookState<L, P, W, G, H::Pending>,
    waiting: CommitQueue<L, H::Pending>,
    record: WriterState<L, H>,
    word: &ProgressWord,
    seats: Vec<Seat<L>>,
) -> Closed<P, W, G, H>
    requires loses { H.loses ≡ true }
    requires limited { H.Pending.limited ≡ H.limited }
    requires parts { L.parts ≡ ALL_PARTS }
    requires all { ALL_PARTS ≤ parts_of seats.items }
    requires seats { All (λ s. s.exchange ≡ Some word.now) seats.items }
    ensures { AreClosed P.ConfigPort W.is_sure L.opening L.earlier seats.items result.book }
{
    let BookState {
        book,
        plant,
        own,
        pushed: _,
    } = book;
    let CommitQueue {
        text,
        count: _,
        front: _,
        writes: _,
        taken_over: _,
        pacing: _,
        queued: _,
        mut entries,
        mut keeper,
        of: _,
    } = waiting;
    let WriterState {
        recorder,
        taken: _,
        own: its,
        spare: _,
    } = record;
    let Some(own) = own else { unreachable!() };
    let Some(its) = its else { unreachable!() };
    keeper.compare(own);
    keeper.compare(its);
    let mut all = gather(word, &mut keeper, seats);
    entries.audit(&mut all.share);
    word.load(&mut all.watcher);
    let book = take_back::<H>(book, recorder, text.as_slice());
    Closed { book, plant }
}

// What a seat has of its exchange, without its list, which is what its session made, and of which
// the first could be told.
fn compared<L: ExchangeName>(keeper: &mut Keeper<NotedEntry, L>, seat: Seat<L>) -> ExchangeAccess<L>
    requires { IsSome seat.exchange }
    ensures keeper { keeper.new.history ≡ keeper.old.history }
    ensures asked { AskedAgrees (made_in keeper.old.history) seat }
    ensures told { LogAgrees keeper.old.history seat }
    ensures word { Some result.watcher.word ≡ seat.exchange }
    ensures seen { result.watcher.seen ≡ seat.seen }
    ensures raised { result.watcher.raised
        ≤ max (greatest L.earlier) (greatest (made_in keeper.old.history)) }
    ensures parts { result.parts ≡ seat.parts }
    ensures amount { result.share.amount ≡ length seat.asked }
{
    let SeatInner {
        access,
        own,
        last: _,
        has_pending: _,
        broken: _,
    } = seat.into_inner();
    keeper.compare(own);
    access
}

// One access that has all that the seats had, whose lists are what their sessions made, and of
// which the first could be told.
fn gather<L: ExchangeName>(
    word: &ProgressWord,
    keeper: &mut Keeper<NotedEntry, L>,
    mut seats: Vec<Seat<L>>,
) -> ExchangeAccess<L>
    requires parts { L.parts ≡ ALL_PARTS }
    requires all { ALL_PARTS ≤ parts_of seats.items }
    requires seats { All (λ s. s.exchange ≡ Some word.now) seats.items }
    ensures asked { All (AskedAgrees (made_in keeper.old.history)) seats.items }
    ensures told { All (LogAgrees keeper.old.history) seats.items }
    ensures word { result.watcher.word ≡ word.now }
    ensures parts { result.parts ≡ ALL_PARTS }
    ensures total { parts_of seats.items ≡ ALL_PARTS }
    ensures amount { result.share.amount ≡ entries_of seats.items }
    ensures seen { All (λ s. s.seen ≤ result.watcher.seen) seats.items }
    ensures raised { result.watcher.raised
        ≤ max (greatest L.earlier) (greatest (made_in keeper.old.history)) }
{
    let Some(last) = seats.pop() else {
        unreachable!()
    };
    let mut all = compared(keeper, last);
    for seat in seats {
        let access = compared(keeper, seat);
        all.join(word, access);
    }
    all
}

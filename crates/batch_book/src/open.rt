//! How an exchange is made.

ghost use Rattle.std.specs.Prelude.{◌≡◌, ◌↔◌, ◌≤◌, ◌<◌, ◌⊎◌, [], true, vec_capacity, Ok, IfOk};
ghost use Rattle.std.specs.Prelude.{IfErr, OnOk};
ghost use Rattle.exchange_limits.specs.declared.limits.TheConstants.{MAX_SESSIONS};
ghost use Rattle.progress_word.specs.declared.limits.TheConstants.{ALL_PARTS};
ghost use Rattle.progress_word.specs.Watchers.{watcher_view};
ghost use Rattle.batch_book.specs.Exchanges.{AreNew};
ghost use Rattle.batch_book.specs.History.{AreUnstopped, new_book_view};
ghost use Rattle.batch_book.specs.declared.limits.TheConstants.{BOOK_SIDE, RECORD_SIDE};
ghost use Rattle.batch_book.specs.Naming.{IsNamed};
ghost use Rattle.batch_book.specs.Replies.{NeverFail};
ghost use Rattle.batch_book.specs.Values.{greatest};

use crate::access::ExchangeAccess;
use crate::book::{Book, lend};
use crate::book_state::BookState;
use crate::commit_queue::CommitQueue;
use crate::history::History;
use crate::locked::LockedBook;
use crate::memory_history::MemoryHistory;
use crate::naming::{ExchangeBlank, ExchangeName};
use crate::noted::NotedEntry;
use crate::recorder::Recorder;
use crate::seat::Seat;
use crate::shared::{Locks, Shared};
use crate::write_pacing::WritePacing;
use crate::writer_state::{GroupCommit, WriterState};
use crossbar::ConfigPort;
use exchange_limits::MAX_SESSIONS;
use module_memory::Rack;
use peek_poke::WireMaker;
use progress_word::{ALL_PARTS, ProgressWord, Watcher};
use session_lists::{Keeper, OwnList};
use setting_runner::Plant;
use std::alloc::Global;
use std::marker::PhantomData;
use std::snapshot::Snapshot;
use std::sync::{Condvar, Mutex, ledger};
use thiserror::Error;

/// Why an exchange can't be made. The causes are tested in this order.
#[derive(Clone, Copy, Debug, Error)]
pub enum SharedFault {
    /// There are no sessions, or more than [`MAX_SESSIONS`].
    #[error("sessions must be 1 to 16")]
    BadSessions,
    /// There was no memory.
    #[error("no memory")]
    NoMemory,
}

/// What an exchange of so many sessions takes memory for, beside its book.
#[derive(Drop)]
struct SeatStorage<L: ExchangeName> {
    word: ProgressWord,
    watcher: Watcher,
    // None yet, but room for all.
    seats: Vec<Seat<L>>,
    sessions: usize,
    ghost whole: { watcher ≡ watcher_view word 0 0 ALL_PARTS },
    ghost empty: { seats.items ≡ [] },
    ghost room: { sessions ≤ vec_capacity seats },
    ghost some: { 1 ≤ sessions },
    ghost few: { sessions ≤ MAX_SESSIONS },
}

impl<L: ExchangeName> SeatStorage<L> {
    fn new(alloc: Global, sessions: usize) -> Result<SeatStorage<L>, SharedFault>
        ensures sessions { IfOk result (λ storage. storage.sessions ≡ sessions) }
        ensures bad { IfErr result (λ fault.
            (fault ≡ SharedFault.BadSessions) ↔ ((sessions ≡ 0) ⊎ (MAX_SESSIONS < sessions))) }
    {
        if sessions == 0 || sessions > MAX_SESSIONS {
            return Err(SharedFault::BadSessions);
        }
        let Ok(seats) = Vec::with_capacity(alloc, sessions) else {
            return Err(SharedFault::NoMemory);
        };
        let Ok((word, watcher)) = ProgressWord::new(alloc) else {
            return Err(SharedFault::NoMemory);
        };
        Ok(SeatStorage {
            word,
            watcher,
            seats,
            sessions,
        })
    }
}

impl<L: ExchangeName, P: ConfigPort, W: WireMaker, G> Shared<L, P, W, G, MemoryHistory> {
    /// An exchange over this rack and plant, and a seat for each session, from 1 to
    /// [`MAX_SESSIONS`] of them. The sessions are numbered from 0, in the order of the seats. Blank
    /// and rack are those that the exchange is named by.
    ///
    /// It takes memory for a copy of the rack, for the book, the word and the seats. Where it can't
    /// be made, blank, rack and plant come back as they were.
    pub fn new(
        alloc: Global,
        blank: ExchangeBlank,
        rack: Rack,
        plant: Plant<P, W, G>,
        sessions: usize,
    ) -> Result<
        (Shared<L, P, W, G, MemoryHistory>, Vec<Seat<L>>),
        (ExchangeBlank, Rack, Plant<P, W, G>, SharedFault),
    >
        requires { IsNamed L.name L.parts L.table L.opening L.earlier blank (new_book_view rack) }
        ensures sessions { OnOk result ((1 ≤ sessions) × (sessions ≤ MAX_SESSIONS)) }
        ensures shape { IfOk result (λ made. made.0.shape ≡ rack.shape) }
        ensures seats { IfOk result (λ made. AreNew made.0.word 0 sessions made.1.items) }
        ensures blank { IfErr result (λ back. back.0 ≡ blank) }
        ensures rack { IfErr result (λ back. back.1 ≡ rack) }
        ensures plant { IfErr result (λ back. back.2 ≡ plant) }
        ensures bad { IfErr result (λ back.
            (back.3 ≡ SharedFault.BadSessions) ↔ ((sessions ≡ 0) ⊎ (MAX_SESSIONS < sessions))) }
    {
        let storage = match SeatStorage::new(alloc, sessions) {
            Ok(storage) => storage,
            Err(fault) => return Err((blank, rack, plant, fault)),
        };
        match Book::new(alloc, rack) {
            Ok(book) => Ok(assemble(alloc, blank, book, plant, storage)),
            Err((rack, _)) => Err((blank, rack, plant, SharedFault::NoMemory)),
        }
    }
}

impl<L: ExchangeName, P: ConfigPort, W: WireMaker, G, H: History> Shared<L, P, W, G, H> {
    /// An exchange over this book, which may have entries before, and this plant. Its word begins
    /// as far as the runs of these have come. Else the same as [`new`](Shared::new).
    pub fn of_book(
        alloc: Global,
        blank: ExchangeBlank,
        book: Book<H>,
        plant: Plant<P, W, G>,
        sessions: usize,
    ) -> Result<
        (Shared<L, P, W, G, H>, Vec<Seat<L>>),
        (ExchangeBlank, Book<H>, Plant<P, W, G>, SharedFault),
    >
        requires named { IsNamed L.name L.parts L.table L.opening L.earlier blank book }
        requires unstopped { NeverFail P.ConfigPort W.is_sure → AreUnstopped book.history }
        ensures sessions { OnOk result ((1 ≤ sessions) × (sessions ≤ MAX_SESSIONS)) }
        ensures shape { IfOk result (λ made. made.0.shape ≡ book.machine.store.shape) }
        ensures seats { IfOk result (λ made.
            AreNew made.0.word (greatest book.history) sessions made.1.items) }
        ensures back { IfErr result (λ back.
            (back.0 ≡ blank) × (back.1 ≡ book) × (back.2 ≡ plant)) }
        ensures bad { IfErr result (λ back.
            (back.3 ≡ SharedFault.BadSessions) ↔ ((sessions ≡ 0) ⊎ (MAX_SESSIONS < sessions))) }
    {
        match SeatStorage::new(alloc, sessions) {
            Ok(storage) => Ok(assemble(alloc, blank, book, plant, storage)),
            Err(fault) => Err((blank, book, plant, fault)),
        }
    }
}

// The exchange and its seats, which takes no memory.
fn assemble<L: ExchangeName, P: ConfigPort, W: WireMaker, G, H: History>(
    alloc: Global,
    blank: ExchangeBlank,
    book: Book<H>,
    plant: Plant<P, W, G>,
    storage: SeatStorage<L>,
) -> (Shared<L, P, W, G, H>, Vec<Seat<L>>)
    requires named { IsNamed L.name L.parts L.table L.opening L.earlier blank book }
    requires unstopped { NeverFail P.ConfigPort W.is_sure → AreUnstopped book.history }
    ensures shape { result.0.shape ≡ book.machine.store.shape }
    ensures seats { AreNew result.0.word (greatest book.history) storage.sessions result.1.items }
{
    let SeatStorage {
        word,
        mut watcher,
        seats,
        sessions,
    } = storage;
    let shape = book.rack().shape();
    word.raise(&mut watcher, book.furthest());
    word.load(&mut watcher);
    let ExchangeBlank { ledger, history } = blank;
    let (entries, share) = ledger.open::<L>();
    let mut keeper = history.open::<L>();
    let all = ExchangeAccess {
        share,
        watcher,
        parts: ALL_PARTS,
    };
    let seats = deal(&word, &mut keeper, seats, all, sessions);
    let locks = part(alloc, book, plant, entries, keeper, sessions);
    (Shared::of(locks, word, shape), seats)
}

// What lies under one lock, or under three where the history lends its recorder.
fn part<L: ExchangeName, P: ConfigPort, W: WireMaker, G, H: History>(
    alloc: Global,
    book: Book<H>,
    plant: Plant<P, W, G>,
    entries: ledger::Book<L>,
    keeper: Keeper<NotedEntry, L>,
    sessions: usize,
) -> Locks<L, P, W, G, H>
    requires opening { book.opening ≡ L.opening }
    requires earlier { book.history ≡ L.earlier }
    requires stand { book.durable ≡ L.earlier }
    requires whole { book.whole ≡ true }
    requires unstopped { NeverFail P.ConfigPort W.is_sure → AreUnstopped book.history }
    requires none { entries.total ≡ 0 }
    requires history { keeper.history ≡ [] }
    requires dealt { keeper.dealt ≡ sessions }
    requires few { sessions ≤ MAX_SESSIONS }
{
    let (book, recorder) = match lend(book) {
        Ok(parts) => parts,
        Err(book) => {
            return Locks::Single(Mutex::new(LockedBook {
                book,
                plant,
                entries,
                keeper,
            }));
        }
    };
    let mut keeper = keeper;
    let (own, its) = deal_sides(&mut keeper, sessions);
    let queued = book.past();
    let taken = Snapshot::of(&book.past());
    // Asked for only for its contract, which says that no text is after all entries.
    recorder.is_whole();
    Locks::Group(GroupCommit {
        book: Mutex::new(BookState {
            book,
            plant,
            own: Some(own),
            pushed: 0,
        }),
        waiting: Mutex::new(CommitQueue {
            text: Vec::new(alloc),
            count: 0,
            front: 0,
            writes: false,
            taken_over: 0,
            pacing: WritePacing::new(recorder.groups_writes()),
            queued,
            entries,
            keeper,
            of: PhantomData,
        }),
        odd: Condvar::new(),
        even: Condvar::new(),
        record: Mutex::new(WriterState {
            recorder,
            taken,
            own: Some(its),
            spare: Vec::new(alloc),
        }),
    })
}

// The lists of the book's side and of the record's, after those of all sessions that there may be.
fn deal_sides<L: ExchangeName>(
    keeper: &mut Keeper<NotedEntry, L>,
    sessions: usize,
) -> (OwnList<NotedEntry, L>, OwnList<NotedEntry, L>)
    requires history { keeper.old.history ≡ [] }
    requires dealt { keeper.old.dealt ≡ sessions }
    requires few { sessions ≤ MAX_SESSIONS }
    ensures history { keeper.new.history ≡ [] }
    ensures sides { (result.0.session ≡ BOOK_SIDE) × (result.1.session ≡ RECORD_SIDE) }
    ensures lists { (result.0.list ≡ []) × (result.1.list ≡ []) }
{
    for _list in sessions..MAX_SESSIONS {
        keeper.deal();
    }
    let own = keeper.deal();
    (own, keeper.deal())
}

// Deals the parts to the seats, which takes no memory: each gets one, and the first keeps those
// left over. All have seen as much as the first.
fn deal<L: ExchangeName>(
    word: &ProgressWord,
    keeper: &mut Keeper<NotedEntry, L>,
    mut seats: Vec<Seat<L>>,
    mut first: ExchangeAccess<L>,
    sessions: usize,
) -> Vec<Seat<L>>
    requires empty { seats.items ≡ [] }
    requires room { sessions ≤ vec_capacity seats }
    requires some { 0 < sessions }
    requires few { sessions ≤ MAX_SESSIONS }
    requires first { first.watcher
        ≡ watcher_view word.now first.watcher.seen first.watcher.raised ALL_PARTS }
    requires raised { first.watcher.raised ≡ greatest L.earlier }
    requires seen { first.watcher.seen ≡ first.watcher.raised }
    requires amount { first.share.amount ≡ 0 }
    requires none_dealt { keeper.old.dealt ≡ 0 }
    requires history { keeper.old.history ≡ [] }
    ensures seats { AreNew word.now first.watcher.seen sessions result.items }
    ensures history { keeper.new.history ≡ [] }
    ensures dealt { keeper.new.dealt ≡ sessions }
{
    let own = keeper.deal();
    for session in 1..sessions {
        let seat = Seat::new(session, first.split(word), keeper.deal());
        seats.push(seat).unwrap();
    }
    let seat = Seat::new(0, first, own);
    seats.insert(0, seat).unwrap();
    seats
}

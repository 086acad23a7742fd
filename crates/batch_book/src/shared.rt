//! One exchange, and the calls of its seats.

ghost use Rattle.std.specs.Prelude.{◌≡◌, ◌≤◌, ◌<◌, true, false, Some, IfOk, OnErr};
ghost use Rattle.batch_book.specs.Answering.{IsReplyTo};
ghost use Rattle.batch_book.specs.Seats.{IsSameSeat, IsAsked, IsSynced, HasRaisedOwn};
ghost use Rattle.batch_book.specs.Values.{value_at};

use crate::call::Call;
use crate::history::History;
use crate::limits::RUN_STEP;
use crate::locked::LockedBook;
use crate::memory_history::MemoryHistory;
use crate::naming::ExchangeName;
use crate::reading::Reading;
use crate::reply::Reply;
use crate::seat::Seat;
use crate::unrecorded::Unrecorded;
use crate::writer_state::GroupCommit;
use batch::Shape;
use crossbar::ConfigPort;
use peek_poke::WireMaker;
use progress_word::ProgressWord;
use schedule_certificate::Gate;
use std::hint::spin_loop;
use std::marker::Model;
use std::sync::{Mutex, MutexGuard, Wait};
use std::thread;
use std::thread::Threads;
use std::time::Clock;

/// How often a call looks in a row whether the lock is free. That takes some microseconds, in which
/// most calls of others are done.
const LOCK_SPINS: usize = 30;

/// How long it pauses between two looks.
const PAUSES: usize = 10;

/// How often it lets other threads run, before it sleeps until the lock is free.
const LOCK_YIELDS: usize = 100;

/// Pauses between two looks.
fn pause() {
    for _ in 0..PAUSES {
        spin_loop();
    }
}

// What is under the lock, if it comes free within some looks.
fn try_lock_spinning<T>(lock: &Mutex<T>) -> Option<MutexGuard<'_, T>> {
    for _ in 0..LOCK_SPINS {
        if let Some(guard) = lock.try_lock() {
            return Some(guard);
        }
        pause();
    }
    None
}

// What is under the lock, once it is free. Who sleeps for it is woken by a call of the system,
// which takes longer than most calls of a book. So a thread lets others run some times first.
fn lock_spinning<'b, T, R: Wait>(rt: &R, lock: &'b Mutex<T>) -> MutexGuard<'b, T> {
    for _ in 0..LOCK_YIELDS {
        if let Some(guard) = try_lock_spinning(lock) {
            return guard;
        }
        thread::yield_now();
    }
    lock.lock(rt)
}

/// One exchange for many sessions: a book and its plant under a lock, a recorder that is lent under
/// another, and beside them a word that says how far the runs have come. Each session calls from a
/// [`Seat`] of its own. Contracts see which exchange it is, and the shape of its rack.
#[derive(Drop)]
pub struct Shared<L: ExchangeName, P: ConfigPort, W: WireMaker, G, H: History = MemoryHistory> {
    locks: Locks<L, P, W, G, H>,
    word: ProgressWord,
    shape: Shape,
}

/// What lies under the locks of an exchange.
#[derive(Drop)]
pub(crate) enum Locks<L: ExchangeName, P: ConfigPort, W: WireMaker, G, H: History> {
    /// All under one, where no entry can be lost.
    Single(Mutex<LockedBook<L, P, W, G, H>>),
    /// The book, the queue and the record under one each: group commit.
    Group(GroupCommit<L, P, W, G, H>),
}

impl<L: ExchangeName, P: ConfigPort, W: WireMaker, G, H: History> Model for Shared<L, P, W, G, H> {
    ghost use Rattle.batch_book.specs.Exchanges.{Exchange, exchange_coded};

    ghost Value = { Exchange };

    ghost coded = { exchange_coded };

    ghost view = { λ s. record { word = s.word; shape = s.shape } };
}

impl<L: ExchangeName, P: ConfigPort, W: WireMaker, G, H: History> Shared<L, P, W, G, H> {
    pub(crate) fn of(
        locks: Locks<L, P, W, G, H>,
        word: ProgressWord,
        shape: Shape,
    ) -> Shared<L, P, W, G, H>
        ensures { (result.word ≡ word) × (result.shape ≡ shape) }
    {
        Shared { locks, word, shape }
    }

    pub(crate) fn into_parts(self) -> (Locks<L, P, W, G, H>, ProgressWord)
        ensures { result.1 ≡ self.word }
    {
        let Shared {
            locks,
            word,
            shape: _,
        } = self;
        (locks, word)
    }

    /// The shape of the rack. It takes no lock.
    pub fn shape(&self) -> Shape
        ensures { result ≡ self.now.shape }
    {
        self.shape
    }

    /// Whether the seat may have asked something that can't be told yet: never where no entry can
    /// be lost. It takes no lock.
    pub fn has_pending(&self, seat: &Seat<L>) -> bool
        ensures { result ≡ true → H.loses ≡ true }
    {
        match &self.locks {
            Locks::Single(_) => false,
            Locks::Group(_) => seat.has_pending(),
        }
    }

    /// How far the runs have come, which isn't after what the seat has seen. One atomic load: it
    /// takes no lock, and waits for no run.
    pub fn progress(&self, seat: &mut Seat<L>) -> Reading
        requires { seat.old.exchange ≡ Some self.now.word }
        ensures reading { seat.new.seen ≡ value_at result.run result.done }
        ensures done { result.done < RUN_STEP }
        ensures later { seat.old.seen ≤ seat.new.seen }
        ensures raised { HasRaisedOwn L.earlier seat.old × (seat.new.raised ≡ seat.old.raised) }
        ensures seat { IsSameSeat seat.old seat.new }
        ensures asked { seat.new.asked ≡ seat.old.asked }
        ensures log { seat.new.log ≡ seat.old.log }
        ensures broken { seat.new.broken ≡ seat.old.broken }
    {
        let value = match &mut seat.place {
            Some(place) => self.word.load(&mut place.access.watcher),
            None => unreachable!(),
        };
        Reading {
            run: value / RUN_STEP,
            done: value % RUN_STEP,
        }
    }
}

impl<L: ExchangeName, P: ConfigPort, W: WireMaker + Sync, G: Gate + Sync, H: History> Shared<
    L,
    P,
    W,
    G,
    H,
> {
    /// One call of the seat's session, and its reply: it takes the lock, and applies the call to
    /// the book. Call and reply are added to what the seat asked, where they are in the history.
    /// The seat has then seen what the reply tells of a run, and nothing new where it tells of
    /// none.
    ///
    /// The reply may be told once the seat is [synced](Shared::sync): at once, where no entry can
    /// be lost. Where entries were lost before, the call isn't made.
    ///
    /// It waits until the calls of other seats that go before it are done, runs included. It takes
    /// the memory that the book takes, and with group commit that of the pending text.
    pub fn try_call<R: Threads + Wait + Sync>(
        &self,
        rt: &R,
        seat: &mut Seat<L>,
        call: Call,
    ) -> Result<Reply, Unrecorded>
        requires { seat.old.exchange ≡ Some self.now.word }
        ensures reply { IfOk result (IsReplyTo call) }
        ensures asked { IsAsked seat.old call result seat.new }
        ensures told { H.loses ≡ false → seat.new.log ≡ seat.new.asked }
        ensures loses { OnErr result (H.loses ≡ true) }
    {
        match &self.locks {
            Locks::Single(locked) => lock_spinning(rt, locked).call(rt, &self.word, seat, call),
            Locks::Group(locks) => {
                lock_spinning(rt, &locks.book).call(rt, &locks.waiting, &self.word, seat, call)
            }
        }
    }

    /// Makes a call where no entry can be lost. Its reply may be told at once.
    pub fn call<R: Threads + Wait + Sync>(&self, rt: &R, seat: &mut Seat<L>, call: Call) -> Reply
        requires exchange { seat.old.exchange ≡ Some self.now.word }
        requires sure { H.loses ≡ false }
        ensures reply { IsReplyTo call result }
        ensures asked { IsAsked seat.old call (Ok result) seat.new }
        ensures told { seat.new.log ≡ seat.new.asked }
    {
        match self.try_call(rt, seat, call) {
            Ok(reply) => reply,
            Err(_) => unreachable!(),
        }
    }

    /// Syncs a seat, so that all that it has asked can be told: where its last entry is pending,
    /// all pending entries become durable, whoever's they are. Where nothing of it is pending it
    /// takes no lock. Where an entry is lost, or the pending text found no memory, no more can be
    /// told to the seat than before.
    ///
    /// Where the history lends its recorder one seat writes at a time, and others make calls
    /// meanwhile, runs included. Who syncs meanwhile sleeps until that one has written, unless all
    /// of its own entries are durable.
    pub fn sync<R: Wait + Clock>(&self, rt: &R, seat: &mut Seat<L>) -> Result<(), Unrecorded>
        requires { seat.old.exchange ≡ Some self.now.word }
        ensures settled { IsSynced seat.old result seat.new }
        ensures loses { OnErr result (H.loses ≡ true) }
    {
        if !seat.has_pending() {
            return Ok(());
        }
        match &self.locks {
            Locks::Single(locked) => {
                lock_spinning(rt, locked).sync(seat);
                Ok(())
            }
            Locks::Group(locks) => locks.sync(rt, seat),
        }
    }
}

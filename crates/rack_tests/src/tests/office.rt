//! An exchange with two seats, what they ask, and what they are answered as plain values.

ghost use Rattle.batch_book.specs.History.{new_book_view};
ghost use Rattle.batch_book.specs.Naming.{IsNamed};
ghost use Rattle.std.specs.Prelude.{◌≡◌, All, IfSome, Some};
ghost use Rattle.progress_word.specs.declared.limits.TheConstants.{ALL_PARTS};

use batch_book::{
    BatchState, BookRefusal, Call, Closed, ExchangeBlank, ExchangeName, History, Reply, Seat,
    SeatMissing, Shared,
};
use crossbar::{ConfigPort, MemoryPort};
use module_memory::Rack;
use peek_poke::WireMaker;
use runs_tests::common::{batch, plan};
use schedule_certificate::Gate;
use setting_runner::{Plant, RunRefusal};
use std::alloc::Global;
use std::sync::Wait;
use std::thread::Threads;
use std::time::Clock;

/// The address of the first word of block 0.
pub const FIRST: u32 = 0x8000_0800;

/// The batch of row book-limits.
pub const PUSH: &str = "batch 1\npush 0 0 1 0\n";

/// Two transfers that can't be in one setting: transfer 1 is in the second one.
pub const TWO_SETTINGS: &str = "batch 2\npush 0 0 1 0\npush 0 0 2 0\n";

/// What a reply says. Of a batch it says how many transfers it has.
#[derive(Clone, Copy, PartialEq, Eq)]
pub enum Said {
    Accepted(usize),
    Fetched(usize),
    Settled(usize),
    Ran(usize, usize, usize),
    Stopped,
    RunRefused(RunRefusal),
    Shown(usize, BatchState),
    Discarded,
    Word(u32),
    Poked,
    Refused(BookRefusal),
    /// The call couldn't be made, for want of memory, since its text is none of a batch, or since
    /// its entry would be lost.
    NotAsked,
}

impl Said {
    fn of(reply: &Reply) -> Said {
        match reply {
            Reply::Accepted(id) => Said::Accepted(*id),
            Reply::Fetched(batch) => Said::Fetched(batch.len()),
            Reply::Settled { settings } => Said::Settled(*settings),
            Reply::Ran {
                run,
                settings,
                words,
            } => Said::Ran(*run, *settings, *words),
            Reply::Stopped { .. } => Said::Stopped,
            Reply::RunRefused(refusal) => Said::RunRefused(*refusal),
            Reply::Shown { transfers, state } => Said::Shown(*transfers, *state),
            Reply::Discarded => Said::Discarded,
            Reply::Word(word) => Said::Word(*word),
            Reply::Poked => Said::Poked,
            Reply::Refused(refusal) => Said::Refused(*refusal),
        }
    }
}

/// What a session asks, by texts and numbers.
#[derive(Clone, Copy)]
pub enum Ask {
    Submit(&'static str),
    Fetch(usize),
    Settle(usize, &'static str),
    Run(usize),
    Show(usize),
    Discard(usize),
    Peek(usize, u32),
    Poke(usize, u32, u32),
}

impl Ask {
    /// The call.
    fn call<R: AllocGlobal + Threads + Sync>(self, rt: &R) -> Option<Call> {
        Some(match self {
            Ask::Submit(text) => Call::Submit(batch(rt.alloc(), text)?),
            Ask::Fetch(id) => Call::Fetch(id),
            Ask::Settle(id, text) => Call::Settle(id, plan(rt, text)?),
            Ask::Run(id) => Call::Run(id),
            Ask::Show(id) => Call::Show(id),
            Ask::Discard(id) => Call::Discard(id),
            Ask::Peek(module, address) => Call::Peek(module, address),
            Ask::Poke(module, address, word) => Call::Poke(module, address, word),
        })
    }
}

/// What a seat asks, and is answered.
pub fn answer<
    L: ExchangeName,
    P: ConfigPort,
    W: WireMaker + Sync,
    G: Gate + Sync,
    H: History,
    R: AllocGlobal + Clock + Threads + Wait + Sync,
>(rt: &R, shared: &Shared<L, P, W, G, H>, seat: &mut Seat<L>, ask: Ask) -> Said
    requires { seat.old.exchange ≡ Some shared.now.word }
    ensures { seat.new.exchange ≡ seat.old.exchange }
{
    let Some(call) = ask.call(rt) else {
        return Said::NotAsked;
    };
    match shared.try_call(rt, seat, call) {
        Ok(reply) => Said::of(&reply),
        Err(_) => Said::NotAsked,
    }
}

/// An exchange, and its two seats.
#[derive(Drop)]
pub struct Pair<L: ExchangeName, W: WireMaker, G> {
    pub shared: Shared<L, MemoryPort, W, G>,
    pub first: Seat<L>,
    pub second: Seat<L>,
    pub ghost of_first: { first.exchange ≡ Some shared.word },
    pub ghost of_second: { second.exchange ≡ Some shared.word },
}

/// An exchange with two seats on this rack, with this plant.
pub fn open_pair<L: ExchangeName, W: WireMaker + Drop, G: Drop>(
    alloc: Global,
    blank: ExchangeBlank,
    rack: Rack,
    plant: Plant<MemoryPort, W, G>,
) -> Option<Pair<L, W, G>>
    requires named { IsNamed L.name L.parts L.table L.opening L.earlier blank (new_book_view rack) }
    ensures first { IfSome result (λ pair. pair.first.log ≡ pair.first.asked) }
    ensures second { IfSome result (λ pair. pair.second.log ≡ pair.second.asked) }
{
    let made = Shared::<L, MemoryPort, W, G>::new(alloc, blank, rack, plant, 2);
    let Ok((shared, mut seats)) = made else {
        return None;
    };
    prove!(seats.len() == 2);
    let second = seats.remove(1);
    let first = seats.remove(0);
    Some(Pair {
        shared,
        first,
        second,
    })
}

/// What an exchange leaves that is closed with these seats. Nothing where one is missing.
pub fn closed<
    L: ExchangeName,
    P: ConfigPort + Drop,
    W: WireMaker + Drop,
    G: Drop,
    H: History + Drop,
>(shared: Shared<L, P, W, G, H>, seats: Vec<Seat<L>>) -> Option<Closed<P, W, G, H>>
where
    H::Recorder: Drop,
    H::Pending: Drop,
    requires parts { L.parts ≡ ALL_PARTS }
    requires seats { All (λ s. s.exchange ≡ Some shared.word) seats.items }
{
    match shared.close(seats) {
        Ok(closed) => Some(closed),
        Err(
            SeatMissing {
                exchange: _shared,
                seats: _seats,
            },
        ) => None,
    }
}

/// Closes the exchange with both seats, the second one first.
pub fn close<L: ExchangeName, W: WireMaker + Drop, G: Drop>(
    alloc: Global,
    pair: Pair<L, W, G>,
) -> Option<Closed<MemoryPort, W, G>>
    requires { L.parts ≡ ALL_PARTS }
{
    let Pair {
        shared,
        first,
        second,
    } = pair;
    match Vec::from_array(alloc, [second, first]) {
        Ok(seats) => closed(shared, seats),
        Err(_) => None,
    }
}

/// What the first seat of an exchange asks, and is answered.
pub type Row = (Ask, Said);

/// Calls of one kind, of which each has a number.
#[derive(Clone, Copy)]
pub enum Calls {
    /// A word is peeked, which is 0.
    Peeks,
    /// The batch of [`PUSH`] is submitted, and accepted under its number.
    Pushes,
}

impl Calls {
    /// What the call of this number asks, and is answered.
    fn row(self, number: usize) -> Row {
        match self {
            Calls::Peeks => (Ask::Peek(0, FIRST), Said::Word(0)),
            Calls::Pushes => (Ask::Submit(PUSH), Said::Accepted(number)),
        }
    }
}

impl<L: ExchangeName, W: WireMaker + Sync, G: Gate + Sync> Pair<L, W, G> {
    /// What the second seat asks, and is answered.
    pub fn ask_second<R: AllocGlobal + Clock + Threads + Wait + Sync>(
        &mut self,
        rt: &R,
        ask: Ask,
    ) -> Said {
        answer(rt, &self.shared, &mut self.second, ask)
    }

    /// Whether the first seat is answered so. Rows after one in which it isn't aren't asked.
    pub fn is_answered<R: AllocGlobal + Clock + Threads + Wait + Sync>(
        &mut self,
        rt: &R,
        rows: &[Row],
    ) -> bool {
        for (ask, said) in rows {
            if answer(rt, &self.shared, &mut self.first, *ask) != *said {
                return false;
            }
        }
        true
    }

    /// How many of these calls are answered rightly, of which each has its number, from one to
    /// before another.
    pub fn rightly<R: AllocGlobal + Clock + Threads + Wait + Sync>(
        &mut self,
        rt: &R,
        calls: Calls,
        from: usize,
        to: usize,
    ) -> usize {
        let mut right: usize = 0;
        for number in from..to {
            let (ask, said) = calls.row(number);
            if answer(rt, &self.shared, &mut self.first, ask) == said {
                right = right.saturating_add(1);
            }
        }
        right
    }
}

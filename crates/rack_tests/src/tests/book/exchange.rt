//! What the seats of an exchange are answered.

ghost use Rattle.batch_book.specs.History.{new_book_view};
ghost use Rattle.batch_book.specs.Naming.{IsNamed};
ghost use Rattle.std.specs.Prelude.{◌≡◌, IfSome};
ghost use Rattle.progress_word.specs.declared.limits.TheConstants.{ALL_PARTS};

use crate::tests::office::{Ask, Calls, FIRST, PUSH, Pair, Row, Said, close, open_pair};
use batch_book::{
    BatchState, BookRefusal, Closed, ExchangeBlank, ExchangeName, MAX_ENTRIES, SeatMissing, Shared,
    SharedFault,
};
use crossbar::MemoryPort;
use module_memory::Rack;
use peek_poke::PlainWires;
use runs_tests::common::{marked, with_wires};
use schedule_certificate::OpenGate;
use setting_runner::RunRefusal;
use std::alloc::Global;
use std::marker::Brand;
use std::sync::Wait;
use std::thread::Threads;
use std::time::Clock;

/// An exchange of the tests, with two seats.
type Two<L> = Pair<L, PlainWires, OpenGate>;

/// What is tested of an exchange.
#[derive(Clone, Copy)]
enum Case<'a> {
    /// Its first seat is answered so.
    Rows(&'a [Row]),
    /// Its first seat fills the history by peeks.
    Full,
    /// Its first seat fills the book, and then the history.
    Limits,
    /// It isn't closed where its second seat is missing, and goes on.
    SeatMissing,
}

/// A batch of as many transfers as [`PUSH`], but another.
const OTHER: &str = "batch 1\npush 1 0 0 0\n";

/// A transfer to a module that a rack of two hasn't.
const FAR: &str = "batch 1\npush 0 0 5 0\n";

const UNKNOWN: Said = Said::Refused(BookRefusal::Unknown);

const STRANGER: Said = Said::Refused(BookRefusal::Stranger);

const ALREADY: Said = Said::Refused(BookRefusal::Already);

/// Calls that no session makes stand among others: a plan is handed in for a batch that isn't
/// there, or for another batch, also where the batch has come further. The rack is the one that was
/// handed in.
const CALLS: [Row; 16] = [
    (Ask::Peek(1, FIRST), Said::Word(0x0001_0000)),
    (Ask::Poke(0, FIRST, 7), Said::Poked),
    (Ask::Settle(1, PUSH), UNKNOWN),
    (Ask::Submit(PUSH), Said::Accepted(1)),
    (Ask::Fetch(1), Said::Fetched(1)),
    (Ask::Settle(0, PUSH), UNKNOWN),
    (Ask::Settle(1, OTHER), STRANGER),
    (Ask::Show(1), Said::Shown(1, BatchState::Waiting)),
    (Ask::Settle(1, PUSH), Said::Settled(1)),
    (Ask::Settle(1, OTHER), STRANGER),
    (Ask::Show(1), Said::Shown(1, BatchState::Planned)),
    (Ask::Run(1), Said::Ran(1, 1, 1)),
    (Ask::Peek(1, FIRST), Said::Word(7)),
    (Ask::Settle(1, PUSH), ALREADY),
    (Ask::Discard(1), Said::Discarded),
    (Ask::Settle(1, PUSH), UNKNOWN),
];

/// A session's batches are those of the rack, so that none is refused for its shape. Such a run
/// leaves its batch planned, and takes no number.
const SHAPES: [Row; 9] = [
    (Ask::Submit(FAR), Said::Accepted(1)),
    (Ask::Settle(1, FAR), Said::Settled(1)),
    (Ask::Run(1), Said::RunRefused(RunRefusal::Shape)),
    (Ask::Show(1), Said::Shown(1, BatchState::Planned)),
    (Ask::Run(1), Said::RunRefused(RunRefusal::Shape)),
    (Ask::Peek(0, FIRST), Said::Word(0)),
    (Ask::Submit(PUSH), Said::Accepted(2)),
    (Ask::Settle(2, PUSH), Said::Settled(1)),
    (Ask::Run(2), Said::Ran(1, 1, 1)),
];

/// Row book-limits up to the first batch that has its plan. The stranger's plan comes before its
/// own.
const LIMITS: [Row; 3] = [
    (Ask::Submit(PUSH), Said::Accepted(1)),
    (Ask::Settle(1, OTHER), STRANGER),
    (Ask::Settle(1, PUSH), Said::Settled(1)),
];

/// A poke where the history is full.
const HISTORY_FULL: Row = (
    Ask::Poke(0, FIRST, 1),
    Said::Refused(BookRefusal::HistoryFull),
);

/// A batch where the book is full.
const BOOK_FULL: Row = (Ask::Submit(PUSH), Said::Refused(BookRefusal::BookFull));

/// Whether an exchange is closed, with as many entries in its history as there may be, and its
/// first word is still 0.
fn is_full(closed: Option<Closed<MemoryPort, PlainWires, OpenGate>>) -> bool {
    let Some(closed) = closed else {
        return false;
    };
    let word = closed.book.rack().read(0, FIRST);
    let entries = closed.book.history().len();
    entries == 65536 && word == Ok(0)
}

/// Whether so many peeks are answered, and then a poke isn't, since the history is full.
fn fills<L: ExchangeName, R: AllocGlobal + Clock + Threads + Wait + Sync>(
    rt: &R,
    pair: Two<L>,
    peeks: usize,
) -> bool
    requires { L.parts ≡ ALL_PARTS }
{
    let mut pair = pair;
    let zeros = pair.rightly(rt, Calls::Peeks, 0, peeks);
    let is_refused = pair.is_answered(rt, &[HISTORY_FULL]);
    let is_full = is_full(close(rt.alloc(), pair));
    zeros == peeks && is_refused && is_full
}

/// Whether the batch of [`PUSH`] is accepted under each number from 2 to 256, and then the book is
/// full.
fn fills_book<L: ExchangeName, R: AllocGlobal + Clock + Threads + Wait + Sync>(
    rt: &R,
    pair: &mut Two<L>,
) -> bool {
    let accepted = pair.rightly(rt, Calls::Pushes, 2, 257);
    pair.is_answered(rt, &[BOOK_FULL]) && accepted == 255
}

/// Whether that is so after the first rows, which leaves 259 entries, so that 65,277 more peeks
/// fill the history.
fn meets_limits<L: ExchangeName, R: AllocGlobal + Clock + Threads + Wait + Sync>(
    rt: &R,
    pair: Two<L>,
) -> bool
    requires { L.parts ≡ ALL_PARTS }
{
    let mut pair = pair;
    let is_begun = pair.is_answered(rt, &LIMITS);
    let is_full = fills_book(rt, &mut pair);
    let fills = fills(rt, pair, 65277);
    is_begun && is_full && fills
}

/// Tries to close the exchange with the first seat alone, and gives the pair back where that is
/// refused for the seat that is missing.
fn close_without_second<L: ExchangeName>(alloc: Global, pair: Two<L>) -> Option<Two<L>>
    requires { L.parts ≡ ALL_PARTS }
{
    let Pair {
        shared,
        first,
        second,
    } = pair;
    let Ok(seats) = Vec::from_array(alloc, [first]) else {
        return None;
    };
    let Err(missing) = shared.close(seats) else {
        return None;
    };
    let SeatMissing {
        exchange: shared,
        mut seats,
    } = missing;
    prove!(seats.len() == 1);
    let first = seats.remove(0);
    Some(Pair {
        shared,
        first,
        second,
    })
}

/// Whether an exchange isn't closed without its second seat, which is answered then, and is closed
/// with both.
fn goes_on<L: ExchangeName, R: AllocGlobal + Clock + Threads + Wait + Sync>(
    rt: &R,
    pair: Two<L>,
) -> bool
    requires { L.parts ≡ ALL_PARTS }
{
    let Some(mut pair) = close_without_second(rt.alloc(), pair) else {
        return false;
    };
    let said = pair.ask_second(rt, Ask::Peek(1, FIRST));
    let is_closed = close(rt.alloc(), pair).is_some();
    is_closed && said == Said::Word(0x0001_0000)
}

/// What comes back where so many sessions are refused.
fn refused<L: ExchangeName>(
    alloc: Global,
    blank: ExchangeBlank,
    rack: Rack,
    sessions: usize,
) -> Option<(ExchangeBlank, Rack)>
    requires named { IsNamed L.name L.parts L.table L.opening L.earlier blank (new_book_view rack) }
    ensures { IfSome result (λ back. IsNamed L.name L.parts L.table L.opening L.earlier back.0
        (new_book_view back.1)) }
{
    let plant = with_wires(PlainWires);
    let made = Shared::<L, MemoryPort, PlainWires, OpenGate>::new(
        alloc, blank, rack, plant, sessions,
    );
    match made {
        Err((blank, rack, _, SharedFault::BadSessions)) => Some((blank, rack)),
        _ => None,
    }
}

/// An exchange with two seats, of what came back where 0 sessions were refused, and then 17.
fn open_after_refusals<L: ExchangeName>(
    alloc: Global,
    blank: ExchangeBlank,
    rack: Rack,
) -> Option<Two<L>>
    requires named { IsNamed L.name L.parts L.table L.opening L.earlier blank (new_book_view rack) }
{
    let (blank, rack) = refused::<L>(alloc, blank, rack, 0)?;
    let (blank, rack) = refused::<L>(alloc, blank, rack, 17)?;
    open_pair(alloc, blank, rack, with_wires(PlainWires))
}

/// Whether a case is so of a new exchange.
fn holds<L: ExchangeName, R: AllocGlobal + Clock + Threads + Wait + Sync>(
    rt: &R,
    blank: ExchangeBlank,
    rack: Rack,
    case: Case<'_>,
) -> bool
    requires named { IsNamed L.name L.parts L.table L.opening L.earlier blank (new_book_view rack) }
{
    let Some(mut pair) = open_after_refusals::<L>(rt.alloc(), blank, rack) else {
        return false;
    };
    match case {
        Case::Rows(rows) => pair.is_answered(rt, rows),
        Case::Full => fills(rt, pair, MAX_ENTRIES),
        Case::Limits => meets_limits(rt, pair),
        Case::SeatMissing => goes_on(rt, pair),
    }
}

/// Whether a case is so of an exchange on a marked rack of two modules of one word.
fn holds_of<R: AllocGlobal + Clock + Threads + Wait + Sync>(rt: &R, case: Case<'_>) -> bool {
    match marked(rt.alloc(), "2x1x1") {
        Some(rack) => match ExchangeBlank::new(rt.alloc()) {
            Ok(blank) => holds::<Brand, R>(rt, blank, rack, case),
            Err(_) => false,
        },
        None => false,
    }
}

#[test]
fn calls_that_no_session_makes(rt: HostRuntime) {
    assert!(rt; holds_of(&rt, Case::Rows(&CALLS)));
    assert!(rt; holds_of(&rt, Case::Rows(&SHAPES)));
}

#[test]
fn book_limits(rt: HostRuntime) {
    assert!(rt; holds_of(&rt, Case::Limits));
}

#[test]
fn a_full_history_takes_no_poke(rt: HostRuntime) {
    assert!(rt; holds_of(&rt, Case::Full));
}

#[test]
fn one_of_two_seats_is_missing(rt: HostRuntime) {
    assert!(rt; holds_of(&rt, Case::SeatMissing));
}

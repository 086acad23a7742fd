//! Seats of an exchange whose history lends its recorder: who writes what waits, and when.

ghost use Rattle.batch_book.specs.Naming.{IsNamed};
ghost use Rattle.std.specs.Prelude.{◌≡◌, [], Some};
ghost use Rattle.progress_word.specs.declared.limits.TheConstants.{ALL_PARTS};

use super::readings::{HeldLines, Hold};
use crate::tests::office::{Ask, FIRST, PUSH, Said, answer, closed};
use batch_book::{
    Book, Call, ExchangeBlank, ExchangeName, History, NullHistory, Reading, Seat, Shared,
};
use book_record::{StreamHistory, attach_stream};
use crossbar::MemoryPort;
use peek_poke::WireMaker;
use runs_tests::common::{TURNS, marked, with_wires};
use schedule_certificate::OpenGate;
use std::alloc::Global;
use std::io;
use std::io::Write;
use std::marker::Brand;
use std::sync::Wait;
use std::sync::atomic::{AtomicUsize, Ordering};
use std::thread::{Threads, join, yield_now};
use std::time::Clock;

/// A writer that counts how often it is given something, and takes it, but for one time. Another
/// time it waits first.
#[derive(Drop)]
struct Counted<'a> {
    writes: &'a AtomicUsize,
    fails_after: Option<usize>,
    waits_after: Option<usize>,
    hold: &'a Hold,
}

impl Write for Counted<'_> {
    fn write(&mut self, buf: &[u8]) -> io::Result<usize> {
        let before = self.writes.fetch_add(1, Ordering::SeqCst);
        if self.waits_after == Some(before) {
            self.hold.wait();
        }
        if self.fails_after == Some(before) {
            return Err(io::ErrorKind::Other.into());
        }
        Ok(buf.len())
    }

    fn flush(&mut self) -> io::Result<()> {
        Ok(())
    }
}

/// What a seat does: the first one, 0, or the second one, 1.
#[derive(Clone, Copy)]
enum Step {
    /// It peeks a word.
    Peek(usize),
    /// It is settled.
    Settle(usize),
}

use Step::{Peek, Settle};

/// What two seats do, whether each step goes well, and how often the writer was given something by
/// then; and how often once the exchange is closed. After so many times the writer fails, once.
#[derive(Clone, Copy)]
struct Row {
    name: &'static str,
    fails_after: Option<usize>,
    steps: &'static [(Step, bool, usize)],
    closed: usize,
}

const ROWS: [Row; 5] = [
    Row {
        name: "one seat writes for all",
        fails_after: None,
        steps: &[
            (Peek(0), true, 0),
            (Peek(1), true, 0),
            (Peek(0), true, 0),
            (Settle(1), true, 1),
            (Settle(0), true, 1),
        ],
        closed: 1,
    },
    Row {
        name: "a seat whose entries stand there writes none of others",
        fails_after: None,
        steps: &[
            (Peek(0), true, 0),
            (Peek(1), true, 0),
            (Settle(1), true, 1),
            (Peek(1), true, 1),
            (Settle(0), true, 1),
            (Settle(1), true, 2),
        ],
        closed: 2,
    },
    Row {
        name: "closing writes what waits, at once",
        fails_after: None,
        steps: &[
            (Settle(0), true, 0),
            (Peek(0), true, 0),
            (Peek(1), true, 0),
            (Peek(0), true, 0),
        ],
        closed: 1,
    },
    Row {
        name: "a writing fails",
        fails_after: Some(1),
        steps: &[
            (Peek(0), true, 0),
            (Peek(1), true, 0),
            (Settle(1), true, 1),
            (Peek(1), true, 1),
            (Settle(1), false, 2),
            (Settle(0), true, 2),
            (Peek(0), false, 2),
            (Peek(1), false, 2),
            (Settle(1), false, 2),
        ],
        closed: 2,
    },
    Row {
        name: "the first writing fails",
        fails_after: Some(0),
        steps: &[
            (Peek(0), true, 0),
            (Peek(1), true, 0),
            (Settle(0), false, 1),
            (Settle(1), false, 1),
            (Settle(0), false, 1),
        ],
        closed: 1,
    },
];

/// What is tested of an exchange.
#[derive(Clone, Copy)]
enum Case {
    /// This is so.
    Row(Row),
    /// A seat is settled while another one is held.
    Beside(Held),
}

/// Where a seat is held.
#[derive(Clone, Copy)]
enum Held {
    /// In a run. The other's last entry waits, and is the first that is written.
    Running,
    /// In the second writing. The other's last entry stands by then, and its next call comes back
    /// meanwhile.
    Writing,
}

impl Held {
    /// By how many writings the other seat is settled.
    fn writes(self) -> usize {
        match self {
            Held::Running => 1,
            Held::Writing => 2,
        }
    }
}

/// The exchange of the tests.
type Exchange<L, W, H> = Shared<L, MemoryPort, W, OpenGate, H>;

/// An exchange, and its two seats.
#[derive(Drop)]
struct Two<L: ExchangeName, W: WireMaker, H: History> {
    shared: Exchange<L, W, H>,
    first: Seat<L>,
    second: Seat<L>,
    ghost of_first: { first.exchange ≡ Some shared.word },
    ghost of_second: { second.exchange ≡ Some shared.word },
}

/// An exchange over this book, with two seats.
fn open<L: ExchangeName, W: WireMaker + Drop, H: History + Drop>(
    alloc: Global,
    blank: ExchangeBlank,
    book: Book<H>,
    wires: W,
) -> Option<Two<L, W, H>>
    requires named { IsNamed L.name L.parts L.table L.opening L.earlier blank book }
    requires empty { book.history ≡ [] }
{
    let made = Exchange::<L, W, H>::of_book(alloc, blank, book, with_wires(wires), 2);
    let Ok((shared, mut seats)) = made else {
        return None;
    };
    prove!(seats.len() == 2);
    let second = seats.remove(1);
    let first = seats.remove(0);
    Some(Two {
        shared,
        first,
        second,
    })
}

/// Whether the exchange is closed with both seats.
fn is_closed<L: ExchangeName, W: WireMaker + Drop, H: History + Drop>(
    alloc: Global,
    two: Two<L, W, H>,
) -> bool
where
    H::Recorder: Drop,
    H::Pending: Drop,
    requires { L.parts ≡ ALL_PARTS }
{
    let Two {
        shared,
        first,
        second,
    } = two;
    match Vec::from_array(alloc, [first, second]) {
        Ok(seats) => closed(shared, seats).is_some(),
        Err(_) => false,
    }
}

impl<L: ExchangeName, W: WireMaker + Sync, H: History> Two<L, W, H> {
    /// Whether a step goes well.
    fn goes_well<R: AllocGlobal + Clock + Threads + Wait + Sync>(
        &mut self,
        rt: &R,
        step: Step,
    ) -> bool {
        let ask = Ask::Peek(0, FIRST);
        match step {
            Peek(0) => answer(rt, &self.shared, &mut self.first, ask) == Said::Word(0),
            Peek(_) => answer(rt, &self.shared, &mut self.second, ask) == Said::Word(0),
            Settle(0) => self.shared.sync(rt, &mut self.first).is_ok(),
            Settle(_) => self.shared.sync(rt, &mut self.second).is_ok(),
        }
    }

    /// What the seats do before the first one is held: the second one peeks a word.
    fn prepare<R: AllocGlobal + Clock + Threads + Wait + Sync>(&mut self, rt: &R, held: Held) {
        self.goes_well(rt, Peek(1));
        match held {
            Held::Running => {
                answer(rt, &self.shared, &mut self.first, Ask::Submit(PUSH));
                answer(rt, &self.shared, &mut self.first, Ask::Settle(1, PUSH));
            }
            Held::Writing => {
                self.goes_well(rt, Peek(0));
                self.goes_well(rt, Settle(0));
                self.goes_well(rt, Peek(0));
            }
        }
    }

    /// Whether all steps of a row go as it says.
    fn go_so<R: AllocGlobal + Clock + Threads + Wait + Sync>(
        &mut self,
        rt: &R,
        row: &Row,
        writes: &AtomicUsize,
    ) -> bool {
        for (step, is_well, count) in row.steps {
            let well = self.goes_well(rt, *step);
            if (well, writes.load(Ordering::SeqCst)) != (*is_well, *count) {
                return false;
            }
        }
        true
    }
}

/// Whether a row is so of a new exchange.
fn is_so<
    L: ExchangeName,
    W: WireMaker + Sync + Drop,
    H: History + Drop,
    R: AllocGlobal + Clock + Threads + Wait + Sync,
>(rt: &R, two: Two<L, W, H>, row: &Row, writes: &AtomicUsize) -> bool
where
    H::Recorder: Drop,
    H::Pending: Drop,
    requires { L.parts ≡ ALL_PARTS }
{
    let mut two = two;
    let goes_so = two.go_so(rt, row, writes);
    let is_closed = is_closed(rt.alloc(), two);
    let written = writes.load(Ordering::SeqCst);
    goes_so && is_closed && written == row.closed
}

/// Whether the seat does that in which it is held: its batch is run where it is held in a run, and
/// the seat is settled then.
fn is_done<
    L: ExchangeName,
    W: WireMaker + Sync,
    H: History,
    R: AllocGlobal + Clock + Threads + Wait + Sync,
>(rt: &R, shared: &Exchange<L, W, H>, seat: Seat<L>, held: Held) -> bool
    requires { seat.exchange ≡ Some shared.now.word }
{
    let mut seat = seat;
    let has_run = match held {
        Held::Running => answer(rt, shared, &mut seat, Ask::Run(1)) == Said::Ran(1, 1, 1),
        Held::Writing => true,
    };
    shared.sync(rt, &mut seat).is_ok() && has_run
}

/// Whether the other seat is held.
fn is_held<L: ExchangeName, W: WireMaker + Sync, H: History>(
    shared: &Exchange<L, W, H>,
    seat: &mut Seat<L>,
    held: Held,
    writes: &AtomicUsize,
) -> bool
    requires { seat.old.exchange ≡ Some shared.now.word }
    ensures { seat.new.exchange ≡ seat.old.exchange }
{
    match held {
        Held::Running => shared.progress(seat) == (Reading { run: 1, done: 0 }),
        Held::Writing => writes.load(Ordering::SeqCst) == 2,
    }
}

/// Whether the seat is settled, and a call comes back while the other seat writes.
fn goes_on<L: ExchangeName, W: WireMaker + Sync, H: History, R: Clock + Threads + Wait + Sync>(
    rt: &R,
    shared: &Exchange<L, W, H>,
    seat: &mut Seat<L>,
    held: Held,
) -> bool
    requires { seat.old.exchange ≡ Some shared.now.word }
    ensures { seat.new.exchange ≡ seat.old.exchange }
{
    let is_settled = shared.sync(rt, seat).is_ok();
    let is_answered = match held {
        Held::Running => true,
        Held::Writing => shared.try_call(rt, seat, Call::Peek(0, FIRST)).is_ok(),
    };
    is_settled && is_answered
}

/// Whether a seat is settled once the other one is held. Then that one goes on.
fn is_settled_then<
    L: ExchangeName,
    W: WireMaker + Sync,
    H: History,
    R: Clock + Threads + Wait + Sync,
>(
    rt: &R,
    shared: &Exchange<L, W, H>,
    seat: Seat<L>,
    held: Held,
    hold: &Hold,
    writes: &AtomicUsize,
) -> bool
    requires { seat.exchange ≡ Some shared.now.word }
{
    let mut seat = seat;
    for _ in 0..TURNS {
        if is_held(shared, &mut seat, held, writes) {
            let goes_on = goes_on(rt, shared, &mut seat, held);
            let written = writes.load(Ordering::SeqCst);
            hold.seen.store(true, Ordering::SeqCst);
            return goes_on && written == held.writes();
        }
        yield_now();
    }
    false
}

/// The second seat peeks a word. The first one hands its batch in, and runs it; or it peeks, is
/// settled, peeks, and is settled again. In the last step it is held. The second one is settled
/// meanwhile, and peeks while the first one writes. Whether all goes well.
fn is_settled_beside<
    L: ExchangeName + Send + Sync,
    W: WireMaker + Send + Sync + Drop,
    H: History + Send + Drop,
    R: AllocGlobal + Clock + Threads + Wait + Sync,
>(rt: &R, two: Two<L, W, H>, held: Held, hold: &Hold, writes: &AtomicUsize) -> bool
where
    H::Recorder: Drop,
    H::Pending: Drop,
{
    let mut two = two;
    two.prepare(rt, held);
    let Two {
        shared,
        first,
        second,
    } = two;
    let lent = &shared;
    let (is_done, is_settled) = join(
        rt,
        move || -> bool
            requires { first.exchange ≡ Some lent.now.word }
        { is_done(rt, lent, first, held) },
        move || -> bool
            requires { second.exchange ≡ Some lent.now.word }
        { is_settled_then(rt, lent, second, held, hold, writes) },
    );
    is_done && is_settled
}

/// Whether a case is so of a new exchange over this book.
fn holds<L: ExchangeName + Send + Sync, R: AllocGlobal + Clock + Threads + Wait + Sync>(
    rt: &R,
    blank: ExchangeBlank,
    book: Book<StreamHistory<Counted<'_>, Brand>>,
    case: Case,
    hold: &Hold,
    writes: &AtomicUsize,
) -> bool
    requires named { IsNamed L.name L.parts L.table L.opening L.earlier blank book }
    requires empty { book.history ≡ [] }
{
    let lines = HeldLines { hold, transfer: 0 };
    let opened = open::<L, HeldLines<'_>, StreamHistory<Counted<'_>, Brand>>(
        rt.alloc(),
        blank,
        book,
        lines,
    );
    let Some(two) = opened else {
        return false;
    };
    match case {
        Case::Row(row) => is_so(rt, two, &row, writes),
        Case::Beside(held) => {
            let is_settled = is_settled_beside(rt, two, held, hold, writes);
            is_settled && hold.is_kept() && writes.load(Ordering::SeqCst) == 2
        }
    }
}

/// Whether a case is so on a marked rack of two modules of one word, whose first word is 0, where
/// the writer fails after so many times.
fn holds_of<R: AllocGlobal + Clock + Threads + Wait + Sync>(
    rt: &R,
    case: Case,
    fails_after: Option<usize>,
) -> bool {
    let alloc = rt.alloc();
    let Some(rack) = marked(alloc, "2x1x1") else {
        return false;
    };
    let Ok(book) = Book::with(alloc, rack, NullHistory::new()) else {
        return false;
    };
    let Ok(blank) = ExchangeBlank::new(alloc) else {
        return false;
    };
    let hold = Hold::new();
    let writes = AtomicUsize::new(0);
    let writer = Counted {
        writes: &writes,
        fails_after,
        waits_after: match case {
            Case::Beside(Held::Writing) => Some(1),
            _ => None,
        },
        hold: &hold,
    };
    let book = attach_stream::<Counted<'_>, Brand>(alloc, book, 0, writer, true);
    holds::<Brand, R>(rt, blank, book, case, &hold, &writes)
}

#[test]
fn what_waits_is_written_at_once(rt: HostRuntime) {
    for row in &ROWS {
        assert!(rt;
            holds_of(&rt, Case::Row(*row), row.fails_after),
            "{}",
            row.name
        );
    }
}

#[test]
fn a_seat_is_settled_while_a_run_is_held(rt: HostRuntime) {
    assert!(rt; holds_of(&rt, Case::Beside(Held::Running), None));
}

#[test]
fn neither_a_call_nor_entries_that_stand_wait_for_a_writing(rt: HostRuntime) {
    assert!(rt; holds_of(&rt, Case::Beside(Held::Writing), None));
}

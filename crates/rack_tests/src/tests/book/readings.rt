//! A reading waits for no run, and sees each setting of it.

ghost use Rattle.batch_book.specs.History.{new_book_view};
ghost use Rattle.batch_book.specs.Naming.{IsNamed};
ghost use Rattle.std.specs.Prelude.{◌≡◌, Some};

use crate::tests::office::{Ask, PUSH, Pair, Said, TWO_SETTINGS, answer, open_pair};
use batch_book::{ExchangeBlank, ExchangeName, Reading, Seat, Shared};
use crossbar::ConfigPort;
use module_memory::Rack;
use peek_poke::{PlainWire, Wire, WireFault, WireMaker};
use runs_tests::common::{TURNS, marked, with_wires};
use schedule_certificate::{Gate, OpenGate};
use std::marker::Brand;
use std::sync::Wait;
use std::sync::atomic::{AtomicBool, Ordering};
use std::thread::{Threads, join, yield_now};
use std::time::Clock;

/// A run of a batch, of which this transfer waits until the other thread has read this, and what is
/// read after the run.
#[derive(Clone, Copy)]
struct Watched {
    text: &'static str,
    transfer: usize,
    awaited: Reading,
    last: Reading,
}

/// Whether that was read, and whether somebody gave up waiting.
#[derive(Drop)]
pub struct Hold {
    pub seen: AtomicBool,
    gave_up: AtomicBool,
}

impl Hold {
    pub fn new() -> Hold {
        Hold {
            seen: AtomicBool::new(false),
            gave_up: AtomicBool::new(false),
        }
    }

    /// Waits until it was read.
    pub fn wait(&self) {
        for _ in 0..TURNS {
            if self.seen.load(Ordering::SeqCst) {
                return;
            }
            yield_now();
        }
        self.gave_up.store(true, Ordering::SeqCst);
    }

    /// Whether it was read, and nobody gave up.
    pub fn is_kept(&self) -> bool {
        let gave_up = self.gave_up.load(Ordering::SeqCst);
        let seen = self.seen.load(Ordering::SeqCst);
        seen && !gave_up
    }
}

/// A line whose next byte waits, where it is held.
#[derive(Drop)]
pub struct HeldLine<'a> {
    plain: PlainWire,
    hold: &'a Hold,
    is_held: bool,
}

impl<'a> Wire for HeldLine<'a> {
    ghost failures = { λ _. 0 };

    ghost carried = { λ line. line.plain };

    ghost never_fails = { λ _. Unit {0} };

    fn carry(&mut self, byte: u8) -> Result<u8, WireFault> {
        if self.is_held {
            self.is_held = false;
            self.hold.wait();
        }
        self.plain.carry(byte)
    }
}

/// Gives this transfer a line that is held.
#[derive(Clone, Copy)]
pub struct HeldLines<'a> {
    pub hold: &'a Hold,
    pub transfer: usize,
}

impl<'a> WireMaker for HeldLines<'a> {
    type Line = HeldLine<'a>;

    ghost is_sure = { λ _ _. Unit {0} };

    fn line(&self, transfer: usize) -> HeldLine<'a> {
        HeldLine {
            plain: PlainWire::new(),
            hold: self.hold,
            is_held: transfer == self.transfer,
        }
    }
}

/// Reads until this was read, and says so to the hold. It is given no `Wait`.
fn look<L: ExchangeName, P: ConfigPort, W: WireMaker, G>(
    shared: &Shared<L, P, W, G>,
    seat: Seat<L>,
    hold: &Hold,
    awaited: Reading,
)
    requires { seat.exchange ≡ Some shared.now.word }
{
    let mut seat = seat;
    for _ in 0..TURNS {
        if shared.progress(&mut seat) == awaited {
            hold.seen.store(true, Ordering::SeqCst);
            return;
        }
        yield_now();
    }
    hold.gave_up.store(true, Ordering::SeqCst);
}

/// Runs a batch, and says whether it came to its end, and what is to be read then is.
fn run_one<
    L: ExchangeName,
    P: ConfigPort,
    W: WireMaker + Sync,
    G: Gate + Sync,
    R: AllocGlobal + Clock + Threads + Wait + Sync,
>(rt: &R, shared: &Shared<L, P, W, G>, seat: Seat<L>, run: Watched) -> bool
    requires { seat.exchange ≡ Some shared.now.word }
{
    let mut seat = seat;
    answer(rt, shared, &mut seat, Ask::Submit(run.text));
    answer(rt, shared, &mut seat, Ask::Settle(1, run.text));
    let said = answer(rt, shared, &mut seat, Ask::Run(1));
    let read = shared.progress(&mut seat);
    matches!(said, Said::Ran(1, _, _)) && read == run.last
}

/// Runs a batch in one thread while another reads, and says the same.
fn run_and_look<
    L: ExchangeName + Send + Sync,
    W: WireMaker + Send + Sync + Drop,
    R: AllocGlobal + Clock + Threads + Wait + Sync,
>(rt: &R, pair: Pair<L, W, OpenGate>, hold: &Hold, run: Watched) -> bool {
    let Pair {
        shared,
        first,
        second,
    } = pair;
    let lent = &shared;
    let (ran, _) = join(
        rt,
        move || -> bool
            requires { first.exchange ≡ Some lent.now.word }
        { run_one(rt, lent, first, run) },
        move ||
            requires { second.exchange ≡ Some lent.now.word }
        { look(lent, second, hold, run.awaited) },
    );
    ran
}

/// Whether a run on this rack, of which a transfer waits for a reading, comes to its end, and is
/// read then.
fn is_read<L: ExchangeName + Send + Sync, R: AllocGlobal + Clock + Threads + Wait + Sync>(
    rt: &R,
    blank: ExchangeBlank,
    rack: Rack,
    run: Watched,
) -> bool
    requires named { IsNamed L.name L.parts L.table L.opening L.earlier blank (new_book_view rack) }
{
    let hold = Hold::new();
    let lines = HeldLines {
        hold: &hold,
        transfer: run.transfer,
    };
    match open_pair::<L, HeldLines, OpenGate>(rt.alloc(), blank, rack, with_wires(lines)) {
        Some(pair) => run_and_look(rt, pair, &hold, run) && hold.is_kept(),
        None => false,
    }
}

/// Whether a run on a marked rack of three modules is read as it goes on.
fn is_read_of<R: AllocGlobal + Clock + Threads + Wait + Sync>(rt: &R, run: Watched) -> bool {
    match marked(rt.alloc(), "3x1x1") {
        Some(rack) => match ExchangeBlank::new(rt.alloc()) {
            Ok(blank) => is_read::<Brand, R>(rt, blank, rack, run),
            Err(_) => false,
        },
        None => false,
    }
}

#[test]
fn progress_waits_for_no_run(rt: HostRuntime) {
    let run = Watched {
        text: PUSH,
        transfer: 0,
        awaited: Reading { run: 1, done: 0 },
        last: Reading { run: 1, done: 1 },
    };
    assert!(rt; is_read_of(&rt, run));
}

#[test]
fn progress_is_seen_between_two_settings(rt: HostRuntime) {
    let run = Watched {
        text: TWO_SETTINGS,
        transfer: 1,
        awaited: Reading { run: 1, done: 1 },
        last: Reading { run: 1, done: 2 },
    };
    assert!(rt; is_read_of(&rt, run));
}

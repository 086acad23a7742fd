//! When workers arrive at the gate, and whether they move words at once.

use super::ports;
use crate::tests::arrivals::CountingGate;
use exchange_limits::WorkerCount;
use peek_poke::{PlainWire, PlainWires, Wire, WireFault, WireMaker};
use runs_tests::common::{TURNS, TWO_PUSHES, two, with_gate};
use runs_tests::meeting::Meeting;
use runs_tests::running::{Case, End, TURNED_ROUND, ends_so};
use schedule_certificate::Gate;
use std::alloc::{AllocError, Global};
use std::sync::atomic::{AtomicBool, AtomicUsize, Ordering};
use std::thread::{Threads, yield_now};

/// Whether both workers of row two-pushes meet at the gate, and all its words are moved.
fn two_pushes_meet<R: AllocGlobal + Threads + Sync>(rt: &R) -> bool {
    let mut plant = with_gate(PlainWires, Meeting::new(), two());
    let is_ended = ends_so(rt, &mut plant, &ports::TWO, &AtomicUsize::new(0));
    let is_met = plant.gate.is_met();
    is_ended && is_met
}

#[test]
fn two_pushes_meet_at_the_gate(rt: HostRuntime) {
    assert!(rt; two_pushes_meet(&rt));
}

/// What is seen of the workers of a run: how often each has arrived, how many wires have begun,
/// whether one has waited for the others for too long, and whether one was made, or carried a byte,
/// before its worker had arrived.
#[derive(Drop)]
struct Watch {
    arrived: CountingGate,
    /// How many wires wait for one another in their first byte, each of which is carried by the
    /// worker of the transfer's number and 1. Without it none waits.
    held: Option<usize>,
    begun: AtomicUsize,
    gave_up: AtomicBool,
    early: AtomicBool,
}

impl Watch {
    fn new(alloc: Global, held: Option<usize>) -> Result<Watch, AllocError> {
        Ok(Watch {
            arrived: CountingGate::new(alloc)?,
            held,
            begun: AtomicUsize::new(0),
            gave_up: AtomicBool::new(false),
            early: AtomicBool::new(false),
        })
    }

    /// Whether just so many wires began, and no wire was early or gave up.
    fn is_timely(&self, wires: usize) -> bool {
        let begun = self.begun.load(Ordering::SeqCst);
        let gave_up = self.gave_up.load(Ordering::SeqCst);
        let is_early = self.early.load(Ordering::SeqCst);
        begun == wires && !gave_up && !is_early
    }

    /// Sees that the worker of a transfer has arrived, where each has its own.
    fn look(&self, transfer: usize) {
        if self.held.is_some() && !self.arrived.has_come(transfer.saturating_add(1)) {
            self.early.store(true, Ordering::SeqCst);
        }
    }

    /// Begins a wire, and waits until so many have begun, or one has given up.
    fn begin(&self) {
        self.begun.fetch_add(1, Ordering::SeqCst);
        let wanted = self.held.unwrap_or(0);
        for _ in 0..TURNS {
            let begun = self.begun.load(Ordering::SeqCst);
            let gave_up = self.gave_up.load(Ordering::SeqCst);
            if begun >= wanted || gave_up {
                return;
            }
            yield_now();
        }
        self.gave_up.store(true, Ordering::SeqCst);
    }
}

/// A gate that counts.
#[derive(Clone, Copy)]
struct WatchedGate<'a> {
    watch: &'a Watch,
}

impl<'a> Gate for WatchedGate<'a> {
    fn arrive(&self, place: usize) {
        self.watch.arrived.arrive(place);
    }
}

/// A line whose first byte waits for the other lines' first bytes, where they are held.
#[derive(Drop)]
struct WatchedLine<'a> {
    plain: PlainWire,
    watch: &'a Watch,
    transfer: usize,
    has_begun: bool,
}

impl<'a> Wire for WatchedLine<'a> {
    ghost failures = { λ _. 0 };

    ghost carried = { λ line. line.plain };

    ghost never_fails = { λ _. Unit {0} };

    fn carry(&mut self, byte: u8) -> Result<u8, WireFault> {
        self.watch.look(self.transfer);
        if !self.has_begun {
            self.has_begun = true;
            self.watch.begin();
        }
        self.plain.carry(byte)
    }
}

/// Gives all transfers such lines.
#[derive(Clone, Copy)]
struct WatchedLines<'a> {
    watch: &'a Watch,
}

impl<'a> WireMaker for WatchedLines<'a> {
    type Line = WatchedLine<'a>;

    ghost is_sure = { λ _ _. Unit {0} };

    fn line(&self, transfer: usize) -> WatchedLine<'a> {
        self.watch.look(transfer);
        WatchedLine {
            plain: PlainWire::new(),
            watch: self.watch,
            transfer,
            has_begun: false,
        }
    }
}

/// A batch of one setting, how many transfers it has, and the word that it leaves in block 1 of
/// module 1 of a rack of 32 modules whose blocks have one word.
#[derive(Clone, Copy)]
struct Work {
    text: &'static str,
    transfers: usize,
    word: u32,
}

/// A run of a batch by so many workers, and who arrives, each as often as it stands there.
type Row = (Work, usize, &'static [usize]);

/// Whether a row's run goes to its end, and is seen as it says.
fn is_seen<R: AllocGlobal + Threads + Sync>(
    rt: &R,
    work: Work,
    workers: WorkerCount,
    watch: &Watch,
    arrivals: &[usize],
) -> bool {
    let words = [work.word];
    let case = Case {
        shape: "32x2x1",
        text: work.text,
        end: End::Completed(1, work.transfers),
        blocks: &[(1, 1, &words)],
    };
    let mut plant = with_gate(WatchedLines { watch }, WatchedGate { watch }, workers);
    let has_ended = ends_so(rt, &mut plant, &case, &AtomicUsize::new(0));
    let has_seen = watch.arrived.has_seen(arrivals);
    let is_timely = watch.is_timely(work.transfers);
    has_ended && has_seen && is_timely
}

/// Whether that is so of a new watch. Where a row is held, there is a worker for each transfer, and
/// all wires wait for one another.
fn is_right<R: AllocGlobal + Threads + Sync>(rt: &R, row: &Row, is_held: bool) -> bool {
    let (work, workers, arrivals) = *row;
    let Some(workers) = WorkerCount::new(workers) else {
        return false;
    };
    let held = if is_held { Some(work.transfers) } else { None };
    match Watch::new(rt.alloc(), held) {
        Ok(watch) => is_seen(rt, work, workers, &watch, arrivals),
        Err(_) => false,
    }
}

const ONE: Work = Work {
    text: "batch 1\npush 0 0 1 1\n",
    transfers: 1,
    word: 0,
};

const TWO: Work = Work {
    text: "batch 2\npush 0 0 1 1\npush 1 0 2 1\n",
    transfers: 2,
    word: 0,
};

const THREE: Work = Work {
    text: "batch 3\npush 0 0 1 1\npush 1 0 2 1\npush 2 0 3 1\n",
    transfers: 3,
    word: 0,
};

const FOUR: Work = Work {
    text: "batch 4\npush 0 0 1 1\npush 1 0 2 1\npush 2 0 3 1\npush 3 0 0 1\n",
    transfers: 4,
    word: 0,
};

const ALL: Work = Work {
    text: TURNED_ROUND,
    transfers: 32,
    word: 0x001e_0000,
};

const PUSHES: Work = Work {
    text: TWO_PUSHES,
    transfers: 2,
    word: 0x0001_0100,
};

/// Each of 32 workers at the widest setting, at each of the five forks at which its part begins
/// with it. On each level the parts begin with the workers of a line.
const EACH_OF_32: [usize; 62] = [
    1, 17, //
    1, 9, 17, 25, //
    1, 5, 9, 13, 17, 21, 25, 29, //
    1, 3, 5, 7, 9, 11, 13, 15, 17, 19, 21, 23, 25, 27, 29, 31, //
    1, 2, 3, 4, 5, 6, 7, 8, 9, 10, 11, 12, 13, 14, 15, 16, //
    17, 18, 19, 20, 21, 22, 23, 24, 25, 26, 27, 28, 29, 30, 31, 32, //
];

/// Row arrivals.
const ARRIVALS: &[Row] = &[
    // One worker doesn't fork. A half that is one worker doesn't. Of three and of five workers the
    // first half has one more than the other.
    (FOUR, 1, &[]),
    (FOUR, 2, &[1, 2]),
    (FOUR, 3, &[1, 1, 2, 3]),
    (FOUR, 5, &[1, 1, 3, 4, 4, 5]),
    // Workers beyond the transfers are halved like all others: of sixteen the second half begins
    // with worker 9, of 64 with 33.
    (FOUR, 16, &[1, 1, 5, 9, 9, 13]),
    (TWO, 16, &[1, 9]),
    (TWO, 64, &[1, 33]),
    // One transfer is moved without a fork; of three, the first half has one.
    (ONE, 4, &[]),
    (THREE, 4, &[1, 3, 3, 4]),
    // Two workers and eight, who have more than one transfer each.
    (ALL, 2, &[1, 2]),
    (ALL, 8, &[1, 1, 1, 2, 3, 3, 4, 5, 5, 5, 6, 7, 7, 8]),
];

#[test]
fn workers_arrive(rt: HostRuntime) {
    for (number, row) in ARRIVALS.iter().enumerate() {
        assert!(rt; is_right(&rt, row, false), "row {number}");
    }
}

/// As many workers as transfers. Four fork twice: 1 and 2 from 3 and 4, and then each from the
/// other.
const HELD: &[Row] = &[
    (PUSHES, 2, &[1, 2]),
    (FOUR, 4, &[1, 1, 2, 3, 3, 4]),
    (ALL, 32, &EACH_OF_32),
];

/// The wires wait for one another, and are made when their workers have arrived.
#[test]
fn all_wires_are_held(rt: HostRuntime) {
    for (number, row) in HELD.iter().enumerate() {
        assert!(rt; is_right(&rt, row, true), "row {number}");
    }
}

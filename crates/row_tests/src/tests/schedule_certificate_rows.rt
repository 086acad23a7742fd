use super::planning::{Plan, plan_at};
use super::texts::{FIRST_FIT_LOSES, FOUR_BY_FOUR, ONE_PAIR, THREE_BY_THREE, read, repeated};
use link_graph::Schedule;
use schedule_certificate::{Gate, OpenGate, first_fit};
use std::alloc::Global;
use std::sync::atomic::AtomicBool;
use std::sync::atomic::Ordering::SeqCst;
use std::thread;
use std::thread::Threads;

/// Whether these are the settings `0 1`, `2` and `3`.
fn is_first_fit(schedule: &Schedule) -> bool {
    schedule.settings() == 3
        && schedule.setting(0) == Some([0, 1].as_slice())
        && schedule.setting(1) == Some([2].as_slice())
        && schedule.setting(2) == Some([3].as_slice())
}

/// Whether first fit has these settings for the batch of a text.
fn fits(alloc: Global, text: &str) -> Option<bool> {
    let batch = read(alloc, text)?;
    let schedule = first_fit(alloc, &batch).ok()?;
    Some(is_first_fit(&schedule))
}

#[test]
fn first_fit_loses(rt: HostRuntime) {
    assert!(rt; fits(rt.alloc(), FIRST_FIT_LOSES) == Some(true));
}

/// The plan of row four-by-four, of which no transfer is put back.
const PLAN_OF_FOUR: Plan = Plan {
    settings: 4,
    reinserted: 0,
};

/// Each of five modules pushes a block to each of them. A half of these transfers may have links
/// with three uses, and is then halved once more, into two halves that have four colours together.
const FIVE_BY_FIVE: &str = "\
batch 25
push 0 5 0 0
push 0 5 1 0
push 0 5 2 0
push 0 5 3 0
push 0 5 4 0
push 1 5 0 1
push 1 5 1 1
push 1 5 2 1
push 1 5 3 1
push 1 5 4 1
push 2 5 0 2
push 2 5 1 2
push 2 5 2 2
push 2 5 3 2
push 2 5 4 2
push 3 5 0 3
push 3 5 1 3
push 3 5 2 3
push 3 5 3 3
push 3 5 4 3
push 4 5 0 4
push 4 5 1 4
push 4 5 2 4
push 4 5 3 4
push 4 5 4 4
";

/// Whether so many workers put back as many transfers as one does.
fn put_back_as_many<R: AllocGlobal + Threads + Sync>(rt: &R, workers: usize) -> bool {
    let by_one = plan_at(rt, FIVE_BY_FIVE, 1, &OpenGate);
    by_one.is_some() && plan_at(rt, FIVE_BY_FIVE, workers, &OpenGate) == by_one
}

/// Whether the plan of a batch text by one worker has so many settings, and at most so many
/// transfers were put back.
fn put_back_at_most<R: AllocGlobal + Threads + Sync>(
    rt: &R,
    text: &str,
    settings: usize,
    most: usize,
) -> bool {
    match plan_at(rt, text, 1, &OpenGate) {
        Some(plan) => plan.settings == settings && plan.reinserted <= most,
        None => false,
    }
}

/// Whether row largest-batch has a setting for each transfer, and none was put back.
fn put_back_none_of_most<R: AllocGlobal + Threads + Sync>(rt: &R) -> bool {
    match repeated(rt.alloc(), ONE_PAIR, 4096) {
        Ok(text) => put_back_at_most(rt, text.as_str(), 4096, 0),
        Err(_) => false,
    }
}

#[test]
fn reinsertions(rt: HostRuntime) {
    assert!(rt; put_back_at_most(&rt, THREE_BY_THREE, 3, 2) && put_back_none_of_most(&rt));
    for workers in &[2, 3, 16, 64] {
        assert!(rt; put_back_as_many(&rt, *workers), "{workers}");
    }
}

/// How often a worker looks whether the other has come.
const TURNS: usize = 10_000_000;

/// A gate that holds each of two workers until the other has come.
#[derive(Drop)]
struct PairGate {
    first: AtomicBool,
    second: AtomicBool,
    gave_up: AtomicBool,
}

impl PairGate {
    fn new() -> PairGate {
        PairGate {
            first: AtomicBool::new(false),
            second: AtomicBool::new(false),
            gave_up: AtomicBool::new(false),
        }
    }

    /// Raises one flag, and waits for the other.
    fn meet(&self, own: &AtomicBool, other: &AtomicBool) {
        own.store(true, SeqCst);
        for _ in 0..TURNS {
            if other.load(SeqCst) {
                return;
            }
            thread::yield_now();
        }
        self.gave_up.store(true, SeqCst);
    }

    /// Whether both have come, and neither waited for too long.
    fn has_met(&self) -> bool {
        self.first.load(SeqCst) && self.second.load(SeqCst) && !self.gave_up.load(SeqCst)
    }
}

impl Gate for PairGate {
    fn arrive(&self, place: usize) {
        match place {
            1 => self.meet(&self.first, &self.second),
            2 => self.meet(&self.second, &self.first),
            _ => self.gave_up.store(true, SeqCst),
        }
    }
}

#[test]
fn both_halves_at_once(rt: HostRuntime) {
    let gate = PairGate::new();
    assert!(rt; plan_at(&rt, FOUR_BY_FOUR, 2, &gate) == Some(PLAN_OF_FOUR) && gate.has_met());
}

/// How often the first worker looks whether the second has come before it.
const LOOKS: usize = 100_000;

/// A gate for four workers, of whom the second begins when the first has come, and the fourth when
/// the third has. The second and the fourth wait for each other: each half is halved by its own.
#[derive(Drop)]
struct QuarterGate {
    pair: PairGate,
    first: AtomicBool,
    third: AtomicBool,
    out_of_order: AtomicBool,
}

impl QuarterGate {
    fn new() -> QuarterGate {
        QuarterGate {
            pair: PairGate::new(),
            first: AtomicBool::new(false),
            third: AtomicBool::new(false),
            out_of_order: AtomicBool::new(false),
        }
    }

    /// Takes its time, in which the second mustn't come.
    fn begin(&self) {
        if self.first.load(SeqCst) {
            return;
        }
        for _ in 0..LOOKS {
            if self.pair.first.load(SeqCst) {
                return;
            }
            thread::yield_now();
        }
        self.first.store(true, SeqCst);
    }

    /// Notes where this worker hasn't come before.
    fn comes_after(&self, earlier: &AtomicBool) {
        if !earlier.load(SeqCst) {
            self.out_of_order.store(true, SeqCst);
        }
    }
}

impl Gate for QuarterGate {
    fn arrive(&self, place: usize) {
        match place {
            1 => self.begin(),
            2 => {
                self.comes_after(&self.first);
                self.pair.meet(&self.pair.first, &self.pair.second);
            }
            3 => self.third.store(true, SeqCst),
            4 => {
                self.comes_after(&self.third);
                self.pair.meet(&self.pair.second, &self.pair.first);
            }
            _ => self.out_of_order.store(true, SeqCst),
        }
    }
}

#[test]
fn quarters_at_once(rt: HostRuntime) {
    let gate = QuarterGate::new();
    let is_planned = plan_at(&rt, FOUR_BY_FOUR, 4, &gate) == Some(PLAN_OF_FOUR);
    assert!(rt; is_planned && gate.pair.has_met() && !gate.out_of_order.load(SeqCst));
}

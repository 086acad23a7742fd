//! Who comes to the gate while a batch is planned, and how often.

use super::planning::plan_at;
use super::texts::{FOUR_BY_FOUR, ONE_PAIR, THREE_TRANSFERS, repeated};
use exchange_limits::MAX_WORKERS;
use schedule_certificate::Gate;
use std::alloc::{AllocError, Global};
use std::sync::atomic::AtomicUsize;
use std::sync::atomic::Ordering::SeqCst;
use std::thread::Threads;

/// Two transfers that share no link.
const APART: &str = "batch 2\npush 0 0 1 0\npush 1 0 0 0\n";

/// A gate that counts how often each worker has come.
#[derive(Drop)]
pub struct CountingGate {
    /// A count for each number, and for 0, which no worker has.
    counts: Vec<AtomicUsize>,
}

impl CountingGate {
    pub fn new(alloc: Global) -> Result<CountingGate, AllocError> {
        let mut counts = Vec::new(alloc);
        for _ in 0..=MAX_WORKERS {
            counts.push(AtomicUsize::new(0))?;
        }
        Ok(CountingGate { counts })
    }

    /// Whether those of the list have come, each as often as it stands there, and nobody else.
    pub fn has_seen(&self, arrivals: &[usize]) -> bool {
        for (place, count) in self.counts.iter().enumerate() {
            if count.load(SeqCst) != count_of(arrivals, place) {
                return false;
            }
        }
        true
    }

    /// Whether a worker has come.
    pub fn has_come(&self, worker: usize) -> bool {
        match self.counts.get(worker) {
            Some(count) => count.load(SeqCst) > 0,
            None => false,
        }
    }
}

impl Gate for CountingGate {
    fn arrive(&self, place: usize) {
        if let Some(count) = self.counts.get(place).or(self.counts.first()) {
            count.fetch_add(1, SeqCst);
        }
    }
}

/// How often a number stands in a list.
fn count_of(numbers: &[usize], wanted: usize) -> usize {
    let mut count: usize = 0;
    for number in numbers {
        if *number == wanted {
            count = count.saturating_add(1);
        }
    }
    count
}

/// Whether just these come while so many workers plan the batch of a text.
fn come<R: AllocGlobal + Threads + Sync>(
    rt: &R,
    text: &str,
    workers: usize,
    wanted: &[usize],
) -> bool {
    match CountingGate::new(rt.alloc()) {
        Ok(gate) => plan_at(rt, text, workers, &gate).is_some() && gate.has_seen(wanted),
        Err(_) => false,
    }
}

/// A number of workers, and who comes where as many plan a batch.
type Arrivals = (usize, &'static [usize]);

/// Whether just those of a list come for each of its numbers of workers.
fn all_come<R: AllocGlobal + Threads + Sync>(rt: &R, text: &str, rows: &[Arrivals]) -> bool {
    for (workers, wanted) in rows {
        if !come(rt, text, *workers, wanted) {
            return false;
        }
    }
    true
}

/// Whether just those of a list come for a batch of these lines, so many times.
fn all_come_to<R: AllocGlobal + Threads + Sync>(
    rt: &R,
    lines: &[&str],
    times: usize,
    rows: &[Arrivals],
) -> bool {
    match repeated(rt.alloc(), lines, times) {
        Ok(text) => all_come(rt, text.as_str(), rows),
        Err(_) => false,
    }
}

/// Four uses of each link: two levels of halves.
const TWO_LEVELS: &[Arrivals] = &[
    (1, &[]),
    (2, &[1, 2]),
    (3, &[1, 1, 2, 3]),
    (4, &[1, 1, 2, 3, 3, 4]),
    (5, &[1, 1, 3, 4, 4, 5]),
    (16, &[1, 1, 5, 9, 9, 13]),
    (64, &[1, 1, 17, 33, 33, 49]),
];

/// Two uses of a link: one level, however few the transfers are.
const ONE_LEVEL: &[Arrivals] = &[
    (1, &[]),
    (2, &[1, 2]),
    (3, &[1, 3]),
    (4, &[1, 3]),
    (64, &[1, 33]),
];

/// One use of each link, or none, or one link in all transfers: nothing is halved.
const NO_LEVEL: &[Arrivals] = &[(64, &[])];

#[test]
fn arrivals_of_parts(rt: HostRuntime) {
    let come = all_come(&rt, FOUR_BY_FOUR, TWO_LEVELS)
        && all_come(&rt, THREE_TRANSFERS, ONE_LEVEL)
        && all_come(&rt, "batch 0\n", NO_LEVEL)
        && all_come(&rt, APART, NO_LEVEL);
    assert!(rt; come);
}

/// Two pairs of links.
const TWO_PAIRS: &[&str] = &["push 0 0 1 0\n", "push 2 0 3 0\n"];

/// Eight uses of each pair's links: three levels of halves, of eight transfers, four and two.
const THREE_LEVELS: &[Arrivals] = &[
    (1, &[]),
    (2, &[1, 2]),
    (3, &[1, 1, 2, 3]),
    (5, &[1, 1, 1, 2, 3, 4, 4, 5]),
    (8, &[1, 1, 1, 2, 3, 3, 4, 5, 5, 5, 6, 7, 7, 8]),
    (64, &[1, 1, 1, 9, 17, 17, 25, 33, 33, 33, 41, 49, 49, 57]),
];

/// As many uses as workers: six levels, down to one worker and a transfer of each pair. On each the
/// halves begin with those whose numbers stand in a line: the halves have 32 workers, 16, 8, 4, 2
/// and 1.
const SIX_LEVELS: &[Arrivals] = &[(
    64,
    &[
        1, 33, //
        1, 17, 33, 49, //
        1, 9, 17, 25, 33, 41, 49, 57, //
        1, 5, 9, 13, 17, 21, 25, 29, 33, 37, 41, 45, 49, 53, 57, 61, //
        1, 3, 5, 7, 9, 11, 13, 15, 17, 19, 21, 23, 25, 27, 29, 31, //
        33, 35, 37, 39, 41, 43, 45, 47, 49, 51, 53, 55, 57, 59, 61, 63, //
        1, 2, 3, 4, 5, 6, 7, 8, 9, 10, 11, 12, 13, 14, 15, 16, //
        17, 18, 19, 20, 21, 22, 23, 24, 25, 26, 27, 28, 29, 30, 31, 32, //
        33, 34, 35, 36, 37, 38, 39, 40, 41, 42, 43, 44, 45, 46, 47, 48, //
        49, 50, 51, 52, 53, 54, 55, 56, 57, 58, 59, 60, 61, 62, 63, 64, //
    ],
)];

#[test]
fn arrivals_of_repeated_transfers(rt: HostRuntime) {
    let come = all_come_to(&rt, TWO_PAIRS, 2, ONE_LEVEL)
        && all_come_to(&rt, TWO_PAIRS, 8, THREE_LEVELS)
        && all_come_to(&rt, TWO_PAIRS, 64, SIX_LEVELS)
        && all_come_to(&rt, ONE_PAIR, 64, NO_LEVEL);
    assert!(rt; come);
}

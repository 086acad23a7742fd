//! Runs are made by as many workers as the plant has, and the exchange gives back the plant that it
//! was made with.

ghost use Rattle.batch_book.specs.History.{new_book_view};
ghost use Rattle.batch_book.specs.Naming.{IsNamed};

use crate::tests::office::{Ask, Row, Said, close, open_pair};
use batch_book::{ExchangeBlank, ExchangeName};
use crossbar::MemoryPort;
use module_memory::Rack;
use peek_poke::PlainWires;
use runs_tests::common::{TWO_PUSHES, marked, two, with_gate};
use runs_tests::meeting::Meeting;
use setting_runner::Plant;
use std::marker::Brand;
use std::sync::Wait;
use std::thread::Threads;
use std::time::Clock;

/// Row two-pushes.
const ROWS: [Row; 3] = [
    (Ask::Submit(TWO_PUSHES), Said::Accepted(1)),
    (Ask::Settle(1, TWO_PUSHES), Said::Settled(1)),
    (Ask::Run(1), Said::Ran(1, 1, 4)),
];

/// Whether the workers of a plant have met, and it has two as yet.
fn has_two(plant: Plant<MemoryPort, PlainWires, Meeting>) -> bool {
    let is_met = plant.gate.is_met();
    let workers = plant.workers.get();
    is_met && workers == 2
}

/// Whether an exchange runs the row by two workers, and gives the plant back with as many.
fn runs_by_two<L: ExchangeName, R: AllocGlobal + Clock + Threads + Wait + Sync>(
    rt: &R,
    blank: ExchangeBlank,
    rack: Rack,
) -> bool
    requires named { IsNamed L.name L.parts L.table L.opening L.earlier blank (new_book_view rack) }
{
    let opened = open_pair::<L, PlainWires, Meeting>(
        rt.alloc(),
        blank,
        rack,
        with_gate(PlainWires, Meeting::new(), two()),
    );
    let Some(mut pair) = opened else {
        return false;
    };
    let is_answered = pair.is_answered(rt, &ROWS);
    match close(rt.alloc(), pair) {
        Some(closed) => has_two(closed.plant) && is_answered,
        None => false,
    }
}

/// Whether runs on the row's rack go by two wires at once.
fn runs_by_two_of<R: AllocGlobal + Clock + Threads + Wait + Sync>(rt: &R) -> bool {
    match marked(rt.alloc(), "3x2x2") {
        Some(rack) => match ExchangeBlank::new(rt.alloc()) {
            Ok(blank) => runs_by_two::<Brand, R>(rt, blank, rack),
            Err(_) => false,
        },
        None => false,
    }
}

#[test]
fn two_workers_run_a_batch(rt: HostRuntime) {
    assert!(rt; runs_by_two_of(&rt));
}

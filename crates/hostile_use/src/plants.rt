//! What a run needs, and a notice that nobody hears.

use crossbar::MemoryPort;
use exchange_limits::WorkerCount;
use peek_poke::PlainWires;
use schedule_certificate::OpenGate;
use setting_runner::{Notice, Plant};

/// A notice that nobody hears.
#[derive(Drop)]
pub struct NoNotice;

impl Notice for NoNotice {
    ghost hears = { λ _ _ _. Unit {0} };

    fn done(&mut self, _settings: usize) {}
}

/// What runs in memory are made with.
pub type PlainPlant = Plant<MemoryPort, PlainWires, OpenGate>;

/// A plant with so many workers, whose port and wires never fail.
pub fn plant_of(workers: WorkerCount) -> PlainPlant {
    Plant {
        port: MemoryPort::new(),
        wires: PlainWires,
        gate: OpenGate,
        workers,
    }
}

/// A plant with one worker.
pub fn plain() -> PlainPlant {
    plant_of(WorkerCount::ONE)
}

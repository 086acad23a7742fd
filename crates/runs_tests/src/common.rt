//! What tests of each kind need: row two-pushes, plans and racks of texts, plants, and a notice
//! that is kept.

use batch::{Batch, Shape};
use crossbar::MemoryPort;
use exchange_limits::WorkerCount;
use module_memory::Rack;
use schedule_certificate::{OpenGate, Planned, schedule};
use setting_runner::{Notice, Plant};
use std::alloc::Global;
use std::sync::atomic::{AtomicUsize, Ordering};
use std::thread::Threads;

/// Row two-pushes: two transfers in one setting.
pub const TWO_PUSHES: &str = "batch 2\npush 0 0 1 0\npush 1 1 2 0\n";

/// How often a thread lets others run at most, while it waits for one of them.
pub const TURNS: usize = 10_000_000;

/// The batch of a text.
pub fn batch(alloc: Global, text: &str) -> Option<Batch> {
    Batch::read(alloc, text.as_bytes(), Shape::WIDEST).ok()
}

/// The plan of a batch text.
pub fn plan<R: AllocGlobal + Threads + Sync>(rt: &R, text: &str) -> Option<Planned> {
    let batch = batch(rt.alloc(), text)?;
    schedule(rt, rt.alloc(), batch, WorkerCount::ONE, &OpenGate).ok()
}

/// A rack of this shape, whose words are 0.
pub fn zeros(alloc: Global, shape: &str) -> Option<Rack> {
    let shape = Shape::read(shape.as_bytes()).ok()?;
    Rack::new(alloc, shape).ok()
}

/// A rack of this shape, each of whose words tells where it stands.
pub fn marked(alloc: Global, shape: &str) -> Option<Rack> {
    let mut rack = zeros(alloc, shape)?;
    rack.mark();
    Some(rack)
}

/// Two workers.
pub fn two() -> WorkerCount {
    WorkerCount::new(2).unwrap()
}

/// A plant with this gate, whose port never fails.
pub fn with_gate<W, G>(wires: W, gate: G, workers: WorkerCount) -> Plant<MemoryPort, W, G> {
    Plant {
        port: MemoryPort::new(),
        wires,
        gate,
        workers,
    }
}

/// A plant of one worker with these wires, whose port never fails.
pub fn with_wires<W>(wires: W) -> Plant<MemoryPort, W, OpenGate> {
    with_gate(wires, OpenGate, WorkerCount::ONE)
}

/// A notice that counts how often it is told, and keeps whether that was from 0 on, in order.
#[derive(Clone, Copy)]
pub struct Told<'a> {
    times: &'a AtomicUsize,
    in_order: bool,
}

impl<'a> Told<'a> {
    /// A notice that counts here.
    pub fn new(times: &'a AtomicUsize) -> Told<'a> {
        Told {
            times,
            in_order: true,
        }
    }

    /// Whether it was told so often, in order.
    pub fn is_just(&self, times: usize) -> bool {
        self.in_order && self.times.load(Ordering::SeqCst) == times
    }
}

impl<'a> Notice for Told<'a> {
    ghost hears = { λ _ _ _. Unit {0} };

    fn done(&mut self, settings: usize) {
        let before = self.times.fetch_add(1, Ordering::SeqCst);
        self.in_order = self.in_order && before == settings;
    }
}

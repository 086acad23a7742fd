//! What comes of planning at a gate.

use super::texts::read;
use exchange_limits::WorkerCount;
use schedule_certificate::{Gate, schedule};
use std::thread::Threads;

/// What is told of a plan: how many settings it has, and how many transfers were put back.
#[derive(Clone, Copy, PartialEq)]
pub struct Plan {
    pub settings: usize,
    pub reinserted: usize,
}

/// The plan of a batch text by so many workers, at least one and at most 64, who come to this gate.
pub fn plan_at<R: AllocGlobal + Threads + Sync, G: Gate>(
    rt: &R,
    text: &str,
    workers: usize,
    gate: &G,
) -> Option<Plan> {
    let workers = WorkerCount::new(workers)?;
    let batch = read(rt.alloc(), text)?;
    match schedule(rt, rt.alloc(), batch, workers, gate) {
        Ok(planned) => Some(Plan {
            settings: planned.schedule().settings(),
            reinserted: planned.reinserted(),
        }),
        Err(_) => None,
    }
}

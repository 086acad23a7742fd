ghost use Rattle.std.specs.Prelude.{◌≡◌, ◌↔◌, ◌≤◌, IsSome, IfSome};

use crate::limits::MAX_WORKERS;
use std::marker::Model;

/// How many workers planning or a run may have: from 1 to [`MAX_WORKERS`], which is this project's
/// choice.
#[derive(Clone, Copy)]
pub struct WorkerCount {
    count: usize,
}

impl Model for WorkerCount {
    ghost use Rattle.std.specs.Prelude.{ℕ, ◌≤◌};
    ghost use Rattle.exchange_limits.specs.declared.limits.TheConstants.{MAX_WORKERS};

    ghost Value = { ℕ };

    ghost view = { λ w. w.count };

    ghost invariant = { λ w. (1 ≤ w.count) × (w.count ≤ MAX_WORKERS) };

    ghost inverse = { λ n. record { count = n } };
}

impl WorkerCount {
    /// One worker alone.
    pub const ONE: WorkerCount = WorkerCount { count: 1 };

    /// This many workers, where there may be so many.
    pub fn new(count: usize) -> Option<WorkerCount>
        ensures some { IsSome result ↔ ((1 ≤ count) × (count ≤ MAX_WORKERS)) }
        ensures count { IfSome result (λ workers. workers ≡ count) }
    {
        if (1..=MAX_WORKERS).contains(&count) {
            Some(WorkerCount { count })
        } else {
            None
        }
    }

    /// How many there are.
    pub fn get(self) -> usize
        ensures count { result ≡ self }
        ensures some { 1 ≤ result }
        ensures few { result ≤ MAX_WORKERS }
    {
        self.count
    }
}

//! A gate at which two workers meet.

use crate::common::TURNS;
use schedule_certificate::Gate;
use std::sync::atomic::{AtomicBool, Ordering};
use std::thread::yield_now;

/// A gate with two flags, each of which is raised by one worker, which then waits for the other.
#[derive(Drop)]
pub struct Meeting {
    first: AtomicBool,
    second: AtomicBool,
    gave_up: AtomicBool,
}

impl Meeting {
    /// Nobody came as yet.
    pub fn new() -> Meeting {
        Meeting {
            first: AtomicBool::new(false),
            second: AtomicBool::new(false),
            gave_up: AtomicBool::new(false),
        }
    }

    /// Raises the flag of one side, and waits for that of the other.
    fn meet(&self, is_first: bool) {
        let (mine, other) = if is_first {
            (&self.first, &self.second)
        } else {
            (&self.second, &self.first)
        };
        mine.store(true, Ordering::SeqCst);
        for _ in 0..TURNS {
            if other.load(Ordering::SeqCst) {
                return;
            }
            yield_now();
        }
        self.gave_up.store(true, Ordering::SeqCst);
    }

    /// Whether both sides came, and neither gave up.
    pub fn is_met(&self) -> bool {
        let first = self.first.load(Ordering::SeqCst);
        let second = self.second.load(Ordering::SeqCst);
        let gave_up = self.gave_up.load(Ordering::SeqCst);
        first && second && !gave_up
    }
}

impl Gate for Meeting {
    fn arrive(&self, place: usize) {
        match place {
            1 => self.meet(true),
            2 => self.meet(false),
            _ => self.gave_up.store(true, Ordering::SeqCst),
        }
    }
}

use std::alloc::{AllocError, AllocFailed};
use thiserror::Error;

/// Why a text says no schedule, or want of memory.
#[derive(Clone, Copy, Debug, Error)]
pub enum ScheduleFault {
    /// This line, counted from 1, is the first that doesn't have the form that is wanted in its
    /// place, or has no line feed. Where the text ends too early, it is the line that is missing;
    /// where something follows a whole text, it is the first line that follows.
    #[error("line {0}")]
    Line(usize),
    /// There was no memory to keep the settings.
    #[error("no memory")]
    NoMemory,
}

impl From<AllocError> for ScheduleFault {
    ghost use Rattle.std.specs.Prelude.{◌≡◌};
    ghost use Rattle.link_graph.specs.declared.schedule_fault.ScheduleFault.TheVariants.{NoMemory};

    ghost from_gives = { λ _ fault. fault ≡ NoMemory };

    fn from(_error: AllocError) -> ScheduleFault {
        ScheduleFault::NoMemory
    }
}

impl<T: Drop> From<AllocFailed<T>> for ScheduleFault {
    ghost use Rattle.std.specs.Prelude.{◌≡◌};
    ghost use Rattle.link_graph.specs.declared.schedule_fault.ScheduleFault.TheVariants.{NoMemory};

    ghost from_gives = { λ _ fault. fault ≡ NoMemory };

    fn from(_error: AllocFailed<T>) -> ScheduleFault {
        ScheduleFault::NoMemory
    }
}

use std::alloc::{AllocError, AllocFailed};
use thiserror::Error;

/// Why three numbers are no shape.
#[derive(Clone, Copy, Debug, Error)]
pub enum ShapeFault {
    /// One of the numbers is 0 or above its limit.
    #[error("bad shape")]
    BadShape,
}

/// Why a text denotes no batch: its first fault, or want of memory.
///
/// Lines are judged one after another. Of a line of a transfer the form counts first, then the
/// modules, then the blocks. That order is this project's choice.
#[derive(Clone, Copy, Debug, PartialEq, Eq, Error)]
pub enum BatchFault {
    /// The first line, by its number from 1, whose form isn't the one that belongs there, or which
    /// no line feed ends. An empty text is at fault in line 1.
    #[error("line {0}")]
    Line(usize),
    /// The first line announces more than [`MAX_TRANSFERS`](crate::MAX_TRANSFERS) transfers.
    #[error("too many")]
    TooMany,
    /// A module of this transfer, counted from 0, isn't below the shape's modules.
    #[error("no module {0}")]
    NoModule(usize),
    /// A block of this transfer, counted from 0, isn't below the shape's blocks.
    #[error("no block {0}")]
    NoBlock(usize),
    /// The text ends with fewer transfer lines than were announced, or goes on after the last.
    #[error("count")]
    Count,
    /// There was no memory to keep the transfers.
    #[error("no memory")]
    NoMemory,
}

impl From<AllocError> for BatchFault {
    ghost use Rattle.std.specs.Prelude.{◌≡◌};
    ghost use Rattle.batch.specs.declared.fault.BatchFault.TheVariants.{NoMemory};

    ghost from_gives = { λ _ fault. fault ≡ NoMemory };

    fn from(_error: AllocError) -> BatchFault {
        BatchFault::NoMemory
    }
}

impl<T: Drop> From<AllocFailed<T>> for BatchFault {
    ghost use Rattle.std.specs.Prelude.{◌≡◌};
    ghost use Rattle.batch.specs.declared.fault.BatchFault.TheVariants.{NoMemory};

    ghost from_gives = { λ _ fault. fault ≡ NoMemory };

    fn from(_error: AllocFailed<T>) -> BatchFault {
        BatchFault::NoMemory
    }
}

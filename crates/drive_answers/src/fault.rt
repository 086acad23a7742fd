use std::alloc::AllocError;

/// Why there is nothing to print after what was told.
#[derive(Clone, Copy)]
pub enum DriveFault {
    /// A setting stands, and couldn't be told.
    Untold,
    /// There was no memory, before anything was sent.
    NoMemory,
}

impl From<AllocError> for DriveFault {
    ghost use Rattle.std.specs.Prelude.{◌≡◌};
    ghost use Rattle.drive_answers.specs.declared.fault.DriveFault.TheVariants.{NoMemory};

    ghost from_gives = { λ _ gives. gives ≡ NoMemory };

    fn from(_error: AllocError) -> DriveFault {
        DriveFault::NoMemory
    }
}

use crate::link::Link;
use std::alloc::AllocError;
use thiserror::Error;

/// Why a schedule with its certificate isn't accepted: the first fault, or want of memory.
///
/// The faults are tested in the order in which they are listed here, each of them in all of the
/// schedule before the next. That order is this project's choice.
#[derive(Clone, Copy, Debug, Error)]
pub enum CheckFault {
    /// This number stands in a setting, and the batch has no such transfer. It is the first one in
    /// the order of the settings.
    #[error("unknown {0}")]
    Unknown(usize),
    /// This transfer stands twice. It is the first one whose second standing is met.
    #[error("repeated {0}")]
    Repeated(usize),
    /// This transfer stands nowhere. It is the least such number.
    #[error("missing {0}")]
    Missing(usize),
    /// Two transfers of this setting, counted from 0, use this link. It is the first such setting,
    /// and its first such link in the order of links.
    #[error("clash in setting {0} at {1}")]
    Clash(usize, Link),
    /// This number is named, and it is no transfer that uses the link. It is the first one named.
    #[error("wrong link {0}")]
    WrongLink(usize),
    /// This transfer is named twice. It is the first one whose second standing is met.
    #[error("certificate repeats {0}")]
    CertificateRepeats(usize),
    /// The number of settings, and the number of named transfers, which isn't the same.
    #[error("not tight: {0} settings, {1} named")]
    NotTight(usize, usize),
    /// There was no memory to check in.
    #[error("no memory")]
    NoMemory,
}

impl From<AllocError> for CheckFault {
    ghost use Rattle.std.specs.Prelude.{◌≡◌};
    ghost use Rattle.link_graph.specs.declared.check_fault.CheckFault.TheVariants.{NoMemory};

    ghost from_gives = { λ _ fault. fault ≡ NoMemory };

    fn from(_error: AllocError) -> CheckFault {
        CheckFault::NoMemory
    }
}

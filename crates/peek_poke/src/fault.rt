//! What can go wrong between a module and its link.

use thiserror::Error;

/// Why a store can't read or write an address. That an address is misaligned is tested first, which
/// is this project's choice.
#[derive(Clone, Copy, Debug, PartialEq, Eq, Error)]
pub enum StoreFault {
    /// The address is no multiple of four.
    #[error("the address is misaligned")]
    Misaligned,
    /// The store has no such address, or can't be written.
    #[error("the address is outside the store")]
    Outside,
}

/// Why an answering end refuses a byte. After any fault the end has failed. These faults are this
/// project's choice.
#[derive(Clone, Copy, Debug, PartialEq, Eq, Error)]
pub enum AnswerFault {
    /// The control byte, which is named, is that of a bootstrap.
    #[error("no bootstrap is taken, of {0} bytes")]
    Boot(u8),
    /// The address of the message that ends with this byte is no multiple of four.
    #[error("the address is misaligned")]
    Misaligned,
    /// The store doesn't have the address of the message that ends with this byte.
    #[error("the address is outside the store")]
    Outside,
    /// The end has failed before.
    #[error("the answering end has failed")]
    Failed,
}

impl From<StoreFault> for AnswerFault {
    ghost use Rattle.std.specs.Prelude.{◌≡◌};
    ghost use Rattle.peek_poke.specs.Effects.{answer_fault};

    ghost from_gives = { λ e r. r ≡ answer_fault e };

    fn from(fault: StoreFault) -> AnswerFault {
        match fault {
            StoreFault::Misaligned => AnswerFault::Misaligned,
            StoreFault::Outside => AnswerFault::Outside,
        }
    }
}

/// A wire didn't carry a byte.
#[derive(Clone, Copy, Debug, Error)]
#[error("the wire failed")]
pub struct WireFault;

//! Why a byte isn't taken.

use peek_poke::AnswerFault;
use thiserror::Error;

/// Why a byte isn't taken.
#[derive(Clone, Copy, Debug, Error)]
pub enum BootFault {
    /// No end has this state.
    #[error("no end has this state")]
    NoEnd,
    /// The end refuses the byte, or has failed before.
    #[error("{0}")]
    Refused(AnswerFault),
}

//! What can be wrong with a state, and with what is asked of it.

use c004_commands::CommandFault;
use thiserror::Error;

/// Why a byte isn't taken.
#[derive(Clone, Copy, Debug, Error)]
pub enum TakeFault {
    /// No switch has this state.
    #[error("no switch has this state")]
    NoSwitch,
    /// The byte can't stand where it came.
    #[error("{0}")]
    Byte(CommandFault),
}

/// Why there is no answer.
#[derive(Clone, Copy, Debug, Error)]
pub enum AskFault {
    /// No switch has this state.
    #[error("no switch has this state")]
    NoSwitch,
    /// No port has this number.
    #[error("no port has this number")]
    NoPort,
}

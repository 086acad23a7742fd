//! The answer to an enquiry.

ghost use Rattle.std.specs.Prelude.{◌≡◌, ◌+◌, ◌≤◌, ◌↔◌, Ok};
ghost use Rattle.std.specs.Result.{IsErrOf};
ghost use Rattle.c004_commands.specs.Answers.{IsAnswer};
ghost use Rattle.c004_commands.specs.declared.answer.OutputState.{OutputState};
ghost use Rattle.c004_commands.specs.declared.port.TheConstants.{PORTS};

use crate::port::PortNo;
use thiserror::Error;

/// The top bit of an answer: it is 1 where the output is connected (INMOS IMS C004 data sheet).
pub const CONNECTED: u8 = 128;

/// What an enquired output says of itself (INMOS IMS C004 data sheet).
#[derive(Clone, Copy, PartialEq, Eq)]
pub enum OutputState {
    /// This input feeds it.
    Connected(PortNo),
    /// It isn't connected.
    Loose,
}

/// A byte that answers no enquiry. That it is refused is this project's choice.
#[derive(Clone, Copy, Debug, PartialEq, Eq, Error)]
pub enum AnswerFormat {
    /// The top bit is 1, so the output is connected, and bit 5 or 6 is 1, so no input has the
    /// number.
    #[error("the answer names an input that the switch doesn't have")]
    BadAnswer,
}

impl OutputState {
    /// Reads the byte that answers an enquiry: the top bit tells whether the output is connected,
    /// and the input stands below it (INMOS IMS C004 data sheet). Of a byte whose top bit is 0
    /// nothing else is read, and `BadAnswer` is a byte whose top bit is 1 and whose bit 5 or 6 is
    /// too; both are this project's choice.
    pub fn read(byte: u8) -> Result<OutputState, AnswerFormat>
        ensures answer { (answer : OutputState) → (result ≡ Ok answer) ↔ IsAnswer answer byte }
        // No answer has bit 5 or 6 beside its top bit.
        ensures bad { IsErrOf result AnswerFormat.BadAnswer ↔ (CONNECTED + PORTS ≤ byte) }
    {
        if byte < CONNECTED {
            return Ok(OutputState::Loose);
        }
        match PortNo::new(byte - CONNECTED) {
            Some(input) => Ok(OutputState::Connected(input)),
            None => Err(AnswerFormat::BadAnswer),
        }
    }
}

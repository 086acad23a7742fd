//! The bytes that keep a switch.

ghost use Rattle.std.specs.Prelude.{◌≡◌, ◌↔◌, IsTrue, MatchOption};
ghost use Rattle.std.specs.List.{list_all};
ghost use Rattle.c004_commands.specs.Commands.{IsCommandFront};
ghost use Rattle.link_devices.specs.SwitchBytes.{is_answer};
ghost use Rattle.link_devices.specs.SwitchStates.{IsSwitchState, command_begun, kept_end};
ghost use Rattle.link_devices.specs.SwitchStates.{new_switch_end, HasZerosAfter};

use c004_commands::{CONNECTED, CommandReader, LONGEST_COMMAND, PORTS};

/// How many outputs a switch has.
pub const OUTPUTS: usize = PORTS as usize;

/// How many bytes can have come of a command: one less than the longest has.
pub const MAX_PARTIAL_COMMAND: usize = LONGEST_COMMAND - 1;

/// The bytes that keep a switch, and what has come of its next command. Not all bytes do: those
/// that no switch has are refused by each call. That they are these is this project's choice.
#[repr(C)]
#[derive(Clone, Copy)]
pub struct SwitchState {
    /// What each output answers an enquiry: the input that feeds it, with the top bit 1, or 0 where
    /// none does.
    pub outputs: [u8; OUTPUTS],
    /// The bytes that have come of a command, with zeros after them.
    pub begun: [u8; MAX_PARTIAL_COMMAND],
    /// How many bytes have come of it, 0 to [`MAX_PARTIAL_COMMAND`].
    pub begun_count: u8,
    /// 1 from a command that connects to the next that settles or resets, and else 0.
    pub connecting: u8,
}

impl SwitchState {
    /// A switch as after a reset, to which nothing has come. All bytes are 0.
    pub fn reset() -> SwitchState
        ensures state { IsSwitchState result }
        ensures new { kept_end result ≡ new_switch_end }
    {
        SwitchState {
            outputs: [0; OUTPUTS],
            begun: [0; MAX_PARTIAL_COMMAND],
            begun_count: 0,
            connecting: 0,
        }
    }

    /// A reader to which just those bytes have come that have come of the next command. There is
    /// none where no switch has this state.
    pub(crate) fn reader(&self) -> Option<CommandReader>
        ensures { MatchOption result (IsSwitchState self.now → ⊥)
            (λ reader. IsSwitchState self.now × (reader ≡ command_begun self.now)) }
    {
        if self.connecting > 1 || !are_answers(&self.outputs) {
            return None;
        }
        if !self.has_zeros_after() {
            return None;
        }
        reader_of(&self.begun[..usize::from(self.begun_count)])
    }

    /// Whether at most so many bytes have come as may come, and zeros stand after them.
    fn has_zeros_after(&self) -> bool
        ensures { IsTrue result ↔ HasZerosAfter self.now.begun_count self.now.begun }
    {
        match self.begun_count {
            0 => self.begun[0] == 0 && self.begun[1] == 0,
            1 => self.begun[1] == 0,
            count => count == 2,
        }
    }
}

/// Whether an output can answer so.
fn is_answer(byte: u8) -> bool
    ensures { result ≡ is_answer byte }
{
    byte == 0 || (byte >= CONNECTED && byte < CONNECTED + PORTS)
}

/// Whether outputs can answer so.
fn are_answers(outputs: &[u8]) -> bool
    ensures { result ≡ list_all is_answer outputs.now }
{
    outputs.iter().all(|byte| is_answer(*byte))
}

/// A reader to which these bytes have come. There is none where they are no front of a command.
fn reader_of(begun: &[u8]) -> Option<CommandReader>
    ensures { MatchOption result (IsCommandFront begun.now → ⊥)
        (λ reader. IsCommandFront begun.now × (reader ≡ begun.now)) }
{
    let mut reader = CommandReader::new();
    for byte in begun {
        match reader.feed(*byte) {
            Ok(None) => {}
            Ok(Some(_)) => return None,
            Err(_) => return None,
        }
    }
    Some(reader)
}

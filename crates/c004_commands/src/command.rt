//! The seven commands, and how they are written.

ghost use Rattle.std.specs.Prelude.{◌≡◌, ◌++◌, ◌-◌, ◌≤◌, length, take, replicate};
ghost use Rattle.c004_commands.specs.Commands.{row, HasPorts};

use crate::port::PortNo;

// The first byte of each command, which says which it is (INMOS IMS C004 data sheet).
pub(crate) const CONNECT: u8 = 0;

pub(crate) const JOIN: u8 = 1;

pub(crate) const ENQUIRE: u8 = 2;

pub(crate) const SETTLE: u8 = 3;

pub(crate) const RESET: u8 = 4;

pub(crate) const CUT: u8 = 5;

pub(crate) const CUT_PAIR: u8 = 6;

/// How many bytes the longest command has (INMOS IMS C004 data sheet).
pub const LONGEST_COMMAND: usize = 3;

/// A command to the switch, a configuration message of the INMOS IMS C004 data sheet.
#[derive(Clone, Copy, PartialEq, Eq)]
pub enum Command {
    /// The input feeds the output.
    Connect { input: PortNo, output: PortNo },
    /// The input of each link feeds the output of the other.
    Join { link1: PortNo, link2: PortNo },
    /// Asks which input feeds the output.
    Enquire { output: PortNo },
    /// Ends a sequence that sets up connections.
    Settle,
    /// Disconnects all outputs.
    Reset,
    /// Disconnects the output.
    Cut { output: PortNo },
    /// Disconnects the outputs of both links.
    CutPair { link1: PortNo, link2: PortNo },
}

/// Writes the command's bytes (INMOS IMS C004 data sheet, configuration messages) to the front of
/// `out`, and gives their number, 1 to [`LONGEST_COMMAND`]. That zeros stand after them is this
/// project's choice.
pub fn write(command: Command, out: &mut [u8; LONGEST_COMMAND]) -> usize
    ensures number { result ≡ length (row command) }
    ensures bytes { take result out.new ≡ row command }
    // Zeros fill the array.
    ensures whole { out.new ≡ row command ++ replicate (LONGEST_COMMAND - result) 0 }
    ensures room { result ≤ LONGEST_COMMAND }
    ensures ports { HasPorts command }
{
    let (bytes, number) = match command {
        Command::Connect { input, output } => ([CONNECT, input.get(), output.get()], 3),
        Command::Join { link1, link2 } => ([JOIN, link1.get(), link2.get()], 3),
        Command::Enquire { output } => ([ENQUIRE, output.get(), 0], 2),
        Command::Settle => ([SETTLE, 0, 0], 1),
        Command::Reset => ([RESET, 0, 0], 1),
        Command::Cut { output } => ([CUT, output.get(), 0], 2),
        Command::CutPair { link1, link2 } => ([CUT_PAIR, link1.get(), link2.get()], 3),
    };
    *out = bytes;
    number
}

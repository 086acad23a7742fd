//! What fails or lies in a run of row two-pushes, and how the run is to end then.

use crate::running::{Block, End};
use crossbar::{Chip, ConfigPort, FusePort, PortFault, joined_wide};
use exchange_limits::WorkerCount;
use peek_poke::FuseWires;
use schedule_certificate::OpenGate;
use setting_runner::{Plant, StopCause};

/// What fails or lies.
#[derive(Clone, Copy)]
pub enum Fault {
    /// The port, which takes so many bytes.
    Port(usize),
    /// The wire of this transfer, which carries so many bytes.
    Wire(usize, usize),
    /// This output of a switch, which answers this byte.
    Answer(Chip, u8, u8),
}

/// How many bytes the row sends to its port to set the switches, 8 to each.
fn setting_bytes(is_wide: bool) -> usize {
    if is_wide { 16 } else { 8 }
}

/// How many bytes it sends to it in all: 64 ask each switch.
fn port_bytes(is_wide: bool) -> usize {
    if is_wide { 144 } else { 72 }
}

/// How many bytes go over a wire for a word, and for both words of a transfer.
const WORD_BYTES: usize = 9;

const WIRE_BYTES: usize = 18;

/// How many faults there are: of the port for each number of bytes and some more, and so of each
/// wire; and each byte as the answer of each output.
pub fn count_of_faults(is_wide: bool) -> usize {
    if is_wide { 186 + 2 * 8192 } else { 186 + 8192 }
}

/// The fault of a number.
pub fn fault_of(number: usize) -> Fault {
    match number.checked_sub(186) {
        Some(place) => answer_of(place),
        None if number < 146 => Fault::Port(number),
        None => Fault::Wire(number % 2, (number - 146) / 2),
    }
}

/// The answer of a number.
fn answer_of(place: usize) -> Fault {
    let chip = if place < 8192 { Chip::A } else { Chip::B };
    Fault::Answer(chip, (place / 256 % 32) as u8, (place % 256) as u8)
}

/// A port to switches in memory that takes some bytes and then fails, of which one output may lie.
#[derive(Drop)]
pub struct FaultyPort {
    memory: FusePort,
    fault: Fault,
}

impl ConfigPort for FaultyPort {
    ghost use Rattle.std.specs.Prelude.{false};

    ghost switches = { λ p. p.memory.switches };

    ghost honest = { λ _. false };

    ghost failures = { λ p. p.memory.failures };

    fn converse(&mut self, chip: Chip, bytes: &[u8], replies: &mut [u8]) -> Result<(), PortFault> {
        self.memory.converse(chip, bytes, replies)?;
        if let Fault::Answer(lying, output, reply) = self.fault {
            if chip == lying && usize::from(output) < replies.len() {
                replies[usize::from(output)] = reply;
            }
        }
        Ok(())
    }
}

impl FaultyPort {
    /// Whether its switches stand as the row sets them.
    fn is_set(&self, is_wide: bool) -> bool {
        let (a, b) = (self.memory.crossbar(Chip::A), self.memory.crossbar(Chip::B));
        if is_wide {
            joined_wide(a, b, 0, 1) && joined_wide(a, b, 1, 2)
        } else {
            a.joined(0, 1) && a.joined(1, 2)
        }
    }
}

/// A plant in which this fails or lies.
pub type FaultyPlant = Plant<FaultyPort, FuseWires, OpenGate>;

impl Fault {
    /// A plant with this fault.
    pub fn plant(self, workers: WorkerCount) -> FaultyPlant {
        let bytes = match self {
            Fault::Port(bytes) => bytes,
            _ => usize::MAX,
        };
        let wires = match self {
            Fault::Wire(transfer, bytes) => FuseWires { transfer, bytes },
            _ => FuseWires {
                transfer: 4096,
                bytes: 0,
            },
        };
        Plant {
            port: FaultyPort {
                memory: FusePort::new(bytes),
                fault: self,
            },
            wires,
            gate: OpenGate,
            workers,
        }
    }

    /// Why the row stops, if it does.
    pub fn cause(self, is_wide: bool) -> Option<StopCause> {
        match self {
            Fault::Port(bytes) if bytes < port_bytes(is_wide) => Some(StopCause::Port),
            Fault::Wire(transfer, bytes) if bytes < WIRE_BYTES => Some(StopCause::Wire(transfer)),
            Fault::Answer(chip, output, reply) if !is_called_for(is_wide, chip, output, reply) => {
                let number = if chip == Chip::B {
                    output.saturating_add(32)
                } else {
                    output
                };
                Some(StopCause::SwitchDisagrees(number))
            }
            _ => None,
        }
    }

    /// How many words each transfer of the row has moved then.
    pub fn words(self, is_wide: bool) -> [u16; 2] {
        match (self, self.cause(is_wide)) {
            (_, None) => [2, 2],
            (Fault::Wire(0, bytes), _) => [words_in(bytes), 2],
            (Fault::Wire(_, bytes), _) => [2, words_in(bytes)],
            _ => [0, 0],
        }
    }

    /// Whether the switches stand as the row sets them just where the port took the setting.
    pub fn is_set_rightly(self, is_wide: bool, port: &FaultyPort) -> bool {
        match self {
            Fault::Port(bytes) => port.is_set(is_wide) == (bytes >= setting_bytes(is_wide)),
            _ => port.is_set(is_wide),
        }
    }
}

/// How many words have moved with so many bytes.
fn words_in(bytes: usize) -> u16 {
    match bytes {
        0..WORD_BYTES => 0,
        WORD_BYTES..WIRE_BYTES => 1,
        _ => 2,
    }
}

/// The input that feeds an output in the row's setting, of those that are fed.
fn input_of(is_wide: bool, chip: Chip, output: u8) -> Option<u8> {
    match (is_wide, chip, output) {
        (false, Chip::A, 0) => Some(17),
        (false, Chip::A, 1) => Some(18),
        (false, Chip::A, 17) => Some(0),
        (false, Chip::A, 18) => Some(1),
        (true, Chip::A, 1) => Some(0),
        (true, Chip::A, 2) => Some(1),
        (true, Chip::B, 0) => Some(1),
        (true, Chip::B, 1) => Some(2),
        _ => None,
    }
}

/// Whether the row's setting calls for this answer: the input with the top bit, or of an output
/// that nothing feeds any byte without the top bit.
fn is_called_for(is_wide: bool, chip: Chip, output: u8, reply: u8) -> bool {
    match input_of(is_wide, chip, output) {
        Some(input) => reply == 0x80 | input,
        None => reply < 0x80,
    }
}

/// The words of block 0 of module 1, where so many were moved.
pub fn words_of_1(moved: u16) -> &'static [u32] {
    match moved {
        0 => &[0x0001_0000, 0x0001_0001],
        1 => &[0, 0x0001_0001],
        _ => &[0, 1],
    }
}

/// The words of module 2 after so many of them moved.
pub fn words_of_2(moved: u16) -> &'static [u32] {
    match moved {
        0 => &[0x0002_0000, 0x0002_0001],
        1 => &[0x0001_0100, 0x0002_0001],
        _ => &[0x0001_0100, 0x0001_0101],
    }
}

/// All blocks of the row's rack, where so many words were moved.
pub fn blocks_of(words: [u16; 2]) -> [Block<'static>; 6] {
    let [zero, one] = words;
    [
        (0, 0, &[0, 1]),
        (0, 1, &[0x0100, 0x0101]),
        (1, 0, words_of_1(zero)),
        (1, 1, &[0x0001_0100, 0x0001_0101]),
        (2, 0, words_of_2(one)),
        (2, 1, &[0x0002_0100, 0x0002_0101]),
    ]
}

/// What each transfer has moved.
pub fn moved_of(words: [u16; 2]) -> [(u16, u16); 2] {
    let [zero, one] = words;
    [(0, zero), (1, one)]
}

/// How the row ends for this cause, or without one.
pub fn end_of(cause: Option<StopCause>, moved: &[(u16, u16)]) -> End<'_> {
    match cause {
        Some(cause) => End::Stopped(0, cause, moved),
        None => End::Completed(1, 4),
    }
}

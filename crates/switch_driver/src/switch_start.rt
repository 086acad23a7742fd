//! A switch comes up, whatever it was left in.

ghost use Rattle.std.specs.Prelude.{◌≡◌, ◌<◌, ◌≤◌, ◌-◌, ◌++◌, ℕ, OnOk, drop, map, true};
ghost use Rattle.std.specs.List.{range_with_len};
ghost use Rattle.c004_commands.specs.declared.port.TheConstants.{PORTS as OUTPUTS};
ghost use Rattle.crossbar.specs.Traffic.{heard_from};
ghost use Rattle.switch_driver.specs.Streams.{HasPassed};
ghost use Rattle.switch_driver.specs.ComingUp.{CameUp, answers_after, answers_up_to, own_answer};

use crate::stream::{StreamFault, SwitchStream, converse, hear};
use c004_commands::{CONNECTED, OutputState, PORTS};
use crossbar::{Chip, Traffic};
use std::io;
use std::io::{Read, Write};
use switch_settings::enquiry_bytes;

/// How many outputs are asked.
const OUTPUT_COUNT: usize = PORTS as usize;

/// What the outputs answer, each joined to the input of its own number.
const OWN_ANSWERS: [u8; OUTPUT_COUNT] = [
    0x80, 0x81, 0x82, 0x83, 0x84, 0x85, 0x86, 0x87, 0x88, 0x89, 0x8a, 0x8b, 0x8c, 0x8d, 0x8e, 0x8f,
    0x90, 0x91, 0x92, 0x93, 0x94, 0x95, 0x96, 0x97, 0x98, 0x99, 0x9a, 0x9b, 0x9c, 0x9d, 0x9e, 0x9f,
];

/// What a switch is sent first. The sequence isn't ended, so nothing passes over the switch.
const WAKING: [u8; 3 + 3 * OUTPUT_COUNT] = [
    // Whatever command it stands in is ended, and it is reset: at most two bytes are missing of any
    // command, and `03` is a link's number too.
    3, 3, 4,
    // Each output is joined to the input of its own number.
    0, 0, 0, 0, 1, 1, 0, 2, 2, 0, 3, 3, 0, 4, 4, 0, 5, 5, 0, 6, 6, 0, 7, 7, 0, 8, 8, 0, 9, 9, 0,
    10, 10, 0, 11, 11, 0, 12, 12, 0, 13, 13, 0, 14, 14, 0, 15, 15, 0, 16, 16, 0, 17, 17, 0, 18, 18,
    0, 19, 19, 0, 20, 20, 0, 21, 21, 0, 22, 22, 0, 23, 23, 0, 24, 24, 0, 25, 25, 0, 26, 26, 0, 27,
    27, 0, 28, 28, 0, 29, 29, 0, 30, 30, 0, 31, 31,
];

/// Brings a switch up. Whatever command was begun is ended, and the switch is reset. Then each
/// output is joined to the input of its own number, and asked. After each enquiry one byte is
/// read. Old answers may stand in the line before those of these enquiries, at most 31 with the one
/// that the first byte may draw: the last byte that was read tells how many, and as many more are
/// read. What passes is noted.
///
/// It fails where the bytes that were read don't end with answers of these in their order, or where
/// the others that are read aren't the rest of them.
pub(crate) fn start_switch<I: Read, O: Write>(
    chip: Chip,
    stream: &mut SwitchStream<I, O>,
    came_up: &mut Traffic,
) -> Result<(), StreamFault>
    ensures passed { HasPassed O.contents I.remaining stream.old stream.new
        came_up.old came_up.new }
    ensures up { OnOk result (CameUp chip came_up.old came_up.new) }
{
    converse(chip, &WAKING, &mut [], stream, came_up)?;
    let mut first = [0; OUTPUT_COUNT];
    converse(chip, &enquiry_bytes(), &mut first, stream, came_up)?;
    hear_after(chip, &first, stream, came_up)
}

/// Whether the last of these bytes are what the outputs up to this one answer, in their order.
fn are_own(first: &[u8; OUTPUT_COUNT], output: u8) -> bool
    requires { output < OUTPUTS }
    ensures { result ≡ true → drop (OUTPUTS - 1 - output) first.now ≡ answers_up_to output }
{
    let count = output as usize + 1;
    first.ends_with(&OWN_ANSWERS[..count])
}

/// Reads the answers of the outputs after the one whose answer is the last of these bytes.
fn hear_after<I: Read, O: Write>(
    chip: Chip,
    first: &[u8; OUTPUT_COUNT],
    stream: &mut SwitchStream<I, O>,
    came_up: &mut Traffic,
) -> Result<(), StreamFault>
    ensures passed { HasPassed O.contents I.remaining stream.old stream.new
        came_up.old came_up.new }
    ensures heard { OnOk result ((output : ℕ) × (output < OUTPUTS)
        × (drop (OUTPUTS - 1 - output) first.now ≡ answers_up_to output)
        × (came_up.new ≡ came_up.old ++ heard_from chip (answers_after output))) }
{
    let Ok(state) = OutputState::read(first[OUTPUT_COUNT - 1]) else {
        return Err(foreign(chip));
    };
    match state {
        OutputState::Connected(input) if are_own(first, input.get()) => {
            hear_from(chip, input.get() + 1, stream, came_up)
        }
        _ => Err(foreign(chip)),
    }
}

/// Reads the answers of the outputs from this one on.
fn hear_from<I: Read, O: Write>(
    chip: Chip,
    first: u8,
    stream: &mut SwitchStream<I, O>,
    came_up: &mut Traffic,
) -> Result<(), StreamFault>
    requires { first ≤ OUTPUTS }
    ensures passed { HasPassed O.contents I.remaining stream.old stream.new
        came_up.old came_up.new }
    ensures heard { OnOk result (came_up.new ≡ came_up.old
        ++ heard_from chip (map own_answer (range_with_len first (OUTPUTS - first)))) }
{
    for output in first..PORTS {
        let came = hear(chip, stream, came_up)?;
        if came != CONNECTED + output {
            return Err(foreign(chip));
        }
    }
    Ok(())
}

/// What came from a switch is no answer of its own.
fn foreign(chip: Chip) -> StreamFault {
    let why = "what comes isn't what a switch answers";
    StreamFault::from(chip, io::Error::other(why))
}

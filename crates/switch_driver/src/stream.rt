//! The stream of one switch.

ghost use Rattle.std.specs.Prelude.{◌∷◌, [], length, Some, OnOk, OnErr, IfOk};
ghost use Rattle.std.specs.Io.KnownBytes.{Keeps};
ghost use Rattle.std.specs.Option.{option_to_list};
ghost use Rattle.c004_commands.specs.Commands.{row};
ghost use Rattle.crossbar.specs.Port.{IsConversation};
ghost use Rattle.crossbar.specs.Traffic.{HaveConversed, BreaksOff, heard_from, sent_to};
ghost use Rattle.switch_driver.specs.Streams.{HasPassed, HasAsked, HasAskedInVain, StreamCarries};

use byte_streams::{read_byte, write_byte};
use c004_commands::{Command, CommandReader, LONGEST_COMMAND, write};
use crossbar::{Chip, Direction, Passing, Traffic};
use std::io;
use std::io::{ErrorKind, Read, Write};

/// Both ends of a byte stream to the configuration link of a switch: a device, a terminal's line or
/// two pipes.
#[derive(Drop)]
pub struct SwitchStream<I, O> {
    /// What the switch replies comes from here.
    pub reader: I,
    /// What the switch is sent goes here.
    pub writer: O,
}

/// Why a stream to a switch failed.
#[derive(Drop)]
pub struct StreamFault {
    /// The switch.
    pub chip: Chip,
    /// Whether it failed on the way to the switch or on the way from it.
    pub direction: Direction,
    /// What the system says of it. The kind of a way that ended is `UnexpectedEof`.
    pub why: io::Error,
}

impl StreamFault {
    /// The way to a switch failed.
    pub(crate) fn to(chip: Chip, why: io::Error) -> StreamFault {
        StreamFault {
            chip,
            direction: Direction::Sent,
            why,
        }
    }

    /// The way from a switch failed.
    pub(crate) fn from(chip: Chip, why: io::Error) -> StreamFault {
        StreamFault {
            chip,
            direction: Direction::Heard,
            why,
        }
    }
}

/// Writes the bytes of a command one by one, and notes each. Where that fails, a front of them has
/// gone.
fn send<I: Read, O: Write>(
    chip: Chip,
    command: Command,
    stream: &mut SwitchStream<I, O>,
    traffic: &mut Traffic,
) -> Result<(), StreamFault>
    ensures went { OnOk result (StreamCarries O.contents I.remaining stream.old stream.new
        traffic.old traffic.new (sent_to chip (row command))) }
    ensures cut { OnErr result (HasAskedInVain O.contents I.remaining chip command
        stream.old stream.new traffic.old traffic.new) }
{
    let mut bytes = [0; LONGEST_COMMAND];
    let number = write(command, &mut bytes);
    for byte in &bytes[..number] {
        if let Err(why) = write_byte(&mut stream.writer, *byte) {
            return Err(StreamFault::to(chip, why));
        }
        traffic.add(Passing {
            chip,
            direction: Direction::Sent,
            byte: *byte,
        });
    }
    Ok(())
}

/// Hands on what was written.
fn flush<O: Write>(chip: Chip, writer: &mut O) -> Result<(), StreamFault>
    ensures { Keeps (O.contents writer.old) (O.contents writer.new) }
{
    match writer.flush() {
        Ok(()) => Ok(()),
        Err(why) => Err(StreamFault::to(chip, why)),
    }
}

/// Reads a reply, and notes it. Where none comes, that is the error.
pub(crate) fn hear<I: Read, O: Write>(
    chip: Chip,
    stream: &mut SwitchStream<I, O>,
    traffic: &mut Traffic,
) -> Result<u8, StreamFault>
    ensures heard { IfOk result (λ reply. StreamCarries O.contents I.remaining
        stream.old stream.new traffic.old traffic.new (heard_from chip (reply ∷ []))) }
    ensures silent { OnErr result (StreamCarries O.contents I.remaining
        stream.old stream.new traffic.old traffic.new []) }
{
    match read_byte(&mut stream.reader) {
        Ok(Some(byte)) => {
            traffic.add(Passing {
                chip,
                direction: Direction::Heard,
                byte,
            });
            Ok(byte)
        }
        Ok(None) => {
            let ended = io::Error::from(ErrorKind::UnexpectedEof);
            Err(StreamFault::from(chip, ended))
        }
        Err(why) => Err(StreamFault::from(chip, why)),
    }
}

/// Sends a command, and hears the reply if it is an enquiry.
fn ask<I: Read, O: Write>(
    chip: Chip,
    command: Command,
    stream: &mut SwitchStream<I, O>,
    traffic: &mut Traffic,
) -> Result<Option<u8>, StreamFault>
    ensures asked { IfOk result (λ reply. HasAsked O.contents I.remaining chip command
        (option_to_list reply) stream.old stream.new traffic.old traffic.new) }
    ensures vain { OnErr result (HasAskedInVain O.contents I.remaining chip command
        stream.old stream.new traffic.old traffic.new) }
{
    send(chip, command, stream, traffic)?;
    match command {
        Command::Enquire { .. } => {
            flush(chip, &mut stream.writer)?;
            Ok(Some(hear(chip, stream, traffic)?))
        }
        _ => Ok(None),
    }
}

/// Sends whole commands one by one, and hears the reply to each enquiry before the next command is
/// sent.
pub(crate) fn converse<I: Read, O: Write>(
    chip: Chip,
    bytes: &[u8],
    replies: &mut [u8],
    stream: &mut SwitchStream<I, O>,
    traffic: &mut Traffic,
) -> Result<(), StreamFault>
    requires { IsConversation bytes.now (length replies.old) }
    ensures carried { HasPassed O.contents I.remaining stream.old stream.new
        traffic.old traffic.new }
    ensures whole { OnOk result
        (HaveConversed chip bytes.now replies.new (Some traffic.old) (Some traffic.new)) }
    ensures broken { OnErr result
        (BreaksOff chip bytes.now (Some traffic.old) (Some traffic.new)) }
{
    let mut reader = CommandReader::new();
    let mut heard = 0;
    for byte in bytes {
        let Ok(given) = reader.feed(*byte) else {
            unreachable!();
        };
        let Some(command) = given else {
            continue;
        };
        if let Some(reply) = ask(chip, command, stream, traffic)? {
            replies[heard] = reply;
            heard += 1;
        }
    }
    flush(chip, &mut stream.writer)
}

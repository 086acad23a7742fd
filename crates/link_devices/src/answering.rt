//! A switch at two streams of bytes.

ghost use Rattle.std.specs.Prelude.{◌+◌, ◌<◌, OnOk, OnErr};
ghost use Rattle.link_devices.specs.Answering.{HasAnsweredInput, HasHandled, IsReplyCut};

use crate::end::SwitchEnd;
use crate::fault_line::fault_line;
use byte_streams::{read_byte, write_bytes};
use std::io;
use std::io::{ErrorKind, Read, Write};
use thiserror::Error;

/// Why a switch is handed no more bytes, though its input isn't at its end.
#[derive(Debug, Drop, Error)]
pub enum EndFault {
    /// The input can't be read.
    #[error("the input can't be read: {0}")]
    Read(io::Error),
    /// An answer can't be written.
    #[error("an answer can't be written: {0}")]
    Write(io::Error),
}

/// Hands the switch a byte, the one at this place of its input, and writes what it answers, if it
/// answers. The error is that of writing the answer.
fn hand<O: Write, E: Write>(
    end: &mut SwitchEnd,
    place: u64,
    byte: u8,
    writer: &mut O,
    err: &mut E,
) -> io::Result<()>
    ensures handled { OnOk result (HasHandled place byte (O.contents writer.old)
        (O.contents writer.new) (E.contents err.old) (E.contents err.new) end.old end.new) }
    ensures cut { OnErr result (IsReplyCut place byte (O.contents writer.old)
        (O.contents writer.new) (E.contents err.old) (E.contents err.new) end.old end.new) }
{
    match end.take(byte) {
        Ok(Some(reply)) => write_bytes(writer, &[reply]),
        Ok(None) => Ok(()),
        Err(fault) => {
            // What is told beside the answers changes none of them.
            let _ = write_bytes(err, fault_line(place, fault).as_bytes());
            Ok(())
        }
    }
}

/// Hands the switch what the reader gives, byte by byte to its end, and writes what it answers.
/// Each answer is written, and the writer flushed, before the next byte is read, and no byte is
/// read ahead.
///
/// Of a byte that can't stand where it comes a line is told on `err`, as far as it can be written:
/// the byte, its place in the input, counted from 1, and what is wanted there.
pub fn answer_commands<I: Read, O: Write, E: Write>(
    end: &mut SwitchEnd,
    reader: &mut I,
    writer: &mut O,
    err: &mut E,
) -> Result<(), EndFault>
    ensures { HasAnsweredInput result (I.remaining reader.old) (I.remaining reader.new)
        (O.contents writer.old) (O.contents writer.new) (E.contents err.old) (E.contents err.new)
        end.old end.new }
{
    // More turns than anybody waits for: so the call is proved to return.
    for before in 0..u64::MAX {
        match read_byte(reader) {
            Ok(Some(byte)) => {
                if let Err(error) = hand(end, before + 1, byte, writer, err) {
                    return Err(EndFault::Write(error));
                }
            }
            Ok(None) => return Ok(()),
            Err(error) => return Err(EndFault::Read(error)),
        }
    }
    Err(EndFault::Read(io::Error::from(ErrorKind::TimedOut)))
}

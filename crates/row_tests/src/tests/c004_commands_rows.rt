//! The worked rows, ports, answers and printed faults.

use super::prints::{are_printed, prints};
use c004_commands::{
    AnswerFormat, CONNECTED, Command, CommandFault, CommandReader, LONGEST_COMMAND, OutputState,
    PORTS, PortNo, write,
};

/// Whether a new reader gives nothing at two bytes of a command, and isn't at rest then, and gives
/// this join at the third, and is.
fn joins_at_third(link1: PortNo, link2: PortNo) -> bool {
    let mut reader = CommandReader::new();
    reader.feed(0x01) == Ok(None)
        && reader.feed(0x00) == Ok(None)
        && !reader.at_rest()
        && reader.feed(0x11) == Ok(Some(Command::Join { link1, link2 }))
        && reader.at_rest()
}

#[test]
fn half_command(rt: HostRuntime) {
    assert!(rt; joins_at_third(PortNo::new(0).unwrap(), PortNo::new(17).unwrap()));
}

/// Whether a command is written by so many bytes, with zeros after them.
fn is_written(command: Command, bytes: [u8; LONGEST_COMMAND], count: usize) -> bool {
    let mut out = [9; LONGEST_COMMAND];
    write(command, &mut out) == count && out == bytes
}

/// Whether the commands that set outputs are written so for ports 3 and 7.
fn connections_are_written(link1: PortNo, link2: PortNo) -> bool {
    let connect = Command::Connect {
        input: link1,
        output: link2,
    };
    is_written(connect, [0x00, 0x03, 0x07], 3)
        && is_written(Command::Join { link1, link2 }, [0x01, 0x03, 0x07], 3)
        && is_written(Command::CutPair { link1, link2 }, [0x06, 0x03, 0x07], 3)
}

/// Whether the other commands are written so for output 7.
fn others_are_written(output: PortNo) -> bool {
    is_written(Command::Enquire { output }, [0x02, 0x07, 0x00], 2)
        && is_written(Command::Settle, [0x03, 0x00, 0x00], 1)
        && is_written(Command::Reset, [0x04, 0x00, 0x00], 1)
        && is_written(Command::Cut { output }, [0x05, 0x07, 0x00], 2)
}

#[test]
fn written_commands(rt: HostRuntime) {
    let three = PortNo::new(3).unwrap();
    let seven = PortNo::new(7).unwrap();
    assert!(rt; connections_are_written(three, seven) && others_are_written(seven));
}

#[test]
fn named_sizes(rt: HostRuntime) {
    let are_sizes = PORTS == 32 && CONNECTED == 0x80 && LONGEST_COMMAND == 3;
    let last = PortNo::new(PORTS - 1).unwrap();
    assert!(rt; are_sizes && PortNo::new(PORTS).is_none() && last.get() == 31);
}

/// Whether each of these bytes is read so.
fn are_read(bytes: &[u8], wanted: Result<OutputState, AnswerFormat>) -> bool {
    for byte in bytes {
        if OutputState::read(*byte) != wanted {
            return false;
        }
    }
    true
}

#[test]
fn answers(rt: HostRuntime) {
    let input = PortNo::new(17).unwrap();
    let are_answers = are_read(&[0x91], Ok(OutputState::Connected(input)))
        && are_read(&[0x00, 0x60], Ok(OutputState::Loose))
        && are_read(&[0xa0, 0xc0], Err(AnswerFormat::BadAnswer));
    assert!(rt; are_answers);
}

const COMMAND_FAULTS: &[(CommandFault, &str)] = &[
    (
        CommandFault::UnknownCommand(7),
        "no command begins with the byte 7",
    ),
    (CommandFault::BadPort(32), "no port has the number 32"),
];

#[test]
fn faults_are_printed(rt: HostRuntime) {
    let alloc = rt.alloc();
    let text = "the answer names an input that the switch doesn't have";
    let is_printed = prints(alloc, &AnswerFormat::BadAnswer, text);
    assert!(rt; is_printed && are_printed(alloc, COMMAND_FAULTS));
}

//! What is told of a byte that can't stand where it came.

ghost use Rattle.std.specs.Prelude.{◌≡◌};
ghost use Rattle.link_devices.specs.Told.{fault_line};

use c004_commands::CommandFault;
use line_words::{Line, hex2_of};

/// The line that tells of a byte, the first of which is at place 1.
pub(crate) fn fault_line(place: u64, fault: CommandFault) -> Line
    ensures { result ≡ fault_line place fault }
{
    let (byte, wanted): (u8, &[u8]) = match fault {
        CommandFault::UnknownCommand(byte) => (byte, b"; commands begin with 00 to 06\n"),
        CommandFault::BadPort(byte) => (
            byte,
            b"; ports are 00 to 1f, and the command is dropped\n",
        ),
    };
    let mut line = Line::new();
    line.put(b"exchange: standard input: byte ");
    line.put_number(place);
    line.put(b" is ");
    line.put(&hex2_of(byte));
    line.put(wanted);
    line
}

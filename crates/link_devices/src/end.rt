//! A switch that is handed bytes.

ghost use Rattle.std.specs.Prelude.{◌≡◌, ◌↔◌, [], IfOk, OnErr};
ghost use Rattle.std.specs.Option.{option_to_list};
ghost use Rattle.std.specs.Result.{IsErrOf};
ghost use Rattle.c004_commands.specs.Faults.{IsFault};
ghost use Rattle.c004_commands.specs.declared.reader.CommandFault.{CommandFault};
ghost use Rattle.crossbar.specs.Switch.{idle};
ghost use Rattle.link_devices.specs.End.{HasTaken};

use c004_commands::{CommandFault, CommandReader};
use crossbar::Crossbar;
use std::marker::Model;

/// A switch, and what has come of its next command. Contracts see both.
#[derive(Drop)]
pub struct SwitchEnd {
    reader: CommandReader,
    crossbar: Crossbar,
}

impl Model for SwitchEnd {
    ghost use Rattle.link_devices.specs.End.{EndState, end_code};

    ghost Value = { EndState };

    ghost coded = { end_code };

    ghost view = { λ end. record { switch = end.crossbar; begun = end.reader } };
}

impl SwitchEnd {
    /// A new switch, which nothing has come to.
    pub fn new() -> SwitchEnd
        ensures { result ≡ record { switch = idle; begun = [] } }
    {
        SwitchEnd {
            reader: CommandReader::new(),
            crossbar: Crossbar::new(),
        }
    }

    /// Takes the next byte, carries out the command that it ends, if it ends one, and gives the
    /// answer where that is an enquiry. A byte that can't stand where it comes drops the command
    /// that was begun, and leaves the switch as it was. Takes constant time.
    pub fn take(&mut self, byte: u8) -> Result<Option<u8>, CommandFault>
        ensures taken { IfOk result (λ reply.
            HasTaken self.old byte (option_to_list reply) self.new) }
        ensures fault { (fault : CommandFault) →
            IsErrOf result fault ↔ IsFault self.old.begun byte fault }
        ensures dropped { OnErr result
            (self.new ≡ record { switch = self.old.switch; begun = [] }) }
    {
        match self.reader.feed(byte)? {
            Some(command) => Ok(self.crossbar.apply(command)),
            None => Ok(None),
        }
    }
}

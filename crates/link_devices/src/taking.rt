//! A byte that a state takes.

ghost use Rattle.std.specs.Prelude.{◌≡◌, ◌++◌, ◌∷◌, []};
ghost use Rattle.c004_commands.specs.Commands.{IsCommandFront};
ghost use Rattle.c004_commands.specs.declared.command.Command.TheVariants.{Connect, Cut};
ghost use Rattle.crossbar.specs.Switch.{after, answer};
ghost use Rattle.link_devices.specs.SwitchStates.{IsSwitchState, command_begun, kept_end};
ghost use Rattle.link_devices.specs.SwitchTaking.{SwitchTakesByte};

use crate::switch_fault::TakeFault;
use crate::switch_state::{MAX_PARTIAL_COMMAND, OUTPUTS, SwitchState};
use c004_commands::{CONNECTED, Command, PortNo};

impl SwitchState {
    /// Takes the next byte of the configuration link, carries out the command that it ends, if it
    /// ends one, and gives the answer where that is an enquiry. A byte that can't stand where it
    /// comes drops the command that was begun, and leaves the switch as it was. A state that no
    /// switch has stays as it is. Takes constant time.
    pub fn take(&mut self, byte: u8) -> Result<Option<u8>, TakeFault>
        ensures { SwitchTakesByte self.old byte result self.new }
    {
        let Some(mut reader) = self.reader() else {
            return Err(TakeFault::NoSwitch);
        };
        match reader.feed(byte) {
            Ok(Some(command)) => {
                self.drop_partial();
                Ok(self.apply(command))
            }
            Ok(None) => {
                self.keep(byte);
                Ok(None)
            }
            Err(fault) => {
                self.drop_partial();
                Err(TakeFault::Byte(fault))
            }
        }
    }

    /// Nothing has come of the next command.
    fn drop_partial(&mut self)
        requires { IsSwitchState self.old }
        ensures state { IsSwitchState self.new }
        ensures dropped { kept_end self.new
            ≡ record { switch = (kept_end self.old).switch; begun = [] } }
    {
        self.begun = [0; MAX_PARTIAL_COMMAND];
        self.begun_count = 0;
    }

    /// The byte has come of the next command too, which isn't whole yet.
    fn keep(&mut self, byte: u8)
        requires state { IsSwitchState self.old }
        requires partial { IsCommandFront (command_begun self.old ++ byte ∷ []) }
        ensures state { IsSwitchState self.new }
        ensures kept { kept_end self.new ≡ record {
          switch = (kept_end self.old).switch;
          begun = command_begun self.old ++ byte ∷ [];
        } }
    {
        self.begun[usize::from(self.begun_count)] = byte;
        self.begun_count += 1;
    }

    /// Carries out a command, and answers an enquiry.
    fn apply(&mut self, command: Command) -> Option<u8>
        requires { IsSwitchState self.old }
        ensures state { IsSwitchState self.new }
        ensures switch { kept_end self.new ≡ record {
          switch = after command (kept_end self.old).switch;
          begun = command_begun self.old;
        } }
        ensures answer { result ≡ answer command (kept_end self.old).switch }
    {
        match command {
            Command::Connect { input, output } => self.connect(input, output),
            Command::Join { link1, link2 } => {
                self.connect(link1, link2);
                self.connect(link2, link1);
            }
            Command::Enquire { output } => return Some(self.outputs[usize::from(output.get())]),
            Command::Settle => self.connecting = 0,
            Command::Reset => {
                self.outputs = [0; OUTPUTS];
                self.connecting = 0;
            }
            Command::Cut { output } => self.disconnect(output),
            Command::CutPair { link1, link2 } => {
                self.disconnect(link1);
                self.disconnect(link2);
            }
        }
        None
    }

    /// The input feeds the output from now on, and no other does.
    fn connect(&mut self, input: PortNo, output: PortNo)
        requires { IsSwitchState self.old }
        ensures state { IsSwitchState self.new }
        ensures switch { kept_end self.new ≡ record {
          switch = after (Connect input output) (kept_end self.old).switch;
          begun = command_begun self.old;
        } }
    {
        self.outputs[usize::from(output.get())] = CONNECTED + input.get();
        self.connecting = 1;
    }

    /// No input feeds the output from now on.
    fn disconnect(&mut self, output: PortNo)
        requires { IsSwitchState self.old }
        ensures state { IsSwitchState self.new }
        ensures switch { kept_end self.new ≡ record {
          switch = after (Cut output) (kept_end self.old).switch;
          begun = command_begun self.old;
        } }
    {
        self.outputs[usize::from(output.get())] = 0;
    }
}

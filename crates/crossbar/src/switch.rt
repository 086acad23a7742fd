//! The switch itself.

ghost use Rattle.std.specs.Prelude.{◌≡◌, ◌<◌, ◌↔◌, IsTrue};
ghost use Rattle.std.specs.FinMap as map;
ghost use Rattle.c004_commands.specs.Answers.{answer_byte};
ghost use Rattle.crossbar.specs.Switch.{after, answer, idle};
ghost use Rattle.crossbar.specs.Modules.{AreJoined, AreJoinedWide};

use c004_commands::{CONNECTED, Command, PORTS, PortNo};
use std::marker::Model;

/// How many modules one switch joins: link 0 of module m is on switch link m, and its link 3 on
/// switch link `JOINED_MODULES` + m. A rack with more has two switches. This project's choice,
/// which uses all links of the chip.
pub const JOINED_MODULES: u8 = 16;

const LATCHES: usize = PORTS as usize;

/// A switch (INMOS IMS C004 data sheet). Contracts see the map from its outputs to the inputs that
/// feed them, and whether it is ready to accept data.
#[derive(Drop)]
pub struct Crossbar {
    // The input that feeds each output.
    latches: [Option<PortNo>; LATCHES],
    // Whether a sequence that sets up connections hasn't been ended.
    connecting: bool,
}

impl Model for Crossbar {
    ghost use Rattle.crossbar.specs.Switch.{Switch, switch_code};
    ghost use Rattle.crossbar.specs.Latches.{sources_of};
    ghost use Rattle.std.specs.Prelude.{not};

    ghost Value = { Switch };

    ghost coded = { switch_code };

    ghost view = { λ c. record { sources = sources_of c.latches; ready = not c.connecting } };
}

impl Crossbar {
    /// A switch as after a reset: nothing is connected, and it is ready. That a new switch is so is
    /// this project's choice.
    pub fn new() -> Crossbar
        ensures { result ≡ idle }
    {
        Crossbar {
            latches: [None; LATCHES],
            connecting: false,
        }
    }

    /// Carries out a command (INMOS IMS C004 data sheet), and answers an enquiry by one byte: the
    /// input that feeds the output, with the top bit 1, or 0 where the output is disconnected. All
    /// other commands are answered `None`. Takes constant time.
    pub fn apply(&mut self, command: Command) -> Option<u8>
        ensures switch { self.new ≡ after command self.old }
        ensures answer { result ≡ answer command self.old }
    {
        match command {
            Command::Connect { input, output } => self.connect(input, output),
            Command::Join { link1, link2 } => {
                self.connect(link1, link2);
                self.connect(link2, link1);
            }
            Command::Enquire { output } => return Some(answer_of(self.source_of(output))),
            Command::Settle => self.connecting = false,
            Command::Reset => *self = Crossbar::new(),
            Command::Cut { output } => self.disconnect(output),
            Command::CutPair { link1, link2 } => {
                self.disconnect(link1);
                self.disconnect(link2);
            }
        }
        None
    }

    /// The input that feeds an output, or `None` where the output is disconnected (INMOS IMS C004
    /// data sheet: an output has at most one input).
    #[tactic(auto, using(crate::proofs::Latches::source_at))]
    pub fn source_of(&self, output: PortNo) -> Option<PortNo>
        ensures { result ≡ map.get self.now.sources output }
    {
        let index = output.get() as usize;
        self.latches[index]
    }

    /// Whether the switch is ready to accept data. It isn't from a command that connects to the
    /// next `Settle` or `Reset` (this project's choice).
    pub fn is_ready(&self) -> bool
        ensures { result ≡ self.now.ready }
    {
        !self.connecting
    }

    /// Whether link 0 of module `m` and link 3 of module `n` feed each other, and the switch is
    /// ready. Both modules are below [`JOINED_MODULES`]. Which links a module is on is this
    /// project's choice.
    pub fn joined(&self, m: u8, n: u8) -> bool
        requires initiator { m < JOINED_MODULES }
        requires responder { n < JOINED_MODULES }
        ensures { IsTrue result ↔ AreJoined self.now m n }
    {
        let (Some(link0), Some(link3)) = (PortNo::new(m), PortNo::new(JOINED_MODULES + n)) else {
            unreachable!();
        };
        self.is_ready()
            && self.source_of(link3) == Some(link0)
            && self.source_of(link0) == Some(link3)
    }

    // The input feeds the output from now on, and no other does.
    #[tactic(auto, using(crate::proofs::Latches::sources_connect))]
    fn connect(&mut self, input: PortNo, output: PortNo)
        ensures { self.new ≡ after (Command.Connect input output) self.old }
    {
        self.latches[output.get() as usize] = Some(input);
        self.connecting = true;
    }

    // No input feeds the output from now on.
    #[tactic(auto, using(crate::proofs::Latches::sources_disconnect))]
    fn disconnect(&mut self, output: PortNo)
        ensures { self.new ≡ after (Command.Cut output) self.old }
    {
        self.latches[output.get() as usize] = None;
    }
}

/// Whether link 0 of module `m` and link 3 of module `n` feed each other over the two switches of a
/// wider rack, link 0 over `a` and link 3 over `b`, and both are ready. Both modules are below
/// [`PORTS`]. Which links a module is on is this project's choice.
pub fn joined_wide(a: &Crossbar, b: &Crossbar, m: u8, n: u8) -> bool
    requires initiator { m < PORTS }
    requires responder { n < PORTS }
    ensures { IsTrue result ↔ AreJoinedWide a.now b.now m n }
{
    let (Some(link0), Some(link3)) = (PortNo::new(m), PortNo::new(n)) else {
        unreachable!();
    };
    a.is_ready()
        && b.is_ready()
        && a.source_of(link3) == Some(link0)
        && b.source_of(link0) == Some(link3)
}

// The byte that says which input feeds an output.
fn answer_of(source: Option<PortNo>) -> u8
    ensures { result ≡ answer_byte source }
{
    match source {
        Some(input) => CONNECTED + input.get(),
        None => 0,
    }
}

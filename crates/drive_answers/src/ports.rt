//! What opens the ports of the switches of a rack, and takes them back.

ghost use Rattle.std.specs.Prelude.{◌≡◌, ◌≢◌, [], Some, IfOk, IfErr, OnOk, OnErr};
ghost use Rattle.refusals.specs.declared.refusal.Refusal.TheVariants.{NoMemory};
ghost use Rattle.drive_answers.specs.Ways.{Ways, IsPortRefused, given_back, names_of, opened_by};

use crate::names::PortNames;
use crossbar::ConfigPort;
use refusals::{PortName, Refusal};
use std::io;

/// A file of a port.
#[derive(Clone, Copy)]
pub enum PortFile {
    /// The one that has the port's name.
    Port,
    /// The pipe to the switch, `PORT.in`.
    In,
    /// The pipe from the switch, `PORT.out`.
    Out,
}

/// Why a port couldn't be opened, or why it failed.
#[derive(Drop)]
pub struct PortFailure {
    /// The port.
    pub port: PortName,
    /// The file of it that is missing, or that failed.
    pub file: PortFile,
    /// The reason. The kind of a file that ended is `UnexpectedEof`.
    pub why: io::Error,
}

/// What opens the ports of the switches of a rack by their names, and takes them back.
pub trait Ports {
    /// The ports that are open.
    type Port: ConfigPort + Drop;

    // How often they were opened, by which names, and what passed over them.
    ghost ways: { Self → Ways };

    /// Opens the ports of these names, over which nothing has passed as yet. It sends nothing.
    fn open(&mut self, names: PortNames<'_>) -> Result<Self::Port, Refusal>
        ensures opened { OnOk result (ways self.new ≡ opened_by (names_of names.entry)
            (ways self.old)) }
        ensures unopened { OnErr result (ways self.new ≡ ways self.old) }
        ensures fresh { IfOk result (λ port. Self.Port.passed port ≡ Some []) }
        ensures unfailed { IfOk result (λ port. Self.Port.failures port ≡ 0) }
        ensures refused { IfErr result (λ refusal. refusal ≢ NoMemory →
            IsPortRefused (names_of names.entry) refusal) };

    /// Why a port couldn't be opened, where one couldn't, or why it had failed as it was taken
    /// back. It is told once.
    fn take_failure(&mut self) -> Option<PortFailure>
        ensures { ways self.new ≡ ways self.old };

    /// Takes back ports that were opened.
    fn close(&mut self, port: Self::Port)
        ensures { ways self.new
            ≡ given_back (Self.Port.passed port) (Self.Port.failures port) (ways self.old) };
}

//! What a job uses a file as, and which two uses one file can't have, in words.

use std::fmt::{self, Display, Formatter, Write};
use std::marker::Model;

/// What a job uses a file as.
#[derive(Clone, Copy)]
pub enum Role {
    Batch,
    Moves,
    Schedule,
    Wiring,
    /// The image with whose words a rack begins.
    Image,
    /// The record that is replayed, or to which sessions go.
    Record,
    /// The image that sessions leave.
    ImageLeft,
    /// The script of a session.
    Script,
    /// What a session on standard input says.
    Talk,
    /// The lines that let a drive go on.
    GoOn,
    /// What goes to a switch that the program is.
    Commands,
    /// What a client says.
    Said,
    /// What a client is told.
    Told,
    Port,
    /// The pipe to a switch.
    PortIn,
    /// The pipe from it.
    PortOut,
}

/// A role of which contracts see nothing, since it is only displayed.
#[derive(Drop)]
pub struct DisplayedRole(pub(crate) Role);

impl Model for DisplayedRole {
    ghost use Rattle.std.specs.Prelude.{⊤};

    ghost Value = { ⊤ };

    ghost view = { λ _. tt };
}

impl Display for Role {
    fn fmt<W: Write>(&self, f: &mut Formatter<W>) -> fmt::Result {
        f.write_str(match self {
            Role::Batch => "the batch",
            Role::Moves => "the moves",
            Role::Schedule => "the schedule",
            Role::Wiring => "the wiring",
            Role::Image => "the image at the start",
            Role::Record => "the record",
            Role::ImageLeft => "the image that is left",
            Role::Script => "a script",
            Role::Talk => "what `talk` hears",
            Role::GoOn => "what `drive` hears without `--go-on`",
            Role::Commands => "what `c004` hears",
            Role::Said => "a client's input",
            Role::Told => "a client's output",
            Role::Port => "a port",
            Role::PortIn => "a port's input",
            Role::PortOut => "a port's output",
        })
    }
}

/// Two uses that one file can't have.
#[derive(Clone, Copy)]
pub struct RoleClash {
    pub first: Role,
    pub later: Role,
}

impl Display for RoleClash {
    fn fmt<W: Write>(&self, f: &mut Formatter<W>) -> fmt::Result {
        match (self.first, self.later) {
            (Role::Script, Role::Script) => f.write_str("two scripts can't be one"),
            (Role::Told, Role::Told) => f.write_str("two clients can't have one output"),
            (first, later) => write!(f, "{later} can't be {first} too"),
        }
    }
}

//! Commands that come byte by byte.

ghost use Rattle.std.specs.Prelude.{◌≡◌, ◌≢◌, ◌<◌, ◌↔◌, ◌++◌, ◌∷◌, [], List, ℕ, IsTrue, IfOk};
ghost use Rattle.std.specs.Prelude.{IfErr, OnErr, IsOk};
ghost use Rattle.c004_commands.specs.Commands.{Spells, IsCommandFront};
ghost use Rattle.c004_commands.specs.Faults.{IsFault, TellsFaults};
ghost use Rattle.c004_commands.specs.Reader.{begun_bytes, HasBegunPorts, Becomes, GoesOn};
ghost use Rattle.c004_commands.specs.declared.command.Command.{Command};
ghost use Rattle.c004_commands.specs.declared.reader.CommandFault.{CommandFault};
ghost use Rattle.c004_commands.specs.declared.reader.PartialCommand.TheVariants.{Nothing};

use crate::command::{CONNECT, CUT, CUT_PAIR, Command, ENQUIRE, JOIN, RESET, SETTLE};
use crate::port::PortNo;
use std::marker::Model;
use thiserror::Error;

/// A byte that can't stand where it came. That it is refused, and drops the command that was begun,
/// is this project's choice.
#[derive(Clone, Copy, Debug, PartialEq, Eq, Error)]
pub enum CommandFault {
    /// No command begins with this byte.
    #[error("no command begins with the byte {0}")]
    UnknownCommand(u8),
    /// A port is due, and none has this number.
    #[error("no port has the number {0}")]
    BadPort(u8),
}

// What has come of a command.
#[derive(Clone, Copy)]
enum PartialCommand {
    Nothing,
    Connect,
    ConnectFrom(PortNo),
    Join,
    JoinOf(PortNo),
    Enquire,
    Cut,
    CutPair,
    CutPairOf(PortNo),
}

/// Reads commands byte by byte (INMOS IMS C004 data sheet, configuration messages). Contracts see
/// the bytes of the command that isn't whole yet.
#[derive(Drop)]
pub struct CommandReader {
    begun: PartialCommand,
}

impl Model for CommandReader {
    ghost use Rattle.std.specs.Prelude.{List, ℕ};

    ghost Value = { List ℕ };

    ghost use Rattle.c004_commands.specs.Reader.{begun_bytes, HasBegunPorts};

    ghost view = { λ reader. begun_bytes reader.begun };

    ghost invariant = { λ reader. HasBegunPorts reader.begun };
}

impl CommandReader {
    /// A reader to which no byte has come.
    pub fn new() -> CommandReader
        ensures { result ≡ [] }
    {
        CommandReader {
            begun: PartialCommand::Nothing,
        }
    }

    /// Whether no command has been begun, so that the text may end here.
    #[tactic(auto, using(crate::proofs::Rests::begun_is_rest))]
    pub fn at_rest(&self) -> bool
        ensures rest { IsTrue result ↔ (self.now ≡ []) }
        ensures partial { IsCommandFront self.now }
    {
        matches!(self.begun, PartialCommand::Nothing)
    }

    /// Takes the next byte, and gives the command that it ends, if it ends one. Takes constant
    /// time.
    ///
    /// Where a command begins, a byte that begins none is `UnknownCommand`. Where a port is due, a
    /// byte that is no port's number is `BadPort`. Either drops the bytes of that command, this one
    /// too, and the next byte begins a command.
    #[tactic(auto, using(crate::proofs::Rests::begun_is_rest, crate::proofs::Faults::not_fault))]
    pub fn feed(&mut self, byte: u8) -> Result<Option<Command>, CommandFault>
        // Whatever the text since the last fault is, with this byte it spells the command given as
        // well.
        ensures text { IfOk result (λ given. GoesOn self.old byte given self.new) }
        ensures rest { IsCommandFront self.new }

        ensures fault { TellsFaults result self.old byte }
        ensures dropped { OnErr result (self.new ≡ []) }
        // No byte is refused with which the text goes on to a text of commands.
        ensures taken { (bytes more left : List ℕ) (commands others : List Command) →
            Spells bytes commands self.old → Spells (bytes ++ byte ∷ more) others left →
            IsOk result }
    {
        match next(self.begun, byte) {
            Ok((begun, given)) => {
                self.begun = begun;
                Ok(given)
            }
            Err(fault) => {
                self.begun = PartialCommand::Nothing;
                Err(fault)
            }
        }
    }
}

// What the byte makes of the command that was begun, and the command that it ends.
fn next(begun: PartialCommand, byte: u8) -> Result<(PartialCommand, Option<Command>), CommandFault>
    requires { HasBegunPorts begun }
    ensures ports { IfOk result (λ read. HasBegunPorts read.0) }
    ensures read { IfOk result (λ read. Becomes begun byte read.1 read.0) }
    ensures fault { IfErr result (λ fault. IsFault (begun_bytes begun) byte fault) }
{
    if let PartialCommand::Nothing = begun {
        return begin(byte);
    }
    match PortNo::new(byte) {
        Some(port) => Ok(with_port(begun, port)),
        None => Err(CommandFault::BadPort(byte)),
    }
}

// The first byte of a command.
fn begin(byte: u8) -> Result<(PartialCommand, Option<Command>), CommandFault>
    ensures ports { IfOk result (λ read. HasBegunPorts read.0) }
    ensures read { IfOk result (λ read. Becomes Nothing byte read.1 read.0) }
    ensures fault { IfErr result (λ fault. IsFault [] byte fault) }
{
    match byte {
        CONNECT => Ok((PartialCommand::Connect, None)),
        JOIN => Ok((PartialCommand::Join, None)),
        ENQUIRE => Ok((PartialCommand::Enquire, None)),
        SETTLE => Ok((PartialCommand::Nothing, Some(Command::Settle))),
        RESET => Ok((PartialCommand::Nothing, Some(Command::Reset))),
        CUT => Ok((PartialCommand::Cut, None)),
        CUT_PAIR => Ok((PartialCommand::CutPair, None)),
        _ => Err(CommandFault::UnknownCommand(byte)),
    }
}

// The next port of a command that was begun.
fn with_port(begun: PartialCommand, port: PortNo) -> (PartialCommand, Option<Command>)
    requires begun { begun ≢ Nothing }
    requires ports { HasBegunPorts begun }
    ensures ports { HasBegunPorts result.0 }
    ensures read { Becomes begun port result.1 result.0 }
{
    // The proof learns here that the number is a port's.
    let _number = port.get();
    match begun {
        PartialCommand::Nothing => unreachable!(),
        PartialCommand::Connect => (PartialCommand::ConnectFrom(port), None),
        PartialCommand::ConnectFrom(input) => {
            let output = port;
            (
                PartialCommand::Nothing,
                Some(Command::Connect { input, output }),
            )
        }
        PartialCommand::Join => (PartialCommand::JoinOf(port), None),
        PartialCommand::JoinOf(link1) => {
            let link2 = port;
            (
                PartialCommand::Nothing,
                Some(Command::Join { link1, link2 }),
            )
        }
        PartialCommand::Enquire => (
            PartialCommand::Nothing,
            Some(Command::Enquire { output: port }),
        ),
        PartialCommand::Cut => (PartialCommand::Nothing, Some(Command::Cut { output: port })),
        PartialCommand::CutPair => (PartialCommand::CutPairOf(port), None),
        PartialCommand::CutPairOf(link1) => {
            let link2 = port;
            (
                PartialCommand::Nothing,
                Some(Command::CutPair { link1, link2 }),
            )
        }
    }
}

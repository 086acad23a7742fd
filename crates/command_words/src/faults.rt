//! The mistakes in arguments that clap lets through.

ghost use Rattle.std.specs.Prelude.{◌≡◌, IfOk};
ghost use Rattle.command_words.specs.declared.faults.UsageError.TheVariants.{Memory};
ghost use Rattle.command_words.specs.declared.jobs.ArgumentsFault.TheVariants.{NoMemory};
ghost use Rattle.clap.specs.declared.error.kind.ErrorKind.TheVariants.{ArgumentConflict};
ghost use Rattle.clap.specs.Values.{kind_of};
ghost use Rattle.command_words.specs.Jobs.{IsMistake};

use crate::commands::CommandName;
use crate::grammar::{command_of, program};
use crate::jobs::ArgumentsFault;
use clap::Command;
use clap::error::ErrorKind;
use std::alloc::{AllocError, Global};

/// What is missing in arguments that clap has let through.
#[derive(Drop)]
pub(crate) enum UsageError {
    /// An argument that has to be there. Clap has refused such arguments before.
    Word,
    /// A choice between `--steady` and `--workers`.
    Planning,
    /// A choice between a schedule's file and these.
    Source,
    /// A choice between `--switches` and `--wiring`, which is that of one.
    Switches,
    /// A choice between `--prices` and `--settings`, which is for a picture.
    Picture,
    /// A record that `--resume` or `--sync` is for.
    Record,
    /// A name for each client that is one.
    Clients,
    /// A file of its own for each that is written, and for standard input. This tells why.
    Files(String),
    /// Memory.
    Memory,
}

impl From<AllocError> for UsageError {
    ghost from_gives = { λ _ lack. lack ≡ Memory };

    fn from(_error: AllocError) -> UsageError {
        UsageError::Memory
    }
}

impl UsageError {
    /// What is told of it.
    fn message(&self) -> &str {
        match self {
            UsageError::Word => "a word is missing",
            UsageError::Planning => "`--steady` plans with one worker: leave `--workers` out",
            UsageError::Source => "`--schedule` excludes `--steady` and `--workers`",
            UsageError::Switches =>
                "`--wiring` is for a board with one switch: leave `--switches` out",
            UsageError::Picture => "`--prices` excludes `--settings`",
            UsageError::Record => "`--resume` and `--sync` are for `--record`",
            UsageError::Clients => "a client's name is empty or has a line feed",
            UsageError::Files(why) => why.as_str(),
            UsageError::Memory => "no memory",
        }
    }
}

/// The command that the arguments name, as its usage shows it, or else the program.
fn asked<'a>(alloc: Global, arguments: &[String]) -> Result<Command<'a>, AllocError> {
    let name = match arguments.get(1) {
        Some(word) => CommandName::of(word.as_str()),
        None => None,
    };
    let Some(name) = name else {
        return program(alloc);
    };
    let usage_name = format!(in alloc; "exchange {}", name.sheet().0)?;
    command_of(alloc, name)?.bin_name(usage_name.as_str())
}

/// Clap's error with this message, and with the usage of the command that the arguments name.
fn error_of(alloc: Global, arguments: &[String], message: &str) -> Result<clap::Error, AllocError>
    ensures { IfOk result (λ error. kind_of error ≡ ArgumentConflict) }
{
    asked(alloc, arguments)?.error(ErrorKind::ArgumentConflict, message)
}

/// The fault of what the job lacks that these arguments ask for.
pub(crate) fn fault_of(alloc: Global, arguments: &[String], lack: UsageError) -> ArgumentsFault
    ensures memory { lack ≡ Memory → result ≡ NoMemory }
    ensures mistake { IsMistake result }
{
    if matches!(lack, UsageError::Memory) {
        return ArgumentsFault::NoMemory;
    }
    match error_of(alloc, arguments, lack.message()) {
        Ok(error) => ArgumentsFault::from(error),
        Err(_) => ArgumentsFault::NoMemory,
    }
}

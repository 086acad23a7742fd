//! What couldn't be written of what sessions leave.

ghost use Rattle.std.specs.Prelude.{◌≡◌, ◌↔◌, IfSome, IsTrue, is_ok, is_some, not, string_bytes};
ghost use Rattle.named_files.specs.Notes.{IsWholeLine};
ghost use Rattle.named_files.specs.Outputs.{IsLostTold, IsWhyTold, no_write_failures};

use crate::notes::{reason_line, tell_line};
use command_words::Text;
use std::alloc::Global;
use std::io;
use std::io::Write;

/// Why a file couldn't be written.
#[derive(Drop)]
pub struct WriteFailure {
    /// This line says why, where there is memory for it.
    pub line: Option<String>,
}

/// What couldn't be written of what sessions leave.
#[derive(Drop)]
pub struct WriteFailures {
    /// Why the record couldn't, where it couldn't.
    pub recorded: Option<WriteFailure>,
    /// Why the image couldn't, where it couldn't.
    pub image: Option<WriteFailure>,
}

impl WriteFailure {
    /// What is told of a file of this name where it can't be written.
    pub fn of(alloc: Global, name: &Text, error: &io::Error) -> WriteFailure
        ensures { IfSome result.line (λ line. IsWholeLine (string_bytes line)) }
    {
        WriteFailure {
            line: reason_line(alloc, name.as_str(), error),
        }
    }

    /// The same where that failed; where no name is known, there is nothing to tell.
    pub fn why(alloc: Global, name: Option<&Text>, end: &io::Result<()>) -> Option<WriteFailure>
        ensures { is_some result ≡ not (is_ok end.now) }
    {
        match (end, name) {
            (Ok(()), _) => None,
            (Err(error), Some(name)) => Some(WriteFailure::of(alloc, name, error)),
            (Err(_), None) => Some(WriteFailure { line: None }),
        }
    }
}

/// Tells why a file couldn't be written, where one couldn't, as far as that can be written.
fn tell_why<E: Write>(lost: &Option<WriteFailure>, err: &mut E)
    ensures { IsWhyTold lost.now (E.contents err.old) (E.contents err.new) }
{
    if let Some(reason) = lost
        && let Some(line) = &reason.line
    {
        tell_line(line.as_str().as_bytes(), err);
    }
}

impl WriteFailures {
    /// Nothing is lost.
    pub fn none() -> WriteFailures
        ensures { result ≡ no_write_failures }
    {
        WriteFailures {
            recorded: None,
            image: None,
        }
    }

    /// Whether nothing is lost.
    pub fn is_none(&self) -> bool
        ensures { IsTrue result ↔ (self.now ≡ no_write_failures) }
    {
        self.recorded.is_none() && self.image.is_none()
    }

    /// Tells of the record, and then of the image, as far as it can be written.
    pub fn tell<E: Write>(&self, err: &mut E)
        ensures { IsLostTold self.now (E.contents err.old) (E.contents err.new) }
    {
        tell_why(&self.recorded, err);
        tell_why(&self.image, err);
    }
}

//! Why a job has no answer, and what is told of it.

ghost use Rattle.std.specs.Prelude.{◌≡◌, IfSome, option_map, string_bytes};
ghost use Rattle.named_files.specs.Notes.{IsRefused, IsToldInPart, IsToldUnless, IsWholeLine};

use crate::io_failure::IoFailure;
use crate::output_failure::OutputFailure;
use byte_streams::write_bytes;
use command_words::Text;
use refusal_notes::file_line;
use std::alloc::{AllocError, Global};
use std::io;
use std::io::{ErrorKind, Write};

/// Why a job has no answer, with the line that tells more of it.
#[derive(Drop)]
pub enum JobFailure {
    /// A file, or standard input, can't be read or opened, or isn't one that the job may use.
    File { note: Option<String> },
    /// Standard output is a file that the job reads or writes, so nothing can be said there.
    Output { note: Option<String> },
    /// There was no memory.
    NoMemory,
    /// What stands before the answer couldn't be written.
    OutputFailure(OutputFailure),
}

impl From<AllocError> for JobFailure {
    ghost use Rattle.std.specs.Prelude.{◌≡◌};
    ghost use Rattle.named_files.specs.declared.notes.JobFailure.TheVariants.{NoMemory};

    ghost from_gives = { λ _ missed. missed ≡ NoMemory };

    fn from(_error: AllocError) -> JobFailure {
        JobFailure::NoMemory
    }
}

/// What is told of what lacks.
pub fn failure_line(alloc: Global, lack: &IoFailure) -> Option<String>
    ensures { IfSome result (λ line. IsWholeLine (string_bytes line)) }
{
    file_line(alloc, lack.name.as_str(), lack.why.as_str())
}

/// Why there is no answer where a file of this name can't be read, or opened, and what is told of
/// it.
pub fn read_failure(alloc: Global, name: &Text, error: &io::Error) -> JobFailure
    ensures { IsRefused result }
{
    match error.kind() {
        ErrorKind::OutOfMemory => JobFailure::NoMemory,
        _ => JobFailure::File {
            note: reason_line(alloc, name.as_str(), error),
        },
    }
}

/// What is told of a file of this name for this reason.
pub fn reason_line(alloc: Global, name: &str, error: &io::Error) -> Option<String>
    ensures { IfSome result (λ line. IsWholeLine (string_bytes line)) }
{
    let reason = error.to_string(alloc).ok()?;
    file_line(alloc, name, reason.as_str())
}

/// Tells a note on standard error, where there is one and none is left out.
pub fn tell_note<E: Write>(note: &Option<String>, is_quiet: bool, err: &mut E)
    ensures { IsToldUnless is_quiet (option_map (λ line. string_bytes line) note.now)
        (E.contents err.old) (E.contents err.new) }
{
    if is_quiet {
        return;
    }
    if let Some(line) = note {
        tell_line(line.as_str().as_bytes(), err);
    }
}

/// Tells a line, as far as it can be written. Whether it can changes no answer.
pub fn tell_line<E: Write>(line: &[u8], err: &mut E)
    ensures { IsToldInPart (E.contents err.old) (E.contents err.new) line.now }
{
    let _ = write_bytes(err, line);
}

//! The notes of files: which of clients couldn't be opened, what was cut off from a record, and how
//! far one goes that hasn't ended.

ghost use Rattle.named_files.specs.Notes.{HasToldLines};

use command_words::{SharedRack, Text};
use named_files::{IoFailure, failure_line, tell_line};
use record_replay::Torn;
use recorded_sessions::CutEntry;
use std::alloc::{AllocError, Global};
use std::io::Write;
use std::sync::OnceLock;

/// What was cut off from the record with which sessions went on, where something was.
pub(crate) fn cut_note(
    alloc: Global,
    rack: &SharedRack,
    cut: Option<CutEntry>,
) -> Option<IoFailure> {
    let (CutEntry { line, bytes }, name) = (cut?, rack.record_name()?.as_str());
    let ending = if bytes == 1 { "" } else { "s" };
    Some(IoFailure {
        name: format!(in alloc; "{name}").ok()?,
        why: format!(in alloc; "cut off: {bytes} byte{ending} from line {line} on").ok()?,
    })
}

/// How far a record goes that hasn't ended, where it hasn't.
pub(crate) fn torn_note(alloc: Global, recorded: &Text, torn: Option<Torn>) -> Option<IoFailure> {
    let torn = torn?;
    let (entries, bytes, name) = (torn.entries, torn.offset, recorded.as_str());
    let ending = if entries == 1 { "y" } else { "ies" };
    Some(IoFailure {
        name: format!(in alloc; "{name}").ok()?,
        why: format!(in alloc; "not ended: {entries} whole entr{ending} in {bytes} bytes").ok()?,
    })
}

/// A cell for a failure of each of so many clients. Each is empty.
pub(crate) fn no_failures(
    alloc: Global,
    clients: usize,
) -> Result<Vec<OnceLock<IoFailure>>, AllocError> {
    let mut lacks = Vec::new(alloc);
    for _ in 0..clients {
        lacks.push(OnceLock::new())?;
    }
    Ok(lacks)
}

/// Reports a failure, where there is one and memory for its line, unless none is wanted.
pub(crate) fn report_failure<E: Write>(
    alloc: Global,
    lack: Option<&IoFailure>,
    is_quiet: bool,
    err: &mut E,
)
    ensures { HasToldLines is_quiet (E.contents err.old) (E.contents err.new) }
{
    if is_quiet {
        return;
    }
    if let Some(lack) = lack
        && let Some(line) = failure_line(alloc, lack)
    {
        tell_line(line.as_str().as_bytes(), err);
    }
}

/// Reports the failures of all clients.
pub(crate) fn report_failures<E: Write>(
    alloc: Global,
    lacks: &[OnceLock<IoFailure>],
    is_quiet: bool,
    err: &mut E,
)
    ensures { HasToldLines is_quiet (E.contents err.old) (E.contents err.new) }
{
    for lack in lacks {
        report_failure(alloc, lack.get(), is_quiet, err);
    }
}

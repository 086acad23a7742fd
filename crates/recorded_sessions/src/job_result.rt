//! What comes of a job.

ghost use Rattle.std.specs.Prelude.{◌≡◌};

use named_files::IoFailure;
use plan_answers::Answer;
use record_replay::{RecordError, Replayed, Torn};

/// The answer to a job, and what is known beside it.
#[derive(Drop)]
pub struct JobResult {
    pub answer: Answer,
    /// Where a record is wrong, and what is due there, where it is refused. Where sessions can't go
    /// on with its head, that is the head of their own.
    pub error: Option<RecordError>,
    /// What the file of that held, where sessions were to go on with it.
    pub held: Option<Vec<u8>>,
    /// How far a record goes that hasn't ended.
    pub torn: Option<Torn>,
    /// What stopped a drive, where something did, or why a port can't be opened.
    pub lack: Option<IoFailure>,
}

/// What was cut off from the record with which sessions go on: an entry that was torn off.
#[derive(Clone, Copy)]
pub struct CutEntry {
    /// The line with which it began, counted from 1.
    pub line: usize,
    /// How many bytes it had.
    pub bytes: usize,
}

impl JobResult {
    /// An answer alone.
    pub fn alone(answer: Answer) -> JobResult
        ensures { result.answer ≡ answer }
    {
        JobResult {
            answer,
            error: None,
            held: None,
            torn: None,
            lack: None,
        }
    }

    /// What a replay answers.
    pub fn replayed(replayed: Replayed) -> JobResult
        ensures { result.answer ≡ replayed.answer }
    {
        let Replayed {
            answer,
            error,
            torn,
        } = replayed;
        JobResult {
            error,
            torn,
            ..JobResult::alone(answer)
        }
    }
}

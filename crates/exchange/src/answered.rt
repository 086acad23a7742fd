//! An answer, and what is told beside it.

ghost use Rattle.std.specs.Prelude.{◌≡◌, IfErr, IsTrue, option_map, string_bytes};
ghost use Rattle.plan_answers.specs.declared.limits.TheConstants.{REFUSED as FAILED};
ghost use Rattle.named_files.specs.Notes.{IsNoAnswer, IsNoteOn, SaysStop};
ghost use Rattle.exchange.specs.Outcomes.{HasNote, IsFinished};

use crate::texts::texts_of;
use command_words::Job;
use named_files::{Contents, IoFailure, JobFailure, WriteFailures, failure_line};
use plan_answers::{Answer, REFUSED};
use recorded_sessions::JobResult;
use refusal_notes::{RefusalContext, second_line};
use refusals::Refusal;
use std::alloc::Global;

/// An answer, with the line that is told beside it.
#[derive(Drop)]
pub(crate) struct NotedAnswer {
    pub(crate) answer: Answer,
    pub(crate) note: Option<String>,
    /// What couldn't be written of what sessions leave.
    pub(crate) lost: WriteFailures,
}

/// The answer to a job whose files contain this, with what is told beside it where it is a refusal,
/// and what is lost of what its sessions leave.
pub(crate) fn finished(
    alloc: Global,
    end: Result<JobResult, JobFailure>,
    lost: WriteFailures,
    job: &Job,
    contents: &Contents,
) -> Result<NotedAnswer, JobFailure>
    requires { IfErr end (λ missed. IsNoAnswer missed) }
    ensures answer { IsFinished end lost result }
    ensures note { HasNote result }
{
    let found = end?;
    let texts = texts_of(job, contents, &found);
    let note = note_on(alloc, &found.answer, texts, &found.lack);
    Ok(NotedAnswer {
        answer: found.answer,
        note,
        lost,
    })
}

/// What is told beside an answer to these texts, or of what lacks where a port can't be opened or a
/// drive stopped.
fn note_on(
    alloc: Global,
    answer: &Answer,
    texts: RefusalContext<'_>,
    lack: &Option<IoFailure>,
) -> Option<String>
    ensures { IsNoteOn answer.now (option_map (λ line. string_bytes line) result) }
{
    match (answer.refusal(), lack) {
        (Some(Refusal::Port(_)), Some(lack)) => failure_line(alloc, lack),
        (Some(refusal), _) => second_line(alloc, refusal, texts),
        (None, Some(lack)) if says_stop(answer) => failure_line(alloc, lack),
        (None, _) => None,
    }
}

/// Whether an answer says that a drive stopped.
fn says_stop(answer: &Answer) -> bool
    ensures { IsTrue result → (answer.now.status ≡ FAILED) × SaysStop answer.now.text }
{
    answer.status() == REFUSED && answer.text().starts_with(b"stopped ")
}

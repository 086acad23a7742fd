//! What is told on standard error beside answers: that two transfers write one block, by `plan`,
//! `switch` and `drive`, and by `draw` that a picture is higher than common tools draw. Neither is
//! a refusal, and it is told after all that refuses.

ghost use Rattle.std.specs.Prelude.{◌≡◌, IfSome, string_bytes};
ghost use Rattle.named_files.specs.Contents.{contents_in};
ghost use Rattle.named_files.specs.Notes.{IsWholeLine};
ghost use Rattle.exchange.specs.Notes.{HasHeight, HasOverlap, IsTooHigh, IsWarnedOf, IsWarning};
ghost use Rattle.exchange.specs.Responses.{IsTextAnswer, text_in};
ghost use Rattle.exchange.specs.Warnings.{MayHaveWarned};
ghost use Rattle.command_words.specs.declared.jobs.Job.TheVariants.{Texts as OfTexts};

use batch::{Batch, Shape, number_before};
use command_words::{Job, Request, TextJob};
use named_files::{Contents, tell_line, text_of};
use plan_answers::Answer;
use refusal_notes::{NamedText, RefusalContext, file_line, second_line};
use refusals::Refusal;
use std::alloc::Global;
use std::io::Write;

/// The most pixels in height that common tools draw.
pub const MAX_DRAWN: usize = 32_767;

/// The line that tells of the first two transfers of a batch that write one block, where two do and
/// there is memory for it.
fn overlap_line(alloc: Global, list: NamedText<'_>) -> Option<String>
    ensures whole { IfSome result (λ line. IsWholeLine (string_bytes line)) }
    ensures overlap { IfSome result (λ _. HasOverlap list.entry.text.now) }
{
    let batch = Batch::read(alloc, list.text, Shape::WIDEST).ok()?;
    let (i, j) = batch.first_overlap()?;
    let texts = RefusalContext {
        list,
        ..RefusalContext::NONE
    };
    second_line(alloc, Refusal::Overlap(i, j), texts)
}

/// How many pixels high the picture of this text is; none where it is no picture.
fn height_of(text: &[u8]) -> Option<usize>
    ensures { IfSome result (HasHeight text.now) }
{
    let size = text.strip_prefix(b"<svg xmlns='http://www.w3.org/2000/svg' width='")?;
    let (_, after) = number_before(size, b'\'')?;
    let rest = after.strip_prefix(b" height='")?;
    let (height, _) = number_before(rest, b'\'')?;
    Some(height)
}

/// The line that tells how high the picture of a schedule is, where common tools don't draw it and
/// there is memory for the line.
fn high_line(alloc: Global, schedule: &str, picture: &[u8]) -> Option<String>
    ensures whole { IfSome result (λ line. IsWholeLine (string_bytes line)) }
    ensures high { IfSome result (λ _. IsTooHigh picture.now) }
{
    let height = height_of(picture)?;
    if height <= MAX_DRAWN {
        return None;
    }
    let why = format!(in alloc;
        "the picture is {height} pixels high, and common tools draw at most {MAX_DRAWN}; \
--settings draws some settings alone"
    )
    .ok()?;
    file_line(alloc, schedule, why.as_str())
}

/// The batch of a job, and the name of its file.
fn batch_of<'a>(job: &'a Job, contents: &'a Contents) -> NamedText<'a>
    ensures { result.text.now ≡ text_in (contents_in contents.entry.now).list }
{
    let name = match job.files().list {
        Some(name) => name.as_str(),
        None => "",
    };
    NamedText {
        name,
        text: text_of(&contents.list),
    }
}

/// The line that tells where two transfers of a job's batch write one block, where two do and there
/// is memory for it, unless the arguments ask for silence.
pub(crate) fn overlap_warning_of(
    alloc: Global,
    request: &Request,
    contents: &Contents,
) -> Option<String>
    ensures { IfSome result (IsWarning
        (HasOverlap (text_in (contents_in contents.now).list)) request.now) }
{
    if request.is_quiet {
        return None;
    }
    overlap_line(alloc, batch_of(&request.job, contents))
}

/// The line that warns beside this answer to a job, where there is a cause and memory for it,
/// unless the arguments ask for silence.
pub(crate) fn warning_of(
    alloc: Global,
    request: &Request,
    job: &TextJob,
    contents: &Contents,
    answer: &Answer,
) -> Option<String>
    requires job { request.now.job ≡ OfTexts job.now }
    requires answer { IsTextAnswer job.now (contents_in contents.now) answer.now }
    ensures { IfSome result (IsWarning
        (IsWarnedOf request.now.job (contents_in contents.now)) request.now) }
{
    match job {
        TextJob::Plan { .. } => overlap_warning_of(alloc, request, contents),
        TextJob::Switch { .. } => overlap_warning_of(alloc, request, contents),
        TextJob::Draw { schedule, .. } if !request.is_quiet => {
            high_line(alloc, schedule.as_str(), answer.text())
        }
        _ => None,
    }
}

/// Tells a line beside an answer, where there is one. Beside a refusal another line is told.
pub(crate) fn tell_beside<E: Write>(warning: Option<String>, answer: &Answer, err: &mut E)
    ensures { MayHaveWarned warning (E.contents err.old) (E.contents err.new) }
{
    if answer.refusal().is_some() {
        return;
    }
    if let Some(line) = warning {
        tell_line(line.as_str().as_bytes(), err);
    }
}

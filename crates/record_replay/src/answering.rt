//! The command `replay`.

ghost use Rattle.std.specs.Prelude.{◌≡◌, ◌⊎◌, ◌+◌, ◌<◌, ◌≤◌, ◌^◌, IfOk, IfSome, IfNone, None, Some};
ghost use Rattle.std.specs.Prelude.{length, option_map};
ghost use Rattle.plan_answers.specs.Lent.{bytes_of};
ghost use Rattle.plan_answers.specs.Refusals.{Refuses};
ghost use Rattle.book_record.specs.Heads.{BeginsWithNoHead};
ghost use Rattle.record_replay.specs.Replays.{AreFewer, Ends};
ghost use Rattle.record_replay.specs.ReplayAnswers.{IsAfterHead, IsHeadDue, IsNoRecordOn};
ghost use Rattle.record_replay.specs.ReplayAnswers.{IsRecordAnswer, IsRecordOn, IsReplayAnswer};
ghost use Rattle.record_replay.specs.ReplayAnswers.{IsShapeOf, IsTornSo, RefusesHead, of_record};

use crate::{RecordError, RecordFault, replay};
use book_record::{is_torn, rack_line, read_head, session_limit, sum_of};
use exchange_limits::WorkerCount;
use module_memory::Rack;
use plan_answers::Answer;
use rack_answers::read_rack;
use refusals::Refusal;
use std::alloc::{AllocError, Global};
use std::thread::Threads;

/// A record that hasn't ended.
#[derive(Clone, Copy)]
pub struct Torn {
    /// The number of its whole entries.
    pub entries: usize,
    /// The number of bytes before what follows them.
    pub offset: usize,
}

/// What a replay answers, and what is reported beside it.
#[derive(Drop)]
pub struct Replayed {
    /// The image that is left, or the refusal.
    pub answer: Answer,
    /// Where the record is wrong, and the line that is due there, if the record is refused.
    pub error: Option<RecordError>,
    /// How far a torn record goes, if the image is that of its whole entries.
    pub torn: Option<Torn>,
}

/// The refusal of what is wrong with a record.
pub fn refusal_of(fault: RecordFault) -> Refusal
    ensures { result ≡ of_record fault }
{
    match fault {
        RecordFault::Head => Refusal::RecordHead,
        RecordFault::Sum(e) => Refusal::RecordSum(e),
        RecordFault::Call(e) => Refusal::RecordCall(e),
        RecordFault::Reply(e) => Refusal::RecordReply(e),
        RecordFault::More => Refusal::RecordMore,
        RecordFault::NoMemory => Refusal::NoMemory,
    }
}

/// The refusal of a rack, without a report of the record.
fn refuse_rack(alloc: Global, refusal: Refusal) -> Result<Replayed, AllocError>
    ensures answer { IfOk result (λ replayed. Refuses refusal replayed.answer) }
    ensures error { IfOk result (λ replayed. replayed.error ≡ None) }
    ensures torn { IfOk result (λ replayed. replayed.torn ≡ None) }
{
    Ok(Replayed {
        answer: Answer::refused(alloc, refusal)?,
        error: None,
        torn: None,
    })
}

/// The refusal of a record's head, and the line that is due there, where one is.
fn refuse_head(alloc: Global, due: Option<Vec<u8>>) -> Result<Replayed, AllocError>
    ensures { IfOk result (λ replayed.
        RefusesHead (option_map (λ line. line.items) due) replayed.answer replayed.error
        replayed.torn) }
{
    Ok(Replayed {
        answer: Answer::refused(alloc, Refusal::RecordHead)?,
        error: Some(RecordError {
            fault: RecordFault::Head,
            offset: 0,
            due,
        }),
        torn: None,
    })
}

/// The text of the shape that is given, or else of that in the record's head, where it has one.
fn wanted_shape(
    alloc: Global,
    shape: Option<&[u8]>,
    recorded: &[u8],
) -> Result<Option<Vec<u8>>, AllocError>
    ensures some { IfOk result (λ text. IfSome text (λ t.
        IsShapeOf (bytes_of shape.entry) recorded.now t.items)) }
    ensures none { IfOk result (λ text. IfNone text
        ((bytes_of shape.entry ≡ None) × BeginsWithNoHead recorded.now)) }
{
    if let Some(shape) = shape {
        return Ok(Some(Vec::from_slice(alloc, shape)?));
    }
    let Some(head) = read_head(recorded) else {
        return Ok(None);
    };
    let (shape, ..) = head;
    let (modules, blocks, words) = (shape.modules(), shape.blocks(), shape.words());
    let text = format!(in alloc; "{modules}x{blocks}x{words}")?;
    Ok(Some(text.into_bytes()))
}

/// What follows the head of a record, where it is one on this rack, and the number below which its
/// sessions are.
fn body_on<'a>(rack: &Rack, recorded: &'a [u8]) -> Result<Option<(&'a [u8], usize)>, AllocError>
    ensures some { IfOk result (λ body. IfSome body (λ b.
        IsRecordOn rack.now recorded.entry.now b.0.now b.1)) }
    ensures none { IfOk result (λ body. IfNone body (IsNoRecordOn rack.now recorded.entry.now)) }
{
    let own = rack.shape();
    let Some(head) = read_head(recorded) else {
        return Ok(None);
    };
    let (shape, sum, clients, body) = head;
    let image = rack.image()?;
    if shape != own || sum != sum_of(image.as_slice()) {
        return Ok(None);
    }
    Ok(Some((body, session_limit(clients))))
}

/// The first line of the head of a record on this rack with as many clients as this record names,
/// where this has a head.
fn head_due(alloc: Global, rack: &Rack, recorded: &[u8]) -> Result<Option<Vec<u8>>, AllocError>
    ensures { IfOk result (λ due.
        IsHeadDue rack.now recorded.now (option_map (λ line. line.items) due)) }
{
    let Some(head) = read_head(recorded) else {
        return Ok(None);
    };
    let (_, _, clients, _) = head;
    let image = rack.image()?;
    let line = rack_line(rack.shape(), sum_of(image.as_slice()), clients);
    Ok(Some(Vec::from_slice(alloc, line.as_bytes())?))
}

/// An error in what follows a head of this many bytes, as one of the whole record.
fn after_head(head: usize, error: RecordError) -> RecordError
    requires { head + error.offset < 2 ^ 64 }
    ensures { IsAfterHead head error result }
{
    RecordError {
        fault: error.fault,
        offset: head + error.offset,
        due: error.due,
    }
}

/// Where a record was torn off after these entries: nowhere, if it ends by its last lines, or has
/// all entries that are wanted.
fn torn_at(recorded: &[u8], first: Option<usize>, entries: usize, rest: &[u8]) -> Option<Torn>
    requires { (first ≡ Some entries) ⊎ (AreFewer entries first × Ends entries rest.now) }
    ensures { IsTornSo recorded.now first entries rest.now result }
{
    if first == Some(entries) || !is_torn(rest) {
        return None;
    }
    Some(Torn {
        entries,
        offset: recorded.len().saturating_sub(rest.len()),
    })
}

/// The image to which the entries after a record's head lead, or the refusal of what is first wrong
/// with them.
fn answer_record<R: Threads + Sync>(
    rt: &R,
    alloc: Global,
    rack: Rack,
    recorded: &[u8],
    body: &[u8],
    limit: usize,
    first: Option<usize>,
    workers: WorkerCount,
) -> Result<Replayed, AllocError>
    requires { length body.now ≤ length recorded.now }
    ensures { IfOk result (IsRecordAnswer rack recorded.now body.now limit first) }
{
    match replay(rt, alloc, rack, body, limit, first, workers) {
        Ok(remade) => Ok(Replayed {
            answer: Answer::done(remade.book.rack().image()?),
            error: None,
            torn: torn_at(recorded, first, remade.entries, remade.rest),
        }),
        Err(error) => Ok(Replayed {
            answer: Answer::refused(alloc, refusal_of(error.fault))?,
            error: Some(after_head(recorded.len() - body.len(), error)),
            torn: None,
        }),
    }
}

/// The image to which the record leads, or the refusal of what is first wrong.
fn answer_texts<R: Threads + Sync>(
    rt: &R,
    alloc: Global,
    shape: Option<&[u8]>,
    recorded: &[u8],
    image: Option<&[u8]>,
    first: Option<usize>,
    workers: WorkerCount,
) -> Result<Replayed, AllocError>
    ensures { IfOk result (λ replayed. IsReplayAnswer (bytes_of shape.entry) recorded.now
        (bytes_of image.entry) first replayed.answer replayed.error replayed.torn) }
{
    let Some(text) = wanted_shape(alloc, shape, recorded)? else {
        return refuse_head(alloc, None);
    };
    let rack = match read_rack(alloc, text.as_slice(), image) {
        Ok(rack) => rack,
        Err(refusal) => return refuse_rack(alloc, refusal),
    };
    match body_on(&rack, recorded)? {
        Some((body, limit)) => {
            answer_record(rt, alloc, rack, recorded, body, limit, first, workers)
        }
        None => {
            let due = head_due(alloc, &rack, recorded)?;
            refuse_head(alloc, due)
        }
    }
}

/// The answer of `exchange replay`: the image to which the entries of the record lead, all of them
/// or the first ones, on the rack of its head; or the refusal of what is first wrong.
///
/// The shape is that which is given, or else that of the record's head. The rack's words are first
/// those of the image or, without one, 0. Shape and image are checked first. Then the record's head
/// has to be that of this rack. Then the entries come, one by one: each is one of a client whom the
/// head names, if it names any; its call is made again, and its reply's line is compared. A record
/// has no run that stopped, and no plan of another batch. If it was torn off, its whole entries are
/// replayed, and `torn` says how far they go. The answer doesn't depend on the number of workers.
/// It takes memory as [`replay`] does, and for the image.
pub fn answer_replay<R: Threads + Sync>(
    rt: &R,
    alloc: Global,
    shape: Option<&[u8]>,
    recorded: &[u8],
    image: Option<&[u8]>,
    first: Option<usize>,
    workers: WorkerCount,
) -> Result<Replayed, AllocError>
    ensures { IfOk result (λ replayed. IsReplayAnswer (bytes_of shape.entry) recorded.now
        (bytes_of image.entry) first replayed.answer replayed.error replayed.torn) }
{
    answer_texts(rt, alloc, shape, recorded, image, first, workers)
}

//! The reader of a record, from the left: what it has read, and the rest where lines may follow.

ghost use Rattle.std.specs.Prelude.{◌≡◌, ◌≢◌, ◌+◌, ◌<◌, ◌≤◌, ◌++◌, drop, length, IfOk, IfSome};
ghost use Rattle.std.specs.Prelude.{IfNone, Some, None};
ghost use Rattle.batch.specs.Batches.{IsBatch};
ghost use Rattle.batch.specs.Text.{IsNumber, number, batch_text, space};
ghost use Rattle.batch_book.specs.Told.{PlanlessCall};
ghost use Rattle.book_record.specs.Reading.{after_lines, BeginsWithNoBatch, BeginsWithNoCall};
ghost use Rattle.book_record.specs.Reading.{BeginsWithNoEntry, IsCallOf, command_for};
ghost use Rattle.book_record.specs.RecordText.{CanSay, call_text};

use batch::{Batch, BatchFault, Shape, position_of};
use batch_book::RecordedCall;
use client_session::SessionCommand;
use line_words::{number_after, number_and_rest};
use std::alloc::{AllocError, Global};

/// The call that a command makes, where it makes just one of one line.
fn call_by(command: SessionCommand) -> Option<RecordedCall<Batch>>
    ensures some { IfSome result (λ call. command_for call ≡ Some command) }
    ensures none { IfNone result ((call : PlanlessCall) → command_for call ≢ Some command) }
{
    match command {
        SessionCommand::Run(id) => Some(RecordedCall::Run(id)),
        SessionCommand::Show(id) => Some(RecordedCall::Show(id)),
        SessionCommand::Drop(id) => Some(RecordedCall::Discard(id)),
        SessionCommand::Peek(module, address) => Some(RecordedCall::Peek(module, address)),
        SessionCommand::Poke(module, address, word) => {
            Some(RecordedCall::Poke(module, address, word))
        }
        SessionCommand::Batch(_) | SessionCommand::Plan(_) => None,
        SessionCommand::Progress | SessionCommand::Bye => None,
    }
}

/// The call of one line that this is.
fn call_of(line: &[u8]) -> Option<RecordedCall<Batch>>
    ensures some { IfSome result (IsCallOf line.now) }
    ensures none { IfNone result ((call : PlanlessCall) → IsCallOf line.now call → ⊥) }
{
    if let Some(id) = number_after(line, b"fetch ") {
        return Some(RecordedCall::Fetch(id));
    }
    if let Some(id) = number_after(line, b"settle ") {
        return Some(RecordedCall::Settle(id));
    }
    call_by(SessionCommand::read(line)?)
}

/// Where the first lines of the text end, this many.
fn end_of_lines(text: &[u8], count: usize) -> Option<usize>
    ensures some { IfSome result (λ end. (end ≤ length text.now)
        × (after_lines count (Some text.now) ≡ Some (drop end text.now))) }
    ensures none { IfNone result (after_lines count (Some text.now) ≡ None) }
{
    let mut end = 0;
    for _ in 0..count {
        let at = position_of(&text[end..], b'\n')?;
        end += at + 1;
    }
    Some(end)
}

/// The batch of this many transfers that the text begins with, and the rest.
fn batch_and_rest(
    alloc: Global,
    text: &[u8],
    count: usize,
) -> Result<Option<(Batch, &[u8])>, AllocError>
    requires { IsNumber count }
    ensures some { IfOk result (λ read. IfSome read (λ x.
        IsBatch x.0 × (text.now ≡ batch_text x.0 ++ x.1.now))) }
    ensures none { IfOk result (λ read. IfNone read (BeginsWithNoBatch text.now count)) }
{
    let Some(end) = end_of_lines(text, count + 1) else {
        return Ok(None);
    };
    match Batch::read(alloc, &text[..end], Shape::WIDEST) {
        Ok(batch) => Ok(Some((batch, &text[end..]))),
        Err(fault) => match fault {
            BatchFault::NoMemory => Err(AllocError),
            _ => Ok(None),
        },
    }
}

/// The call that the text begins with, and the rest.
fn read_call(alloc: Global, text: &[u8]) -> Result<Option<(RecordedCall<Batch>, &[u8])>, AllocError>
    ensures some { IfOk result (λ read. IfSome read (λ x.
        CanSay x.0 × (text.now ≡ call_text x.0 ++ x.1.now))) }
    ensures none { IfOk result (λ read. IfNone read (BeginsWithNoCall text.now)) }
{
    let Some(end) = position_of(text, b'\n') else {
        return Ok(None);
    };
    let line = &text[..end];
    if let Some(count) = number_after(line, b"batch ") {
        return match batch_and_rest(alloc, text, count)? {
            Some((batch, rest)) => Ok(Some((RecordedCall::Submit(batch), rest))),
            None => Ok(None),
        };
    }
    match call_of(line) {
        Some(call) => Ok(Some((call, &text[end + 1..]))),
        None => Ok(None),
    }
}

/// The session's number and the call that the text begins with, and the rest, where that number is
/// below this. It takes memory for a batch.
pub fn read_entry(
    alloc: Global,
    text: &[u8],
    limit: usize,
) -> Result<Option<(usize, RecordedCall<Batch>, &[u8])>, AllocError>
    ensures some { IfOk result (λ read. IfSome read (λ x. IsNumber x.0 × (x.0 < limit)
        × CanSay x.1 × (text.now ≡ number x.0 space ++ (call_text x.1 ++ x.2.now)))) }
    ensures none { IfOk result (λ read. IfNone read (BeginsWithNoEntry limit text.now)) }
{
    let Some((session, rest)) = number_and_rest(text) else {
        return Ok(None);
    };
    if session >= limit {
        return Ok(None);
    }
    match read_call(alloc, rest)? {
        Some((call, rest)) => Ok(Some((session, call, rest))),
        None => Ok(None),
    }
}

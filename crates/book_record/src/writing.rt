//! The writer of a record.

ghost use Rattle.std.specs.Prelude.{◌≡◌, ◌≤◌, ◌+◌, ◌++◌, All, OnOk, OnErr, IsOk, drop, length};
ghost use Rattle.std.specs.Prelude.{vec_len, vec_capacity};
ghost use Rattle.line_words.specs.declared.limits.TheConstants.{LINE_ROOM};
ghost use Rattle.batch.specs.Text.{batch_text, number, space};
ghost use Rattle.batch_book.specs.Told.{told};
ghost use Rattle.client_session.specs.Replies.{with_feed};
ghost use Rattle.book_record.specs.RecordText.{CanBePut, id_of, call_text, reply_text, entry_lines};
ghost use Rattle.book_record.specs.RecordText.{entry_text, texts};
ghost use Rattle.book_record.specs.Sums.{sum_at, sum_line};
ghost use Rattle.book_record.specs.declared.sum.TheConstants.{SUM_ROOM};

use crate::sum::{SUM_ROOM, sum_at, sum_line};
use batch::Batch;
use batch_book::{Book, Call, Entry, LoggedReply, RecordedCall, Reply, SharedBatch};
use client_session::SessionCommand;
use client_session::reply_line::ReplyLine;
use line_words::{LINE_ROOM, Line};
use std::alloc::AllocError;

/// Puts words and a line feed.
fn push_line(text: &mut Vec<u8>, words: &[u8]) -> Result<(), AllocError>
    ensures put { OnOk result (text.new.items ≡ text.old.items ++ with_feed words.now) }
    ensures room { vec_len text.old + length words.now + 1 ≤ vec_capacity text.old → IsOk result }
    ensures few { OnOk result (vec_len text.new ≡ vec_len text.old + length words.now + 1) }
    ensures kept { vec_capacity text.old ≤ vec_capacity text.new }
{
    text.extend_from_slice(words)?;
    text.push(b'\n')?;
    Ok(())
}

/// Puts the lines of a call.
fn push_call(text: &mut Vec<u8>, call: &RecordedCall<SharedBatch>) -> Result<(), AllocError>
    ensures { OnOk result (text.new.items ≡ text.old.items ++ call_text call.now) }
{
    let mut line = Line::new();
    match call {
        RecordedCall::Submit(shared) => {
            return text.extend_from_slice(shared.batch().write()?.as_slice());
        }
        RecordedCall::Fetch(id) => line.put_numbered(b"fetch ", *id),
        RecordedCall::Settle(id) => line.put_numbered(b"settle ", *id),
        RecordedCall::Run(id) => SessionCommand::Run(*id).put(&mut line),
        RecordedCall::Show(id) => SessionCommand::Show(*id).put(&mut line),
        RecordedCall::Discard(id) => SessionCommand::Drop(*id).put(&mut line),
        RecordedCall::Peek(module, address) => {
            SessionCommand::Peek(*module, *address).put(&mut line);
        }
        RecordedCall::Poke(module, address, word) => {
            SessionCommand::Poke(*module, *address, *word).put(&mut line);
        }
    }
    push_line(text, line.as_bytes())
}

/// Puts words and the text of a batch, and takes the room for the lines of a reply.
fn push_batch(text: &mut Vec<u8>, words: &[u8], batch: &Batch) -> Result<(), AllocError>
    requires { length words.now ≤ LINE_ROOM }
    ensures put { OnOk result
        (text.new.items ≡ text.old.items ++ (words.now ++ batch_text batch.now)) }
    ensures room { OnOk result (vec_len text.new + LINE_ROOM + SUM_ROOM ≤ vec_capacity text.new) }
    ensures none { OnErr result (text.new.items ≡ text.old.items) }
{
    let lines = batch.write()?;
    text.reserve(words.len() + lines.len() + LINE_ROOM + SUM_ROOM)?;
    text.extend_from_slice(words).unwrap();
    text.extend_from_slice(lines.as_slice()).unwrap();
    Ok(())
}

/// Puts words, and takes the room for the lines of a reply.
fn push_words(text: &mut Vec<u8>, words: &[u8]) -> Result<(), AllocError>
    requires { length words.now ≤ LINE_ROOM }
    ensures put { OnOk result (text.new.items ≡ text.old.items ++ words.now) }
    ensures room { OnOk result (vec_len text.new + LINE_ROOM + SUM_ROOM ≤ vec_capacity text.new) }
    ensures none { OnErr result (text.new.items ≡ text.old.items) }
{
    text.reserve(words.len() + LINE_ROOM + SUM_ROOM)?;
    text.extend_from_slice(words).unwrap();
    Ok(())
}

/// Puts the session's number, a space, and the lines of a call that isn't made yet, and takes the
/// room for the lines of its reply and its sum. They are put together in a line that the caller
/// lends. Without memory nothing is put.
pub fn push_asked(
    text: &mut Vec<u8>,
    line: &mut Line,
    session: usize,
    call: &Call,
) -> Result<(), AllocError>
    ensures put { OnOk result (text.new.items
        ≡ text.old.items ++ (number session space ++ call_text (told call.now))) }
    ensures room { OnOk result (vec_len text.new + LINE_ROOM + SUM_ROOM ≤ vec_capacity text.new) }
    ensures none { OnErr result (text.new.items ≡ text.old.items) }
{
    line.clear();
    line.put_number(session as u64);
    line.put(b" ");
    match call {
        Call::Submit(batch) => return push_batch(text, line.as_bytes(), batch),
        Call::Fetch(id) => line.put_numbered(b"fetch ", *id),
        Call::Settle(id, _) => line.put_numbered(b"settle ", *id),
        Call::Run(id) => SessionCommand::Run(*id).put(line),
        Call::Show(id) => SessionCommand::Show(*id).put(line),
        Call::Discard(id) => SessionCommand::Drop(*id).put(line),
        Call::Peek(module, address) => SessionCommand::Peek(*module, *address).put(line),
        Call::Poke(module, address, word) => {
            SessionCommand::Poke(*module, *address, *word).put(line);
        }
    }
    line.put(b"\n");
    push_words(text, line.as_bytes())
}

/// The batch that a call names, or 0.
pub fn id_of<B: Drop>(call: &RecordedCall<B>) -> usize
    ensures { result ≡ id_of call.now }
{
    match call {
        RecordedCall::Fetch(id) | RecordedCall::Settle(id) | RecordedCall::Run(id) => *id,
        RecordedCall::Show(id) | RecordedCall::Discard(id) => *id,
        RecordedCall::Submit(_) | RecordedCall::Peek(..) | RecordedCall::Poke(..) => 0,
    }
}

/// Puts the line of a reply to a call that names this batch. It is put together in a line that the
/// caller lends.
pub fn push_reply(
    text: &mut Vec<u8>,
    line: &mut ReplyLine,
    id: usize,
    reply: &Reply,
) -> Result<(), AllocError>
    requires { CanBePut reply.now }
    ensures put { OnOk result (text.new.items ≡ text.old.items ++ reply_text id reply.now) }
    ensures room { vec_len text.old + LINE_ROOM ≤ vec_capacity text.old → IsOk result }
    ensures few { OnOk result (vec_len text.new ≤ vec_len text.old + LINE_ROOM) }
    ensures kept { vec_capacity text.old ≤ vec_capacity text.new }
{
    if let Reply::Fetched(_) = reply {
        return push_line(text, b"fetched");
    }
    line.clear();
    line.tell(id, reply);
    text.extend_from_slice(line.as_bytes())
}

/// Puts the line of a reply of the history. It is put together in a line that the caller lends.
pub fn push_logged(
    text: &mut Vec<u8>,
    line: &mut ReplyLine,
    id: usize,
    reply: &LoggedReply,
) -> Result<(), AllocError>
    requires { CanBePut reply.now }
    ensures put { OnOk result (text.new.items ≡ text.old.items ++ reply_text id reply.now) }
    ensures room { vec_len text.old + LINE_ROOM ≤ vec_capacity text.old → IsOk result }
    ensures few { OnOk result (vec_len text.new ≤ vec_len text.old + LINE_ROOM) }
    ensures kept { vec_capacity text.old ≤ vec_capacity text.new }
{
    match reply.kept() {
        Some(reply) => push_reply(text, line, id, reply),
        None => push_line(text, b"fetched"),
    }
}

/// Puts the session's number, and a space.
fn push_session(text: &mut Vec<u8>, session: usize) -> Result<(), AllocError>
    ensures { OnOk result (text.new.items ≡ text.old.items ++ number session space) }
{
    let mut line = Line::new();
    line.put_number(session as u64);
    line.put(b" ");
    text.extend_from_slice(line.as_bytes())
}

/// Puts the line of the sum of the entry of this number, whose lines begin there.
pub fn push_sum_of(text: &mut Vec<u8>, begin: usize, number: u64) -> Result<(), AllocError>
    requires { begin ≤ length text.old.items }
    ensures put { OnOk result (text.new.items
        ≡ text.old.items ++ sum_line (sum_at number (drop begin text.old.items))) }
    ensures room { vec_len text.old + SUM_ROOM ≤ vec_capacity text.old → IsOk result }
{
    let sum = sum_at(number, &text[begin..]);
    text.extend_from_slice(&sum_line(sum))
}

/// Puts the lines of an entry, but for that of its sum.
fn push_told(text: &mut Vec<u8>, line: &mut ReplyLine, entry: &Entry) -> Result<(), AllocError>
    requires { CanBePut entry.now.reply }
    ensures { OnOk result (text.new.items ≡ text.old.items ++ entry_lines entry.now) }
{
    push_session(text, entry.session)?;
    let call = entry.call.told();
    push_call(text, call)?;
    push_logged(text, line, id_of(call), &entry.reply)
}

/// Puts the lines of the entry of this number.
fn push_entry(
    text: &mut Vec<u8>,
    line: &mut ReplyLine,
    number: u64,
    entry: &Entry,
) -> Result<(), AllocError>
    requires { CanBePut entry.now.reply }
    ensures { OnOk result (text.new.items ≡ text.old.items ++ entry_text number entry.now) }
{
    let begin = text.len();
    push_told(text, line, entry)?;
    push_sum_of(text, begin, number)
}

/// Puts the lines of these entries.
fn push_all(text: &mut Vec<u8>, history: &[Entry]) -> Result<(), AllocError>
    requires { All (λ e. CanBePut e.reply) history.now }
    ensures { OnOk result (text.new.items ≡ text.old.items ++ texts 0 history.now) }
{
    let mut line = ReplyLine::new();
    for at in 0..history.len() {
        push_entry(text, &mut line, at as u64, &history[at])?;
    }
    Ok(())
}

/// Puts the lines of a book's history. It takes memory, and time, by the history and the batches in
/// it.
pub fn push_history(text: &mut Vec<u8>, book: &Book) -> Result<(), AllocError>
    ensures { OnOk result
        (text.new.items ≡ text.old.items ++ texts 0 book.now.history) }
{
    // The shape is asked for only for its contract, which has the bounds of the rack.
    let _shape = book.opening().shape();
    push_all(text, book.history())
}

//! One entry of a record, made again.

ghost use Rattle.std.specs.Prelude.{◌≡◌, IfErr, IfOk, OnOk};
ghost use Rattle.book_record.specs.RecordText.{CanBePut, reply_text};
ghost use Rattle.record_replay.specs.Replays.{GoesOnBy, IsEntryFault};

use crate::asking::{PlainPlant, ask, call_of};
use crate::fault::EntryFault;
use batch_book::{Book, NullHistory, Reply};
use book_record::{id_of, push_reply, read_entry};
use client_session::reply_line::ReplyLine;
use exchange_limits::WorkerCount;
use std::alloc::{AllocError, Global};
use std::thread::Threads;

/// The line of a reply to a call that names this batch.
fn due_line(alloc: Global, id: usize, reply: &Reply) -> Result<Vec<u8>, AllocError>
    requires { CanBePut reply.now }
    ensures { IfOk result (λ line. line.items ≡ reply_text id reply.now) }
{
    let mut line = Vec::new(alloc);
    push_reply(&mut line, &mut ReplyLine::new(), id, reply)?;
    Ok(line)
}

/// Makes the call of the entry of these lines, by a session whose number is below the limit. If the
/// line of its reply is another, or without memory, the book may have the call all the same.
pub(crate) fn follow<'a, R: Threads + Sync>(
    rt: &R,
    alloc: Global,
    book: &mut Book<NullHistory>,
    plant: &mut PlainPlant,
    body: &'a [u8],
    limit: usize,
    workers: WorkerCount,
) -> Result<(), EntryFault<'a>>
    ensures ok { OnOk result (GoesOnBy limit book.old book.new body.entry.now) }
    ensures fault { IfErr result (IsEntryFault limit book.old.machine body.entry.now) }
    ensures opening { book.new.opening ≡ book.old.opening }
{
    let Some((session, told, replied)) = read_entry(alloc, body, limit)? else {
        return Err(EntryFault::Call);
    };
    let id = id_of(&told);
    let call = call_of(rt, alloc, book, session, told, workers)?;
    let reply = ask(rt, book, plant, session, call)?;
    let due = due_line(alloc, id, &reply)?;
    if replied == due.as_slice() {
        return Ok(());
    }
    Err(EntryFault::Reply(replied, due))
}

//! The entries of a record, made again.

ghost use Rattle.std.specs.Prelude.{◌≡◌, ◌≢◌, ◌-◌, ℕ, IfOk, IfErr, None, length};
ghost use Rattle.batch_book.specs.Machine.{Machine};
ghost use Rattle.record_replay.specs.Replays.{IsNext, IsRecordError, IsRemade, IsWrongAt};

use crate::asking::PlainPlant;
use crate::fault::{EntryFault, RecordError, RecordFault};
use crate::following::follow;
use batch_book::{Book, NullHistory};
use book_record::{RecordPrefix, is_end, read_prefix};
use crossbar::MemoryPort;
use exchange_limits::WorkerCount;
use module_memory::Rack;
use peek_poke::PlainWires;
use schedule_certificate::OpenGate;
use setting_runner::Plant;
use std::alloc::{AllocError, Global};
use std::thread::Threads;

/// Entries that were made again.
#[derive(Drop)]
pub struct ReplayedEntries<'a> {
    /// The book that has them.
    pub book: Book<NullHistory>,
    /// The number of these.
    pub entries: usize,
    /// What follows them.
    pub rest: &'a [u8],
}

/// The number of bytes of a text before this rest of it.
fn offset_of(text: &[u8], rest: &[u8]) -> usize
    ensures { result ≡ length text.now - length rest.now }
{
    text.len().saturating_sub(rest.len())
}

/// The error where this rest of a text is wrong, and no line is due.
fn wrong_at(fault: RecordFault, text: &[u8], rest: &[u8]) -> RecordError
    ensures fault { result.fault ≡ fault }
    ensures offset { result.offset ≡ length text.now - length rest.now }
    ensures due { result.due ≡ None }
{
    RecordError {
        fault,
        offset: offset_of(text, rest),
        due: None,
    }
}

/// How a record goes on after some entries, which are fewer than are wanted.
enum Next<'a> {
    /// By an entry of these lines, and this rest.
    Entry(&'a [u8], &'a [u8]),
    /// Not at all: it ends there, by its last lines or torn off.
    End,
}

/// How a record goes on after this many entries, or what is wrong there, and the text from there
/// on.
fn next_of(rest: &[u8], entries: usize) -> Result<Next<'_>, (RecordFault, &[u8])>
    ensures next { IfOk result (IsNext entries rest.now) }
    ensures wrong { IfErr result (λ wrong. (limit : ℕ) → (m : Machine)
        → IsWrongAt limit entries m rest.now wrong.0 wrong.1.now None) }
{
    match read_prefix(rest, entries as u64) {
        RecordPrefix::Torn => Ok(Next::End),
        RecordPrefix::Damaged => Err((RecordFault::Sum(entries), rest)),
        RecordPrefix::Whole(body, more) => {
            if !is_end(body, entries as u64) {
                return Ok(Next::Entry(body, more));
            }
            if more.is_empty() {
                return Ok(Next::End);
            }
            Err((RecordFault::More, more))
        }
    }
}

/// Makes the calls of the entries of a record again, on a new book of this rack, whose port and
/// wires never fail: the first ones, or all. The text is what follows the record's head, which says
/// the number below which its sessions are (`session_limit` of `book_record`). If each sum is
/// right, and each reply has the line of the record, the book has a legal history of these entries.
/// The record may end by its last lines, or be torn off, so that no sum follows; else the error
/// says what is first wrong, and where. A call that settles a plan is made with a plan of the
/// session's batch.
///
/// Planning and runs get these workers. It takes memory as the book does, and for a reply line.
pub fn replay<'a, R: Threads + Sync>(
    rt: &R,
    alloc: Global,
    rack: Rack,
    text: &'a [u8],
    limit: usize,
    first: Option<usize>,
    workers: WorkerCount,
) -> Result<ReplayedEntries<'a>, RecordError>
    ensures remade { IfOk result (λ remade. IsRemade limit text.entry.now rack first
        remade.book.history remade.book.machine remade.rest.now) }
    ensures opening { IfOk result (λ remade. remade.book.opening ≡ rack) }
    ensures counted { IfOk result (λ remade. length remade.book.history ≡ remade.entries) }
    ensures wrong { IfErr result (λ error. error.fault ≢ RecordFault.NoMemory
        → IsRecordError limit text.entry.now rack first error) }
{
    let mut plant: PlainPlant = Plant {
        port: MemoryPort::new(),
        wires: PlainWires,
        gate: OpenGate,
        workers,
    };
    let Ok(mut book) = Book::with(alloc, rack, NullHistory::new()) else {
        return Err(RecordError::from(AllocError));
    };
    let mut rest = text;
    for entries in 0..first.unwrap_or(usize::MAX) {
        // Called only for its contract: the history is legal.
        book.log();
        let (body, more) = match next_of(rest, entries) {
            Ok(Next::Entry(body, more)) => (body, more),
            Err((fault, there)) => return Err(wrong_at(fault, text, there)),
            Ok(Next::End) => {
                return Ok(ReplayedEntries {
                    book,
                    entries,
                    rest,
                });
            }
        };
        match follow(rt, alloc, &mut book, &mut plant, body, limit, workers) {
            Ok(()) => rest = more,
            Err(EntryFault::Call) => return Err(wrong_at(RecordFault::Call(entries), text, rest)),
            Err(EntryFault::Reply(replied, due)) => {
                let line = body.len().saturating_sub(replied.len());
                return Err(RecordError {
                    fault: RecordFault::Reply(entries),
                    offset: offset_of(text, rest).saturating_add(line),
                    due: Some(due),
                });
            }
            Err(EntryFault::NoMemory) => return Err(RecordError::from(AllocError)),
        }
    }
    book.log();
    let Some(entries) = first else {
        return Err(RecordError::from(AllocError));
    };
    Ok(ReplayedEntries {
        book,
        entries,
        rest,
    })
}

//! How the record of live sessions begins.

ghost use Rattle.std.specs.Prelude.{◌≡◌, ◌==◌, ◌⊎◌, [], ◌≤◌, ◌+◌, ◌++◌, ◌-◌, IfErr, IfOk, Some};
ghost use Rattle.std.specs.Prelude.{true, count_by, drop, ℕ, length, map, take};
ghost use Rattle.batch.specs.Text.{IsNumber, line_feed};
ghost use Rattle.batch_book.specs.History.{new_book_view};
ghost use Rattle.book_record.specs.Heads.{session_limit};
ghost use Rattle.book_record.specs.Sums.{numbered};
ghost use Rattle.record_replay.specs.declared.fault.RecordFault.TheVariants.{Head};
ghost use Rattle.named_files.specs.Notes.{IsRefused};
ghost use Rattle.recorded_sessions.specs.Live.{IsReady};
ghost use Rattle.recorded_sessions.specs.Outcomes.{IsStartError, IsReplayError};
ghost use Rattle.recorded_sessions.specs.Records.{BeginsAs, IsBookOn, IsCommonFront, IsCutFrom};
ghost use Rattle.recorded_sessions.specs.Records.{IsCutOf, IsResumed, head_for, record_front};

use crate::job_result::CutEntry;
use batch_book::{Book, NullHistory};
use book_record::{head_text, last_lines, session_limit, sum_of};
use command_words::Text;
use exchange_limits::WorkerCount;
use line_words::rest_after;
use module_memory::Rack;
use named_files::JobFailure;
use record_replay::{RecordError, RecordFault, ReplayedEntries, replay};
use refusal_notes::file_line;
use std::alloc::{AllocError, Global};
use std::thread::Threads;

/// The book with which sessions begin, and how the record's file begins with it.
#[derive(Drop)]
pub(crate) struct RecordStart {
    pub(crate) book: Book<NullHistory>,
    /// How many entries it has.
    pub(crate) entries: u64,
    /// How many bytes of the file stay.
    pub(crate) kept: usize,
    /// What is written after them.
    pub(crate) head: Vec<u8>,
    /// What of the file isn't kept, but for its last lines.
    pub(crate) cut: Option<CutEntry>,
}

/// Why sessions don't begin.
#[derive(Drop)]
pub(crate) enum StartError {
    /// There is no answer.
    Missed(JobFailure),
    /// The record is wrong.
    Wrong(RecordError),
}

impl From<AllocError> for StartError {
    ghost use Rattle.std.specs.Prelude.{◌≡◌};
    ghost use Rattle.named_files.specs.declared.notes.JobFailure.TheVariants.{NoMemory};
    ghost use Rattle.recorded_sessions.specs.declared.recording.StartError.TheVariants.{Missed};

    ghost from_gives = { λ _ unbegun. unbegun ≡ Missed NoMemory };

    fn from(error: AllocError) -> StartError {
        StartError::Missed(JobFailure::from(error))
    }
}

/// The bytes of names.
fn bytes_of_names<'a>(alloc: Global, names: &'a [Text]) -> Result<Vec<&'a [u8]>, AllocError>
    ensures { IfOk result (λ lent. map (λ name. name.now) lent.items ≡ names.entry.now) }
{
    let mut lent = Vec::new(alloc);
    for name in names {
        lent.push(name.as_str().as_bytes())?;
    }
    Ok(lent)
}

/// The head of the record of sessions on this rack.
fn head_on(alloc: Global, rack: &Rack, names: &[Text]) -> Result<Vec<u8>, AllocError>
    requires { IsNumber (length names.now) }
    ensures { IfOk result (λ head. head.items ≡ head_for rack.now names.now) }
{
    let lent = bytes_of_names(alloc, names)?;
    let image = rack.image()?;
    let sum = sum_of(image.as_slice());
    head_text(alloc, rack.shape(), sum, lent.as_slice())
}

/// Why a record that has something isn't begun anew.
fn holds_more(alloc: Global, name: &Text) -> JobFailure
    ensures { IsRefused result }
{
    let why = "it isn't empty; --resume goes on with a record of the same rack and clients";
    JobFailure::File {
        note: file_line(alloc, name.as_str(), why),
    }
}

/// A new book of this rack.
pub(crate) fn new_book(alloc: Global, rack: Rack) -> Result<Book<NullHistory>, AllocError>
    ensures { IfOk result (λ book. book ≡ new_book_view rack) }
{
    match Book::with(alloc, rack, NullHistory::new()) {
        Ok(book) => Ok(book),
        Err(_) => Err(AllocError),
    }
}

/// What is wrong after a head of so many bytes, as it is told of the whole record.
fn wrong_after(head: usize, error: RecordError) -> StartError
    ensures { IsReplayError error result }
{
    if error.fault == RecordFault::NoMemory {
        return StartError::from(AllocError);
    }
    StartError::Wrong(RecordError {
        fault: error.fault,
        offset: head.saturating_add(error.offset),
        due: error.due,
    })
}

/// How many bytes two texts have at their beginning that are the same.
fn common_front(one: &[u8], other: &[u8]) -> usize
    ensures { IsCommonFront one.now other.now result }
{
    for n in 0..one.len() {
        match other.get(n) {
            Some(byte) if *byte == one[n] => {}
            _ => return n,
        }
    }
    one.len()
}

/// What is wrong with a record that has another head than this: all from the first byte on that
/// differs. The head is what is due.
fn other_head(held: &[u8], head: Vec<u8>) -> RecordError
    ensures fault { result.fault ≡ Head }
    ensures due { result.due ≡ Some head }
    ensures offset { IsCommonFront held.now head.items result.offset }
{
    RecordError {
        fault: RecordFault::Head,
        offset: common_front(held, head.as_slice()),
        due: Some(head),
    }
}

/// So many entries, as their numbers count them.
fn count_of(entries: usize) -> u64
    ensures { result ≡ numbered entries }
{
    entries as u64
}

/// The book of the entries that follow this head, which is that of the rack's record, and by which
/// the numbers of sessions are below this; how many there are; and how many bytes the head and they
/// have.
fn resume<R: Threads + Sync>(
    rt: &R,
    alloc: Global,
    rack: Rack,
    held: &[u8],
    head: Vec<u8>,
    limit: usize,
    workers: WorkerCount,
) -> Result<(Book<NullHistory>, u64, usize), StartError>
    ensures resumed { IfOk result (λ r.
        (resumed : IsResumed limit held.now head.items rack r.0.history)
        × (r.2 ≡ length held.now - length resumed.rest)) }
    ensures on { IfOk result (λ r. IsBookOn rack r.0) }
    ensures entries { IfOk result (λ r. r.1 ≡ numbered (length r.0.history)) }
    ensures whole { IfOk result (λ r. r.0.whole ≡ true) }
    ensures all { IfOk result (λ r. r.0.durable ≡ r.0.history) }
    ensures unbegun { IfErr result (IsStartError true limit held.now head.items rack) }
{
    let Some(text) = rest_after(held, head.as_slice()) else {
        return Err(StartError::Wrong(other_head(held, head)));
    };
    match replay(rt, alloc, rack, text, limit, None, workers) {
        Ok(
            ReplayedEntries {
                book,
                entries,
                rest,
            },
        ) => {
            // Asked for only for its contract, which says that the book is whole, and that no entry
            // of it waits.
            book.log();
            Ok((
                book,
                count_of(entries),
                held.len().saturating_sub(rest.len()),
            ))
        }
        Err(error) => Err(wrong_after(head.len(), error)),
    }
}

/// The line that begins after this front of a text, counted from 1.
fn line_after(front: &[u8]) -> usize
    ensures { result ≡ count_by (λ byte. byte == line_feed) front.now + 1 }
{
    front.iter().filter(|byte| **byte == b'\n').count() + 1
}

/// What is told of what stands in a record after so many entries, and so many bytes: of its last
/// lines nothing.
fn cut_of(held: &[u8], kept: usize, entries: u64) -> Option<CutEntry>
    requires { kept ≤ length held.now }
    ensures { (n : ℕ) → entries ≡ numbered n
        → IsCutOf n (take kept held.now) (drop kept held.now) result }
{
    let (front, rest) = held.split_at(kept);
    if rest.is_empty() {
        return None;
    }
    let end = last_lines(entries);
    if rest == end.as_bytes() {
        return None;
    }
    Some(CutEntry {
        line: line_after(front),
        bytes: rest.len(),
    })
}

/// The book with which sessions on this rack begin, where the file for their record holds this.
/// Entries that it tells are made again by so many workers.
pub(crate) fn begin<R: Threads + Sync>(
    rt: &R,
    alloc: Global,
    rack: Rack,
    name: &Text,
    resumes: bool,
    names: &[Text],
    held: &[u8],
    workers: WorkerCount,
) -> Result<RecordStart, StartError>
    requires { IsNumber (length names.now) }
    ensures begins { IfOk result (λ begun.
        BeginsAs resumes held.now rack names.now begun.book.history) }
    ensures on { IfOk result (λ begun. IsBookOn rack begun.book) }
    ensures kept { IfOk result (λ begun. begun.kept ≤ length held.now) }
    ensures front { IfOk result (λ begun.
        take begun.kept held.now ++ begun.head.items ≡ record_front names.now begun.book) }
    ensures new { IfOk result (λ begun. ((begun.kept ≡ 0) × (begun.book ≡ new_book_view rack))
        ⊎ (begun.head.items ≡ [])) }
    ensures cut { IfOk result (λ begun. IsCutFrom (length begun.book.history) held.now
        (record_front names.now begun.book) begun.cut) }
    ensures entries { IfOk result (λ begun.
        begun.entries ≡ numbered (length begun.book.history)) }
    ensures ready { IfOk result (λ begun. IsReady begun.book) }
    ensures unbegun { IfErr result
        (IsStartError resumes (session_limit (length names.now)) held.now
        (head_for rack names.now) rack) }
{
    let head = head_on(alloc, &rack, names)?;
    if head.as_slice().starts_with(held) {
        return Ok(RecordStart {
            book: new_book(alloc, rack)?,
            entries: 0,
            kept: 0,
            head,
            cut: None,
        });
    }
    if !resumes {
        return Err(StartError::Missed(holds_more(alloc, name)));
    }
    let limit = session_limit(names.len());
    let (book, entries, kept) = resume(rt, alloc, rack, held, head, limit, workers)?;
    Ok(RecordStart {
        book,
        entries,
        kept,
        head: Vec::new(alloc),
        cut: cut_of(held, kept, entries),
    })
}

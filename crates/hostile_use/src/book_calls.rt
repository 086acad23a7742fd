//! The calls of a book that no session makes, or that take no memory.

use crate::marks::{begin, end};
use crate::met::Met;
use crate::plants::{NoNotice, plain};
use crate::rows::{FIRST, ONE_PUSH, ONE_PUSH_SHAPE, OTHER_PUSH, batch, marked, plan};
use batch_book::{Book, BookRefusal, Call, MAX_ENTRIES, Reply};
use std::alloc::Global;
use std::thread::Threads;

/// How many entries the history has before the settling that is tried. So many fill the room that
/// it has taken first.
const ENTRIES: usize = 4;

/// A call on the book of row book-limits.
#[derive(Clone, Copy)]
pub enum BookCall {
    /// `Book::apply` of the plan of another batch.
    SettleStranger,
    /// `Book::apply` of one call of each kind at a full history.
    ApplyFull,
}

/// A new book of the row's rack.
fn new_book(alloc: Global) -> Option<Book> {
    let rack = marked(alloc, ONE_PUSH_SHAPE)?;
    Book::new(alloc, rack).ok()
}

/// Makes a call on a new book.
pub fn make<R: AllocGlobal + Eprint + Threads + Sync>(rt: &R, call: BookCall) -> Option<Met> {
    let mut book = new_book(rt.alloc())?;
    make_on(rt, &mut book, call)
}

/// Makes a call on this book.
fn make_on<R: AllocGlobal + Eprint + Threads + Sync>(
    rt: &R,
    book: &mut Book,
    call: BookCall,
) -> Option<Met> {
    match call {
        BookCall::SettleStranger => settle_stranger(rt, book),
        BookCall::ApplyFull => apply_full(rt, book),
    }
}

/// Why a call was refused, if it was.
fn refusal_of(reply: &Reply) -> Option<BookRefusal> {
    match reply {
        Reply::Refused(refusal) => Some(*refusal),
        _ => None,
    }
}

/// One call of session 0, and why it was refused, if it was.
fn refusal<R: Threads + Sync>(rt: &R, book: &mut Book, call: Call) -> Option<BookRefusal> {
    let mut plant = plain();
    let reply = book.apply(rt, 0, call, &mut plant, &mut NoNotice);
    refusal_of(&reply)
}

/// One call of session 0 between the marks, and why it was refused, if it was.
fn refusal_between<R: Eprint + Threads + Sync>(
    rt: &R,
    book: &mut Book,
    call: Call,
) -> Option<BookRefusal> {
    begin(rt);
    let refusal = refusal(rt, book, call);
    end(rt);
    refusal
}

/// Peeks until the history has so many entries.
fn fill<R: Threads + Sync>(rt: &R, book: &mut Book, entries: usize) {
    for _ in book.history().len()..entries {
        refusal(rt, book, Call::Peek(1, FIRST));
    }
}

/// The submission of the row's batch.
fn submission(alloc: Global) -> Option<Call> {
    let batch = batch(alloc, ONE_PUSH)?;
    Some(Call::Submit(batch))
}

/// The settling of batch 1 by the plan of a batch text.
fn settling<R: AllocGlobal + Threads + Sync>(rt: &R, text: &str) -> Option<Call> {
    let planned = plan(rt, text)?;
    Some(Call::Settle(1, planned))
}

/// Whether the book has so many entries, and the words with which it was opened.
fn is_at(book: &Book, entries: usize) -> bool {
    book.history().len() == entries && book.rack().is_same(book.opening())
}

/// Settles the row's batch by the plan of another one, and says why that was refused.
fn settle<R: AllocGlobal + Threads + Sync>(rt: &R, book: &mut Book) -> Option<BookRefusal> {
    let call = settling(rt, OTHER_PUSH)?;
    refusal(rt, book, call)
}

/// Settles the row's batch by the plan of another one between the marks, and says why that was
/// refused.
fn settle_between<R: AllocGlobal + Eprint + Threads + Sync>(
    rt: &R,
    book: &mut Book,
) -> Option<BookRefusal> {
    let call = settling(rt, OTHER_PUSH)?;
    refusal_between(rt, book, call)
}

/// Submits the row's batch, and peeks until the history has [`ENTRIES`].
fn prepare<R: AllocGlobal + Threads + Sync>(rt: &R, book: &mut Book) -> Option<()> {
    let call = submission(rt.alloc())?;
    refusal(rt, book, call);
    fill(rt, book, ENTRIES);
    Some(())
}

/// What was met by the first settling, given what it was refused for. After want of memory the same
/// call, made again, is refused as the row says.
fn met_by_settling<R: AllocGlobal + Threads + Sync>(
    rt: &R,
    book: &mut Book,
    tried: Option<BookRefusal>,
) -> Met {
    match tried {
        Some(BookRefusal::Stranger) => Met::row_if(is_at(book, ENTRIES + 1)),
        Some(BookRefusal::NoMemory) => {
            let is_left = is_at(book, ENTRIES);
            let again = settle(rt, book);
            let is_told = again == Some(BookRefusal::Stranger) && is_at(book, ENTRIES + 1);
            Met::no_memory_if(is_left && is_told)
        }
        _ => Met::Other,
    }
}

/// `Book::apply` of the settling of the row's batch by the plan of another one.
fn settle_stranger<R: AllocGlobal + Eprint + Threads + Sync>(
    rt: &R,
    book: &mut Book,
) -> Option<Met> {
    prepare(rt, book)?;
    let tried = settle_between(rt, book);
    Some(met_by_settling(rt, book, tried))
}

/// Whether a call is refused since the history is full.
fn is_full_for<R: Eprint + Threads + Sync>(rt: &R, book: &mut Book, call: Call) -> bool {
    refusal_between(rt, book, call) == Some(BookRefusal::HistoryFull)
}

/// Whether a submission is.
fn is_full_for_submission<R: AllocGlobal + Eprint + Threads + Sync>(
    rt: &R,
    book: &mut Book,
) -> Option<bool> {
    let call = submission(rt.alloc())?;
    Some(is_full_for(rt, book, call))
}

/// Whether a settling is.
fn is_full_for_settling<R: AllocGlobal + Eprint + Threads + Sync>(
    rt: &R,
    book: &mut Book,
) -> Option<bool> {
    let call = settling(rt, ONE_PUSH)?;
    Some(is_full_for(rt, book, call))
}

/// Whether each call is that has no batch and no plan.
fn is_full_for_others<R: Eprint + Threads + Sync>(rt: &R, book: &mut Book) -> bool {
    let fetches = is_full_for(rt, book, Call::Fetch(1));
    let runs = is_full_for(rt, book, Call::Run(1));
    let shows = is_full_for(rt, book, Call::Show(1));
    let discards = is_full_for(rt, book, Call::Discard(1));
    let peeks = is_full_for(rt, book, Call::Peek(1, FIRST));
    let pokes = is_full_for(rt, book, Call::Poke(1, FIRST, 7));
    fetches && runs && shows && discards && peeks && pokes
}

/// `Book::apply` of one call of each kind at a full history.
fn apply_full<R: AllocGlobal + Eprint + Threads + Sync>(rt: &R, book: &mut Book) -> Option<Met> {
    fill(rt, book, MAX_ENTRIES);
    let submits = is_full_for_submission(rt, book)?;
    let settles = is_full_for_settling(rt, book)?;
    let others = is_full_for_others(rt, book);
    let is_left = is_at(book, MAX_ENTRIES);
    Some(Met::row_if(submits && settles && others && is_left))
}

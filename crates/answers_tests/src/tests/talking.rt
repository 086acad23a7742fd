//! A session over a record that breaks.

use crate::tests::books::{FailsOnce, small_book};
use batch_book::EntryLog;
use book_record::attach_stream;
use client_session::NoListener;
use session_answers::{ClosedSessions, talk_on};
use std::alloc::Global;
use std::io::Read;
use std::marker::Brand;
use std::sync::Wait;
use std::thread::Threads;
use std::time::Clock;

/// Whether a session that says all this, over a record one writing of which fails after so many,
/// is told just that, and ends since its record broke.
fn breaks_off<R: Clock + Threads + Wait + Sync, I: Read>(
    rt: &R,
    alloc: Global,
    said: &mut I,
    good: usize,
    hears: &str,
) -> bool {
    let mut told = Vec::new(alloc);
    let Some(book) = small_book(alloc) else {
        return false;
    };
    let book = attach_stream::<FailsOnce, Brand>(alloc, book, 0, FailsOnce { good }, false);
    match talk_on(rt, alloc, book, said, &mut told, &mut NoListener) {
        Ok(ClosedSessions { answer, book }) => {
            let is_told = told.as_slice() == hears.as_bytes();
            let is_answer = answer.text() == b"ended record\n".as_slice();
            let is_whole = book.log().is_whole();
            is_told && is_answer && answer.status() == 1 && !is_whole
        }
        Err(_) => false,
    }
}

/// Three lines, one at a read. The third writing fails: nothing is told of the third call.
#[test]
fn a_broken_record_ends_the_session(rt: HostRuntime) {
    let mut said = b"poke 0 80000800 000000aa\n"
        .as_slice()
        .chain(b"peek 0 80000800\n".as_slice())
        .chain(b"peek 0 80000804\n".as_slice());
    assert!(rt; breaks_off(&rt, rt.alloc(), &mut said, 2, "poked\nword 000000aa\n"));
}

/// The lines of a read are answered together, so nothing is told where their writing fails, though
/// the next would go well. What an earlier read had was told.
#[test]
fn a_broken_record_tells_nothing_of_a_group(rt: HostRuntime) {
    let lines = b"poke 0 80000800 000000aa\npeek 0 80000800\npeek 0 80000804\nbye\n";
    let mut said = lines.as_slice();
    assert!(rt; breaks_off(&rt, rt.alloc(), &mut said, 0, ""));
    let mut said = b"peek 0 80000804\n".as_slice().chain(lines.as_slice());
    assert!(rt; breaks_off(&rt, rt.alloc(), &mut said, 1, "word 00000000\n"));
}

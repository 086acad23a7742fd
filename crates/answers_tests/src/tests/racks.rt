//! The rack that sessions leave.

use exchange_limits::WorkerCount;
use session_answers::{Served, answer_serve};
use std::alloc::{AllocError, Global};
use std::sync::Wait;
use std::thread::Threads;
use std::time::Clock;

/// The image of a rack of three modules with two words each.
const OPENING: [u8; 24] = [
    1, 0, 0, 0, 2, 0, 0, 0, 3, 0, 0, 0, 4, 0, 0, 0, 5, 0, 0, 0, 6, 0, 0, 0,
];

/// That image, with other words at one place of each module.
const LEFT: [u8; 24] = [
    1, 0, 0, 0, 0xdd, 0xcc, 0xbb, 0xaa, 0x78, 0x56, 0x34, 0x12, 4, 0, 0, 0, 5, 0, 0, 0, 7, 0, 0,
    0x80,
];

/// What three sessions on that rack leave, each of which writes one of these other words.
fn write_three<R: Clock + Threads + Wait + Sync>(
    rt: &R,
    alloc: Global,
) -> Result<Served, AllocError> {
    let first = Vec::from_slice(alloc, b"poke 0 80000804 aabbccdd\nbye\n")?;
    let second = Vec::from_slice(alloc, b"poke 1 80000800 12345678\nbye\n")?;
    let third = Vec::from_slice(alloc, b"poke 2 80000804 80000007\npeek 2 80000800\n")?;
    let scripts = Vec::from_array(alloc, [first, second, third])?;
    let image = Some(OPENING.as_slice());
    answer_serve(
        rt,
        alloc,
        b"3x1x2",
        image,
        WorkerCount::ONE,
        scripts.as_slice(),
    )
}

/// Whether the rack that is left has the words of all three, and its first words elsewhere.
fn has_all_words<R: Clock + Threads + Wait + Sync>(
    rt: &R,
    alloc: Global,
) -> Result<bool, AllocError> {
    let Served { answer: _, book } = write_three(rt, alloc)?;
    match book {
        Some(book) => Ok(book.rack().image()?.as_slice() == LEFT.as_slice()),
        None => Ok(false),
    }
}

#[test]
fn the_words_of_all_sessions_are_left(rt: HostRuntime) {
    assert!(rt; has_all_words(&rt, rt.alloc()) == Ok(true));
}

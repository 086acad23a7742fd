//! Records that are written call by call, and such as were cut: a reply comes after its entry,
//! nothing is written after an entry that failed, and a small record is made again from wherever it
//! was cut.

use crate::tests::books::small_book;
use book_record::{attach_stream, detach_stream, session_limit};
use client_session::NoListener;
use exchange_limits::WorkerCount;
use record_replay::{RecordFault, replay};
use runs_tests::common::zeros;
use session_answers::{ClosedSessions, talk_on};
use std::alloc::Global;
use std::io;
use std::io::{Read, Write};
use std::marker::Brand;
use std::sync::Wait;
use std::sync::atomic::{AtomicUsize, Ordering};
use std::thread::Threads;
use std::time::Clock;

/// A writer that keeps what it is given, counts it, and fails where it has no more room: once, or
/// for good.
#[derive(Drop)]
struct Sheet<'a> {
    taken: Vec<u8>,
    count: &'a AtomicUsize,
    room: usize,
    once: bool,
}

impl Write for Sheet<'_> {
    fn write(&mut self, buf: &[u8]) -> io::Result<usize> {
        let bytes = buf.len().min(self.room);
        if bytes == 0 || self.taken.extend_from_slice(&buf[..bytes]).is_err() {
            if self.once {
                self.room = usize::MAX;
            }
            return Err(io::ErrorKind::Other.into());
        }
        self.room = self.room.saturating_sub(bytes);
        self.count.fetch_add(bytes, Ordering::SeqCst);
        Ok(bytes)
    }

    fn flush(&mut self) -> io::Result<()> {
        Ok(())
    }
}

/// A small record after its head.
const RECORD: &[u8] = b"0 peek 0 80000800\nword 00000000\n=37648a6d\n\
                        0 poke 0 80000800 00000005\npoked\n=3553e0b0\n\
                        0 peek 0 80000800\nword 00000005\n=d1f1a088\n\
                        end 3\n=d2c8c78f\n";

/// Where so many of its entries end.
fn end_of(entries: usize) -> usize {
    match entries {
        0 => 0,
        1 => 42,
        2 => 85,
        _ => 127,
    }
}

/// How many of its entries stand whole in so many of its bytes.
fn whole_in(bytes: usize) -> usize {
    match bytes {
        0..42 => 0,
        42..85 => 1,
        85..127 => 2,
        _ => 3,
    }
}

/// Counts the replies of a session that come after their entries.
#[derive(Drop)]
struct Hearer<'a> {
    written: &'a AtomicUsize,
    told: usize,
}

impl Write for Hearer<'_> {
    fn write(&mut self, buf: &[u8]) -> io::Result<usize> {
        let next = self.told.saturating_add(1);
        if self.written.load(Ordering::SeqCst) == end_of(next) {
            self.told = next;
        }
        Ok(buf.len())
    }

    fn flush(&mut self) -> io::Result<()> {
        Ok(())
    }
}

/// Whether a session whose record goes to a sheet with this room is told of the calls whose entries
/// fit, each after its entry, and as much of the record is written as fits.
fn stops_at<R: Clock + Threads + Wait + Sync>(
    rt: &R,
    alloc: Global,
    room: usize,
    once: bool,
) -> bool {
    let Some(book) = small_book(alloc) else {
        return false;
    };
    let count = AtomicUsize::new(0);
    let sheet = Sheet {
        taken: Vec::new(alloc),
        count: &count,
        room,
        once,
    };
    let book = attach_stream::<Sheet<'_>, Brand>(alloc, book, 0, sheet, false);
    let mut said = b"peek 0 80000800\n"
        .as_slice()
        .chain(b"poke 0 80000800 00000005\n".as_slice())
        .chain(b"peek 0 80000800\n".as_slice());
    let mut hearer = Hearer {
        written: &count,
        told: 0,
    };
    let ended = talk_on(rt, alloc, book, &mut said, &mut hearer, &mut NoListener);
    let Ok(ClosedSessions { answer: _, book }) = ended else {
        return false;
    };
    let (_, sheet, _) = detach_stream(book);
    Some(sheet.taken.as_slice()) == RECORD.get(..room) && hearer.told == whole_in(room)
}

#[test]
fn a_writer_fails_at_each_byte(rt: HostRuntime) {
    for room in 0..128 {
        assert!(rt; stops_at(&rt, rt.alloc(), room, false), "{room}");
        assert!(rt; stops_at(&rt, rt.alloc(), room, true), "once {room}");
    }
}

/// Whether the entries that stand whole in so many bytes of the record are made again.
fn is_made_again<R: AllocGlobal + Threads + Sync>(rt: &R, bytes: usize) -> bool {
    let alloc = rt.alloc();
    let (Some(rack), Some(text)) = (zeros(alloc, "2x1x1"), RECORD.get(..bytes)) else {
        return false;
    };
    let Ok(remade) = replay(
        rt,
        alloc,
        rack,
        text,
        session_limit(0),
        None,
        WorkerCount::ONE,
    ) else {
        return false;
    };
    let entries = remade.entries;
    entries == whole_in(bytes) && Some(remade.rest) == text.get(end_of(entries)..)
}

#[test]
fn a_record_is_made_again_from_each_byte(rt: HostRuntime) {
    for bytes in 0..144 {
        assert!(rt; is_made_again(&rt, bytes), "{bytes}");
    }
}

/// How many entries of the record are made again where so many are wanted, and how many bytes are
/// left.
fn first_made<R: AllocGlobal + Threads + Sync>(rt: &R, first: usize) -> Option<(usize, usize)> {
    let rack = zeros(rt.alloc(), "2x1x1")?;
    match replay(
        rt,
        rt.alloc(),
        rack,
        RECORD,
        session_limit(0),
        Some(first),
        WorkerCount::ONE,
    ) {
        Ok(remade) => Some((remade.entries, remade.rest.len())),
        Err(_) => None,
    }
}

#[test]
fn the_first_entries_are_made_again(rt: HostRuntime) {
    assert!(rt; first_made(&rt, 0) == Some((0, 143)));
    assert!(rt; first_made(&rt, 2) == Some((2, 58)));
    assert!(rt; first_made(&rt, 9) == Some((3, 16)));
}

/// What is first wrong with a text, and how many bytes stand before it.
fn wrong<R: AllocGlobal + Threads + Sync>(rt: &R, text: &str) -> Option<(RecordFault, usize)> {
    let rack = zeros(rt.alloc(), "2x1x1")?;
    match replay(
        rt,
        rt.alloc(),
        rack,
        text.as_bytes(),
        session_limit(0),
        None,
        WorkerCount::ONE,
    ) {
        Ok(_) => None,
        Err(error) => Some((error.fault, error.offset)),
    }
}

#[test]
fn damaged_records(rt: HostRuntime) {
    let other = "0 peek 0 80000800\nword 00000001\n=e3bad572\n";
    assert!(rt; wrong(&rt, other) == Some((RecordFault::Reply(0), 18)));
    let none = "0 peek 0 80000800\nword 00000000\n=37648a6d\n0 pick\npoked\n=dcdafc37\n";
    assert!(rt; wrong(&rt, none) == Some((RecordFault::Call(1), 42)));
    let twice = "0 peek 0 80000800\nword 00000000\n=37648a6d\n0 peek 0 80000800\nword 00000000\n\
        =37648a6d\n";
    assert!(rt; wrong(&rt, twice) == Some((RecordFault::Sum(1), 42)));
    assert!(rt; wrong(&rt, "0 peek\0") == Some((RecordFault::Sum(0), 0)));
    assert!(rt; wrong(&rt, "end 0\n=4ff4b165\nend\n") == Some((RecordFault::More, 16)));
}

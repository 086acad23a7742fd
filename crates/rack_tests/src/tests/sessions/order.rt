//! When a reader is asked and when a reply is flushed, and what a seat is worth after a session.

use super::served::{Day, NO_FUSE, is_served, is_so};
use super::streams::{ALL, AT_ONCE, Script};
use client_session::ServeFault;
use std::sync::Wait;
use std::thread::Threads;
use std::time::Clock;

/// Whether a client who says this and hears that has each reply flushed before a line is read
/// after it, by a writer that takes so many bytes a call. The list says how many replies were
/// flushed at each `read`, of which each gives a line.
fn is_flushed_first<R: AllocGlobal + Clock + Threads + Wait + Sync>(
    rt: &R,
    script: Script,
    flushed: &'static [usize],
    step: usize,
) -> bool {
    let mut reading = AT_ONCE;
    reading.by_line = true;
    reading.flushed = flushed;
    reading.asked = Some(flushed.len());
    let mut writing = ALL;
    writing.step = step;
    let plan = Day {
        shape: "2x2x2",
        wires: NO_FUSE,
        is_one_seat: false,
        scripts: [
            script.reading(reading).writing(writing),
            Script::of("", "", 0),
        ],
    };
    is_so(rt, &plan)
}

/// The first client of row one-script.
pub fn one_script() -> Script {
    Script::of(
        "poke 1 80000808 000000ff\nbatch 1\npull 0 0 1 1\nplan 1\nrun 1\nprogress\n\
        peek 0 80000800\nbye\n",
        "poked\naccepted 1\nplanned 1 settings 1\nran 1 run 1 settings 1 words 2 bits 234\n\
        progress run 1 done 1\nword 000000ff\nbye\n",
        6,
    )
}

/// The reply to `batch 1` comes after the batch's line. After `bye` nothing is read.
const ONE_SCRIPT_FLUSHED: [usize; 8] = [0, 1, 1, 2, 3, 4, 5, 6];

#[test]
fn a_reply_is_flushed_before_the_next_line_is_asked_for(rt: HostRuntime) {
    assert!(rt; is_flushed_first(&rt, one_script(), &ONE_SCRIPT_FLUSHED, usize::MAX));
    assert!(rt; is_flushed_first(&rt, one_script(), &ONE_SCRIPT_FLUSHED, 5));
    assert!(rt; is_flushed_first(&rt, one_script(), &ONE_SCRIPT_FLUSHED, 1));
}

#[test]
fn a_reply_is_flushed_before_the_end_is_asked_for(rt: HostRuntime) {
    let refused = Script::of("hello\nbatch 4097\n", "refused line\nrefused too many\n", 0);
    assert!(rt; is_flushed_first(&rt, refused, &[0, 1, 2], 5));
    let peek = Script::of("peek 0 80000800\n", "word 00000000\n", 1);
    assert!(rt; is_flushed_first(&rt, peek, &[0, 1], 5));
}

/// All lines are pending from the first on. That no reply is begun before those in front of it were
/// flushed, and that each is flushed in the end, is seen of each session.
#[test]
fn a_reply_is_flushed_before_the_next_is_begun(rt: HostRuntime) {
    let script = Script::of(
        "hello\nshow 1\nprogress\nbatch 0\nplan 1\nrun 1\nshow 1\n",
        "refused line\nrefused unknown\nprogress run 0 done 0\naccepted 1\nplanned 1 settings 0\n\
        ran 1 run 1 settings 0 words 0 bits 0\nbatch 1 transfers 0 ran\n",
        6,
    );
    let mut slow = ALL;
    slow.step = 1;
    assert!(rt; is_served(&rt, &script));
    assert!(rt; is_served(&rt, &script.writing(slow)));
}

#[test]
fn the_reply_to_bye_is_flushed(rt: HostRuntime) {
    assert!(rt; is_served(&rt, &Script::of("bye\n", "bye\n", 0)));
    let script = Script::of("hello\nbye\nshow 1\n", "refused line\nbye\n", 0);
    assert!(rt; is_served(&rt, &script));
}

/// Whether a client is served so on the smallest rack, and another after it from the seat that
/// came back.
fn are_served_from_one_seat<R: AllocGlobal + Clock + Threads + Wait + Sync>(
    rt: &R,
    one: Script,
    other: Script,
) -> bool {
    let plan = Day {
        shape: "1x1x1",
        wires: NO_FUSE,
        is_one_seat: true,
        scripts: [one, other],
    };
    is_so(rt, &plan)
}

/// The reader gives a byte a `read`, so the session has read a million bytes: 166,666 lines and
/// four bytes more.
#[test]
fn a_reader_without_end_is_asked_a_million_times(rt: HostRuntime) {
    let mut reading = AT_ONCE;
    reading.times = usize::MAX;
    reading.step = 1;
    reading.asked = Some(1_000_000);
    let mut writing = ALL;
    writing.times = 166_666;
    let hello = Script::of("hello\n", "refused line\n", 0)
        .ending(ServeFault::Turns)
        .reading(reading)
        .writing(writing);
    let peek = Script::of("peek 0 80000800\n", "word 00000000\n", 1);
    assert!(rt; are_served_from_one_seat(&rt, hello, peek));
}

/// Whether a session that hands in an empty batch and ends so is followed by another from the seat
/// that came back, which has that batch.
fn goes_on_after<R: AllocGlobal + Clock + Threads + Wait + Sync>(rt: &R, script: Script) -> bool {
    let show = Script::of("show 1\n", "batch 1 transfers 0 waiting\n", 1);
    are_served_from_one_seat(rt, script, show)
}

/// An empty batch, and then one of whose two lines the first is whole, and 81 letters stand in the
/// second.
const TOO_LONG: &str = "batch 0\nbatch 2\npush 0 0 0 0\n\
    aaaaaaaaaaaaaaaaaaaaaaaaaaaaaaaaaaaaaaaaaaaaaaaaaaaaaaaaaaaaaaaaaaaaaaaaaaaaaaaaa";

#[test]
fn a_seat_is_served_again_after_lines_that_end_sessions(rt: HostRuntime) {
    let cut = Script::of("batch 0\nbatch 2\npush 0 0 0 0\n", "accepted 1\n", 1);
    assert!(rt; goes_on_after(&rt, cut.ending(ServeFault::Cut)));
    let long = Script::of(TOO_LONG, "accepted 1\n", 1);
    assert!(rt; goes_on_after(&rt, long.ending(ServeFault::LineTooLong)));
}

#[test]
fn a_seat_is_served_again_after_a_reader_or_a_writer_that_failed(rt: HostRuntime) {
    let mut reading = AT_ONCE;
    reading.step = 8;
    reading.fails_at = 1;
    let read = Script::of("batch 0\nshow 1\n", "accepted 1\n", 1).ending(ServeFault::Read);
    assert!(rt; goes_on_after(&rt, read.reading(reading)));
    let mut writing = ALL;
    writing.room = 5;
    let write = Script::of("batch 0\nshow 1\n", "accep", 1).ending(ServeFault::Write);
    assert!(rt; goes_on_after(&rt, write.writing(writing)));
}

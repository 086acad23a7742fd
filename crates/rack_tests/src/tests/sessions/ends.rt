//! How sessions end whose reader or writer fails once, and then works: neither is tried again.

use super::served::is_served;
use super::streams::{ALL, AT_ONCE, Full, Script};
use client_session::ServeFault;

/// The script over a reader that hands out at most so many bytes a call, and fails once after so
/// many calls.
fn failing_at(script: Script, fails_at: usize, step: usize) -> Script {
    let mut reading = AT_ONCE;
    reading.step = step;
    reading.fails_at = fails_at;
    script.reading(reading)
}

const TWO_LINES: &str = "peek 0 80000800\nhello\n";

const TWO_REPLIES: &str = "word 00000000\nrefused line\n";

/// A text, after how many of its bytes the reader fails, what is heard, and how many entries there
/// are.
const MUTE: [(&str, usize, &str, usize); 6] = [
    ("", 0, "", 0),
    (TWO_LINES, 15, "", 0),
    (TWO_LINES, 16, "word 00000000\n", 1),
    (TWO_LINES, 21, "word 00000000\n", 1),
    (TWO_LINES, 22, TWO_REPLIES, 1),
    ("batch 1\npush 0 0 0 0\n", 10, "", 0),
];

/// The reader hands out a byte a call. The end of the text is its 23rd call. After `bye` it isn't
/// asked.
#[test]
fn session_ends_by_its_reader(rt: HostRuntime) {
    for (says, fails_at, hears, entries) in MUTE {
        let script = Script::of(says, hears, entries).ending(ServeFault::Read);
        assert!(rt;
            is_served(&rt, &failing_at(script, fails_at, 1)),
            "behind {fails_at}"
        );
    }
    let whole = Script::of(TWO_LINES, TWO_REPLIES, 1);
    assert!(rt; is_served(&rt, &failing_at(whole, 23, 1)));
    let bye = Script::of("bye\n", "bye\n", 0);
    assert!(rt; is_served(&rt, &failing_at(bye, 1, 4)));
}

/// The script over a writer that has room for so many bytes, then does this once, and has room
/// again.
fn with_room(script: Script, room: usize, full: Full) -> Script {
    let mut writing = ALL;
    writing.room = room;
    writing.full = full;
    script.writing(writing)
}

/// After how many bytes the writer has no room, what it does then, and what was heard.
const DEAF: [(usize, Full, &str); 5] = [
    (0, Full::Fails, ""),
    (5, Full::Fails, "word "),
    (5, Full::TakesNothing, "word "),
    (14, Full::Fails, "word 00000000\n"),
    (26, Full::Fails, "word 00000000\nrefused line"),
];

/// All replies have 27 bytes. A writer that fails when it is flushed has the reply.
#[test]
fn session_ends_by_its_writer(rt: HostRuntime) {
    for (room, full, hears) in DEAF {
        let script = Script::of(TWO_LINES, hears, 1).ending(ServeFault::Write);
        assert!(rt;
            is_served(&rt, &with_room(script, room, full)),
            "behind {room}"
        );
    }
    let whole = Script::of(TWO_LINES, TWO_REPLIES, 1);
    assert!(rt; is_served(&rt, &with_room(whole, 27, Full::Fails)));
    let mut writing = ALL;
    writing.flush_fails = true;
    let script = Script::of(TWO_LINES, "word 00000000\n", 1).ending(ServeFault::Write);
    assert!(rt; is_served(&rt, &script.writing(writing)));
}

//! Sessions over a record that lets entries wait: which lines are answered together, and that
//! their entries are written before.

ghost use Rattle.batch_book.specs.Naming.{IsNamed};
ghost use Rattle.std.specs.Prelude.{◌≡◌, [], Some};

use super::served::back;
use batch_book::{Book, ExchangeBlank, ExchangeName, History, NullHistory, Seat, Shared};
use book_record::{StreamHistory, attach_stream};
use client_session::{Listener, ServeFault, serve};
use crossbar::MemoryPort;
use exchange_limits::WorkerCount;
use peek_poke::PlainWires;
use refusals::Refusal;
use runs_tests::common::{with_wires, zeros};
use schedule_certificate::OpenGate;
use std::alloc::{AllocError, Global};
use std::io;
use std::io::{Read, Write};
use std::marker::Brand;
use std::sync::Wait;
use std::sync::atomic::{AtomicBool, AtomicUsize, Ordering};
use std::test::Fail;
use std::thread::Threads;
use std::time::Clock;

/// What comes to pass in a session.
#[derive(Clone, Copy, PartialEq, Eq)]
enum Event {
    /// The reader is asked.
    Asked,
    /// So many entries that waited are flushed.
    Flushed(usize),
    /// The flush of so many fails.
    Lost(usize),
    /// So many lines are written at once.
    Told(usize),
    /// The listener hears of a refusal.
    Refused,
}

use Event::{Asked, Flushed, Lost, Refused, Told};

/// What is to come to pass, in order, and how much of it has.
#[derive(Drop)]
struct Course<'a> {
    wanted: &'a [Event],
    seen: AtomicUsize,
    is_wrong: AtomicBool,
}

impl<'a> Course<'a> {
    fn of(wanted: &'a [Event]) -> Course<'a> {
        Course {
            wanted,
            seen: AtomicUsize::new(0),
            is_wrong: AtomicBool::new(false),
        }
    }

    /// Sees what comes to pass next.
    fn see(&self, event: Event) {
        let place = self.seen.fetch_add(1, Ordering::SeqCst);
        if self.wanted.get(place) != Some(&event) {
            self.is_wrong.store(true, Ordering::SeqCst);
        }
    }

    /// Whether a flush is to fail next.
    fn loses(&self) -> bool {
        matches!(
            self.wanted.get(self.seen.load(Ordering::SeqCst)),
            Some(Lost(_))
        )
    }

    /// Whether all has come to pass, and nothing else.
    fn is_over(&self) -> bool {
        let is_wrong = self.is_wrong.load(Ordering::SeqCst);
        let seen = self.seen.load(Ordering::SeqCst);
        !is_wrong && seen == self.wanted.len()
    }
}

/// The writer of a record, which sees how many entries it is given at once. It fails where its
/// course says so.
#[derive(Drop)]
struct Recorded<'a> {
    course: &'a Course<'a>,
}

impl Write for Recorded<'_> {
    fn write(&mut self, buf: &[u8]) -> io::Result<usize> {
        let mut entries: usize = 0;
        for line in buf.split(|byte| *byte == b'\n') {
            // No other line of an entry begins with a number.
            if line.starts_with(b"0 ") {
                entries = entries.saturating_add(1);
            }
        }
        if self.course.loses() {
            self.course.see(Lost(entries));
            return Err(io::ErrorKind::Other.into());
        }
        self.course.see(Flushed(entries));
        Ok(buf.len())
    }

    fn flush(&mut self) -> io::Result<()> {
        Ok(())
    }
}

/// Hands out one of its texts at a `read`.
#[derive(Drop)]
struct Speaker<'a> {
    says: &'a [&'a str],
    course: &'a Course<'a>,
}

impl Read for Speaker<'_> {
    fn read(&mut self, buf: &mut [u8]) -> io::Result<usize> {
        self.course.see(Asked);
        let Some(text) = self.says.first() else {
            return Ok(0);
        };
        let count = text.len().min(buf.len());
        buf[..count].copy_from_slice(&text.as_bytes()[..count]);
        self.says = self.says.get(1..).unwrap_or(&[]);
        Ok(count)
    }
}

/// Takes all that is written.
#[derive(Drop)]
struct Hearer<'a> {
    rest: &'a [u8],
    is_wrong: bool,
    course: &'a Course<'a>,
}

impl Write for Hearer<'_> {
    fn write(&mut self, buf: &[u8]) -> io::Result<usize> {
        self.course
            .see(Told(buf.iter().filter(|b| **b == b'\n').count()));
        match self.rest.strip_prefix(buf) {
            Some(rest) => self.rest = rest,
            None => self.is_wrong = true,
        }
        Ok(buf.len())
    }

    fn flush(&mut self) -> io::Result<()> {
        Ok(())
    }
}

/// Sees when it is told of refusals.
#[derive(Drop)]
struct Beside<'a> {
    course: &'a Course<'a>,
}

impl Listener for Beside<'_> {
    ghost use Rattle.std.specs.Prelude.{None, ⊤};

    ghost told = { λ _. record { bytes = None; loan = None } };

    ghost may_tell = { λ _ _. ⊤ };

    fn on_lines(&mut self, _text: &[u8]) {}

    fn on_refusal(&mut self, _refusal: Refusal) {
        self.course.see(Refused);
    }
}

/// What a client says at each `read`, what comes to pass, what it hears, and how its session ends.
#[derive(Clone, Copy)]
struct Row<'a> {
    says: &'a [&'a str],
    course: &'a [Event],
    hears: &'a str,
    fault: Option<ServeFault>,
}

/// The exchange of the tests.
type Exchange<L, H> = Shared<L, MemoryPort, PlainWires, OpenGate, H>;

/// Whether the client of a row hears what it is to hear, from this seat, and its session ends so.
fn is_heard<'a, L: ExchangeName, H: History, R: AllocGlobal + Clock + Threads + Wait + Sync>(
    rt: &R,
    shared: &Exchange<L, H>,
    seat: Seat<L>,
    row: &Row<'a>,
    course: &'a Course<'a>,
) -> bool
    requires exchange { seat.exchange ≡ Some shared.now.word }
    requires told { seat.log ≡ seat.asked }
{
    let mut speaker = Speaker {
        says: row.says,
        course,
    };
    let mut hearer = Hearer {
        rest: row.hears.as_bytes(),
        is_wrong: false,
        course,
    };
    let (_, fault) = back(serve(
        rt,
        rt.alloc(),
        shared,
        seat,
        &mut speaker,
        &mut hearer,
        &mut Beside { course },
        WorkerCount::ONE,
    ));
    let has_ended = fault == row.fault;
    has_ended && !hearer.is_wrong && hearer.rest.is_empty()
}

/// Whether the client hears what it has to at a new exchange over this book.
fn hears<'a, L: ExchangeName, H: History + Drop, R: AllocGlobal + Clock + Threads + Wait + Sync>(
    rt: &R,
    blank: ExchangeBlank,
    book: Book<H>,
    row: &Row<'a>,
    course: &'a Course<'a>,
) -> bool
where
    H::Recorder: Drop,
    H::Pending: Drop,
    requires named { IsNamed L.name L.parts L.table L.opening L.earlier blank book }
    requires empty { book.history ≡ [] }
{
    let plant = with_wires(PlainWires);
    match Exchange::<L, H>::of_book(rt.alloc(), blank, book, plant, 1) {
        Ok((shared, mut seats)) => {
            prove!(seats.len() == 1);
            is_heard(rt, &shared, seats.remove(0), row, course)
        }
        Err(_) => false,
    }
}

/// Whether a row is so on a rack of two modules of one word.
fn is_so<R: AllocGlobal + Clock + Threads + Wait + Sync>(rt: &R, row: &Row<'_>) -> bool {
    let Some(rack) = zeros(rt.alloc(), "2x1x1") else {
        return false;
    };
    let course = Course::of(row.course);
    let Ok(book) = Book::with(rt.alloc(), rack, NullHistory::new()) else {
        return false;
    };
    let Ok(blank) = ExchangeBlank::new(rt.alloc()) else {
        return false;
    };
    let writer = Recorded { course: &course };
    let book = attach_stream::<Recorded<'_>, Brand>(rt.alloc(), book, 0, writer, false);
    let is_heard = hears::<Brand, StreamHistory<Recorded<'_>, Brand>, R>(
        rt, blank, book, row, &course,
    );
    let is_over = course.is_over();
    is_heard && is_over
}

const PEEK: &str = "peek 0 80000800\n";

const PEEKS: &str = "peek 0 80000800\npeek 0 80000800\npeek 0 80000800\n";

const WORDS: &str = "word 00000000\nword 00000000\nword 00000000\n";

/// The lines of a read are answered together, and such as come one by one each for itself. A line
/// that refuses, and `bye`, end what is answered together. `progress` waits for no entry but those
/// before it.
const TOGETHER: [Row<'static>; 5] = [
    Row {
        says: &[PEEKS],
        course: &[Asked, Flushed(3), Told(3), Asked],
        hears: WORDS,
        fault: None,
    },
    Row {
        says: &[PEEK, PEEK, PEEK],
        course: &[
            Asked,
            Flushed(1),
            Told(1),
            Asked,
            Flushed(1),
            Told(1),
            Asked,
            Flushed(1),
            Told(1),
            Asked,
        ],
        hears: WORDS,
        fault: None,
    },
    Row {
        says: &["peek 0 80000800\nshow 9\npeek 0 80000800\nhello\npeek 0 80000800\n"],
        course: &[
            Asked,
            Flushed(2),
            Told(2),
            Refused,
            Flushed(1),
            Told(2),
            Refused,
            Flushed(1),
            Told(1),
            Asked,
        ],
        hears: "word 00000000\nrefused unknown\nword 00000000\nrefused line\nword 00000000\n",
        fault: None,
    },
    Row {
        says: &["peek 0 80000800\nprogress\nbye\npeek 0 80000800\n"],
        course: &[Asked, Flushed(1), Told(3)],
        hears: "word 00000000\nprogress run 0 done 0\nbye\n",
        fault: None,
    },
    Row {
        says: &["progress\npeek 0 80000800\n"],
        course: &[Asked, Told(1), Flushed(1), Told(1), Asked],
        hears: "progress run 0 done 0\nword 00000000\n",
        fault: None,
    },
];

/// What is held is told before a plan, a run, and a batch that isn't all there, also where that
/// ends the session. A plan makes two calls.
const APART: [Row<'static>; 3] = [
    Row {
        says: &["peek 0 80000800\nbatch 1\npush 0 0 1 0\nplan 1\nrun 1\npeek 0 80000800\n"],
        course: &[
            Asked,
            Flushed(2),
            Told(2),
            Flushed(2),
            Told(1),
            Flushed(2),
            Told(2),
            Asked,
        ],
        hears: "word 00000000\naccepted 1\nplanned 1 settings 1\n\
            ran 1 run 1 settings 1 words 1 bits 117\nword 00000000\n",
        fault: None,
    },
    Row {
        says: &[
            "peek 0 80000800\nbatch 1\n",
            "push 0 0 1 0\npeek 0 80000800\n",
        ],
        course: &[
            Asked,
            Flushed(1),
            Told(1),
            Asked,
            Flushed(2),
            Told(2),
            Asked,
        ],
        hears: "word 00000000\naccepted 1\nword 00000000\n",
        fault: None,
    },
    Row {
        says: &["peek 0 80000800\nbatch 2\npush 0 0 1 0\n"],
        course: &[Asked, Flushed(1), Told(1), Asked],
        hears: "word 00000000\n",
        fault: Some(ServeFault::Cut),
    },
];

/// Nothing is told of what waited for a flush that fails, and nothing is tried again.
const LOST: [Row<'static>; 2] = [
    Row {
        says: &[PEEKS, PEEKS, PEEK],
        course: &[Asked, Flushed(3), Told(3), Asked, Lost(3)],
        hears: WORDS,
        fault: Some(ServeFault::Record),
    },
    Row {
        says: &["peek 0 80000800\nshow 9\npeek 0 80000800\nbye\n"],
        course: &[Asked, Flushed(2), Told(2), Refused, Lost(1)],
        hears: "word 00000000\nrefused unknown\n",
        fault: Some(ServeFault::Record),
    },
];

#[test]
fn entries_are_flushed_before_they_are_told(rt: HostRuntime) {
    for row in TOGETHER.iter().chain(APART.iter()).chain(LOST.iter()) {
        assert!(rt; is_so(&rt, row), "{}", row.hears);
    }
}

/// A line, and after it another so many times.
fn text_of(alloc: Global, first: &str, next: &str, times: usize) -> Result<String, AllocError> {
    let mut text = String::from_str(alloc, first)?;
    for _ in 0..times {
        text.push_str(next)?;
    }
    Ok(text)
}

/// Lines are held until they have more than 4096 bytes. That of a batch that is shown has 28.
#[test]
fn more_lines_than_can_be_held_are_told_in_parts(rt: HostRuntime) -> Result<(), Fail> {
    let says = text_of(rt.alloc(), "batch 0\n", "show 1\n", 300)?;
    let hears = text_of(
        rt.alloc(),
        "accepted 1\n",
        "batch 1 transfers 0 waiting\n",
        300,
    )?;
    let row = Row {
        says: &[says.as_str()],
        course: &[
            Asked,
            Flushed(147),
            Told(147),
            Flushed(147),
            Told(147),
            Flushed(7),
            Told(7),
            Asked,
        ],
        hears: hears.as_str(),
        fault: None,
    };
    assert!(rt; is_so(&rt, &row));
    Ok(())
}

//! Two sessions at once whose lines come in one order, so that each reading comes after what the
//! other did.

ghost use Rattle.batch_book.specs.History.{new_book_view};
ghost use Rattle.batch_book.specs.Naming.{IsNamed};

use super::served::{NO_FUSE, Saying, serve_at_once};
use crate::tests::office::open_pair;
use batch_book::{ExchangeBlank, ExchangeName};
use module_memory::Rack;
use peek_poke::FuseWires;
use runs_tests::common::{TURNS, with_wires, zeros};
use schedule_certificate::OpenGate;
use std::io;
use std::io::Read;
use std::marker::Brand;
use std::sync::Wait;
use std::sync::atomic::{AtomicBool, AtomicUsize, Ordering};
use std::thread::{Threads, yield_now};
use std::time::Clock;

/// The lines of two clients in one order, each with the client that says it, and how many of them
/// were answered.
#[derive(Drop)]
struct Talk {
    lines: &'static [(usize, &'static str)],
    answered: AtomicUsize,
    gave_up: AtomicBool,
}

impl Talk {
    fn of(lines: &'static [(usize, &'static str)]) -> Talk {
        Talk {
            lines,
            answered: AtomicUsize::new(0),
            gave_up: AtomicBool::new(false),
        }
    }

    /// Waits until this client is to say the next line. Nothing where all are said.
    fn next_of(&self, client: usize) -> &'static str {
        for _ in 0..TURNS {
            match self.lines.get(self.answered.load(Ordering::SeqCst)) {
                Some((speaker, line)) if *speaker == client => return *line,
                Some(_) => yield_now(),
                None => return "",
            }
        }
        self.gave_up.store(true, Ordering::SeqCst);
        ""
    }
}

/// Hands out the lines of one client, each once all before it were answered.
#[derive(Drop)]
struct Talker<'a> {
    talk: &'a Talk,
    client: usize,
    awaits: bool,
}

impl<'a> Talker<'a> {
    fn of(talk: &'a Talk, client: usize) -> Talker<'a> {
        Talker {
            talk,
            client,
            awaits: false,
        }
    }
}

impl Read for Talker<'_> {
    fn read(&mut self, buf: &mut [u8]) -> io::Result<usize> {
        if self.awaits {
            self.talk.answered.fetch_add(1, Ordering::SeqCst);
        }
        let line = self.talk.next_of(self.client).as_bytes();
        let count = line.len().min(buf.len());
        buf[..count].copy_from_slice(&line[..count]);
        self.awaits = count > 0;
        Ok(count)
    }
}

/// Whether both clients of a talk hear this that are served at once on this rack.
fn hear_on<L: ExchangeName + Send + Sync, R: AllocGlobal + Clock + Threads + Wait + Sync>(
    rt: &R,
    blank: ExchangeBlank,
    rack: Rack,
    talk: &Talk,
    wanted: [&'static str; 2],
) -> bool
    requires named { IsNamed L.name L.parts L.table L.opening L.earlier blank (new_book_view rack) }
{
    let [first, second] = wanted;
    match open_pair::<L, FuseWires, OpenGate>(rt.alloc(), blank, rack, with_wires(NO_FUSE)) {
        Some(office) => {
            let (one, other) = (saying(talk, 0, first), saying(talk, 1, second));
            serve_at_once(rt, office, one, other).1
        }
        None => false,
    }
}

/// A client of a talk, who is to hear this.
fn saying<'a>(talk: &'a Talk, client: usize, hears: &'static str) -> Saying<Talker<'a>> {
    Saying {
        reader: Talker::of(talk, client),
        hears,
    }
}

/// Whether both clients hear these lines, and neither gives up.
fn hear<R: AllocGlobal + Clock + Threads + Wait + Sync>(
    rt: &R,
    shape: &str,
    lines: &'static [(usize, &'static str)],
    wanted: [&'static str; 2],
) -> bool {
    let Some(rack) = zeros(rt.alloc(), shape) else {
        return false;
    };
    let talk = Talk::of(lines);
    let Ok(blank) = ExchangeBlank::new(rt.alloc()) else {
        return false;
    };
    let is_heard = hear_on::<Brand, R>(rt, blank, rack, &talk, wanted);
    let gave_up = talk.gave_up.load(Ordering::SeqCst);
    is_heard && !gave_up
}

/// The second client reads before any run and after each of three runs of the first, which have 0,
/// 1 and 2 settings.
const READINGS: [(usize, &str); 13] = [
    (1, "progress\n"),
    (0, "batch 0\n"),
    (0, "plan 1\n"),
    (0, "run 1\n"),
    (1, "progress\n"),
    (0, "batch 1\npush 0 0 1 0\n"),
    (0, "plan 2\n"),
    (0, "run 2\n"),
    (1, "progress\n"),
    (0, "batch 2\npush 0 0 1 0\npush 0 0 2 0\n"),
    (0, "plan 3\n"),
    (0, "run 3\n"),
    (1, "progress\n"),
];

#[test]
fn each_reading_is_of_now(rt: HostRuntime) {
    let runs =
        "accepted 1\nplanned 1 settings 0\nran 1 run 1 settings 0 words 0 bits 0\naccepted 2\n\
        planned 2 settings 1\nran 2 run 2 settings 1 words 1 bits 117\naccepted 3\n\
        planned 3 settings 2\nran 3 run 3 settings 2 words 2 bits 234\n";
    let readings = "progress run 0 done 0\nprogress run 1 done 0\nprogress run 2 done 1\n\
        progress run 3 done 2\n";
    assert!(rt; hear(&rt, "3x1x1", &READINGS, [runs, readings]));
}

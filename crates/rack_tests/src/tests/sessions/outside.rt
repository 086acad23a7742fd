//! A session plans outside the exchange's lock, so that others are answered meanwhile. Its batch is
//! the largest.

ghost use Rattle.batch_book.specs.History.{new_book_view};
ghost use Rattle.batch_book.specs.Naming.{IsNamed};
ghost use Rattle.std.specs.Prelude.{◌≡◌, ◌≤◌, length, take};

use super::served::{NO_FUSE, Saying, serve_at_once};
use crate::tests::office::{close, open_pair};
use batch_book::{Entry, ExchangeBlank, ExchangeName, RecordedCall};
use module_memory::Rack;
use peek_poke::FuseWires;
use runs_tests::common::{TURNS, with_wires, zeros};
use schedule_certificate::OpenGate;
use std::alloc::{AllocError, Global};
use std::io;
use std::io::Read;
use std::marker::Brand;
use std::sync::Wait;
use std::sync::atomic::{AtomicBool, AtomicUsize, Ordering};
use std::test::Fail;
use std::thread::{Threads, yield_now};
use std::time::Clock;

/// How often the batch is planned. The first time settles it, and each later one is refused after
/// its planning.
const PLANS: usize = 40;

/// How often the other client peeks at most while the batch is planned once, so that the history
/// has room.
const PEEKS: usize = 1500;

/// Row largest-batch: 4096 times `push 0 0 1 0`.
fn largest_batch(alloc: Global) -> Result<String, AllocError> {
    let mut text = String::from_str(alloc, "batch 4096\n")?;
    for _ in 0..4096 {
        text.push_str("push 0 0 1 0\n")?;
    }
    Ok(text)
}

/// How far two clients have come: whether the one who peeks is there, how often the other has asked
/// for a plan, and whether it has ended.
#[derive(Drop)]
struct Watch {
    is_there: AtomicBool,
    asked: AtomicUsize,
    ended: AtomicBool,
}

impl Watch {
    fn new() -> Watch {
        Watch {
            is_there: AtomicBool::new(false),
            asked: AtomicUsize::new(0),
            ended: AtomicBool::new(false),
        }
    }

    /// Waits until the client who peeks is there.
    fn wait_until_there(&self) {
        for _ in 0..TURNS {
            if self.is_there.load(Ordering::SeqCst) {
                return;
            }
            yield_now();
        }
    }

    /// Waits until the other has asked more often than that, and says how often. Nothing where it
    /// has ended.
    fn wait_for_more(&self, seen: usize) -> Option<usize> {
        self.is_there.store(true, Ordering::SeqCst);
        for _ in 0..TURNS {
            if self.ended.load(Ordering::SeqCst) {
                return None;
            }
            let asked = self.asked.load(Ordering::SeqCst);
            if asked > seen {
                return Some(asked);
            }
            yield_now();
        }
        None
    }
}

/// Puts bytes into a buffer, as many as it has room for, and says how many.
fn put(buf: &mut [u8], bytes: &[u8]) -> usize
    ensures { (result ≤ length buf.new) × (result ≡ length (take result buf.new)) }
{
    let count = bytes.len().min(buf.len());
    buf[..count].copy_from_slice(&bytes[..count]);
    count
}

/// Hands out the text of a batch, and then, once the other client is there, asks so often for its
/// plan.
#[derive(Drop)]
struct Planner<'a> {
    text: &'a [u8],
    plans: usize,
    watch: &'a Watch,
}

impl Read for Planner<'_> {
    fn read(&mut self, buf: &mut [u8]) -> io::Result<usize> {
        if !self.text.is_empty() {
            let count = put(buf, self.text);
            self.text = self.text.get(count..).unwrap_or(b"");
            return Ok(count);
        }
        if self.plans == 0 {
            self.watch.ended.store(true, Ordering::SeqCst);
            return Ok(0);
        }
        self.plans -= 1;
        self.watch.wait_until_there();
        self.watch.asked.fetch_add(1, Ordering::SeqCst);
        Ok(put(buf, b"plan 1\n"))
    }
}

/// Peeks so often each time that the other client asks for a plan.
#[derive(Drop)]
struct Peeker<'a> {
    asked: usize,
    peeks: usize,
    watch: &'a Watch,
}

impl Read for Peeker<'_> {
    fn read(&mut self, buf: &mut [u8]) -> io::Result<usize> {
        if self.peeks == 0 {
            let Some(asked) = self.watch.wait_for_more(self.asked) else {
                return Ok(0);
            };
            self.asked = asked;
            self.peeks = PEEKS;
        }
        if self.watch.ended.load(Ordering::SeqCst) {
            return Ok(0);
        }
        self.peeks -= 1;
        Ok(put(buf, b"peek 0 80000800\n"))
    }
}

/// Whether session 0 has fetched its batch and not settled it, when session 1 is answered.
fn has_entry_between(history: &[Entry]) -> bool {
    let mut is_fetched = false;
    for entry in history {
        if entry.session == 1 {
            if is_fetched {
                return true;
            }
        } else {
            is_fetched = matches!(entry.call.told(), RecordedCall::Fetch(_));
        }
    }
    false
}

/// A client of whose replies nothing is said.
fn unheard<I>(reader: I) -> Saying<I> {
    Saying { reader, hears: "" }
}

/// Whether a client was answered while the other planned.
fn is_outside<L: ExchangeName + Send + Sync, R: AllocGlobal + Clock + Threads + Wait + Sync>(
    rt: &R,
    blank: ExchangeBlank,
    rack: Rack,
    planner: Planner<'_>,
    peeker: Peeker<'_>,
) -> bool
    requires named { IsNamed L.name L.parts L.table L.opening L.earlier blank (new_book_view rack) }
{
    let opened = open_pair::<L, FuseWires, OpenGate>(rt.alloc(), blank, rack, with_wires(NO_FUSE));
    let Some(office) = opened else {
        return false;
    };
    let (office, _) = serve_at_once(rt, office, unheard(planner), unheard(peeker));
    match close(rt.alloc(), office) {
        Some(closed) => has_entry_between(closed.book.history()),
        None => false,
    }
}

/// Whether a client on a rack of two modules is answered while another plans this batch.
fn is_outside_of<R: AllocGlobal + Clock + Threads + Wait + Sync>(rt: &R, text: &[u8]) -> bool {
    let Some(rack) = zeros(rt.alloc(), "2x1x1") else {
        return false;
    };
    let watch = Watch::new();
    let planner = Planner {
        text,
        plans: PLANS,
        watch: &watch,
    };
    let peeker = Peeker {
        asked: 0,
        peeks: 0,
        watch: &watch,
    };
    let Ok(blank) = ExchangeBlank::new(rt.alloc()) else {
        return false;
    };
    is_outside::<Brand, R>(rt, blank, rack, planner, peeker)
}

#[test]
fn others_are_answered_while_a_session_plans(rt: HostRuntime) -> Result<(), Fail> {
    let text = largest_batch(rt.alloc())?;
    assert!(rt; is_outside_of(&rt, text.as_bytes()));
    Ok(())
}

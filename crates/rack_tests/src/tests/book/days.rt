//! Four sessions at once, each in a thread of its own, whose seats are then given back.

ghost use Rattle.batch_book.specs.History.{new_book_view};
ghost use Rattle.batch_book.specs.Naming.{IsNamed};
ghost use Rattle.std.specs.Prelude.{◌≡◌, Some};

use crate::tests::office::{Ask, FIRST, answer, closed};
use batch_book::{ExchangeBlank, ExchangeName, Seat, Shared};
use crossbar::MemoryPort;
use module_memory::Rack;
use peek_poke::PlainWires;
use runs_tests::common::{marked, with_wires};
use schedule_certificate::OpenGate;
use std::marker::Brand;
use std::sync::Wait;
use std::thread;
use std::thread::Threads;
use std::time::Clock;

/// How many sessions there are.
const SESSIONS: usize = 4;

/// How many peeks each of them makes.
const PEEKS: usize = 100;

/// The exchange of the sessions.
type Plain<L> = Shared<L, MemoryPort, PlainWires, OpenGate>;

/// One session at its work, which then gives its seat back.
fn session<L: ExchangeName, R: AllocGlobal + Clock + Threads + Wait + Sync>(
    rt: &R,
    shared: &Plain<L>,
    seat: Seat<L>,
) -> Seat<L>
    requires { seat.exchange ≡ Some shared.now.word }
    ensures { result.exchange ≡ seat.exchange }
{
    let mut seat = seat;
    for _ in 0..PEEKS {
        answer(rt, shared, &mut seat, Ask::Peek(1, FIRST));
    }
    seat
}

/// The sessions at once, and how many entries they leave. Nothing where the exchange didn't close.
fn day<L: ExchangeName + Send + Sync, R: AllocGlobal + Clock + Threads + Wait + Sync>(
    rt: &R,
    blank: ExchangeBlank,
    rack: Rack,
) -> Option<usize>
    requires named { IsNamed L.name L.parts L.table L.opening L.earlier blank (new_book_view rack) }
{
    let made = Plain::<L>::new(rt.alloc(), blank, rack, with_wires(PlainWires), SESSIONS);
    let Ok((shared, seats)) = made else {
        return None;
    };
    let lent = &shared;
    let one = |seat: Seat<L>| -> Seat<L>
        requires { seat.exchange ≡ Some lent.now.word }
        ensures { result.exchange ≡ seat.exchange }
    { session(rt, lent, seat) };
    let Ok(seats) = thread::map_vec(rt, seats, &one) else {
        return None;
    };
    let closed = closed(shared, seats)?;
    Some(closed.book.history().len())
}

/// How many entries they leave on a marked rack.
fn entries<R: AllocGlobal + Clock + Threads + Wait + Sync>(rt: &R) -> Option<usize> {
    match marked(rt.alloc(), "2x1x1") {
        Some(rack) => match ExchangeBlank::new(rt.alloc()) {
            Ok(blank) => day::<Brand, R>(rt, blank, rack),
            Err(_) => None,
        },
        None => None,
    }
}

#[test]
fn four_seats_peek_at_once(rt: HostRuntime) {
    assert!(rt; entries(&rt) == Some(400));
}

//! Sessions at a new exchange with two seats, one after the other and at once.

ghost use Rattle.batch_book.specs.History.{new_book_view};
ghost use Rattle.batch_book.specs.Naming.{IsNamed};
ghost use Rattle.std.specs.Prelude.{◌≡◌, Some};
ghost use Rattle.progress_word.specs.declared.limits.TheConstants.{ALL_PARTS};
ghost use Rattle.client_session.specs.Sessions.{seat_back};

use super::beside::Beside;
use super::streams::{Listener, Script, Speaker};
use crate::tests::office::{Pair, close, open_pair};
use batch_book::{Closed, ExchangeBlank, ExchangeName, Seat, Shared};
use byte_streams::FailureCount;
use client_session::{CountedReader, NoListener, ServeFault, serve};
use crossbar::MemoryPort;
use exchange_limits::WorkerCount;
use module_memory::Rack;
use peek_poke::FuseWires;
use runs_tests::common::{with_wires, zeros};
use schedule_certificate::OpenGate;
use std::io::Read;
use std::marker::Brand;
use std::sync::Wait;
use std::sync::atomic::AtomicUsize;
use std::thread::{Threads, join};
use std::time::Clock;

/// Wires of which none has a fuse: no transfer has this number.
pub const NO_FUSE: FuseWires = FuseWires {
    transfer: 4096,
    bytes: 0,
};

/// The exchange of the tests.
pub type Exchange<L> = Shared<L, MemoryPort, FuseWires, OpenGate>;

/// An exchange of the tests, with two seats.
pub type Office<L> = Pair<L, FuseWires, OpenGate>;

/// The seat that came back, and the fault, if there was one.
pub fn back<L: ExchangeName>(
    ended: Result<Seat<L>, (Seat<L>, ServeFault)>,
) -> (Seat<L>, Option<ServeFault>)
    ensures { result.0 ≡ seat_back ended }
{
    match ended {
        Ok(seat) => (seat, None),
        Err((seat, fault)) => (seat, Some(fault)),
    }
}

/// Plays a script from a seat, which comes back. Whether all was heard, read and ended as the
/// script says.
fn play<L: ExchangeName, R: AllocGlobal + Clock + Threads + Wait + Sync>(
    rt: &R,
    shared: &Exchange<L>,
    seat: Seat<L>,
    script: &Script,
) -> (Seat<L>, bool)
    requires exchange { seat.exchange ≡ Some shared.now.word }
    requires told { seat.log ≡ seat.asked }
    ensures exchange { result.0.exchange ≡ seat.exchange }
    ensures told { result.0.log ≡ result.0.asked }
{
    let flushed = AtomicUsize::new(0);
    let mut speaker = Speaker::of(script, &flushed);
    let mut listener = Listener::of(script, &flushed);
    let mut beside = Beside::of(script, &flushed);
    let (seat, fault) = back(serve(
        rt,
        rt.alloc(),
        shared,
        seat,
        &mut speaker,
        &mut listener,
        &mut beside,
        WorkerCount::ONE,
    ));
    let is_heard = is_heard(&listener, script, fault);
    (
        seat,
        is_heard && speaker.is_right() && beside.is_right(fault),
    )
}

/// Whether a client has heard what its script says, and its session has ended so, by this fault.
fn is_heard(listener: &Listener<'_>, script: &Script, fault: Option<ServeFault>) -> bool {
    let is_right = listener.is_right();
    let is_flushed = listener.is_flushed();
    let has_ended = fault == script.fault;
    let is_deaf = fault == Some(ServeFault::Write);
    is_right && has_ended && (is_flushed || is_deaf)
}

/// Plays both scripts of a day, one after the other. Whether all is as they say.
fn play_both<L: ExchangeName, R: AllocGlobal + Clock + Threads + Wait + Sync>(
    rt: &R,
    office: Office<L>,
    day: &Day,
) -> (Office<L>, bool)
    requires first { office.first.log ≡ office.first.asked }
    requires second { office.second.log ≡ office.second.asked }
{
    let Pair {
        shared,
        first,
        second,
    } = office;
    let [one, other] = &day.scripts;
    let (first, is_right) = play(rt, &shared, first, one);
    let (first, second) = if day.is_one_seat {
        (first, second)
    } else {
        (second, first)
    };
    let (first, is_right_too) = play(rt, &shared, first, other);
    let office = Pair {
        shared,
        first,
        second,
    };
    (office, is_right && is_right_too)
}

/// Serves two clients at once, each in a thread, which are to hear this. Whether both do.
pub fn serve_at_once<
    L: ExchangeName + Send + Sync,
    R: AllocGlobal + Clock + Threads + Wait + Sync,
    I: Read + Send + Drop,
    J: Read + Send + Drop,
>(rt: &R, office: Office<L>, one: Saying<I>, other: Saying<J>) -> (Office<L>, bool)
    requires first { office.first.log ≡ office.first.asked }
    requires second { office.second.log ≡ office.second.asked }
{
    let Pair {
        shared,
        first,
        second,
    } = office;
    let lent = &shared;
    let (one, other) = join(
        rt,
        move || -> (Seat<L>, bool)
            requires exchange { first.exchange ≡ Some lent.now.word }
            requires told { first.log ≡ first.asked }
            ensures { result.0.exchange ≡ first.exchange }
        { hear(rt, lent, first, one) },
        move || -> (Seat<L>, bool)
            requires exchange { second.exchange ≡ Some lent.now.word }
            requires told { second.log ≡ second.asked }
            ensures { result.0.exchange ≡ second.exchange }
        { hear(rt, lent, second, other) },
    );
    let (first, is_right) = one;
    let (second, is_right_too) = other;
    let office = Pair {
        shared,
        first,
        second,
    };
    (office, is_right && is_right_too)
}

/// A reader that has what a client says, and what the client is to hear.
#[derive(Drop)]
pub struct Saying<I> {
    pub reader: I,
    pub hears: &'static str,
}

/// Serves such a client from a seat, which comes back, over a reader that counts how often it is
/// asked. Whether it hears that.
fn hear<L: ExchangeName, R: AllocGlobal + Clock + Threads + Wait + Sync, I: Read + Drop>(
    rt: &R,
    shared: &Exchange<L>,
    seat: Seat<L>,
    client: Saying<I>,
) -> (Seat<L>, bool)
    requires exchange { seat.exchange ≡ Some shared.now.word }
    requires told { seat.log ≡ seat.asked }
    ensures { result.0.exchange ≡ seat.exchange }
{
    let Saying { reader, hears } = client;
    let mut reader = CountedReader {
        reader,
        count: FailureCount::zero(),
    };
    let flushed = AtomicUsize::new(0);
    let mut listener = Listener::of(&Script::of("", hears, 0), &flushed);
    let (seat, fault) = back(serve(
        rt,
        rt.alloc(),
        shared,
        seat,
        &mut reader,
        &mut listener,
        &mut NoListener,
        WorkerCount::ONE,
    ));
    let is_right = listener.is_right();
    (seat, fault.is_none() && is_right)
}

/// The scripts of two clients, one after the other.
#[derive(Clone, Copy)]
pub struct Day {
    pub shape: &'static str,
    pub wires: FuseWires,
    /// Whether both have the same seat.
    pub is_one_seat: bool,
    pub scripts: [Script; 2],
}

/// How many entries an exchange has in its history, if it is closed.
fn entries_of(closed: Option<Closed<MemoryPort, FuseWires, OpenGate>>) -> Option<usize> {
    Some(closed?.book.history().len())
}

/// Plays both scripts at an exchange that is closed then. Whether all is as they say, and the
/// history has just their entries.
fn is_played<L: ExchangeName, R: AllocGlobal + Clock + Threads + Wait + Sync>(
    rt: &R,
    office: Office<L>,
    day: &Day,
) -> bool
    requires parts { L.parts ≡ ALL_PARTS }
    requires first { office.first.log ≡ office.first.asked }
    requires second { office.second.log ≡ office.second.asked }
{
    let [one, other] = &day.scripts;
    let entries = one.entries.saturating_add(other.entries);
    let (office, is_right) = play_both(rt, office, day);
    entries_of(close(rt.alloc(), office)) == Some(entries) && is_right
}

/// Whether both clients' day goes as it has to at an exchange on this rack.
fn spend<L: ExchangeName, R: AllocGlobal + Clock + Threads + Wait + Sync>(
    rt: &R,
    blank: ExchangeBlank,
    rack: Rack,
    day: &Day,
) -> bool
    requires named { IsNamed L.name L.parts L.table L.opening L.earlier blank (new_book_view rack) }
{
    match open_pair::<L, FuseWires, OpenGate>(rt.alloc(), blank, rack, with_wires(day.wires)) {
        Some(office) => is_played(rt, office, day),
        None => false,
    }
}

/// Whether all is as the scripts of two clients say, on a rack of zeros.
pub fn is_so<R: AllocGlobal + Clock + Threads + Wait + Sync>(rt: &R, plan: &Day) -> bool {
    match zeros(rt.alloc(), plan.shape) {
        Some(rack) => match ExchangeBlank::new(rt.alloc()) {
            Ok(blank) => spend::<Brand, R>(rt, blank, rack, plan),
            Err(_) => false,
        },
        None => false,
    }
}

/// Whether a client alone is served on the smallest rack as its script says.
pub fn is_served<R: AllocGlobal + Clock + Threads + Wait + Sync>(rt: &R, script: &Script) -> bool {
    let plan = Day {
        shape: "1x1x1",
        wires: NO_FUSE,
        is_one_seat: false,
        scripts: [*script, Script::of("", "", 0)],
    };
    is_so(rt, &plan)
}

//! Sessions side by side on one exchange, and its closing.
//!
//! The last reading of each seat and the closing of the exchange take no memory, and stand between
//! marks.

ghost use Rattle.std.specs.Prelude.{◌≡◌, All, Some};
ghost use Rattle.batch_book.specs.History.{new_book_view};
ghost use Rattle.batch_book.specs.Naming.{IsNamed};
ghost use Rattle.client_session.specs.Sessions.{seat_back};
ghost use Rattle.progress_word.specs.declared.limits.TheConstants.{ALL_PARTS};

use crate::marks::{begin, end};
use crate::plants::plant_of;
use batch::Shape;
use batch_book::{Closed, ExchangeBlank, ExchangeName, Seat, SeatMissing, Shared};
use client_session::{NoListener, ServeFault, serve};
use crossbar::MemoryPort;
use exchange_limits::WorkerCount;
use module_memory::Rack;
use peek_poke::PlainWires;
use schedule_certificate::OpenGate;
use std::alloc::{AllocError, Global};
use std::io::Write;
use std::marker::Brand;
use std::rt::Files;
use std::sync::{Mutex, Wait};
use std::thread::Threads;
use std::time::Clock;
use std::{fs, io, thread};

/// How many workers plan and run for each session: two.
fn workers() -> WorkerCount {
    WorkerCount::new(2).unwrap()
}

/// An exchange whose port and wires never fail.
type Exchange<L> = Shared<L, MemoryPort, PlainWires, OpenGate>;

/// What is left of it when it is closed.
type PlainClosed = Closed<MemoryPort, PlainWires, OpenGate>;

/// That, or why it isn't closed.
type Closing<L> = Result<PlainClosed, SeatMissing<L, MemoryPort, PlainWires, OpenGate>>;

/// The seat of a session that ended, and the fault that ended it, if one did.
fn back<L: ExchangeName>(
    served: Result<Seat<L>, (Seat<L>, ServeFault)>,
) -> (Seat<L>, Option<ServeFault>)
    ensures { result.0 ≡ seat_back served }
{
    match served {
        Ok(seat) => (seat, None),
        Err((seat, fault)) => (seat, Some(fault)),
    }
}

/// What the session of a number was told, and the fault that ended it, if one did.
#[derive(Drop)]
struct Told {
    session: usize,
    lines: Vec<u8>,
    fault: Option<ServeFault>,
}

/// A reading of the seat, between the marks.
fn read_between<L: ExchangeName, R: Eprint>(rt: &R, exchange: &Exchange<L>, seat: &mut Seat<L>)
    requires { seat.old.exchange ≡ Some exchange.now.word }
    ensures { seat.new.exchange ≡ seat.old.exchange }
{
    begin(rt);
    exchange.progress(seat);
    end(rt);
}

/// Serves the script of a seat to its end, and keeps what it was told, as far as there is memory.
fn serve_script<L: ExchangeName, R: AllocGlobal + Clock + Eprint + Threads + Wait + Sync>(
    rt: &R,
    exchange: &Exchange<L>,
    seat: Seat<L>,
    scripts: &[Vec<u8>],
    all: &Mutex<Vec<Told>>,
) -> Seat<L>
    requires exchange { seat.exchange ≡ Some exchange.now.word }
    requires told { seat.log ≡ seat.asked }
    ensures { result.exchange ≡ seat.exchange }
{
    let session = seat.session();
    let mut reader: &[u8] = match scripts.get(session) {
        Some(script) => script.as_slice(),
        None => &[],
    };
    let mut lines = Vec::new(rt.alloc());
    let (mut seat, fault) = back(serve(
        rt,
        rt.alloc(),
        exchange,
        seat,
        &mut reader,
        &mut lines,
        &mut NoListener,
        workers(),
    ));
    let _ = all.lock(rt).push(Told {
        session,
        lines,
        fault,
    });
    read_between(rt, exchange, &mut seat);
    seat
}

/// The lines of a session: `session I`, what it was told, and `ended ..` where a fault ended it.
fn push_told(text: &mut Vec<u8>, told: &Told) -> Result<(), AllocError> {
    let session = told.session;
    write!(text, "session {session}\n").map_err(|_| AllocError)?;
    text.extend_from_slice(told.lines.as_slice())?;
    if let Some(fault) = told.fault {
        write!(text, "ended {fault}\n").map_err(|_| AllocError)?;
    }
    Ok(())
}

/// What there is to say of a closing: that the exchange is closed, or why it isn't.
fn closing_words<L: ExchangeName>(closing: Closing<L>) -> &'static str {
    match closing {
        Ok(_closed) => "closed",
        Err(
            SeatMissing {
                exchange: _exchange,
                seats: _seats,
            },
        ) => "a seat is missing",
    }
}

/// Closes an exchange, between the marks, and tells whether it is closed.
fn close_between<L: ExchangeName, R: Eprint>(
    rt: &R,
    exchange: Exchange<L>,
    seats: Vec<Seat<L>>,
) -> &'static str
    requires parts { L.parts ≡ ALL_PARTS }
    requires seats { All (λ s. s.exchange ≡ Some exchange.word) seats.items }
{
    begin(rt);
    let closing = exchange.close(seats);
    end(rt);
    closing_words(closing)
}

/// Puts what all sessions were told, in whatever order they ended, and then whether their exchange
/// is closed, after a text.
fn push_all(text: &mut Vec<u8>, all: &[Told], closing: &str) -> Result<(), AllocError> {
    for told in all {
        push_told(text, told)?;
    }
    write!(text, "{closing}\n").map_err(|_| AllocError)
}

/// What all sessions were told, and then whether their exchange is closed, if there was memory for
/// it.
fn told_text(alloc: Global, all: Mutex<Vec<Told>>, closing: &str) -> Option<Vec<u8>> {
    let all = all.into_inner();
    let mut text = Vec::new(alloc);
    push_all(&mut text, all.as_slice(), closing).ok()?;
    Some(text)
}

/// Serves the scripts side by side on a new exchange, each in a thread of its own where it can be
/// had, and closes it.
fn serve_all<
    L: ExchangeName + Send + Sync,
    R: AllocGlobal + Clock + Eprint + Threads + Wait + Sync,
>(rt: &R, blank: ExchangeBlank, rack: Rack, scripts: &[Vec<u8>]) -> Option<Vec<u8>>
    requires { IsNamed L.name L.parts L.table L.opening L.earlier blank (new_book_view rack) }
{
    let made = Exchange::<L>::new(rt.alloc(), blank, rack, plant_of(workers()), scripts.len());
    let Ok((exchange, seats)) = made else {
        return None;
    };
    let all = Mutex::new(Vec::new(rt.alloc()));
    let (lent, kept) = (&exchange, &all);
    let one = |seat: Seat<L>| -> Seat<L>
        requires exchange { seat.exchange ≡ Some lent.now.word }
        requires told { seat.log ≡ seat.asked }
        ensures { result.exchange ≡ seat.exchange }
    { serve_script(rt, lent, seat, scripts, kept) };
    let Ok(seats) = thread::map_vec(rt, seats, &one) else {
        return None;
    };
    let closing = close_between(rt, exchange, seats);
    told_text(rt.alloc(), all, closing)
}

/// The files' bytes.
fn read_all<R: AllocGlobal + Files>(rt: &R, files: &[String]) -> io::Result<Vec<Vec<u8>>> {
    let mut scripts = Vec::new(rt.alloc());
    for file in files {
        let script = fs::read(rt, file.as_str())?;
        scripts.push(script)?;
    }
    Ok(scripts)
}

/// What is told of scripts that are served side by side on an exchange with a rack of zeros of this
/// shape, if they can be served.
fn served_text<R: AllocGlobal + Clock + Eprint + Threads + Wait + Sync>(
    rt: &R,
    shape: &str,
    scripts: &[Vec<u8>],
) -> Option<Vec<u8>> {
    let shape = Shape::read(shape.as_bytes()).ok()?;
    let rack = Rack::new(rt.alloc(), shape).ok()?;
    let blank = ExchangeBlank::new(rt.alloc()).ok()?;
    serve_all::<Brand, R>(rt, blank, rack, scripts)
}

/// Prints this text, or that there is none.
fn print_text<R: Print>(rt: &R, text: Option<&[u8]>) -> io::Result<()> {
    io::writer(rt).write_all(text.unwrap_or(b"not served\n"))
}

/// Serves the scripts of 1 to 16 files side by side on an exchange with a rack of zeros, and prints
/// what each session was told and whether the exchange is closed.
pub fn serve_side_by_side<R: AllocGlobal + Clock + Eprint + Files + Print + Threads + Wait + Sync>(
    rt: &R,
    shape: &str,
    files: &[String],
) -> io::Result<()> {
    let scripts = read_all(rt, files)?;
    let text = served_text(rt, shape, scripts.as_slice());
    print_text(rt, text.as_deref())
}

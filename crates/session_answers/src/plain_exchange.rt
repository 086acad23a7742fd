//! An exchange whose port and wires never fail: how it is opened, how a client has its session
//! there, and how it is closed.

ghost use Rattle.std.specs.Prelude.{◌≡◌, ◌≤◌, List, ℕ, IfOk, IfErr, length, map};
ghost use Rattle.std.specs.Io.KnownBytes.{Appends};
ghost use Rattle.progress_word.specs.declared.limits.TheConstants.{ALL_PARTS};
ghost use Rattle.batch_book.specs.Exchanges.{AreNew};
ghost use Rattle.batch_book.specs.History.{AreUnstopped, AreFewEntries};
ghost use Rattle.batch_book.specs.Naming.{IsNamed};
ghost use Rattle.batch_book.specs.Seats.{IsSameSeat};
ghost use Rattle.batch_book.specs.Values.{greatest};
ghost use Rattle.client_session.specs.Listening.{TellsOfRefusals};
ghost use Rattle.session_answers.specs.Histories.{part_of, HaveOneHistory, IsClosing};
ghost use Rattle.session_answers.specs.Hosting.{AreAllSeats, IsFresh, begun_at};
ghost use Rattle.session_answers.specs.Sessions.{IsServedSession};

use crate::closed_sessions::ClosedSessions;
use batch_book::{
    Book, Closed, ExchangeBlank, ExchangeName, History, MemoryHistory, Seat, SeatMissing, Shared,
};
use client_session::{Listener, ServeFault, serve};
use crossbar::MemoryPort;
use exchange_limits::{MAX_SESSIONS, WorkerCount};
use peek_poke::PlainWires;
use plan_answers::Answer;
use progress_word::ALL_PARTS;
use schedule_certificate::OpenGate;
use setting_runner::Plant;
use std::alloc::Global;
use std::io::{Read, Write};
use std::sync::Wait;
use std::thread::Threads;
use std::time::Clock;

/// What sessions run on: threads, locks that wait, and a clock.
pub trait SessionRuntime: Clock + Threads + Wait + Sync {}

impl<R: Clock + Threads + Wait + Sync> SessionRuntime for R {}

/// An exchange whose port and wires never fail.
pub type PlainExchange<L, K = MemoryHistory> = Shared<L, MemoryPort, PlainWires, OpenGate, K>;

/// An exchange over this book, and a seat for each of so many sessions. Where there is no memory
/// for it the book comes back as it was.
pub fn open_exchange<L: ExchangeName, K: History>(
    alloc: Global,
    blank: ExchangeBlank,
    book: Book<K>,
    workers: WorkerCount,
    sessions: usize,
) -> Result<(PlainExchange<L, K>, Vec<Seat<L>>), Book<K>>
    requires named { IsNamed L.name L.parts L.table L.opening L.earlier blank book }
    requires unstopped { AreUnstopped book.history }
    requires some { 1 ≤ sessions }
    requires few { sessions ≤ MAX_SESSIONS }
    ensures shape { IfOk result (λ made. made.0.shape ≡ book.machine.store.shape) }
    ensures seats { IfOk result (λ made. AreNew made.0.word (greatest L.earlier) sessions
        made.1.items) }
    ensures back { IfErr result (λ back. back ≡ book) }
{
    let plant = Plant {
        port: MemoryPort::new(),
        wires: PlainWires,
        gate: OpenGate,
        workers,
    };
    match Shared::of_book(alloc, blank, book, plant, sessions) {
        Ok(made) => Ok(made),
        Err((_, book, _, _)) => Err(book),
    }
}

/// Serves a client from a seat that has done nothing yet, to the session's end: gives the seat
/// back, and the fault that ended the session, where one did. The listener hears each command, and
/// each refusal.
pub fn serve_client<L: ExchangeName, K: History, R: SessionRuntime, I: Read, O: Write, H: Listener>(
    rt: &R,
    alloc: Global,
    exchange: &PlainExchange<L, K>,
    seat: Seat<L>,
    reader: &mut I,
    writer: &mut O,
    listener: &mut H,
    workers: WorkerCount,
) -> (Seat<L>, Option<ServeFault>)
    requires seat { IsFresh exchange.now seat }
    ensures same { IsSameSeat seat result.0 }
    ensures session { (told : List ℕ)
        × Appends (O.contents writer.old) (O.contents writer.new) told
        × IsServedSession (begun_at K.loses exchange.now seat.seen) (I.remaining reader.old)
        (I.remaining reader.new)
        (record { part = part_of result.0; told = told; fault = result.1 }) }
    ensures beside { TellsOfRefusals H.may_tell (H.told listener.old) (H.told listener.new) }
{
    match serve(rt, alloc, exchange, seat, reader, writer, listener, workers) {
        Ok(seat) => (seat, None),
        Err((seat, fault)) => (seat, Some(fault)),
    }
}

/// Closes the exchange after its sessions, which leave this book.
pub fn close_exchange<L: ExchangeName, K: History>(
    exchange: PlainExchange<L, K>,
    seats: Vec<Seat<L>>,
) -> Book<K>
    requires parts { L.parts ≡ ALL_PARTS }
    requires seats { AreAllSeats exchange seats.items }
    ensures one { HaveOneHistory K.loses L.opening L.earlier (map part_of seats.items) result }
    ensures few { AreFewEntries K.limited (length result.history) }
{
    match exchange.close(seats) {
        Ok(Closed { book, plant: _ }) => {
            // Parted only for the contract, which says that the history is legal, and what may be
            // lost.
            let (bare, history) = book.part();
            Book::go_on(bare, history)
        }
        Err(
            SeatMissing {
                exchange: _,
                seats: _,
            },
        ) => unreachable!(),
    }
}

/// Closes the exchange after its sessions, of which this text is printed, and one of which was
/// ended by a fault or none.
pub fn finish<L: ExchangeName, K: History>(
    exchange: PlainExchange<L, K>,
    seats: Vec<Seat<L>>,
    text: Vec<u8>,
    failed: bool,
) -> ClosedSessions<K>
    requires parts { L.parts ≡ ALL_PARTS }
    requires seats { AreAllSeats exchange seats.items }
    ensures closing { IsClosing K.loses L.opening L.earlier (map part_of seats.items) text.items
        failed result.answer result.book }
    ensures few { AreFewEntries K.limited (length result.book.history) }
{
    let book = close_exchange(exchange, seats);
    if failed {
        let answer = Answer::failed(text);
        return ClosedSessions { answer, book };
    }
    let answer = Answer::done(text);
    ClosedSessions { answer, book }
}

//! The command `serve`.

ghost use Rattle.std.specs.Prelude.{◌≡◌, ◌≤◌, false, IfOk, None, Some, length, map};
ghost use Rattle.batch_book.specs.Exchanges.{AreNew};
ghost use Rattle.batch_book.specs.History.{new_book_view};
ghost use Rattle.batch_book.specs.Naming.{IsNamed};
ghost use Rattle.batch_book.specs.Seats.{IsSameSeat};
ghost use Rattle.batch_book.specs.Values.{greatest};
ghost use Rattle.session_answers.specs.Hosting.{transcript, begun_at, IsSeatReady, AreServedAt};
ghost use Rattle.plan_answers.specs.Lent.{bytes_of};
ghost use Rattle.plan_answers.specs.Refusals.{Refuses};
ghost use Rattle.session_answers.specs.Serving.{HasItsScript, AreServed, IsServeAnswer};

use crate::closed_sessions::ClosedSessions;
use crate::frames::{frame, has_fault};
use crate::plain_exchange::{PlainExchange, SessionRuntime, finish, open_exchange, serve_client};
use crate::session::ScriptSession;
use batch_book::{Book, ExchangeBlank, ExchangeName, MemoryHistory, Seat};
use client_session::NoListener;
use exchange_limits::{MAX_SESSIONS, WorkerCount};
use plan_answers::Answer;
use progress_word::ALL_PARTS;
use rack_answers::read_rack;
use refusals::Refusal;
use std::alloc::{AllocError, Global};
use std::marker::Brand;
use std::thread;

/// What is left of scripts, once all have been served.
#[derive(Drop)]
pub struct Served {
    /// What their sessions were told, or the refusal.
    pub answer: Answer,
    /// The book of their exchange. There is none after a refusal.
    pub book: Option<Book>,
}

impl Served {
    /// A refusal, after which there is no book.
    fn refused(alloc: Global, refusal: Refusal) -> Result<Served, AllocError>
        ensures answer { IfOk result (λ served. Refuses refusal served.answer) }
        ensures book { IfOk result (λ served. served.book ≡ None) }
    {
        Ok(Served {
            answer: Answer::refused(alloc, refusal)?,
            book: None,
        })
    }
}

/// Serves the script at the place of the seat's session, to the session's end.
fn serve_script<L: ExchangeName, R: SessionRuntime>(
    rt: &R,
    alloc: Global,
    exchange: &PlainExchange<L>,
    seat: Seat<L>,
    scripts: &[Vec<u8>],
    workers: WorkerCount,
) -> ScriptSession<L>
    requires seat { IsSeatReady exchange.now (length scripts.now) seat }
    ensures same { IsSameSeat seat result.seat }
    ensures served { HasItsScript (begun_at false exchange.now seat.seen)
        (map (λ s. s.items) scripts.now) (transcript result) }
{
    let mut reader = scripts[seat.session()].as_slice();
    let mut told = Vec::new(alloc);
    let (seat, fault) = serve_client(
        rt,
        alloc,
        exchange,
        seat,
        &mut reader,
        &mut told,
        &mut NoListener,
        workers,
    );
    ScriptSession { seat, told, fault }
}

/// Serves the scripts side by side, one thread for each where it can be had. The sessions come in
/// the order of the scripts.
fn serve_all<L: ExchangeName + Send + Sync, R: SessionRuntime>(
    rt: &R,
    alloc: Global,
    exchange: &PlainExchange<L>,
    seats: Vec<Seat<L>>,
    scripts: &[Vec<u8>],
    workers: WorkerCount,
) -> Result<Vec<ScriptSession<L>>, AllocError>
    requires seats { AreNew exchange.now.word (greatest L.earlier) (length scripts.now)
        seats.items }
    ensures { IfOk result (λ sessions. AreServedAt exchange.now (greatest L.earlier)
        (map (λ s. s.items) scripts.now) sessions.items) }
{
    let one = |seat: Seat<L>| -> ScriptSession<L>
        requires { IsSeatReady exchange.now (length scripts.now) seat }
        ensures same { IsSameSeat seat result.seat }
        ensures served { HasItsScript (begun_at false exchange.entry.now seat.seen)
            (map (λ s. s.items) scripts.entry.now) (transcript result) }
    { serve_script(rt, alloc, exchange, seat, scripts, workers) };
    thread::map_vec(rt, seats, &one)
}

/// The seats of sessions.
fn seats_of<L: ExchangeName>(
    alloc: Global,
    sessions: Vec<ScriptSession<L>>,
) -> Result<Vec<Seat<L>>, AllocError>
    ensures { IfOk result (λ seats. seats.items ≡ map (λ s. s.seat) sessions.items) }
{
    sessions
        .into_iter()
        .map(|session| session.seat)
        .collect(alloc)
}

/// What is left of the scripts' sessions on one exchange over this book, which is new.
fn serve_scripts<L: ExchangeName + Send + Sync, R: SessionRuntime>(
    rt: &R,
    alloc: Global,
    blank: ExchangeBlank,
    book: Book,
    workers: WorkerCount,
    scripts: &[Vec<u8>],
) -> Result<ClosedSessions, AllocError>
    requires named { IsNamed L.name L.parts L.table L.opening L.earlier blank book }
    requires new { book ≡ new_book_view book.opening }
    requires some_scripts { 1 ≤ length scripts.now }
    requires few_scripts { length scripts.now ≤ MAX_SESSIONS }
    ensures { IfOk result (λ closing. AreServed book.opening (map (λ s. s.items) scripts.now)
        closing.answer (Some closing.book)) }
{
    let opened = open_exchange::<L, MemoryHistory>(alloc, blank, book, workers, scripts.len());
    let Ok((exchange, seats)) = opened else {
        return Err(AllocError);
    };
    let sessions = serve_all(rt, alloc, &exchange, seats, scripts, workers)?;
    let text = frame(alloc, sessions.as_slice())?;
    let failed = has_fault(sessions.as_slice());
    let seats = seats_of(alloc, sessions)?;
    Ok(finish(exchange, seats, text, failed))
}

/// The answer of `exchange serve`: what the sessions of the scripts were told, on one exchange that
/// has a rack of the shape which the shape text denotes, whose words are first those of the image
/// or, where there is none, 0; or the refusal of the shape, or else of the image.
///
/// There are 1 to [`MAX_SESSIONS`] scripts, of lines of at most
/// [`LINE_BYTES`](client_session::LINE_BYTES) bytes. Each is served in a thread of its own, or by
/// the caller where none can be had, and waits while the exchange answers the calls of the others;
/// planning and runs are given so many workers each. For each script, in order, comes the line
/// `session I`, and then what the session was told; where a fault ended it, a line `ended ..` says
/// so, and the status is [`REFUSED`](plan_answers::REFUSED). When all have ended the exchange is
/// closed.
pub fn answer_serve<R: SessionRuntime>(
    rt: &R,
    alloc: Global,
    shape: &[u8],
    image: Option<&[u8]>,
    workers: WorkerCount,
    scripts: &[Vec<u8>],
) -> Result<Served, AllocError>
    requires some_scripts { 1 ≤ length scripts.now }
    requires few_scripts { length scripts.now ≤ MAX_SESSIONS }
    ensures { IfOk result (λ served. IsServeAnswer shape.now (bytes_of image.entry)
        (map (λ s. s.items) scripts.now) served.answer served.book) }
{
    let rack = match read_rack(alloc, shape, image) {
        Ok(rack) => rack,
        Err(refusal) => return Served::refused(alloc, refusal),
    };
    let blank = ExchangeBlank::new(alloc)?;
    let Ok(book) = Book::new(alloc, rack) else {
        return Err(AllocError);
    };
    let ClosedSessions { answer, book } = serve_scripts::<Brand, R>(
        rt, alloc, blank, book, workers, scripts,
    )?;
    Ok(Served {
        answer,
        book: Some(book),
    })
}

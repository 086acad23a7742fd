//! The command `host`.

ghost use Rattle.std.specs.Prelude.{◌≡◌, ◌≤◌, ◌+◌, ◌++◌, [], true, IfOk, IfErr, IfSome, length};
ghost use Rattle.std.specs.Prelude.{OnErr, OnOk, map, vec_len, vec_capacity};
ghost use Rattle.std.specs.List.{list_any, range_with_len};
ghost use Rattle.batch_book.specs.History.{AreUnstopped};
ghost use Rattle.batch_book.specs.Naming.{IsNamed};
ghost use Rattle.session_answers.specs.Histories.{HaveOneHistory};
ghost use Rattle.session_answers.specs.HostAnswers.{AreHosted, IsUnhosted, seen_end, ending_line};
ghost use Rattle.session_answers.specs.HostAnswers.{hosted_heading, has_failed};
ghost use Rattle.session_answers.specs.HostTexts.{ends_text, room_of, session_room};
ghost use Rattle.session_answers.specs.HostedSessions.{AreEach, IsRoomFor};
ghost use Rattle.session_answers.specs.Passes.{client_names, no_passes};

use crate::client_streams::ClientStreams;
use crate::closed_sessions::ClosedSessions;
use crate::ended_session::Ending;
use crate::frames::{END_ROOM, end_line, put};
use crate::host_threads::{Endings, host_seats};
use crate::plain_exchange::{SessionRuntime, close_exchange, finish, open_exchange};
use batch_book::{Book, ExchangeBlank, ExchangeName, History, MemoryHistory};
use exchange_limits::{MAX_SESSIONS, WorkerCount};
use line_words::Line;
use progress_word::ALL_PARTS;
use refusals::Refusal;
use std::alloc::{AllocError, Global};
use std::marker::Brand;

/// What is left of a host.
#[derive(Drop)]
pub struct Hosted<C, K: History = MemoryHistory> {
    /// What is said of the sessions' ends, and the book.
    pub closing: ClosedSessions<K>,
    /// How the session of each client ended, in their order.
    pub endings: Vec<Ending<C>>,
}

/// Room for what is printed of a session, beside its client's name.
const SESSION_ROOM: usize = 50;

/// The line that tells how a session ended; nothing where it ended by itself.
fn ending_line<C>(ending: &Ending<C>) -> &'static [u8]
    ensures line { result.now ≡ ending_line ending.now }
    ensures room { length result.now ≤ END_ROOM }
{
    match ending {
        Ending::Unopened => b"ended open\n",
        Ending::Served { fault, .. } => end_line(*fault),
    }
}

/// Puts what is printed of a session at the end of the text, which has room for it.
fn put_hosted<D: ClientStreams>(
    text: &mut Vec<u8>,
    streams: &D,
    client: usize,
    ending: &Ending<D::Receipt>,
)
    requires { length text.old.items + session_room (D.known streams.now) client
        ≤ vec_capacity text.old }
    ensures text { text.new.items ≡ text.old.items
        ++ (hosted_heading (D.known streams.now) client ++ ending_line ending.now) }
    ensures room { length text.new.items
        ≤ length text.old.items + session_room (D.known streams.now) client }
    ensures capacity { vec_capacity text.old ≤ vec_capacity text.new }
{
    let mut heading = Line::new();
    heading.put(b"session ");
    heading.put_number(client as u64);
    heading.put(b" ");
    put(text, heading.as_bytes());
    put(text, streams.name(client).as_bytes());
    put(text, b"\n");
    put(text, ending_line(ending));
}

/// So much more room, for what is printed of the session of a client of this name.
fn more_room(room: usize, name: &str) -> Option<usize>
    ensures { IfSome result (λ more. more ≡ room + (SESSION_ROOM + length name.now)) }
{
    room.checked_add(SESSION_ROOM)?.checked_add(name.len())
}

/// An empty text with room for what is printed of all sessions, however they end.
fn room_for_text<D: ClientStreams>(alloc: Global, streams: &D) -> Result<Vec<u8>, AllocError>
    ensures empty { IfOk result (λ text. text.items ≡ []) }
    ensures room { IfOk result (λ text.
        room_of (D.known streams.now) (D.known streams.now).clients ≤ vec_capacity text) }
{
    let mut room = 0;
    for client in 0..streams.clients() {
        let Some(more) = more_room(room, streams.name(client)) else {
            return Err(AllocError);
        };
        room = more;
    }
    Vec::with_capacity(alloc, room)
}

/// What is printed of the sessions, one after another, in a text that has room for it.
fn ends_of<D: ClientStreams>(
    mut text: Vec<u8>,
    streams: &D,
    endings: &[Ending<D::Receipt>],
) -> Vec<u8>
    requires empty { text.items ≡ [] }
    requires room { room_of (D.known streams.now) (length endings.now) ≤ vec_capacity text }
    ensures { result.items ≡ ends_text (D.known streams.now) 0 endings.now }
{
    let mut client = 0;
    for ending in endings {
        put_hosted(&mut text, streams, client, ending);
        client += 1;
    }
    text
}

/// Whether a session didn't end by itself.
fn has_failed<C>(ending: &Ending<C>) -> bool
    ensures { result ≡ has_failed ending.now }
{
    match ending {
        Ending::Unopened => true,
        Ending::Served { fault, .. } => fault.is_some(),
    }
}

/// Whether one of the sessions didn't end by itself.
fn any_failed<C>(endings: &[Ending<C>]) -> bool
    ensures { result ≡ list_any has_failed endings.now }
{
    endings.iter().any(has_failed)
}

/// Room for how so many sessions end.
fn room_for_endings<L: ExchangeName, C: Drop>(
    alloc: Global,
    clients: usize,
) -> Result<Endings<L, C>, AllocError>
    ensures { IfOk result (λ back. IsRoomFor clients back) }
{
    Ok(Endings {
        seats: Vec::with_capacity(alloc, clients)?,
        endings: Vec::with_capacity(alloc, clients)?,
    })
}

/// A pass for each client, in their order.
fn passes_for<D: ClientStreams>(
    alloc: Global,
    streams: &D,
    desk: &mut D::Desk,
) -> Result<Vec<D::Pass>, AllocError>
    requires { D.passes desk.old ≡ no_passes }
    ensures passes { IfOk result (λ passes. AreEach (D.admits streams.now)
        (range_with_len 0 (D.known streams.now).clients) passes.items) }
    ensures given { OnOk result
        ((D.passes desk.new).given ≡ client_names (D.known streams.now)) }
    ensures unused { (D.passes desk.new).admitted ≡ [] }
{
    let mut passes = Vec::with_capacity(alloc, streams.clients())?;
    for client in 0..streams.clients() {
        passes.push(streams.pass(desk, client)).unwrap();
    }
    Ok(passes)
}

/// What is left of the sessions of the clients on an exchange over this book.
fn host<L: ExchangeName + Send + Sync, K: History + Send, R: SessionRuntime, D: ClientStreams>(
    rt: &R,
    alloc: Global,
    blank: ExchangeBlank,
    book: Book<K>,
    workers: WorkerCount,
    streams: &D,
    desk: &mut D::Desk,
) -> Result<Hosted<D::Receipt, K>, (Refusal, Book<K>)>
    requires named { IsNamed L.name L.parts L.table L.opening L.earlier blank book }
    requires unstopped { AreUnstopped book.history }
    requires no_passes { D.passes desk.old ≡ no_passes }
    requires some { 1 ≤ (D.known streams.now).clients }
    requires few { (D.known streams.now).clients ≤ MAX_SESSIONS }
    ensures hosted { IfOk result (λ hosted. AreHosted K.loses book (D.known streams.now)
        (map (seen_end D.received) hosted.endings.items) hosted.closing.answer
        hosted.closing.book) }
    ensures refusal { IfErr result (λ refused. IsUnhosted refused.0) }
    ensures back { IfErr result (λ refused.
        HaveOneHistory K.loses book.opening book.history [] refused.1) }
    ensures admitted { OnOk result
        ((D.passes desk.new).admitted ≡ client_names (D.known streams.now)) }
    ensures unused { OnErr result ((D.passes desk.new).admitted ≡ []) }
{
    // Asked for only for its contract, which says that the history is legal.
    book.log();
    // All memory is taken before a session begins, so that nothing fails after one.
    let Ok(text) = room_for_text(alloc, streams) else {
        return Err((Refusal::NoMemory, book));
    };
    let Ok(back) = room_for_endings(alloc, streams.clients()) else {
        return Err((Refusal::NoMemory, book));
    };
    let Ok(passes) = passes_for(alloc, streams, desk) else {
        return Err((Refusal::NoMemory, book));
    };
    let opened = open_exchange::<L, K>(alloc, blank, book, workers, streams.clients());
    let (exchange, seats) = match opened {
        Ok(made) => made,
        Err(book) => return Err((Refusal::NoMemory, book)),
    };
    match host_seats(rt, alloc, &exchange, seats, passes, streams, workers, back) {
        Ok(Endings { seats, endings }) => {
            streams.admit(desk);
            let text = ends_of(text, streams, endings.as_slice());
            let failed = any_failed(endings.as_slice());
            let closing = finish(exchange, seats, text, failed);
            Ok(Hosted { closing, endings })
        }
        Err((refusal, seats)) => Err((refusal, close_exchange(exchange, seats))),
    }
}

/// What `exchange host` leaves: the sessions of these clients, 1 to [`MAX_SESSIONS`], on one
/// exchange over this book, which may have entries. Each of these is durable, and tells of no run
/// that stopped.
///
/// Each client is served in a thread of its own, from the files that are opened for it there, once,
/// by the one pass that the desk gives for it. It waits for its own files, and while the exchange
/// answers a call of another. Planning and runs are given so many workers each. Reply lines are
/// written, and the writer flushed, before more of the client is read, as
/// [`serve`](client_session::serve) tells. For each client, in order, comes the line
/// `session I NAME`, and where a fault ended the session, or its files couldn't be opened, a line
/// `ended ..` that says so, under the status [`REFUSED`](plan_answers::REFUSED).
///
/// Where a thread can't be had, or there is no memory, no file is opened, and the book comes back
/// as sessions leave it that asked nothing. Nothing fails for want of memory after the sessions.
pub fn host_on<K: History + Send, R: SessionRuntime, D: ClientStreams>(
    rt: &R,
    alloc: Global,
    book: Book<K>,
    workers: WorkerCount,
    streams: &D,
    desk: &mut D::Desk,
) -> Result<Hosted<D::Receipt, K>, (Refusal, Book<K>)>
    requires whole { book.whole ≡ true }
    requires stand { book.durable ≡ book.history }
    requires unstopped { AreUnstopped book.history }
    requires no_passes { D.passes desk.old ≡ no_passes }
    requires some_clients { 1 ≤ (D.known streams.now).clients }
    requires few_clients { (D.known streams.now).clients ≤ MAX_SESSIONS }
    ensures hosted { IfOk result (λ hosted. AreHosted K.loses book (D.known streams.now)
        (map (seen_end D.received) hosted.endings.items) hosted.closing.answer
        hosted.closing.book) }
    ensures refusal { IfErr result (λ refused. IsUnhosted refused.0) }
    ensures back { IfErr result (λ refused.
        HaveOneHistory K.loses book.opening book.history [] refused.1) }
    ensures admitted { OnOk result
        ((D.passes desk.new).admitted ≡ client_names (D.known streams.now)) }
    ensures unused { OnErr result ((D.passes desk.new).admitted ≡ []) }
{
    let Ok(blank) = ExchangeBlank::new(alloc) else {
        // Asked for only for its contract, which says that the history is legal.
        book.log();
        return Err((Refusal::NoMemory, book));
    };
    host::<Brand, K, R, D>(rt, alloc, blank, book, workers, streams, desk)
}

//! The threads of a host: one for each client, which begins once all are there.

ghost use Rattle.std.specs.Prelude.{◌≡◌, ◌≤◌, ◌+◌, ◌++◌, [], All, List, IfOk, IfErr, length};
ghost use Rattle.std.specs.Prelude.{vec_capacity};
ghost use Rattle.std.specs.List.{range_with_len};
ghost use Rattle.std.specs.Vec.Iter.{into_iter_items};
ghost use Rattle.batch_book.specs.Exchanges.{AreNew};
ghost use Rattle.batch_book.specs.Seats.{SeatState};
ghost use Rattle.batch_book.specs.Values.{greatest};
ghost use Rattle.session_answers.specs.Hosting.{IsFresh};
ghost use Rattle.session_answers.specs.HostAnswers.{IsUnhosted};
ghost use Rattle.session_answers.specs.HostedSessions.{AreEach, IsOfSeat, IsThreadOf, IsReturned};
ghost use Rattle.session_answers.specs.HostedSessions.{HasReturned, HaveReturned, IsRoomFor};
ghost use Rattle.session_answers.specs.HostedSessions.{AreAllHosted, begins};

use crate::client_streams::ClientStreams;
use crate::ended_session::Ending;
use crate::plain_exchange::{PlainExchange, SessionRuntime, serve_client};
use crate::threads_started::ThreadsStarted;
use batch_book::{ExchangeName, History, Seat};
use client_session::NoListener;
use exchange_limits::WorkerCount;
use refusals::Refusal;
use std::alloc::Global;
use std::snapshot::Snapshot;
use std::sync::{OnceLock, OnceToken};
use std::thread;
use std::thread::{Promise, PromisedHandle, Scope};
use std::vec::IntoIter;

/// Whether all threads are there, and what shows it. It is decided once.
type Latch = OnceLock<Option<ThreadsStarted>>;

/// What the threads of a host share.
#[derive(Drop)]
struct HostContext<'a, L: ExchangeName, R, D, K: History> {
    rt: &'a R,
    alloc: Global,
    exchange: &'a PlainExchange<L, K>,
    streams: &'a D,
    workers: WorkerCount,
    latch: &'a Latch,
}

/// What comes back from the thread of a seat.
#[derive(Drop)]
pub struct Returned<'a, L: ExchangeName, C> {
    seat: Seat<L>,
    // How its session ended, where all threads were there.
    ending: Option<Ending<C>>,
    decided: OnceToken<'a, Option<ThreadsStarted>>,
}

/// That a thread gives back this seat.
#[derive(Drop)]
pub struct OfSeat<L: ExchangeName, D, K: History> {
    exchange: Snapshot<PlainExchange<L, K>>,
    streams: Snapshot<D>,
    latch: Snapshot<Latch>,
    seat: Snapshot<Seat<L>>,
}

impl<'a, L: ExchangeName, D: ClientStreams, K: History> Promise<Returned<'a, L, D::Receipt>>
    for OfSeat<L, D, K> {
    ghost kept_by = { λ p returned. IsReturned K.loses p.exchange.value (D.known p.streams.value)
        D.received p.latch.value.id p.seat.value returned };
}

/// The thread of a seat.
#[derive(Drop)]
pub enum SeatThread<'a, L: ExchangeName, D: ClientStreams, K: History> {
    /// It began.
    Started(PromisedHandle<Returned<'a, L, D::Receipt>, OfSeat<L, D, K>>),
    /// It couldn't be had. This is what it would give back.
    Refused(Returned<'a, L, D::Receipt>),
}

/// What is kept of sessions as they end.
#[derive(Drop)]
pub struct Endings<L: ExchangeName, C> {
    /// The seats of all, in order.
    pub seats: Vec<Seat<L>>,
    /// How they ended, in order; nothing where none began.
    pub endings: Vec<Ending<C>>,
}

/// Whether it was decided that all threads of so many clients are there.
fn begins<'a>(
    latch: &'a Latch,
    decided: &OnceToken<'a, Option<ThreadsStarted>>,
    clients: usize,
) -> bool
    requires { decided.now.of ≡ latch.now.id }
    ensures { result ≡ begins clients decided.now.value }
{
    match *latch.value(decided) {
        Some(there) => there.threads() == clients,
        None => false,
    }
}

/// Serves the client of a seat, once it has opened its files by its pass.
fn host_client<L: ExchangeName, R: SessionRuntime, D: ClientStreams, K: History>(
    context: &HostContext<'_, L, R, D, K>,
    there: ThreadsStarted,
    seat: Seat<L>,
    pass: D::Pass,
) -> (Seat<L>, Ending<D::Receipt>)
    requires there { there.threads ≡ (D.known context.now.streams.now).clients }
    requires seat { IsFresh context.now.exchange.now seat }
    requires pass { D.admits context.now.streams.now seat.session pass }
    ensures { IsOfSeat K.loses context.now.exchange.now (D.known context.now.streams.now)
        D.received seat result }
{
    let Ok((mut reader, mut writer)) = context.streams.open(there, seat.session(), pass) else {
        return (seat, Ending::Unopened);
    };
    let (seat, fault) = serve_client(
        context.rt,
        context.alloc,
        context.exchange,
        seat,
        &mut reader,
        &mut writer,
        &mut NoListener,
        context.workers,
    );
    let receipt = context.streams.close(writer);
    (seat, Ending::Served { fault, receipt })
}

/// Waits until it is decided whether all threads are there. Serves the client of a seat where they
/// are, or leaves its files closed where they aren't.
fn wait_and_host<'a, L: ExchangeName, R: SessionRuntime, D: ClientStreams, K: History>(
    context: &HostContext<'a, L, R, D, K>,
    seat: Seat<L>,
    pass: D::Pass,
) -> Returned<'a, L, D::Receipt>
    requires seat { IsFresh context.now.exchange.now seat }
    requires pass { D.admits context.now.streams.now seat.session pass }
    ensures { IsReturned K.loses context.now.exchange.now (D.known context.now.streams.now)
        D.received context.now.latch.now.id seat result }
{
    let latch = context.latch;
    latch.wait(context.rt);
    // It is decided, so this shows how.
    let decided = latch.init(context.rt, || None);
    match *latch.value(&decided) {
        Some(there) if there.threads() == context.streams.clients() => {
            let (seat, ending) = host_client(context, there, seat, pass);
            Returned {
                seat,
                ending: Some(ending),
                decided,
            }
        }
        _ => Returned {
            seat,
            ending: None,
            decided,
        },
    }
}

/// Gives a seat a thread, with its pass, which waits for the latch. Where it can't be had no
/// session begins, and the seat is there at once.
fn start<
    's,
    E,
    L: ExchangeName + Send + Sync,
    R: SessionRuntime,
    D: ClientStreams,
    K: History + Send,
>(
    scope: &Scope<'s, E>,
    context: &'s HostContext<'s, L, R, D, K>,
    seat: Seat<L>,
    pass: D::Pass,
) -> SeatThread<'s, L, D, K>
    requires seat { IsFresh context.now.exchange.now seat }
    requires pass { D.admits context.now.streams.now seat.session pass }
    ensures { IsThreadOf K.loses D.known D.received context.now.exchange.now
        (D.known context.now.streams.now) context.now.latch.now.id seat result }
{
    let promise = OfSeat {
        exchange: Snapshot::of(context.exchange),
        streams: Snapshot::of(context.streams),
        latch: Snapshot::of(context.latch),
        seat: Snapshot::of(&seat),
    };
    let serve = move || -> Returned<L, D::Receipt>
        requires seat { IsFresh context.now.exchange.now seat }
        requires pass { D.admits context.now.streams.now seat.session pass }
    { wait_and_host(context, seat, pass) };
    match scope.spawn_with(promise, serve) {
        Ok(thread) => SeatThread::Started(thread),
        Err(refused) => {
            context.latch.init(context.rt, || None);
            SeatThread::Refused((refused.value)())
        }
    }
}

/// Gives each of the seats that are left a thread and its pass, for which there is room, after the
/// others.
fn start_rest<
    's,
    E,
    L: ExchangeName + Send + Sync,
    R: SessionRuntime,
    D: ClientStreams,
    K: History + Send,
>(
    scope: &Scope<'s, E>,
    context: &'s HostContext<'s, L, R, D, K>,
    mut left: IntoIter<Seat<L>>,
    mut passes: IntoIter<D::Pass>,
    mut threads: Vec<SeatThread<'s, L, D, K>>,
) -> Vec<SeatThread<'s, L, D, K>>
    requires room { length threads.items + length (into_iter_items left) ≤ vec_capacity threads }
    requires seats { All (IsFresh context.now.exchange.now) (into_iter_items left) }
    requires passes { AreEach (λ seat. D.admits context.now.streams.now seat.session)
        (into_iter_items left) (into_iter_items passes) }
    ensures { (started : List SeatState) → AreEach (IsThreadOf K.loses D.known D.received
        context.now.exchange.now (D.known context.now.streams.now) context.now.latch.now.id)
        started threads.entry.items
        → AreEach (IsThreadOf K.loses D.known D.received context.now.exchange.now
        (D.known context.now.streams.now) context.now.latch.now.id)
        (started ++ into_iter_items left) result.items }
{
    let Some(seat) = left.next() else {
        return threads;
    };
    let Some(pass) = passes.next() else {
        return threads;
    };
    threads.push(start(scope, context, seat, pass)).unwrap();
    start_rest(scope, context, left, passes, threads)
}

/// What comes back from a seat's thread, once it has ended: its session, where this is what was
/// decided.
fn join<'s, L: ExchangeName, R: SessionRuntime, D: ClientStreams, K: History>(
    context: &'s HostContext<'s, L, R, D, K>,
    started: SeatThread<'s, L, D, K>,
    decided: &OnceToken<'s, Option<ThreadsStarted>>,
) -> (Seat<L>, Option<Ending<D::Receipt>>)
    requires decided { decided.now.of ≡ context.now.latch.now.id }
    requires started { (seat : SeatState) × IsThreadOf K.loses D.known D.received
        context.now.exchange.now (D.known context.now.streams.now) context.now.latch.now.id
        seat started }
    ensures { (seat : SeatState) → IsThreadOf K.loses D.known D.received
        context.now.exchange.now (D.known context.now.streams.now) context.now.latch.now.id
        seat started.entry
        → HasReturned K.loses context.now.exchange.now (D.known context.now.streams.now)
        D.received (begins (D.known context.now.streams.now).clients decided.now.value) seat
        result.0 result.1 }
{
    let returned = match started {
        SeatThread::Started(thread) => thread.join(context.rt),
        SeatThread::Refused(returned) => returned,
    };
    let Returned {
        seat,
        ending,
        decided: shown,
    } = returned;
    shown.agrees(decided);
    (seat, ending)
}

/// What comes back from the threads of seats, once all have ended, where there is room for it.
fn join_all<'s, L: ExchangeName, R: SessionRuntime, D: ClientStreams, K: History>(
    context: &'s HostContext<'s, L, R, D, K>,
    threads: Vec<SeatThread<'s, L, D, K>>,
    decided: &OnceToken<'s, Option<ThreadsStarted>>,
    mut back: Endings<L, D::Receipt>,
) -> Endings<L, D::Receipt>
    requires decided { decided.now.of ≡ context.now.latch.now.id }
    requires started { (seats : List SeatState) × AreEach (IsThreadOf K.loses D.known D.received
        context.now.exchange.now (D.known context.now.streams.now) context.now.latch.now.id)
        seats threads.items }
    requires no_seats { back.seats.items ≡ [] }
    requires no_endings { back.endings.items ≡ [] }
    requires room_for_seats { length threads.items ≤ vec_capacity back.seats }
    requires room_for_endings { length threads.items ≤ vec_capacity back.endings }
    ensures { (seats : List SeatState) → AreEach (IsThreadOf K.loses D.known D.received
        context.now.exchange.now (D.known context.now.streams.now) context.now.latch.now.id)
        seats threads.entry.items
        → HaveReturned K.loses context.now.exchange.now (D.known context.now.streams.now)
        D.received (begins (D.known context.now.streams.now).clients decided.now.value) seats
        result.seats.items result.endings.items }
{
    for started in threads {
        let (seat, ending) = join(context, started, decided);
        back.seats.push(seat).unwrap();
        if let Some(ending) = ending {
            back.endings.push(ending).unwrap();
        }
    }
    back
}

/// Serves the clients of these seats side by side, each by its pass, once each has a thread. Their
/// seats come back where one of these can't be had.
fn host_all<
    's,
    E,
    L: ExchangeName + Send + Sync,
    R: SessionRuntime,
    D: ClientStreams,
    K: History + Send,
>(
    scope: &Scope<'s, E>,
    context: &'s HostContext<'s, L, R, D, K>,
    seats: Vec<Seat<L>>,
    passes: Vec<D::Pass>,
    back: Endings<L, D::Receipt>,
) -> Result<Endings<L, D::Receipt>, (Refusal, Vec<Seat<L>>)>
    requires seats { AreNew context.now.exchange.now.word
        (greatest L.earlier) (D.known context.now.streams.now).clients seats.items }
    requires passes { AreEach (D.admits context.now.streams.now)
        (range_with_len 0 (D.known context.now.streams.now).clients) passes.items }
    requires room { IsRoomFor (D.known context.now.streams.now).clients back }
    ensures hosted { IfOk result (λ back. AreAllHosted K.loses context.now.exchange.now
        (greatest L.earlier)
        (D.known context.now.streams.now) D.received back.seats.items back.endings.items) }
    ensures refusal { IfErr result (λ refused. IsUnhosted refused.0) }
    ensures back { IfErr result (λ refused. AreNew context.now.exchange.now.word
        (greatest L.earlier) (D.known context.now.streams.now).clients refused.1.items) }
{
    let Ok(threads) = Vec::with_capacity(context.alloc, seats.len()) else {
        return Err((Refusal::NoMemory, seats));
    };
    let threads = start_rest(
        scope,
        context,
        seats.into_iter(),
        passes.into_iter(),
        threads,
    );
    let shown = ThreadsStarted::of(threads.as_slice());
    let decided = context.latch.init(context.rt, move || shown);
    let back = join_all(context, threads, &decided, back);
    if begins(context.latch, &decided, context.streams.clients()) {
        return Ok(back);
    }
    Err((Refusal::Threads, back.seats))
}

/// The sessions of the clients of these seats by their passes, where there is room for how they
/// end.
pub fn host_seats<
    'a,
    L: ExchangeName + Send + Sync,
    R: SessionRuntime,
    D: ClientStreams,
    K: History + Send,
>(
    rt: &'a R,
    alloc: Global,
    exchange: &'a PlainExchange<L, K>,
    seats: Vec<Seat<L>>,
    passes: Vec<D::Pass>,
    streams: &'a D,
    workers: WorkerCount,
    back: Endings<L, D::Receipt>,
) -> Result<Endings<L, D::Receipt>, (Refusal, Vec<Seat<L>>)>
    requires seats { AreNew exchange.now.word (greatest L.earlier)
        (D.known streams.now).clients seats.items }
    requires passes { AreEach (D.admits streams.now)
        (range_with_len 0 (D.known streams.now).clients) passes.items }
    requires room { IsRoomFor (D.known streams.now).clients back }
    ensures hosted { IfOk result (λ back. AreAllHosted K.loses exchange.now
        (greatest L.earlier)
        (D.known streams.now) D.received back.seats.items back.endings.items) }
    ensures refusal { IfErr result (λ refused. IsUnhosted refused.0) }
    ensures back { IfErr result (λ refused. AreNew exchange.now.word
        (greatest L.earlier) (D.known streams.now).clients refused.1.items) }
{
    let latch = OnceLock::new();
    let all = HostContext {
        rt,
        alloc,
        exchange,
        streams,
        workers,
        latch: &latch,
    };
    let context = &all;
    thread::scope(
        thread::scope_env(),
        rt,
        move |scope| -> Result<Endings<L, D::Receipt>, (Refusal, Vec<Seat<L>>)>
            requires seats { AreNew context.now.exchange.now.word
                (greatest L.earlier) (D.known context.now.streams.now).clients
                seats.items }
            requires passes { AreEach (D.admits context.now.streams.now)
                (range_with_len 0 (D.known context.now.streams.now).clients) passes.items }
            requires room { IsRoomFor (D.known context.now.streams.now).clients back }
            ensures hosted { IfOk result (λ back. AreAllHosted K.loses
                context.entry.now.exchange.now (greatest L.earlier)
                (D.known context.entry.now.streams.now) D.received back.seats.items
                back.endings.items) }
            ensures refusal { IfErr result (λ refused. IsUnhosted refused.0) }
            ensures back { IfErr result (λ refused. AreNew context.entry.now.exchange.now.word
                (greatest L.earlier) (D.known context.entry.now.streams.now).clients
                refused.1.items) }
        { host_all(scope, context, seats, passes, back) },
    )
}

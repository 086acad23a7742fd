//! The session.

ghost use Rattle.std.specs.Prelude.{◌≡◌, ◌<◌, ◌≤◌, ◌+◌, [], true, false, Some, IfSome, OnOk, OnErr};
ghost use Rattle.std.specs.Prelude.{IfOk, IfErr, length};
ghost use Rattle.std.specs.Io.KnownBytes.{Appends};
ghost use Rattle.byte_streams.specs.Writing.{IsCutShort};
ghost use Rattle.line_words.specs.declared.limits.TheConstants.{LINE_ROOM};
ghost use Rattle.batch_book.specs.Seats.{IsSameSeat};
ghost use Rattle.client_session.specs.Asking.{AsksWithinLimit};
ghost use Rattle.client_session.specs.Bytes.{HasLine};
ghost use Rattle.client_session.specs.Listening.{TellsOfRefusals};
ghost use Rattle.client_session.specs.Seats.{seat_view};
ghost use Rattle.client_session.specs.Sessions.{HasEnded, HoldsAtEnd, GoesThrough, IsAllRecorded};
ghost use Rattle.client_session.specs.Sessions.{IsServed, cuts_off, fault_in, seat_back};
ghost use Rattle.client_session.specs.Sessions.{fault_back};
ghost use Rattle.client_session.specs.Commands.{is_immediate};
ghost use Rattle.client_session.specs.Steps.{IsFront, AreTold, AreUntold, MayTell};
ghost use Rattle.client_session.specs.declared.limits.TheConstants.{REPLY_BUFFER_BYTES, LINE_BYTES};

use crate::command::SessionCommand;
use crate::counted_read::CountedRead;
use crate::exchange_seat::ExchangeSeat;
use crate::fault::ServeFault;
use crate::input::Input;
use crate::listener::Listener;
use crate::pending_line::PendingLine;
use crate::reply_buffer::ReplyBuffer;
use crate::reply_line::ReplyLine;
use crate::setup::{Parts, Setup};
use crate::turns::turn;
use batch_book::{ExchangeName, History, Seat, Shared};
use byte_streams::write_bytes;
use crossbar::ConfigPort;
use exchange_limits::WorkerCount;
use peek_poke::WireMaker;
use refusals::Refusal;
use schedule_certificate::Gate;
use std::alloc::Global;
use std::io::Write;
use std::sync::Wait;
use std::thread::Threads;
use std::time::Clock;

/// Writes the bytes, where there are any.
fn send<O: Write>(writer: &mut O, bytes: &[u8]) -> Result<(), ServeFault>
    ensures ok { OnOk result (Appends (O.contents writer.old) (O.contents writer.new) bytes.now) }
    ensures fault { IfErr result (λ e. e ≡ ServeFault.Write) }
    ensures some { OnErr result (0 < length bytes.now) }
    ensures err { OnErr result
        (IsCutShort (O.contents writer.old) (O.contents writer.new) bytes.now) }
{
    if bytes.is_empty() {
        return Ok(());
    }
    match write_bytes(writer, bytes) {
        Ok(()) => Ok(()),
        Err(_) => Err(ServeFault::Write),
    }
}

/// Tells of a refusal, where there is one.
fn tell_refusal<H: Listener>(listener: &mut H, refusal: Option<Refusal>)
    ensures { TellsOfRefusals H.may_tell (H.told listener.old) (H.told listener.new) }
{
    if let Some(refusal) = refusal {
        listener.on_refusal(refusal);
    }
}

/// Syncs the seat, and then writes the buffered lines together. The listener is called with the
/// refusal that the last line says.
fn send_replies<R: Wait + Clock, X: Setup, O: Write, H: Listener>(
    rt: &R,
    seat: &mut ExchangeSeat<'_, X>,
    writer: &mut O,
    listener: &mut H,
    held: &mut ReplyBuffer,
) -> Result<(), ServeFault>
    ensures ok { OnOk result (AreTold seat.old seat.new (O.contents writer.old)
        (O.contents writer.new) held.old) }
    ensures none { OnOk result (held.new ≡ []) }
    ensures err { IfErr result (λ e. AreUntold e seat.old seat.new (O.contents writer.old)
        (O.contents writer.new) held.old) }
    ensures loses { IfErr result (λ e. e ≡ ServeFault.Record → X.Entries.loses ≡ true) }
    ensures beside { TellsOfRefusals H.may_tell (H.told listener.old) (H.told listener.new) }
{
    let lines = held.as_bytes();
    seat.sync(rt)?;
    send(writer, lines)?;
    tell_refusal(listener, held.clear());
    Ok(())
}

/// Whether what the pending line commands is answered at once: it is immediate, and the lines of a
/// batch are there.
fn is_at_once(input: &Input, command: Option<SessionCommand>) -> bool
    ensures { result ≡ true → IfSome command (λ c. is_immediate c ≡ true) }
{
    match command {
        Some(SessionCommand::Batch(count)) => input.has_lines(count),
        Some(command) => command.is_immediate(),
        None => true,
    }
}

/// The pending line, where what it commands is answered at once.
fn quick_front(input: &Input) -> Option<PendingLine>
    ensures front { IfSome result (IsFront input.now.pending) }
    ensures quick { IfSome result (λ front. IfSome front.command (λ c. is_immediate c ≡ true)) }
{
    let length = input.line_length()?;
    let command = SessionCommand::read(&input.pending()[..length]);
    if !is_at_once(input, command) {
        return None;
    }
    Some(PendingLine { length, command })
}

/// The pending line, which has this length. What it commands is read where it wasn't found before.
fn front_of(input: &Input, length: usize, found: Option<PendingLine>) -> PendingLine
    requires line { HasLine input.now.pending length × (length ≤ LINE_BYTES) }
    requires found { IfSome found (IsFront input.now.pending) }
    ensures { IsFront input.now.pending result }
{
    if let Some(front) = found {
        return front;
    }
    PendingLine {
        length,
        command: SessionCommand::read(&input.pending()[..length]),
    }
}

/// Sends the buffered lines, where no more are to be buffered before the next command. Else it
/// gives that one's line.
fn send_replies_if_due<R: Wait + Clock, X: Setup, O: Write, H: Listener>(
    rt: &R,
    seat: &mut ExchangeSeat<'_, X>,
    input: &Input,
    writer: &mut O,
    listener: &mut H,
    held: &mut ReplyBuffer,
) -> Result<Option<PendingLine>, ServeFault>
    ensures ok { OnOk result (MayTell seat.old seat.new (O.contents writer.old)
        (O.contents writer.new) held.old held.new) }
    ensures room { OnOk result (length held.new + LINE_ROOM ≤ REPLY_BUFFER_BYTES) }
    ensures found { IfOk result (λ found. IfSome found (IsFront input.now.pending)) }
    ensures err { IfErr result (λ e. AreUntold e seat.old seat.new (O.contents writer.old)
        (O.contents writer.new) held.old) }
    ensures loses { IfErr result (λ e. e ≡ ServeFault.Record → X.Entries.loses ≡ true) }
    ensures beside { TellsOfRefusals H.may_tell (H.told listener.old) (H.told listener.new) }
{
    if held.has_room() && seat.has_pending() && !held.refuses() {
        if let Some(front) = quick_front(input) {
            return Ok(Some(front));
        }
    }
    send_replies(rt, seat, writer, listener, held)?;
    Ok(None)
}

/// Serves the session of a seat at its exchange, but for its last reply lines, which are held.
fn serve_lines<R: Clock + Threads + Wait + Sync, X: Setup, I: CountedRead, O: Write, H: Listener>(
    rt: &R,
    alloc: Global,
    seat: &mut ExchangeSeat<'_, X>,
    reader: &mut I,
    writer: &mut O,
    listener: &mut H,
    workers: WorkerCount,
    held: &mut ReplyBuffer,
) -> Result<(), ServeFault>
    requires { held.old ≡ [] }
    ensures session { IsAllRecorded seat.old → GoesThrough (I.remaining reader.old)
        (I.remaining reader.new) (O.contents writer.old) (O.contents writer.new) seat.old seat.new
        (HoldsAtEnd (fault_in result) (I.remaining reader.new) held.new seat.old seat.new) }
    ensures asks { AsksWithinLimit (I.asked reader.old) (I.asked reader.new) (fault_in result) }
    ensures loses { fault_in result ≡ Some ServeFault.Record → X.Entries.loses ≡ true }
    ensures beside { TellsOfRefusals H.may_tell (H.told listener.old) (H.told listener.new) }
{
    let mut input = Input::new();
    let mut line = ReplyLine::new();
    loop {
        let found = send_replies_if_due(rt, seat, &input, writer, listener, held)?;
        let Some(n) = input.next_line(reader, found)? else {
            return Ok(());
        };
        let front = front_of(&input, n, found);
        line.clear();
        let ends = turn(
            rt, alloc, seat, &mut input, reader, listener, &mut line, front, workers,
        )?;
        held.put(&line);
        if ends {
            return Ok(());
        }
    }
}

/// Whether a session that ended so tells no more.
fn is_cut_off(ended: &Result<(), ServeFault>) -> bool
    ensures { result ≡ cuts_off (fault_in ended.now) }
{
    match ended {
        Err(ServeFault::Write) | Err(ServeFault::Record) => true,
        _ => false,
    }
}

/// Serves the session of a seat at its exchange.
fn serve_seat<R: Clock + Threads + Wait + Sync, X: Setup, I: CountedRead, O: Write, H: Listener>(
    rt: &R,
    alloc: Global,
    seat: &mut ExchangeSeat<'_, X>,
    reader: &mut I,
    writer: &mut O,
    listener: &mut H,
    workers: WorkerCount,
) -> Result<(), ServeFault>
    ensures session { IsAllRecorded seat.old → GoesThrough (I.remaining reader.old)
        (I.remaining reader.new) (O.contents writer.old) (O.contents writer.new) seat.old seat.new
        (HasEnded (fault_in result) (I.remaining reader.new) seat.old seat.new) }
    ensures asks { AsksWithinLimit (I.asked reader.old) (I.asked reader.new) (fault_in result) }
    ensures loses { fault_in result ≡ Some ServeFault.Record → X.Entries.loses ≡ true }
    ensures beside { TellsOfRefusals H.may_tell (H.told listener.old) (H.told listener.new) }
{
    let mut held = ReplyBuffer::new();
    let ended = serve_lines(
        rt, alloc, seat, reader, writer, listener, workers, &mut held,
    );
    if is_cut_off(&ended) {
        return ended;
    }
    send_replies(rt, seat, writer, listener, &mut held).and(ended)
}

/// Serves the session of one client from a seat: reads its commands, and writes a reply line to
/// each. The seat comes back, whether the session ended by itself, after a whole command or by
/// `bye`, or by a fault.
///
/// Each line is written before the next command is looked at. But where entries may wait to be
/// recorded, the commands that are there are done at once, and their lines are held until all are
/// recorded, and written together: before more is read, before a plan, a run, or a batch that isn't
/// all there, and after a refusal.
///
/// A client that asks for a plan has it made by so many workers, outside the exchange's lock. A
/// reply takes no memory, so none is lost for want of it whose call was made; want of memory is a
/// reply, but for the text of a batch, where it ends the session. A broken record ends it too: no
/// reply is written that isn't recorded.
///
/// The listener hears each command, and each line that is none, before it is done, and each refusal
/// after its reply line. What it tells stands after what it had told, and is told of such
/// refusals alone.
///
/// The reader is asked at most [`MAX_READS`](crate::MAX_READS) times. Where it has been, and would
/// have to be asked once more, the session ends with `Turns`.
///
/// A command takes time by its lines and by its call, whatever the session has said before it.
pub fn serve<
    R: Clock + Threads + Wait + Sync,
    L: ExchangeName,
    P: ConfigPort,
    W: WireMaker + Sync,
    G: Gate + Sync,
    K: History,
    I: CountedRead,
    O: Write,
    H: Listener,
>(
    rt: &R,
    alloc: Global,
    shared: &Shared<L, P, W, G, K>,
    seat: Seat<L>,
    reader: &mut I,
    writer: &mut O,
    listener: &mut H,
    workers: WorkerCount,
) -> Result<Seat<L>, (Seat<L>, ServeFault)>
    requires seat { seat.exchange ≡ Some shared.now.word }
    requires told { seat.log ≡ seat.asked }
    ensures seat { IsSameSeat seat (seat_back result) }
    ensures session { IsServed (seat_view K.loses shared.now.shape) seat result
        (I.remaining reader.old) (I.remaining reader.new)
        (O.contents writer.old) (O.contents writer.new) }
    ensures told { K.loses ≡ false → (seat_back result).log ≡ (seat_back result).asked }
    ensures asks { AsksWithinLimit (I.asked reader.old) (I.asked reader.new) (fault_back result) }
    ensures loses { fault_back result ≡ Some ServeFault.Record → K.loses ≡ true }
    ensures beside { TellsOfRefusals H.may_tell (H.told listener.old) (H.told listener.new) }
{
    let mut exchange_seat = ExchangeSeat::<Parts<L, P, W, G, K>>::new(shared, seat);
    let ended = serve_seat(
        rt,
        alloc,
        &mut exchange_seat,
        reader,
        writer,
        listener,
        workers,
    );
    let seat = exchange_seat.into_seat();
    match ended {
        Ok(()) => Ok(seat),
        Err(fault) => Err((seat, fault)),
    }
}

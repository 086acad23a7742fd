//! One command with the lines that belong to it.

ghost use Rattle.std.specs.Prelude.{◌≡◌, ◌+◌, ◌<◌, ◌≤◌, length, take, [], Some, IfOk, IfErr, OnOk};
ghost use Rattle.std.specs.Prelude.{MatchOption, MatchBool, true, false};
ghost use Rattle.client_session.specs.Asking.{GivesOrStops};
ghost use Rattle.client_session.specs.Bytes.{HasLine, fuel};
ghost use Rattle.client_session.specs.Turns.{SessionGoesOn};
ghost use Rattle.client_session.specs.Sessions.{BeginsBatch};
ghost use Rattle.client_session.specs.Steps.{IsFront, StandsAlone, LinesTaken, LinesStopped};
ghost use Rattle.client_session.specs.Steps.{TurnTaken, TurnFails};

use crate::answering::{answer, submit};
use crate::command::SessionCommand;
use crate::counted_read::CountedRead;
use crate::exchange_seat::ExchangeSeat;
use crate::fault::ServeFault;
use crate::input::Input;
use crate::limits::{INPUT_BYTES, LINE_BYTES, MAX_READS};
use crate::listener::Listener;
use crate::pending_line::PendingLine;
use crate::reply_line::ReplyLine;
use crate::setup::Setup;
use batch::MAX_TRANSFERS;
use exchange_limits::WorkerCount;
use std::alloc::Global;
use std::sync::Wait;
use std::thread::Threads;

/// Takes so many lines, and puts them after the text.
fn take_lines<I: CountedRead>(
    input: &mut Input,
    reader: &mut I,
    text: &mut Vec<u8>,
    count: usize,
) -> Result<(), ServeFault>
    requires { input.old.reads ≤ MAX_READS }
    ensures ok { OnOk result (LinesTaken (I.remaining reader.old) (I.remaining reader.new)
        input.old input.new text.old.items text.new.items count) }
    ensures err { IfErr result (λ e. LinesStopped e (I.remaining reader.old)
        (I.remaining reader.new) input.old input.new text.old.items text.new.items count) }
    ensures asks { GivesOrStops (I.asked reader.old) (I.asked reader.new)
        input.old.reads input.new.reads result }
    ensures fuel { fuel input.new ≤ fuel input.old }
{
    for _ in 0..count {
        let Some(n) = input.next_line(reader, None)? else {
            return Err(ServeFault::Cut);
        };
        text.extend_from_slice(&input.pending()[..n + 1])?;
        input.skip(n + 1);
    }
    Ok(())
}

/// Takes the line in front and those of its batch, submits it, and puts the reply line.
fn batch<R: Threads + Wait + Sync, X: Setup, I: CountedRead, H: Listener>(
    rt: &R,
    alloc: Global,
    seat: &mut ExchangeSeat<'_, X>,
    input: &mut Input,
    reader: &mut I,
    listener: &mut H,
    line: &mut ReplyLine,
    n: usize,
    count: usize,
) -> Result<(), ServeFault>
    requires empty { line.old ≡ [] }
    requires found { HasLine input.old.pending n × (n ≤ LINE_BYTES) }
    requires room { length input.old.pending ≤ INPUT_BYTES }
    requires reads { input.old.reads ≤ MAX_READS }
    requires means { BeginsBatch (take n input.old.pending) count }
    ensures ok { OnOk result (TurnTaken (I.remaining reader.old) (I.remaining reader.new)
        input.old input.new seat.old seat.new line.new false) }
    ensures err { IfErr result (λ e. TurnFails e (I.remaining reader.old) (I.remaining reader.new)
        input.old seat.old seat.new) }
    ensures loses { IfErr result (λ e. e ≡ ServeFault.Record → X.Entries.loses ≡ true) }
    ensures asks { GivesOrStops (I.asked reader.old) (I.asked reader.new)
        input.old.reads input.new.reads result }
    ensures beside { H.told listener.new ≡ H.told listener.old }
    ensures fuel { OnOk result (fuel input.new < fuel input.old) }
{
    let mut text = Vec::from_slice(alloc, &input.pending()[..n + 1])?;
    input.skip(n + 1);
    take_lines(input, reader, &mut text, count)?;
    let text = text.as_slice();
    listener.on_lines(text);
    submit(rt, alloc, seat, line, text)
}

/// How many lines belong to a batch that isn't too long.
fn lines_behind(command: Option<SessionCommand>) -> Option<usize>
    ensures { MatchOption result (StandsAlone command)
        (λ count. (command ≡ Some (SessionCommand.Batch count)) × (count ≤ MAX_TRANSFERS)) }
{
    match command {
        Some(SessionCommand::Batch(count)) if count <= MAX_TRANSFERS => Some(count),
        _ => None,
    }
}

/// Whether the session ends with this command.
fn ends(command: Option<SessionCommand>) -> bool
    ensures { MatchBool result (command ≡ Some SessionCommand.Bye) (SessionGoesOn command) }
{
    match command {
        Some(SessionCommand::Bye) => true,
        _ => false,
    }
}

/// Takes the command in front with its lines, does it, and puts its reply line into an empty one.
/// Gives whether the session ends with it.
pub(crate) fn turn<R: Threads + Wait + Sync, X: Setup, I: CountedRead, H: Listener>(
    rt: &R,
    alloc: Global,
    seat: &mut ExchangeSeat<'_, X>,
    input: &mut Input,
    reader: &mut I,
    listener: &mut H,
    line: &mut ReplyLine,
    front: PendingLine,
    workers: WorkerCount,
) -> Result<bool, ServeFault>
    requires empty { line.old ≡ [] }
    requires found { IsFront input.old.pending front }
    requires room { length input.old.pending ≤ INPUT_BYTES }
    requires reads { input.old.reads ≤ MAX_READS }
    ensures ok { IfOk result (λ ends. TurnTaken (I.remaining reader.old) (I.remaining reader.new)
        input.old input.new seat.old seat.new line.new ends) }
    ensures err { IfErr result (λ e. TurnFails e (I.remaining reader.old) (I.remaining reader.new)
        input.old seat.old seat.new) }
    ensures loses { IfErr result (λ e. e ≡ ServeFault.Record → X.Entries.loses ≡ true) }
    ensures asks { GivesOrStops (I.asked reader.old) (I.asked reader.new)
        input.old.reads input.new.reads result }
    ensures beside { H.told listener.new ≡ H.told listener.old }
    ensures fuel { OnOk result (fuel input.new < fuel input.old) }
{
    let PendingLine { length: n, command } = front;
    match lines_behind(command) {
        Some(count) => {
            batch(rt, alloc, seat, input, reader, listener, line, n, count)?;
            Ok(false)
        }
        None => {
            listener.on_lines(&input.pending()[..n + 1]);
            input.skip(n + 1);
            answer(rt, alloc, seat, line, command, workers)?;
            Ok(ends(command))
        }
    }
}

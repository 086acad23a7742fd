//! What is done for a command, and its reply line, which is put into an empty one.

ghost use Rattle.std.specs.Prelude.{◌≡◌, [], ℕ, List, true, OnErr};
ghost use Rattle.client_session.specs.Turns.{TellsReply, Submits, Plans, DoesCommand, IsFetching};
ghost use Rattle.client_session.specs.Turns.{MayHaveAdded};
ghost use Rattle.client_session.specs.Steps.{IsNoFetch, StandsAlone, IsDoneOrFailed};

use crate::command::SessionCommand;
use crate::exchange_seat::ExchangeSeat;
use crate::fault::ServeFault;
use crate::reply_line::ReplyLine;
use crate::setup::Setup;
use batch::Batch;
use batch_book::{Call, Reply};
use exchange_limits::WorkerCount;
use refusals::Refusal;
use schedule_certificate::{OpenGate, schedule};
use std::alloc::Global;
use std::sync::Wait;
use std::thread::Threads;

/// Makes a call that fetches no batch, and puts its reply line.
fn call<R: Threads + Wait + Sync, X: Setup>(
    rt: &R,
    seat: &mut ExchangeSeat<'_, X>,
    line: &mut ReplyLine,
    id: usize,
    call: Call,
) -> Result<(), ServeFault>
    requires empty { line.old ≡ [] }
    requires other { IsNoFetch call }
    ensures done { IsDoneOrFailed seat.old seat.new (TellsReply seat.old.session id call)
        (λ es. es ≡ [])
        line.new result }
    ensures loses { OnErr result (X.Entries.loses ≡ true) }
{
    let made = seat.call(rt, call);
    match &made {
        Ok(reply) => {
            line.tell(id, reply);
            Ok(())
        }
        Err(_) => Err(ServeFault::Record),
    }
}

/// Submits the batch that the text denotes, or tells the text's first fault.
pub(crate) fn submit<R: Threads + Wait + Sync, X: Setup>(
    rt: &R,
    alloc: Global,
    seat: &mut ExchangeSeat<'_, X>,
    line: &mut ReplyLine,
    text: &[u8],
) -> Result<(), ServeFault>
    requires { line.old ≡ [] }
    ensures done { IsDoneOrFailed seat.old seat.new
        (Submits seat.old.shape seat.old.session text.now)
        (λ es. es ≡ []) line.new result }
    ensures loses { OnErr result (X.Entries.loses ≡ true) }
{
    match Batch::read(alloc, text, seat.shape()) {
        Ok(batch) => call(rt, seat, line, 0, Call::Submit(batch)),
        Err(fault) => {
            line.refuse(Refusal::from(fault));
            Ok(())
        }
    }
}

/// Fetches a batch, plans it outside the exchange, and settles its plan.
fn plan<R: Threads + Wait + Sync, X: Setup>(
    rt: &R,
    alloc: Global,
    seat: &mut ExchangeSeat<'_, X>,
    line: &mut ReplyLine,
    id: usize,
    workers: WorkerCount,
) -> Result<(), ServeFault>
    requires { line.old ≡ [] }
    ensures done { IsDoneOrFailed seat.old seat.new (Plans seat.old.session id)
        (IsFetching seat.old.session id) line.new result }
    ensures loses { OnErr result (X.Entries.loses ≡ true) }
{
    let reply = seat.call(rt, Call::Fetch(id))?;
    match reply {
        Reply::Fetched(batch) => match schedule(rt, alloc, batch, workers, &OpenGate) {
            Ok(planned) => call(rt, seat, line, id, Call::Settle(id, planned)),
            Err(_) => {
                line.refuse(Refusal::NoMemory);
                Ok(())
            }
        },
        reply => {
            line.tell(id, &reply);
            Ok(())
        }
    }
}

/// Does what a line commands that has no lines after it, and puts the reply line. The fault is
/// that a call wasn't made, since the record is broken.
pub(crate) fn answer<R: Threads + Wait + Sync, X: Setup>(
    rt: &R,
    alloc: Global,
    seat: &mut ExchangeSeat<'_, X>,
    line: &mut ReplyLine,
    command: Option<SessionCommand>,
    workers: WorkerCount,
) -> Result<(), ServeFault>
    requires empty { line.old ≡ [] }
    requires alone { StandsAlone command }
    ensures done { (text : List ℕ) → IsDoneOrFailed seat.old seat.new
        (DoesCommand seat.old.shape seat.old.session command text)
        (MayHaveAdded seat.old.session command) line.new result }
    ensures loses { OnErr result (X.Entries.loses ≡ true) }
{
    let (id, asked) = match command {
        None => {
            line.refuse(Refusal::Line);
            return Ok(());
        }
        Some(SessionCommand::Batch(_)) => {
            line.refuse(Refusal::TooMany);
            return Ok(());
        }
        Some(SessionCommand::Progress) => {
            line.tell_progress(seat.progress());
            return Ok(());
        }
        Some(SessionCommand::Bye) => {
            line.tell_bye();
            return Ok(());
        }
        Some(SessionCommand::Plan(id)) => return plan(rt, alloc, seat, line, id, workers),
        Some(SessionCommand::Run(id)) => (id, Call::Run(id)),
        Some(SessionCommand::Show(id)) => (id, Call::Show(id)),
        Some(SessionCommand::Drop(id)) => (id, Call::Discard(id)),
        Some(SessionCommand::Peek(module, address)) => (0, Call::Peek(module, address)),
        Some(SessionCommand::Poke(module, address, word)) => (0, Call::Poke(module, address, word)),
    };
    call(rt, seat, line, id, asked)
}

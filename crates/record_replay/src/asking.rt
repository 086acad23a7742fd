//! A call of a record, made again.

ghost use Rattle.std.specs.Prelude.{◌≡◌, IfOk};
ghost use Rattle.batch_book.specs.Answering.{IsReplyTo};
ghost use Rattle.batch_book.specs.History.{IsGrown};
ghost use Rattle.batch_book.specs.Machine.{batch_of};
ghost use Rattle.batch_book.specs.Told.{told};
ghost use Rattle.book_record.specs.RecordText.{CanBeReplied};
ghost use Rattle.record_replay.specs.Replays.{IsPlanFor, HasOwnPlanIn};
ghost use Rattle.record_replay.specs.Steps.{IsSeenStep};

use batch::Batch;
use batch_book::{Book, BookRefusal, Call, NullHistory, RecordedCall, Reply};
use crossbar::MemoryPort;
use exchange_limits::WorkerCount;
use peek_poke::PlainWires;
use schedule_certificate::{OpenGate, Planned, schedule};
use setting_runner::{Notice, Plant};
use std::alloc::{AllocError, Global};
use std::thread::Threads;

/// A port and wires that never fail.
pub(crate) type PlainPlant = Plant<MemoryPort, PlainWires, OpenGate>;

/// Nobody hears how far a run has come.
#[derive(Drop)]
struct NoNotice;

impl Notice for NoNotice {
    ghost hears = { λ _ _ _. Unit {0} };

    fn done(&mut self, _settings: usize) {}
}

/// A plan of the session's batch of this number; if it has none, of a batch without a transfer.
fn plan_for<R: Threads + Sync>(
    rt: &R,
    alloc: Global,
    book: &Book<NullHistory>,
    session: usize,
    id: usize,
    workers: WorkerCount,
) -> Result<Planned, AllocError>
    ensures { IfOk result (λ planned.
        IsPlanFor planned (batch_of book.now.machine session id)) }
{
    let batch = match book.batch(session, id) {
        Some(batch) => batch.copy()?,
        None => Batch::of(Vec::new(alloc)),
    };
    schedule(rt, alloc, batch, workers, &OpenGate)
}

/// The call that a record has, with a plan where one is settled.
pub(crate) fn call_of<R: Threads + Sync>(
    rt: &R,
    alloc: Global,
    book: &Book<NullHistory>,
    session: usize,
    call: RecordedCall<Batch>,
    workers: WorkerCount,
) -> Result<Call, AllocError>
    ensures told { IfOk result (λ made. told made ≡ call) }
    ensures own { IfOk result (λ made. HasOwnPlanIn book.now.machine session made) }
{
    let call = match call {
        RecordedCall::Submit(batch) => Call::Submit(batch),
        RecordedCall::Fetch(id) => Call::Fetch(id),
        RecordedCall::Settle(id) => {
            Call::Settle(id, plan_for(rt, alloc, book, session, id, workers)?)
        }
        RecordedCall::Run(id) => Call::Run(id),
        RecordedCall::Show(id) => Call::Show(id),
        RecordedCall::Discard(id) => Call::Discard(id),
        RecordedCall::Peek(module, address) => Call::Peek(module, address),
        RecordedCall::Poke(module, address, word) => Call::Poke(module, address, word),
    };
    Ok(call)
}

/// The reply to a call, over a port and wires that never fail. Without memory nothing changes, nor
/// without a number for another batch or run, which is the same error.
pub(crate) fn ask<R: Threads + Sync>(
    rt: &R,
    book: &mut Book<NullHistory>,
    plant: &mut PlainPlant,
    session: usize,
    call: Call,
) -> Result<Reply, AllocError>
    requires own { HasOwnPlanIn book.old.machine session call }
    ensures grown { IfOk result (λ reply. IsGrown book.old session call reply book.new) }
    ensures step { IfOk result (λ reply.
        IsSeenStep book.old.machine session call reply book.new.machine) }
    ensures can { IfOk result CanBeReplied }
    ensures answers { IfOk result (IsReplyTo call) }
    ensures opening { book.new.opening ≡ book.old.opening }
{
    // These are called only for their contracts: the machine is sound.
    book.log();
    let _shape = book.rack().shape();
    let reply = book.apply(rt, session, call, plant, &mut NoNotice);
    match reply {
        Reply::Refused(BookRefusal::NoMemory) => Err(AllocError),
        Reply::Refused(BookRefusal::HistoryFull) => Err(AllocError),
        Reply::Refused(BookRefusal::Stranger) => unreachable!(),
        Reply::Stopped { .. } => unreachable!(),
        reply => Ok(reply),
    }
}

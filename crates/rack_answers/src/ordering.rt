//! The command `orders`.

ghost use Rattle.std.specs.Prelude.{IfOk};
ghost use Rattle.link_graph.specs.Schedules.{IsScheduleOf};
ghost use Rattle.plan_answers.specs.Schedules.{said_by};
ghost use Rattle.rack_answers.specs.Orders.{IsOrdered, TellsOrders};

use batch::{Batch, Shape};
use exchange_limits::WorkerCount;
use link_graph::Schedule;
use module_orders::RackOrders;
use plan_answers::{Answer, ScheduleSource, Scheduled};
use refusals::Refusal;
use schedule_certificate::Planner;
use std::alloc::{AllocError, Global};

/// The answer that tells the orders for a schedule of the batch, of all modules or of one.
fn orders_answer(
    alloc: Global,
    batch: &Batch,
    schedule: &Schedule,
    only: Option<usize>,
) -> Result<Answer, AllocError>
    requires { IsScheduleOf batch.now schedule.now }
    ensures { IfOk result (TellsOrders batch.now schedule.now only) }
{
    if let Some((i, j)) = batch.first_overlap() {
        return Answer::refused(alloc, Refusal::Overlap(i, j));
    }
    let orders = RackOrders::of(alloc, batch, schedule)?;
    Ok(Answer::done(orders.write(alloc, only)?))
}

/// The answer of `exchange orders`: what each module does in the settings of a schedule of the
/// batch that the text denotes, as [`RackOrders::write`](module_orders::RackOrders::write) puts it;
/// or the refusal of what is first wrong, as [`Scheduled::read`](plan_answers::Scheduled::read)
/// looks at it. After all that a batch is refused of which two transfers write one block.
///
/// The batch is read against the widest shape. Where one module is asked for, it alone is told, if
/// it has orders. So many workers make a plain plan. Takes time that grows with the lengths of the
/// texts, a plain plan aside.
pub fn answer_orders<R: Planner>(
    rt: &R,
    alloc: Global,
    batch: &[u8],
    source: ScheduleSource<&[u8]>,
    only: Option<usize>,
    workers: WorkerCount,
) -> Result<Answer, AllocError>
    ensures { IfOk result (IsOrdered (said_by source.entry) only batch.now) }
{
    match Scheduled::read(rt, alloc, Shape::WIDEST, batch, source, workers) {
        Ok(scheduled) => orders_answer(alloc, scheduled.batch(), scheduled.schedule(), only),
        Err(refusal) => Answer::refused(alloc, refusal),
    }
}

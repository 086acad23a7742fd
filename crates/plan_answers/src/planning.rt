//! The command `plan`.

ghost use Rattle.std.specs.Prelude.{◌≡◌, ◌≤◌, ◌+◌, ◌^◌, ℕ, IfOk, length};
ghost use Rattle.batch.specs.ShapeView.{widest};
ghost use Rattle.plan_answers.specs.Answers.{SaysPlan, IsPlanned, TakesFewSteps};
ghost use Rattle.schedule_certificate.specs.Steps.{UsesAtMost, most_steps};
ghost use Rattle.plan_answers.specs.declared.source.Planning.TheVariants.{Plain};

use crate::answer::Answer;
use crate::source::Planning;
use batch::{Batch, Shape};
use exchange_limits::WorkerCount;
use schedule_certificate::{Planned, Planner};
use std::alloc::{AllocError, Global};
use steady_schedule::steady;
use step_count::Steps;

/// The text that says a plain plan, with its certificate.
fn planned_text(planned: &Planned) -> Result<Vec<u8>, AllocError>
    ensures { IfOk result (λ text. SaysPlan Plain planned.now.batch text.items) }
{
    // Asked for its law alone: few transfers were put in one by one.
    let _few = planned.reinserted();
    planned.schedule().write(Some(planned.certificate()))
}

/// The text that says such a plan of the batch, with its certificate. So many workers make a plain
/// one, whose steps are counted.
fn plan_text<R: Planner>(
    rt: &R,
    alloc: Global,
    batch: Batch,
    planning: Planning,
    workers: WorkerCount,
    steps: &mut Steps,
) -> Result<Vec<u8>, AllocError>
    ensures says { IfOk result (λ text. SaysPlan planning batch text.items) }
    ensures cost { planning ≡ Plain → (k : ℕ) → UsesAtMost batch (2 ^ k)
        → steps.new ≤ steps.old + most_steps (length batch) k }
{
    match planning {
        Planning::Plain => planned_text(&rt.plan(alloc, batch, workers, steps)?),
        Planning::Steady => {
            let plan = steady(alloc, &batch)?;
            // An allocator has less to do where large memory goes before the settings' lists.
            drop(batch);
            plan.schedule().write(Some(plan.certificate()))
        }
    }
}

/// The answer of `exchange plan`: the text of a shortest schedule for the batch that the text
/// denotes, with the certificate that shows that none is shorter; or the refusal of the text's
/// first fault.
///
/// The batch is read against the widest shape. A plain plan is made by so many workers, whose steps
/// are counted; a steady one by the caller alone, in time that grows with the length of the text.
pub fn answer_plan<R: Planner>(
    rt: &R,
    alloc: Global,
    batch: &[u8],
    planning: Planning,
    workers: WorkerCount,
    steps: &mut Steps,
) -> Result<Answer, AllocError>
    ensures planned { IfOk result (IsPlanned planning widest batch.now) }
    ensures cost { TakesFewSteps planning batch.now steps.old steps.new }
{
    match Batch::read(alloc, batch, Shape::WIDEST) {
        Ok(batch) => Ok(Answer::done(plan_text(rt, alloc, batch, planning, workers, steps)?)),
        Err(fault) => Answer::refused(alloc, fault.into()),
    }
}

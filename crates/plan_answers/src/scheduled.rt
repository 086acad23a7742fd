//! A batch and a schedule of it, wherever that comes from.

ghost use Rattle.std.specs.Prelude.{◌≡◌, ◌≢◌, IfOk, IfErr};
ghost use Rattle.link_graph.specs.Certificates.{Naming};
ghost use Rattle.link_graph.specs.Schedules.{IsScheduleOf};
ghost use Rattle.refusals.specs.declared.refusal.Refusal.TheVariants.{NoMemory};
ghost use Rattle.plan_answers.specs.Schedules.{IsPlannedAs, IsScheduleFrom, IsWrongFrom, said_by};
ghost use Rattle.plan_answers.specs.declared.source.Planning.TheVariants.{Plain};

use crate::schedule_texts::ScheduleTexts;
use crate::source::{Planning, ScheduleSource};
use batch::{Batch, Shape};
use exchange_limits::WorkerCount;
use link_graph::Schedule;
use refusals::Refusal;
use schedule_certificate::{Planned, Planner};
use std::alloc::{AllocError, Global};
use std::marker::Model;
use steady_schedule::{Steady, steady};
use step_count::Steps;

/// What a schedule came from.
#[derive(Drop)]
enum PlannedBy {
    Plan(Planned),
    Steady { batch: Batch, plan: Steady },
    Text(ScheduleTexts),
}

/// A batch and a schedule of it.
#[derive(Drop)]
pub struct Scheduled {
    made: PlannedBy,
}

impl Model for Scheduled {
    ghost use Rattle.link_graph.specs.Schedules.{IsScheduleOf};
    ghost use Rattle.plan_answers.specs.Schedules.{BatchSchedule};
    ghost use Rattle.plan_answers.specs.Made.{scheduled_in};

    ghost Value = { BatchSchedule };

    ghost view = { λ s. scheduled_in s.made };

    ghost invariant = { λ s. IsScheduleOf (scheduled_in s.made).batch
        (scheduled_in s.made).settings };
}

impl Scheduled {
    /// The batch that the text denotes, and a schedule of it from this source; or what is first
    /// wrong.
    ///
    /// The batch text is looked at first, against the shape. A text of a schedule is looked at
    /// after it, and then faults of its settings, in the order of
    /// [`CheckFault`](link_graph::CheckFault); it may have a certificate that is wrong, or none. A
    /// plain plan is made by so many workers. All else takes time that grows with the lengths of
    /// the texts.
    pub fn read<R: Planner>(
        rt: &R,
        alloc: Global,
        shape: Shape,
        batch: &[u8],
        source: ScheduleSource<&[u8]>,
        workers: WorkerCount,
    ) -> Result<Scheduled, Refusal>
        ensures schedule { IfOk result (λ read.
            IsScheduleFrom (said_by source.entry) shape batch.now read.batch read.settings) }
        ensures wrong { IfErr result (λ refusal. refusal ≢ NoMemory
            → IsWrongFrom (said_by source.entry) shape batch.now refusal) }
    {
        match source {
            ScheduleSource::Plan(planning) => {
                let batch = Batch::read(alloc, batch, shape)?;
                Ok(Scheduled::plan(rt, alloc, batch, planning, workers)?)
            }
            ScheduleSource::Text(schedule) => Ok(Scheduled {
                made: PlannedBy::Text(ScheduleTexts::read(alloc, shape, batch, schedule)?),
            }),
        }
    }

    /// The batch with a plan of it. So many workers make a plain one.
    fn plan<R: Planner>(
        rt: &R,
        alloc: Global,
        batch: Batch,
        planning: Planning,
        workers: WorkerCount,
    ) -> Result<Scheduled, AllocError>
        ensures batch { IfOk result (λ planned. planned.batch ≡ batch) }
        ensures plan { IfOk result (λ planned. (named : Naming)
            × IsPlannedAs planning planned.batch planned.settings named) }
    {
        match planning {
            Planning::Plain => Ok(Scheduled::of(rt.plan(
                alloc,
                batch,
                workers,
                &mut Steps::none(),
            )?)),
            Planning::Steady => {
                let plan = steady(alloc, &batch)?;
                Ok(Scheduled {
                    made: PlannedBy::Steady { batch, plan },
                })
            }
        }
    }

    /// The batch of a plain plan, and its schedule.
    fn of(planned: Planned) -> Scheduled
        ensures batch { result.batch ≡ planned.batch }
        ensures plan { (named : Naming) × IsPlannedAs Plain result.batch result.settings named }
    {
        // Asked for its law alone: it is a plan.
        let _reinserted = planned.reinserted();
        let _batch = planned.batch();
        Scheduled {
            made: PlannedBy::Plan(planned),
        }
    }

    /// The batch.
    pub fn batch(&self) -> &Batch
        ensures { result.now ≡ self.now.batch }
    {
        match &self.made {
            PlannedBy::Plan(plan) => plan.batch(),
            PlannedBy::Steady { batch, .. } => batch,
            PlannedBy::Text(texts) => texts.batch(),
        }
    }

    /// The schedule.
    pub fn schedule(&self) -> &Schedule
        ensures schedule { result.now ≡ self.now.settings }
        ensures valid { IsScheduleOf self.now.batch self.now.settings }
    {
        match &self.made {
            PlannedBy::Plan(plan) => plan.schedule(),
            PlannedBy::Steady { plan, .. } => plan.schedule(),
            PlannedBy::Text(texts) => texts.schedule(),
        }
    }
}

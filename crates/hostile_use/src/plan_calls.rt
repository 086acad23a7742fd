//! The calls that plan in another way, and those of a plan and its run that take no memory.

use crate::marks::{begin, end};
use crate::met::Met;
use crate::plants::plain;
use crate::rows::{
    FOUR, SWAP, SWAP_SHAPE, THREE_TRANSFERS, TWO_PUSHES, batch, is_batch, marked, plan,
};
use batch::Batch;
use link_graph::Schedule;
use module_memory::Rack;
use schedule_certificate::{Planned, first_fit};
use setting_runner::{Notice, Outcome, run};
use std::thread::Threads;
use switch_settings::{PairList, numbers_of_setting};

/// Whether these are the settings `0 1`, `2` and `3`.
fn is_first_fit(schedule: &Schedule) -> bool {
    schedule.settings() == 3
        && schedule.setting(0) == Some([0, 1].as_slice())
        && schedule.setting(1) == Some([2].as_slice())
        && schedule.setting(2) == Some([3].as_slice())
}

/// `first_fit` of the batch of row first-fit-loses.
fn fit<R: AllocGlobal + Eprint>(rt: &R, batch: &Batch) -> Met {
    begin(rt);
    let fitted = first_fit(rt.alloc(), batch);
    end(rt);
    match fitted {
        Ok(schedule) => Met::row_if(is_first_fit(&schedule)),
        Err(_) => Met::NoMemory,
    }
}

/// `first_fit` on row first-fit-loses, whose batch it has to leave as it was.
pub fn fit_first<R: AllocGlobal + Eprint>(rt: &R) -> Option<Met> {
    let batch = batch(rt.alloc(), FOUR)?;
    let met = fit(rt, &batch);
    Some(if is_batch(rt.alloc(), &batch, FOUR) {
        met
    } else {
        Met::Other
    })
}

/// A call of a plan that takes no memory.
#[derive(Clone, Copy)]
pub enum PlanCall {
    /// `PairList::of_setting` and `numbers_of_setting` on row two-pushes.
    PairUp,
    /// `run` after its beginning, on row three-transfers, which has two settings.
    RunOn,
    /// `run` after its beginning, on row swap, whose blocks are held by then.
    SwapOn,
}

impl PlanCall {
    /// The text of the row's batch.
    fn text(self) -> &'static str {
        match self {
            PlanCall::PairUp => TWO_PUSHES,
            PlanCall::RunOn => THREE_TRANSFERS,
            PlanCall::SwapOn => SWAP,
        }
    }
}

/// Makes a call on the plan of its row.
pub fn make<R: AllocGlobal + Eprint + Threads + Sync>(rt: &R, call: PlanCall) -> Option<Met> {
    let planned = plan(rt, call.text())?;
    make_on(rt, &planned, call)
}

/// Makes a call on this plan.
fn make_on<R: AllocGlobal + Eprint + Threads + Sync>(
    rt: &R,
    planned: &Planned,
    call: PlanCall,
) -> Option<Met> {
    match call {
        PlanCall::PairUp => Some(pair_up(rt, planned)),
        PlanCall::RunOn => run_begun(rt, planned, "3x2x1", 2, 3),
        PlanCall::SwapOn => run_begun(rt, planned, SWAP_SHAPE, 1, 2),
    }
}

/// Whether the plan's one setting has the pairs of row two-pushes.
fn has_pairs(planned: &Planned) -> bool {
    if planned.schedule().settings() != 1 {
        return false;
    }
    let (batch, schedule) = (planned.batch(), planned.schedule());
    let pairs = PairList::of_setting(batch, numbers_of_setting(batch, schedule, 0));
    let [one, two] = pairs.as_slice() else {
        return false;
    };
    (one.initiator, one.responder) == (0, 1) && (two.initiator, two.responder) == (1, 2)
}

/// The pairs of the plan's one setting, between the marks.
fn pair_up<R: Eprint>(rt: &R, planned: &Planned) -> Met {
    begin(rt);
    let is_right = has_pairs(planned);
    end(rt);
    Met::row_if(is_right)
}

/// A notice that sets the first mark when a run has begun.
struct Marking<'a, R> {
    rt: &'a R,
}

impl<'a, R: Eprint> Notice for Marking<'a, R> {
    ghost hears = { λ _ _ _. Unit {0} };

    fn done(&mut self, settings: usize) {
        if settings == 0 {
            begin(self.rt);
        }
    }
}

/// `run` after its beginning, of a plan of so many settings and words.
fn run_begun<R: AllocGlobal + Eprint + Threads + Sync>(
    rt: &R,
    planned: &Planned,
    shape: &str,
    settings: usize,
    words: usize,
) -> Option<Met> {
    let rack = marked(rt.alloc(), shape)?;
    let outcome = outcome_of(rt, planned, rack);
    Some(Met::row_if(outcome == Outcome::Completed { settings, words }))
}

/// How a run ends on this rack, between the marks from its beginning on.
fn outcome_of<R: AllocGlobal + Eprint + Threads + Sync>(
    rt: &R,
    planned: &Planned,
    rack: Rack,
) -> Outcome {
    let (batch, schedule) = (planned.batch(), planned.schedule());
    let mut plant = plain();
    let mut notice = Marking { rt };
    let (_rack, outcome) = run(
        rt,
        rt.alloc(),
        rack,
        &mut plant,
        batch,
        schedule,
        &mut notice,
    );
    end(rt);
    let Marking { rt: _ } = notice;
    outcome
}

//! Who makes plans: whoever has threads, or [`NoThreads`].

ghost use Rattle.std.specs.Prelude.{◌≡◌, ℕ, ◌+◌, ◌*◌, ◌^◌, ◌≤◌, length, IfOk};
ghost use Rattle.schedule_certificate.specs.Plans.{IsPlan, IsColoured, HasFewReinsertions};
ghost use Rattle.schedule_certificate.specs.Sharing.{SaysOneToAllThreads};
ghost use Rattle.schedule_certificate.specs.Steps.{UsesAtMost, most_steps};

use crate::degree::{KnownDegree, width_of};
use crate::gate::OpenGate;
use crate::halving::colour_alone;
use crate::planned::Planned;
use crate::planning::{all_transfers, degree_of_all, planned_by, schedule_in_steps};
use alternating_path::Coloured;
use batch::Batch;
use euler_split::Scratch;
use exchange_limits::WorkerCount;
use link_graph::LinkGraph;
use std::alloc::{AllocError, Global};
use std::thread::Threads;
use step_count::Steps;

/// What plans batches for callers that needn't know whether it has threads.
pub trait Planner: Sync {
    /// Plans a batch as [`schedule_in_steps`] does with an open gate, and counts the steps of all
    /// workers. So many may take part, as far as threads can be had.
    fn plan(
        &self,
        alloc: Global,
        batch: Batch,
        workers: WorkerCount,
        steps: &mut Steps,
    ) -> Result<Planned, AllocError>
        // What `Sync` says, in the form in which the check lets a trait's method ask for it.
        requires { SaysOneToAllThreads Self.row }
        ensures batch { IfOk result (λ planned. planned.batch ≡ batch) }
        ensures plan { IfOk result (λ planned. IsPlan planned) }
        ensures reinserted { IfOk result (λ planned. HasFewReinsertions planned) }
        ensures cost { (k : ℕ) → UsesAtMost batch (2 ^ k)
            → steps.new ≤ steps.old + most_steps (length batch) k };
}

impl<R: Threads + Sync> Planner for R {
    fn plan(
        &self,
        alloc: Global,
        batch: Batch,
        workers: WorkerCount,
        steps: &mut Steps,
    ) -> Result<Planned, AllocError> {
        schedule_in_steps(self, alloc, batch, workers, &OpenGate, steps)
    }
}

/// What never has a thread. It plans as one worker does, however many may take part.
#[derive(Clone, Copy)]
pub struct NoThreads;

impl Planner for NoThreads {
    fn plan(
        &self,
        alloc: Global,
        batch: Batch,
        _workers: WorkerCount,
        steps: &mut Steps,
    ) -> Result<Planned, AllocError> {
        let graph = LinkGraph::of_in_steps(&batch, steps)?;
        let coloured = colour_all_alone(alloc, &graph, steps)?;
        planned_by(batch, &graph, coloured, steps)
    }
}

/// The schedule of a colouring of all transfers with as many colours as the busiest link has uses,
/// by one worker, who starts no thread.
fn colour_all_alone(
    alloc: Global,
    graph: &LinkGraph,
    steps: &mut Steps,
) -> Result<Coloured, AllocError>
    ensures coloured { IfOk result (λ coloured. IsColoured graph.now coloured) }
    ensures cost { (k : ℕ) → UsesAtMost graph.now (2 ^ k)
        → steps.new + 3 * length graph.now ≤ steps.old + most_steps (length graph.now) k }
{
    let mut all = all_transfers(alloc, graph, steps)?;
    let mut scratch = Scratch::new(alloc, all.len(), steps)?;
    let degree = KnownDegree::Is(degree_of_all(graph));
    let width = width_of(graph);
    let table = colour_alone(
        alloc,
        graph,
        &mut all,
        &mut scratch,
        degree,
        width,
        0,
        steps,
    )?;
    let coloured = table.into_schedule_in_steps(steps)?;
    Ok(coloured)
}

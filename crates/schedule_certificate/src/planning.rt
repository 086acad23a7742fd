//! Shortest schedules.

ghost use Rattle.std.specs.Prelude.{◌≡◌, ℕ, ◌+◌, ◌*◌, ◌^◌, ◌<◌, ◌≤◌, IfOk, length};
ghost use Rattle.std.specs.List.{range_with_len};
ghost use Rattle.schedule_certificate.specs.Parts.{IsDegree};
ghost use Rattle.schedule_certificate.specs.Plans.{NamesBusiest, IsPlan, IsColoured};
ghost use Rattle.schedule_certificate.specs.Plans.{HasFewReinsertions};
ghost use Rattle.schedule_certificate.specs.Steps.{UsesAtMost, most_steps, HasCommonLink};
ghost use Rattle.schedule_certificate.specs.Steps.{one_link_steps};

use crate::colouring::colour_copy;
use crate::degree::{KnownDegree, width_of};
use crate::gate::Gate;
use crate::planned::Planned;
use crate::workers::Workers;
use alternating_path::Coloured;
use batch::Batch;
use exchange_limits::WorkerCount;
use link_graph::{Certificate, LinkGraph};
use std::alloc::{AllocError, Global};
use std::thread::Threads;
use step_count::Steps;

/// The numbers of all transfers.
pub(crate) fn all_transfers(
    alloc: Global,
    graph: &LinkGraph,
    steps: &mut Steps,
) -> Result<Vec<usize>, AllocError>
    ensures all { IfOk result (λ all. all.items ≡ range_with_len 0 (length graph.now)) }
    ensures cost { steps.new ≡ steps.old + length graph.now }
{
    steps.tick_many(graph.len());
    (0..graph.len()).collect(alloc)
}

/// How many transfers use the busiest link; 0 where there is none.
pub(crate) fn degree_of_all(graph: &LinkGraph) -> usize
    ensures { IsDegree graph.now result }
{
    match graph.busiest() {
        None => 0,
        Some(link) => graph.uses(link),
    }
}

/// The schedule of a colouring of all transfers with as many colours as the busiest link has uses.
fn colour_all<R: Threads + Sync, G: Gate>(
    rt: &R,
    gate: &G,
    workers: Workers,
    alloc: Global,
    graph: &LinkGraph,
    steps: &mut Steps,
) -> Result<Coloured, AllocError>
    ensures coloured { IfOk result (λ coloured. IsColoured graph.now coloured) }
    ensures cost { (k : ℕ) → UsesAtMost graph.now (2 ^ k)
        → steps.new + 3 * length graph.now ≤ steps.old + most_steps (length graph.now) k }
    ensures shared { HasCommonLink graph.now
        → steps.new + 3 * length graph.now ≤ steps.old + one_link_steps (length graph.now) }
{
    let all = all_transfers(alloc, graph, steps)?;
    let degree = KnownDegree::Is(degree_of_all(graph));
    let width = width_of(graph);
    let table = colour_copy(
        rt, gate, workers, alloc, graph, &all, degree, width, 0, steps,
    )?;
    let coloured = table.into_schedule_in_steps(steps)?;
    Ok(coloured)
}

/// The certificate that names the busiest link.
fn certificate_of(graph: &LinkGraph, steps: &mut Steps) -> Result<Certificate, AllocError>
    ensures named { IfOk result (λ named. NamesBusiest graph.now named.link named.transfers) }
    ensures cost { steps.new ≤ steps.old + length graph.now }
{
    let Some(link) = graph.busiest() else {
        return Ok(Certificate::none());
    };
    let transfers = graph.transfers_of_in_steps(link, steps)?;
    Ok(Certificate::of(link, transfers).unwrap())
}

/// The plan of a batch that such a colouring of its graph makes.
pub(crate) fn planned_by(
    batch: Batch,
    graph: &LinkGraph,
    coloured: Coloured,
    steps: &mut Steps,
) -> Result<Planned, AllocError>
    requires graph { graph.now ≡ batch }
    requires coloured { IsColoured graph.now coloured }
    ensures batch { IfOk result (λ planned. planned.batch ≡ batch) }
    ensures plan { IfOk result (λ planned. IsPlan planned) }
    ensures reinserted { IfOk result (λ planned. HasFewReinsertions planned) }
    ensures cost { steps.new ≤ steps.old + length graph.now }
{
    let certificate = certificate_of(graph, steps)?;
    Ok(Planned::of(batch, coloured, certificate))
}

/// Plans a batch: a schedule with as few settings as any, and its certificate.
///
/// The transfers are coloured with as many colours as the busiest link has uses (König 1916), by
/// halving them along Euler walks and colouring the halves, and so on; only where a number of uses
/// is odd, some are put in one by one (Gabow 1976). Takes time that grows with the number of
/// transfers times the logarithm of that number of uses, and with the transfers that are put in
/// times the number of uses.
///
/// The workers are numbered from 1. Two halves are coloured at once where two workers or more may
/// do it, as far as threads can be had: the first half of their numbers, rounded up, goes to the
/// one half and the others to the other. Each half first lets the least of its numbers arrive at
/// the gate. One worker alone never does, and nobody halves transfers that share one link. The
/// batch is dropped where there is no memory.
pub fn schedule<R: Threads + Sync, G: Gate>(
    rt: &R,
    alloc: Global,
    batch: Batch,
    workers: WorkerCount,
    gate: &G,
) -> Result<Planned, AllocError>
    ensures batch { IfOk result (λ planned. planned.batch ≡ batch) }
    ensures plan { IfOk result (λ planned. IsPlan planned) }
    ensures reinserted { IfOk result (λ planned. HasFewReinsertions planned) }
{
    schedule_in_steps(rt, alloc, batch, workers, gate, &mut Steps::none())
}

/// [`schedule`], with the steps of all workers counted.
pub fn schedule_in_steps<R: Threads + Sync, G: Gate>(
    rt: &R,
    alloc: Global,
    batch: Batch,
    workers: WorkerCount,
    gate: &G,
    steps: &mut Steps,
) -> Result<Planned, AllocError>
    ensures batch { IfOk result (λ planned. planned.batch ≡ batch) }
    ensures plan { IfOk result (λ planned. IsPlan planned) }
    ensures reinserted { IfOk result (λ planned. HasFewReinsertions planned) }
    ensures cost { (k : ℕ) → UsesAtMost batch (2 ^ k)
        → steps.new ≤ steps.old + most_steps (length batch) k }
    ensures shared { HasCommonLink batch
        → steps.new ≤ steps.old + one_link_steps (length batch) }
{
    let graph = LinkGraph::of_in_steps(&batch, steps)?;
    let coloured = colour_all(rt, gate, Workers::all(workers), alloc, &graph, steps)?;
    planned_by(batch, &graph, coloured, steps)
}

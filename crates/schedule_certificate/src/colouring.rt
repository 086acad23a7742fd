//! Colouring a part of a graph by its halves, both at once where there are workers for them.

ghost use Rattle.std.specs.Prelude.{◌≡◌, ℕ, ◌+◌, ◌*◌, ◌^◌, ◌≤◌, length, IfOk};
ghost use Rattle.std.specs.Thread.{IsSync};
ghost use Rattle.link_graph.specs.declared.limits.TheConstants.{LINKS};
ghost use Rattle.link_graph.specs.Marks.{members};
ghost use Rattle.schedule_certificate.specs.Parts.{IsPartBy, IsDegree, IsWidth, IsColouredPart};
ghost use Rattle.schedule_certificate.specs.Steps.{at_most, colouring_steps};

use crate::degree::{KnownDegree, degree_of, half_of};
use crate::gate::Gate;
use crate::halving::{colour_alone, join_halves};
use crate::workers::Workers;
use alternating_path::Table;
use euler_split::{Scratch, split_in_place};
use link_graph::LinkGraph;
use std::alloc::{AllocError, Global};
use std::thread::{Threads, join};
use step_count::Steps;

/// Colours a part as [`colour_alone`] does, with the same contract and the same colours. Two
/// workers or more colour its halves at once, but where all transfers share one link.
#[cycle(halves)]
pub(crate) fn colour_part<'a, R: Threads + Sync, G: Gate>(
    rt: &R,
    gate: &G,
    workers: Workers,
    alloc: Global,
    graph: &'a LinkGraph,
    part: &mut [usize],
    scratch: &mut Scratch,
    known: KnownDegree,
    width: usize,
    room: usize,
    steps: &mut Steps,
) -> Result<Table<'a>, AllocError>
    requires part { IsPartBy graph.now part.old known }
    requires width { IsWidth graph.now width }
    requires places { length part.old ≤ scratch.old }
    ensures coloured { IfOk result (IsColouredPart graph.now part.old) }
    ensures places { scratch.new ≡ scratch.old }
    ensures cost { (k : ℕ) → at_most known ≤ 2 ^ k
        → steps.new ≤ steps.old + colouring_steps (length part.old) k }
    ensures shared { IsDegree (members graph.now part.old) (length part.old)
        → steps.new ≤ steps.old + (LINKS + 3) * length part.old + LINKS }
{
    if workers.count < 2 {
        return colour_alone(alloc, graph, part, scratch, known, width, room, steps);
    }
    let degree = degree_of(graph, part, known, width, steps);
    if degree <= 1 {
        return Table::one_with_room(alloc, graph, part, room.max(1), steps);
    }
    if degree == part.len() {
        return Table::each_with_room(alloc, graph, part, room, steps);
    }
    let middle = split_in_place(graph, part, scratch, steps);
    let (left, right) = part.split_at_mut(middle);
    let half = half_of(degree);
    // The halves may have one colour too many.
    let room = room.max(degree.saturating_add(1));
    let (left, right) = colour_both(
        rt, gate, workers, alloc, graph, left, right, half, width, room, steps,
    )?;
    join_halves(left, right, degree, steps)
}

/// Colours two parts at once. Each is coloured by a copy of it, with a scratch of its own, so that
/// the two workers change nothing that both hold.
#[cycle(halves)]
fn colour_both<'a, R: Threads + Sync, G: Gate>(
    rt: &R,
    gate: &G,
    workers: Workers,
    alloc: Global,
    graph: &'a LinkGraph,
    left: &[usize],
    right: &[usize],
    known: KnownDegree,
    width: usize,
    room: usize,
    steps: &mut Steps,
) -> Result<(Table<'a>, Table<'a>), AllocError>
    requires left { IsPartBy graph.now left.now known }
    requires right { IsPartBy graph.now right.now known }
    requires width { IsWidth graph.now width }
    ensures left { IfOk result (λ tables. IsColouredPart graph.now left.now tables.0) }
    ensures right { IfOk result (λ tables. IsColouredPart graph.now right.now tables.1) }
    ensures cost { (k : ℕ) → at_most known ≤ 2 ^ k → steps.new ≤ steps.old
        + 2 * length left.now + colouring_steps (length left.now) k
        + 2 * length right.now + colouring_steps (length right.now) k }
{
    let (first, rest) = workers.halves();
    let ((left, left_steps), (right, right_steps)) = join(
        rt,
        || -> (Result<Table, AllocError>, Steps)
            requires { IsSync R.row × IsSync G.row
                × IsPartBy graph.now left.now known × IsWidth graph.now width }
            ensures coloured { IfOk result.0 (IsColouredPart graph.entry.now left.entry.now) }
            ensures cost { (k : ℕ) → at_most known ≤ 2 ^ k → result.1
                ≤ 2 * length left.entry.now + colouring_steps (length left.entry.now) k }
        {
            let mut own = Steps::none();
            gate.arrive(first.least);
            let left = colour_copy(
                rt, gate, first, alloc, graph, left, known, width, room, &mut own,
            );
            (left, own)
        },
        || -> (Result<Table, AllocError>, Steps)
            requires { IsSync R.row × IsSync G.row
                × IsPartBy graph.now right.now known × IsWidth graph.now width }
            ensures coloured { IfOk result.0 (IsColouredPart graph.entry.now right.entry.now) }
            ensures cost { (k : ℕ) → at_most known ≤ 2 ^ k → result.1
                ≤ 2 * length right.entry.now + colouring_steps (length right.entry.now) k }
        {
            let mut own = Steps::none();
            gate.arrive(rest.least);
            let right = colour_copy(
                rt, gate, rest, alloc, graph, right, known, width, 0, &mut own,
            );
            (right, own)
        },
    );
    steps.merge(left_steps);
    steps.merge(right_steps);
    Ok((left?, right?))
}

/// Colours a part by a copy of it, with a scratch of its own.
#[cycle(halves)]
pub(crate) fn colour_copy<'a, R: Threads + Sync, G: Gate>(
    rt: &R,
    gate: &G,
    workers: Workers,
    alloc: Global,
    graph: &'a LinkGraph,
    part: &[usize],
    known: KnownDegree,
    width: usize,
    room: usize,
    steps: &mut Steps,
) -> Result<Table<'a>, AllocError>
    requires part { IsPartBy graph.now part.now known }
    requires width { IsWidth graph.now width }
    ensures coloured { IfOk result (IsColouredPart graph.now part.now) }
    ensures cost { (k : ℕ) → at_most known ≤ 2 ^ k
        → steps.new ≤ steps.old + 2 * length part.now + colouring_steps (length part.now) k }
    ensures shared { IsDegree (members graph.now part.now) (length part.now)
        → steps.new ≤ steps.old + (LINKS + 5) * length part.now + LINKS }
{
    let mut scratch = Scratch::new(alloc, part.len(), steps)?;
    steps.tick_many(part.len());
    let mut part = Vec::from_slice(alloc, part)?;
    colour_part(
        rt,
        gate,
        workers,
        alloc,
        graph,
        &mut part,
        &mut scratch,
        known,
        width,
        room,
        steps,
    )
}

//! Colouring a part of a graph by its halves, one after the other.

ghost use Rattle.std.specs.Prelude.{◌≡◌, ℕ, ◌+◌, ◌-◌, ◌*◌, ◌^◌, ◌≤◌, List, length, take, drop};
ghost use Rattle.std.specs.Prelude.{IfOk};
ghost use Rattle.batch.specs.declared.limits.TheConstants.{MAX_MODULES};
ghost use Rattle.batch.specs.declared.transfer.Transfer.{Transfer};
ghost use Rattle.link_graph.specs.declared.limits.TheConstants.{LINKS};
ghost use Rattle.link_graph.specs.Marks.{members};
ghost use Rattle.euler_split.specs.Evenness.{CanBeHalved};
ghost use Rattle.schedule_certificate.specs.Parts.{IsPart, IsDegree, IsPartBy, IsWidth, AreHalves};
ghost use Rattle.schedule_certificate.specs.Parts.{AreHalvesOfTwo, AreColouredHalves};
ghost use Rattle.schedule_certificate.specs.Parts.{IsColouredPart, HasRoomFor, PlacesClass};
ghost use Rattle.schedule_certificate.specs.Steps.{at_most, colouring_steps};

use crate::degree::{KnownDegree, degree_of, half_of};
use alternating_path::{InsertFault, Table};
use euler_split::{Scratch, split_evenly, split_in_place, times_even};
use link_graph::LinkGraph;
use std::alloc::{AllocError, Global};
use step_count::Steps;

/// Puts the transfers of a class that was given up into the other colours.
fn put_back(table: &mut Table<'_>, class: &[usize], steps: &mut Steps)
    requires { HasRoomFor table.old class.now }
    ensures batch { table.new.batch ≡ table.old.batch }
    ensures colours { table.new.colours ≡ table.old.colours }
    ensures placed { PlacesClass table.old.colour table.new.colour class.now }
    ensures inserted { table.new.inserted ≤ table.old.inserted + length class.now }
    ensures cost { steps.new
        ≤ steps.old + length class.now * (3 * table.old.colours + 2 * MAX_MODULES + 1) }
{
    for t in class {
        match table.insert_in_steps(*t, steps) {
            Ok(()) => (),
            Err(InsertFault::Already) => unreachable!(),
            Err(InsertFault::NoRoom) => unreachable!(),
        }
    }
}

/// The table of a part of this degree, of the tables of its halves. They are joined, and that may
/// be one colour too many where the degree is odd: then a smallest class is given up, and its
/// transfers are put into the other colours (Gabow 1976).
pub(crate) fn join_halves<'a>(
    left: Table<'a>,
    right: Table<'a>,
    degree: usize,
    steps: &mut Steps,
) -> Result<Table<'a>, AllocError>
    requires { (batch : List Transfer) × (whole : List ℕ)
        × AreColouredHalves batch whole degree left right }
    ensures coloured { (batch : List Transfer) (whole : List ℕ)
        → AreColouredHalves batch whole degree left.entry right.entry
        → IfOk result (IsColouredPart batch whole) }
    ensures cost { (batch : List Transfer) (whole : List ℕ)
        → AreColouredHalves batch whole degree left.entry right.entry
        → steps.new ≤ steps.old + 25 * length whole + 7 * MAX_MODULES * (degree + 1) + MAX_MODULES }
{
    let joined = Table::join_in_steps(left, right, steps)?;
    if joined.colours() <= degree {
        return Ok(joined);
    }
    let (mut table, class) = joined.take_back_in_steps(steps)?;
    put_back(&mut table, &class, steps);
    Ok(table)
}

/// Permutes a part so that one of two halves stands in front of the other, and says how many
/// transfers that has. Where the transfers of each pair of links can be halved, they are dealt to
/// the halves in turn. That needs no walk, and gives the same halves as walks.
fn halve_known(
    graph: &LinkGraph,
    part: &mut [usize],
    times: usize,
    scratch: &mut Scratch,
    steps: &mut Steps,
) -> usize
    requires part { IsPart graph.now part.old }
    requires times { CanBeHalved graph.now part.old times }
    requires places { length part.old ≤ scratch.old }
    ensures within { result ≤ length part.old }
    ensures halves { AreHalves graph.now part.old (take result part.new) (drop result part.new) }
    ensures left_times { CanBeHalved graph.now (take result part.new) (times - 1) }
    ensures right_times { CanBeHalved graph.now (drop result part.new) (times - 1) }
    ensures places { scratch.new ≡ scratch.old }
    ensures cost { steps.new ≤ steps.old + 4 * length part.old + MAX_MODULES }
{
    if times == 0 {
        return split_in_place(graph, part, scratch, steps);
    }
    split_evenly(graph, part, scratch, steps)
}

/// How many times the transfers of each pair of links of a part can be halved. Where all transfers
/// are known to share one link, nobody asks, and it is none.
fn times_of(graph: &LinkGraph, part: &[usize], known: KnownDegree, steps: &mut Steps) -> usize
    requires { IsPartBy graph.now part.now known }
    ensures times { CanBeHalved graph.now part.now result }
    ensures cost { steps.new ≤ steps.old + length part.now }
{
    match known {
        KnownDegree::Is(degree) if degree == part.len() => 0,
        _ => times_even(graph, part, steps),
    }
}

/// The table of a part of degree 2, of its halves: the transfers of each of them get one colour,
/// those of the left half the first. There is room for this many colours.
fn colour_two<'a>(
    alloc: Global,
    graph: &'a LinkGraph,
    left: &[usize],
    right: &[usize],
    room: usize,
    steps: &mut Steps,
) -> Result<Table<'a>, AllocError>
    requires { (whole : List ℕ) × AreHalvesOfTwo graph.now whole left.now right.now }
    ensures coloured { (whole : List ℕ) → AreHalvesOfTwo graph.now whole left.now right.now
        → IfOk result (IsColouredPart graph.now whole) }
    ensures cost { steps.new ≤ steps.old + 3 * LINKS + length left.now + length right.now }
{
    let table = Table::one_with_room(alloc, graph, left, room, steps)?;
    table.with_class(right, steps)
}

/// Colours a part with as many colours as its busiest link has uses, its degree, and with one where
/// that is 0. The degree may be known, and [`degree_of`] says what the width of the graph is for.
/// Room for this many colours is taken at once, so that others can be joined to these without a
/// move.
///
/// Where all transfers share one link, each gets a colour of its own, in their order. Else the part
/// is halved, in place. Its halves are coloured one after the other, and the two tables are joined;
/// where the degree is 2, each half becomes one class. How often the transfers of all pairs of
/// links can be halved is counted first, once.
pub(crate) fn colour_alone<'a>(
    alloc: Global,
    graph: &'a LinkGraph,
    part: &mut [usize],
    scratch: &mut Scratch,
    known: KnownDegree,
    width: usize,
    room: usize,
    steps: &mut Steps,
) -> Result<Table<'a>, AllocError>
    requires part { IsPartBy graph.now part.old known }
    requires width { IsWidth graph.now width }
    requires places { length part.old ≤ scratch.old }
    ensures coloured { IfOk result (IsColouredPart graph.now part.old) }
    ensures places { scratch.new ≡ scratch.old }
    ensures cost { (k : ℕ) → at_most known ≤ 2 ^ k
        → steps.new ≤ steps.old + colouring_steps (length part.old) k }
    ensures shared { IsDegree (members graph.now part.old) (length part.old)
        → steps.new ≤ steps.old + (LINKS + 3) * length part.old + LINKS }
{
    let times = times_of(graph, part, known, steps);
    colour_halves(
        alloc, graph, part, scratch, known, width, room, times, steps,
    )
}

/// Colours a part as [`colour_alone`] does. The transfers of each pair of links can be halved so
/// many times with none left over.
fn colour_halves<'a>(
    alloc: Global,
    graph: &'a LinkGraph,
    part: &mut [usize],
    scratch: &mut Scratch,
    known: KnownDegree,
    width: usize,
    room: usize,
    times: usize,
    steps: &mut Steps,
) -> Result<Table<'a>, AllocError>
    requires part { IsPartBy graph.now part.old known }
    requires width { IsWidth graph.now width }
    requires places { length part.old ≤ scratch.old }
    requires times { CanBeHalved graph.now part.old times }
    ensures coloured { IfOk result (IsColouredPart graph.now part.old) }
    ensures places { scratch.new ≡ scratch.old }
    ensures cost { (k : ℕ) → at_most known ≤ 2 ^ k
        → steps.new + length part.old ≤ steps.old + colouring_steps (length part.old) k }
    ensures shared { IsDegree (members graph.now part.old) (length part.old)
        → steps.new ≤ steps.old + (LINKS + 2) * length part.old + LINKS }
{
    let degree = degree_of(graph, part, known, width, steps);
    if degree <= 1 {
        return Table::one_with_room(alloc, graph, part, room.max(1), steps);
    }
    if degree == part.len() {
        return Table::each_with_room(alloc, graph, part, room, steps);
    }
    let middle = halve_known(graph, part, times, scratch, steps);
    let (left, right) = part.split_at_mut(middle);
    // The halves may have one colour too many.
    let room = room.max(degree.saturating_add(1));
    if degree == 2 {
        return colour_two(alloc, graph, left, right, room, steps);
    }
    let half = half_of(degree);
    let times = times.saturating_sub(1);
    let left = colour_halves(alloc, graph, left, scratch, half, width, room, times, steps)?;
    let right = colour_halves(alloc, graph, right, scratch, half, width, 0, times, steps)?;
    join_halves(left, right, degree, steps)
}

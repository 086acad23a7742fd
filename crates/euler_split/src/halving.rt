ghost use Rattle.std.specs.Prelude.{◌≡◌, ℕ, ◌+◌, ◌*◌, ◌<◌, ◌≤◌, length, take, drop, All, IfOk};
ghost use Rattle.batch.specs.Batches.{IsBatch};
ghost use Rattle.link_graph.specs.Certificates.{AreDistinct};
ghost use Rattle.link_graph.specs.declared.link.End.TheVariants.{Zero, Three};
ghost use Rattle.batch.specs.declared.limits.TheConstants.{MAX_MODULES};
ghost use Rattle.euler_split.specs.Split.{IsSplit};
ghost use Rattle.euler_split.specs.Trails.{pairs_left};
ghost use Rattle.euler_split.specs.Pairs.{module_in, modules_in};
ghost use Rattle.link_graph.specs.Masks.{has_pair};
ghost use Rattle.euler_split.specs.Masks.{AreToggled};
ghost use Rattle.euler_split.specs.Deals.{odd_among, AreDealt};

use crate::pairs::{Pairs, toggle};
use crate::scratch::Scratch;
use crate::trails::left_of;
use batch::MAX_TRANSFERS;
use link_graph::{LinkGraph, Masks, has_module};
use std::alloc::{AllocError, Global};
use step_count::Steps;

/// The pairs of links that an odd number of the members use.
fn odd_pairs(graph: &LinkGraph, members: &[usize], steps: &mut Steps) -> Pairs
    requires batch { IsBatch graph.now }
    requires known { All (λ t. t < length graph.now) members.now }
    ensures odd { (u v : ℕ) → has_pair result.zero u v
        ≡ odd_among (modules_in graph.now members.now) (length members.now) u v }
    ensures few { pairs_left result.zero ≤ length members.now }
    ensures cost { steps.new ≡ steps.old + length members.now }
{
    let mut pairs = Pairs::none();
    for place in 0..members.len() {
        steps.tick();
        let (start, answer) = graph.ends_of(members[place]);
        pairs.toggle(start.module, answer.module);
    }
    pairs
}

/// Whether it is the left half's turn at the pair of links that a transfer uses. Then it is the
/// other one's.
fn take_turn(graph: &LinkGraph, turns: &mut Masks, t: usize) -> bool
    requires batch { IsBatch graph.now }
    requires known { t < length graph.now }
    ensures turn { result
        ≡ has_pair turns.old (module_in graph.now Zero t) (module_in graph.now Three t) }
    ensures next { AreToggled turns.old turns.new
        (module_in graph.now Zero t) (module_in graph.now Three t) }
{
    let (start, answer) = graph.ends_of(t);
    let is_left = has_module(turns[start.module], answer.module);
    toggle(turns, start.module, answer.module);
    is_left
}

/// Permutes the members so that those of the left half stand in front, and says how many these are:
/// those of a pair of links go to the halves in turn. Both halves keep their order. There is room
/// beside for as many.
pub(crate) fn deal(
    graph: &LinkGraph,
    members: &mut [usize],
    turns: &mut Masks,
    others: &mut [usize],
    steps: &mut Steps,
) -> usize
    requires batch { IsBatch graph.now }
    requires known { All (λ t. t < length graph.now) members.old }
    requires room { length members.old ≤ length others.old }
    ensures within { result ≤ length members.old }
    ensures dealt { AreDealt graph.now members.old (length members.old) turns.old turns.new
        (take result members.new) (drop result members.new) }
    ensures cost { steps.new ≤ steps.old + 2 * length members.old }
{
    let mut left = 0;
    let mut right = 0;
    for place in 0..members.len() {
        steps.tick();
        let member = members[place];
        if take_turn(graph, turns, member) {
            members[left] = member;
            left += 1;
        } else {
            others[right] = member;
            right += 1;
        }
    }
    steps.tick_many(right);
    members[left..].copy_from_slice(&others[..right]);
    left
}

/// Permutes transfers so that one of two halves stands in front of the other, and says how many
/// these are: halves in which each link's uses are halved too, rounded up where they are odd.
/// `members` are the numbers of the transfers, without repetition, at most as many as the scratch
/// has places.
///
/// Takes time that grows with the number of members, and no memory.
pub fn split_in_place(
    graph: &LinkGraph,
    members: &mut [usize],
    scratch: &mut Scratch,
    steps: &mut Steps,
) -> usize
    requires known { All (λ t. t < length graph.now) members.old }
    requires distinct { AreDistinct members.old }
    requires room { length members.old ≤ scratch.old }
    ensures within { result ≤ length members.old }
    ensures split { IsSplit graph.now members.old (take result members.new)
        (drop result members.new) }
    ensures room { scratch.new ≡ scratch.old }
    ensures cost { steps.new ≤ steps.old + 4 * length members.old + MAX_MODULES }
{
    prove!(graph.len() <= MAX_TRANSFERS);
    let mut odd = odd_pairs(graph, members, steps);
    let mut turns = left_of(&mut odd, steps);
    deal(graph, members, &mut turns, &mut scratch.others, steps)
}

/// Two halves of some transfers, in which each link's uses are halved too, rounded up where they
/// are odd. `members` are the numbers of the transfers, without repetition; each goes into one
/// half.
///
/// Takes time and room that grow with the number of members.
pub fn split(
    alloc: Global,
    graph: &LinkGraph,
    members: &[usize],
) -> Result<(Vec<usize>, Vec<usize>), AllocError>
    requires known { All (λ t. t < length graph.now) members.now }
    requires distinct { AreDistinct members.now }
    ensures { IfOk result (λ halves. IsSplit graph.now members.now halves.0.items halves.1.items) }
{
    let mut steps = Steps::none();
    let mut scratch = Scratch::new(alloc, members.len(), &mut steps)?;
    let mut left = Vec::from_slice(alloc, members)?;
    let count = split_in_place(graph, &mut left, &mut scratch, &mut steps);
    let right = left.split_off(count)?;
    Ok((left, right))
}

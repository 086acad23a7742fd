//! Halving where each pair of links has an even number of transfers.

ghost use Rattle.std.specs.Prelude.{◌≡◌, ◌+◌, ◌*◌, ◌⊎◌, ◌<◌, ◌≤◌, ℕ, [], length, take, drop, All};
ghost use Rattle.batch.specs.Batches.{IsBatch};
ghost use Rattle.batch.specs.declared.limits.TheConstants.{MAX_TRANSFERS};
ghost use Rattle.link_graph.specs.Certificates.{AreDistinct};
ghost use Rattle.euler_split.specs.Split.{IsSplit};
ghost use Rattle.euler_split.specs.Evenness.{ArePairCounts, HasBits, CanBeHalved, HaveSamePairs};

use crate::halving::deal;
use crate::scratch::Scratch;
use batch::{MAX_MODULES, MAX_TRANSFERS};
use link_graph::LinkGraph;
use step_count::Steps;

/// How many pairs of a link 0 and a link 3 there are.
const PAIRS: usize = MAX_MODULES * MAX_MODULES;

/// How many of the members use each pair of links: those of link 0 of module u and link 3 of module
/// v at the place `u * MAX_MODULES + v`.
fn count_pairs(graph: &LinkGraph, members: &[usize], steps: &mut Steps) -> [u16; PAIRS]
    requires batch { IsBatch graph.now }
    requires known { All (λ t. t < length graph.now) members.now }
    requires few { length members.now ≤ MAX_TRANSFERS }
    ensures counts { ArePairCounts graph.now members.now result }
    ensures cost { steps.new ≡ steps.old + length members.now }
{
    let mut counts = [0; PAIRS];
    for place in 0..members.len() {
        steps.tick();
        let (start, answer) = graph.ends_of(members[place]);
        counts[start.module * MAX_MODULES + answer.module] += 1;
    }
    counts
}

/// The number that has the bits of all of these.
fn all_bits(counts: &[u16; PAIRS]) -> u16
    ensures { HasBits counts.now (length counts.now) result }
{
    let mut bits = 0;
    for count in counts {
        bits |= *count;
    }
    bits
}

/// How often the members, and then their halves, can be halved so that each pair of links has as
/// many in the one half as in the other: the greatest number, and 0 where there are no members.
/// They are the numbers of transfers, without repetition.
///
/// Takes time that grows with the number of members, and with that of all pairs of links.
pub fn times_even(graph: &LinkGraph, members: &[usize], steps: &mut Steps) -> usize
    requires known { All (λ t. t < length graph.now) members.now }
    requires distinct { AreDistinct members.now }
    ensures halved { CanBeHalved graph.now members.now result }
    ensures most { (times : ℕ) → CanBeHalved graph.now members.now times
        → (times ≤ result) ⊎ (members.now ≡ []) }
    ensures none { members.now ≡ [] → result ≡ 0 }
    ensures cost { steps.new ≡ steps.old + length members.now }
{
    prove!(graph.len() <= MAX_TRANSFERS);
    let bits = all_bits(&count_pairs(graph, members, steps));
    if bits == 0 {
        return 0;
    }
    bits.trailing_zeros() as usize
}

/// Permutes transfers as [`split_in_place`](crate::split_in_place) does, where each pair of links
/// has an even number of them: half of these go into the one half, and half into the other.
///
/// Takes time that grows with the number of members, and no memory.
pub fn split_evenly(
    graph: &LinkGraph,
    members: &mut [usize],
    scratch: &mut Scratch,
    steps: &mut Steps,
) -> usize
    requires known { All (λ t. t < length graph.now) members.old }
    requires room { length members.old ≤ scratch.old }
    requires even { CanBeHalved graph.now members.old 1 }
    ensures within { result ≤ length members.old }
    ensures split { IsSplit graph.now members.old (take result members.new)
        (drop result members.new) }
    ensures pairs { HaveSamePairs graph.now (take result members.new) (drop result members.new) }
    ensures room { scratch.new ≡ scratch.old }
    ensures cost { steps.new ≤ steps.old + 2 * length members.old }
{
    prove!(graph.len() <= MAX_TRANSFERS);
    let mut turns = [0; MAX_MODULES];
    deal(graph, members, &mut turns, &mut scratch.others, steps)
}

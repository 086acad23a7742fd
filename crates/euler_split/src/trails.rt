//! Walks along pairs of links, by which these fall into two halves.

ghost use Rattle.std.specs.Prelude.{◌≡◌, ℕ, ◌+◌, ◌<◌, ◌≤◌, Bool, true, not, sum, slice_index};
ghost use Rattle.link_graph.specs.declared.link.End.{End};
ghost use Rattle.link_graph.specs.declared.link.End.TheVariants.{Zero};
ghost use Rattle.link_graph.specs.Links.{other_end};
ghost use Rattle.batch.specs.declared.limits.TheConstants.{MAX_MODULES};
ghost use Rattle.link_graph.specs.Masks.{has_pair};
ghost use Rattle.euler_split.specs.Trails.{end_of, AreEven, no_surplus, is_left_next, walk_surplus};
ghost use Rattle.euler_split.specs.Trails.{AreHalved, pairs_left};

use crate::pairs::{Pairs, toggle};
use batch::MAX_MODULES;
use link_graph::{Masks, lowest};
use step_count::Steps;

/// Takes a pair that is untaken, and puts it into the left half or not. A walk
/// that was at one of its links is at the other one then.
fn take(
    untaken: &mut Pairs,
    left_half: &mut Masks,
    zero: usize,
    three: usize,
    to_left: bool,
    steps: &mut Steps,
)
    requires zero_in { zero < MAX_MODULES }
    requires three_in { three < MAX_MODULES }
    requires some { has_pair untaken.old.zero zero three ≡ true }
    ensures walked { (all : ℕ → ℕ → Bool) (first_left : Bool) (start : ℕ) (end : End)
        → to_left ≡ is_left_next first_left end
        → AreEven all start untaken.old.zero left_half.old
        (walk_surplus first_left start end (end_of zero three end))
        → AreEven all start untaken.new.zero left_half.new
        (walk_surplus first_left start (other_end end) (end_of zero three (other_end end))) }
    ensures less { sum untaken.new.zero < sum untaken.old.zero }
    ensures fewer { pairs_left untaken.new.zero + 1 ≡ pairs_left untaken.old.zero }
    ensures cost { steps.new ≡ steps.old + 1 }
{
    steps.tick();
    untaken.toggle(zero, three);
    if to_left {
        toggle(left_half, zero, three);
    }
}

/// Walks from the link 0 of `start` along untaken pairs, and takes each, until a link has none.
/// They go to the two halves in turn, the first to the left one or not.
fn walk(
    untaken: &mut Pairs,
    left_half: &mut Masks,
    start: usize,
    first_left: bool,
    steps: &mut Steps,
)
    requires start_in { start < MAX_MODULES }
    requires some { 0 < slice_index untaken.old.zero start }
    ensures walked { (all : ℕ → ℕ → Bool)
        → AreEven all start untaken.old.zero left_half.old
        (walk_surplus first_left start Zero start)
        → AreEven all start untaken.new.zero left_half.new
        (walk_surplus (not first_left) start Zero start) }
    ensures less { sum untaken.new.zero < sum untaken.old.zero }
    ensures cost { steps.new + pairs_left untaken.new.zero
        ≡ steps.old + pairs_left untaken.old.zero }
{
    let mut zero = start;
    'steps: while untaken.zero[zero] != 0 {
        let three = lowest(untaken.zero[zero]);
        take(untaken, left_half, zero, three, first_left, steps);
        if untaken.three[three] == 0 {
            return;
        }
        zero = lowest(untaken.three[three]);
        take(untaken, left_half, zero, three, !first_left, steps);
    }
}

/// Walks from the link 0 of `start` until no pair is untaken there, first forth and then back in
/// turn: a walk that ends elsewhere leaves that link with one pair more in the one half, and the
/// next with one more in the other.
fn walk_all_from(untaken: &mut Pairs, left_half: &mut Masks, start: usize, steps: &mut Steps)
    requires start_in { start < MAX_MODULES }
    ensures even { (all : ℕ → ℕ → Bool)
        → AreEven all start untaken.old.zero left_half.old no_surplus
        → AreEven all (start + 1) untaken.new.zero left_half.new no_surplus }
    ensures cost { steps.new + pairs_left untaken.new.zero
        ≡ steps.old + pairs_left untaken.old.zero }
{
    let mut first_left = true;
    'walks: while untaken.zero[start] != 0 {
        walk(untaken, left_half, start, first_left, steps);
        first_left = !first_left;
    }
}

/// The pairs that go to the left half: at each link half of its pairs, rounded up or down.
/// All pairs are taken out.
pub(crate) fn left_of(pairs: &mut Pairs, steps: &mut Steps) -> Masks
    ensures halved { AreHalved (has_pair pairs.old.zero) (has_pair result) }
    ensures cost { steps.new ≤ steps.old + pairs_left pairs.old.zero + MAX_MODULES }
{
    let mut left_half = [0; MAX_MODULES];
    for start in 0..MAX_MODULES {
        steps.tick();
        walk_all_from(pairs, &mut left_half, start, steps);
    }
    left_half
}

//! Steps that use up as many pairs as are found.

ghost use Rattle.std.specs.Prelude.{◌≡◌, ◌≢◌, ℕ, ◌-◌, ◌<◌, ◌≤◌, Some, IfSome, IsSome, true};
ghost use Rattle.batch.specs.declared.limits.TheConstants.{MAX_MODULES, MAX_TRANSFERS};
ghost use Rattle.link_graph.specs.Masks.{has_bit, has_pair};
ghost use Rattle.steady_schedule.specs.Matchings.{partner, AreBelow};
ghost use Rattle.steady_schedule.specs.Reaches.{HaveEach, JoinsNeeded};
ghost use Rattle.steady_schedule.specs.Searches.{AreNear};
ghost use Rattle.steady_schedule.specs.Steps.{CanHold};
ghost use Rattle.steady_schedule.specs.Waiting.{HaveMost, NoneWait};

use crate::heaviest::{Weights, heaviest_matching};
use crate::masks::{TrialOrder, with_module, without_module};
use crate::matching::{Matching, Partners, part};
use crate::reach::Reach;
use crate::remaining::{EndCounts, PAIRS, Remaining};
use crate::stepping::longest_hold;
use batch::{MAX_MODULES, MAX_TRANSFERS};
use link_graph::{has_module, lowest};

/// How many pairs, and links that may be idle, a step of each length would use up.
type Lengths = [u16; MAX_TRANSFERS + 1];

/// The weight of a pair where it is joined: of steps that use up as many, the one that joins more.
const JOINED_WEIGHT: u32 = 1;

/// What more where it is used up: more than all pairs have that are joined alone.
const USED_UP_WEIGHT: u32 = 2000;

/// What more for each link of it that has to be joined: more than all that, since it isn't a step
/// else.
const NEEDED_WEIGHT: u32 = 1_000_000;

/// Counts one more of a length, where that isn't 0.
fn count_length(lengths: &mut Lengths, length: usize)
    requires { length ≤ MAX_TRANSFERS }
{
    if length > 0 {
        lengths[length] = lengths[length].saturating_add(1);
    }
}

/// Counts the pairs of a link 0.
fn count_pairs(lengths: &mut Lengths, remaining: &Remaining, zero: usize)
    requires { zero < MAX_MODULES }
{
    let mut rest = remaining.zero.near[zero];
    'links: while rest != 0 {
        let three = lowest(rest);
        rest = without_module(rest, three);
        count_length(lengths, remaining.count(zero, three).min(MAX_TRANSFERS));
    }
}

/// Counts for how many settings a link in use may be idle.
fn count_rest(lengths: &mut Lengths, side: &EndCounts, module: usize, most: usize)
    requires low { «module» < MAX_MODULES }
    requires few { most ≤ MAX_TRANSFERS }
{
    if side.uses[module] > 0 {
        count_length(lengths, most.saturating_sub(side.uses[module] as usize));
    }
}

/// Counts for how many settings pairs can be joined, and links be idle, until they are used up.
fn count_lengths(lengths: &mut Lengths, remaining: &Remaining, most: usize, modules: usize)
    requires few { most ≤ MAX_TRANSFERS }
    requires within { modules ≤ MAX_MODULES }
{
    for module in 0..modules {
        count_pairs(lengths, remaining, module);
        count_rest(lengths, &remaining.zero, module, most);
        count_rest(lengths, &remaining.three, module, most);
    }
}

/// The longest of the lengths that most have, of those up to `longest`, where some have any.
fn commonest(lengths: &Lengths, longest: usize) -> Option<usize>
    requires { longest ≤ MAX_TRANSFERS }
    ensures { IfSome result (λ length. (0 < length) × (length ≤ longest)) }
{
    let mut best = None;
    let mut most = 1;
    for length in 1..longest + 1 {
        if lengths[length] >= most {
            most = lengths[length];
            best = Some(length);
        }
    }
    best
}

/// A mask of the links that are full after so many settings without them.
fn full_then(uses: &[u32; MAX_MODULES], left: usize, modules: usize) -> u32
    requires { modules ≤ MAX_MODULES }
{
    let mut mask = 0;
    for module in 0..modules {
        if uses[module] > 0 && uses[module] as usize == left {
            mask = with_module(mask, module);
        }
    }
    mask
}

/// What a pair that can be held is worth: `full` has the links that are full after it without them.
/// Where a link may be idle just so long, leaving it idle uses that up: its pairs are worth so much
/// less.
fn worth(reach: &Reach, full: (u32, u32), zero: usize, three: usize) -> u32
    requires zero { zero < MAX_MODULES }
    requires three { three < MAX_MODULES }
{
    let used_up = has_module(reach.zero.just[zero], three) as u32;
    let needed = has_module(reach.zero.needed, zero) as u32
        + has_module(reach.three.needed, three) as u32;
    let idle = has_module(full.0, zero) as u32 + has_module(full.1, three) as u32;
    let worth = JOINED_WEIGHT + USED_UP_WEIGHT * used_up + NEEDED_WEIGHT * needed;
    worth.saturating_sub(USED_UP_WEIGHT * idle)
}

/// Puts in what the pairs of a link 0 are worth.
fn add_worths(worths: &mut Weights, reach: &Reach, full: (u32, u32), zero: usize)
    requires { zero < MAX_MODULES }
{
    let mut rest = reach.zero.near[zero];
    'links: while rest != 0 {
        let three = lowest(rest);
        rest = without_module(rest, three);
        worths[zero * MAX_MODULES + three] = worth(reach, full, zero, three);
    }
}

/// What each pair is worth that can be held for some of the settings.
fn worths_of(remaining: &Remaining, reach: &Reach, left: usize, modules: usize) -> Weights
    requires { modules ≤ MAX_MODULES }
{
    let full = (
        full_then(&remaining.zero.uses, left, modules),
        full_then(&remaining.three.uses, left, modules),
    );
    let mut worths = [0; PAIRS];
    for zero in 0..modules {
        add_worths(&mut worths, reach, full, zero);
    }
    worths
}

/// Parts a link 0, where its pair can't be held so long, or has no worth.
#[tactic(auto, using(crate::proofs::Matchings::partner_low))]
fn part_pair(worths: &Weights, reach: &Reach, matching: &mut Matching, zero: usize)
    requires { zero < MAX_MODULES }
    ensures near { (y : ℕ) → partner matching.new.zero zero ≡ Some y
        → has_pair reach.now.zero.near zero y ≡ true }
    ensures others { (x : ℕ) → x ≢ zero
        → partner matching.new.zero x ≡ partner matching.old.zero x }
{
    let Some(three) = matching.zero[zero] else {
        return;
    };
    let three = three as usize;
    if !has_module(reach.zero.near[zero], three) || worths[zero * MAX_MODULES + three] == 0 {
        part(&mut matching.zero, &mut matching.three, zero, three);
    }
}

/// Parts all such links.
fn part_some(worths: &Weights, reach: &Reach, matching: &mut Matching)
    ensures { AreNear reach.now.zero.near matching.new.zero }
{
    for zero in 0..MAX_MODULES {
        part_pair(worths, reach, matching, zero);
    }
}

/// Whether all links in the mask are joined.
fn are_joined(partners: &Partners, mask: u32) -> bool
    ensures { result ≡ true → (z : ℕ) → has_bit mask z ≡ true → IsSome (partner partners.now z) }
{
    let mut rest = mask;
    'links: while rest != 0 {
        let link = lowest(rest);
        rest = without_module(rest, link);
        if partners[link].is_none() {
            return false;
        }
    }
    true
}

/// A matching that can be held for so many settings, and is worth as much as is found.
fn weighed(
    remaining: &Remaining,
    most: usize,
    modules: usize,
    settings: usize,
    looks: &mut usize,
) -> Option<Matching>
    requires within { modules ≤ MAX_MODULES }
    requires few { most ≤ MAX_TRANSFERS }
    requires some { 0 < settings }
    requires left { settings ≤ most }
    requires none { NoneWait remaining.now.counts modules }
    ensures each { IfSome result (λ m. HaveEach remaining.now.counts settings m.zero) }
    ensures joined { IfSome result (λ m.
        JoinsNeeded remaining.now.counts m.zero m.three most settings) }
{
    let reach = Reach::of(remaining, most, modules, settings, TrialOrder::Rising);
    let worths = worths_of(remaining, &reach, most - settings, modules);
    let mut matching = heaviest_matching(&worths, modules, looks)?;
    part_some(&worths, &reach, &mut matching);
    if !are_joined(&matching.zero, reach.zero.needed)
        || !are_joined(&matching.three, reach.three.needed)
    {
        return None;
    }
    Some(matching)
}

/// Makes the next matching, and gives for how many of the settings that are left it can be held,
/// and no longer. Of the lengths up to `longest` it takes the commonest that can be. Where it finds
/// none before the looks are over, it gives none.
pub(crate) fn weighed_step(
    remaining: &Remaining,
    matching: &mut Matching,
    most: usize,
    modules: usize,
    longest: usize,
    looks: &mut usize,
) -> Option<usize>
    requires some { 0 < most }
    requires few { most ≤ MAX_TRANSFERS }
    requires most { HaveMost remaining.now.counts most }
    requires within { modules ≤ MAX_MODULES }
    requires none { NoneWait remaining.now.counts modules }
    ensures can { IfSome result (λ held.
        CanHold remaining.now.counts matching.new.zero matching.new.three most held) }
    ensures low { IfSome result (λ held. AreBelow matching.new.zero modules) }
{
    if *looks <= modules {
        return None;
    }
    let top = longest.min(most);
    let mut lengths = [0; MAX_TRANSFERS + 1];
    count_lengths(&mut lengths, remaining, most, modules);
    for _ in 0..top {
        if *looks <= modules {
            return None;
        }
        *looks -= modules + 1;
        let settings = commonest(&lengths, top)?;
        lengths[settings] = 0;
        if let Some(made) = weighed(remaining, most, modules, settings, looks) {
            *matching = made;
            return Some(longest_hold(remaining, matching, most, modules));
        }
    }
    None
}

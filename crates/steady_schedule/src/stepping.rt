//! Steps: matchings that are held for some settings.

ghost use Rattle.std.specs.Prelude.{◌≡◌, ℕ, ◌+◌, ◌<◌, ◌≤◌, Some, None};
ghost use Rattle.link_graph.specs.declared.link.End.TheVariants.{Zero, Three};
ghost use Rattle.batch.specs.declared.limits.TheConstants.{MAX_MODULES, MAX_TRANSFERS};
ghost use Rattle.steady_schedule.specs.Covers.{AreCovered};
ghost use Rattle.steady_schedule.specs.Matchings.{partner, AreBelow};
ghost use Rattle.steady_schedule.specs.Searches.{AreNear};
ghost use Rattle.steady_schedule.specs.Steps.{CanHold};
ghost use Rattle.steady_schedule.specs.Waiting.{count_at, waiting, HaveMost, NoneWait};

use crate::choosing::{Choice, choose};
use crate::masks::TrialOrder;
use crate::matching::{Matching, join_free};
use crate::remaining::Remaining;
use batch::MAX_MODULES;

/// For how many settings a link 0 can be as it is: no longer than its pair has transfers, or so
/// long that it has no more of them than there are settings left.
fn zero_room(remaining: &Remaining, matching: &Matching, most: usize, module: usize) -> usize
    requires low { «module» < MAX_MODULES }
    requires most { HaveMost remaining.now.counts most }
    requires near { AreNear remaining.now.zero.near matching.now.zero }
    requires covered { AreCovered remaining.now.zero.uses most MAX_MODULES matching.now.zero }
    ensures some { 0 < result }
    ensures pair { (y : ℕ) → partner matching.now.zero «module» ≡ Some y
        → result ≡ count_at remaining.now.counts «module» y }
    ensures out { partner matching.now.zero «module» ≡ None
        → waiting remaining.now.counts Zero «module» + result ≡ most }
{
    match matching.zero[module] {
        Some(three) => remaining.count(module, three as usize),
        None => most - remaining.zero.uses[module] as usize,
    }
}

/// How long a link 3 may be held, whose pair counts at its link 0.
fn three_room(remaining: &Remaining, matching: &Matching, most: usize, module: usize) -> usize
    requires low { «module» < MAX_MODULES }
    requires some { 0 < most }
    requires most { HaveMost remaining.now.counts most }
    requires covered { AreCovered remaining.now.three.uses most MAX_MODULES matching.now.three }
    ensures some { 0 < result }
    ensures pair { (y : ℕ) → partner matching.now.three «module» ≡ Some y → result ≡ most }
    ensures out { partner matching.now.three «module» ≡ None
        → waiting remaining.now.counts Three «module» + result ≡ most }
{
    match matching.three[module] {
        Some(_) => most,
        None => most - remaining.three.uses[module] as usize,
    }
}

/// For how many settings the matching can be held at most.
pub(crate) fn longest_hold(
    remaining: &Remaining,
    matching: &Matching,
    most: usize,
    modules: usize,
) -> usize
    requires some { 0 < most }
    requires most { HaveMost remaining.now.counts most }
    requires within { modules ≤ MAX_MODULES }
    requires none { NoneWait remaining.now.counts modules }
    requires near { AreNear remaining.now.zero.near matching.now.zero }
    requires zero { AreCovered remaining.now.zero.uses most MAX_MODULES matching.now.zero }
    requires three { AreCovered remaining.now.three.uses most MAX_MODULES matching.now.three }
    ensures { CanHold remaining.now.counts matching.now.zero matching.now.three most result }
{
    let mut settings = most;
    for module in 0..modules {
        settings = settings
            .min(zero_room(remaining, matching, most, module))
            .min(three_room(remaining, matching, most, module));
    }
    settings
}

/// Makes the next matching, and says for how many of the settings that are left it can be held, and
/// no longer. Only the first `modules` have transfers that wait. No other is held longer, of those
/// that are held for up to `longest` settings; no contract says so.
pub(crate) fn next_step(
    remaining: &Remaining,
    matching: &mut Matching,
    most: usize,
    modules: usize,
    longest: usize,
    order: TrialOrder,
) -> usize
    requires some { 0 < most }
    requires few { most ≤ MAX_TRANSFERS }
    requires most { HaveMost remaining.now.counts most }
    requires within { modules ≤ MAX_MODULES }
    requires none { NoneWait remaining.now.counts modules }
    requires some_longest { 0 < longest }
    ensures can { CanHold remaining.now.counts matching.new.zero matching.new.three most result }
    ensures low { AreBelow matching.new.zero modules }
{
    let Choice {
        matching: chosen,
        reach,
        shorter: _,
    } = choose(remaining, most, modules, longest, order);
    *matching = chosen;
    join_free(&reach.zero.near, matching, modules);
    longest_hold(remaining, matching, most, modules)
}

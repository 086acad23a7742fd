//! The choice of a step's matching: one that is held as long as any.

ghost use Rattle.std.specs.Prelude.{◌≡◌, ℕ, ◌-◌, ◌<◌, ◌≤◌, Some, None, true, false, IfSome, IsSome};
ghost use Rattle.batch.specs.declared.limits.TheConstants.{MAX_MODULES, MAX_TRANSFERS};
ghost use Rattle.steady_schedule.specs.Covers.{KeepsPartners};
ghost use Rattle.link_graph.specs.Masks.{has_bit, has_pair};
ghost use Rattle.steady_schedule.specs.Matchings.{partner, AreMatched};
ghost use Rattle.steady_schedule.specs.Reaches.{AreHeld, HaveHeld, HaveEach, IsOverMask};
ghost use Rattle.steady_schedule.specs.Reaches.{JoinsNeeded, IsBarred, AreAtMost};
ghost use Rattle.steady_schedule.specs.Searches.{JoinsNear};
ghost use Rattle.steady_schedule.specs.Waiting.{HaveMost, NoneWait};

use crate::masks::{TrialOrder, first, without_module};
use crate::matching::{Matching, Partners, augment, join_free};
use crate::reach::{Holdable, Reach};
use crate::remaining::Remaining;
use batch::MAX_MODULES;
use link_graph::{End, Masks, has_module, lowest};

/// A link that has to be joined, and found no partner; and the links of the other end that the
/// search didn't see.
#[derive(Clone, Copy)]
struct Unmatched {
    link: usize,
    unseen: u32,
}

/// A matching that is held for some settings.
#[derive(Drop)]
pub(crate) struct Choice {
    pub(crate) matching: Matching,
    /// What can be held so long.
    pub(crate) reach: Reach,
    /// Where it can't be held so long, for how many settings one could be at most.
    pub(crate) shorter: usize,
}

/// Of links 0, the pairs that can be held just so long, and are used up then.
fn just_pairs(reach: &Reach, modules: usize) -> Masks
    requires { modules ≤ MAX_MODULES }
    ensures { (u v : ℕ) → has_pair result u v ≡ true
        → has_pair reach.now.zero.near u v ≡ true }
{
    let mut pairs = [0; MAX_MODULES];
    for module in 0..modules {
        pairs[module] = reach.zero.near[module] & reach.zero.just[module];
    }
    pairs
}

/// Finds a partner for a link, where it has none. Where that is in vain, gives the links that
/// weren't seen.
fn join_needed_one(held: &Holdable, x: usize, of: &mut Partners, back: &mut Partners) -> Option<u32>
    requires low { x < MAX_MODULES }
    requires matched { AreMatched of.old back.old }
    ensures matched { AreMatched of.new back.new }
    ensures near { JoinsNear held.now.near of.old of.new }
    ensures found { result ≡ None → IsSome (partner of.new x) }
    ensures needed { (z : ℕ) → has_bit held.now.needed z ≡ true → IsSome (partner of.old z)
        → IsSome (partner of.new z) }
    ensures back { KeepsPartners back.old back.new }
    ensures vain { IfSome result (λ unseen.
        IsBarred held.now.near held.now.needed unseen x of.new back.new) }
{
    if of[x].is_some() {
        return None;
    }
    let mut unseen = u32::MAX;
    if augment(x, held, of, back, &mut unseen) {
        return None;
    }
    Some(unseen)
}

/// Finds a partner for each link that has to be joined, or tells the first for which it can't.
fn join_needed(held: &Holdable, of: &mut Partners, back: &mut Partners) -> Option<Unmatched>
    requires matched { AreMatched of.old back.old }
    ensures matched { AreMatched of.new back.new }
    ensures near { JoinsNear held.now.near of.old of.new }
    ensures joined { result ≡ None → (z : ℕ) → has_bit held.now.needed z ≡ true
        → IsSome (partner of.new z) }
    ensures back { KeepsPartners back.old back.new }
    ensures vain { IfSome result (λ vain.
        IsBarred held.now.near held.now.needed vain.unseen vain.link of.new back.new) }
    ensures needed { IfSome result (λ vain. has_bit held.now.needed vain.link ≡ true) }
{
    let mut rest = held.needed;
    'links: while rest != 0 {
        let link = first(rest, held.order);
        rest = without_module(rest, link);
        if let Some(unseen) = join_needed_one(held, link, of, back) {
            return Some(Unmatched { link, unseen });
        }
    }
    None
}

/// The most transfers that a link has with one of these of the other end.
pub(crate) fn most_with(remaining: &Remaining, end: End, link: usize, others: u32) -> usize
    requires { link < MAX_MODULES }
    ensures { AreAtMost remaining.now.counts end link others result }
{
    let mut most = 0usize;
    let mut rest = remaining.side(end).near[link] & others;
    'others: while rest != 0 {
        let other = lowest(rest);
        rest = without_module(rest, other);
        most = most.max(remaining.between(end, link, other));
    }
    most
}

/// Whether a link is joined to one that was seen.
fn is_seen(partner: Option<u8>, unseen: u32) -> bool
    requires { IfSome partner (λ other. other < MAX_MODULES) }
    ensures seen { result ≡ true
        → (y : ℕ) × (partner ≡ Some y) × (has_bit unseen y ≡ false) }
    ensures unseen { result ≡ false
        → (y : ℕ) → partner ≡ Some y → has_bit unseen y ≡ true }
{
    match partner {
        Some(other) => !has_module(unseen, other as usize),
        None => false,
    }
}

/// For how many settings a matching could be held at most, where a link found no partner for as
/// many as were tried. For more the same links stand in the way: this one, and those that are
/// joined to links that were seen. Each of them has to be joined then, and can't be to a link that
/// wasn't seen. So they are one more than the links that they can be joined to. No contract says
/// so.
fn shorter(
    remaining: &Remaining,
    end: End,
    vain: Unmatched,
    of: &Partners,
    most: usize,
    modules: usize,
    tried: usize,
) -> usize
    requires within { modules ≤ MAX_MODULES }
    requires most { HaveMost remaining.now.counts most }
    requires low { (x y : ℕ) → partner of.now x ≡ Some y → y < MAX_MODULES }
    requires more { 1 < tried }
    ensures some { 0 < result }
    ensures less { result < tried }
{
    let mut settings = 0usize;
    for link in 0..modules {
        if link == vain.link || is_seen(of[link], vain.unseen) {
            settings = settings
                .max(most - remaining.side(end).uses[link] as usize)
                .max(most_with(remaining, end, link, vain.unseen));
        }
    }
    if settings == 0 || settings >= tried {
        return tried - 1;
    }
    settings
}

/// Joins all links that have to be joined. Where it can't, gives for how many settings a matching
/// could be held at most. A matching can be held for one setting. Else links in the way would all
/// be full, and have transfers with links alone that were seen. These would have more than they
/// may.
fn join_all_needed(
    remaining: &Remaining,
    reach: &Reach,
    matching: &mut Matching,
    most: usize,
    modules: usize,
) -> usize
    requires within { modules ≤ MAX_MODULES }
    requires none { NoneWait remaining.now.counts modules }
    requires most { HaveMost remaining.now.counts most }
    requires some { 0 < reach.now.settings }
    requires left { reach.now.settings ≤ most }
    requires held { AreHeld remaining.now.counts reach.now.settings
        reach.now.zero.near reach.now.three.near }
    requires all { HaveHeld remaining.now.counts reach.now.settings modules
        reach.now.zero.near reach.now.three.near }
    requires zero_needed { IsOverMask remaining.now.zero.uses (most - reach.now.settings) modules
        reach.now.zero.needed }
    requires three_needed { IsOverMask remaining.now.three.uses (most - reach.now.settings) modules
        reach.now.three.needed }
    requires each { HaveEach remaining.now.counts reach.now.settings matching.old.zero }
    ensures each { HaveEach remaining.now.counts reach.now.settings matching.new.zero }
    ensures joined { result ≡ 0 → JoinsNeeded remaining.now.counts
        matching.new.zero matching.new.three most reach.now.settings }
    ensures less { result < reach.now.settings }
{
    let tried = reach.settings;
    let in_vain = join_needed(&reach.zero, &mut matching.zero, &mut matching.three);
    if let Some(vain) = in_vain {
        let of = &matching.zero;
        return shorter(remaining, End::Zero, vain, of, most, modules, tried);
    }
    let in_vain = join_needed(&reach.three, &mut matching.three, &mut matching.zero);
    if let Some(vain) = in_vain {
        let of = &matching.three;
        return shorter(remaining, End::Three, vain, of, most, modules, tried);
    }
    0
}

impl Choice {
    /// One that is held for so many settings, as far as that can be. It has many of the pairs that
    /// are used up then; no contract says so.
    fn of(
        remaining: &Remaining,
        most: usize,
        modules: usize,
        settings: usize,
        order: TrialOrder,
    ) -> Choice
        requires within { modules ≤ MAX_MODULES }
        requires none { NoneWait remaining.now.counts modules }
        requires few { most ≤ MAX_TRANSFERS }
        requires most { HaveMost remaining.now.counts most }
        requires some { 0 < settings }
        requires left { settings ≤ most }
        ensures settings { result.reach.settings ≡ settings }
        ensures each { HaveEach remaining.now.counts settings result.matching.zero }
        ensures held { AreHeld remaining.now.counts settings
            result.reach.zero.near result.reach.three.near }
        ensures joined { result.shorter ≡ 0 → JoinsNeeded remaining.now.counts
            result.matching.zero result.matching.three most settings }
        ensures shorter { result.shorter < settings }
    {
        let reach = Reach::of(remaining, most, modules, settings, order);
        let mut matching = Matching::none();
        join_free(&just_pairs(&reach, modules), &mut matching, modules);
        let shorter = join_all_needed(remaining, &reach, &mut matching, most, modules);
        Choice {
            matching,
            reach,
            shorter,
        }
    }
}

/// A matching that can be held as long as any, up to `longest` settings. No contract says that none
/// can be held longer.
pub(crate) fn choose(
    remaining: &Remaining,
    most: usize,
    modules: usize,
    longest: usize,
    order: TrialOrder,
) -> Choice
    requires within { modules ≤ MAX_MODULES }
    requires none { NoneWait remaining.now.counts modules }
    requires some { 0 < most }
    requires few { most ≤ MAX_TRANSFERS }
    requires most { HaveMost remaining.now.counts most }
    requires some_longest { 0 < longest }
    ensures some { 0 < result.reach.settings }
    ensures each { HaveEach remaining.now.counts result.reach.settings result.matching.zero }
    ensures held { AreHeld remaining.now.counts result.reach.settings
        result.reach.zero.near result.reach.three.near }
    ensures joined { JoinsNeeded remaining.now.counts result.matching.zero result.matching.three
        most result.reach.settings }
{
    let mut choice = Choice::of(remaining, most, modules, longest.min(most), order);
    'lengths: while choice.shorter > 0 {
        let shorter = choice.shorter;
        choice = Choice::of(remaining, most, modules, shorter, order);
    }
    choice
}

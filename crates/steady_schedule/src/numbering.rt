//! The number of its setting for each transfer, and the settings that these make.

ghost use Rattle.std.specs.Prelude.{◌≡◌, ◌≢◌, ℕ, ◌+◌, ◌-◌, ◌*◌, ◌<◌, ◌≤◌, All, Some, None, length};
ghost use Rattle.std.specs.Prelude.{set, IfOk, slice_index};
ghost use Rattle.batch.specs.Batches.{IsBatch};
ghost use Rattle.batch.specs.declared.limits.TheConstants.{MAX_MODULES, MAX_TRANSFERS};
ghost use Rattle.link_graph.specs.declared.link.Link.{Link};
ghost use Rattle.link_graph.specs.Counts.{uses};
ghost use Rattle.link_graph.specs.Schedules.{lists_of};
ghost use Rattle.steady_schedule.specs.Matchings.{partner, AreBelow};
ghost use Rattle.steady_schedule.specs.Searches.{AreNear};
ghost use Rattle.steady_schedule.specs.Slots.{slot, AreFirstSlots, AreSlotsOf, IsKeptFor, IsHeldAs};
ghost use Rattle.steady_schedule.specs.Slots.{AreNumbered, AreNumberedFrom, KeepNumbers};
ghost use Rattle.steady_schedule.specs.Slots.{AreSlotsFilled, AreReadInto, AreFilled};
ghost use Rattle.steady_schedule.specs.Slots.{AreSlotsBelow, AreNumberedSettings};
ghost use Rattle.steady_schedule.specs.Steps.{AreTaken, CanHold};
ghost use Rattle.steady_schedule.specs.Waiting.{sum_below, pair_index, count_at, ArePairCounts};
ghost use Rattle.steady_schedule.specs.Waiting.{HaveMost, NoneWait};

use crate::gathering::{empty_lists, push_into};
use crate::masks::{PLAN_WAYS, PlanWay, TrialOrder};
use crate::matching::{Matching, part};
use crate::remaining::{PAIRS, Remaining};
use crate::stepping::next_step;
use crate::weighing::weighed_step;
use batch::{MAX_MODULES, MAX_TRANSFERS};
use link_graph::LinkGraph;
use std::alloc::{AllocError, Global};

/// Where the slots of each pair of links begin. There is one for each of its transfers.
#[derive(Drop)]
struct SlotTable<'a> {
    totals: &'a [u32; PAIRS],
    starts: &'a [u32; PAIRS],
    /// How many slots there are.
    room: usize,
    ghost placed: { AreFirstSlots totals.now starts.now room },
}

impl<'a> SlotTable<'a> {
    /// Places for so many transfers of each pair, which are kept in `starts`.
    fn of(totals: &'a [u32; PAIRS], starts: &'a mut [u32; PAIRS]) -> SlotTable<'a>
        requires { All (λ total. total ≤ MAX_TRANSFERS) totals.now }
        ensures { result.totals.now ≡ totals.now }
    {
        let mut room = 0;
        for place in 0..PAIRS {
            starts[place] = room;
            room += totals[place];
        }
        SlotTable {
            totals,
            starts,
            room: room as usize,
        }
    }

    /// Where slot `i` of a pair is, or where its last one ends.
    fn slot(&self, zero: usize, three: usize, i: usize) -> usize
        requires zero_in { zero < MAX_MODULES }
        requires three_in { three < MAX_MODULES }
        requires there { i ≤ count_at self.now.totals.now zero three }
        ensures { result ≡ sum_below (pair_index zero three) (slice_index self.now.totals.now) + i }
    {
        self.starts[zero * MAX_MODULES + three] as usize + i
    }
}

/// Writes the numbers of some settings into slots, the first of them last.
fn write_pair(slots: &mut [usize], at: usize, first: usize, settings: usize)
    requires room { at + settings ≤ length slots.old }
    requires few { first + settings ≤ MAX_TRANSFERS }
    ensures { AreSlotsFilled at first settings slots.old slots.new }
{
    let end = at + settings;
    for place in at..end {
        slots[place] = first + (end - 1 - place);
    }
}

/// Holds the pair of a link 0, where it is joined, for some settings: takes as many of its
/// transfers, and writes the numbers of the settings for them. Parts it where none is left.
#[tactic(auto, using(crate::proofs::Matchings::partner_low))]
fn hold_one(
    remaining: &mut Remaining,
    matching: &mut Matching,
    places: &SlotTable<'_>,
    slots: &mut [usize],
    zero: usize,
    first: usize,
    settings: usize,
)
    requires zero_in { zero < MAX_MODULES }
    requires some { 0 < settings }
    requires there { (y : ℕ) → partner matching.old.zero zero ≡ Some y
        → settings ≤ count_at remaining.old.counts zero y }
    requires few { first + settings ≤ MAX_TRANSFERS }
    requires within { AreSlotsOf places.now.totals.now remaining.old.counts slots.old }
    ensures free { partner matching.old.zero zero ≡ None
        → IsHeldAs remaining.old.counts slots.old remaining.new.counts slots.new }
    ensures joined { (y : ℕ) → partner matching.old.zero zero ≡ Some y
        → IsKeptFor places.now.totals.now zero y first settings
        remaining.old.counts slots.old remaining.new.counts slots.new }
    ensures rest { (y : ℕ) → partner matching.new.zero zero ≡ Some y
        → 0 < count_at remaining.new.counts zero y }
    ensures others { (x : ℕ) → x ≢ zero
        → partner matching.new.zero x ≡ partner matching.old.zero x }
{
    let Some(three) = matching.zero[zero] else {
        return;
    };
    let three = three as usize;
    remaining.take(zero, three, settings);
    let rest = remaining.count(zero, three);
    let at = places.slot(zero, three, rest);
    write_pair(slots, at, first, settings);
    if rest == 0 {
        part(&mut matching.zero, &mut matching.three, zero, three);
    }
}

/// Holds the matching for some settings, and parts the pairs of which no transfer is left. Links 0
/// of the modules from `modules` on are free.
fn hold(
    remaining: &mut Remaining,
    matching: &mut Matching,
    places: &SlotTable<'_>,
    slots: &mut [usize],
    first: usize,
    settings: usize,
    modules: usize,
)
    requires some { 0 < settings }
    requires within { modules ≤ MAX_MODULES }
    requires low { AreBelow matching.old.zero modules }
    requires there { (x y : ℕ) → partner matching.old.zero x ≡ Some y
        → settings ≤ count_at remaining.old.counts x y }
    requires few { first + settings ≤ MAX_TRANSFERS }
    requires numbered { AreNumbered places.now.totals.now remaining.old.counts slots.old first }
    ensures taken { AreTaken matching.old.zero settings MAX_MODULES
        remaining.old.counts remaining.new.counts }
    ensures near { AreNear remaining.new.zero.near matching.new.zero }
    ensures numbered { AreNumberedFrom matching.old.zero first MAX_MODULES
        places.now.totals.now remaining.new.counts slots.new (first + settings) }
    ensures kept { KeepNumbers places.now.totals.now first
        remaining.old.counts slots.old remaining.new.counts slots.new }
{
    for zero in 0..modules {
        hold_one(remaining, matching, places, slots, zero, first, settings);
    }
}

/// Makes the next matching, and says for how many of the settings that are left it can be held, and
/// no longer. While looks are left it uses up as many pairs as is found. Else it is held as long as
/// any, up to `longest` settings, and that is the longest then.
fn any_step(
    remaining: &Remaining,
    matching: &mut Matching,
    most: usize,
    modules: usize,
    longest: &mut usize,
    looks: &mut usize,
    order: TrialOrder,
) -> usize
    requires some { 0 < most }
    requires few { most ≤ MAX_TRANSFERS }
    requires most { HaveMost remaining.now.counts most }
    requires within { modules ≤ MAX_MODULES }
    requires none { NoneWait remaining.now.counts modules }
    requires some_longest { 0 < longest.old }
    ensures can { CanHold remaining.now.counts matching.new.zero matching.new.three most result }
    ensures low { AreBelow matching.new.zero modules }
    ensures some_longest { 0 < longest.new }
{
    if let Some(held) = weighed_step(remaining, matching, most, modules, *longest, looks) {
        return held;
    }
    let held = next_step(remaining, matching, most, modules, *longest, order);
    *longest = held;
    held
}

/// Writes the numbers of their settings for all transfers that wait, by steps that are made so.
/// Gives how many steps that makes; no contract says so. Where it can't make fewer than `enough` it
/// ends early, and gives that. No step can be longer than `longest`; gives how long the first one
/// can be, too.
fn fill(
    remaining: &Remaining,
    places: &SlotTable<'_>,
    slots: &mut [usize],
    settings: usize,
    enough: usize,
    longest: usize,
    way: PlanWay,
) -> (usize, usize)
    requires whole { remaining.now.counts ≡ places.now.totals.now }
    requires most { HaveMost remaining.now.counts settings }
    requires few { settings ≤ MAX_TRANSFERS }
    requires room { length slots.old
        ≡ sum_below (MAX_MODULES * MAX_MODULES) (slice_index places.now.totals.now) }
    requires some_longest { 0 < longest }
    ensures filled { result.0 < enough → AreFilled places.now.totals.now slots.new settings }
    ensures fewer { settings < enough → result.0 < enough }
    ensures some_longest { 0 < result.1 }
{
    let mut left = *remaining;
    let modules = left.modules();
    let mut matching = Matching::none();
    let mut looks = way.looks.saturating_mul(slots.len() / modules.max(1));
    let mut first = 0;
    let mut steps = 0usize;
    let mut longest_now = longest;
    let mut top = longest;
    'steps: while first < settings {
        let most = settings - first;
        if enough <= steps + (most - 1) / longest_now + 1 {
            return (enough, top);
        }
        let held = any_step(
            &left,
            &mut matching,
            most,
            modules,
            &mut longest_now,
            &mut looks,
            way.order,
        );
        if first == 0 {
            top = longest_now;
        }
        hold(
            &mut left,
            &mut matching,
            places,
            slots,
            first,
            held,
            modules,
        );
        first += held;
        steps += 1;
    }
    (steps, top)
}

/// Does so in the way that makes the fewest steps. It tries no more ways where one makes as few as
/// can be by what one link has. No contract says so. The slots of others are written into `spare`.
fn fill_best(
    remaining: &Remaining,
    places: &SlotTable<'_>,
    slots: &mut [usize],
    spare: &mut [usize],
    settings: usize,
)
    requires whole { remaining.now.counts ≡ places.now.totals.now }
    requires most { HaveMost remaining.now.counts settings }
    requires few { settings ≤ MAX_TRANSFERS }
    requires room { length slots.old
        ≡ sum_below (MAX_MODULES * MAX_MODULES) (slice_index places.now.totals.now) }
    requires spare { length spare.old ≡ length slots.old }
    ensures { AreFilled places.now.totals.now slots.new settings }
{
    let (mut best, longest) = fill(
        remaining,
        places,
        slots,
        settings,
        settings + 1,
        MAX_TRANSFERS,
        PLAN_WAYS[0],
    );
    for place in 1..PLAN_WAYS.len() {
        if best <= remaining.least_steps(settings) {
            return;
        }
        let (steps, _) = fill(
            remaining,
            places,
            spare,
            settings,
            best,
            longest,
            PLAN_WAYS[place],
        );
        if steps < best {
            best = steps;
            slots.copy_from_slice(spare);
        }
    }
}

/// The number of a pair's next transfer: that of its last slot that is left.
fn next_number(
    remaining: &mut [u32; PAIRS],
    places: &SlotTable<'_>,
    slots: &[usize],
    zero: usize,
    three: usize,
) -> usize
    requires zero_in { zero < MAX_MODULES }
    requires three_in { three < MAX_MODULES }
    requires some { 0 < count_at remaining.old zero three }
    requires there { count_at remaining.old zero three ≤ count_at places.now.totals.now zero three }
    requires room { length slots.now
        ≡ sum_below (MAX_MODULES * MAX_MODULES) (slice_index places.now.totals.now) }
    ensures remaining { remaining.new
        ≡ set remaining.old (pair_index zero three) (count_at remaining.old zero three - 1) }
    ensures number { result
        ≡ slot places.now.totals.now slots.now zero three (count_at remaining.old zero three - 1) }
{
    let place = zero * MAX_MODULES + three;
    remaining[place] -= 1;
    slots[places.slot(zero, three, remaining[place] as usize)]
}

/// The settings, in which each transfer stands by its number. Numbers of transfers ascend in each.
fn read_all(
    alloc: Global,
    graph: &LinkGraph,
    places: &SlotTable<'_>,
    slots: &[usize],
    settings: usize,
) -> Result<Vec<Vec<usize>>, AllocError>
    requires batch { IsBatch graph.now }
    requires counted { ArePairCounts graph.now places.now.totals.now }
    requires room { length slots.now
        ≡ sum_below (MAX_MODULES * MAX_MODULES) (slice_index places.now.totals.now) }
    requires below { AreSlotsBelow places.now.totals.now slots.now settings }
    ensures { IfOk result (λ lists. AreReadInto graph.now places.now.totals.now slots.now settings
        (length graph.now) (lists_of lists.items)) }
{
    let room = MAX_MODULES.min(2 * graph.len() / settings.max(1));
    let mut lists = empty_lists(alloc, settings, room)?;
    let mut remaining = *places.totals;
    for t in 0..graph.len() {
        let (start, answer) = graph.ends_of(t);
        let number = next_number(&mut remaining, places, slots, start.module, answer.module);
        push_into(&mut lists, number, t)?;
    }
    Ok(lists)
}

/// The settings of all transfers, by way of slots in which no number is written yet.
fn settings_by(
    alloc: Global,
    graph: &LinkGraph,
    settings: usize,
    remaining: &Remaining,
    places: &SlotTable<'_>,
    slots: &mut [usize],
    spare: &mut [usize],
) -> Result<Vec<Vec<usize>>, AllocError>
    requires batch { IsBatch graph.now }
    requires counted { ArePairCounts graph.now places.now.totals.now }
    requires whole { remaining.now.counts ≡ places.now.totals.now }
    requires most { HaveMost remaining.now.counts settings }
    requires few { settings ≤ MAX_TRANSFERS }
    requires room { length slots.old
        ≡ sum_below (MAX_MODULES * MAX_MODULES) (slice_index places.now.totals.now) }
    requires spare { length spare.old ≡ length slots.old }
    ensures { IfOk result (λ lists. AreNumberedSettings graph.now settings (lists_of lists.items)) }
{
    fill_best(remaining, places, slots, spare, settings);
    let lists = read_all(alloc, graph, places, slots, settings)?;
    Ok(lists)
}

/// So many settings of all transfers, where the busiest link has as many transfers.
pub(crate) fn settings_of(
    alloc: Global,
    graph: &LinkGraph,
    settings: usize,
) -> Result<Vec<Vec<usize>>, AllocError>
    requires batch { IsBatch graph.now }
    requires most { (link : Link) → uses graph.now link ≤ settings }
    requires few { settings ≤ MAX_TRANSFERS }
    ensures { IfOk result (λ lists. AreNumberedSettings graph.now settings (lists_of lists.items)) }
{
    let mut remaining = Remaining::none();
    remaining.add_all(graph);
    // Each place is written over, and a copy costs less than zeros
    let mut starts = remaining.counts;
    let places = SlotTable::of(&remaining.counts, &mut starts);
    let mut slots = vec![in alloc; 0; places.room]?;
    let mut spare = vec![in alloc; 0; places.room]?;
    settings_by(
        alloc, graph, settings, &remaining, &places, &mut slots, &mut spare,
    )
}

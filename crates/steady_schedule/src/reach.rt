//! What a step can hold for some settings.

ghost use Rattle.std.specs.Prelude.{◌≡◌, ℕ, ◌+◌, ◌-◌, ◌<◌, ◌≤◌, ◌||◌, ◌&&◌, ◌==◌, false};
ghost use Rattle.batch.specs.declared.limits.TheConstants.{MAX_MODULES, MAX_TRANSFERS};
ghost use Rattle.link_graph.specs.Masks.{has_pair};
ghost use Rattle.steady_schedule.specs.Reaches.{AreHeld, HaveHeld, IsOverMask};

use crate::masks::{TrialOrder, with_module, without_module};
use crate::remaining::Remaining;
use batch::MAX_MODULES;
use link_graph::{Masks, lowest};

/// Of the links of one end, what can be held for some settings.
#[derive(Drop)]
pub(crate) struct Holdable {
    /// For each link those of the other end with which it has so many transfers.
    pub(crate) near: Masks,
    /// The partners with which it has just so many: such a pair is used up then. No contract says
    /// so.
    pub(crate) just: Masks,
    /// The links that have more transfers than there are settings left then.
    pub(crate) needed: u32,
    /// In which order links are tried. No contract says so.
    pub(crate) order: TrialOrder,
}

/// What can be held for some settings.
#[derive(Drop)]
pub(crate) struct Reach {
    /// For how many.
    pub(crate) settings: usize,
    pub(crate) zero: Holdable,
    pub(crate) three: Holdable,
}

impl Holdable {
    /// No pairs.
    pub(crate) fn none(needed: u32, order: TrialOrder) -> Holdable
        ensures near { (u v : ℕ) → has_pair result.near u v ≡ false }
        ensures needed { result.needed ≡ needed }
    {
        Holdable {
            near: [0; MAX_MODULES],
            just: [0; MAX_MODULES],
            needed,
            order,
        }
    }

    /// Adds a pair, by the link of this end.
    fn add(&mut self, link: usize, other: usize, is_just: bool)
        requires link { link < MAX_MODULES }
        requires other { other < MAX_MODULES }
        ensures near { (u v : ℕ) → has_pair self.new.near u v
            ≡ (has_pair self.old.near u v || (link == u && other == v)) }
        ensures needed { self.new.needed ≡ self.old.needed }
    {
        self.near[link] = with_module(self.near[link], other);
        if is_just {
            self.just[link] = with_module(self.just[link], other);
        }
    }
}

/// A mask of the links that have more than so many transfers, of the first modules.
fn over(uses: &[u32; MAX_MODULES], count: usize, modules: usize) -> u32
    requires few { count ≤ MAX_TRANSFERS }
    requires within { modules ≤ MAX_MODULES }
    ensures { IsOverMask uses.now count modules result }
{
    let mut mask = 0;
    for module in 0..modules {
        if uses[module] > count as u32 {
            mask = with_module(mask, module);
        }
    }
    mask
}

impl Reach {
    /// Adds the pairs of a link 0.
    fn add_row(&mut self, remaining: &Remaining, zero: usize)
        requires low { zero < MAX_MODULES }
        requires some { 0 < self.old.settings }
        requires held { AreHeld remaining.now.counts self.old.settings
            self.old.zero.near self.old.three.near }
        requires all { HaveHeld remaining.now.counts self.old.settings zero
            self.old.zero.near self.old.three.near }
        ensures held { AreHeld remaining.now.counts self.new.settings
            self.new.zero.near self.new.three.near }
        ensures all { HaveHeld remaining.now.counts self.new.settings (zero + 1)
            self.new.zero.near self.new.three.near }
        ensures settings { self.new.settings ≡ self.old.settings }
        ensures zero_needed { self.new.zero.needed ≡ self.old.zero.needed }
        ensures three_needed { self.new.three.needed ≡ self.old.three.needed }
    {
        let mut rest = remaining.zero.near[zero];
        'links: while rest != 0 {
            let three = lowest(rest);
            rest = without_module(rest, three);
            let count = remaining.count(zero, three);
            if count >= self.settings {
                self.zero.add(zero, three, count == self.settings);
                self.three.add(three, zero, count == self.settings);
            }
        }
    }

    /// What can be held for so many of the settings that are left.
    pub(crate) fn of(
        remaining: &Remaining,
        most: usize,
        modules: usize,
        settings: usize,
        order: TrialOrder,
    ) -> Reach
        requires some { 0 < settings }
        requires few { most ≤ MAX_TRANSFERS }
        requires left { settings ≤ most }
        requires within { modules ≤ MAX_MODULES }
        ensures held { AreHeld remaining.now.counts settings result.zero.near result.three.near }
        ensures all { HaveHeld remaining.now.counts settings modules
            result.zero.near result.three.near }
        ensures zero_needed { IsOverMask remaining.now.zero.uses (most - settings) modules
            result.zero.needed }
        ensures three_needed { IsOverMask remaining.now.three.uses (most - settings) modules
            result.three.needed }
        ensures settings { result.settings ≡ settings }
    {
        let mut reach = Reach {
            settings,
            zero: Holdable::none(over(&remaining.zero.uses, most - settings, modules), order),
            three: Holdable::none(over(&remaining.three.uses, most - settings, modules), order),
        };
        for zero in 0..modules {
            reach.add_row(remaining, zero);
        }
        reach
    }
}

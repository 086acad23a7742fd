//! The transfers of each pair of links that wait for a setting.

ghost use Rattle.std.specs.Prelude.{◌≡◌, ℕ, ◌+◌, ◌-◌, ◌<◌, ◌≤◌, [], nat_lt, set, slice_index};
ghost use Rattle.batch.specs.Batches.{IsBatch};
ghost use Rattle.batch.specs.declared.limits.TheConstants.{MAX_MODULES, MAX_TRANSFERS};
ghost use Rattle.link_graph.specs.declared.link.End.{End};
ghost use Rattle.link_graph.specs.Masks.{has_pair};
ghost use Rattle.steady_schedule.specs.Waiting.{pair_index, count_at, count_between, waiting};
ghost use Rattle.steady_schedule.specs.Waiting.{ArePairCounts, AreSummaries, NoneWait};

use crate::masks::{with_module, without_module};
use batch::MAX_MODULES;
use link_graph::{End, LinkGraph, Masks};

/// How many pairs of a link 0 and a link 3 there are.
pub(crate) const PAIRS: usize = MAX_MODULES * MAX_MODULES;

/// The links of one end.
#[derive(Clone, Copy)]
pub(crate) struct EndCounts {
    /// For each link those of the other end with which it has transfers that wait.
    pub(crate) near: Masks,
    /// How many transfers of each link wait.
    pub(crate) uses: [u32; MAX_MODULES],
}

impl EndCounts {
    /// How many steps so many settings have at least, by the links of this end: those in which a
    /// link is joined to each of its partners, and one where it is idle. No contract says so.
    fn least_steps(&self, settings: usize) -> usize {
        let mut least = 0;
        for module in 0..MAX_MODULES {
            let idle = self.uses[module] as usize != settings;
            least = least.max(self.near[module].count_ones() as usize + idle as usize);
        }
        least
    }
}

/// How many transfers of each pair of links wait for a setting.
#[derive(Clone, Copy)]
pub(crate) struct Remaining {
    /// Transfers of link 0 of module u with link 3 of module v are at the place
    /// `u * MAX_MODULES + v`.
    pub(crate) counts: [u32; PAIRS],
    pub(crate) zero: EndCounts,
    pub(crate) three: EndCounts,
    ghost told: { AreSummaries counts zero.near zero.uses three.near three.uses },
}

impl Remaining {
    /// No transfers.
    pub(crate) fn none() -> Remaining
        ensures { ArePairCounts [] result.counts }
    {
        Remaining {
            counts: [0; PAIRS],
            zero: EndCounts {
                near: [0; MAX_MODULES],
                uses: [0; MAX_MODULES],
            },
            three: EndCounts {
                near: [0; MAX_MODULES],
                uses: [0; MAX_MODULES],
            },
        }
    }

    /// Adds all transfers of a graph, where there are none yet.
    pub(crate) fn add_all(&mut self, graph: &LinkGraph)
        requires batch { IsBatch graph.now }
        requires none { ArePairCounts [] self.old.counts }
        ensures { ArePairCounts graph.now self.new.counts }
    {
        for t in 0..graph.len() {
            let (start, answer) = graph.ends_of(t);
            self.add(start.module, answer.module);
        }
    }

    /// How many modules count: no transfer of those from there on waits.
    pub(crate) fn modules(&self) -> usize
        ensures within { result ≤ MAX_MODULES }
        ensures none { NoneWait self.now.counts result }
    {
        let mut modules = 0;
        for module in 0..MAX_MODULES {
            if self.zero.uses[module] > 0 || self.three.uses[module] > 0 {
                modules = module + 1;
            }
        }
        modules
    }

    /// How many transfers of a pair wait.
    pub(crate) fn count(&self, zero: usize, three: usize) -> usize
        requires zero_in { zero < MAX_MODULES }
        requires three_in { three < MAX_MODULES }
        ensures { result ≡ count_at self.now.counts zero three }
    {
        self.counts[zero * MAX_MODULES + three] as usize
    }

    /// The links of an end.
    pub(crate) fn side(&self, end: End) -> &EndCounts
        ensures uses { (m : ℕ) → m < MAX_MODULES
            → slice_index result.now.uses m ≡ waiting self.now.counts end m }
        ensures near { (x y : ℕ) → x < MAX_MODULES → y < MAX_MODULES
            → has_pair result.now.near x y ≡ nat_lt 0 (count_between self.now.counts end x y) }
    {
        match end {
            End::Zero => &self.zero,
            End::Three => &self.three,
        }
    }

    /// How many transfers of a link of an end with one of the other end wait.
    pub(crate) fn between(&self, end: End, link: usize, other: usize) -> usize
        requires link { link < MAX_MODULES }
        requires other { other < MAX_MODULES }
        ensures { result ≡ count_between self.now.counts end link other }
    {
        match end {
            End::Zero => self.count(link, other),
            End::Three => self.count(other, link),
        }
    }

    /// How many steps so many settings have at least. No contract says so.
    pub(crate) fn least_steps(&self, settings: usize) -> usize {
        self.zero
            .least_steps(settings)
            .max(self.three.least_steps(settings))
    }

    /// One transfer more waits.
    fn add(&mut self, zero: usize, three: usize)
        requires zero_in { zero < MAX_MODULES }
        requires three_in { three < MAX_MODULES }
        requires few { (end : End) (m : ℕ) → m < MAX_MODULES
            → waiting self.old.counts end m < MAX_TRANSFERS }
        ensures { self.new.counts ≡ set self.old.counts (pair_index zero three)
            (count_at self.old.counts zero three + 1) }
    {
        self.counts[zero * MAX_MODULES + three] += 1;
        self.zero.uses[zero] += 1;
        self.three.uses[three] += 1;
        self.zero.near[zero] = with_module(self.zero.near[zero], three);
        self.three.near[three] = with_module(self.three.near[three], zero);
    }

    /// Some transfers of a pair wait no more.
    pub(crate) fn take(&mut self, zero: usize, three: usize, count: usize)
        requires zero_in { zero < MAX_MODULES }
        requires three_in { three < MAX_MODULES }
        requires some { 0 < count }
        requires few { count ≤ MAX_TRANSFERS }
        requires there { count ≤ count_at self.old.counts zero three }
        ensures { self.new.counts ≡ set self.old.counts (pair_index zero three)
            (count_at self.old.counts zero three - count) }
    {
        let place = zero * MAX_MODULES + three;
        let taken = count as u32;
        self.counts[place] -= taken;
        self.zero.uses[zero] -= taken;
        self.three.uses[three] -= taken;
        if self.counts[place] > 0 {
            return;
        }
        self.zero.near[zero] = without_module(self.zero.near[zero], three);
        self.three.near[three] = without_module(self.three.near[three], zero);
    }
}

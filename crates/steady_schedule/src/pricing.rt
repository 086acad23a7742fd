//! Prices of links, which show how often a schedule has to change the switch.

ghost use Rattle.std.specs.Prelude.{◌≡◌, ℕ, ◌+◌, ◌-◌, ◌*◌, ◌<◌, ◌≤◌, Bool, true, length};
ghost use Rattle.std.specs.Prelude.{slice_index};
ghost use Rattle.batch.specs.Batches.{IsBatch};
ghost use Rattle.batch.specs.declared.limits.TheConstants.{MAX_MODULES, MAX_TRANSFERS};
ghost use Rattle.link_graph.specs.declared.limits.TheConstants.{LINKS};
ghost use Rattle.steady_schedule.specs.Prices.{LimitsSteps, CostsAtLeast, price_at, price_for};
ghost use Rattle.steady_schedule.specs.Prices.{number_for, AreFair, NoneCostsMore, ShowChanges};
ghost use Rattle.steady_schedule.specs.Waiting.{sum_below, waiting, ArePairCounts, HaveMost};

use crate::remaining::Remaining;
use batch::{MAX_MODULES, MAX_TRANSFERS};
use link_graph::{LINKS, Link, LinkGraph};

/// The prices of a length add up to this at most.
pub(crate) const SCALE: u64 = 1 << 16;

/// How many places there are for a link's partners: one for each module, and one for none.
const PLACES: usize = MAX_MODULES + 1;

/// How many lengths there are, with none.
const LENGTHS: usize = MAX_TRANSFERS + 1;

/// What the steps of each schedule of a batch with so many settings make up.
#[derive(Drop)]
pub(crate) struct Needs<'a> {
    pub(crate) graph: &'a LinkGraph,
    pub(crate) remaining: Remaining,
    pub(crate) settings: usize,
    /// A link that has a transfer in each setting.
    pub(crate) busiest: Link,
    /// The most that it has with any partner: no step is longer.
    pub(crate) top: usize,
    ghost batch: { IsBatch graph.now },
    ghost counted: { ArePairCounts graph.now remaining.counts },
    ghost most: { HaveMost remaining.counts settings },
    ghost few: { settings ≤ MAX_TRANSFERS },
    ghost some_top: { 0 < top },
    ghost few_top: { top ≤ MAX_TRANSFERS },
    ghost longest: { LimitsSteps remaining.counts settings busiest top },
}

impl Needs<'_> {
    /// How many transfers a link 0 and a link 3 have; where the one or the other is none, in how
    /// many settings the other is idle.
    fn number(&self, zero: usize, three: usize) -> usize
        requires zero { zero ≤ MAX_MODULES }
        requires three { three ≤ MAX_MODULES }
        ensures few { result ≤ MAX_TRANSFERS }
        ensures number { result
            ≡ number_for self.now.remaining.counts self.now.settings zero three }
    {
        match (zero < MAX_MODULES, three < MAX_MODULES) {
            (true, true) => self.remaining.count(zero, three),
            (true, false) => self.settings - self.remaining.zero.uses[zero] as usize,
            (false, true) => self.settings - self.remaining.three.uses[three] as usize,
            (false, false) => 0,
        }
    }

    /// What it costs at least to make up each number of a link 0, or of those links 3 that are
    /// idle.
    fn costs_of(
        &self,
        prices: &[u32],
        zero: usize,
        ways: &mut CoverCosts,
        pieces: &mut [u32],
    ) -> u64
        requires fair { AreFair prices.now self.now.top }
        requires zero { zero ≤ MAX_MODULES }
        requires pieces { length pieces.old ≡ length prices.now }
        ensures low { result ≤ (MAX_MODULES + 1) * 536870912 }
        ensures cheapest { (most : ℕ → ℕ → ℕ)
            → NoneCostsMore self.now.remaining.counts self.now.settings prices.now self.now.top most
            → result ≤ sum_below (MAX_MODULES + 1) (most zero) }
    {
        let mut total = 0;
        for three in 0..PLACES {
            let number = self.number(zero, three);
            total += ways.cost_of(prices, self.top, number, zero, three, pieces) as u64;
        }
        total
    }

    /// How many changes these prices show. Counts the pieces of the cheapest ways.
    pub(crate) fn shown_by(
        &self,
        prices: &[u32],
        ways: &mut CoverCosts,
        pieces: &mut [u32],
    ) -> usize
        requires sized { length prices.now ≡ (self.now.top + 1) * LINKS }
        requires pieces { length pieces.old ≡ length prices.now }
        ensures { ShowChanges self.now.graph.now self.now.settings prices.now self.now.top result }
    {
        if !are_fair(prices, self.top) {
            return 0;
        }
        let mut total = 0;
        for zero in 0..PLACES {
            total += self.costs_of(prices, zero, ways, pieces);
        }
        ((total + (SCALE - 1)) / SCALE) as usize
    }
}

/// A price for each length of a step, and what it costs at least to make up each number of these.
#[derive(Drop)]
pub(crate) struct CoverCosts {
    price: [u32; LENGTHS],
    costs: [u32; LENGTHS],
    /// How many sums of two costs may still be made.
    pub(crate) left: usize,
}

impl CoverCosts {
    pub(crate) fn none(left: usize) -> CoverCosts {
        CoverCosts {
            price: [0; LENGTHS],
            costs: [0; LENGTHS],
            left,
        }
    }

    /// Takes the prices of a pair, or of a link that is idle, for lengths up to `top`. Says whether
    /// any isn't 0; no contract says so.
    fn take_prices(&mut self, prices: &[u32], top: usize, zero: usize, three: usize) -> bool
        requires fair { AreFair prices.now top }
        ensures { (k : ℕ) → 0 < k → k ≤ top
            → slice_index self.new.price k ≡ price_for prices.now zero three k }
    {
        let mut any = false;
        for k in 1..top + 1 {
            let price = price_of(prices, top, zero, three, k);
            self.price[k] = price;
            any = any || price > 0;
        }
        any
    }

    /// What it costs at least to make up a number, where it is known of those below: one length, or
    /// two numbers, of which the smaller one is a length.
    fn cheapest(&self, top: usize, number: usize) -> u32
        requires some { 0 < number }
        requires few { number ≤ MAX_TRANSFERS }
        requires some_top { 0 < top }
        requires low { (k : ℕ) → 0 < k → k ≤ top → slice_index self.now.price k ≤ 131072 }
        requires none { slice_index self.now.costs 0 ≡ 0 }
        requires told { (v : ℕ) → v < number → slice_index self.now.costs v ≤ v * 131072 }
        requires more { (v k : ℕ) → 0 < k → k ≤ top → v + k < number
            → slice_index self.now.costs (v + k)
            ≤ slice_index self.now.costs v + slice_index self.now.price k }
        ensures low { result ≤ number * 131072 }
        ensures least { (v k : ℕ) → 0 < k → k ≤ top → v + k ≡ number
            → result ≤ slice_index self.now.costs v + slice_index self.now.price k }
    {
        let mut best = if number <= top {
            self.price[number]
        } else {
            self.costs[1] + self.costs[number - 1]
        };
        for k in 1..top.min(number / 2) + 1 {
            best = best.min(self.costs[k] + self.costs[number - k]);
        }
        best
    }

    /// What it costs at least to make up a number of lengths up to `top`.
    fn make_up(&mut self, top: usize, number: usize) -> u32
        requires some_top { 0 < top }
        requires few { number ≤ MAX_TRANSFERS }
        requires low { (k : ℕ) → 0 < k → k ≤ top → slice_index self.old.price k ≤ 131072 }
        ensures low { result ≤ number * 131072 }
        ensures cheapest { CostsAtLeast (slice_index self.old.price) top number result }
    {
        self.costs[0] = 0;
        for v in 1..number + 1 {
            self.costs[v] = self.cheapest(top, v);
        }
        self.costs[number]
    }

    /// The longest first piece of a cheapest way to make up a number.
    fn first_piece(&self, top: usize, number: usize) -> usize
        requires some { 0 < number }
        requires few { number ≤ MAX_TRANSFERS }
        requires some_top { 0 < top }
        requires few_top { top ≤ MAX_TRANSFERS }
        ensures some { 0 < result }
        ensures few { result ≤ top }
        ensures within { result ≤ number }
    {
        let cost = self.costs[number];
        for k in (2..top.min(number) + 1).rev() {
            if self.price[k].wrapping_add(self.costs[number - k]) == cost {
                return k;
            }
        }
        1
    }

    /// Counts the pieces of a cheapest way to make up a number, by length, at a link.
    fn count_pieces(&self, top: usize, number: usize, link: usize, pieces: &mut [u32])
        requires few { number ≤ MAX_TRANSFERS }
        requires some_top { 0 < top }
        requires few_top { top ≤ MAX_TRANSFERS }
        requires link { link < LINKS }
        requires pieces { length pieces.old ≡ (top + 1) * LINKS }
    {
        let mut left = number;
        for _ in 0..number {
            if left == 0 {
                return;
            }
            let length = self.first_piece(top, left);
            let place = length * LINKS + link;
            pieces[place] = pieces[place].wrapping_add(1);
            left -= length;
        }
    }

    /// What it costs at least to make up a number of a pair, or of a link that is idle, of lengths
    /// up to `top`. 0 where no more sums may be made.
    fn cost_of(
        &mut self,
        prices: &[u32],
        top: usize,
        number: usize,
        zero: usize,
        three: usize,
        pieces: &mut [u32],
    ) -> u32
        requires fair { AreFair prices.now top }
        requires few { number ≤ MAX_TRANSFERS }
        requires pieces { length pieces.old ≡ length prices.now }
        ensures low { result ≤ 536870912 }
        ensures cheapest { CostsAtLeast (price_for prices.now zero three) top number result }
    {
        if number == 0 || !self.take_prices(prices, top, zero, three) {
            return 0;
        }
        let sums = number.saturating_mul(top.min(number / 4) + 20);
        let Some(left) = self
            .left
            .checked_sub(sums.saturating_add(top.saturating_mul(4)))
        else {
            return 0;
        };
        self.left = left;
        let cost = self.make_up(top, number);
        if zero < MAX_MODULES {
            self.count_pieces(top, number, zero, pieces);
        }
        if three < MAX_MODULES {
            self.count_pieces(top, number, MAX_MODULES + three, pieces);
        }
        cost
    }
}

/// The price of a length for a pair; where the one or the other link is none, for the other.
fn price_of(prices: &[u32], top: usize, zero: usize, three: usize, k: usize) -> u32
    requires fair { AreFair prices.now top }
    requires some { 0 < k }
    requires within { k ≤ top }
    ensures { result ≡ price_for prices.now zero three k }
{
    let mut price = 0;
    if zero < MAX_MODULES {
        price += prices[k * LINKS + zero];
    }
    if three < MAX_MODULES {
        price += prices[k * LINKS + (MAX_MODULES + three)];
    }
    price
}

/// What the prices of a length add up to.
fn sum_of_length(prices: &[u32], top: usize, row: usize) -> u64
    requires row { row ≤ top }
    requires few { top ≤ MAX_TRANSFERS }
    requires sized { length prices.now ≡ (top + 1) * LINKS }
    ensures { result ≡ sum_below LINKS (λ l. price_at prices.now l row) }
{
    let mut sum = 0;
    for link in 0..LINKS {
        sum += prices[row * LINKS + link] as u64;
    }
    sum
}

/// Whether the prices of each length add up to the scale at most.
fn are_fair(prices: &[u32], top: usize) -> bool
    requires some { 0 < top }
    requires few { top ≤ MAX_TRANSFERS }
    requires sized { length prices.now ≡ (top + 1) * LINKS }
    ensures { result ≡ true → AreFair prices.now top }
{
    for k in 1..top + 1 {
        if sum_of_length(prices, top, k) > SCALE {
            return false;
        }
    }
    true
}

//! How often a schedule has to change the switch, as far as prices show it.

ghost use Rattle.std.specs.Prelude.{◌≡◌, ℕ, ◌+◌, ◌*◌, ◌<◌, ◌≤◌, IfOk, IfSome, length};
ghost use Rattle.batch.specs.declared.limits.TheConstants.{MAX_TRANSFERS};
ghost use Rattle.link_graph.specs.declared.limits.TheConstants.{LINKS};
ghost use Rattle.link_graph.specs.declared.link.Link.{Link};
ghost use Rattle.link_graph.specs.Counts.{uses};
ghost use Rattle.steady_schedule.specs.Prices.{AreNeeded, ShowChanges, IsPriceTable, LimitsSteps};

use crate::choosing::most_with;
use crate::partners::link_at;
use crate::priced::PriceTable;
use crate::pricing::{CoverCosts, Needs, SCALE};
use crate::remaining::Remaining;
use batch::{MAX_MODULES, MAX_TRANSFERS};
use link_graph::{LINKS, Link, LinkGraph};
use std::alloc::{AllocError, Global};

/// How many tables of prices are tried at most. The prices of more show hardly more changes.
const MAX_ROUNDS: usize = 100;

/// How many sums of two costs all of them may take together, at two or three instructions each. So
/// a picture of any batch is made within a blink.
const MAX_SUMS: usize = 10_000_000;

/// How many sums take as long as to move the prices of a length.
const MOVE_SUMS: usize = 1000;

/// How fine slopes are, so that a mean of small numbers isn't rounded off.
const SLOPE_PARTS: i64 = 64;

/// Over about how many rounds a slope is the mean, so that prices don't swing from round to round.
const SLOPE_ROUNDS: i64 = 8;

/// A price stays where its slope is within so many of these parts: that is too near the mean.
const LEAST_SLOPE: i64 = 3;

/// Of how much of the mean price the first step is, in hundredths: by wider ones prices overshoot.
const FIRST_STEP: usize = 16;

/// A link with a transfer in each of so many settings, and the most that it has with any partner:
/// that of several for which this is least.
fn longest(remaining: &Remaining, settings: usize) -> Option<(Link, usize)>
    ensures { IfSome result (λ found.
        LimitsSteps remaining.now.counts settings found.0 found.1) }
{
    let mut longest = None;
    let mut least = usize::MAX;
    for index in 0..LINKS {
        let link = link_at(index);
        if remaining.side(link.end).uses[link.module] as usize == settings {
            let most = most_with(remaining, link.end, link.module, u32::MAX);
            if most < least {
                least = most;
                longest = Some((link, most));
            }
        }
    }
    longest
}

/// Moves the prices of a length. Those of links with more pieces of it than links have in the mean
/// rise, by the sign of a running mean, and those of links with fewer fall.
fn move_prices(
    prices: &mut [u32],
    slopes: &mut [i64],
    pieces: &mut [u32],
    row: usize,
    links: i64,
    step: u32,
)
    requires prices { row * LINKS + LINKS ≤ length prices.old }
    requires slopes { length slopes.old ≡ length prices.old }
    requires pieces { length pieces.old ≡ length prices.old }
{
    let mut all = 0i64;
    for link in 0..LINKS {
        all = all.wrapping_add(pieces[row * LINKS + link] as i64);
    }
    for link in 0..LINKS {
        let place = row * LINKS + link;
        let above = links.wrapping_mul(pieces[place] as i64).wrapping_sub(all);
        let slope = slopes[place];
        slopes[place] = slope.wrapping_add(
            above.wrapping_mul(SLOPE_PARTS).wrapping_sub(slope) / SLOPE_ROUNDS,
        );
        prices[place] = moved(
            prices[place],
            slopes[place],
            links.wrapping_mul(LEAST_SLOPE),
            step,
        );
        pieces[place] = 0;
    }
}

/// The price of a link, which rises where its slope is above this, and falls where it is below.
fn moved(price: u32, slope: i64, least: i64, step: u32) -> u32 {
    if slope > least {
        price.saturating_add(step)
    } else if slope.wrapping_add(least) < 0 {
        price.saturating_sub(step)
    } else {
        price
    }
}

/// Scales the prices of a length, so that they add up to the scale at most.
fn scale(prices: &mut [u32], row: usize)
    requires { row * LINKS + LINKS ≤ length prices.old }
{
    let mut sum = 0u64;
    for link in 0..LINKS {
        sum = sum.saturating_add(prices[row * LINKS + link] as u64);
    }
    for link in 0..LINKS {
        let place = row * LINKS + link;
        prices[place] = (prices[place] as u64 * SCALE / sum.max(1)).min(SCALE) as u32;
    }
}

/// By how much prices move in a round, where so many are left: by steps that get shorter.
fn step_of(left: usize, rounds: usize, links: usize) -> u32
    requires { left ≤ 100 }
{
    let size = (SCALE as usize * FIRST_STEP / 100) * left * left;
    let parts = links.saturating_mul(rounds.saturating_mul(rounds)).max(1);
    (size / parts).clamp(1, SCALE as usize) as u32
}

impl Needs<'_> {
    /// How many links are in use.
    fn links_in_use(&self) -> u32 {
        let mut links = 0u32;
        for index in 0..LINKS {
            let link = link_at(index);
            if self.remaining.side(link.end).uses[link.module] > 0 {
                links = links.saturating_add(1);
            }
        }
        links
    }

    /// Prices that are the same for each link in use, and for each length.
    fn price_all(&self, prices: &mut [u32], links: u32)
        requires { length prices.old ≡ (self.now.top + 1) * LINKS }
    {
        let price = SCALE / (links as u64).max(1);
        for index in 0..LINKS {
            let link = link_at(index);
            let in_use = self.remaining.side(link.end).uses[link.module] > 0;
            for row in 1..self.top + 1 {
                prices[row * LINKS + index] = if in_use { price as u32 } else { 0 };
            }
        }
    }

    /// Looks for prices that show many changes, or at least so many. The most that any table shows,
    /// which is then the best one.
    fn search(
        &self,
        enough: usize,
        best: &mut [u32],
        prices: &mut [u32],
        slopes: &mut [i64],
        pieces: &mut [u32],
    ) -> usize
        requires sized { length prices.old ≡ (self.now.top + 1) * LINKS }
        requires slopes { length slopes.old ≡ length prices.old }
        requires pieces { length pieces.old ≡ length prices.old }
        requires best { length best.old ≡ length prices.old }
        ensures { ShowChanges self.now.graph.now self.now.settings best.new self.now.top result }
    {
        let mut ways = CoverCosts::none(MAX_SUMS);
        let mut most = 0;
        let links = self.links_in_use();
        self.price_all(prices, links);
        for round in 0..MAX_ROUNDS {
            if most >= enough {
                return most;
            }
            let before = ways.left;
            let shown = self.shown_by(prices, &mut ways, pieces);
            if shown > most {
                most = shown;
                best.copy_from_slice(prices);
            }
            ways.left = ways.left.saturating_sub(MOVE_SUMS * self.top);
            let each = before.saturating_sub(ways.left).max(1);
            let rounds = (ways.left / each).min(MAX_ROUNDS - 1 - round);
            if rounds == 0 {
                return most;
            }
            let step = step_of(rounds, rounds + round + 1, links as usize);
            for row in 1..self.top + 1 {
                move_prices(prices, slopes, pieces, row, links as i64, step);
                scale(prices, row);
            }
        }
        most
    }
}

/// A table of prices for schedules of the batch with so many settings. It shows nothing where no
/// link has a transfer in each setting.
fn shown_prices(
    alloc: Global,
    graph: &LinkGraph,
    settings: usize,
    enough: usize,
) -> Result<PriceTable, AllocError>
    requires most { (link : Link) → uses graph.now link ≤ settings }
    requires few { settings ≤ MAX_TRANSFERS }
    ensures { IfOk result (IsPriceTable graph.now settings) }
{
    prove!(graph.len() <= MAX_TRANSFERS);
    let mut remaining = Remaining::none();
    remaining.add_all(graph);
    let Some((busiest, top)) = longest(&remaining, settings) else {
        return PriceTable::none(alloc);
    };
    if top == 0 || top > MAX_TRANSFERS {
        return PriceTable::none(alloc);
    }
    let needs = Needs {
        graph,
        remaining,
        settings,
        busiest,
        top,
    };
    let room = (top + 1) * LINKS;
    let (mut prices, mut pieces) = (vec![in alloc; 0u32; room]?, vec![in alloc; 0u32; room]?);
    let mut slopes = vec![in alloc; 0i64; room]?;
    let mut best = vec![in alloc; 0u32; room]?;
    let changes = needs.search(enough, &mut best, &mut prices, &mut slopes, &mut pieces);
    if changes == 0 {
        return PriceTable::none(alloc);
    }
    Ok(PriceTable {
        changes,
        top,
        prices: best,
    })
}

/// A table of prices that show how often each schedule of the batch with so many settings has to
/// change the switch. It shows nothing where no link has a transfer in each setting.
///
/// A step is a run of settings that join the same pairs, so a schedule has as many steps as
/// changes. Each link has a price for each length of a step, and the prices of a length add up to
/// [`SCALE`] at most. A step costs each link its price for the step's length, so all steps cost no
/// more than that for each change. From the other side, the steps in which a pair is joined add up
/// to its count. They cost both its links at least what the cheapest way costs to make that up of
/// lengths. So do the steps in which a link is idle. A link with a transfer in each setting has one
/// partner throughout a step, so no step is longer than its greatest count.
///
/// Whatever prices are tried, what they show holds. The search ends where they show `enough`. It
/// takes memory that grows with the greatest count of a pair, and time as [`MAX_SUMS`] allows.
pub fn best_price_table(
    alloc: Global,
    graph: &LinkGraph,
    settings: usize,
    enough: usize,
) -> Result<PriceTable, AllocError>
    requires most { (link : Link) → uses graph.now link ≤ settings }
    requires few { settings ≤ MAX_TRANSFERS }
    ensures shown { IfOk result (IsPriceTable graph.now settings) }
    ensures needed { IfOk result (λ priced. AreNeeded graph.now settings priced.changes) }
{
    prove!(graph.len() <= MAX_TRANSFERS);
    let priced = shown_prices(alloc, graph, settings, enough)?;
    Ok(priced)
}

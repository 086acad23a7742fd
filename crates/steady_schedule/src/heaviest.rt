//! A matching of the greatest weight.
//!
//! The links have prices: those of two links are together no less than the weight of their pair.
//! One link 0 after the other is matched, along the alternating path by which prices exceed weights
//! the least (Kuhn 1955; Tomizawa 1971). No contract says that no matching weighs more.

ghost use Rattle.std.specs.Prelude.{◌≡◌, ◌<◌, ◌≤◌, ℕ, All, Some, None, IfSome, true};
ghost use Rattle.batch.specs.declared.limits.TheConstants.{MAX_MODULES};
ghost use Rattle.link_graph.specs.Masks.{has_bit};
ghost use Rattle.steady_schedule.specs.Matchings.{partner};

use crate::masks::without_module;
use crate::matching::{Matching, Partners, join, part};
use crate::remaining::PAIRS;
use batch::MAX_MODULES;
use link_graph::lowest;

/// The weight of each pair: that of link 0 of module u and link 3 of module v is at the place
/// `u * MAX_MODULES + v`.
pub(crate) type Weights = [u32; PAIRS];

/// The prices of the links of both ends.
#[derive(Drop)]
struct Prices {
    zero: [u32; MAX_MODULES],
    three: [u32; MAX_MODULES],
}

/// The alternating paths from a link 0 to links 3 that are known.
#[derive(Drop)]
struct AlternatingPaths {
    /// By how much prices exceed weights on the best path to each link 3.
    excess: [u32; MAX_MODULES],
    /// The link 0 before it on that path.
    before: [usize; MAX_MODULES],
    ghost low: { All (λ zero. zero < MAX_MODULES) before },
}

/// A mask of the first modules.
fn first_modules(modules: usize) -> u32
    requires { modules ≤ MAX_MODULES }
{
    if modules == MAX_MODULES {
        return u32::MAX;
    }
    (1u32 << modules) - 1
}

/// The greatest weight of a pair of a link 0.
fn most_worth(worths: &Weights, zero: usize, modules: usize) -> u32
    requires zero { zero < MAX_MODULES }
    requires within { modules ≤ MAX_MODULES }
{
    let mut most = 0;
    for three in 0..modules {
        most = most.max(worths[zero * MAX_MODULES + three]);
    }
    most
}

impl Prices {
    /// Prices that no pair's weight exceeds.
    fn of(worths: &Weights, modules: usize) -> Prices
        requires { modules ≤ MAX_MODULES }
    {
        let mut prices = Prices {
            zero: [0; MAX_MODULES],
            three: [0; MAX_MODULES],
        };
        for zero in 0..modules {
            prices.zero[zero] = most_worth(worths, zero, modules);
        }
        prices
    }

    /// Changes them so that they exceed no weight on the path from a link 0 whose excess is so
    /// much.
    fn update_prices(
        &mut self,
        ways: &AlternatingPaths,
        three_partners: &Partners,
        root: usize,
        far: u32,
    )
        requires root { root < MAX_MODULES }
        requires partners { (x y : ℕ) → partner three_partners.now x ≡ Some y → y < MAX_MODULES }
    {
        self.zero[root] = self.zero[root].saturating_sub(far);
        for three in 0..MAX_MODULES {
            let change = far.saturating_sub(ways.excess[three]);
            self.three[three] = self.three[three].saturating_add(change);
            if let Some(zero) = three_partners[three] {
                self.zero[zero as usize] = self.zero[zero as usize].saturating_sub(change);
            }
        }
    }
}

impl AlternatingPaths {
    /// None.
    fn none() -> AlternatingPaths {
        AlternatingPaths {
            excess: [u32::MAX; MAX_MODULES],
            before: [0; MAX_MODULES],
        }
    }

    /// Goes on from a link 0, whose path has so much excess, to these links 3, and gives the one
    /// that has the least, where that isn't beyond all numbers.
    fn go_on(
        &mut self,
        worths: &Weights,
        prices: &Prices,
        zero: usize,
        far: u32,
        threes: u32,
    ) -> Option<usize>
        requires { zero < MAX_MODULES }
        ensures low { IfSome result (λ three. three < MAX_MODULES) }
        ensures has { IfSome result (λ three. has_bit threes three ≡ true) }
    {
        let so_far = far.wrapping_add(prices.zero[zero]);
        let mut nearest = None;
        let mut least = u32::MAX;
        let mut rest = threes;
        'links: while rest != 0 {
            let three = lowest(rest);
            rest = without_module(rest, three);
            let price = so_far.wrapping_add(prices.three[three]);
            let excess = price.wrapping_sub(worths[zero * MAX_MODULES + three]);
            if excess < self.excess[three] {
                self.excess[three] = excess;
                self.before[three] = zero;
            }
            if self.excess[three] < least {
                least = self.excess[three];
                nearest = Some(three);
            }
        }
        nearest
    }

    /// Looks from a link 0 for the nearest link 3 that is free, as long as there are looks left.
    fn nearest_free(
        &mut self,
        worths: &Weights,
        prices: &Prices,
        matching: &Matching,
        root: usize,
        modules: usize,
        looks: &mut usize,
    ) -> Option<usize>
        requires root { root < MAX_MODULES }
        requires modules { modules ≤ MAX_MODULES }
        ensures low { IfSome result (λ three. three < MAX_MODULES) }
        ensures free { IfSome result (λ three. partner matching.now.three three ≡ None) }
    {
        let mut rest = first_modules(modules);
        let mut zero = root;
        let mut far = 0;
        'looks: while *looks > 0 {
            *looks -= 1;
            let three = self.go_on(worths, prices, zero, far, rest)?;
            let Some(next) = matching.three[three] else {
                return Some(three);
            };
            far = self.excess[three];
            rest = without_module(rest, three);
            zero = next as usize;
        }
        None
    }
}

/// Joins a link 0 to a link 3 that is free, and gives the one that it was joined to before.
#[tactic(auto, using(crate::proofs::Matchings::partner_low))]
fn join_instead(matching: &mut Matching, zero: usize, three: usize) -> Option<usize>
    requires zero { zero < MAX_MODULES }
    requires three { three < MAX_MODULES }
    requires free { partner matching.old.three three ≡ None }
    ensures low { IfSome result (λ other. other < MAX_MODULES) }
    ensures free { IfSome result (λ other. partner matching.new.three other ≡ None) }
{
    let Some(other) = matching.zero[zero] else {
        join(&mut matching.zero, &mut matching.three, zero, three);
        return None;
    };
    let other = other as usize;
    part(&mut matching.zero, &mut matching.three, zero, other);
    join(&mut matching.zero, &mut matching.three, zero, three);
    Some(other)
}

/// Joins the links on the path to a link 3 that is free.
fn join_way(matching: &mut Matching, ways: &AlternatingPaths, last: usize)
    requires low { last < MAX_MODULES }
    requires free { partner matching.old.three last ≡ None }
{
    let mut three = last;
    for _ in 0..MAX_MODULES {
        match join_instead(matching, ways.before[three], three) {
            Some(other) => three = other,
            None => return,
        }
    }
}

/// A matching of the first modules that weighs as much as any, with pairs of weight 0, where it
/// finds that before so many looks from a link at the others are over.
pub(crate) fn heaviest_matching(
    worths: &Weights,
    modules: usize,
    looks: &mut usize,
) -> Option<Matching>
    requires { modules ≤ MAX_MODULES }
{
    let mut prices = Prices::of(worths, modules);
    let mut matching = Matching::none();
    for zero in 0..modules {
        let mut ways = AlternatingPaths::none();
        let last = ways.nearest_free(worths, &prices, &matching, zero, modules, looks)?;
        prices.update_prices(&ways, &matching.three, zero, ways.excess[last]);
        join_way(&mut matching, &ways, last);
    }
    Some(matching)
}

//! Steady schedules: as few settings as any schedule, and a switch that changes only at need.
//!
//! Of the transfers that wait, only the number of each pair of links counts. A link is *full* where
//! it has as many of them as there are settings left. A step is a matching that has all full links.
//! It is held as long as it can be: no longer than each of its pairs has transfers, nor so long
//! that a link outside of it has more of them than settings are left then (Inukai 1979; Gopal and
//! Wong 1985, for satellites that switch beams). So each step uses a pair up, or makes a link full,
//! and that stays full.
//!
//! The schedule of [`steady`] is shortest, as its certificate shows. After a setting the switch
//! changes only where that joined a pair of links for the last time, or left a link free that each
//! later setting uses; and at most as often as there are pairs of links and links in use
//! (`IsSteady` of `specs/Plans.antt`). Mostly the switch changes far less often than its bound.
//!
//! Each step is as long as any can be (Gopal and Wong's rule). Links are tried in up to two orders
//! for such schedules. Where fewer steps may be enough, a third is made of other steps: of each the
//! matching is sought by the length that uses up the most pairs and idle links, and held as long as
//! it can be. The schedule with the fewest steps is taken. No contract says so. Of small batches
//! drawn at random at least 94 in 100 have the fewest changes, and all of them together at most 2
//! in 100 more than the fewest (`bench/planning/told.py`).
//!
//! Some counts serve any schedule of a batch: how often it changes the switch ([`count_changes`]);
//! how many partners a link has at most ([`most_partners`]), since no schedule changes the switch
//! less often than that (`laws::partners_need_changes`); and as many changes as prices of the links
//! show that each schedule with as many settings has to have ([`best_price_table`]). Whatever
//! prices show is so, whoever found them (`laws::prices_need_changes`).
#![tactic(auto)]

mod bounding;
mod changing;
mod choosing;
mod gathering;
mod heaviest;
pub mod laws;
mod masks;
mod matching;
mod numbering;
mod partners;
mod plan;
mod planning;
mod priced;
mod pricing;
mod reach;
mod remaining;
mod stepping;
mod weighing;

pub use bounding::best_price_table;
pub use changing::count_changes;
pub use partners::most_partners;
pub use plan::Steady;
pub use planning::steady;
pub use priced::PriceTable;

//! Partners of links, and the search for them.

ghost use Rattle.std.specs.Prelude.{◌≡◌, ◌<◌, ◌≤◌, Some, None, true, false, set};
ghost use Rattle.batch.specs.declared.limits.TheConstants.{MAX_MODULES};
ghost use Rattle.steady_schedule.specs.Covers.{AreFree, KeepsPartners};
ghost use Rattle.link_graph.specs.Masks.{has_bit};
ghost use Rattle.steady_schedule.specs.Matchings.{partner, AreMatched, AreBelow};
ghost use Rattle.steady_schedule.specs.Searches.{AllSeen, IsStuck, IsInVain, IsFound, IsFreed};
ghost use Rattle.steady_schedule.specs.Searches.{JoinsNear};

use crate::masks::{first_of, with_module, without_module};
use crate::reach::Holdable;
use batch::MAX_MODULES;
use link_graph::{Masks, has_module, lowest};

/// For each module the one that its link is joined to, where it is joined. Bytes, since each choice
/// has tables of its own.
pub(crate) type Partners = [Option<u8>; MAX_MODULES];

/// The links that are joined.
#[derive(Drop)]
pub(crate) struct Matching {
    pub(crate) zero: Partners,
    pub(crate) three: Partners,
    ghost matched: { AreMatched zero three },
}

impl Matching {
    /// No links.
    pub(crate) fn none() -> Matching
        ensures { AreBelow result.zero 0 }
    {
        Matching {
            zero: [None; MAX_MODULES],
            three: [None; MAX_MODULES],
        }
    }
}

/// A mask of the links that have no partner, of the first modules.
pub(crate) fn free(partners: &Partners, modules: usize) -> u32
    requires { modules ≤ MAX_MODULES }
    ensures { AreFree partners.now result }
{
    let mut mask = 0;
    for module in 0..modules {
        if partners[module].is_none() {
            mask = with_module(mask, module);
        }
    }
    mask
}

/// Joins two links that are free.
pub(crate) fn join(of: &mut Partners, back: &mut Partners, x: usize, y: usize)
    requires x_in { x < MAX_MODULES }
    requires y_in { y < MAX_MODULES }
    requires matched { AreMatched of.old back.old }
    requires x_free { partner of.old x ≡ None }
    requires y_free { partner back.old y ≡ None }
    ensures matched { AreMatched of.new back.new }
    ensures of { of.new ≡ set of.old x (Some y) }
    ensures back { back.new ≡ set back.old y (Some x) }
{
    of[x] = Some(y as u8);
    back[y] = Some(x as u8);
}

/// Joins a link 0 that is free to one of these links 3, which are free, where it is near to any.
fn join_one(near: &Masks, matching: &mut Matching, zero: usize, free: &mut u32)
    requires low { zero < MAX_MODULES }
    requires free { AreFree matching.old.three free.old }
    ensures joins { JoinsNear near.now matching.old.zero matching.new.zero }
    ensures zero { KeepsPartners matching.old.zero matching.new.zero }
    ensures three { KeepsPartners matching.old.three matching.new.three }
    ensures free { AreFree matching.new.three free.new }
{
    let mask = near[zero] & *free;
    if mask == 0 || matching.zero[zero].is_some() {
        return;
    }
    let three = lowest(mask);
    join(&mut matching.zero, &mut matching.three, zero, three);
    *free = without_module(*free, three);
}

/// Joins links that are free and near each other, as far as it finds them: no contract says that it
/// joins any. Those that have partners still have some.
pub(crate) fn join_free(near: &Masks, matching: &mut Matching, modules: usize)
    requires { modules ≤ MAX_MODULES }
    ensures joins { JoinsNear near.now matching.old.zero matching.new.zero }
    ensures zero { KeepsPartners matching.old.zero matching.new.zero }
    ensures three { KeepsPartners matching.old.three matching.new.three }
{
    let mut free = free(&matching.three, modules);
    for zero in 0..modules {
        join_one(near, matching, zero, &mut free);
    }
}

/// Parts two links that are joined.
#[tactic(auto, using(crate::proofs::Matchings::has_low, crate::proofs::Matchings::partner_low))]
pub(crate) fn part(of: &mut Partners, back: &mut Partners, x: usize, y: usize)
    requires matched { AreMatched of.old back.old }
    requires joined { partner of.old x ≡ Some y }
    ensures matched { AreMatched of.new back.new }
    ensures of { of.new ≡ set of.old x None }
    ensures back { back.new ≡ set back.old y None }
{
    of[x] = None;
    back[y] = None;
}

/// Frees the link `y`, where its partner isn't needed, or finds another one among those that are
/// unseen.
#[cycle(augment)]
fn make_room(
    y: usize,
    held: &Holdable,
    of: &mut Partners,
    back: &mut Partners,
    unseen: &mut u32,
) -> bool
    requires y_in { y < MAX_MODULES }
    requires y_seen { has_bit unseen.old y ≡ false }
    requires matched { AreMatched of.old back.old }
    ensures matched { AreMatched of.new back.new }
    ensures freed { result ≡ true
        → IsFreed held.now.near held.now.needed unseen.old y of.old of.new back.old back.new }
    ensures vain { result ≡ false
        → IsInVain held.now.near held.now.needed unseen.old unseen.new of.old of.new back.old
        back.new }
    ensures stuck { result ≡ false → IsStuck held.now.near held.now.needed unseen.new back.new y }
    ensures fewer { unseen.new ≤ unseen.old }
{
    let Some(x) = back[y] else {
        return true;
    };
    let x = x as usize;
    part(of, back, x, y);
    if !has_module(held.needed, x) {
        return true;
    }
    if augment(x, held, of, back, unseen) {
        return true;
    }
    join(of, back, x, y);
    false
}

/// Finds a partner for the link `x`, which has none, among those near it that are unseen. A partner
/// is free, or its own partner isn't needed and goes without, or finds another one. It looks at
/// those before others whose pair is used up then; no contract says so.
#[cycle(augment)]
pub(crate) fn augment(
    x: usize,
    held: &Holdable,
    of: &mut Partners,
    back: &mut Partners,
    unseen: &mut u32,
) -> bool
    requires x_in { x < MAX_MODULES }
    requires free { partner of.old x ≡ None }
    requires matched { AreMatched of.old back.old }
    ensures matched { AreMatched of.new back.new }
    ensures found { result ≡ true
        → IsFound held.now.near held.now.needed unseen.old x of.old of.new back.old back.new }
    ensures vain { result ≡ false
        → IsInVain held.now.near held.now.needed unseen.old unseen.new of.old of.new back.old
        back.new }
    ensures seen { result ≡ false → AllSeen held.now.near unseen.new x }
    ensures fewer { unseen.new ≤ unseen.old }
{
    'search: while held.near[x] & *unseen != 0 {
        let y = first_of(held.near[x] & *unseen, held.just[x], held.order);
        *unseen = without_module(*unseen, y);
        if make_room(y, held, of, back, unseen) {
            join(of, back, x, y);
            return true;
        }
    }
    false
}

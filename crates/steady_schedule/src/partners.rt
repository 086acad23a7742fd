//! How many partners a link has.

ghost use Rattle.std.specs.Prelude.{◌≡◌, ◌<◌, nat_lt};
ghost use Rattle.std.specs.List.{IsFirstBest};
ghost use Rattle.batch.specs.Batches.{IsBatch};
ghost use Rattle.link_graph.specs.Links.{link_index};
ghost use Rattle.steady_schedule.specs.Masks.{bits_set};
ghost use Rattle.steady_schedule.specs.Partners.{ArePartnerMasks};
ghost use Rattle.steady_schedule.specs.Plans.{IsDemanding};

use batch::{MAX_MODULES, MAX_TRANSFERS};
use link_graph::{End, LINKS, Link, LinkGraph};

/// A mask of modules for each link: those whose links share a transfer with it.
fn partner_masks(graph: &LinkGraph) -> [u32; LINKS]
    requires { IsBatch graph.now }
    ensures { ArePartnerMasks graph.now result }
{
    let mut masks = [0; LINKS];
    for t in 0..graph.len() {
        let (start, answer) = graph.ends_of(t);
        masks[start.module] |= 1u32 << answer.module;
        masks[MAX_MODULES + answer.module] |= 1u32 << start.module;
    }
    masks
}

/// How many modules are in a mask.
fn bits_set(mask: u32) -> usize
    ensures { result ≡ bits_set mask }
{
    let mut count = 0;
    for module in 0..MAX_MODULES {
        if mask >> module & 1 == 1 {
            count += 1;
        }
    }
    count
}

/// Where the greatest of the numbers stands, and first among equals.
fn place_of_most(counts: &[usize; LINKS]) -> usize
    ensures { IsFirstBest (λ a b. nat_lt b a) counts.now LINKS result }
{
    let mut most = 0;
    for i in 1..LINKS {
        if counts[i] > counts[most] {
            most = i;
        }
    }
    most
}

/// The link at this place in the order of links.
pub(crate) fn link_at(index: usize) -> Link
    requires { index < LINKS }
    ensures index { link_index result ≡ index }
    ensures module { result.«module» < MAX_MODULES }
{
    if index < MAX_MODULES {
        Link {
            end: End::Zero,
            module: index,
        }
    } else {
        Link {
            end: End::Three,
            module: index - MAX_MODULES,
        }
    }
}

/// The first of the links that have the most partners, and how many these are. Partners of a link
/// are the links with which it shares transfers, at most one of each module. Any schedule of the
/// batch changes the switch at least so often, by
/// [`partners_need_changes`](crate::laws::partners_need_changes). An empty batch has none. Takes
/// time that grows with the number of transfers.
pub fn most_partners(graph: &LinkGraph) -> Option<(Link, usize)>
    ensures { IsDemanding graph.now result }
{
    prove!(graph.len() <= MAX_TRANSFERS);
    let masks = partner_masks(graph);
    let mut counts = [0; LINKS];
    for i in 0..LINKS {
        counts[i] = bits_set(masks[i]);
    }
    let most = place_of_most(&counts);
    if counts[most] == 0 {
        return None;
    }
    Some((link_at(most), counts[most]))
}

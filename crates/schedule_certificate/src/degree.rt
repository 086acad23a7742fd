ghost use Rattle.std.specs.Prelude.{◌≡◌, ◌+◌, ◌<◌, ◌≤◌, max, All, length, slice_index, slice_set};
ghost use Rattle.batch.specs.declared.limits.TheConstants.{MAX_MODULES};
ghost use Rattle.link_graph.specs.Counts.{module_at};
ghost use Rattle.link_graph.specs.Links.{link_index};
ghost use Rattle.link_graph.specs.Marks.{members};
ghost use Rattle.schedule_certificate.specs.Parts.{IsPart, IsPartBy, IsDegree, IsHalf, IsWidth};
ghost use Rattle.schedule_certificate.specs.Steps.{at_most};

use batch::{MAX_MODULES, MAX_TRANSFERS};
use link_graph::{End, LINKS, Link, LinkGraph};
use step_count::Steps;

/// What is known of a part's degree before its transfers are counted.
#[derive(Clone, Copy)]
pub(crate) enum KnownDegree {
    /// The degree.
    Is(usize),
    /// The degree is this or less.
    AtMost(usize),
}

/// How many modules there are up to the last that has a transfer at this end.
fn modules_at(graph: &LinkGraph, end: End) -> usize
    ensures { All (λ x. module_at end x < result) graph.now }
{
    prove!(graph.len() <= MAX_TRANSFERS);
    let mut count = 0;
    for module in 0..MAX_MODULES {
        if graph.uses(Link { end, module }) > 0 {
            count = module + 1;
        }
    }
    count
}

/// A number of links of one end such that each transfer uses one of them: of the end that needs
/// fewer.
pub(crate) fn width_of(graph: &LinkGraph) -> usize
    ensures { IsWidth graph.now result }
{
    let starts = modules_at(graph, End::Zero);
    let answers = modules_at(graph, End::Three);
    if starts < answers { starts } else { answers }
}

/// Counts one more use of the link, and says how many there are now.
fn count_use(uses: &mut [usize; LINKS], link: Link) -> usize
    requires module { link.«module» < MAX_MODULES }
    requires room { All (λ count. count < usize.MAX) uses.old }
    ensures count { result ≡ slice_index uses.old (link_index link) + 1 }
    ensures counted { uses.new ≡ slice_set uses.old (link_index link) result }
{
    let count = &mut uses[link.index()];
    *count += 1;
    *count
}

fn greater(a: usize, b: usize) -> usize
    ensures { result ≡ max a b }
{
    if a < b { b } else { a }
}

/// How many transfers of a part use the link that most of them use.
///
/// Takes time that grows with the number of transfers in the part.
fn count_degree(graph: &LinkGraph, part: &[usize], steps: &mut Steps) -> usize
    requires { IsPart graph.now part.now }
    ensures degree { IsDegree (members graph.now part.now) result }
    ensures cost { steps.new ≡ steps.old + length part.now }
{
    prove!(graph.len() <= MAX_TRANSFERS);
    let mut uses = [0; LINKS];
    let mut degree = 0;
    for t in part {
        steps.tick();
        let (start, answer) = graph.ends_of(*t);
        let starts = count_use(&mut uses, start);
        let answers = count_use(&mut uses, answer);
        degree = greater(greater(degree, starts), answers);
    }
    degree
}

/// How many transfers of a part use the link that most of them use, which may be known.
///
/// All transfers of the graph use one of so many links at one end, its width. If each of these had
/// less uses than the degree may have at most, a part couldn't have more transfers than all of them
/// together. Where it has more, the degree is the most that it may be, and nothing is counted.
pub(crate) fn degree_of(
    graph: &LinkGraph,
    part: &[usize],
    known: KnownDegree,
    width: usize,
    steps: &mut Steps,
) -> usize
    requires part { IsPartBy graph.now part.now known }
    requires width { IsWidth graph.now width }
    ensures degree { IsDegree (members graph.now part.now) result }
    ensures most { result ≤ at_most known }
    ensures cost { steps.new ≤ steps.old + length part.now }
{
    match known {
        KnownDegree::Is(degree) => degree,
        KnownDegree::AtMost(most) => {
            if part.len() > width.saturating_mul(most.saturating_sub(1)) {
                return most;
            }
            count_degree(graph, part, steps)
        }
    }
}

/// What is known of the degrees of two halves of a part of this degree.
pub(crate) fn half_of(degree: usize) -> KnownDegree
    ensures { IsHalf degree result }
{
    if degree % 2 == 0 {
        KnownDegree::Is(degree / 2)
    } else {
        KnownDegree::AtMost(degree / 2 + 1)
    }
}

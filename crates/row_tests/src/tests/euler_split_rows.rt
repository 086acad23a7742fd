ghost use Rattle.std.specs.Prelude.{◌≡◌, length, IfSome};

use super::texts::{EVEN_PAIRS, FIRST_FIT_LOSES, graph};
use euler_split::{Scratch, split, split_evenly, times_even};
use link_graph::LinkGraph;
use std::alloc::Global;
use step_count::Steps;

/// Whether these are the halves `0 2` and `1 3`, in either order.
fn are_halves(one: &[usize], other: &[usize]) -> bool {
    let (even, odd) = ([0, 2], [1, 3]);
    (one == even.as_slice() && other == odd.as_slice())
        || (one == odd.as_slice() && other == even.as_slice())
}

/// Whether the four transfers are halved so.
fn is_halved(alloc: Global) -> Option<bool> {
    let graph = graph(alloc, FIRST_FIT_LOSES)?;
    if graph.len() != 4 {
        return None;
    }
    let (one, other) = split(alloc, &graph, &[0, 1, 2, 3]).ok()?;
    Some(are_halves(one.as_slice(), other.as_slice()))
}

/// There is one way to halve them.
#[test]
fn split_of_four(rt: HostRuntime) {
    assert!(rt; is_halved(rt.alloc()) == Some(true));
}

/// The graph of the eight transfers of row even-pairs.
fn graph_of_eight(alloc: Global) -> Option<LinkGraph>
    ensures { IfSome result (λ graph. length graph ≡ 8) }
{
    let graph = graph(alloc, EVEN_PAIRS)?;
    if graph.len() == 8 { Some(graph) } else { None }
}

/// How many times all eight can be halved, and two of one pair, three, and none.
fn times_of_some(graph: &LinkGraph) -> [usize; 4]
    requires { length graph.now ≡ 8 }
{
    let mut steps = Steps::none();
    [
        times_even(graph, &[0, 1, 2, 3, 4, 5, 6, 7], &mut steps),
        times_even(graph, &[0, 3], &mut steps),
        times_even(graph, &[0, 1, 2], &mut steps),
        times_even(graph, &[], &mut steps),
    ]
}

/// How many times some of the row's eight can be halved.
fn times_in_eight(alloc: Global) -> Option<[usize; 4]> {
    let graph = graph_of_eight(alloc)?;
    Some(times_of_some(&graph))
}

#[test]
fn even_pairs(rt: HostRuntime) {
    assert!(rt; times_in_eight(rt.alloc()) == Some([2, 1, 0, 0]));
}

/// How many of the transfers start at module 0.
fn starts_at_zero(graph: &LinkGraph, members: &[usize]) -> usize {
    let mut count: usize = 0;
    for t in members {
        match graph.ends(*t) {
            Some((start, _)) if start.module == 0 => count = count.saturating_add(1),
            _ => {}
        }
    }
    count
}

/// How many transfers each half of the eight has, and how many of these start at module 0.
fn dealt(alloc: Global, graph: &LinkGraph) -> Option<[usize; 4]>
    requires { length graph.now ≡ 8 }
{
    let mut members = [0, 1, 2, 3, 4, 5, 6, 7];
    let mut steps = Steps::none();
    if times_even(graph, &members, &mut steps) == 0 {
        return None;
    }
    let mut scratch = Scratch::new(alloc, members.len(), &mut steps).ok()?;
    let middle = split_evenly(graph, &mut members, &mut scratch, &mut steps);
    let (left, right) = members.split_at(middle);
    Some([
        left.len(),
        starts_at_zero(graph, left),
        right.len(),
        starts_at_zero(graph, right),
    ])
}

/// What an even split of the row's eight gives to each half.
fn dealt_in_eight(alloc: Global) -> Option<[usize; 4]> {
    let graph = graph_of_eight(alloc)?;
    dealt(alloc, &graph)
}

#[test]
fn even_pairs_dealt(rt: HostRuntime) {
    assert!(rt; dealt_in_eight(rt.alloc()) == Some([4, 2, 4, 2]));
}

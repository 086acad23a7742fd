//! The calls that make halves and tables of a graph.

ghost use Rattle.std.specs.Prelude.{◌<◌, ◌≡◌, length, IsTrue};
ghost use Rattle.link_graph.specs.Uses.{AreApart};

use crate::marks::{begin, end};
use crate::met::Met;
use crate::rows::{FOUR, batch};
use alternating_path::Table;
use batch::Batch;
use euler_split::split;
use link_graph::{Link, LinkGraph};

/// A call on row split-of-four or table-of-four.
#[derive(Clone, Copy)]
pub enum GraphCall {
    Split,
    New,
    One,
    Insert,
}

/// Makes a call on the batch of its row.
pub fn make<R: AllocGlobal + Eprint>(rt: &R, call: GraphCall) -> Option<Met> {
    let batch = batch(rt.alloc(), FOUR)?;
    make_of(rt, &batch, call)
}

/// Makes a call on the graph of the row's batch.
fn make_of<R: AllocGlobal + Eprint>(rt: &R, batch: &Batch, call: GraphCall) -> Option<Met> {
    let graph = LinkGraph::of(batch).ok()?;
    Some(make_on(rt, &graph, call))
}

/// Makes a call on the row's graph, which it has to leave as it was.
fn make_on<R: AllocGlobal + Eprint>(rt: &R, graph: &LinkGraph, call: GraphCall) -> Met {
    if graph.len() != 4 || !apart(graph, 0, 2) {
        return Met::Other;
    }
    let before = four_ends(graph);
    let met = match call {
        GraphCall::Split => halve(rt, graph),
        GraphCall::New => make_table(rt, graph),
        GraphCall::One => make_one(rt, graph),
        GraphCall::Insert => insert(rt, graph),
    };
    if four_ends(graph) == before {
        met
    } else {
        Met::Other
    }
}

/// The links of the first four transfers.
fn four_ends(graph: &LinkGraph) -> [Option<(Link, Link)>; 4] {
    [graph.ends(0), graph.ends(1), graph.ends(2), graph.ends(3)]
}

/// Whether the two transfers use no common link.
fn apart(graph: &LinkGraph, t: usize, u: usize) -> bool
    ensures { IsTrue result → AreApart graph.now t u }
{
    let (Some(one), Some(other)) = (graph.ends(t), graph.ends(u)) else {
        return false;
    };
    one.0 != other.0 && one.0 != other.1 && one.1 != other.0 && one.1 != other.1
}

/// Whether these are the halves 0, 2 and 1, 3, in either order.
fn are_halves(one: &[usize], other: &[usize]) -> bool {
    let (zero, three) = ([0, 2], [1, 3]);
    (one == zero.as_slice() && other == three.as_slice())
        || (one == three.as_slice() && other == zero.as_slice())
}

/// `split` on row split-of-four.
fn halve<R: AllocGlobal + Eprint>(rt: &R, graph: &LinkGraph) -> Met
    requires { 3 < length graph.now }
{
    begin(rt);
    let halves = split(rt.alloc(), graph, &[0, 1, 2, 3]);
    end(rt);
    match halves {
        Ok((one, other)) => Met::row_if(are_halves(one.as_slice(), other.as_slice())),
        Err(_) => Met::NoMemory,
    }
}

/// Whether a transfer can be placed.
fn takes(table: &mut Table<'_>, transfer: usize) -> bool
    requires { transfer < length table.old.batch }
    ensures { table.new.batch ≡ table.old.batch }
{
    table.insert(transfer).is_ok()
}

/// Whether four transfers can be placed one after the other, and four insertions are counted then.
fn takes_four(mut table: Table<'_>) -> bool
    requires { 3 < length table.batch }
{
    let zero = takes(&mut table, 0);
    let one = takes(&mut table, 1);
    let two = takes(&mut table, 2);
    let three = takes(&mut table, 3);
    let inserted = table.inserted();
    zero && one && two && three && inserted == 4
}

/// `Table::new` on row table-of-four.
fn make_table<R: AllocGlobal + Eprint>(rt: &R, graph: &LinkGraph) -> Met
    requires { 3 < length graph.now }
{
    begin(rt);
    let made = Table::new(rt.alloc(), graph, 2);
    end(rt);
    match made {
        Ok(table) => Met::row_if(takes_four(table)),
        Err(_) => Met::NoMemory,
    }
}

/// `Table::insert` on row table-of-four.
fn insert<R: AllocGlobal + Eprint>(rt: &R, graph: &LinkGraph) -> Met
    requires { 3 < length graph.now }
{
    let Ok(table) = Table::new(rt.alloc(), graph, 2) else {
        return Met::Other;
    };
    begin(rt);
    let is_right = takes_four(table);
    end(rt);
    Met::row_if(is_right)
}

/// Whether transfers 0 and 2 are placed in the one colour of the table, and nothing else is.
fn is_one(table: &Table<'_>) -> bool {
    table.colours() == 1
        && table.inserted() == 0
        && table.colour_of(0) == Some(0)
        && table.colour_of(1).is_none()
        && table.colour_of(2) == Some(0)
        && table.colour_of(3).is_none()
}

/// `Table::one` on row table-of-four.
fn make_one<R: AllocGlobal + Eprint>(rt: &R, graph: &LinkGraph) -> Met
    requires known { 3 < length graph.now }
    requires left { AreApart graph.now 0 2 }
{
    begin(rt);
    let made = Table::one(rt.alloc(), graph, &[0, 2]);
    end(rt);
    match made {
        Ok(table) => Met::row_if(is_one(&table)),
        Err(_) => Met::NoMemory,
    }
}

ghost use Rattle.std.specs.Prelude.{◌≡◌, ℕ, List, ◌<◌, length, Option, IsTrue, IfOk, IfSome};
ghost use Rattle.batch.specs.declared.transfer.Transfer.{Transfer};
ghost use Rattle.link_graph.specs.declared.link.Link.{Link};
ghost use Rattle.link_graph.specs.Counts.{uses};
ghost use Rattle.link_graph.specs.Uses.{AreApart};
ghost use Rattle.alternating_path.specs.Counts.{placed_uses};
ghost use Rattle.row_tests.specs.Counts.{placed_transfers};

use super::prints::are_printed;
use super::texts::{FIRST_FIT_LOSES, THREE_TRANSFERS, graph};
use alternating_path::{Coloured, InsertFault, Table};
use link_graph::{LINKS, LinkGraph};
use std::alloc::{AllocError, Global};
use step_count::Steps;

/// How many placed transfers use a link is how many of those that have a colour use it.
fn the_definitions_count_placed_users()
    ensures { (batch : List Transfer) (colour : List (Option ℕ)) (link : Link) →
        placed_uses batch colour link ≡ uses (placed_transfers batch colour) link }
{}

/// Setting `k`, where there is one.
fn setting(coloured: &Coloured, k: usize) -> &[usize] {
    coloured.schedule().setting(k).unwrap_or(&[])
}

/// Whether these are the settings `0 2` and `1 3`, and so many transfers were inserted.
fn is_row_of_four(coloured: &Coloured, inserted: usize) -> bool {
    coloured.schedule().settings() == 2
        && setting(coloured, 0) == [0, 2].as_slice()
        && setting(coloured, 1) == [1, 3].as_slice()
        && coloured.inserted() == inserted
}

/// Whether the two transfers use no common link.
fn apart(graph: &LinkGraph, t: usize, u: usize) -> bool
    ensures { IsTrue result → AreApart graph.now t u }
{
    let (Some(one), Some(other)) = (graph.ends(t), graph.ends(u)) else {
        return false;
    };
    one.0 != other.0 && one.0 != other.1 && one.1 != other.0 && one.1 != other.1
}

/// The graph of the four transfers, of which 0 and 2 can be in one setting, and 1 and 3.
fn graph_of_four(alloc: Global) -> Option<LinkGraph>
    ensures known { IfSome result (λ graph. 3 < length graph) }
    ensures left { IfSome result (λ graph. AreApart graph 0 2) }
    ensures right { IfSome result (λ graph. AreApart graph 1 3) }
{
    let graph = graph(alloc, FIRST_FIT_LOSES)?;
    if graph.len() == 4 && apart(&graph, 0, 2) && apart(&graph, 1, 3) {
        Some(graph)
    } else {
        None
    }
}

/// The table of `0 2`, and after it that of `1 3`.
fn joined(alloc: Global, graph: &LinkGraph) -> Result<Table, AllocError>
    requires known { 3 < length graph.now }
    requires left { AreApart graph.now 0 2 }
    requires right { AreApart graph.now 1 3 }
    ensures { IfOk result (λ table. table.colours ≡ 2) }
{
    let left = Table::one(alloc, graph, &[0, 2])?;
    let right = Table::one(alloc, graph, &[1, 3])?;
    Table::join(left, right)
}

/// Whether all four transfers are taken, each once.
fn takes_four(table: &mut Table<'_>) -> bool
    requires { 3 < length table.old.batch }
{
    table.insert(0).is_ok()
        && table.insert(1).is_ok()
        && table.insert(2).is_ok()
        && table.insert(3).is_ok()
        && table.inserted() == 4
        && table.insert(0) == Err(InsertFault::Already)
}

/// Whether the table's classes are `0 2` and `1 3`, and so many transfers were inserted.
fn gives_row(table: Table<'_>, inserted: usize) -> bool {
    match table.into_schedule() {
        Ok(coloured) => is_row_of_four(&coloured, inserted),
        Err(_) => false,
    }
}

/// Whether two colours take the four transfers of the graph, which leave no choice of the classes.
fn two_colours_take(alloc: Global, graph: &LinkGraph) -> bool
    requires { 3 < length graph.now }
{
    match Table::new(alloc, graph, 2) {
        Ok(mut table) => takes_four(&mut table) && gives_row(table, 4),
        Err(_) => false,
    }
}

/// Whether the joined table has the settings `0 2` and `1 3`, none of them inserted.
fn joins_to_row(alloc: Global, graph: &LinkGraph) -> bool
    requires known { 3 < length graph.now }
    requires left { AreApart graph.now 0 2 }
    requires right { AreApart graph.now 1 3 }
{
    match joined(alloc, graph) {
        Ok(table) => table.colours() == 2 && gives_row(table, 0),
        Err(_) => false,
    }
}

/// Whether the table of `0 2` with one class more, `1 3`, has the settings `0 2` and `1 3`, none of
/// them inserted.
fn has_class_more(alloc: Global, graph: &LinkGraph) -> Result<bool, AllocError>
    requires known { 3 < length graph.now }
    requires left { AreApart graph.now 0 2 }
    requires right { AreApart graph.now 1 3 }
{
    let table = Table::one(alloc, graph, &[0, 2])?;
    if table.colour_of(1).is_some() || table.colour_of(3).is_some() {
        return Ok(false);
    }
    let table = table.with_class(&[1, 3], &mut Steps::none())?;
    Ok(gives_row(table, 0))
}

/// Whether the table has `1 3` as its one colour, and 0 in none, and the class is `0 2`.
fn is_taken_back(table: &Table<'_>, class: &[usize]) -> bool {
    class == [0, 2].as_slice()
        && table.colours() == 1
        && table.colour_of(1) == Some(0)
        && table.colour_of(3) == Some(0)
        && table.colour_of(0) == None
}

/// Whether `0 2` is taken back from the joined table, and `1 3` left.
fn gives_back(alloc: Global, graph: &LinkGraph) -> Result<bool, AllocError>
    requires known { 3 < length graph.now }
    requires left { AreApart graph.now 0 2 }
    requires right { AreApart graph.now 1 3 }
{
    let (table, class) = joined(alloc, graph)?.take_back()?;
    Ok(is_taken_back(&table, class.as_slice()))
}

/// Whether the row is met by insertions, by halves that are joined, by a class that is added, and
/// by what is taken back of the joined halves.
fn meets_row(alloc: Global) -> bool {
    match graph_of_four(alloc) {
        Some(graph) => {
            two_colours_take(alloc, &graph)
                && joins_to_row(alloc, &graph)
                && has_class_more(alloc, &graph) == Ok(true)
                && gives_back(alloc, &graph) == Ok(true)
        }
        None => false,
    }
}

#[test]
fn table_of_four(rt: HostRuntime) {
    assert!(rt; meets_row(rt.alloc()));
}

/// Whether transfer 0 is taken, and there is no room for transfer 1.
fn has_room_for_one(table: &mut Table<'_>) -> bool
    requires { 1 < length table.old.batch }
{
    table.insert(0).is_ok()
        && table.insert(1) == Err(InsertFault::NoRoom)
        && table.colour_of(1).is_none()
}

/// Whether one colour has room for one of the transfers of the graph.
fn one_colour_takes_one(alloc: Global, graph: &LinkGraph) -> bool
    requires { 1 < length graph.now }
{
    match Table::new(alloc, graph, 1) {
        Ok(mut table) => has_room_for_one(&mut table),
        Err(_) => false,
    }
}

/// Whether one colour has room for one of three transfers.
fn has_no_room(alloc: Global) -> bool {
    match graph(alloc, THREE_TRANSFERS) {
        Some(graph) => graph.len() == 3 && one_colour_takes_one(alloc, &graph),
        None => false,
    }
}

#[test]
fn three_transfers_in_one_colour(rt: HostRuntime) {
    assert!(rt; has_no_room(rt.alloc()));
}

/// Whether a table of so many colours can't be had.
fn is_refused(alloc: Global, colours: usize) -> bool {
    match graph(alloc, THREE_TRANSFERS) {
        Some(graph) => Table::new(alloc, &graph, colours).is_err(),
        None => false,
    }
}

#[test]
fn more_colours_than_memory(rt: HostRuntime) {
    let alloc = rt.alloc();
    assert!(rt; is_refused(alloc, usize::MAX) && is_refused(alloc, usize::MAX / LINKS));
}

const FAULTS: &[(InsertFault, &str)] = &[
    (InsertFault::NoRoom, "no room"),
    (InsertFault::Already, "already"),
];

#[test]
fn faults_are_printed(rt: HostRuntime) {
    assert!(rt; are_printed(rt.alloc(), FAULTS));
}

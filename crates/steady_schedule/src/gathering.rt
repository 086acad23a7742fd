//! Lists of the transfers of settings.

ghost use Rattle.std.specs.Prelude.{◌≡◌, ◌<◌, length, IfOk, OnOk};
ghost use Rattle.link_graph.specs.Schedules.{lists_of};
ghost use Rattle.steady_schedule.specs.Gathered.{AreEmpty, with_pushed};

use std::alloc::{AllocError, Global};

/// So many empty lists, with room for as many numbers each.
pub(crate) fn empty_lists(
    alloc: Global,
    count: usize,
    room: usize,
) -> Result<Vec<Vec<usize>>, AllocError>
    ensures { IfOk result (λ lists. AreEmpty (lists_of lists.items) count) }
{
    let mut lists = Vec::with_capacity(alloc, count)?;
    for _ in 0..count {
        lists.push(Vec::with_capacity(alloc, room)?)?;
    }
    Ok(lists)
}

/// Puts a transfer at the end of list `k`.
pub(crate) fn push_into(lists: &mut Vec<Vec<usize>>, k: usize, t: usize) -> Result<(), AllocError>
    requires { k < length (lists_of lists.old.items) }
    ensures { OnOk result (lists_of lists.new.items ≡ with_pushed (lists_of lists.old.items) k t) }
{
    lists[k].push(t)?;
    Ok(())
}

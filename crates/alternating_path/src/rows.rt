//! Rows of a table's cells.

ghost use Rattle.std.specs.Prelude.{◌≡◌, ℕ, ◌+◌, ◌*◌, ◌<◌, ◌≤◌, length, is_some, count_by, Some};
ghost use Rattle.std.specs.Prelude.{None, IfOk, OnOk, slice_index_or};
ghost use Rattle.std.specs.List.{filter_map};
ghost use Rattle.alternating_path.specs.Cells.{AreNoted, KeepsRowsBelow, MovesRowsUp};

use link_graph::LINKS;
use std::alloc::{AllocError, Global};
use step_count::Steps;

/// How many of the cells have a transfer.
pub(crate) fn class_size(starts: &[Option<u16>], steps: &mut Steps) -> usize
    ensures count { result ≡ count_by is_some starts.now }
    ensures cost { steps.new ≡ steps.old + length starts.now }
{
    let mut size = 0;
    for holder in starts {
        steps.tick();
        if holder.is_some() {
            size += 1;
        }
    }
    size
}

/// The transfers of the cells, in order.
pub(crate) fn class_of(
    alloc: Global,
    starts: &[Option<u16>],
    steps: &mut Steps,
) -> Result<Vec<usize>, AllocError>
    ensures class { IfOk result (λ class. class.items ≡ filter_map (λ holder. holder) starts.now) }
    ensures cost { steps.new ≤ steps.old + length starts.now }
{
    let mut class = Vec::with_capacity(alloc, starts.len())?;
    for holder in starts {
        steps.tick();
        if let Some(t) = *holder {
            class.push(usize::from(t))?;
        }
    }
    Ok(class)
}

/// Notes the colour of the transfers of these cells in the list.
pub(crate) fn note_class(
    list: &mut [Option<usize>],
    starts: &[Option<u16>],
    colour: usize,
    steps: &mut Steps,
)
    requires { (m t : ℕ) → slice_index_or starts.now m None ≡ Some t → t < length list.old }
    ensures noted { AreNoted starts.now (length starts.now) colour list.old list.new }
    ensures cost { steps.new ≡ steps.old + length starts.now }
{
    for holder in starts {
        steps.tick();
        if let Some(t) = *holder {
            list[usize::from(t)] = Some(colour);
        }
    }
}

/// Takes a colour's row out. The rows after it move up: they are copied as a whole, which takes a
/// fraction of the steps that moving them cell by cell would.
pub(crate) fn remove_row(
    cells: &mut Vec<Option<u16>>,
    colour: usize,
    steps: &mut Steps,
) -> Result<(), AllocError>
    requires { (colour + 1) * LINKS ≤ length cells.old.items }
    ensures sized { OnOk result (length cells.new.items + LINKS ≡ length cells.old.items) }
    ensures before { OnOk result (KeepsRowsBelow colour cells.old.items cells.new.items) }
    ensures behind { OnOk result (MovesRowsUp colour cells.old.items cells.new.items) }
    ensures cost { steps.new ≤ steps.old + 2 * length cells.old.items }
{
    let start = colour * LINKS;
    let behind = Vec::from_slice(*cells.allocator(), &cells[start + LINKS..])?;
    steps.tick_many(behind.len());
    cells.truncate(start);
    steps.tick_many(behind.len());
    cells.extend_from_slice(behind.as_slice())
}

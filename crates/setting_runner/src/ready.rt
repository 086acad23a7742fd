//! What is tested and taken before a run begins.

ghost use Rattle.std.specs.Prelude.{◌≡◌, ◌<◌, ◌++◌, ◌↔◌, All, length, IsTrue, OnOk, OnErr, IfOk};
ghost use Rattle.std.specs.Prelude.{IfErr};
ghost use Rattle.batch.specs.Places.{HasPlace, source_of, destination_of};
ghost use Rattle.module_memory.specs.Bays.{destinations_of};
ghost use Rattle.module_memory.specs.Core.{FitsIn};
ghost use Rattle.link_graph.specs.Schedules.{IsScheduleOf};
ghost use Rattle.setting_runner.specs.Runs.{destinations_in};

use batch::{Batch, Place, Shape, Transfer};
use link_graph::Schedule;
use std::alloc::{AllocError, Global};
use switch_settings::{numbers_of_setting, transfer_of};

/// Whether the shape has the block.
fn has_place(shape: Shape, place: Place) -> bool
    ensures { IsTrue result ↔ HasPlace shape place }
{
    place.module < shape.modules() && place.block < shape.blocks()
}

/// Whether the shape has the blocks that a transfer reads and writes.
fn has_blocks(shape: Shape, transfer: Transfer) -> bool
    ensures { IsTrue result ↔
        (HasPlace shape (source_of transfer) × HasPlace shape (destination_of transfer)) }
{
    has_place(shape, transfer.source()) && has_place(shape, transfer.destination())
}

/// Whether the shape has all blocks that the transfers of a batch read and write.
pub fn fits_in(shape: Shape, batch: &Batch) -> bool
    ensures { IsTrue result ↔ FitsIn shape batch.now }
{
    for transfer in batch.as_slice() {
        if !has_blocks(shape, *transfer) {
            return false;
        }
    }
    true
}

/// The blocks that the transfers of a schedule write, in the order of its settings.
pub fn destinations(
    alloc: Global,
    batch: &Batch,
    schedule: &Schedule,
) -> Result<Vec<Place>, AllocError>
    requires { IsScheduleOf batch.now schedule.now }
    ensures places { IfOk result
        (λ places. places.items ≡ destinations_in batch.now schedule.now) }
    ensures memory { IfErr result (λ _. 0 < length batch.now) }
{
    let mut places = Vec::new(alloc);
    for k in 0..schedule.settings() {
        push_destinations(&mut places, batch, numbers_of_setting(batch, schedule, k))?;
    }
    Ok(places)
}

/// Puts the blocks that these transfers write after the others.
fn push_destinations(
    places: &mut Vec<Place>,
    batch: &Batch,
    numbers: &[usize],
) -> Result<(), AllocError>
    requires { All (λ t. t < length batch.now) numbers.now }
    ensures places { OnOk result
        (places.new.items ≡ places.old.items ++ destinations_of batch.now numbers.now) }
    ensures memory { OnErr result (0 < length batch.now) }
{
    for t in numbers {
        places.push(transfer_of(batch, *t).destination())?;
    }
    Ok(())
}

//! Which blocks the settings so far have changed.

ghost use Rattle.std.specs.Prelude.{◌≡◌, ◌<◌, [], ◌++◌, List, length, All};
ghost use Rattle.batch.specs.Batches.{IsBatch};
ghost use Rattle.batch.specs.ShapeView.{widest};
ghost use Rattle.batch.specs.Places.{HasPlace};
ghost use Rattle.batch.specs.Written.{flag_of};
ghost use Rattle.batch.specs.declared.transfer.Transfer.{Transfer};
ghost use Rattle.module_memory.specs.Core.{setting_of};
ghost use Rattle.module_orders.specs.Flags.{AreChanged};

use batch::{Batch, MAX_RACK_BLOCKS, Place, widest_index};
use switch_settings::transfer_of;

/// A flag for each block of the widest shape, which is up where a transfer so far has changed the
/// block.
#[derive(Drop)]
pub(crate) struct ChangedBlocks {
    pub(crate) flags: [bool; MAX_RACK_BLOCKS],
}

impl ChangedBlocks {
    /// No transfer has changed a block.
    pub(crate) fn none() -> ChangedBlocks
        ensures { AreChanged [] result.flags }
    {
        ChangedBlocks {
            flags: [false; MAX_RACK_BLOCKS],
        }
    }

    /// Takes note of the blocks that the transfers of these numbers change: those that they write,
    /// but for a block that is sent to itself.
    pub(crate) fn add(&mut self, batch: &Batch, numbers: &[usize])
        requires batch { IsBatch batch.now }
        requires known { All (λ t. t < length batch.now) numbers.now }
        ensures { (before : List Transfer) → AreChanged before self.old.flags
            → AreChanged (before ++ setting_of batch.now numbers.now) self.new.flags }
    {
        for t in numbers {
            let transfer = transfer_of(batch, *t);
            let destination = transfer.destination();
            if transfer.source() != destination {
                self.flags[widest_index(destination)] = true;
            }
        }
    }

    /// Whether a transfer so far has changed the block.
    pub(crate) fn has(&self, place: Place) -> bool
        requires { HasPlace widest place }
        ensures { result ≡ flag_of self.now.flags place }
    {
        self.flags[widest_index(place)]
    }
}

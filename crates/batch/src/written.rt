//! Which blocks a batch writes.

ghost use Rattle.std.specs.Prelude.{◌≡◌, All};
ghost use Rattle.batch.specs.ShapeView.{widest};
ghost use Rattle.batch.specs.Held.{is_written};
ghost use Rattle.batch.specs.Places.{HasPlace};
ghost use Rattle.batch.specs.Text.{IsWithin};
ghost use Rattle.batch.specs.Written.{AreWritten};

use crate::batch::Batch;
use crate::limits::MAX_RACK_BLOCKS;
use crate::overlap::widest_index;
use crate::transfer::{Place, Transfer};
use std::marker::Model;

/// A batch, with a table of the blocks that it writes. Contracts see the batch.
#[derive(Drop)]
pub struct WrittenBlocks<'a> {
    batch: &'a Batch,
    /// A flag for each block of the widest shape.
    flags: [bool; MAX_RACK_BLOCKS],
}

impl<'a> Model for WrittenBlocks<'a> {
    ghost use Rattle.std.specs.Prelude.{List};
    ghost use Rattle.batch.specs.declared.transfer.Transfer.{Transfer};
    ghost use Rattle.batch.specs.Written.{AreWritten};

    ghost Value = { List Transfer };

    ghost view = { λ w. w.batch.now };

    ghost invariant = { λ w. AreWritten w.batch.now w.flags };
}

impl Batch {
    /// Which blocks its transfers write.
    ///
    /// Takes no memory, and time that grows with the number of transfers and of blocks.
    pub fn written_blocks(&self) -> WrittenBlocks<'_>
        ensures { result ≡ self.entry.now }
    {
        WrittenBlocks {
            batch: self,
            flags: flags_of(self.as_slice()),
        }
    }
}

impl<'a> WrittenBlocks<'a> {
    /// Whether a transfer writes the block.
    pub fn has(&self, place: Place) -> bool
        requires { HasPlace widest place }
        ensures { result ≡ is_written self.now place }
    {
        self.flags[widest_index(place)]
    }
}

/// A flag for each block of the widest shape, which is up where one of the transfers writes the
/// block.
pub(crate) fn flags_of(transfers: &[Transfer]) -> [bool; MAX_RACK_BLOCKS]
    requires { All (IsWithin widest) transfers.now }
    ensures { AreWritten transfers.now result }
{
    let mut written = [false; MAX_RACK_BLOCKS];
    for transfer in transfers {
        written[widest_index(transfer.destination())] = true;
    }
    written
}

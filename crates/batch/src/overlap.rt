//! Whether transfers overlap, and which do first.

ghost use Rattle.std.specs.Prelude.{◌≡◌, ◌<◌, IfNone, IfSome};
ghost use Rattle.batch.specs.ShapeView.{widest};
ghost use Rattle.batch.specs.Places.{HasPlace, place_index};
ghost use Rattle.batch.specs.Overlap.{IsApart, IsFirstOverlap};

use crate::batch::Batch;
use crate::limits::{MAX_BLOCKS, MAX_RACK_BLOCKS};
use crate::transfer::Place;

impl Batch {
    /// The first two transfers that overlap: both write one block. The first number is as small as
    /// can be, and then the second. What overlaps is this project's choice.
    ///
    /// Takes no memory, and time that grows with the number of transfers and of blocks.
    pub fn first_overlap(&self) -> Option<(usize, usize)>
        ensures none { IfNone result (IsApart self.now) }
        ensures first { IfSome result (λ pair. IsFirstOverlap self.now pair.0 pair.1) }
    {
        let transfers = self.as_slice();
        // From the last transfer to the first: of each block the next one that writes it, and of
        // the pairs so far the first one.
        let mut next_writers = [None; MAX_RACK_BLOCKS];
        let mut first = None;
        for i in (0..transfers.len()).rev() {
            let index = widest_index(transfers[i].destination());
            if let Some(j) = next_writers[index] {
                first = Some((i, usize::from(j)));
            }
            next_writers[index] = Some(i as u16);
        }
        first
    }
}

/// Where a block stands among those of the widest shape.
pub fn widest_index(place: Place) -> usize
    requires { HasPlace widest place }
    ensures value { result ≡ place_index widest place }
    ensures below { result < MAX_RACK_BLOCKS }
{
    place.module * MAX_BLOCKS + place.block
}

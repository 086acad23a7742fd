//! Which blocks a batch both reads and writes.

ghost use Rattle.std.specs.Prelude.{IfOk, IfErr};
ghost use Rattle.batch.specs.Held.{AreHeldSources, HasHeldSource};

use crate::batch::Batch;
use crate::overlap::widest_index;
use crate::transfer::Place;
use crate::written::flags_of;
use std::alloc::{AllocError, Global};

impl Batch {
    /// The held sources: the blocks that a transfer of the batch reads and one, the same or
    /// another, writes. Each stands once; their order isn't said. That such a block is copied
    /// before any word moves is this project's choice.
    ///
    /// Want of memory is answered only where there is such a block. The time grows with the number
    /// of transfers and of blocks.
    pub fn held_sources(&self, alloc: Global) -> Result<Vec<Place>, AllocError>
        ensures held { IfOk result (λ held. AreHeldSources self.now held.items) }
        ensures memory { IfErr result (λ _. HasHeldSource self.now) }
    {
        let transfers = self.as_slice();
        let mut unheld = flags_of(transfers);
        let mut held = Vec::new(alloc);
        for transfer in transfers {
            let source = transfer.source();
            let index = widest_index(source);
            if unheld[index] {
                held.push(source)?;
                unheld[index] = false;
            }
        }
        Ok(held)
    }
}

//! A batch that the book and its history share.

ghost use Rattle.std.specs.Prelude.{◌≡◌, IfOk};

use batch::Batch;
use std::alloc::{AllocError, Global};
use std::marker::Model;
use std::sync::Arc;

/// A batch that more than one may hold; it is there once. Contracts see its transfers.
#[derive(Drop)]
pub struct SharedBatch {
    batch: Arc<Batch>,
}

impl Model for SharedBatch {
    ghost use Rattle.std.specs.Prelude.{List};
    ghost use Rattle.std.specs.Arc.{arc_value};
    ghost use Rattle.batch.specs.declared.transfer.Transfer.{Transfer};

    ghost Value = { List Transfer };

    ghost view = { λ s. arc_value s.batch };
}

impl SharedBatch {
    /// The batch, held once. It takes a few words of memory.
    pub(crate) fn new(alloc: Global, batch: Batch) -> Result<SharedBatch, AllocError>
        ensures { IfOk result (λ shared. shared ≡ batch) }
    {
        Ok(SharedBatch {
            batch: Arc::new(alloc, batch)?,
        })
    }

    /// Shares this batch with one more holder. It takes no memory.
    pub(crate) fn share(&self) -> Result<SharedBatch, AllocError>
        ensures { IfOk result (λ shared. shared ≡ self.now) }
    {
        Ok(SharedBatch {
            batch: self.batch.clone()?,
        })
    }

    /// The batch.
    pub fn batch(&self) -> &Batch
        ensures { result.now ≡ self.now }
    {
        &self.batch
    }
}

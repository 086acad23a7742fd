//! The batches that the book keeps, and how far they have come.

use crate::shared_batch::SharedBatch;
use schedule_certificate::Planned;

/// How far a batch of the book has come.
#[derive(Clone, Copy, PartialEq, Eq)]
pub enum BatchState {
    /// It has no plan yet.
    Waiting,
    /// It has its plan, and can be run.
    Planned,
    /// It was run to its end.
    Ran,
    /// Its run stopped.
    Stopped,
}

/// How far a batch has come, with its plan while it can be run.
#[derive(Drop)]
pub enum BatchStage {
    /// It has no plan yet.
    Waiting,
    /// It can be run by this plan.
    Planned(Planned),
    /// It was run to its end.
    Ran,
    /// Its run stopped.
    Stopped,
}

impl BatchStage {
    ghost use Rattle.std.specs.Prelude.{◌≡◌};
    ghost use Rattle.batch_book.specs.Machine.{state_of};

    /// The stage without its plan.
    pub(crate) fn state(&self) -> BatchState
        ensures { result ≡ state_of self.now }
    {
        match self {
            BatchStage::Waiting => BatchState::Waiting,
            BatchStage::Planned(_) => BatchState::Planned,
            BatchStage::Ran => BatchState::Ran,
            BatchStage::Stopped => BatchState::Stopped,
        }
    }
}

/// A batch that the book holds.
pub struct StoredBatch {
    /// The session that submitted it, and that alone may name it.
    pub owner: usize,
    /// Its transfers.
    pub batch: SharedBatch,
    /// How far it has come.
    pub stage: BatchStage,
}

// Said once, so that no function that lets go of one has to say it again.
impl Drop for StoredBatch {
    fn drop(self) {
        let StoredBatch {
            owner: _,
            batch: _,
            stage: _,
        } = self;
    }
}

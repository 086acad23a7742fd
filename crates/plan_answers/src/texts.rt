//! The texts of a batch and of a schedule, which `check`, `draw` and `switch` read.

ghost use Rattle.std.specs.Prelude.{◌≢◌, IfOk, IfErr};
ghost use Rattle.refusals.specs.declared.refusal.Refusal.TheVariants.{NoMemory};
ghost use Rattle.plan_answers.specs.Texts.{AreTexts, IsTextWrong};

use batch::{Batch, Shape};
use link_graph::{Certificate, Schedule};
use refusals::Refusal;
use std::alloc::Global;

/// What the two texts say.
pub(crate) struct ReadTexts {
    pub(crate) batch: Batch,
    pub(crate) schedule: Schedule,
    pub(crate) certificate: Option<Certificate>,
}

// Said once, so that no function that lets go of one has to say it again.
impl Drop for ReadTexts {
    fn drop(self) {
        let ReadTexts {
            batch: _,
            schedule: _,
            certificate: _,
        } = self;
    }
}

impl ReadTexts {
    /// What the texts say, or what is first wrong with them. The batch text is looked at first,
    /// against the shape.
    pub(crate) fn read(
        alloc: Global,
        shape: Shape,
        batch: &[u8],
        schedule: &[u8],
    ) -> Result<ReadTexts, Refusal>
        ensures texts { IfOk result (λ read.
            AreTexts shape batch.now schedule.now read.batch read.schedule read.certificate) }
        ensures wrong { IfErr result (λ refusal. refusal ≢ NoMemory
            → IsTextWrong shape batch.now schedule.now refusal) }
    {
        let batch = Batch::read(alloc, batch, shape)?;
        let (schedule, certificate) = Schedule::read(alloc, schedule)?;
        Ok(ReadTexts {
            batch,
            schedule,
            certificate,
        })
    }
}

//! A schedule of a batch, as two texts say it.

ghost use Rattle.std.specs.Prelude.{◌≡◌, ◌≢◌, IfOk, IfErr};
ghost use Rattle.link_graph.specs.Schedules.{IsScheduleOf};
ghost use Rattle.refusals.specs.declared.refusal.Refusal.TheVariants.{NoMemory};
ghost use Rattle.schedule_picture.specs.Verdicts.{IsVerdict};
ghost use Rattle.plan_answers.specs.Texts.{AreTexts};
ghost use Rattle.plan_answers.specs.Validities.{IsInvalid};

use crate::texts::ReadTexts;
use crate::validity::certificate_status_in;
use batch::{Batch, Shape};
use link_graph::Schedule;
use refusals::Refusal;
use schedule_picture::{CertificateStatus, Verdict, verdict_on};
use std::alloc::{AllocError, Global};
use std::marker::Model;

/// A batch and a schedule of it, as two texts say them.
#[derive(Drop)]
pub(crate) struct ScheduleTexts {
    texts: ReadTexts,
    /// How the certificate stands.
    standing: CertificateStatus,
}

impl Model for ScheduleTexts {
    ghost use Rattle.link_graph.specs.Schedules.{IsScheduleOf};
    ghost use Rattle.schedule_picture.specs.Verdicts.{IsCertificateStatus};
    ghost use Rattle.plan_answers.specs.declared.texts.ReadTexts.{ReadTexts};

    ghost Value = { ReadTexts };

    ghost view = { λ t. t.texts };

    ghost invariant = { λ t. IsScheduleOf t.texts.batch t.texts.schedule
        × IsCertificateStatus t.texts.batch t.texts.schedule t.texts.certificate t.standing };
}

impl ScheduleTexts {
    /// What the texts of a batch and of a schedule of it say, or what is first wrong.
    ///
    /// The batch text is looked at first, against the shape; then the schedule text; then faults of
    /// its settings, in the order of [`CheckFault`](link_graph::CheckFault). A certificate that is
    /// missing or wrong is no fault. Takes time that grows with the lengths of the texts.
    pub(crate) fn read(
        alloc: Global,
        shape: Shape,
        batch: &[u8],
        schedule: &[u8],
    ) -> Result<ScheduleTexts, Refusal>
        ensures texts { IfOk result (λ read.
            AreTexts shape batch.now schedule.now read.batch read.schedule read.certificate) }
        ensures valid { IfOk result (λ read. IsScheduleOf read.batch read.schedule) }
        ensures invalid { IfErr result (λ refusal. refusal ≢ NoMemory
            → IsInvalid shape batch.now schedule.now refusal) }
    {
        let texts = ReadTexts::read(alloc, shape, batch, schedule)?;
        let standing = certificate_status_in(alloc, &texts)?;
        Ok(ScheduleTexts { texts, standing })
    }

    /// The batch.
    pub(crate) fn batch(&self) -> &Batch
        ensures { result.now ≡ self.now.batch }
    {
        &self.texts.batch
    }

    /// The schedule.
    pub(crate) fn schedule(&self) -> &Schedule
        ensures schedule { result.now ≡ self.now.schedule }
        ensures valid { IsScheduleOf self.now.batch self.now.schedule }
    {
        &self.texts.schedule
    }

    /// What is known of the schedule. It looks for prices, which no other function here does.
    pub(crate) fn verdict(&self, alloc: Global) -> Result<Verdict, AllocError>
        ensures { IfOk result
            (IsVerdict self.now.batch self.now.schedule self.now.certificate) }
    {
        let certificate = self.texts.certificate.as_ref();
        verdict_on(
            alloc,
            self.batch(),
            self.schedule(),
            certificate,
            self.standing,
        )
    }
}

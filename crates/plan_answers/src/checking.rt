//! The command `check`.

ghost use Rattle.std.specs.Prelude.{◌≡◌, ◌≢◌, List, ℕ, IfOk, IfErr, OnOk, length};
ghost use Rattle.std.specs.Option.{IsSomeAnd};
ghost use Rattle.batch.specs.ShapeView.{widest};
ghost use Rattle.link_graph.specs.Certificates.{IsCertified};
ghost use Rattle.refusals.specs.declared.refusal.Refusal.TheVariants.{NoMemory};
ghost use Rattle.plan_answers.specs.Texts.{AreTexts};
ghost use Rattle.plan_answers.specs.Answers.{IsOnly, IsUnshown, IsChecked};

use crate::answer::Answer;
use crate::texts::ReadTexts;
use crate::validity::validity_of;
use batch::Shape;
use link_graph::check_schedule;
use refusals::Refusal;
use std::alloc::{AllocError, Global};

/// How many settings the schedule of the texts has, where its certificate shows that none is
/// shorter; or what is wrong.
fn judge(alloc: Global, texts: &ReadTexts) -> Result<usize, Refusal>
    ensures certified { OnOk result
        (IsSomeAnd texts.now.certificate (IsCertified texts.now.batch texts.now.schedule)) }
    ensures settings { IfOk result (λ settings. settings ≡ length texts.now.schedule) }
    ensures wrong { IfErr result (λ refusal. refusal ≢ NoMemory
        → IsUnshown texts.now.batch texts.now.schedule texts.now.certificate refusal) }
{
    let Some(certificate) = &texts.certificate else {
        return Err(Refusal::NoCertificate);
    };
    let shortest = check_schedule(alloc, &texts.batch, &texts.schedule, certificate)?;
    Ok(shortest.settings)
}

/// The answer to texts that say this.
fn answer_texts(alloc: Global, texts: &ReadTexts) -> Result<Answer, AllocError>
    ensures { (batch schedule : List ℕ)
        → AreTexts widest batch schedule texts.now.batch texts.now.schedule texts.now.certificate
        → IfOk result (IsChecked widest batch schedule) }
{
    match judge(alloc, texts) {
        Ok(settings) => {
            let line = format!(in alloc; "shortest {settings}\n")?;
            Ok(Answer::done(line.into_bytes()))
        }
        Err(refusal) => {
            let answer = Answer::refused(alloc, refusal)?;
            Ok(answer.with_validity(validity_of(alloc, texts, refusal)))
        }
    }
}

/// The answer of `exchange check`: `shortest S` where the schedule text says a shortest schedule,
/// of S settings, of the batch that the batch text denotes, with a certificate that shows it; or
/// the refusal of what is first wrong.
///
/// The batch text is looked at first, against the widest shape; then the schedule text; then
/// whether it has the certificate part; then the faults of [`CheckFault`](link_graph::CheckFault),
/// in their order. Takes time that grows with the lengths of the texts.
pub fn answer_check(alloc: Global, batch: &[u8], schedule: &[u8]) -> Result<Answer, AllocError>
    ensures checked { IfOk result (IsChecked widest batch.now schedule.now) }
    ensures one { IfOk result (IsOnly (IsChecked widest batch.now schedule.now)) }
{
    match ReadTexts::read(alloc, Shape::WIDEST, batch, schedule) {
        Ok(texts) => answer_texts(alloc, &texts),
        Err(refusal) => Answer::refused(alloc, refusal),
    }
}

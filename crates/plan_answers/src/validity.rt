//! Whether a schedule is one of its batch, whatever certificate it has.

ghost use Rattle.std.specs.Prelude.{◌≡◌, ◌≢◌, List, ℕ, Option, OnOk, IfOk, IfErr};
ghost use Rattle.batch.specs.ShapeView.{widest};
ghost use Rattle.link_graph.specs.declared.link.Link.{Link};
ghost use Rattle.link_graph.specs.Schedules.{IsScheduleOf};
ghost use Rattle.refusals.specs.declared.refusal.Refusal.TheVariants.{NoMemory};
ghost use Rattle.schedule_picture.specs.Verdicts.{IsBusiestOf, uses_of, IsCertificateStatus};
ghost use Rattle.plan_answers.specs.Answers.{IsUnshown};
ghost use Rattle.plan_answers.specs.Texts.{AreTexts};
ghost use Rattle.plan_answers.specs.Validities.{IsUnscheduled, IsKnown};

use crate::texts::ReadTexts;
use link_graph::LinkGraph;
use refusals::{Refusal, Validity};
use schedule_picture::{CertificateStatus, certificate_status};
use std::alloc::Global;

/// How the certificate of the texts stands, where their schedule is one of the batch; or what is
/// first wrong with its settings.
pub(crate) fn certificate_status_in(
    alloc: Global,
    texts: &ReadTexts,
) -> Result<CertificateStatus, Refusal>
    ensures schedule { OnOk result (IsScheduleOf texts.now.batch texts.now.schedule) }
    ensures standing { IfOk result
        (IsCertificateStatus texts.now.batch texts.now.schedule texts.now.certificate) }
    ensures wrong { IfErr result (λ refusal. refusal ≢ NoMemory
        → IsUnscheduled texts.now.batch texts.now.schedule refusal) }
{
    let certificate = texts.certificate.as_ref();
    Ok(certificate_status(alloc, &texts.batch, &texts.schedule, certificate)?)
}

/// How many transfers the busiest link has, so that no schedule has fewer settings.
pub(crate) fn most_uses(graph: &LinkGraph) -> usize
    ensures { (link : Option Link) × IsBusiestOf graph.now link
        × (result ≡ uses_of graph.now link) }
{
    match graph.busiest() {
        Some(link) => graph.uses(link),
        None => 0,
    }
}

/// How many settings are enough for the batch of the texts, whose schedule is one of it.
fn enough_for(texts: &ReadTexts) -> Validity
    requires { IsScheduleOf texts.now.batch texts.now.schedule }
    ensures { (batch schedule : List ℕ)
        → AreTexts widest batch schedule texts.now.batch texts.now.schedule texts.now.certificate
        → IsKnown batch schedule result }
{
    match LinkGraph::of(&texts.batch) {
        Ok(graph) => Validity::Valid(most_uses(&graph)),
        Err(_) => Validity::Unknown,
    }
}

/// What is known of a schedule that `check` refuses so: whether it is one of the batch, and how
/// many settings are enough then.
///
/// It is [`Validity::Unknown`] where the settings themselves are refused, which tells that they are
/// no schedule of the batch, and where there is no memory. By the contract it may always be that.
pub(crate) fn validity_of(alloc: Global, texts: &ReadTexts, refusal: Refusal) -> Validity
    requires { IsUnshown texts.now.batch texts.now.schedule texts.now.certificate refusal }
    ensures { (batch schedule : List ℕ)
        → AreTexts widest batch schedule texts.now.batch texts.now.schedule texts.now.certificate
        → IsKnown batch schedule result }
{
    match refusal {
        Refusal::NoCertificate => match certificate_status_in(alloc, texts) {
            Ok(_) => enough_for(texts),
            Err(wrong) => match wrong {
                Refusal::NoMemory => Validity::Unknown,
                _ => Validity::Invalid,
            },
        },
        Refusal::CheckWrongLink(_)
        | Refusal::CheckCertificateRepeats(_)
        | Refusal::CheckNotTight { .. } => enough_for(texts),
        _ => Validity::Unknown,
    }
}

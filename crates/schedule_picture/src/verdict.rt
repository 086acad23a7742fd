//! What is known of how many settings a schedule has, and of how often it changes the switch.

ghost use Rattle.std.specs.Prelude.{◌≡◌, ◌≢◌, ◌≤◌, IfOk, IfErr, OnOk};
ghost use Rattle.std.specs.Option.{option_copied};
ghost use Rattle.link_graph.specs.declared.check_fault.CheckFault.TheVariants.{NoMemory};
ghost use Rattle.batch.specs.declared.limits.TheConstants.{MAX_TRANSFERS};
ghost use Rattle.link_graph.specs.declared.link.Link.{Link};
ghost use Rattle.link_graph.specs.Counts.{uses};
ghost use Rattle.link_graph.specs.Schedules.{IsScheduleOf};
ghost use Rattle.link_graph.specs.Checks.{IsSettingsFault};
ghost use Rattle.schedule_picture.specs.Verdicts.{uses_of, link_named, IsProofOf};
ghost use Rattle.schedule_picture.specs.Verdicts.{IsCertificateStatus, AreMostPartners};
ghost use Rattle.schedule_picture.specs.Verdicts.{IsLeastShown, IsVerdict};

use batch::Batch;
use link_graph::{Certificate, CheckFault, Link, LinkGraph, Schedule, check_schedule};
use std::alloc::{AllocError, Global};
use steady_schedule::{best_price_table, count_changes, most_partners};

/// Whether a schedule has a certificate, and whether that shows that no schedule is shorter.
#[derive(Clone, Copy)]
pub enum CertificateStatus {
    /// It has one, which shows it.
    Certified,
    /// It has one, which doesn't.
    Wrong,
    /// It has none.
    Missing,
}

/// What is known of how many settings a schedule has, and of how often it changes the switch.
#[derive(Clone, Copy)]
pub struct Verdict {
    /// How many transfers the busiest link has. No schedule of the batch has fewer settings.
    pub fewest: usize,
    /// The busiest link, or that of several which a certificate names; none where there is no
    /// transfer.
    pub busiest: Option<Link>,
    /// How the certificate stands.
    pub standing: CertificateStatus,
    /// How often the schedule changes the switch: for its first setting, and for each that doesn't
    /// join the same pairs of modules as the one before.
    pub changes: usize,
    /// How many partners a link has at most: links with which it shares transfers. No schedule of
    /// the batch changes the switch less often. 0 where there is no transfer.
    pub partners: usize,
    /// How often a schedule with as many settings changes the switch at least, as far as it is
    /// shown: where these are the fewest by prices of the links, and else by one link's partners.
    pub least: usize,
}

/// Whether a certificate shows that no schedule of the batch is shorter than this one.
fn standing_by(
    alloc: Global,
    batch: &Batch,
    schedule: &Schedule,
    certificate: &Certificate,
) -> Result<CertificateStatus, CheckFault>
    ensures schedule { OnOk result (IsScheduleOf batch.now schedule.now) }
    ensures standing { IfOk result (IsProofOf batch.now schedule.now certificate.now) }
    ensures fault { IfErr result (λ fault. fault ≢ NoMemory
        → IsSettingsFault batch.now schedule.now fault) }
{
    match check_schedule(alloc, batch, schedule, certificate) {
        Ok(_) => Ok(CertificateStatus::Certified),
        Err(
            CheckFault::WrongLink(_)
            | CheckFault::CertificateRepeats(_)
            | CheckFault::NotTight(_, _),
        ) => Ok(CertificateStatus::Wrong),
        Err(fault) => Err(fault),
    }
}

/// How the certificate of a schedule of the batch stands, where it has one, or what is first wrong
/// with its settings.
///
/// A certificate that is wrong, or none, is no fault. The faults are those of [`check_schedule`],
/// in their order. Takes time that grows with the numbers of transfers, of settings and of all that
/// stands in the settings and in the certificate.
pub fn certificate_status(
    alloc: Global,
    batch: &Batch,
    schedule: &Schedule,
    certificate: Option<&Certificate>,
) -> Result<CertificateStatus, CheckFault>
    ensures schedule { OnOk result (IsScheduleOf batch.now schedule.now) }
    ensures standing { IfOk result
        (IsCertificateStatus batch.now schedule.now (option_copied certificate.entry)) }
    ensures fault { IfErr result (λ fault. fault ≢ NoMemory
        → IsSettingsFault batch.now schedule.now fault) }
{
    match certificate {
        Some(certificate) => standing_by(alloc, batch, schedule, certificate),
        None => {
            standing_by(alloc, batch, schedule, &Certificate::none())?;
            Ok(CertificateStatus::Missing)
        }
    }
}

/// How many transfers use the link, where one is named.
fn uses(graph: &LinkGraph, link: Option<Link>) -> usize
    ensures { result ≡ uses_of graph.now link }
{
    match link {
        None => 0,
        Some(link) => graph.uses(link),
    }
}

/// The link of a certificate that shows that no schedule is shorter, and else the busiest one.
fn named_or(
    busiest: Option<Link>,
    standing: CertificateStatus,
    certificate: Option<&Certificate>,
) -> Option<Link>
    ensures { result ≡ link_named busiest standing (option_copied certificate.entry) }
{
    match (standing, certificate) {
        (CertificateStatus::Certified, Some(certificate)) => certificate.link(),
        _ => busiest,
    }
}

/// How many partners a link has at most.
fn partners(graph: &LinkGraph) -> usize
    ensures { AreMostPartners graph.now result }
{
    match most_partners(graph) {
        None => 0,
        Some((_, partners)) => partners,
    }
}

/// How often a schedule with so many settings changes the switch at least, as far as it is shown.
/// Nothing is looked for beyond these changes, which one has.
fn least(
    alloc: Global,
    graph: &LinkGraph,
    settings: usize,
    fewest: usize,
    partners: usize,
    changes: usize,
) -> Result<usize, AllocError>
    requires most { (link : Link) → uses graph.now link ≤ fewest }
    requires few { fewest ≤ MAX_TRANSFERS }
    requires partners { AreMostPartners graph.now partners }
    ensures { IfOk result (IsLeastShown graph.now settings fewest partners) }
{
    if settings != fewest || changes == partners {
        return Ok(partners);
    }
    let shown = best_price_table(alloc, graph, settings, changes)?.changes;
    if shown < partners {
        return Ok(partners);
    }
    Ok(shown)
}

/// The verdict on a schedule of the batch, whose certificate, where it has one, stands so.
///
/// It looks for prices as [`best_price_table`] does, but where the changes are as few as a link has
/// partners, or the settings more than are enough. All else takes time that grows with the numbers
/// of transfers and of settings.
pub fn verdict_on(
    alloc: Global,
    batch: &Batch,
    schedule: &Schedule,
    certificate: Option<&Certificate>,
    standing: CertificateStatus,
) -> Result<Verdict, AllocError>
    requires schedule { IsScheduleOf batch.now schedule.now }
    requires standing { IsCertificateStatus batch.now schedule.now (option_copied certificate)
        standing }
    ensures { IfOk result (IsVerdict batch.now schedule.now (option_copied certificate.entry)) }
{
    let graph = LinkGraph::of(batch)?;
    let busiest = graph.busiest();
    let fewest = uses(&graph, busiest);
    let partners = partners(&graph);
    let changes = count_changes(&graph, schedule);
    let least = least(
        alloc,
        &graph,
        schedule.settings(),
        fewest,
        partners,
        changes,
    )?;
    Ok(Verdict {
        fewest,
        busiest: named_or(busiest, standing, certificate),
        standing,
        changes,
        partners,
        least,
    })
}

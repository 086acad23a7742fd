//! Steady schedules of batches.

ghost use Rattle.std.specs.Prelude.{◌≡◌, ◌≤◌, ◌<◌, ◌⊎◌, All, AllPairs, length, IfOk};
ghost use Rattle.batch.specs.Batches.{IsBatch};
ghost use Rattle.batch.specs.declared.limits.TheConstants.{MAX_TRANSFERS};
ghost use Rattle.link_graph.specs.declared.link.Link.{Link};
ghost use Rattle.link_graph.specs.Certificates.{IsCertificate};
ghost use Rattle.link_graph.specs.Counts.{uses};
ghost use Rattle.link_graph.specs.Schedules.{IsScheduleOf};
ghost use Rattle.steady_schedule.specs.Bounds.{most_changes};
ghost use Rattle.steady_schedule.specs.Changes.{changes};
ghost use Rattle.steady_schedule.specs.Needs.{ChangesAtNeed};
ghost use Rattle.steady_schedule.specs.Plans.{NamesBusiest, IsSteady};

use crate::numbering::settings_of;
use crate::plan::Steady;
use batch::{Batch, MAX_TRANSFERS};
use link_graph::{Certificate, LinkGraph, Schedule};
use std::alloc::{AllocError, Global};

/// The certificate that names the busiest link.
fn certificate_of(graph: &LinkGraph) -> Result<Certificate, AllocError>
    ensures { IfOk result (λ named. NamesBusiest graph.now named.link named.transfers) }
{
    let Some(link) = graph.busiest() else {
        return Ok(Certificate::none());
    };
    let transfers = graph.transfers_of(link)?;
    Ok(Certificate::of(link, transfers).unwrap())
}

/// A schedule of so many settings, where the busiest link has as many uses.
fn schedule_of(alloc: Global, graph: &LinkGraph, settings: usize) -> Result<Schedule, AllocError>
    requires batch { IsBatch graph.now }
    requires most { (link : Link) → uses graph.now link ≤ settings }
    requires few { settings ≤ MAX_TRANSFERS }
    ensures schedule { IfOk result (IsScheduleOf graph.now) }
    ensures ascending { IfOk result (All (AllPairs (λ t u. t < u))) }
    ensures count { IfOk result (λ schedule. length schedule ≡ settings) }
    ensures needs { IfOk result (ChangesAtNeed graph.now) }
{
    let lists = settings_of(alloc, graph, settings)?;
    Ok(Schedule::of(lists))
}

/// The plan of a schedule with its certificate.
fn plan_of(graph: LinkGraph, schedule: Schedule, certificate: Certificate) -> Steady
    requires batch { IsBatch graph }
    requires schedule { IsScheduleOf graph schedule }
    requires certificate { IsCertificate graph schedule certificate }
    requires busiest { NamesBusiest graph certificate.link certificate.transfers }
    requires ascending { All (AllPairs (λ t u. t < u)) schedule }
    requires needs { ChangesAtNeed graph schedule }
    ensures batch { result.batch ≡ graph }
    ensures steady { IsSteady result }
    ensures settings { result.settings ≡ schedule }
{
    Steady::of(graph, schedule, certificate)
}

/// Plans a batch: a schedule with as few settings as any, that changes the switch only at need.
///
/// It changes after a setting only where that joined a pair of links for the last time, or where a
/// link that it left free is used in each later setting. With the first setting it does so at most
/// once for each pair of links in use together, and once for each link in use. Takes time that
/// grows with the number of transfers.
pub fn steady(alloc: Global, batch: &Batch) -> Result<Steady, AllocError>
    ensures batch { IfOk result (λ steady. steady.batch ≡ batch.now) }
    ensures steady { IfOk result IsSteady }
    ensures few { IfOk result (λ steady.
        changes batch.now steady.settings ≤ most_changes batch.now) }
{
    prove!(batch.len() <= MAX_TRANSFERS);
    let graph = LinkGraph::of(batch)?;
    let certificate = certificate_of(&graph)?;
    let schedule = schedule_of(alloc, &graph, certificate.transfers().len())?;
    Ok(plan_of(graph, schedule, certificate))
}

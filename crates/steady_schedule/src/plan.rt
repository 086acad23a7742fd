ghost use Rattle.std.specs.Prelude.{◌≡◌};
ghost use Rattle.steady_schedule.specs.Plans.{steady_plan, IsSteady};

use link_graph::{Certificate, LinkGraph, Schedule};
use std::marker::Model;

/// A shortest schedule of a batch with its certificate, that changes the switch only at need.
///
/// It changes the switch after a setting only where that joined a pair of links for the last time,
/// or where a link that it left free is used in each later setting. With the first setting it does
/// so at most once for each pair of links that share transfers, and once for each link in use. The
/// certificate names the busiest link. No setting is empty, and numbers ascend in each.
pub struct Steady {
    graph: LinkGraph,
    schedule: Schedule,
    certificate: Certificate,
}

// Said once, so that no function that lets go of one has to say it again.
impl Drop for Steady {
    fn drop(self) {
        let Steady {
            graph: _,
            schedule: _,
            certificate: _,
        } = self;
    }
}

impl Model for Steady {
    ghost use Rattle.steady_schedule.specs.Plans.{SteadyPlan, steady_plan, IsSteady};

    ghost Value = { SteadyPlan };

    ghost view = { λ s. steady_plan s.graph s.schedule s.certificate };

    ghost invariant = { λ s. IsSteady (steady_plan s.graph s.schedule s.certificate) };
}

impl Steady {
    pub(crate) fn of(graph: LinkGraph, schedule: Schedule, certificate: Certificate) -> Steady
        requires { IsSteady (steady_plan graph schedule certificate) }
        ensures { result ≡ steady_plan graph schedule certificate }
    {
        Steady {
            graph,
            schedule,
            certificate,
        }
    }

    /// The schedule.
    pub fn schedule(&self) -> &Schedule
        ensures schedule { result.now ≡ self.now.settings }
        ensures steady { IsSteady self.now }
    {
        &self.schedule
    }

    /// The certificate, of the busiest link and all transfers that use it.
    pub fn certificate(&self) -> &Certificate
        ensures certificate { result.now ≡ self.now.named }
        ensures steady { IsSteady self.now }
    {
        &self.certificate
    }
}

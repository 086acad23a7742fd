ghost use Rattle.std.specs.Prelude.{◌≡◌};
ghost use Rattle.schedule_certificate.specs.Plans.{plan_of, IsPlan, HasFewReinsertions, IsMadePlan};

use alternating_path::Coloured;
use batch::Batch;
use link_graph::{Certificate, Schedule};
use std::marker::Model;

/// A batch with a shortest schedule of it, and the certificate that shows that none is shorter.
///
/// No setting is empty, so there are at most as many as transfers. Numbers ascend in each setting,
/// and the settings are in the order of their least numbers. The certificate names the busiest
/// link, the first in the order of links among equals, and all transfers that use it, ascending.
pub struct Planned {
    batch: Batch,
    coloured: Coloured,
    certificate: Certificate,
}

// Said once, so that no function that lets go of one has to say it again.
impl Drop for Planned {
    fn drop(self) {
        let Planned {
            batch: _,
            coloured: _,
            certificate: _,
        } = self;
    }
}

impl Model for Planned {
    ghost use Rattle.schedule_certificate.specs.Plans.{Plan, plan_of, IsMadePlan};

    ghost Value = { Plan };

    ghost view = { λ p. plan_of p.batch p.coloured p.certificate };

    ghost invariant = { λ p. IsMadePlan (plan_of p.batch p.coloured p.certificate) };
}

impl Planned {
    pub(crate) fn of(batch: Batch, coloured: Coloured, certificate: Certificate) -> Planned
        requires { IsMadePlan (plan_of batch coloured certificate) }
        ensures { result ≡ plan_of batch coloured certificate }
    {
        Planned {
            batch,
            coloured,
            certificate,
        }
    }

    /// The batch.
    pub fn batch(&self) -> &Batch
        ensures batch { result.now ≡ self.now.batch }
        ensures plan { IsPlan self.now }
    {
        &self.batch
    }

    /// The schedule.
    pub fn schedule(&self) -> &Schedule
        ensures schedule { result.now ≡ self.now.settings }
        ensures plan { IsPlan self.now }
    {
        self.coloured.schedule()
    }

    /// The certificate.
    pub fn certificate(&self) -> &Certificate
        ensures certificate { result.now ≡ self.now.named }
        ensures plan { IsPlan self.now }
    {
        &self.certificate
    }

    /// How many transfers were put in one by one: at most three quarters of all, and none where the
    /// busiest link's uses are a power of two.
    pub fn reinserted(&self) -> usize
        ensures reinserted { result ≡ self.now.reinserted }
        ensures few { HasFewReinsertions self.now }
    {
        self.coloured.inserted()
    }
}

impl PartialEq for Planned {
    ghost use Rattle.std.specs.Prelude.{◌≡◌, ◌↔◌, IsTrue};
    ghost use Rattle.std.specs.Cmp.{and_per, on_per};
    ghost use Rattle.batch.specs.contracts.batch.BatchPartialEq.TheImpl.Laws as batch;
    ghost use Rattle.alternating_path.specs.contracts.coloured.ColouredPartialEq.TheImpl.Laws as coloured;
    ghost use Rattle.link_graph.specs.contracts.certificate.CertificatePartialEq.TheImpl.Laws as named;
    ghost use Rattle.schedule_certificate.specs.Equal.{coloured_of, same_plan};

    ghost eq = { same_plan };

    ghost laws = { and_per
        (on_per (λ p. p.batch) batch.laws-law)
        (and_per (on_per coloured_of coloured.laws-law) (on_per (λ p. p.named) named.laws-law)) };

    fn eq(&self, other: &Planned) -> bool
        ensures value { result ≡ same_plan self.now other.now }
        ensures equal { IsTrue result ↔ (self.now ≡ other.now) }
    {
        self.batch == other.batch
            && self.coloured == other.coloured
            && self.certificate == other.certificate
    }
}

impl Eq for Planned {
    ghost use Rattle.std.specs.Cmp.{and_equiv, on_equiv};
    ghost use Rattle.batch.specs.contracts.batch.BatchEq.TheImpl.Laws as batch;
    ghost use Rattle.alternating_path.specs.contracts.coloured.ColouredEq.TheImpl.Laws as coloured;
    ghost use Rattle.link_graph.specs.contracts.certificate.CertificateEq.TheImpl.Laws as named;
    ghost use Rattle.schedule_certificate.specs.Equal.{coloured_of};

    ghost laws = { and_equiv
        (on_equiv (λ p. p.batch) batch.laws-law)
        (and_equiv
        (on_equiv coloured_of coloured.laws-law)
        (on_equiv (λ p. p.named) named.laws-law)) };
}

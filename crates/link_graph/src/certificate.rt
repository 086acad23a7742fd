ghost use Rattle.std.specs.Prelude.{◌≡◌, ◌↔◌, [], Some, None, IsNone, IfSome};
ghost use Rattle.link_graph.specs.Certificates.{naming, IsNaming};

use crate::link::Link;
use std::marker::Model;

/// Why no schedule of a batch has fewer settings than a given one: a link, and transfers that all
/// use it, of which each setting can hold only one. Of an empty batch there is nothing to name.
///
/// A certificate is only a claim, which [`check_schedule`](crate::check_schedule) tests.
#[derive(Drop)]
pub struct Certificate {
    named: Option<(Link, Vec<usize>)>,
}

impl Model for Certificate {
    ghost use Rattle.link_graph.specs.Certificates.{Naming, naming_of, IsNaming};

    ghost Value = { Naming };

    ghost view = { λ c. naming_of c.named };

    ghost invariant = { λ c. IsNaming (naming_of c.named) };
}

impl Certificate {
    /// The certificate that names no link, for an empty batch.
    pub fn none() -> Certificate
        ensures { result ≡ naming None [] }
    {
        Certificate { named: None }
    }

    /// The certificate that names this link and these transfers, which must be some.
    pub fn of(link: Link, transfers: Vec<usize>) -> Option<Certificate>
        ensures none { IsNone result ↔ (transfers.items ≡ []) }
        ensures some { IfSome result (λ named. named ≡ naming (Some link) transfers.items) }
    {
        if transfers.is_empty() {
            return None;
        }
        Some(Certificate {
            named: Some((link, transfers)),
        })
    }

    /// The link that is named, where there is one.
    pub fn link(&self) -> Option<Link>
        ensures value { result ≡ self.now.link }
        ensures naming { IsNaming self.now }
    {
        match &self.named {
            None => None,
            Some((link, _)) => Some(*link),
        }
    }

    /// The transfers that are named: some, just where a link is named.
    pub fn transfers(&self) -> &[usize]
        ensures value { result.now ≡ self.now.transfers }
        ensures naming { IsNaming self.now }
    {
        match &self.named {
            None => &[],
            Some((_, transfers)) => transfers.as_slice(),
        }
    }

    /// The transfers that are named, given back, where a link is named.
    pub fn into_transfers(self) -> Option<Vec<usize>>
        ensures none { IsNone result ↔ (self.link ≡ None) }
        ensures some { IfSome result (λ transfers. transfers.items ≡ self.transfers) }
    {
        let (_, transfers) = self.named?;
        Some(transfers)
    }
}

impl PartialEq for Certificate {
    ghost use Rattle.std.specs.Prelude.{◌≡◌, ◌↔◌, IsTrue};
    ghost use Rattle.std.proofs.Common.{rules};
    ghost use Rattle.std.specs.Cmp.Rules.{comparing};
    ghost use Rattle.link_graph.specs.Equal.{same_naming};

    ghost eq = { same_naming };

    ghost laws = { Prim.search (comparing, rules) };

    fn eq(&self, other: &Certificate) -> bool
        ensures value { result ≡ same_naming self.now other.now }
        ensures equal { IsTrue result ↔ (self.now ≡ other.now) }
    {
        self.link() == other.link() && self.transfers() == other.transfers()
    }
}

impl Eq for Certificate {
    ghost use Rattle.std.proofs.Common.{rules};
    ghost use Rattle.std.specs.Cmp.Rules.{comparing};

    ghost laws = { Prim.search (comparing, rules) };
}

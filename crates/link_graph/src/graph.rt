ghost use Rattle.std.specs.Prelude.{◌≡◌, ◌+◌, ◌*◌, ◌<◌, ◌≤◌, ◌↔◌, [], Some, IfOk, IfSome, IsNone};
ghost use Rattle.std.specs.Prelude.{length, nat_lt, slice_get, option_map};
ghost use Rattle.std.specs.List.{IsFirstBest};
ghost use Rattle.batch.specs.Batches.{IsBatch};
ghost use Rattle.link_graph.specs.Uses.{start_link, answer_link};
ghost use Rattle.link_graph.specs.Counts.{uses, AreUsers, IsBusiest};
ghost use Rattle.link_graph.specs.Tables.{IsGraph};

use crate::counting;
use crate::limits::LINKS;
use crate::link::Link;
use batch::{Batch, MAX_MODULES};
use std::alloc::AllocError;
use std::marker::Model;
use step_count::Steps;

/// The graph of a batch: its nodes are the links of the modules, its edges the transfers. Contracts
/// see the batch.
#[derive(Drop)]
pub struct LinkGraph {
    batch: Batch,
    /// How many transfers use each link, in the order of links.
    counts: [usize; LINKS],
}

impl Model for LinkGraph {
    ghost use Rattle.std.specs.Prelude.{List};
    ghost use Rattle.batch.specs.declared.transfer.Transfer.{Transfer};
    ghost use Rattle.link_graph.specs.Tables.{IsGraph};

    ghost Value = { List Transfer };

    ghost view = { λ g. g.batch };

    ghost invariant = { λ g. IsGraph g.counts g.batch };
}

/// Where the largest of the counts stands, and first among equals.
fn place_of_most(counts: &[usize; LINKS]) -> usize
    ensures { IsFirstBest (λ a b. nat_lt b a) counts.now LINKS result }
{
    let mut most = 0;
    for i in 1..LINKS {
        if counts[i] > counts[most] {
            most = i;
        }
    }
    most
}

impl LinkGraph {
    /// The graph of the batch. Takes time that grows with the number of transfers.
    pub fn of(batch: &Batch) -> Result<LinkGraph, AllocError>
        ensures { IfOk result (λ graph. graph ≡ batch.now) }
    {
        LinkGraph::of_in_steps(batch, &mut Steps::none())
    }

    /// [`of`](LinkGraph::of), with its steps counted: each transfer is looked at and copied.
    pub fn of_in_steps(batch: &Batch, steps: &mut Steps) -> Result<LinkGraph, AllocError>
        ensures graph { IfOk result (λ graph. graph ≡ batch.now) }
        ensures cost { steps.new ≡ steps.old + 2 * length batch.now }
    {
        let counts = counting::count_batch(batch, steps);
        steps.tick_many(batch.len());
        let batch = batch.copy()?;
        Ok(LinkGraph { batch, counts })
    }

    /// How many transfers there are.
    pub fn len(&self) -> usize
        ensures value { result ≡ length self.now }
        ensures batch { IsBatch self.now }
    {
        self.batch.len()
    }

    /// The links that transfer `t` uses, where there is such a transfer: first its initiator's
    /// link 0, then its responder's link 3.
    pub fn ends(&self, t: usize) -> Option<(Link, Link)>
        ensures { result ≡ option_map (λ x. (start_link x, answer_link x)) (slice_get self.now t) }
    {
        let transfer = self.batch.transfer(t)?;
        Some((
            counting::start_of(&transfer),
            counting::answer_of(&transfer),
        ))
    }

    /// The two links of a transfer that there is.
    pub fn ends_of(&self, t: usize) -> (Link, Link)
        requires { t < length self.now }
        ensures { option_map (λ x. (start_link x, answer_link x)) (slice_get self.now t)
            ≡ Some result }
    {
        let transfer = &self.batch.as_slice()[t];
        (counting::start_of(transfer), counting::answer_of(transfer))
    }

    /// How many transfers use the link, from a table. Equal transfers count apart; a link of a
    /// module that no rack has is used by none.
    pub fn uses(&self, link: Link) -> usize
        ensures { result ≡ uses self.now link }
    {
        let counts = &self.counts;
        if link.module < MAX_MODULES {
            counts[link.index()]
        } else {
            0
        }
    }

    /// The link that most transfers use, and the first in the order of links among equals. There is
    /// none just where there is no transfer. Takes time that grows with the number of links.
    pub fn busiest(&self) -> Option<Link>
        ensures none { IsNone result ↔ (self.now ≡ []) }
        ensures most { IfSome result (IsBusiest self.now) }
        ensures module { IfSome result (λ link. link.«module» < MAX_MODULES) }
    {
        let most = place_of_most(&self.counts);
        if self.counts[most] == 0 {
            return None;
        }
        Some(Link::at(most))
    }

    /// The numbers of the transfers that use the link, ascending. Takes time that grows with the
    /// number of transfers.
    pub fn transfers_of(&self, link: Link) -> Result<Vec<usize>, AllocError>
        ensures users { IfOk result (λ users. AreUsers self.now link users.items) }
        ensures count { IfOk result (λ users. length users.items ≡ uses self.now link) }
    {
        self.transfers_of_in_steps(link, &mut Steps::none())
    }

    /// [`transfers_of`](LinkGraph::transfers_of), with its steps counted.
    pub fn transfers_of_in_steps(
        &self,
        link: Link,
        steps: &mut Steps,
    ) -> Result<Vec<usize>, AllocError>
        ensures users { IfOk result (λ users. AreUsers self.now link users.items) }
        ensures count { IfOk result (λ users. length users.items ≡ uses self.now link) }
        ensures cost { steps.new ≤ steps.old + length self.now }
    {
        let room = self.uses(link);
        counting::users_of(&self.batch, link, room, steps)
    }
}

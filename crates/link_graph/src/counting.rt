//! Counting, for each link, the transfers that use it.

ghost use Rattle.std.specs.Prelude.{◌≡◌, ◌+◌, ◌<◌, ◌≤◌, ◌↔◌, [], length, All, IsTrue, IfOk};
ghost use Rattle.batch.specs.declared.transfer.Transfer.{Transfer};
ghost use Rattle.batch.specs.ShapeView.{widest};
ghost use Rattle.batch.specs.Text.{HasModules};
ghost use Rattle.link_graph.specs.Uses.{Uses, start_link, answer_link};
ghost use Rattle.link_graph.specs.Counts.{module_at, uses, AreUsers};
ghost use Rattle.link_graph.specs.Tables.{IsGraph, CountsOneMore};

use crate::limits::LINKS;
use crate::link::{End, Link};
use batch::{Batch, Transfer};
use std::alloc::AllocError;
use step_count::Steps;

/// The link that sends the pokes and peeks of a transfer.
pub(crate) fn start_of(transfer: &Transfer) -> Link
    ensures { result ≡ start_link transfer.now }
{
    Link {
        end: End::Zero,
        module: transfer.initiator,
    }
}

/// The link that answers them.
pub(crate) fn answer_of(transfer: &Transfer) -> Link
    ensures { result ≡ answer_link transfer.now }
{
    Link {
        end: End::Three,
        module: transfer.responder,
    }
}

/// The module that a transfer has at this end.
fn module_of(transfer: &Transfer, end: End) -> usize
    ensures { result ≡ module_at end transfer.now }
{
    match end {
        End::Zero => transfer.initiator,
        End::Three => transfer.responder,
    }
}

/// Whether transfer `t` uses the link.
pub(crate) fn uses_link(batch: &Batch, t: usize, link: Link) -> bool
    ensures { IsTrue result ↔ Uses batch.now t link }
{
    let Some(transfer) = batch.transfer(t) else {
        return false;
    };
    module_of(&transfer, link.end) == link.module
}

/// Counts one more transfer, at both of its links.
pub(crate) fn count_transfer(counts: &mut [usize; LINKS], transfer: &Transfer)
    requires modules { HasModules widest transfer.now }
    requires room { All (λ count. count < usize.MAX) counts.old }
    ensures { CountsOneMore counts.old counts.new transfer.now }
{
    counts[start_of(transfer).index()] += 1;
    counts[answer_of(transfer).index()] += 1;
}

/// Counts all transfers of a batch.
pub(crate) fn count_batch(batch: &Batch, steps: &mut Steps) -> [usize; LINKS]
    ensures graph { IsGraph result batch.now }
    ensures cost { steps.new ≡ steps.old + length batch.now }
{
    let mut counts = [0; LINKS];
    for transfer in batch.as_slice() {
        steps.tick();
        count_transfer(&mut counts, transfer);
    }
    counts
}

/// The transfers that use the link, in a list with this much room.
pub(crate) fn users_of(
    batch: &Batch,
    link: Link,
    room: usize,
    steps: &mut Steps,
) -> Result<Vec<usize>, AllocError>
    ensures users { IfOk result (λ users. AreUsers batch.now link users.items) }
    ensures count { IfOk result (λ users. length users.items ≡ uses batch.now link) }
    ensures cost { steps.new ≤ steps.old + length batch.now }
{
    let mut users = Vec::with_capacity(batch.allocator(), room)?;
    for t in 0..batch.len() {
        steps.tick();
        if uses_link(batch, t, link) {
            users.push(t)?;
        }
    }
    Ok(users)
}

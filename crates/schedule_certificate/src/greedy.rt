//! First fit: a schedule that is quickly found, though it may be longer than needed.

ghost use Rattle.std.specs.Prelude.{◌<◌, ◌≤◌, MatchBool, IfOk, OnOk, IfSome, IfNone, length};
ghost use Rattle.link_graph.specs.Uses.{AreApart};
ghost use Rattle.link_graph.specs.Schedules.{IsScheduleOf, lists_of};
ghost use Rattle.schedule_certificate.specs.FirstFit.{Places, IsOpenTo, IsFirstOpen, IsBlocked};
ghost use Rattle.schedule_certificate.specs.FirstFit.{AllBlocked, Share, IsFirstFit};

use batch::Batch;
use link_graph::Schedule;
use std::alloc::{AllocError, Global};

/// Whether two transfers have a link in common.
fn share_link(batch: &Batch, u: usize, t: usize) -> bool
    ensures { MatchBool result (Share batch.now u t) (AreApart batch.now u t) }
{
    let (Some(x), Some(y)) = (batch.transfer(u), batch.transfer(t)) else {
        return false;
    };
    x.initiator == y.initiator || x.responder == y.responder
}

/// Whether a setting has neither link of a transfer.
fn is_open(batch: &Batch, setting: &[usize], t: usize) -> bool
    ensures { MatchBool result
        (IsOpenTo batch.now setting.now t)
        (IsBlocked batch.now setting.now t) }
{
    for u in setting {
        if share_link(batch, *u, t) {
            return false;
        }
    }
    true
}

/// The first setting that has neither link of a transfer.
fn first_open(batch: &Batch, lists: &[Vec<usize>], t: usize) -> Option<usize>
    ensures within { IfSome result (λ k. k < length lists.now) }
    ensures some { IfSome result (IsFirstOpen batch.now (lists_of lists.now) t) }
    ensures none { IfNone result (AllBlocked batch.now (lists_of lists.now) t) }
{
    for (k, setting) in lists.iter().enumerate() {
        if is_open(batch, setting.as_slice(), t) {
            return Some(k);
        }
    }
    None
}

/// Puts a transfer into the first setting whose links leave it room, or into a new one.
fn place(
    alloc: Global,
    batch: &Batch,
    t: usize,
    lists: &mut Vec<Vec<usize>>,
) -> Result<(), AllocError>
    ensures { OnOk result
        (Places batch.now t (lists_of lists.old.items) (lists_of lists.new.items)) }
{
    if let Some(k) = first_open(batch, lists.as_slice(), t) {
        lists[k].push(t)?;
        return Ok(());
    }
    let mut alone = Vec::new(alloc);
    alone.push(t)?;
    lists.push(alone)?;
    Ok(())
}

/// The greedy schedule: transfers come by number, and each joins the first setting whose transfers
/// use other links.
///
/// The schedule has no empty setting, so at most as many settings as the batch has transfers; it
/// may have more than are needed. A transfer is compared with those before it at most once each, so
/// the time grows with the square of the number of transfers.
pub fn first_fit(alloc: Global, batch: &Batch) -> Result<Schedule, AllocError>
    ensures schedule { IfOk result (λ schedule. IsScheduleOf batch.now schedule) }
    ensures first_fit { IfOk result (λ schedule. IsFirstFit batch.now schedule) }
    ensures count { IfOk result (λ schedule. length schedule ≤ length batch.now) }
{
    let mut lists = Vec::new(alloc);
    for t in 0..batch.len() {
        place(alloc, batch, t, &mut lists)?;
    }
    Ok(Schedule::of(lists))
}

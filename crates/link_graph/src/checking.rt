//! The tests of the checker, each over all of a schedule or of a certificate.

ghost use Rattle.std.specs.Prelude.{◌≡◌, ◌<◌, ◌↔◌, [], length, true, false, All, IsTrue, IfSome};
ghost use Rattle.std.specs.Prelude.{IfNone, position, not, nat_lt};
ghost use Rattle.std.specs.List.{concat};
ghost use Rattle.batch.specs.Batches.{IsBatch};
ghost use Rattle.link_graph.specs.declared.link.Link.{Link};
ghost use Rattle.link_graph.specs.Uses.{IsMatching};
ghost use Rattle.link_graph.specs.Schedules.{lists_of};
ghost use Rattle.link_graph.specs.Certificates.{AreDistinct};
ghost use Rattle.link_graph.specs.Tables.{AreCounts};
ghost use Rattle.link_graph.specs.Checks.{IsFirstWithout, IsFirstRepeated, IsFirstClash, IsShared};
ghost use Rattle.link_graph.specs.Checks.{NoneSharedBefore, UsesNamed};
ghost use Rattle.link_graph.specs.Marks.{AreMarks, RepeatsFirst, MarksAlso, RepeatsNone, members};

use crate::counting;
use crate::limits::LINKS;
use crate::link::Link;
use batch::Batch;

/// The first number of a setting that isn't below the count.
fn unknown_in(setting: &[usize], count: usize) -> Option<usize>
    ensures some { IfSome result (IsFirstWithout (λ t. t < count) setting.now) }
    ensures none { IfNone result (All (λ t. t < count) setting.now) }
{
    for t in setting {
        if *t >= count {
            return Some(*t);
        }
    }
    None
}

/// The first number of all settings that isn't below the count.
pub(crate) fn first_unknown(lists: &[Vec<usize>], count: usize) -> Option<usize>
    ensures some { IfSome result (IsFirstWithout (λ t. t < count) (concat (lists_of lists.now))) }
    ensures none { IfNone result (All (λ t. t < count) (concat (lists_of lists.now))) }
{
    for setting in lists {
        if let Some(t) = unknown_in(setting.as_slice(), count) {
            return Some(t);
        }
    }
    None
}

/// Marks the numbers of a list, up to the first that is marked already.
pub(crate) fn mark(marks: &mut [bool], list: &[usize]) -> Option<usize>
    requires { All (λ t. t < length marks.old) list.now }
    ensures some { IfSome result (RepeatsFirst marks.old list.now) }
    ensures marks { IfNone result (MarksAlso marks.old marks.new list.now) }
    ensures none { IfNone result (RepeatsNone marks.old list.now) }
{
    for t in list {
        if marks[*t] {
            return Some(*t);
        }
        marks[*t] = true;
    }
    None
}

/// Marks the numbers of all settings, up to the first that is marked already.
pub(crate) fn first_repeated(marks: &mut [bool], lists: &[Vec<usize>]) -> Option<usize>
    requires known { All (λ t. t < length marks.old) (concat (lists_of lists.now)) }
    requires unmarked { AreMarks marks.old [] }
    ensures some { IfSome result (IsFirstRepeated (concat (lists_of lists.now))) }
    ensures none { IfNone result (AreDistinct (concat (lists_of lists.now))) }
    ensures marks { IfNone result (AreMarks marks.new (concat (lists_of lists.now))) }
{
    for setting in lists {
        if let Some(t) = mark(marks, setting.as_slice()) {
            return Some(t);
        }
    }
    None
}

/// The first place without a mark.
pub(crate) fn first_unmarked(marks: &[bool]) -> Option<usize>
    ensures { result ≡ position not marks.now }
{
    marks.iter().position(|mark| !*mark)
}

/// How many transfers of a setting use each link.
fn count_setting(batch: &Batch, setting: &[usize]) -> [usize; LINKS]
    requires { IsBatch batch.now }
    ensures { AreCounts result (members batch.now setting.now) }
{
    let mut counts = [0; LINKS];
    for t in setting {
        if let Some(transfer) = batch.transfer(*t) {
            counting::count_transfer(&mut counts, &transfer);
        }
    }
    counts
}

/// The first place, in the order of links, with a count above 1.
fn first_shared(counts: &[usize]) -> Option<usize>
    ensures { result ≡ position (λ count. nat_lt 1 count) counts.now }
{
    counts.iter().position(|count| *count > 1)
}

/// The first link, in the order of links, that two transfers of a setting use.
fn clash_in(batch: &Batch, setting: &[usize]) -> Option<Link>
    requires { IsBatch batch.now }
    ensures some { IfSome result (IsShared batch.now setting.now) }
    ensures first { IfSome result (NoneSharedBefore batch.now setting.now) }
    ensures none { IfNone result (IsMatching batch.now setting.now) }
{
    let counts = count_setting(batch, setting);
    let place = first_shared(&counts)?;
    Some(Link::at(place))
}

/// The first setting in which transfers share a link, and the first such link.
pub(crate) fn first_clash(batch: &Batch, lists: &[Vec<usize>]) -> Option<(usize, Link)>
    requires { IsBatch batch.now }
    ensures some { IfSome result (λ x. IsFirstClash batch.now (lists_of lists.now) x.0 x.1) }
    ensures none { IfNone result (All (IsMatching batch.now) (lists_of lists.now)) }
{
    for (k, setting) in lists.iter().enumerate() {
        if let Some(link) = clash_in(batch, setting.as_slice()) {
            return Some((k, link));
        }
    }
    None
}

/// Whether a link is named, and transfer `t` uses it.
fn uses_named(batch: &Batch, link: Option<Link>, t: usize) -> bool
    ensures { IsTrue result ↔ UsesNamed batch.now link t }
{
    match link {
        None => false,
        Some(link) => counting::uses_link(batch, t, link),
    }
}

/// The first number of a list that is no transfer that uses the link.
pub(crate) fn first_stray(batch: &Batch, link: Option<Link>, transfers: &[usize]) -> Option<usize>
    ensures some { IfSome result (IsFirstWithout (UsesNamed batch.now link) transfers.now) }
    ensures none { IfNone result (All (UsesNamed batch.now link) transfers.now) }
{
    for t in transfers {
        if !uses_named(batch, link, *t) {
            return Some(*t);
        }
    }
    None
}

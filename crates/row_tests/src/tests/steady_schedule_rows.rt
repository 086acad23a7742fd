//! Steady schedules of batches whose settings and changes were worked out on paper.

ghost use Rattle.std.specs.Prelude.{◌≡◌, ◌∷◌, []};
ghost use Rattle.batch.specs.Rows.{three_transfers};
ghost use Rattle.link_graph.specs.declared.link.End.TheVariants.{Three};
ghost use Rattle.link_graph.specs.Rows.{first_link, two_settings};
ghost use Rattle.row_tests.specs.Rows.{two_partners};
ghost use Rattle.steady_schedule.specs.Changes.{changes};
ghost use Rattle.steady_schedule.specs.Partners.{partners};

use super::schedule_picture_rows::changes_by;
use super::texts::read;
use std::alloc::{AllocError, Global};
use steady_schedule::steady;

/// The switch changes for the first setting, and where one joins other pairs of modules than the
/// one before: not between two transfers from module 0 to module 1.
fn the_definitions_count_changes()
    ensures stays { changes two_partners ((0 ∷ []) ∷ (1 ∷ []) ∷ (2 ∷ []) ∷ []) ≡ 2 }
    ensures returns { changes two_partners ((0 ∷ []) ∷ (2 ∷ []) ∷ (1 ∷ []) ∷ []) ≡ 3 }
    ensures pairs { changes three_transfers two_settings ≡ 2 }
    ensures none { changes three_transfers [] ≡ 0 }
{}

/// Link 0 of module 0 has three transfers and two partners, link 3 of module 1 two transfers and
/// one.
fn the_definitions_count_partners()
    ensures two { partners two_partners first_link ≡ 2 }
    ensures one { partners two_partners (record { end = Three; «module» = 1 }) ≡ 1 }
    ensures unused { partners two_partners (record { end = Three; «module» = 0 }) ≡ 0 }
{}

/// So many settings and changes, and so many changes that any schedule needs.
type Counts = (usize, usize, usize);

/// A module that sends blocks, one that takes them, and how many they are.
type Sent = (usize, usize, usize);

/// Adds the lines of these to a batch text.
fn push_lines(alloc: Global, text: &mut String, sent: Sent) -> Result<(), AllocError> {
    let (from, to, blocks) = sent;
    let line = format!(in alloc; "push {from} 0 {to} 0\n")?;
    for _ in 0..blocks {
        text.push_str(line.as_str())?;
    }
    Ok(())
}

/// The batch text of all these.
fn text_of(alloc: Global, sent: &[Sent]) -> Result<String, AllocError> {
    let mut count: usize = 0;
    for (_, _, blocks) in sent {
        count = count.saturating_add(*blocks);
    }
    let mut text = format!(in alloc; "batch {count}\n")?;
    for one in sent {
        push_lines(alloc, &mut text, *one)?;
    }
    Ok(text)
}

fn counts_of(alloc: Global, sent: &[Sent]) -> Option<Counts> {
    let text = text_of(alloc, sent).ok()?;
    let batch = read(alloc, text.as_str())?;
    let plan = steady(alloc, &batch).ok()?;
    let (schedule, certificate) = (plan.schedule(), plan.certificate());
    let (changes, partners) = changes_by(alloc, &batch, schedule, Some(certificate))?;
    Some((schedule.settings(), changes, partners))
}

fn has(alloc: Global, sent: &[Sent], counts: Counts) -> bool {
    counts_of(alloc, sent) == Some(counts)
}

#[test]
fn empty(rt: HostRuntime) {
    assert!(rt; has(rt.alloc(), &[], (0, 0, 0)));
}

#[test]
fn one_pair(rt: HostRuntime) {
    assert!(rt; has(rt.alloc(), &[(0, 1, 64)], (64, 1, 1)));
}

#[test]
fn gather_of_three(rt: HostRuntime) {
    assert!(rt; has(rt.alloc(), &[(1, 0, 5), (2, 0, 5), (3, 0, 5)], (15, 3, 3)));
}

const ALL_TO_ALL: &[Sent] = &[
    (0, 1, 2),
    (0, 2, 2),
    (0, 3, 2),
    (1, 0, 2),
    (1, 2, 2),
    (1, 3, 2),
    (2, 0, 2),
    (2, 1, 2),
    (2, 3, 2),
    (3, 0, 2),
    (3, 1, 2),
    (3, 2, 2),
];

#[test]
fn all_to_all_of_four(rt: HostRuntime) {
    assert!(rt; has(rt.alloc(), ALL_TO_ALL, (6, 3, 3)));
}

/// Each module sends to both others: two matchings, one of them with two blocks a pair.
const FULL_CYCLE: &[Sent] = &[
    (0, 1, 1),
    (0, 2, 2),
    (1, 0, 2),
    (1, 2, 1),
    (2, 0, 1),
    (2, 1, 2),
];

#[test]
fn full_cycle(rt: HostRuntime) {
    assert!(rt; has(rt.alloc(), FULL_CYCLE, (3, 2, 2)));
}

const UNEQUAL_CYCLE: &[Sent] = &[
    (0, 1, 2),
    (0, 2, 3),
    (1, 0, 3),
    (1, 2, 1),
    (2, 0, 1),
    (2, 1, 2),
];

#[test]
fn unequal_cycle(rt: HostRuntime) {
    assert!(rt; has(rt.alloc(), UNEQUAL_CYCLE, (5, 4, 2)));
}

/// Each of 32 modules sends three blocks to the next and two to the one after that.
fn ring() -> [Sent; 64] {
    let mut sent = [(0, 0, 0); 64];
    for module in 0..32 {
        sent[module] = (module, (module + 1) % 32, 3);
        sent[32 + module] = (module, (module + 2) % 32, 2);
    }
    sent
}

#[test]
fn ring_of_32(rt: HostRuntime) {
    assert!(rt; has(rt.alloc(), &ring(), (5, 2, 2)));
}

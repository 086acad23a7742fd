ghost use Rattle.std.specs.Prelude.{◌≡◌, ◌∷◌, [], codes};
ghost use Rattle.batch.specs.Rows.{pull, three_transfers};
ghost use Rattle.link_graph.specs.declared.link.End.TheVariants.{Zero, Three};
ghost use Rattle.schedule_picture.specs.Picture.{changes_words, note_text, all_shown};
ghost use Rattle.schedule_picture.specs.Cells.{arrow_of, partner_of, to_partner, from_partner};
ghost use Rattle.schedule_picture.specs.Places.{row_of, takes_part};
ghost use Rattle.std.specs.Prelude.{false};
ghost use Rattle.batch.specs.declared.transfer.Kind.TheVariants.{Pull, Push};
ghost use Rattle.row_tests.specs.Rows.{of_three_transfers, of_empty_batch};

use super::texts::{THREE_TRANSFERS, read};
use batch::Batch;
use link_graph::{Certificate, Schedule};
use schedule_picture::{certificate_status, verdict_on};
use std::alloc::Global;

/// Modules 0 to 2 of the row take part, and 3 does not. Where modules 3 and 31 alone take part,
/// theirs are the first row and the second.
fn the_definitions_give_rows()
    ensures third { row_of three_transfers 2 ≡ 2 }
    ensures none { takes_part three_transfers 3 ≡ false }
    ensures first { row_of (pull 3 0 31 5 ∷ []) 3 ≡ 0 }
    ensures second { row_of (pull 3 0 31 5 ∷ []) 31 ≡ 1 }
{}

/// A push moves words from its initiator, at link 0, to its responder, at link 3; a pull the other
/// way.
fn the_definitions_give_cells()
    ensures pushes { arrow_of Push Zero ≡ to_partner }
    ensures is_pushed { arrow_of Push Three ≡ from_partner }
    ensures pulls { arrow_of Pull Zero ≡ from_partner }
    ensures is_pulled { arrow_of Pull Three ≡ to_partner }
    ensures initiator { partner_of (pull 3 0 31 5) Zero ≡ 31 }
    ensures responder { partner_of (pull 3 0 31 5) Three ≡ 3 }
{}

/// As many changes as partners are the fewest, and as many as are shown the fewest with so few
/// settings. How often the switch changes is said first below the heading, and after the heading
/// in the title.
fn the_definitions_say_changes()
    ensures fewest { changes_words 2 2 2 ≡ codes "changes 2, the fewest" }
    ensures few { changes_words 3 2 3 ≡ codes "changes 3, the fewest with so few settings" }
    ensures more { changes_words 4 2 3 ≡ codes "changes 4, at least 3" }
    ensures note { note_text 2 of_three_transfers (all_shown 2)
        ≡ codes "changes 2, the fewest, busiest link 0 module 0, certified" }
    ensures empty_batch { note_text 0 of_empty_batch (all_shown 0)
        ≡ codes "changes 0, the fewest, busiest none, no certificate" }
{}

/// Link 0 of module 0 has three transfers, and two partners: the links 3 of modules 1 and 2.
const TWO_PARTNERS: &str = "batch 3\npush 0 0 1 0\npush 0 1 1 1\npush 0 2 2 0\n";

/// How often a schedule changes the switch, and how many partners a link of the batch has.
pub(super) fn changes_by(
    alloc: Global,
    batch: &Batch,
    schedule: &Schedule,
    certificate: Option<&Certificate>,
) -> Option<(usize, usize)> {
    let standing = certificate_status(alloc, batch, schedule, certificate).ok()?;
    let verdict = verdict_on(alloc, batch, schedule, certificate, standing).ok()?;
    Some((verdict.changes, verdict.partners))
}

/// How often a schedule's text changes the switch, and how many partners a link of the batch's text
/// has.
fn changes_of(alloc: Global, batch: &str, schedule: &str) -> Option<(usize, usize)> {
    let batch = read(alloc, batch)?;
    let (schedule, certificate) = Schedule::read(alloc, schedule.as_bytes()).ok()?;
    changes_by(alloc, &batch, &schedule, certificate.as_ref())
}

/// Texts of batches and of schedules, with how often these change the switch, and how many partners
/// a link of the batch has.
const COUNTS: &[(&str, &str, (usize, usize))] = &[
    ("batch 0\n", "settings 0\n", (0, 0)),
    // The switch stays as it is for the second transfer from module 0 to module 1.
    (
        TWO_PARTNERS,
        "settings 3\nsetting 0\nsetting 1\nsetting 2\n",
        (2, 2),
    ),
    // Here it is set back for that.
    (
        TWO_PARTNERS,
        "settings 3\nsetting 0\nsetting 2\nsetting 1\n",
        (3, 2),
    ),
    // Each of the three transfers joins another pair of links. Two of them can stand together.
    (
        THREE_TRANSFERS,
        "settings 2\nsetting 0 2\nsetting 1\n",
        (2, 2),
    ),
    (
        THREE_TRANSFERS,
        "settings 3\nsetting 0\nsetting 1\nsetting 2\n",
        (3, 2),
    ),
    // A setting that joins nothing counts as well.
    (
        THREE_TRANSFERS,
        "settings 4\nsetting\nsetting 2 0\nsetting\nsetting 1\n",
        (4, 2),
    ),
];

#[test]
fn changes_are_counted(rt: HostRuntime) {
    for (batch, schedule, counts) in COUNTS {
        assert!(rt; changes_of(rt.alloc(), batch, schedule) == Some(*counts));
    }
}

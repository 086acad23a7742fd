ghost use Rattle.std.specs.Prelude.{◌≡◌, ℕ, List, [], ◌∷◌, length, codes, Some, None, IfOk};
ghost use Rattle.batch.specs.declared.transfer.Transfer.{Transfer};
ghost use Rattle.batch.specs.Rows.{three_transfers};
ghost use Rattle.link_graph.specs.declared.link.Link.{Link};
ghost use Rattle.link_graph.specs.Counts.{uses, AreUsers};
ghost use Rattle.link_graph.specs.Uses.{IsMatching};
ghost use Rattle.link_graph.specs.Certificates.{naming};
ghost use Rattle.link_graph.specs.Rows.{two_settings, two_named, two_settings_text, certified_text};
ghost use Rattle.link_graph.specs.Rows.{empty_text};
ghost use Rattle.link_graph.specs.ScheduleText.{schedule_text, text_with};

use super::prints::are_printed;
use link_graph::laws::link_order;
use link_graph::{Certificate, CheckFault, End, LINKS, Link, Schedule, ScheduleFault};
use std::alloc::Global;

/// The definition of the schedule text gives the texts of worked rows.
fn the_definitions_spell_the_rows()
    ensures three_transfers { schedule_text two_settings ≡ two_settings_text }
    ensures certified { text_with two_settings (Some two_named) ≡ certified_text }
    ensures empty_batch { text_with [] (Some (naming None [])) ≡ empty_text }
    ensures no_transfers { schedule_text ([] ∷ []) ≡ codes "settings 1\nsetting\n" }
{}

/// Transfers 0 and 1 of the row both use link 0 of module 0, transfers 1 and 2 both link 3 of
/// module 2.
fn the_definitions_refuse_settings()
    ensures link_0 { IsMatching three_transfers (0 ∷ 1 ∷ []) → ⊥ }
    ensures link_3 { IsMatching three_transfers (1 ∷ 2 ∷ []) → ⊥ }
    ensures repeated { IsMatching three_transfers (0 ∷ 0 ∷ []) → ⊥ }
{}

/// How many transfers use a link is the number of those that use it, listed once each.
fn the_definitions_count_users()
    ensures { (batch : List Transfer) (link : Link) (users : List ℕ) →
        AreUsers batch link users → length users ≡ uses batch link }
{}

/// Link 0 of module 0.
const FIRST: Link = Link {
    end: End::Zero,
    module: 0,
};

/// The text of a shortest schedule of the batch of three transfers, with its certificate.
const CERTIFIED: &[u8] =
    b"settings 2\nsetting 0 2\nsetting 1\nbusiest link 0 module 0\nnamed 0 1\n";

/// Whether a text says the schedule of `CERTIFIED`, and whether it says its certificate.
fn are_equal(alloc: Global, text: &[u8]) -> Option<(bool, bool)> {
    let (schedule, certificate) = Schedule::read(alloc, text).ok()?;
    let (certified, its_certificate) = Schedule::read(alloc, CERTIFIED).ok()?;
    Some((schedule == certified, certificate == its_certificate))
}

#[test]
fn schedules_and_certificates_are_compared(rt: HostRuntime) {
    let alloc = rt.alloc();
    let turned = b"settings 2\nsetting 2 0\nsetting 1\nbusiest link 0 module 0\nnamed 0 1\n";
    let named = b"settings 2\nsetting 0 2\nsetting 1\nbusiest link 0 module 0\nnamed 0 2\n";
    let are_compared = are_equal(alloc, CERTIFIED) == Some((true, true))
        && are_equal(alloc, turned) == Some((false, true))
        && are_equal(alloc, named) == Some((true, false));
    assert!(rt; are_compared);
}

/// Reads a text, and writes what it says: the same text.
fn copied(alloc: Global, text: &[u8]) -> Result<Vec<u8>, ScheduleFault>
    ensures { IfOk result (λ copy. copy.items ≡ text.now) }
{
    let (schedule, certificate) = Schedule::read(alloc, text)?;
    Ok(schedule.write(certificate.as_ref())?)
}

/// Whether a text is written as it was read.
fn is_copied(alloc: Global, text: &[u8]) -> bool {
    match copied(alloc, text) {
        Ok(copy) => copy.as_slice() == text,
        Err(_) => false,
    }
}

const TEXTS: &[&[u8]] = &[
    CERTIFIED,
    b"settings 2\nsetting 0 2\nsetting 1\n",
    b"settings 0\n",
    b"settings 0\nbusiest none\n",
    b"settings 2\nsetting\nsetting 999999999\nbusiest link 3 module 15\nnamed 0\n",
];

#[test]
fn texts_are_written_as_they_were_read(rt: HostRuntime) {
    for text in TEXTS {
        assert!(rt; is_copied(rt.alloc(), text));
    }
}

const CHECK_FAULTS: &[(CheckFault, &str)] = &[
    (CheckFault::Unknown(3), "unknown 3"),
    (CheckFault::Repeated(2), "repeated 2"),
    (CheckFault::Missing(2), "missing 2"),
    (
        CheckFault::Clash(0, FIRST),
        "clash in setting 0 at link 0 module 0",
    ),
    (CheckFault::WrongLink(2), "wrong link 2"),
    (CheckFault::CertificateRepeats(0), "certificate repeats 0"),
    (CheckFault::NotTight(3, 2), "not tight: 3 settings, 2 named"),
    (CheckFault::NoMemory, "no memory"),
];

const SCHEDULE_FAULTS: &[(ScheduleFault, &str)] = &[
    (ScheduleFault::Line(3), "line 3"),
    (ScheduleFault::NoMemory, "no memory"),
];

#[test]
fn faults_are_printed(rt: HostRuntime) {
    let alloc = rt.alloc();
    assert!(rt; are_printed(alloc, CHECK_FAULTS) && are_printed(alloc, SCHEDULE_FAULTS));
}

#[test]
fn links_are_counted(rt: HostRuntime) {
    let last = Link {
        end: End::Three,
        module: 31,
    };
    let are_indices = LINKS == 64 && FIRST.index() == 0 && last.index() == 63;
    assert!(rt; are_indices && End::Zero.number() == 0 && End::Three.number() == 3);
}

#[test]
fn links_are_ordered(rt: HostRuntime) {
    let last_start = Link {
        end: End::Zero,
        module: 31,
    };
    let first_answer = Link {
        end: End::Three,
        module: 0,
    };
    assert!(rt; link_order(last_start, first_answer) && !link_order(first_answer, last_start));
}

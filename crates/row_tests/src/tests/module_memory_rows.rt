//! Places that aren't lent, named sizes and printed faults. What images and racks hold, and which
//! addresses have a fault, is shown by what `apply`, `run` and `serve` print.

use super::prints::{are_printed, prints};
use super::racks::marked_rack;
use batch::{MAX_BLOCKS, MAX_WORDS, Place};
use module_memory::{
    BLOCK_MARK, HOLD_START, ImageFault, LendFault, MODULE_MARK, MemoryFault, WINDOW_START,
    WORD_BYTES,
};
use std::alloc::Global;

/// Whether these places of a rack `2x1x1` aren't lent while these are held, for this fault.
fn is_refused(alloc: Global, places: &[Place], held: &[Place], fault: LendFault) -> bool {
    match marked_rack(alloc, 2, 1, 1) {
        Some(rack) => match rack.part(places, held) {
            Ok(_) => false,
            Err((_, given)) => given == fault,
        },
        None => false,
    }
}

/// Places, those that are held, and why a rack `2x1x1` doesn't lend the first.
type Refusal = (&'static [Place], &'static [Place], LendFault);

const FIRST: Place = Place {
    module: 0,
    block: 0,
};

const SECOND: Place = Place {
    module: 1,
    block: 0,
};

const FAR: Place = Place {
    module: 9,
    block: 0,
};

/// Row part-refusals.
const REFUSALS: &[Refusal] = &[
    (&[FIRST, FIRST], &[], LendFault::SamePlace(1)),
    (&[FAR], &[], LendFault::NoPlace(0)),
];

#[test]
fn part_refusals(rt: HostRuntime) {
    for (places, held, fault) in REFUSALS {
        assert!(rt; is_refused(rt.alloc(), places, held, *fault));
    }
}

/// The block after `FIRST`.
const BEYOND: Place = Place {
    module: 0,
    block: 1,
};

/// Row part-refusals, where places are held.
const HELD_REFUSALS: &[Refusal] = &[
    (&[], &[FAR], LendFault::NoHeld(0)),
    (&[SECOND], &[FAR], LendFault::NoHeld(0)),
    (
        &[Place {
            module: 2,
            block: 0,
        }],
        &[FAR],
        LendFault::NoPlace(0),
    ),
    (&[FIRST, FIRST], &[SECOND, BEYOND], LendFault::NoHeld(1)),
];

#[test]
fn held_places_are_refused(rt: HostRuntime) {
    for (places, held, fault) in HELD_REFUSALS {
        assert!(rt; is_refused(rt.alloc(), places, held, *fault));
    }
}

#[test]
fn sizes_have_numbers(rt: HostRuntime) {
    let are_windows = WINDOW_START == 0x8000_0800 && HOLD_START == 0x8001_0800;
    let are_marks = MODULE_MARK == 0x0001_0000 && BLOCK_MARK == 0x0100;
    assert!(rt; are_windows && WORD_BYTES == 4 && are_marks);
}

/// No two words of a marked rack are equal: those of a block end before the next block begins, and
/// those of a module before the next module does.
#[test]
fn marks_differ(rt: HostRuntime) {
    assert!(rt; MAX_WORDS <= BLOCK_MARK && MAX_BLOCKS * BLOCK_MARK <= MODULE_MARK);
}

const LEND_FAULTS: &[(LendFault, &str)] = &[
    (LendFault::SamePlace(2), "place 2 is lent twice"),
    (LendFault::NoPlace(0), "place 0 does not exist"),
    (LendFault::NoHeld(1), "held place 1 does not exist"),
    (LendFault::NoMemory, "no memory"),
];

#[test]
fn faults_are_printed(rt: HostRuntime) {
    let alloc = rt.alloc();
    let length = ImageFault::Length { is: 47, wanted: 48 };
    let misaligned = "the address is misaligned";
    let are_all_printed = are_printed(alloc, LEND_FAULTS)
        && prints(alloc, &length, "the image has 47 bytes, and 48 are wanted")
        && prints(alloc, &MemoryFault::Misaligned, misaligned);
    assert!(rt; are_all_printed);
}

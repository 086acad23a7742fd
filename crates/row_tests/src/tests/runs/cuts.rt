//! Runs of row two-pushes, on a rack with one switch and on one with two.

use crossbar::Chip;
use exchange_limits::WorkerCount;
use runs_tests::common::{TWO_PUSHES, plan, two};
use runs_tests::faults::{Fault, blocks_of, count_of_faults, end_of, fault_of, moved_of};
use runs_tests::running::{Case, ends};
use schedule_certificate::Planned;
use setting_runner::StopCause;
use std::sync::atomic::AtomicUsize;
use std::thread::Threads;

/// Whether a run by so many workers ends as it should.
fn ends_rightly<R: AllocGlobal + Threads + Sync>(
    rt: &R,
    planned: &Planned,
    is_wide: bool,
    fault: Fault,
    workers: WorkerCount,
) -> bool {
    let words = fault.words(is_wide);
    let (moved, blocks) = (moved_of(words), blocks_of(words));
    let case = Case {
        shape: if is_wide { "17x2x2" } else { "3x2x2" },
        text: TWO_PUSHES,
        end: end_of(fault.cause(is_wide), &moved),
        blocks: &blocks,
    };
    let mut plant = fault.plant(workers);
    let is_ended = ends(rt, &mut plant, planned, &case, &AtomicUsize::new(0));
    let is_set = fault.is_set_rightly(is_wide, &plant.port);
    is_ended && is_set
}

/// Whether runs by one worker and by two do. Of answers, those by one.
fn is_right<R: AllocGlobal + Threads + Sync>(
    rt: &R,
    planned: &Planned,
    is_wide: bool,
    fault: Fault,
) -> bool {
    let is_answer = matches!(fault, Fault::Answer(_, _, _));
    let by_one = ends_rightly(rt, planned, is_wide, fault, WorkerCount::ONE);
    let by_two = is_answer || ends_rightly(rt, planned, is_wide, fault, two());
    by_one && by_two
}

/// The number of the first fault for which they don't, or how many there are.
fn first_wrong<R: AllocGlobal + Threads + Sync>(rt: &R, planned: &Planned, is_wide: bool) -> usize {
    let count = count_of_faults(is_wide);
    for number in 0..count {
        if !is_right(rt, planned, is_wide, fault_of(number)) {
            return number;
        }
    }
    count
}

/// Whether they do for all faults.
fn are_right<R: AllocGlobal + Threads + Sync>(rt: &R, is_wide: bool) -> bool {
    match plan(rt, TWO_PUSHES) {
        Some(planned) => first_wrong(rt, &planned, is_wide) == count_of_faults(is_wide),
        None => false,
    }
}

#[test]
fn each_byte_and_each_answer(rt: HostRuntime) {
    assert!(rt; are_right(&rt, false));
}

#[test]
fn each_byte_and_each_answer_of_two_switches(rt: HostRuntime) {
    assert!(rt; are_right(&rt, true));
}

/// Whether row two-pushes stops at this output, where one of a switch answers this byte.
fn disagrees(is_wide: bool, answer: (Chip, u8, u8), number: u8) -> bool {
    let (chip, output, reply) = answer;
    Fault::Answer(chip, output, reply).cause(is_wide) == Some(StopCause::SwitchDisagrees(number))
}

/// A loose output's answer counts by its top bit alone, and an input is one of 32. The outputs of
/// the second switch are numbered after those of the first.
#[test]
fn named_answers(rt: HostRuntime) {
    let of_the_first = disagrees(false, (Chip::A, 18, 0xa1), 18)
        && !disagrees(false, (Chip::A, 18, 0x81), 18)
        && disagrees(false, (Chip::A, 5, 0x80), 5)
        && !disagrees(false, (Chip::A, 5, 0x7f), 5);
    let of_the_second = disagrees(true, (Chip::B, 0, 0x00), 32)
        && !disagrees(true, (Chip::B, 0, 0x81), 32);
    assert!(rt; of_the_first && of_the_second);
}

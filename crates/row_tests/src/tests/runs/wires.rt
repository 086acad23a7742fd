//! Wires that fail: for good, or in one call alone.

use byte_streams::FailureCount;
use peek_poke::{FuseWires, PlainWire, Wire, WireFault, WireMaker};
use runs_tests::common::{TWO_PUSHES, with_wires};
use runs_tests::running::{Case, End, ends_so};
use setting_runner::StopCause;
use std::sync::atomic::{AtomicUsize, Ordering};
use std::thread::Threads;

/// A line of which one call fails, where there is one, and the calls before it and after it don't.
#[derive(Drop)]
struct HoledLine {
    plain: PlainWire,
    failed: FailureCount,
    calls: usize,
    failing_call: Option<usize>,
}

impl Wire for HoledLine {
    ghost failures = { λ line. line.failed };

    ghost carried = { λ line. line.plain };

    ghost never_fails = { λ _. ⊥ };

    fn carry(&mut self, byte: u8) -> Result<u8, WireFault> {
        let before = self.calls;
        self.calls = before.saturating_add(1);
        if self.failing_call == Some(before) {
            self.failed.raise();
            return Err(WireFault);
        }
        self.plain.carry(byte)
    }
}

/// Gives transfer 0 a line that carries so many bytes, fails once and then works, the others lines
/// that don't fail, and counts the lines.
#[derive(Clone, Copy)]
struct HoledLines<'a> {
    bytes: usize,
    made: &'a AtomicUsize,
}

impl<'a> WireMaker for HoledLines<'a> {
    type Line = HoledLine;

    ghost is_sure = { λ _ _. ⊥ };

    fn line(&self, transfer: usize) -> HoledLine {
        self.made.fetch_add(1, Ordering::SeqCst);
        HoledLine {
            plain: PlainWire::new(),
            failed: FailureCount::zero(),
            calls: 0,
            failing_call: if transfer == 0 {
                Some(self.bytes)
            } else {
                None
            },
        }
    }
}

/// Whether a run of so many transfers ends as the case says, where the wire of
/// transfer 0 carries so many bytes and fails then, for good or once, and no wire is made a second
/// time.
fn stops<R: AllocGlobal + Threads + Sync>(
    rt: &R,
    case: &Case<'_>,
    bytes: usize,
    transfers: usize,
) -> bool {
    let fused = FuseWires { transfer: 0, bytes };
    let ends_fused = ends_so(rt, &mut with_wires(fused), case, &AtomicUsize::new(0));
    let made = AtomicUsize::new(0);
    let holed = HoledLines { bytes, made: &made };
    let ends_holed = ends_so(rt, &mut with_wires(holed), case, &AtomicUsize::new(0));
    ends_fused && ends_holed && made.load(Ordering::SeqCst) == transfers
}

/// A wire of 14 bytes carries one word and five bytes of the next.
const PUSH: Case<'static> = Case {
    shape: "2x1x2",
    text: "batch 1\npush 0 0 1 0\n",
    end: End::Stopped(0, StopCause::Wire(0), &[(0, 1)]),
    blocks: &[(1, 0, &[0, 0x0001_0001])],
};

#[test]
fn overlaps_and_fuses_push(rt: HostRuntime) {
    assert!(rt; stops(&rt, &PUSH, 14, 1));
}

/// A wire of seven bytes brings no word back.
const NO_PULL: Case<'static> = Case {
    shape: "2x1x2",
    text: "batch 1\npull 0 0 1 0\n",
    end: End::Stopped(0, StopCause::Wire(0), &[(0, 0)]),
    blocks: &[(0, 0, &[0, 1])],
};

/// One of 11 bytes brings one.
const PULL: Case<'static> = Case {
    shape: "2x1x2",
    text: "batch 1\npull 0 0 1 0\n",
    end: End::Stopped(0, StopCause::Wire(0), &[(0, 1)]),
    blocks: &[(0, 0, &[0x0001_0000, 1])],
};

#[test]
fn overlaps_and_fuses_pull(rt: HostRuntime) {
    assert!(rt; stops(&rt, &NO_PULL, 7, 1) && stops(&rt, &PULL, 11, 1));
}

/// Row swap with a wire that carries one word and five bytes of the next.
const SWAPPED: Case<'static> = Case {
    shape: "2x1x2",
    text: "batch 2\npush 0 0 1 0\npush 1 0 0 0\n",
    end: End::Stopped(0, StopCause::Wire(0), &[(0, 1), (1, 2)]),
    blocks: &[
        (0, 0, &[0x0001_0000, 0x0001_0001]),
        (1, 0, &[0, 0x0001_0001]),
    ],
};

/// Row two-pushes with one that carries one word.
const PUSHED: Case<'static> = Case {
    shape: "3x2x2",
    text: TWO_PUSHES,
    end: End::Stopped(0, StopCause::Wire(0), &[(0, 1), (1, 2)]),
    blocks: &[
        (1, 0, &[0, 0x0001_0001]),
        (2, 0, &[0x0001_0100, 0x0001_0101]),
    ],
};

#[test]
fn a_failed_wire_lets_the_others_go_on(rt: HostRuntime) {
    assert!(rt; stops(&rt, &SWAPPED, 14, 2) && stops(&rt, &PUSHED, 9, 2));
}

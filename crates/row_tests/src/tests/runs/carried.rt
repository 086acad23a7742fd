//! Wires whose bytes are compared with those that are expected, and that see when they are made.

use peek_poke::{PlainWire, Wire, WireFault, WireMaker};
use runs_tests::common::with_wires;
use runs_tests::running::{Case, End, ends_so};
use std::sync::atomic::{AtomicBool, AtomicUsize, Ordering};
use std::thread::Threads;

/// What the wires of a run have carried: how many bytes were those that were expected, whether
/// others were, how many wires there were, and whether one was made too early or too late. And how
/// often the run's notice was told.
#[derive(Drop)]
struct Carried {
    right: AtomicUsize,
    wires: AtomicUsize,
    is_wrong: AtomicBool,
    told: AtomicUsize,
}

impl Carried {
    fn nothing() -> Carried {
        Carried {
            right: AtomicUsize::new(0),
            wires: AtomicUsize::new(0),
            is_wrong: AtomicBool::new(false),
            told: AtomicUsize::new(0),
        }
    }

    /// Keeps that something was wrong, where it was.
    fn expect(&self, is_right: bool) {
        if !is_right {
            self.is_wrong.store(true, Ordering::SeqCst);
        }
    }

    /// Whether so many bytes were carried by so many wires, as expected.
    fn is_just(&self, bytes: usize, wires: usize) -> bool {
        let right = self.right.load(Ordering::SeqCst);
        let made = self.wires.load(Ordering::SeqCst);
        let is_wrong = self.is_wrong.load(Ordering::SeqCst);
        right == bytes && made == wires && !is_wrong
    }
}

/// A line that compares the bytes that it carries with those that are expected.
#[derive(Drop)]
struct ComparedLine<'a> {
    plain: PlainWire,
    expected: &'a [u8],
    count: usize,
    carried: &'a Carried,
}

impl<'a> Wire for ComparedLine<'a> {
    ghost failures = { λ _. 0 };

    ghost carried = { λ line. line.plain };

    ghost never_fails = { λ _. Unit {0} };

    fn carry(&mut self, byte: u8) -> Result<u8, WireFault> {
        self.carried
            .expect(self.expected.get(self.count) == Some(&byte));
        self.carried.right.fetch_add(1, Ordering::SeqCst);
        self.count = self.count.saturating_add(1);
        self.plain.carry(byte)
    }
}

/// The setting of a transfer, and the bytes that its wire carries.
type Carrying = (usize, &'static [u8]);

/// Gives each transfer a line of which its bytes are expected, and sees that those of setting k are
/// made when the notice was told k, and k + 1 wasn't.
#[derive(Clone, Copy)]
struct ComparedLines<'a> {
    expected: &'static [Carrying],
    carried: &'a Carried,
}

impl<'a> WireMaker for ComparedLines<'a> {
    type Line = ComparedLine<'a>;

    ghost is_sure = { λ _ _. Unit {0} };

    fn line(&self, transfer: usize) -> ComparedLine<'a> {
        let carried = self.carried;
        let (setting, bytes) = match self.expected.get(transfer) {
            Some((setting, bytes)) => (*setting, *bytes),
            None => (usize::MAX, &[] as &[u8]),
        };
        let told = carried.told.load(Ordering::SeqCst);
        carried.expect(told.checked_sub(1) == Some(setting));
        carried.wires.fetch_add(1, Ordering::SeqCst);
        ComparedLine {
            plain: PlainWire::new(),
            expected: bytes,
            count: 0,
            carried,
        }
    }
}

/// Whether a run ends as the case says, where each transfer's wire carries just these bytes, 18
/// each, and is made in time.
fn carries<R: AllocGlobal + Threads + Sync>(
    rt: &R,
    case: &Case<'_>,
    expected: &'static [Carrying],
) -> bool {
    let carried = Carried::nothing();
    let mut plant = with_wires(ComparedLines {
        expected,
        carried: &carried,
    });
    let wires = expected.len();
    let is_ended = ends_so(rt, &mut plant, case, &carried.told);
    let is_carried = carried.is_just(wires.saturating_mul(18), wires);
    is_ended && is_carried
}

/// Held blocks are peeked at 80010808 and 8001080c hex, in the hold window, and another block at
/// 80000800 and 80000804. Nothing of the copying is seen on a wire. The third transfer has a link
/// of each of the others, so it is in setting 1.
const PEEKED: Case<'static> = Case {
    shape: "2x3x2",
    text: "batch 3\npull 0 1 1 1\npull 1 1 0 1\npull 1 2 1 0\n",
    end: End::Completed(2, 6),
    blocks: &[
        (0, 1, &[0x0001_0100, 0x0001_0101]),
        (1, 1, &[0x0100, 0x0101]),
        (1, 2, &[0x0001_0000, 0x0001_0001]),
    ],
};

const PEEKING: &[Carrying] = &[
    (
        0,
        &[
            0x01, 0x08, 0x08, 0x01, 0x80, 0x00, 0x01, 0x01, 0x00, 0x01, 0x0c, 0x08, 0x01, 0x80,
            0x01, 0x01, 0x01, 0x00,
        ],
    ),
    (
        0,
        &[
            0x01, 0x08, 0x08, 0x01, 0x80, 0x00, 0x01, 0x00, 0x00, 0x01, 0x0c, 0x08, 0x01, 0x80,
            0x01, 0x01, 0x00, 0x00,
        ],
    ),
    (
        1,
        &[
            0x01, 0x00, 0x08, 0x00, 0x80, 0x00, 0x00, 0x01, 0x00, 0x01, 0x04, 0x08, 0x00, 0x80,
            0x01, 0x00, 0x01, 0x00,
        ],
    ),
];

#[test]
fn held_blocks_are_peeked_in_the_hold_window(rt: HostRuntime) {
    assert!(rt; carries(&rt, &PEEKED, PEEKING));
}

/// The words of held blocks are poked where their destinations stand, at 80000808 and 8000080c hex.
/// The copying uses no line.
const POKED: Case<'static> = Case {
    shape: "2x2x2",
    text: "batch 2\npush 0 1 1 1\npush 1 1 0 1\n",
    end: End::Completed(1, 4),
    blocks: &[
        (0, 1, &[0x0001_0100, 0x0001_0101]),
        (1, 1, &[0x0100, 0x0101]),
    ],
};

const POKING: &[Carrying] = &[
    (
        0,
        &[
            0x00, 0x08, 0x08, 0x00, 0x80, 0x00, 0x01, 0x00, 0x00, 0x00, 0x0c, 0x08, 0x00, 0x80,
            0x01, 0x01, 0x00, 0x00,
        ],
    ),
    (
        0,
        &[
            0x00, 0x08, 0x08, 0x00, 0x80, 0x00, 0x01, 0x01, 0x00, 0x00, 0x0c, 0x08, 0x00, 0x80,
            0x01, 0x01, 0x01, 0x00,
        ],
    ),
];

#[test]
fn held_blocks_are_poked_into_the_window(rt: HostRuntime) {
    assert!(rt; carries(&rt, &POKED, POKING));
}

//! What a port is sent, and ports that fail or answer wrongly.

use byte_streams::FailureCount;
use crossbar::{Chip, ConfigPort, MemoryPort, PortFault};
use exchange_limits::WorkerCount;
use peek_poke::PlainWires;
use runs_tests::common::TWO_PUSHES;
use runs_tests::running::{Block, Case, End, THREE_TRANSFERS, TURNED_ROUND, ends_so};
use schedule_certificate::OpenGate;
use setting_runner::{Plant, RunRefusal, StopCause};
use std::sync::atomic::AtomicUsize;
use std::thread::Threads;

/// What a call of a port sends to a switch.
#[derive(Clone, Copy)]
enum Sent {
    /// These bytes.
    Set(Chip, &'static [u8]),
    /// The enquiries of outputs 0 to 31.
    Ask(Chip),
}

/// The enquiries of outputs 0 to 31.
const ENQUIRIES: [u8; 64] = [
    0x02, 0x00, 0x02, 0x01, 0x02, 0x02, 0x02, 0x03, 0x02, 0x04, 0x02, 0x05, 0x02, 0x06, 0x02, 0x07,
    0x02, 0x08, 0x02, 0x09, 0x02, 0x0a, 0x02, 0x0b, 0x02, 0x0c, 0x02, 0x0d, 0x02, 0x0e, 0x02, 0x0f,
    0x02, 0x10, 0x02, 0x11, 0x02, 0x12, 0x02, 0x13, 0x02, 0x14, 0x02, 0x15, 0x02, 0x16, 0x02, 0x17,
    0x02, 0x18, 0x02, 0x19, 0x02, 0x1a, 0x02, 0x1b, 0x02, 0x1c, 0x02, 0x1d, 0x02, 0x1e, 0x02, 0x1f,
];

const ASKS_A: Sent = Sent::Ask(Chip::A);

const ASKS_B: Sent = Sent::Ask(Chip::B);

/// What a port of the tests does.
#[derive(Clone, Copy)]
enum Manner {
    /// It answers rightly.
    Rightly,
    /// It fails the call that has so many before it, and answers the others rightly.
    Fails(usize),
    /// In the call that has so many before it, it answers each enquiry by 0, and else rightly.
    Silent(usize),
    /// From that call on it answers each enquiry by 0, and before it rightly.
    SilentFrom(usize),
    /// In the call that has so many before it, it answers the enquiry of this output by this byte,
    /// and else rightly.
    Answers(usize, u8, u8),
}

impl Manner {
    /// Whether it fails the call that has so many before it.
    fn fails(self, before: usize) -> bool {
        matches!(self, Manner::Fails(call) if call == before)
    }

    /// Changes the answers to the call that has so many before it.
    fn twist(self, before: usize, replies: &mut [u8]) {
        match self {
            Manner::Silent(call) if call == before => replies.fill(0),
            Manner::SilentFrom(call) if call <= before => replies.fill(0),
            Manner::Answers(call, output, reply)
                if call == before && usize::from(output) < replies.len() => {
                replies[usize::from(output)] = reply;
            }
            _ => {}
        }
    }
}

/// A port to switches in memory, which does as it pleases. It knows what it is to be sent, counts
/// its calls, and keeps whether one of them was another.
#[derive(Drop)]
struct KnowingPort {
    memory: MemoryPort,
    manner: Manner,
    sent: &'static [Sent],
    calls: usize,
    is_wrong: bool,
    failed: FailureCount,
}

impl KnowingPort {
    fn new(manner: Manner, sent: &'static [Sent]) -> KnowingPort {
        KnowingPort {
            memory: MemoryPort::new(),
            manner,
            sent,
            calls: 0,
            is_wrong: false,
            failed: FailureCount::zero(),
        }
    }

    /// Whether it is to be sent this by the call that has so many before it.
    fn is_due(&self, before: usize, chip: Chip, bytes: &[u8]) -> bool {
        match self.sent.get(before) {
            Some(Sent::Set(wanted, text)) => *wanted == chip && *text == bytes,
            Some(Sent::Ask(wanted)) => *wanted == chip && bytes == ENQUIRIES.as_slice(),
            None => false,
        }
    }
}

impl ConfigPort for KnowingPort {
    ghost use Rattle.std.specs.Prelude.{false};

    ghost switches = { λ p. p.memory };

    ghost honest = { λ _. false };

    ghost failures = { λ p. p.failed };

    fn converse(&mut self, chip: Chip, bytes: &[u8], replies: &mut [u8]) -> Result<(), PortFault> {
        let before = self.calls;
        self.calls = before.saturating_add(1);
        self.is_wrong = self.is_wrong || !self.is_due(before, chip, bytes);
        if self.manner.fails(before) {
            self.failed.raise();
            return Err(PortFault);
        }
        let _ = self.memory.converse(chip, bytes, replies);
        self.manner.twist(before, replies);
        Ok(())
    }
}

/// A run with such a port: what the port does, what it is to be sent, and how often it is to be
/// called.
#[derive(Clone, Copy)]
struct Row {
    case: Case<'static>,
    manner: Manner,
    sent: &'static [Sent],
    calls: usize,
}

/// Whether a run ends as the row says, and its port was sent just what the row says.
fn is_right<R: AllocGlobal + Threads + Sync>(rt: &R, row: &Row) -> bool {
    let mut plant = Plant {
        port: KnowingPort::new(row.manner, row.sent),
        wires: PlainWires,
        gate: OpenGate,
        workers: WorkerCount::ONE,
    };
    let is_ended = ends_so(rt, &mut plant, &row.case, &AtomicUsize::new(0));
    let (calls, is_wrong) = (plant.port.calls, plant.port.is_wrong);
    is_ended && !is_wrong && calls == row.calls
}

/// The shape of a rack, the case of a run on it, and what its port, which answers rightly, is sent.
type Right = (&'static str, Case<'static>, &'static [Sent]);

/// Whether a run goes so, and its port takes all calls.
fn goes_rightly<R: AllocGlobal + Threads + Sync>(rt: &R, right: &Right) -> bool {
    let (shape, case, sent) = *right;
    let row = Row {
        case: Case { shape, ..case },
        manner: Manner::Rightly,
        sent,
        calls: sent.len(),
    };
    is_right(rt, &row)
}

/// Row two-pushes.
pub(super) const TWO: Case<'static> = Case {
    shape: "3x2x2",
    text: TWO_PUSHES,
    end: End::Completed(1, 4),
    blocks: &[(1, 0, &[0, 1]), (2, 0, &[0x0001_0100, 0x0001_0101])],
};

/// Its setting, which is also setting 0 of row three-transfers.
const BOTH_PAIRS: Sent = Sent::Set(Chip::A, &[0x04, 0x01, 0x00, 0x11, 0x01, 0x01, 0x12, 0x03]);

/// Setting 1 of row three-transfers.
const ONE_PAIR: Sent = Sent::Set(
    Chip::A,
    &[0x06, 0x00, 0x11, 0x06, 0x01, 0x12, 0x01, 0x00, 0x12, 0x03],
);

const TWO_SENT: [Sent; 2] = [BOTH_PAIRS, ASKS_A];

const THREE_SENT: [Sent; 4] = [BOTH_PAIRS, ASKS_A, ONE_PAIR, ASKS_A];

/// Row three-transfers on a rack whose blocks have one word.
const THREE: Case<'static> = Case {
    shape: "3x2x1",
    text: THREE_TRANSFERS,
    end: End::Completed(2, 3),
    blocks: &[(1, 0, &[0]), (2, 0, &[0x0000_0100]), (2, 1, &[0x0001_0100])],
};

/// Row five-settings. Settings 0 and 1 have one pair, and so have settings 3 and 4.
const FIVE: Case<'static> = Case {
    shape: "4x2x1",
    text: "batch 5\npush 0 0 1 0\npush 0 0 1 1\npush 0 0 2 0\npush 0 0 3 0\npush 0 0 3 1\n",
    end: End::Completed(5, 5),
    blocks: &[
        (1, 0, &[0]),
        (1, 1, &[0]),
        (2, 0, &[0]),
        (3, 0, &[0]),
        (3, 1, &[0]),
    ],
};

const FIVE_SENT: [Sent; 10] = [
    Sent::Set(Chip::A, &[0x04, 0x01, 0x00, 0x11, 0x03]),
    ASKS_A,
    Sent::Set(Chip::A, &[0x03]),
    ASKS_A,
    Sent::Set(Chip::A, &[0x06, 0x00, 0x11, 0x01, 0x00, 0x12, 0x03]),
    ASKS_A,
    Sent::Set(Chip::A, &[0x06, 0x00, 0x12, 0x01, 0x00, 0x13, 0x03]),
    ASKS_A,
    Sent::Set(Chip::A, &[0x03]),
    ASKS_A,
];

/// A transfer of a module that the rack hasn't.
const NO_ROOM: Case<'static> = Case {
    shape: "2x1x1",
    text: "batch 1\npush 5 0 6 0\n",
    end: End::Refused(RunRefusal::Shape),
    blocks: &[(0, 0, &[0]), (1, 0, &[0x0001_0000])],
};

/// Rows part-refusals, switch-stops, recorded-change and five-settings, and row wide_rack of 16
/// modules, which have one switch.
const RIGHT: &[Right] = &[
    ("2x1x1", NO_ROOM, &[]),
    ("3x2x2", TWO, &TWO_SENT),
    ("3x2x1", THREE, &THREE_SENT),
    ("16x2x1", THREE, &THREE_SENT),
    ("4x2x1", FIVE, &FIVE_SENT),
    ("16x2x1", FIVE, &FIVE_SENT),
];

#[test]
fn ports_are_sent_settings(rt: HostRuntime) {
    for (number, right) in RIGHT.iter().enumerate() {
        assert!(rt; goes_rightly(&rt, right), "row {number}");
    }
}

/// Row wide_rack.
const ACROSS: Case<'static> = Case {
    shape: "17x2x1",
    text: "batch 2\npush 16 0 0 0\npull 0 1 16 1\n",
    end: End::Completed(1, 2),
    blocks: &[(0, 0, &[0x0010_0000]), (0, 1, &[0x0010_0100])],
};

const ACROSS_SENT: [Sent; 4] = [
    Sent::Set(Chip::A, &[0x04, 0x00, 0x00, 0x10, 0x00, 0x10, 0x00, 0x03]),
    Sent::Set(Chip::B, &[0x04, 0x00, 0x10, 0x00, 0x00, 0x00, 0x10, 0x03]),
    ASKS_A,
    ASKS_B,
];

/// Row three-transfers on a rack with two switches.
const THREE_WIDE_SENT: [Sent; 8] = [
    Sent::Set(Chip::A, &[0x04, 0x00, 0x00, 0x01, 0x00, 0x01, 0x02, 0x03]),
    Sent::Set(Chip::B, &[0x04, 0x00, 0x01, 0x00, 0x00, 0x02, 0x01, 0x03]),
    ASKS_A,
    ASKS_B,
    Sent::Set(Chip::A, &[0x05, 0x01, 0x05, 0x02, 0x00, 0x00, 0x02, 0x03]),
    Sent::Set(Chip::B, &[0x05, 0x00, 0x05, 0x01, 0x00, 0x02, 0x00, 0x03]),
    ASKS_A,
    ASKS_B,
];

/// Row five-settings on such a rack.
const FIVE_WIDE_SENT: [Sent; 20] = [
    Sent::Set(Chip::A, &[0x04, 0x00, 0x00, 0x01, 0x03]),
    Sent::Set(Chip::B, &[0x04, 0x00, 0x01, 0x00, 0x03]),
    ASKS_A,
    ASKS_B,
    Sent::Set(Chip::A, &[0x03]),
    Sent::Set(Chip::B, &[0x03]),
    ASKS_A,
    ASKS_B,
    Sent::Set(Chip::A, &[0x05, 0x01, 0x00, 0x00, 0x02, 0x03]),
    Sent::Set(Chip::B, &[0x05, 0x00, 0x00, 0x02, 0x00, 0x03]),
    ASKS_A,
    ASKS_B,
    Sent::Set(Chip::A, &[0x05, 0x02, 0x00, 0x00, 0x03, 0x03]),
    Sent::Set(Chip::B, &[0x05, 0x00, 0x00, 0x03, 0x00, 0x03]),
    ASKS_A,
    ASKS_B,
    Sent::Set(Chip::A, &[0x03]),
    Sent::Set(Chip::B, &[0x03]),
    ASKS_A,
    ASKS_B,
];

/// All links of the widest rack at once.
const TURNED: Case<'static> = Case {
    shape: "32x2x1",
    text: TURNED_ROUND,
    end: End::Completed(1, 32),
    blocks: &[
        (31, 1, &[0x0000_0000]),
        (16, 1, &[0x000f_0000]),
        (15, 1, &[0x0010_0000]),
        (0, 1, &[0x001f_0000]),
    ],
};

/// Module m feeds module 31 - m.
const TURNED_FORTH: [u8; 98] = [
    0x04, 0x00, 0x00, 0x1f, 0x00, 0x01, 0x1e, 0x00, 0x02, 0x1d, 0x00, 0x03, 0x1c, 0x00, 0x04, 0x1b,
    0x00, 0x05, 0x1a, 0x00, 0x06, 0x19, 0x00, 0x07, 0x18, 0x00, 0x08, 0x17, 0x00, 0x09, 0x16, 0x00,
    0x0a, 0x15, 0x00, 0x0b, 0x14, 0x00, 0x0c, 0x13, 0x00, 0x0d, 0x12, 0x00, 0x0e, 0x11, 0x00, 0x0f,
    0x10, 0x00, 0x10, 0x0f, 0x00, 0x11, 0x0e, 0x00, 0x12, 0x0d, 0x00, 0x13, 0x0c, 0x00, 0x14, 0x0b,
    0x00, 0x15, 0x0a, 0x00, 0x16, 0x09, 0x00, 0x17, 0x08, 0x00, 0x18, 0x07, 0x00, 0x19, 0x06, 0x00,
    0x1a, 0x05, 0x00, 0x1b, 0x04, 0x00, 0x1c, 0x03, 0x00, 0x1d, 0x02, 0x00, 0x1e, 0x01, 0x00, 0x1f,
    0x00, 0x03,
];

/// Module 31 - m feeds module m.
const TURNED_BACK: [u8; 98] = [
    0x04, 0x00, 0x1f, 0x00, 0x00, 0x1e, 0x01, 0x00, 0x1d, 0x02, 0x00, 0x1c, 0x03, 0x00, 0x1b, 0x04,
    0x00, 0x1a, 0x05, 0x00, 0x19, 0x06, 0x00, 0x18, 0x07, 0x00, 0x17, 0x08, 0x00, 0x16, 0x09, 0x00,
    0x15, 0x0a, 0x00, 0x14, 0x0b, 0x00, 0x13, 0x0c, 0x00, 0x12, 0x0d, 0x00, 0x11, 0x0e, 0x00, 0x10,
    0x0f, 0x00, 0x0f, 0x10, 0x00, 0x0e, 0x11, 0x00, 0x0d, 0x12, 0x00, 0x0c, 0x13, 0x00, 0x0b, 0x14,
    0x00, 0x0a, 0x15, 0x00, 0x09, 0x16, 0x00, 0x08, 0x17, 0x00, 0x07, 0x18, 0x00, 0x06, 0x19, 0x00,
    0x05, 0x1a, 0x00, 0x04, 0x1b, 0x00, 0x03, 0x1c, 0x00, 0x02, 0x1d, 0x00, 0x01, 0x1e, 0x00, 0x00,
    0x1f, 0x03,
];

const TURNED_SENT: [Sent; 4] = [
    Sent::Set(Chip::A, &TURNED_FORTH),
    Sent::Set(Chip::B, &TURNED_BACK),
    ASKS_A,
    ASKS_B,
];

/// Row wide_rack, and row five-settings beside a module more.
const WIDE_RIGHT: &[Right] = &[
    ("17x2x1", ACROSS, &ACROSS_SENT),
    ("17x2x1", THREE, &THREE_WIDE_SENT),
    ("17x2x1", FIVE, &FIVE_WIDE_SENT),
    ("32x2x1", TURNED, &TURNED_SENT),
];

#[test]
fn ports_are_sent_wide_settings(rt: HostRuntime) {
    for (number, right) in WIDE_RIGHT.iter().enumerate() {
        assert!(rt; goes_rightly(&rt, right), "row {number}");
    }
}

/// A run of a case that stops before a word has moved, at this output, by a port of this manner
/// that was sent all and asked for all.
fn stop_at(
    case: Case<'static>,
    blocks: &'static [Block<'static>],
    sent: &'static [Sent],
    manner: Manner,
    output: u8,
) -> Row {
    let end = End::Stopped(0, StopCause::SwitchDisagrees(output), &[(0, 0), (1, 0)]);
    Row {
        case: Case {
            end,
            blocks,
            ..case
        },
        manner,
        sent,
        calls: sent.len(),
    }
}

/// A run of row three-transfers that stops in this setting for this cause, by a port of this manner
/// that is called so often: in setting 1 transfers 0 and 2 have moved, and transfer 1 hasn't.
fn three_stop(
    shape: &'static str,
    manner: Manner,
    calls: usize,
    setting: usize,
    cause: StopCause,
) -> Row {
    let (moved, blocks): (&[(u16, u16)], &[Block<'_>]) = if setting == 0 {
        (
            &[(0, 0), (2, 0)],
            &[
                (1, 0, &[0x0001_0000]),
                (2, 0, &[0x0002_0000]),
                (2, 1, &[0x0002_0100]),
            ],
        )
    } else {
        (
            &[(1, 0)],
            &[(1, 0, &[0]), (2, 0, &[0x0002_0000]), (2, 1, &[0x0001_0100])],
        )
    };
    let sent: &[Sent] = if shape == "17x2x1" {
        &THREE_WIDE_SENT
    } else {
        &THREE_SENT
    };
    Row {
        case: Case {
            shape,
            end: End::Stopped(setting, cause, moved),
            blocks,
            ..THREE
        },
        manner,
        sent,
        calls,
    }
}

/// A stop in setting 1, at this output, by a port that was sent all and asked for all.
fn second_stop(shape: &'static str, manner: Manner, calls: usize, output: u8) -> Row {
    three_stop(shape, manner, calls, 1, StopCause::SwitchDisagrees(output))
}

/// What row two-pushes leaves where no word moves.
const UNMOVED: &[Block<'static>] = &[
    (1, 0, &[0x0001_0000, 0x0001_0001]),
    (2, 0, &[0x0002_0000, 0x0002_0001]),
];

/// What a port answers in setting 1 of three-transfers, and the output that is told: another input,
/// none, and an input where there is to be none.
const SECOND: &[(Manner, u8)] = &[
    (Manner::Answers(3, 0, 0x91), 0),
    (Manner::Answers(3, 0, 0x00), 0),
    (Manner::Answers(3, 31, 0x80), 31),
];

/// Rows switch-stops and switch-answers: a port that answers nothing, and those. Each byte in place
/// of each output's answer is tried in `cuts`.
#[test]
fn ports_answer_wrongly(rt: HostRuntime) {
    let silent = stop_at(TWO, UNMOVED, &TWO_SENT, Manner::SilentFrom(0), 0);
    assert!(rt; is_right(&rt, &silent));
    for (number, (manner, output)) in SECOND.iter().enumerate() {
        let row = second_stop("3x2x1", *manner, 4, *output);
        assert!(rt; is_right(&rt, &row), "row {number}");
    }
}

/// What a port does in row wide_rack, and the output that is told. Where both switches disagree, A
/// is told. The outputs of B are numbered after those of A.
const WIDE: &[(Manner, u8)] = &[
    (Manner::Silent(2), 0),
    (Manner::Silent(3), 32),
    (Manner::SilentFrom(0), 0),
    (Manner::Answers(3, 16, 0x00), 48),
    (Manner::Answers(3, 31, 0x80), 63),
];

/// What that row leaves where no word moves.
const UNMOVED_ACROSS: &[Block<'static>] = &[(0, 0, &[0]), (0, 1, &[0x0100])];

/// What a port does in setting 1 of three-transfers, and the output that is told: A feeds output 2
/// by input 0 and no other, and B output 0 by input 2.
const SECOND_WIDE: &[(Manner, u8)] = &[
    (Manner::Answers(6, 2, 0x81), 2),
    (Manner::Answers(6, 2, 0x00), 2),
    (Manner::Answers(6, 1, 0x80), 1),
    (Manner::Answers(7, 0, 0x81), 32),
    (Manner::Answers(7, 0, 0x00), 32),
    (Manner::Answers(7, 1, 0x82), 33),
    (Manner::SilentFrom(6), 2),
    (Manner::SilentFrom(7), 32),
];

#[test]
fn wide_ports_answer_wrongly(rt: HostRuntime) {
    for (manner, output) in WIDE {
        let row = stop_at(ACROSS, UNMOVED_ACROSS, &ACROSS_SENT, *manner, *output);
        assert!(rt; is_right(&rt, &row), "{output}");
    }
    for (manner, output) in SECOND_WIDE {
        let row = second_stop("17x2x1", *manner, 8, *output);
        assert!(rt; is_right(&rt, &row), "{output}");
    }
}

/// Whether row three-transfers stops in this setting where the call fails that has so many before
/// it.
fn stops_at_call<R: AllocGlobal + Threads + Sync>(
    rt: &R,
    shape: &'static str,
    before: usize,
    setting: usize,
) -> bool {
    let calls = before.saturating_add(1);
    let row = three_stop(
        shape,
        Manner::Fails(before),
        calls,
        setting,
        StopCause::Port,
    );
    is_right(rt, &row)
}

/// Row failed-calls. A setting makes two calls, and four where there are two switches: all are set,
/// and then all are asked.
#[test]
fn a_failed_port_is_not_called_again(rt: HostRuntime) {
    for before in 0..4 {
        assert!(rt; stops_at_call(&rt, "3x2x1", before, before / 2), "{before}");
    }
    for before in 0..8 {
        assert!(rt;
            stops_at_call(&rt, "17x2x1", before, before / 4),
            "{before}"
        );
    }
}

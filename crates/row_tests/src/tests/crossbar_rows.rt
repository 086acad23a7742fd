//! The worked rows of the switch and of two, and a printed fault. What ports carry out, and fuses,
//! are tested in `runs`.

use super::prints::prints;
use c004_commands::{CommandFault, CommandReader, PortNo};
use crossbar::{Crossbar, JOINED_MODULES, PortFault, joined_wide};

/// Feeds the bytes to a reader, carries out the commands that it gives, and says what came last.
fn feed_all(
    reader: &mut CommandReader,
    crossbar: &mut Crossbar,
    bytes: &[u8],
) -> Result<Option<u8>, CommandFault> {
    let mut answer = None;
    for byte in bytes {
        match reader.feed(*byte) {
            Ok(Some(command)) => answer = crossbar.apply(command),
            Ok(None) => {}
            Err(fault) => return Err(fault),
        }
    }
    Ok(answer)
}

/// What comes of some bytes: what their last command is answered, and whether the switch is ready
/// then.
type Row = (&'static [u8], Option<u8>, bool);

/// Whether the bytes make this of a new switch.
fn come_to(bytes: &[u8], answer: Option<u8>, is_ready: bool) -> bool {
    let mut crossbar = Crossbar::new();
    feed_all(&mut CommandReader::new(), &mut crossbar, bytes) == Ok(answer)
        && crossbar.is_ready() == is_ready
}

/// Whether all these rows hold.
fn hold(rows: &[Row]) -> bool {
    for (bytes, answer, is_ready) in rows {
        if !come_to(bytes, *answer, *is_ready) {
            return false;
        }
    }
    true
}

/// Row join-and-enquire: what both ends answer.
const JOINED_AND_ENQUIRED: &[Row] = &[
    (&[0x01, 0x00, 0x11, 0x03, 0x02, 0x11], Some(0x80), true),
    (
        &[0x01, 0x00, 0x11, 0x03, 0x02, 0x11, 0x02, 0x00],
        Some(0x91),
        true,
    ),
];

#[test]
fn join_and_enquire(rt: HostRuntime) {
    assert!(rt; hold(JOINED_AND_ENQUIRED));
}

/// Whether the switch of these bytes joins module 0 to module 1 and not 1 to 0, and input 0 feeds
/// output 17.
fn join_0_to_1(bytes: &[u8]) -> bool {
    let mut crossbar = Crossbar::new();
    feed_all(&mut CommandReader::new(), &mut crossbar, bytes) == Ok(None)
        && crossbar.joined(0, 1)
        && !crossbar.joined(1, 0)
        && crossbar.source_of(PortNo::new(JOINED_MODULES + 1).unwrap()) == PortNo::new(0)
}

#[test]
fn modules_are_joined(rt: HostRuntime) {
    assert!(rt; JOINED_MODULES == 16 && join_0_to_1(&[0x01, 0x00, 0x11, 0x03]));
}

/// Row bad-commands: bytes for one reader and one switch in turn, what comes of them, and whether
/// the next byte begins a command then.
const BAD_COMMANDS: &[(&[u8], Result<Option<u8>, CommandFault>, bool)] = &[
    (&[0x02, 0x05], Ok(Some(0x00)), true),
    (&[0x07], Err(CommandFault::UnknownCommand(7)), true),
    (&[0x00], Ok(None), false),
    (&[0x20], Err(CommandFault::BadPort(32)), true),
    (&[0x00], Ok(None), false),
];

/// Whether they come so.
fn are_refused(crossbar: &mut Crossbar) -> bool {
    let mut reader = CommandReader::new();
    for (bytes, wanted, at_rest) in BAD_COMMANDS {
        if feed_all(&mut reader, crossbar, bytes) != *wanted || reader.at_rest() != *at_rest {
            return false;
        }
    }
    true
}

#[test]
fn bad_commands(rt: HostRuntime) {
    let mut crossbar = Crossbar::new();
    let is_left = are_refused(&mut crossbar) && crossbar.is_ready();
    assert!(rt; is_left && crossbar.source_of(PortNo::new(0).unwrap()).is_none());
}

/// Row connect-and-cut, up to the connection. One input feeds two outputs, and the last input of an
/// output is the one that feeds it.
const FED: &[Row] = &[
    (&[0x00, 0x03, 0x07, 0x02, 0x07], Some(0x83), false),
    (&[0x00, 0x03, 0x07, 0x02, 0x03], Some(0x00), false),
    (
        &[0x00, 0x03, 0x07, 0x00, 0x03, 0x08, 0x02, 0x07],
        Some(0x83),
        false,
    ),
    (
        &[0x00, 0x03, 0x07, 0x00, 0x04, 0x07, 0x02, 0x07],
        Some(0x84),
        false,
    ),
    (&[0x00, 0x03, 0x07, 0x03], None, true),
];

#[test]
fn an_input_feeds_an_output(rt: HostRuntime) {
    assert!(rt; hold(FED));
}

/// Row connect-and-cut, after the connection. To cut output 3 isn't to cut what input 3 feeds, nor
/// is what the same input feeds.
const CUT: &[Row] = &[
    (&[0x00, 0x03, 0x07, 0x05, 0x07], None, false),
    (
        &[0x00, 0x03, 0x07, 0x05, 0x07, 0x02, 0x07],
        Some(0x00),
        false,
    ),
    (
        &[0x00, 0x03, 0x07, 0x05, 0x03, 0x02, 0x07],
        Some(0x83),
        false,
    ),
    (
        &[0x00, 0x03, 0x07, 0x00, 0x03, 0x08, 0x05, 0x08, 0x02, 0x07],
        Some(0x83),
        false,
    ),
    (&[0x05, 0x07], None, true),
];

#[test]
fn an_output_is_cut(rt: HostRuntime) {
    assert!(rt; hold(CUT));
}

const LINKS_JOINED: &[Row] = &[
    (&[0x01, 0x03, 0x07, 0x02, 0x07], Some(0x83), false),
    (&[0x01, 0x03, 0x07, 0x02, 0x03], Some(0x87), false),
    (&[0x01, 0x05, 0x05, 0x02, 0x05], Some(0x85), false),
];

#[test]
fn two_links_are_joined(rt: HostRuntime) {
    assert!(rt; hold(LINKS_JOINED));
}

/// What the inputs of the two links feed elsewhere stays.
const LINKS_CUT: &[Row] = &[
    (
        &[0x01, 0x03, 0x07, 0x06, 0x03, 0x07, 0x02, 0x03],
        Some(0x00),
        false,
    ),
    (
        &[0x01, 0x03, 0x07, 0x06, 0x03, 0x07, 0x02, 0x07],
        Some(0x00),
        false,
    ),
    (
        &[0x00, 0x03, 0x07, 0x06, 0x03, 0x04, 0x02, 0x07],
        Some(0x83),
        false,
    ),
    (&[0x06, 0x03, 0x07], None, true),
];

#[test]
fn two_links_are_cut(rt: HostRuntime) {
    assert!(rt; hold(LINKS_CUT));
}

const RESET: &[Row] = &[
    (&[0x00, 0x03, 0x07, 0x04], None, true),
    (&[0x00, 0x03, 0x07, 0x04, 0x02, 0x07], Some(0x00), true),
];

#[test]
fn a_reset_cuts_all(rt: HostRuntime) {
    assert!(rt; hold(RESET));
}

/// Whether a switch that connects input 16 to output 0 and one of these bytes join module 16 to
/// module 0.
fn join_wide(back: &[u8]) -> bool {
    let mut a = Crossbar::new();
    let mut b = Crossbar::new();
    feed_all(&mut CommandReader::new(), &mut a, &[0x00, 0x10, 0x00, 0x03]) == Ok(None)
        && feed_all(&mut CommandReader::new(), &mut b, back) == Ok(None)
        && joined_wide(&a, &b, 16, 0)
}

/// Neither way is enough, nor a switch that isn't ready.
#[test]
fn both_ways_join(rt: HostRuntime) {
    assert!(rt; !join_wide(&[]) && !join_wide(&[0x00, 0x10, 0x00, 0x03]));
    assert!(rt; !join_wide(&[0x00, 0x00, 0x10]) && join_wide(&[0x00, 0x00, 0x10, 0x03]));
}

#[test]
fn faults_are_printed(rt: HostRuntime) {
    assert!(rt; prints(rt.alloc(), &PortFault, "the port to the switch failed"));
}

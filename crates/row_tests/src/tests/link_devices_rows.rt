//! A switch at two streams: the order in which it reads and answers, what it tells of bytes that
//! are no command, and each way in which a stream fails.

use super::prints::prints;
use super::streams::{Sender, Taker};
use c004_commands::CommandFault;
use link_devices::{EndFault, SwitchEnd, answer_commands};
use std::alloc::Global;
use std::io::{Error, ErrorKind};
use std::sync::atomic::{AtomicUsize, Ordering};

/// Enquiries of output 17 before and after a join, a byte that begins no command, and an enquiry
/// of output 0: each byte with the number of replies that are due before it.
const SENT: [(u8, usize); 11] = [
    (0x02, 0),
    (0x11, 0),
    (0x01, 1),
    (0x00, 1),
    (0x11, 1),
    (0x02, 1),
    (0x11, 1),
    (0x2a, 2),
    (0x02, 2),
    (0x00, 2),
    (0x03, 3),
];

/// What is told of the byte that begins no command.
const TOLD: &str = "exchange: standard input: byte 8 is 2a; commands begin with 00 to 06\n";

/// Attends a new end, where the reader fails at a byte and the writer takes so many: whether no
/// byte was read before all replies that were due had been flushed, and just this is told beside
/// the replies; these, with zeros after them, and how it ended.
fn attends(
    alloc: Global,
    flushed: &AtomicUsize,
    fails_at: usize,
    room: usize,
    wanted: &str,
) -> (bool, [u8; 4], Result<(), EndFault>) {
    let mut reader = Sender::of(&SENT, flushed);
    reader.fails_at = fails_at;
    let mut writer = Taker::of(room, flushed);
    let (mut end, mut told) = (SwitchEnd::new(), Vec::new(alloc));
    let ended = answer_commands(&mut end, &mut reader, &mut writer, &mut told);
    let (replies, _) = writer.taken();
    let is_told = told.as_slice() == wanted.as_bytes();
    (reader.is_in_order() && is_told, replies, ended)
}

#[test]
fn answers_before_the_next_byte(rt: HostRuntime) {
    let flushed = AtomicUsize::new(0);
    let (is_right, replies, ended) = attends(rt.alloc(), &flushed, usize::MAX, 4, TOLD);
    let are_answered = is_right && replies == [0x00, 0x80, 0x91, 0x00] && ended.is_ok();
    assert!(rt; are_answered && flushed.load(Ordering::SeqCst) == 3);
}

#[test]
fn a_read_fails(rt: HostRuntime) {
    let flushed = AtomicUsize::new(0);
    let (is_right, _, ended) = attends(rt.alloc(), &flushed, 4, 4, "");
    let has_failed = is_right && matches!(ended, Err(EndFault::Read(_)));
    assert!(rt; has_failed && flushed.load(Ordering::SeqCst) == 1);
}

#[test]
fn a_write_fails(rt: HostRuntime) {
    let flushed = AtomicUsize::new(0);
    let (is_right, _, ended) = attends(rt.alloc(), &flushed, usize::MAX, 1, "");
    let has_failed = is_right && matches!(ended, Err(EndFault::Write(_)));
    assert!(rt; has_failed && flushed.load(Ordering::SeqCst) == 1);
}

/// Whether a new end answers these bytes so, and tells this beside.
fn answers(alloc: Global, bytes: &[u8], replies: &[u8], told: &str) -> bool {
    let (mut end, mut input) = (SwitchEnd::new(), bytes);
    let (mut out, mut err) = (Vec::new(alloc), Vec::new(alloc));
    answer_commands(&mut end, &mut input, &mut out, &mut err).is_ok()
        && out.as_slice() == replies
        && err.as_slice() == told.as_bytes()
}

#[test]
fn bytes_that_are_no_command(rt: HostRuntime) {
    let told =
        "exchange: standard input: byte 3 is 20; ports are 00 to 1f, and the command is dropped\n";
    let alloc = rt.alloc();
    let are_answered = answers(alloc, &[0x01, 0x00, 0x20, 0x02, 0x00], &[0x00], told)
        && answers(alloc, &[0x00, 0x05, 0x06, 0x02, 0x06, 0x02], &[0x85], "")
        && answers(alloc, &[], &[], "");
    assert!(rt; are_answered);
}

#[test]
fn taken_bytes(rt: HostRuntime) {
    let mut end = SwitchEnd::new();
    let are_taken = end.take(0x05) == Ok(None)
        && end.take(0xff) == Err(CommandFault::BadPort(0xff))
        && end.take(0x02) == Ok(None)
        && end.take(0x1f) == Ok(Some(0x00));
    assert!(rt; are_taken);
}

#[test]
fn printed_faults(rt: HostRuntime) {
    let alloc = rt.alloc();
    let read = EndFault::Read(Error::from(ErrorKind::IsADirectory));
    let write = EndFault::Write(Error::from(ErrorKind::BrokenPipe));
    let are_printed = prints(alloc, &read, "the input can't be read: is a directory")
        && prints(alloc, &write, "an answer can't be written: broken pipe");
    assert!(rt; are_printed);
}

//! Bytes that are written whole and cut short, and read to the end.

use super::streams::{Sender, Taker};
use byte_streams::{read_byte, write_byte, write_bytes};
use std::io;
use std::io::ErrorKind;
use std::sync::atomic::AtomicUsize;

/// What came of a call, and where it failed, of which kind the failure was.
fn outcome<T: Drop>(tried: io::Result<T>) -> Result<T, ErrorKind> {
    match tried {
        Ok(value) => Ok(value),
        Err(error) => Err(error.kind()),
    }
}

#[test]
fn written_bytes(rt: HostRuntime) {
    let flushed = AtomicUsize::new(0);
    let mut writer = Taker::of(4, &flushed);
    let are_written = outcome(write_bytes(&mut writer, &[7, 8, 9])) == Ok(())
        && writer.taken() == ([7, 8, 9, 0], 3)
        && writer.has_flushed(3)
        && outcome(write_byte(&mut writer, 6)) == Ok(())
        && writer.taken() == ([7, 8, 9, 6], 4)
        && writer.has_flushed(3)
        && outcome(write_byte(&mut writer, 5)) == Err(ErrorKind::BrokenPipe);
    assert!(rt; are_written);
}

#[test]
fn bytes_cut_short(rt: HostRuntime) {
    let flushed = AtomicUsize::new(0);
    let mut writer = Taker::of(2, &flushed);
    let mut full = [0; 0];
    let are_cut_short = outcome(write_bytes(&mut writer, &[7, 8, 9])) == Err(ErrorKind::BrokenPipe)
        && writer.taken() == ([7, 8, 0, 0], 2)
        && writer.has_flushed(0)
        && outcome(write_byte(&mut &mut full[..], 7)) == Err(ErrorKind::WriteZero);
    assert!(rt; are_cut_short);
}

/// Two bytes, before which no reply is due.
const TWO: [(u8, usize); 2] = [(7, 0), (8, 0)];

/// What comes of a read.
type Read = Result<Option<u8>, ErrorKind>;

const BOTH: &[Read] = &[Ok(Some(7)), Ok(Some(8)), Ok(None)];

const FAILING: &[Read] = &[Ok(Some(7)), Err(ErrorKind::BrokenPipe)];

/// Whether these come of as many reads.
fn come(reader: &mut Sender<'_>, wanted: &[Read]) -> bool {
    for read in wanted {
        if outcome(read_byte(reader)) != *read {
            return false;
        }
    }
    true
}

#[test]
fn read_bytes(rt: HostRuntime) {
    let flushed = AtomicUsize::new(0);
    let mut reader = Sender::of(&TWO, &flushed);
    let mut failing = Sender::of(&TWO, &flushed);
    failing.fails_at = 1;
    assert!(rt; come(&mut reader, BOTH) && come(&mut failing, FAILING));
}

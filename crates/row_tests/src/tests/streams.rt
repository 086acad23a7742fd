//! Streams that note in which order they are read and written, and that fail where they are told
//! to.

use std::io;
use std::io::{ErrorKind, Read, Write};
use std::sync::atomic::{AtomicUsize, Ordering};

/// Gives bytes, and notes whether each comes when the replies to what came before it have been
/// flushed. Each read is interrupted once.
#[derive(Drop)]
pub(super) struct Sender<'a> {
    /// What it gives: each byte with the number of replies that are due before it.
    pub(super) bytes: &'static [(u8, usize)],
    /// Where it fails, if it does.
    pub(super) fails_at: usize,
    /// How many replies have been flushed.
    pub(super) flushed: &'a AtomicUsize,
    at: usize,
    is_interrupted: bool,
    is_early: bool,
}

impl<'a> Sender<'a> {
    pub(super) fn of(bytes: &'static [(u8, usize)], flushed: &'a AtomicUsize) -> Sender<'a> {
        Sender {
            bytes,
            fails_at: usize::MAX,
            flushed,
            at: 0,
            is_interrupted: false,
            is_early: false,
        }
    }

    /// Whether it was read one byte at a time, and each time when all that was due had been
    /// flushed.
    pub(super) fn is_in_order(&self) -> bool {
        !self.is_early
    }
}

impl Read for Sender<'_> {
    fn read(&mut self, buf: &mut [u8]) -> io::Result<usize> {
        self.is_interrupted = !self.is_interrupted;
        if self.is_interrupted {
            return Err(io::Error::from(ErrorKind::Interrupted));
        }
        if self.at == self.fails_at {
            return Err(io::Error::from(ErrorKind::BrokenPipe));
        }
        let (Some((byte, due)), [only]) = (self.bytes.get(self.at), buf) else {
            return Ok(0);
        };
        if self.flushed.load(Ordering::SeqCst) != *due {
            self.is_early = true;
        }
        *only = *byte;
        self.at += 1;
        Ok(1)
    }
}

/// Takes bytes one at a time, so many in all, and notes how many have been flushed. Each write is
/// interrupted once.
#[derive(Drop)]
pub(super) struct Taker<'a> {
    /// How many bytes it takes before it fails.
    pub(super) room: usize,
    /// How many bytes have been flushed.
    pub(super) flushed: &'a AtomicUsize,
    bytes: [u8; 4],
    count: usize,
    is_interrupted: bool,
}

impl<'a> Taker<'a> {
    pub(super) fn of(room: usize, flushed: &'a AtomicUsize) -> Taker<'a> {
        Taker {
            room,
            flushed,
            bytes: [0; 4],
            count: 0,
            is_interrupted: false,
        }
    }

    /// The bytes that it took, with zeros after them, and how many they are.
    pub(super) fn taken(&self) -> ([u8; 4], usize) {
        (self.bytes, self.count)
    }

    /// Whether so many have been flushed.
    pub(super) fn has_flushed(&self, count: usize) -> bool {
        self.flushed.load(Ordering::SeqCst) == count
    }
}

impl Write for Taker<'_> {
    fn write(&mut self, buf: &[u8]) -> io::Result<usize> {
        self.is_interrupted = !self.is_interrupted;
        if self.is_interrupted {
            return Err(io::Error::from(ErrorKind::Interrupted));
        }
        if self.count >= self.room {
            return Err(io::Error::from(ErrorKind::BrokenPipe));
        }
        let (Some(place), Some(byte)) = (self.bytes.get_mut(self.count), buf.first()) else {
            return Ok(0);
        };
        *place = *byte;
        self.count += 1;
        Ok(1)
    }

    fn flush(&mut self) -> io::Result<()> {
        self.flushed.store(self.count, Ordering::SeqCst);
        Ok(())
    }
}

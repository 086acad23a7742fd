//! What a client says and is to hear, and a reader and a writer that say and hear it.

use client_session::ServeFault;
use std::io;
use std::io::{Read, Write};
use std::sync::atomic::{AtomicUsize, Ordering};

/// How a reader hands out its text.
#[derive(Clone, Copy)]
pub struct Reading {
    /// How often it hands out the text.
    pub times: usize,
    /// How many bytes it hands out at most at a `read`.
    pub step: usize,
    /// Whether it hands out a line at most.
    pub by_line: bool,
    /// After how many of these it fails, once.
    pub fails_at: usize,
    /// How many replies were flushed at each `read`. An empty list says nothing of this.
    pub flushed: &'static [usize],
    /// How often it is to be asked, where that is known.
    pub asked: Option<usize>,
}

/// A reader that hands out its text once, as much as there is room for, and doesn't fail.
pub const AT_ONCE: Reading = Reading {
    times: 1,
    step: usize::MAX,
    by_line: false,
    fails_at: usize::MAX,
    flushed: &[],
    asked: None,
};

/// What a writer does, once, when it has no room.
#[derive(Clone, Copy)]
pub enum Full {
    Fails,
    TakesNothing,
}

/// How a writer takes what is written.
#[derive(Clone, Copy)]
pub struct Writing {
    /// How often it is to take its text.
    pub times: usize,
    /// How many bytes it takes at most at a `write`.
    pub step: usize,
    /// How many it has room for.
    pub room: usize,
    /// What it does then. After that it has room again.
    pub full: Full,
    /// Whether it fails when it is first flushed.
    pub flush_fails: bool,
}

/// A writer that takes all that is written.
pub const ALL: Writing = Writing {
    times: 1,
    step: usize::MAX,
    room: usize::MAX,
    full: Full::Fails,
    flush_fails: false,
};

/// What a client says and is to hear, how its session is to end, and how many entries it is to add.
#[derive(Clone, Copy)]
pub struct Script {
    pub says: &'static str,
    pub hears: &'static str,
    pub fault: Option<ServeFault>,
    pub entries: usize,
    pub reading: Reading,
    pub writing: Writing,
}

impl Script {
    /// A client that says this, is to hear that, and adds so many entries. Its session ends by
    /// itself, over a reader and a writer that don't fail.
    pub fn of(says: &'static str, hears: &'static str, entries: usize) -> Script {
        Script {
            says,
            hears,
            fault: None,
            entries,
            reading: AT_ONCE,
            writing: ALL,
        }
    }

    /// This script, where the session ends by this fault.
    pub fn ending(self, fault: ServeFault) -> Script {
        let mut script = self;
        script.fault = Some(fault);
        script
    }

    /// This script, over another reader.
    pub fn reading(self, reading: Reading) -> Script {
        let mut script = self;
        script.reading = reading;
        script
    }

    /// This script, over another writer.
    pub fn writing(self, writing: Writing) -> Script {
        let mut script = self;
        script.writing = writing;
        script
    }
}

/// The reader of a client.
#[derive(Clone, Copy)]
pub struct Speaker<'a> {
    rest: &'static [u8],
    says: &'static [u8],
    reading: Reading,
    pub reads: usize,
    flushed: &'a AtomicUsize,
    is_early: bool,
}

impl<'a> Speaker<'a> {
    pub fn of(script: &Script, flushed: &'a AtomicUsize) -> Speaker<'a> {
        Speaker {
            rest: script.says.as_bytes(),
            says: script.says.as_bytes(),
            reading: script.reading,
            reads: 0,
            flushed,
            is_early: false,
        }
    }

    /// Whether it was asked when it was to be asked, and as often.
    pub fn is_right(&self) -> bool {
        match self.reading.asked {
            Some(asked) => !self.is_early && self.reads == asked,
            None => !self.is_early,
        }
    }

    /// Sees how many replies were flushed.
    fn look(&mut self) {
        if let Some(wanted) = self.reading.flushed.get(self.reads) {
            if *wanted != self.flushed.load(Ordering::SeqCst) {
                self.is_early = true;
            }
        }
        self.reads = self.reads.saturating_add(1);
    }

    /// How many bytes it hands out, where there is room for them.
    fn next_len(&self) -> usize {
        if !self.reading.by_line {
            return self.rest.len().min(self.reading.step);
        }
        match self.rest.iter().position(|byte| *byte == b'\n') {
            Some(place) => place.saturating_add(1).min(self.rest.len()),
            None => self.rest.len(),
        }
    }
}

impl Read for Speaker<'_> {
    fn read(&mut self, buf: &mut [u8]) -> io::Result<usize> {
        if self.reads >= self.reading.fails_at {
            self.reading.fails_at = usize::MAX;
            return Err(io::ErrorKind::Other.into());
        }
        self.look();
        if self.rest.is_empty() && self.reading.times > 1 {
            self.reading.times -= 1;
            self.rest = self.says;
        }
        let count = self.next_len().min(buf.len()).min(self.rest.len());
        buf[..count].copy_from_slice(&self.rest[..count]);
        self.rest = &self.rest[count..];
        Ok(count)
    }
}

/// The writer of a client, which takes no memory.
#[derive(Clone, Copy)]
pub struct Listener<'a> {
    rest: &'static [u8],
    hears: &'static [u8],
    writing: Writing,
    /// Whether the last line is at its end, and how many lines are.
    is_between: bool,
    lines: usize,
    flushed: &'a AtomicUsize,
    is_wrong: bool,
}

impl<'a> Listener<'a> {
    pub fn of(script: &Script, flushed: &'a AtomicUsize) -> Listener<'a> {
        Listener {
            rest: script.hears.as_bytes(),
            hears: script.hears.as_bytes(),
            writing: script.writing,
            is_between: true,
            lines: 0,
            flushed,
            is_wrong: false,
        }
    }

    /// Whether it has heard what it was to hear, and no line was begun before those in front of it
    /// were flushed.
    pub fn is_right(&self) -> bool {
        !self.is_wrong && self.rest.is_empty() && self.writing.times <= 1
    }

    /// Whether all its lines were flushed.
    pub fn is_flushed(&self) -> bool {
        self.lines == self.flushed.load(Ordering::SeqCst)
    }

    /// Hears a byte.
    fn hear(&mut self, byte: u8) {
        if self.rest.is_empty() && self.writing.times > 1 {
            self.writing.times -= 1;
            self.rest = self.hears;
        }
        match self.rest.split_first() {
            Some((wanted, rest)) => {
                self.is_wrong = self.is_wrong || *wanted != byte;
                self.rest = rest;
            }
            None => self.is_wrong = true,
        }
        self.is_between = byte == b'\n';
        if self.is_between {
            self.lines = self.lines.saturating_add(1);
        }
    }
}

impl Write for Listener<'_> {
    fn write(&mut self, buf: &[u8]) -> io::Result<usize> {
        let count = buf.len().min(self.writing.step).min(self.writing.room);
        if count == 0 {
            self.writing.room = usize::MAX;
            return match self.writing.full {
                Full::Fails => Err(io::ErrorKind::Other.into()),
                Full::TakesNothing => Ok(0),
            };
        }
        self.writing.room -= count;
        if self.is_between && !self.is_flushed() {
            self.is_wrong = true;
        }
        for byte in &buf[..count] {
            self.hear(*byte);
        }
        Ok(count)
    }

    fn flush(&mut self) -> io::Result<()> {
        if self.writing.flush_fails {
            self.writing.flush_fails = false;
            return Err(io::ErrorKind::Other.into());
        }
        self.flushed.store(self.lines, Ordering::SeqCst);
        Ok(())
    }
}

//! Readers, and how often they are asked.

ghost use Rattle.std.specs.Prelude.{ℕ, List, Option, Some, None};
ghost use Rattle.std.specs.Io.{ReadsAtMost};
ghost use Rattle.std.specs.Io.KnownBytes.{ReadConsumes};
ghost use Rattle.client_session.specs.Asking.{RisesBy};

use byte_streams::FailureCount;
use std::io;
use std::io::Read;

/// What a session reads from: any reader. Of a [`CountedReader`] contracts know how often it was
/// asked.
pub trait CountedRead {
    // The bytes that it will give from here on, where they are known.
    ghost remaining: { Self → Option (List ℕ) };

    // How often it was asked, where that is known.
    ghost asked: { Self → Option ℕ };

    /// Asks for bytes, as `Read::read` does.
    fn ask(&mut self, buf: &mut [u8]) -> io::Result<usize>
        ensures bound { ReadsAtMost result buf.new }
        ensures bytes { ReadConsumes (remaining self.old) (remaining self.new) result buf.new }
        ensures asked { RisesBy (asked self.old) (asked self.new) 1 };
}

impl<I: Read> CountedRead for I {
    ghost remaining = { λ reader. I.remaining reader };

    ghost asked = { λ _. None };

    fn ask(&mut self, buf: &mut [u8]) -> io::Result<usize> {
        self.read(buf)
    }
}

/// A reader that counts how often it is asked, whatever it answers.
#[derive(Drop)]
pub struct CountedReader<I> {
    /// The reader.
    pub reader: I,
    /// A count that contracts alone see.
    pub count: FailureCount,
}

impl<I: Read> CountedRead for CountedReader<I> {
    ghost remaining = { λ counted. I.remaining counted.reader };

    ghost asked = { λ counted. Some counted.count };

    fn ask(&mut self, buf: &mut [u8]) -> io::Result<usize> {
        self.count.raise();
        self.reader.read(buf)
    }
}

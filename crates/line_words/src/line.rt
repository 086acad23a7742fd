//! A line that takes no memory.

ghost use Rattle.std.specs.Prelude.{◌≡◌, ◌≤◌, ◌<◌, ◌+◌, ◌++◌, ◌∷◌, [], length};
ghost use Rattle.std.specs.Fmt.{decimal};
ghost use Rattle.line_words.specs.HexWords.{hex8};

use crate::hex::hex8_of;
use crate::limits::{HEX_DIGITS, LINE_ROOM, NUMBER_ROOM};
use std::marker::Model;

/// The bytes of a line so far, at most [`LINE_ROOM`] of them. They lie in the line itself.
#[derive(Drop)]
pub struct Line {
    bytes: [u8; LINE_ROOM],
    len: usize,
}

impl Model for Line {
    ghost use Rattle.std.specs.Prelude.{ℕ, List, ◌≤◌, take};
    ghost use Rattle.line_words.specs.declared.limits.TheConstants.{LINE_ROOM};

    ghost Value = { List ℕ };

    ghost view = { λ line. take line.len line.bytes };

    ghost invariant = { λ line. line.len ≤ LINE_ROOM };
}

impl Default for Line {
    fn default() -> Line
        ensures { result ≡ [] }
    {
        Line::new()
    }
}

impl Line {
    /// No bytes.
    pub fn new() -> Line
        ensures { result ≡ [] }
    {
        Line {
            bytes: [0; LINE_ROOM],
            len: 0,
        }
    }

    /// No bytes again.
    pub fn clear(&mut self)
        ensures { self.new ≡ [] }
    {
        self.len = 0;
    }

    /// The bytes.
    pub fn as_bytes(&self) -> &[u8]
        ensures bytes { result.now ≡ self.now }
        ensures room { length self.now ≤ LINE_ROOM }
    {
        &self.bytes[..self.len]
    }

    /// Puts a byte after the others.
    fn push(&mut self, byte: u8)
        requires { length self.old < LINE_ROOM }
        ensures { self.new ≡ self.old ++ byte ∷ [] }
    {
        self.bytes[self.len] = byte;
        self.len += 1;
    }

    /// Puts these bytes after the others. Takes time by their number.
    pub fn put(&mut self, text: &[u8])
        requires { length self.old + length text.now ≤ LINE_ROOM }
        ensures { self.new ≡ self.old ++ text.now }
    {
        let end = self.len + text.len();
        self.bytes[self.len..end].copy_from_slice(text);
        self.len = end;
    }

    /// Puts the digits of a number after the others.
    fn put_digits(&mut self, n: u64)
        requires { length self.old + length (decimal n) ≤ LINE_ROOM }
        ensures { self.new ≡ self.old ++ decimal n }
    {
        if n < 10 {
            self.push(b'0' + n as u8);
            return;
        }
        self.put_digits(n / 10);
        self.push(b'0' + (n % 10) as u8);
    }

    /// Puts a number after the others, in decimal digits.
    pub fn put_number(&mut self, n: u64)
        requires { length self.old + NUMBER_ROOM ≤ LINE_ROOM }
        ensures text { self.new ≡ self.old ++ decimal n }
        ensures room { length self.new ≤ length self.old + NUMBER_ROOM }
    {
        self.put_digits(n);
    }

    /// Puts words and a number after the others.
    pub fn put_numbered(&mut self, words: &[u8], n: usize)
        requires { length self.old + (length words.now + NUMBER_ROOM) ≤ LINE_ROOM }
        ensures text { self.new ≡ self.old ++ (words.now ++ decimal n) }
        ensures room { length self.new ≤ length self.old + (length words.now + NUMBER_ROOM) }
    {
        self.put(words);
        self.put_number(n as u64);
    }

    /// Puts a word after the others, in eight hexadecimal digits.
    pub fn put_hex8(&mut self, word: u32)
        requires { length self.old + HEX_DIGITS ≤ LINE_ROOM }
        ensures text { self.new ≡ self.old ++ hex8 word }
        ensures room { length self.new ≡ length self.old + HEX_DIGITS }
    {
        self.put(&hex8_of(word));
    }
}

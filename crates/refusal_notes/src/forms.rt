//! The forms that lines may have, in English, and where a line stops being of one.
//!
//! A form stands between two backticks. A space stands between its words. A word of one letter, or
//! `ID`, is a number; but `A` and `D` are eight hexadecimal digits each, and `U` is more numbers,
//! or none, up to the line's end. `at_A` and `at_B` are `at` and a number, or `none`. Each other
//! word is itself.

use crate::quote::Quote;
use batch::number_from_digits;
use std::fmt::{self, Display, Formatter, Write};

/// A token: what is expected at a byte of a line, or found there.
#[derive(Clone, Copy)]
pub(crate) enum Token {
    /// This byte.
    Byte(u8),
    /// A number.
    Number,
    /// Eight hexadecimal digits.
    Hex8,
    /// The three bytes of a byte order mark.
    Mark,
    /// A carriage return at the end of the line.
    Return,
    /// The line's end.
    End,
}

impl Token {
    /// What these bytes begin with.
    pub(crate) fn first_of(bytes: &[u8]) -> Token {
        match bytes {
            [] => Token::End,
            [b'\r'] => Token::Return,
            [0xef, 0xbb, 0xbf, ..] => Token::Mark,
            [byte, ..] => Token::Byte(*byte),
        }
    }
}

impl Display for Token {
    fn fmt<W: Write>(&self, f: &mut Formatter<W>) -> fmt::Result {
        f.write_str(match *self {
            Token::Byte(b' ') => "a space",
            Token::Byte(b'\t') => "a tab",
            Token::Byte(b'\r') | Token::Return => "a carriage return",
            Token::Byte(b'#') => "a comment",
            Token::Byte(byte) => return Quote(&[byte]).fmt(f),
            Token::Number => "a number",
            Token::Hex8 => "eight digits",
            Token::Mark => "a byte order mark",
            Token::End => "the end of the line",
        })
    }
}

/// Where a line stops being of a form: the token that is expected there, and what is found from
/// there on.
pub(crate) type FormMismatch<'a> = (Token, &'a [u8]);

/// What stands after these words, where a line begins with them.
fn after_words<'a>(line: &'a [u8], words: &[u8]) -> Result<&'a [u8], FormMismatch<'a>> {
    let mut rest = line;
    for byte in words {
        match rest {
            [first, after @ ..] if first == byte => rest = after,
            _ => return Err((Token::Byte(*byte), rest)),
        }
    }
    Ok(rest)
}

/// What stands after a number.
fn after_number(line: &[u8]) -> Result<&[u8], FormMismatch<'_>> {
    let end = line.iter().position(|b| !b.is_ascii_digit());
    let (digits, after) = line.split_at(end.unwrap_or(line.len()));
    match number_from_digits(digits) {
        Some(_) => Ok(after),
        None => Err((Token::Number, line)),
    }
}

/// What stands after eight hexadecimal digits.
fn after_hex8(line: &[u8]) -> Result<&[u8], FormMismatch<'_>> {
    let end = line
        .iter()
        .position(|b| !b.is_ascii_digit() && !(*b >= b'a' && *b <= b'f'));
    match line.split_at(end.unwrap_or(line.len())) {
        (digits, after) if digits.len() == 8 => Ok(after),
        _ => Err((Token::Hex8, line)),
    }
}

/// Where numbers, each of them after a space, don't fill a line, if they don't.
fn stop_of_numbers(line: &[u8]) -> Result<(), FormMismatch<'_>> {
    let mut rest = line;
    for _ in 0..line.len() {
        if rest.is_empty() {
            break;
        }
        rest = after_number(after_words(rest, b" ")?)?;
    }
    Ok(())
}

/// What stands after a word of a form.
fn after_word<'a>(line: &'a [u8], word: &[u8]) -> Result<&'a [u8], FormMismatch<'a>> {
    match (word, line) {
        (b"at_A" | b"at_B", [b'n', ..]) => after_words(line, b"none"),
        (b"at_A" | b"at_B", _) => after_number(after_words(line, b"at ")?),
        (b"A" | b"D", _) => after_hex8(line),
        (b"ID" | [b'A'..=b'z'], _) => after_number(line),
        _ => after_words(line, word),
    }
}

/// Where a line stops being of a form, if it does.
fn stop_of<'a>(line: &'a [u8], form: &str) -> Result<(), FormMismatch<'a>> {
    let mut rest = line;
    for (k, word) in form.split(' ').enumerate() {
        if word == "U" {
            return stop_of_numbers(rest);
        }
        if k > 0 {
            rest = after_words(rest, b" ")?;
        }
        rest = after_word(rest, word.as_bytes())?;
    }
    match rest {
        [] => Ok(()),
        _ => Err((Token::End, rest)),
    }
}

/// Where a line stops being of that of some forms of which it is the longest; nothing where it is
/// of one, or there is none.
pub(crate) fn last_stop<'a>(line: &'a [u8], forms: &str) -> Option<FormMismatch<'a>> {
    let mut last: Option<FormMismatch<'a>> = None;
    for form in forms.split('`').skip(1).step_by(2) {
        let stop = stop_of(line, form).err()?;
        last = match last {
            Some(last) if last.1.len() <= stop.1.len() => Some(last),
            _ => Some(stop),
        };
    }
    last
}

/// Writes forms as they are told.
pub(crate) fn write_forms<W: Write>(f: &mut Formatter<W>, forms: &str) -> fmt::Result {
    for c in forms.chars() {
        f.write_char(match c {
            '`' => '"',
            '_' => ' ',
            _ => c,
        })?;
    }
    Ok(())
}

//! The words of a line, read from the left. Each reader gives what it has read, and the rest.

ghost use Rattle.std.specs.Prelude.{◌≡◌, ◌≢◌, ℕ, List, ◌∷◌, ◌++◌, IfSome, IfNone, MatchOption};
ghost use Rattle.std.specs.Fmt.{decimal};
ghost use Rattle.batch.specs.Text.{BeginsWithNoNumber, IsNumber, number, space};
ghost use Rattle.line_words.specs.HexWords.{IsWord, hex8, BeginsWithNoHex8};

use crate::hex::word_from_hex8;
use crate::limits::HEX_DIGITS;
use batch::{number_from_digits, position_of};

/// What stands after these bytes, where the line begins with them.
pub fn rest_after<'a>(line: &'a [u8], front: &[u8]) -> Option<&'a [u8]>
    ensures { MatchOption result ((rest : List ℕ) → line.entry.now ≢ front.now ++ rest)
        (λ rest. line.entry.now ≡ front.now ++ rest.now) }
{
    line.strip_prefix(front)
}

/// The number after a word, where the line is just that.
pub fn number_after(line: &[u8], word: &[u8]) -> Option<usize>
    ensures some { IfSome result (λ n. IsNumber n × (line.now ≡ word.now ++ decimal n)) }
    ensures none { IfNone result ((n : ℕ) → IsNumber n → line.now ≢ word.now ++ decimal n) }
{
    let digits = rest_after(line, word)?;
    number_from_digits(digits)
}

/// A number with a space after it, and the rest.
pub fn number_and_rest(line: &[u8]) -> Option<(usize, &[u8])>
    ensures some { IfSome result (λ x. IsNumber x.0 × (line.now ≡ number x.0 space ++ x.1.now)) }
    ensures none { IfNone result (BeginsWithNoNumber line.now space) }
{
    let at = position_of(line, b' ')?;
    let n = number_from_digits(&line[..at])?;
    Some((n, &line[at + 1..]))
}

/// A word in eight hexadecimal digits with a space after it, and the rest.
pub fn hex8_and_rest(line: &[u8]) -> Option<(u32, &[u8])>
    ensures some { IfSome result (λ x. IsWord x.0 × (line.now ≡ hex8 x.0 ++ space ∷ x.1.now)) }
    ensures none { IfNone result (BeginsWithNoHex8 line.now space) }
{
    if line.len() <= HEX_DIGITS {
        return None;
    }
    if line[HEX_DIGITS] != b' ' {
        return None;
    }
    let word = word_from_hex8(&line[..HEX_DIGITS])?;
    Some((word, &line[HEX_DIGITS + 1..]))
}

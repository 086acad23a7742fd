//! How the text of a record begins, by the lines of sums.

ghost use Rattle.std.specs.Prelude.{◌≡◌, ◌≤◌, ◌+◌, ◌++◌, ◌∷◌, ◌↔◌, ℕ, All, IfSome, IfNone, IsTrue};
ghost use Rattle.std.specs.Prelude.{length};
ghost use Rattle.batch.specs.Text.{line_feed};
ghost use Rattle.client_session.specs.Bytes.{HasNoFeed};
ghost use Rattle.line_words.specs.declared.limits.TheConstants.{LINE_ROOM};
ghost use Rattle.book_record.specs.Fronts.{StandsInFront, IsLineByte, IsTorn, IsUnfinished};
ghost use Rattle.book_record.specs.Fronts.{end_line, last_lines};
ghost use Rattle.book_record.specs.Sums.{HasNoMark, sum_mark, numbered};
ghost use Rattle.book_record.specs.declared.sum.TheConstants.{SUM_ROOM};

use crate::sum::{sum_at, sum_line};
use batch::position_of;
use line_words::{Line, hex8_of, rest_after};

/// How the text of a record begins.
#[derive(Drop)]
pub enum RecordPrefix<'a> {
    /// With these lines and their sum. The rest follows.
    Whole(&'a [u8], &'a [u8]),
    /// With a wrong sum, or with no sum and bytes that no line has.
    Damaged,
    /// With no sum: the text was torn off.
    Torn,
}

/// What comes before the first sum, that sum's line without its mark and its line feed, and the
/// rest.
fn parts(text: &[u8]) -> Option<(&[u8], &[u8], &[u8])>
    ensures some { IfSome result (λ x. HasNoMark x.0.now × HasNoFeed x.1.now
        × (text.now ≡ x.0.now ++ sum_mark ∷ (x.1.now ++ line_feed ∷ x.2.now))) }
    ensures none { IfNone result (IsUnfinished text.now) }
{
    let at = position_of(text, b'=')?;
    let after = &text[at + 1..];
    let end = position_of(after, b'\n')?;
    Some((&text[..at], &after[..end], &after[end + 1..]))
}

/// Whether lines of a record have this byte.
fn is_line_byte(byte: &u8) -> bool
    ensures { IsTrue result ↔ IsLineByte byte.now }
{
    let byte = *byte;
    byte == b'\n' || (byte >= b' ' && byte <= b'~')
}

/// Whether each byte is one that lines of a record have.
fn is_lined(text: &[u8]) -> bool
    ensures { IsTrue result ↔ All IsLineByte text.now }
{
    text.iter().all(is_line_byte)
}

/// Whether it has no whole line of a sum, right or wrong.
fn is_unfinished(text: &[u8]) -> bool
    ensures { IsTrue result ↔ IsUnfinished text.now }
{
    parts(text).is_none()
}

/// Whether a record was torn off in this rest of it. Takes time by the bytes.
pub fn is_torn(text: &[u8]) -> bool
    ensures { IsTrue result ↔ IsTorn text.now }
{
    is_unfinished(text) && is_lined(text)
}

/// How a text begins that has no whole line of a sum.
fn without_sum<'a>(text: &[u8]) -> RecordPrefix<'a>
    requires { IsUnfinished text.now }
    ensures { (n : ℕ) → StandsInFront n text.now result }
{
    if is_lined(text) {
        return RecordPrefix::Torn;
    }
    RecordPrefix::Damaged
}

/// How a text begins that follows this many entries. Takes time by the bytes.
pub fn read_prefix(text: &[u8], number: u64) -> RecordPrefix<'_>
    ensures { StandsInFront number text.now result }
{
    let Some((lines, sum, rest)) = parts(text) else {
        return without_sum(text);
    };
    let due = hex8_of(sum_at(number, lines));
    if sum == due.as_slice() {
        return RecordPrefix::Whole(lines, rest);
    }
    RecordPrefix::Damaged
}

/// The line that ends a record of this many entries.
fn end_line(entries: u64) -> Line
    ensures line { (n : ℕ) → entries ≡ numbered n → result ≡ end_line n }
    ensures room { length result + SUM_ROOM ≤ LINE_ROOM }
{
    let mut line = Line::new();
    line.put(b"end ");
    line.put_number(entries);
    line.put(b"\n");
    line
}

/// Whether this is the line that ends a record of this many entries.
pub fn is_end(lines: &[u8], entries: u64) -> bool
    ensures { (n : ℕ) → entries ≡ numbered n → IsTrue result ↔ (lines.now ≡ end_line n) }
{
    if rest_after(lines, b"end ").is_none() {
        return false;
    }
    let line = end_line(entries);
    lines == line.as_bytes()
}

/// The last lines of a record of this many entries.
pub fn last_lines(entries: u64) -> Line
    ensures { (n : ℕ) → entries ≡ numbered n → result ≡ last_lines n }
{
    let mut line = end_line(entries);
    let sum = sum_at(entries, line.as_bytes());
    line.put(&sum_line(sum));
    line
}

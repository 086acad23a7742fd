//! The lines of a text, and the words of a line.

use batch::number_from_digits;

/// Piece `n`, counted from 0, of those that this byte ends. Takes time that grows with the number
/// of bytes before it.
pub(crate) fn piece(bytes: &[u8], end: u8, n: usize) -> Option<&[u8]> {
    bytes.split(|b| *b == end).nth(n)
}

/// The line of this number, counted from 1, without its line feed; nothing where there is none.
pub(crate) fn line_at(text: &[u8], number: usize) -> &[u8] {
    piece(text, b'\n', number.saturating_sub(1)).unwrap_or(&[])
}

/// The number of the line of this transfer, or this setting, counted from 0.
pub(crate) fn entry_line(entry: usize) -> usize {
    entry.saturating_add(2)
}

/// The number of the line before which so many bytes stand, counted from 1.
pub(crate) fn line_after(text: &[u8], bytes: usize) -> usize {
    text[..bytes.min(text.len())].split(|b| *b == b'\n').count()
}

/// The number that this word of the line is, counted from 0.
pub(crate) fn number_at(line: &[u8], place: usize) -> Option<usize> {
    number_from_digits(piece(line, b' ', place)?)
}

/// The first of these words of the line that is a number of at least so much.
pub(crate) fn first_from(line: &[u8], places: &[usize], least: usize) -> Option<usize> {
    for place in places {
        match number_at(line, *place) {
            Some(n) if n >= least => return Some(n),
            _ => {}
        }
    }
    None
}

/// How many entries the text's first line says that there are.
pub(crate) fn announced(text: &[u8]) -> usize {
    number_at(line_at(text, 1), 1).unwrap_or(0)
}

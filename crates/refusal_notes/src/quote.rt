//! The beginning of a line.

use std::fmt::{self, Display, Formatter, Write};

/// How many bytes of a line are quoted. This is the project's choice.
const MAX_QUOTED: usize = 60;

/// The beginning of this line, between quotation marks: two dots are after it if the line goes on.
#[derive(Clone, Copy)]
pub(crate) struct Quote<'a>(pub &'a [u8]);

impl<'a> Display for Quote<'a> {
    fn fmt<W: Write>(&self, f: &mut Formatter<W>) -> fmt::Result {
        f.write_char('"')?;
        for byte in self.0.iter().take(MAX_QUOTED) {
            write_byte(f, *byte)?;
        }
        let is_cut = self.0.len() > MAX_QUOTED;
        f.write_str(if is_cut { "\".." } else { "\"" })
    }
}

/// A byte as it is shown: as it is where it is printable.
fn write_byte<W: Write>(f: &mut Formatter<W>, byte: u8) -> fmt::Result {
    if byte.is_ascii() {
        return write_shown(f, char::from(byte));
    }
    write!(f, "\\x{byte:02x}")
}

/// A character as it is shown: escaped where a terminal wouldn't show it, but obey it. Beyond ASCII
/// these are control characters, those of no width, those that turn the direction of a text, and
/// those that break its lines.
pub(crate) fn write_shown<W: Write>(f: &mut Formatter<W>, c: char) -> fmt::Result {
    f.write_str(match c {
        '"' => "\\\"",
        '\\' => "\\\\",
        '\t' => "\\t",
        '\r' => "\\r",
        '\0'..='\x1f' | '\x7f' => return write!(f, "\\x{:02x}", u32::from(c)),
        '\u{80}'..='\u{9f}'
        | '\u{61c}'
        | '\u{200b}'..='\u{200f}'
        | '\u{2028}'..='\u{202e}'
        | '\u{2060}'..='\u{206f}'
        | '\u{feff}' => return write!(f, "\\u{{{:x}}}", u32::from(c)),
        _ => return f.write_char(c),
    })
}

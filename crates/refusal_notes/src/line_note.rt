//! What is told of a line that was refused.

use crate::context::{NamedText, OpeningRack, TextLine};
use crate::differences::Difference;
use crate::expected::Expected;
use crate::lines::{line_at, piece};
use crate::quote::Quote;
use std::fmt::{self, Display, Formatter, Write};

/// A line that was refused.
#[derive(Clone, Copy)]
pub(crate) struct LineNote<'a> {
    /// Its text.
    pub named: NamedText<'a>,
    /// How many lines of its file stand above the text.
    pub above: usize,
    /// The line's number in the text, counted from 1.
    pub number: usize,
    /// What is wanted there.
    pub wanted: Expected<'a>,
}

impl<'a> Display for LineNote<'a> {
    #[rattlefmt::skip]
    fn fmt<W: Write>(&self, f: &mut Formatter<W>) -> fmt::Result {
        let line = line_at(self.named.text, self.number);
        let is_ended = piece(self.named.text, b'\n', self.number).is_some();
        let is_there = is_ended || !line.is_empty();
        write!(f, "{}: ", TextLine(self.named, self.number.saturating_add(self.above)))?;
        if is_there {
            Quote(line).fmt(f)?;
        }
        let between = match self.wanted {
            _ if !is_there && self.number <= 1 => "the text is empty; expected ",
            _ if !is_there => "the text ends before this line; expected ",
            Expected::End => return f.write_str(" comes after the last line; nothing may follow"),
            Expected::RecordHead => " doesn't begin a record of this rack; expected ",
            Expected::HeadLine(OpeningRack::Resumed, due) => return write!(f,
                "; this command's record has {due} there: --resume takes the record's shape, words \
                and clients, in its order"),
            Expected::HeadLine(OpeningRack::Zeros, due) => return write!(f,
                "; this command's rack, whose words are 0, has {due} there: --image takes the \
                record's words, and --shape its shape"),
            Expected::HeadLine(OpeningRack::Image, due) => return write!(f,
                "; this command's rack, with the words of --image, has {due} there: --image takes \
                the record's words, and --shape its shape"),
            wanted => match Difference::of(self.named.text, self.number, wanted) {
                Some(difference) => {
                    write!(f, ": {difference}")?;
                    "; expected "
                }
                None if is_ended => " isn't ",
                None if !wanted.forms().contains('`') => " without a line feed isn't ",
                None => return f.write_str(": the last line has no line feed at its end"),
            },
        };
        write!(f, "{between}{}", self.wanted)
    }
}

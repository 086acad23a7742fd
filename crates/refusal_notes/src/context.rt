//! What a command was asked, and what is told of its refusal.

use crate::listed::Listing;
use crate::quote::write_shown;
use batch::Shape;
use refusals::{Refusal, Validity};
use std::alloc::Global;
use std::fmt::{self, Display, Formatter, Write};

/// A text and its name.
#[derive(Clone, Copy)]
pub struct NamedText<'a> {
    /// The name of its file, `-` for standard input, or nothing for what a session sent.
    pub name: &'a str,
    /// The text.
    pub text: &'a [u8],
}

/// The rack of which the head of a record has to be.
#[derive(Clone, Copy)]
pub enum OpeningRack {
    /// The rack of sessions that go on with the record.
    Resumed,
    /// One on which the record is replayed, whose words are 0.
    Zeros,
    /// One on which it is replayed, whose words are those of an image.
    Image,
}

/// What a command was asked: its texts and words, and what its answer found out. What it hasn't is
/// as in [`RefusalContext::NONE`].
#[derive(Clone, Copy)]
pub struct RefusalContext<'a> {
    /// The batch, or the moves.
    pub list: NamedText<'a>,
    /// Which of the two it is.
    pub listing: Listing,
    /// The schedule, or the image.
    pub other: NamedText<'a>,
    /// The wiring of a board.
    pub wiring: NamedText<'a>,
    /// The record of sessions.
    pub recorded: NamedText<'a>,
    /// How many bytes of the record stand before what is wrong with it.
    pub offset: usize,
    /// The line of the reply that is due there, with its line feed, or what is due of the head, as
    /// whole lines; nothing where nothing is.
    pub due: &'a [u8],
    /// The rack of which the record's head has to be.
    pub opening: OpeningRack,
    /// The word of the rack's shape.
    pub shape: &'a str,
    /// The word of the settings to draw.
    pub range: &'a str,
    /// What is known of the schedule.
    pub validity: Validity,
}

impl<'a> NamedText<'a> {
    /// No text.
    pub const NONE: NamedText<'static> = NamedText {
        name: "",
        text: &[],
    };

    /// A name alone.
    pub fn only(name: &'a str) -> NamedText<'a> {
        NamedText { name, text: &[] }
    }
}

impl<'a> RefusalContext<'a> {
    /// No text, and no word.
    pub const NONE: RefusalContext<'static> = RefusalContext {
        list: NamedText::NONE,
        listing: Listing::Transfers,
        other: NamedText::NONE,
        wiring: NamedText::NONE,
        recorded: NamedText::NONE,
        offset: 0,
        due: &[],
        opening: OpeningRack::Resumed,
        shape: "",
        range: "",
        validity: Validity::Unknown,
    };

    /// A list of transfers, and the word of a shape.
    pub(crate) fn of(name: &'a str, text: &'a [u8], shape: &'a str) -> RefusalContext<'a> {
        RefusalContext {
            list: NamedText { name, text },
            shape,
            ..RefusalContext::NONE
        }
    }

    /// The shape of the rack: the widest where no shape is asked for.
    pub(crate) fn rack(&self) -> Shape {
        Shape::read(self.shape.as_bytes()).unwrap_or(Shape::WIDEST)
    }
}

/// What is told of a refusal.
#[derive(Clone, Copy)]
pub(crate) struct Note<'a> {
    /// The refusal.
    pub refusal: Refusal,
    /// The texts that it is of.
    pub texts: RefusalContext<'a>,
    /// How many lines of its file stand above them.
    pub above: usize,
    /// Where the texts are read once more.
    pub alloc: Global,
}

/// The name, escaped as what is quoted is, but with the characters beyond ASCII that can be seen.
impl<'a> Display for NamedText<'a> {
    fn fmt<W: Write>(&self, f: &mut Formatter<W>) -> fmt::Result {
        if self.name == "-" {
            return f.write_str("standard input");
        }
        for c in self.name.chars() {
            write_shown(f, c)?;
        }
        Ok(())
    }
}

/// The line of this number in a text.
#[derive(Clone, Copy)]
pub(crate) struct TextLine<'a>(pub NamedText<'a>, pub usize);

impl<'a> Display for TextLine<'a> {
    fn fmt<W: Write>(&self, f: &mut Formatter<W>) -> fmt::Result {
        let TextLine(named, n) = *self;
        match named.name {
            "" => write!(f, "line {n} of the batch"),
            _ => write!(f, "{named}:{n}"),
        }
    }
}

/// So many of this, with an `s` where it isn't one.
#[derive(Clone, Copy)]
pub(crate) struct Many(pub usize, pub &'static str);

impl Display for Many {
    fn fmt<W: Write>(&self, f: &mut Formatter<W>) -> fmt::Result {
        let Many(n, what) = *self;
        write!(f, "{n} {what}{}", if n == 1 { "" } else { "s" })
    }
}

/// So many of this, by their numbers.
#[derive(Clone, Copy)]
pub(crate) struct Numbered(pub usize, pub &'static str);

impl Display for Numbered {
    fn fmt<W: Write>(&self, f: &mut Formatter<W>) -> fmt::Result {
        match *self {
            Numbered(0, _) => f.write_str("none"),
            Numbered(1, what) => write!(f, "{what} 0 alone"),
            Numbered(n, what) => write!(f, "{what}s 0 to {}", n - 1),
        }
    }
}

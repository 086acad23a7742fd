//! The first thing by which a line differs from what is wanted there.

use crate::expected::Expected;
use crate::forms::{Token, last_stop};
use crate::lines::{first_from, line_at, number_at};
use crate::listed::Listing;
use batch::MAX_DIGITS;
use c004_commands::PORTS;
use crossbar::JOINED_MODULES;
use std::fmt::{self, Display, Formatter, Write};

const _: () = prove!(MAX_DIGITS == 9);

/// The words of a module's line that may be links of the switch. One word less stands before the
/// second where the first is left out.
const PORT_WORDS: [usize; 3] = [5, 8, 9];

/// The first thing by which a line differs from what is wanted.
#[derive(Clone, Copy)]
pub(crate) enum Difference {
    /// It begins a text of moves, in the place of a batch.
    Moves,
    /// At this byte, counted from 1, it stops being of the form: what is expected there, and what
    /// is found.
    Stops(usize, Token, Token),
    /// It is that of a module of this number, which no board has.
    NoModule(usize),
    /// It is that of a module of this number, which isn't above that of the line before, the
    /// second.
    Falls(usize, usize),
    /// It has a link of this number, which no switch has.
    NoPort(usize),
    /// It has a link of the switch that a line above has, of this number, or itself.
    Taken(usize, usize),
}

/// How often a module's line has this link of the switch.
fn times_in(line: &[u8], port: usize) -> usize {
    PORT_WORDS
        .iter()
        .filter(|place| number_at(line, **place) == Some(port))
        .count()
}

/// The first link of the switch in the module's line of this number that a line above has, or that
/// stands twice in it; and the number of the line that has it already.
fn taken_by(wiring: &[u8], number: usize) -> Option<Difference> {
    let line = line_at(wiring, number);
    for place in &PORT_WORDS {
        let Some(port) = number_at(line, *place) else {
            continue;
        };
        for above in 2..number {
            if times_in(line_at(wiring, above), port) > 0 {
                return Some(Difference::Taken(port, above));
            }
        }
        if times_in(line, port) > 1 {
            return Some(Difference::Taken(port, number));
        }
    }
    None
}

impl Difference {
    /// The first by which the line of this number differs from what is wanted there: none where it
    /// has the form, or none is told of.
    pub(crate) fn of(text: &[u8], number: usize, wanted: Expected<'_>) -> Option<Difference> {
        let line = line_at(text, number);
        match (last_stop(line, wanted.forms()), wanted) {
            (Some(_), Expected::Head(Listing::Transfers)) if line.starts_with(b"moves ") => {
                Some(Difference::Moves)
            }
            (Some((due, rest)), _) => {
                let before = line.len().saturating_sub(rest.len());
                Some(Difference::Stops(before.saturating_add(1), due, Token::first_of(rest)))
            }
            (None, Expected::Entry(Listing::Modules)) => Difference::of_module(text, number),
            (None, _) => None,
        }
    }

    /// The first rule of a wiring that a module's line breaks whose form is right.
    fn of_module(wiring: &[u8], number: usize) -> Option<Difference> {
        let line = line_at(wiring, number);
        let module = number_at(line, 1)?;
        let last = number_at(line_at(wiring, number.saturating_sub(1)), 1)?;
        if module >= JOINED_MODULES as usize {
            return Some(Difference::NoModule(module));
        }
        if number > 2 && module <= last {
            return Some(Difference::Falls(module, last));
        }
        if let Some(port) = first_from(line, &PORT_WORDS, PORTS as usize) {
            return Some(Difference::NoPort(port));
        }
        taken_by(wiring, number)
    }
}

impl Display for Difference {
    #[rattlefmt::skip]
    fn fmt<W: Write>(&self, f: &mut Formatter<W>) -> fmt::Result {
        match *self {
            Difference::Moves =>
                f.write_str("a text of moves begins like this; \"direct\" makes a batch of it"),
            Difference::Stops(1, _, Token::End) => f.write_str("the line is empty"),
            Difference::Stops(at, due, is) => write_stop(f, at, due, is),
            Difference::NoModule(module) => write!(f, "module {module} is above 15"),
            Difference::Falls(module, last) =>
                write!(f, "module {module} isn't above module {last} of the line before"),
            Difference::NoPort(port) => write!(f, "the switch has no link {port}"),
            Difference::Taken(port, line) =>
                write!(f, "link {port} of the switch is on line {line} already"),
        }
    }
}

/// Writes what stands at this byte of a line, where something else has to.
#[rattlefmt::skip]
fn write_stop<W: Write>(f: &mut Formatter<W>, at: usize, due: Token, is: Token) -> fmt::Result {
    write!(f, "at byte {at} ")?;
    f.write_str(match (due, is) {
        (Token::Number, Token::Byte(b'0')) => "a number has a leading zero",
        (Token::Number, Token::Byte(b'1'..=b'9')) => "a number has more than nine digits",
        (_, Token::Return) => "there is a carriage return before the end of the line",
        (Token::Hex8, Token::Byte(_) | Token::Mark) => "eight digits 0 to 9 or a to f are expected",
        _ => return write!(f, "there is {is} instead of {due}"),
    })
}

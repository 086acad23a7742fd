//! What is told of a transfer that needs a module, or a link, that a board hasn't.

use crate::context::{Note, TextLine};
use crate::lines::{entry_line, line_at, number_at};
use board_wiring::{WiredModule, read_wiring};
use refusals::Refusal;
use std::fmt::{self, Formatter, Write};

/// The ends of a transfer's line: the words that name their modules, and their links.
const ENDS: [(usize, usize); 2] = [(1, 0), (3, 3)];

/// Whether this link of a module is on none of the switch.
fn leaves_out(on: &WiredModule, link: usize) -> bool {
    match link {
        0 => on.link0.is_none(),
        _ => on.link3.is_none(),
    }
}

impl<'a> Note<'a> {
    /// Writes which module of a transfer a board hasn't, or else which link of one.
    #[rattlefmt::skip]
    pub(crate) fn write_missing<W: Write>(&self, f: &mut Formatter<W>, t: usize) -> fmt::Result {
        let (wiring, place) = (self.texts.wiring, self.line_of(t));
        let board = read_wiring(wiring.text).or(Err(fmt::Error))?;
        let line = line_at(self.texts.list.text, entry_line(t));
        for (word, link) in ENDS {
            let module = number_at(line, word).ok_or(fmt::Error)?;
            let at = board.modules().iter().position(|on| on.number == module);
            match (self.refusal, at) {
                (Refusal::NoModule(_), None) =>
                    return write!(f, "{place}: module {module}; {wiring} doesn't have it"),
                (Refusal::NoLink(_), Some(k)) if leaves_out(&board.modules()[k], link) =>
                    return write!(f, "{place}: link {link} of module {module}; {} leaves it out",
                        TextLine(wiring, entry_line(k))),
                _ => {}
            }
        }
        Err(fmt::Error)
    }
}

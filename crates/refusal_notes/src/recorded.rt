//! The line in which a record is wrong.

use crate::context::{Note, RefusalContext};
use crate::expected::Expected;
use crate::line_note::LineNote;
use crate::lines::{line_after, line_at, number_at, piece};
use crate::quote::Quote;
use batch::{Batch, BatchFault, Shape, number_before};
use exchange_limits::MAX_SESSIONS;
use line_words::{hex8_and_rest, rest_after};
use refusals::Refusal;

/// The line in which a record is wrong, where this is wanted.
pub(crate) fn line_wanting<'a>(texts: &RefusalContext<'a>, wanted: Expected<'a>) -> LineNote<'a> {
    let named = texts.recorded;
    LineNote {
        named,
        above: 0,
        number: line_after(named.text, texts.offset),
        wanted,
    }
}

/// How many clients the first line of a record names; none where the line is wrong.
fn clients_in(text: &[u8]) -> Option<usize> {
    let rest = rest_after(text, b"record-2 ")?;
    let (modules, rest) = number_before(rest, b'x')?;
    let (blocks, rest) = number_before(rest, b'x')?;
    let (words, rest) = number_before(rest, b' ')?;
    let (_, rest) = hex8_and_rest(rest)?;
    let (clients, _) = number_before(rest, b'\n')?;
    match Shape::new(modules, blocks, words) {
        Ok(_) if clients <= MAX_SESSIONS => Some(clients),
        _ => None,
    }
}

/// Whether the line of this number is that of a client whose name no client above has.
fn is_client(text: &[u8], number: usize) -> bool {
    let line = line_at(text, number);
    matches!(rest_after(line, b"client "), Some([_, ..]))
        && piece(text, b'\n', number).is_some()
        && (2..number).all(|above| line_at(text, above) != line)
}

/// The number of the first wrong line of a head that isn't right, and what is wanted there.
fn wrong_in_head(text: &[u8]) -> (usize, Expected<'static>) {
    let Some(clients) = clients_in(text) else {
        return (1, Expected::RecordHead);
    };
    let last = clients.saturating_add(2);
    for number in 2..last {
        if !is_client(text, number) {
            return (number, Expected::Client);
        }
    }
    (last, Expected::HeadSum)
}

/// The first wrong line of a record's head; where a head is due, that which differs from it.
pub(crate) fn line_of_head<'a>(texts: &RefusalContext<'a>) -> LineNote<'a> {
    let text = texts.recorded.text;
    if texts.due.is_empty() {
        let (number, wanted) = wrong_in_head(text);
        return LineNote {
            number,
            ..line_wanting(texts, wanted)
        };
    }
    let due = Quote(line_at(texts.due, line_after(text, texts.offset)));
    line_wanting(texts, Expected::HeadLine(texts.opening, due))
}

/// What stands after so many bytes of a record and the number of one of its sessions.
fn call_after(text: &[u8], bytes: usize) -> Option<&[u8]> {
    let (session, call) = number_before(text.get(bytes..)?, b' ')?;
    match number_at(line_at(text, 1), 3) {
        Some(clients) if clients > 0 && session >= clients => None,
        _ => Some(call),
    }
}

/// What is told of a record's call that is wrong. Where its session is one of the record's, and it
/// hands in a batch whose first line is right, or announces too many transfers, it is told of that.
/// None where there is no memory for the batch.
pub(crate) fn note_of_call(note: Note<'_>) -> Option<Note<'_>> {
    let (recorded, offset) = (note.texts.recorded, note.texts.offset);
    let text = call_after(recorded.text, offset).unwrap_or(&[]);
    let refusal = match Batch::read(note.alloc, text, Shape::WIDEST).err() {
        None | Some(BatchFault::Line(1)) => return Some(note),
        Some(BatchFault::NoMemory) => return None,
        // The record ends above the last line.
        Some(BatchFault::Count) => Refusal::BatchLine(line_after(text, text.len())),
        Some(fault) => Refusal::from(fault),
    };
    Some(Note {
        refusal,
        texts: RefusalContext::of(recorded.name, text, ""),
        above: line_after(recorded.text, offset).saturating_sub(1),
        alloc: note.alloc,
    })
}

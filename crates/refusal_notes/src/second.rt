//! The second line of a refusal.

ghost use Rattle.std.specs.Prelude.{◌≢◌, IfSome, string_bytes};
ghost use Rattle.refusal_notes.specs.Told.{IsWholeLine};

use crate::context::{NamedText, Note, RefusalContext};
use crate::recorded::note_of_call;
use crate::schedules::refusal_of_settings;
use batch::Shape;
use refusals::{Refusal, Validity};
use std::alloc::Global;
use std::fmt::Display;

/// The line that is told on standard error beside this refusal, with its line feed: which line of
/// which text, what stands there, and what is wanted there.
///
/// There is none of want of memory, nor of a file or a port that can't be opened, of which
/// [`file_line`] tells. There is none where there is no memory for it. Takes time that grows with
/// the lengths of the texts.
pub fn second_line(alloc: Global, refusal: Refusal, texts: RefusalContext<'_>) -> Option<String>
    ensures text { IfSome result (λ text. IsWholeLine (string_bytes text)) }
    ensures refusal { IfSome result (λ _. refusal ≢ Refusal.NoMemory) }
{
    let note = Note {
        refusal,
        texts,
        above: 0,
        alloc,
    };
    match (refusal, texts.validity) {
        (Refusal::NoMemory | Refusal::File | Refusal::Port(_), _) => None,
        (Refusal::RecordCall(_), _) => told(alloc, &note_of_call(note)?),
        (Refusal::NoCertificate, Validity::Invalid) => {
            let refusal = refusal_of_settings(alloc, texts.list.text, texts.other.text)?;
            let settings = Note { refusal, ..note };
            let words = format!(in alloc; "{note}; {settings}").ok()?;
            told(alloc, &words)
        }
        _ => told(alloc, &note),
    }
}

/// The second line beside a refusal that a session is told, on a rack of the shape that this word
/// says. What it sent is the line that was refused, or all lines of its batch with their line
/// feeds.
pub fn session_line<'a>(
    alloc: Global,
    refusal: Refusal,
    shape: &'a str,
    sent: &'a [u8],
) -> Option<String>
    ensures text { IfSome result (λ text. IsWholeLine (string_bytes text)) }
    ensures refusal { IfSome result (λ _. refusal ≢ Refusal.NoMemory) }
{
    second_line(alloc, refusal, RefusalContext::of("", sent, shape))
}

/// The line that is told on standard error of a file that can't be read, or opened, for this
/// reason, without the system's number for it; none where there is no memory for the line. Of a
/// name that is a rack's shape it is told that a shape comes first, where there is one.
pub fn file_line(alloc: Global, name: &str, reason: &str) -> Option<String>
    ensures { IfSome result (λ text. IsWholeLine (string_bytes text)) }
{
    let (reason, _) = reason.split_once(" (os error ").unwrap_or((reason, ""));
    let hint = match Shape::read(name.as_bytes()) {
        Ok(_) => "; where a command takes a shape, it comes before the files",
        Err(_) => "",
    };
    let words = format!(in alloc; "{}: {reason}{hint}", NamedText::only(name)).ok()?;
    told(alloc, &words)
}

/// The line that tells this.
fn told<T: Display>(alloc: Global, what: &T) -> Option<String>
    ensures { IfSome result (λ text. IsWholeLine (string_bytes text)) }
{
    let words = what.to_string(alloc).ok()?;
    format!(in alloc; "exchange: {words}\n").ok()
}

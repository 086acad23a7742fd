//! What is told on standard error beside the replies of `talk`.

ghost use Rattle.std.specs.Prelude.{◌≡◌};

use client_session::Listener;
use named_files::tell_line;
use refusal_notes::session_line;
use refusals::Refusal;
use std::alloc::Global;
use std::io::Write;

/// Tells a line beside each reply that is a refusal, but for lack of memory: what was said, and
/// what is wanted. No contract says which line.
#[derive(Drop)]
pub(crate) struct NoteWriter<'a, E> {
    alloc: Global,
    shape: &'a str,
    err: &'a mut E,
    // The lines of the command that was heard last, where there was memory for them.
    heard: Option<Vec<u8>>,
}

impl<'a, E: Write> NoteWriter<'a, E> {
    /// Tells them on this stream, of a rack of the shape that this word says.
    pub(crate) fn new(alloc: Global, shape: &'a str, err: &'a mut E) -> NoteWriter<'a, E>
        ensures { (result.err.ghost_name ≡ err.entry.ghost_name) × (result.err.now ≡ err.old) }
    {
        NoteWriter {
            alloc,
            shape,
            err,
            heard: None,
        }
    }

    /// Gives the stream back.
    pub(crate) fn into_stream(self) -> &'a mut E
        ensures { (result.ghost_name ≡ self.entry.err.ghost_name)
            × (result.now ≡ self.entry.err.now) }
    {
        self.err
    }
}

impl<'a, E: Write> Listener for NoteWriter<'a, E> {
    ghost use Rattle.std.specs.Prelude.{Some};
    ghost use Rattle.exchange.specs.Notes.{MayTell};

    ghost told = { λ b. record { bytes = E.contents b.err.now; loan = Some b.err.ghost_name } };

    ghost may_tell = { MayTell };

    fn on_lines(&mut self, text: &[u8]) {
        self.heard = Vec::from_slice(self.alloc, text).ok();
    }

    fn on_refusal(&mut self, refusal: Refusal) {
        let Some(heard) = &self.heard else {
            return;
        };
        if let Some(line) = session_line(self.alloc, refusal, self.shape, heard.as_slice()) {
            tell_line(line.as_str().as_bytes(), self.err);
        }
    }
}

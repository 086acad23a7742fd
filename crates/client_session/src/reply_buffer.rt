//! Reply lines that are buffered until they can be written.

ghost use Rattle.std.specs.Prelude.{◌≡◌, ◌≤◌, ◌+◌, ◌++◌, [], true, length};
ghost use Rattle.line_words.specs.declared.limits.TheConstants.{LINE_ROOM};
ghost use Rattle.client_session.specs.declared.limits.TheConstants.{REPLY_BUFFER_BYTES};

use crate::limits::REPLY_BUFFER_BYTES;
use crate::reply_line::ReplyLine;
use line_words::LINE_ROOM;
use refusals::Refusal;
use std::marker::Model;

/// Reply lines that are held, at most [`REPLY_BUFFER_BYTES`] bytes of them, and the refusal that
/// the last of them says, where it says one. They lie in the struct itself.
#[derive(Drop)]
pub(crate) struct ReplyBuffer {
    bytes: [u8; REPLY_BUFFER_BYTES],
    len: usize,
    refusal: Option<Refusal>,
}

impl Model for ReplyBuffer {
    ghost use Rattle.std.specs.Prelude.{ℕ, List, ◌≤◌, take};
    ghost use Rattle.client_session.specs.declared.limits.TheConstants.{REPLY_BUFFER_BYTES};

    ghost Value = { List ℕ };

    ghost view = { λ held. take held.len held.bytes };

    ghost invariant = { λ held. held.len ≤ REPLY_BUFFER_BYTES };
}

impl ReplyBuffer {
    /// No lines.
    pub(crate) fn new() -> ReplyBuffer
        ensures { result ≡ [] }
    {
        ReplyBuffer {
            bytes: [0; REPLY_BUFFER_BYTES],
            len: 0,
            refusal: None,
        }
    }

    /// The lines.
    pub(crate) fn as_bytes(&self) -> &[u8]
        ensures lines { result.now ≡ self.now }
        ensures room { length self.now ≤ REPLY_BUFFER_BYTES }
    {
        &self.bytes[..self.len]
    }

    /// Whether there is room for one more line, whatever it says.
    pub(crate) fn has_room(&self) -> bool
        ensures { result ≡ true → length self.now + LINE_ROOM ≤ REPLY_BUFFER_BYTES }
    {
        self.len <= REPLY_BUFFER_BYTES - LINE_ROOM
    }

    /// Whether the last line says a refusal.
    pub(crate) fn refuses(&self) -> bool {
        self.refusal.is_some()
    }

    /// Puts a line after the others.
    pub(crate) fn put(&mut self, line: &ReplyLine)
        requires { length self.old + LINE_ROOM ≤ REPLY_BUFFER_BYTES }
        ensures { self.new ≡ self.old ++ line.now }
    {
        let bytes = line.as_bytes();
        let end = self.len + bytes.len();
        self.bytes[self.len..end].copy_from_slice(bytes);
        self.len = end;
        self.refusal = line.refusal();
    }

    /// Lets go of all lines, and gives the refusal that the last of them says.
    pub(crate) fn clear(&mut self) -> Option<Refusal>
        ensures { self.new ≡ [] }
    {
        self.len = 0;
        self.refusal.take()
    }
}

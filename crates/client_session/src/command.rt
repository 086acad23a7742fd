//! The commands of a session, and the lines that they stand for.

ghost use Rattle.std.specs.Prelude.{◌≡◌, ◌≢◌, ℕ, ◌∷◌, ◌++◌, ◌≤◌, ◌+◌, length, codes, IfSome};
ghost use Rattle.std.specs.Prelude.{IfNone};
ghost use Rattle.batch.specs.Text.{IsNumber, number, space};
ghost use Rattle.line_words.specs.HexWords.{IsWord, hex8};
ghost use Rattle.client_session.specs.Commands.{Means, is_immediate, line_of};

use crate::limits::COMMAND_ROOM;
use line_words::{
    LINE_ROOM, Line, hex8_and_rest, number_after, number_and_rest, rest_after, word_from_hex8,
};

/// A line of a session that is in the grammar. Batches go by the numbers under which they were
/// accepted, modules are counted from 0, and addresses are in bytes.
#[derive(Clone, Copy)]
pub enum SessionCommand {
    /// Submit the batch of which so many lines follow: `batch N`.
    Batch(usize),
    /// Plan this batch: `plan ID`.
    Plan(usize),
    /// Run this batch: `run ID`.
    Run(usize),
    /// Tell of this batch: `show ID`.
    Show(usize),
    /// Let this batch go: `drop ID`.
    Drop(usize),
    /// Tell the word of a module at an address: `peek M A`.
    Peek(usize, u32),
    /// Write a word of a module at an address: `poke M A D`.
    Poke(usize, u32, u32),
    /// Tell how far the runs of the exchange have come: `progress`.
    Progress,
    /// End the session: `bye`.
    Bye,
}

/// What a line that peeks names.
fn peek(line: &[u8]) -> Option<(usize, u32)>
    ensures some { IfSome result (λ p. IsNumber p.0 × IsWord p.1
        × (line.now ≡ codes "peek " ++ number p.0 space ++ hex8 p.1)) }
    ensures none { IfNone result ((n a : ℕ) → IsNumber n → IsWord a
        → line.now ≢ codes "peek " ++ number n space ++ hex8 a) }
{
    let rest = rest_after(line, b"peek ")?;
    let (module, rest) = number_and_rest(rest)?;
    let address = word_from_hex8(rest)?;
    Some((module, address))
}

/// What a line that pokes names.
fn poke(line: &[u8]) -> Option<(usize, u32, u32)>
    ensures some { IfSome result (λ p. IsNumber p.0 × IsWord p.1 × IsWord p.2
        × (line.now ≡ codes "poke " ++ (number p.0 space ++ (hex8 p.1 ++ space ∷ hex8 p.2)))) }
    ensures none { IfNone result ((n a w : ℕ) → IsNumber n → IsWord a → IsWord w
        → line.now ≢ codes "poke " ++ (number n space ++ (hex8 a ++ space ∷ hex8 w))) }
{
    let rest = rest_after(line, b"poke ")?;
    let (module, rest) = number_and_rest(rest)?;
    let (address, rest) = hex8_and_rest(rest)?;
    let word = word_from_hex8(rest)?;
    Some((module, address, word))
}

/// Puts a line that peeks there.
fn put_peek(line: &mut Line, module: usize, address: u32)
    requires { length line.old + COMMAND_ROOM ≤ LINE_ROOM }
    ensures text { line.new ≡ line.old ++ line_of (SessionCommand.Peek «module» address) }
    ensures room { length line.new ≤ length line.old + COMMAND_ROOM }
{
    line.put_numbered(b"peek ", module);
    line.put(b" ");
    line.put_hex8(address);
}

/// Puts a line that pokes this there.
fn put_poke(line: &mut Line, module: usize, address: u32, word: u32)
    requires { length line.old + COMMAND_ROOM ≤ LINE_ROOM }
    ensures text { line.new ≡ line.old ++ line_of (SessionCommand.Poke «module» address word) }
    ensures room { length line.new ≤ length line.old + COMMAND_ROOM }
{
    line.put_numbered(b"poke ", module);
    line.put(b" ");
    line.put_hex8(address);
    line.put(b" ");
    line.put_hex8(word);
}

impl SessionCommand {
    /// Whether it waits for nobody long, so that replies to earlier commands may be held until this
    /// one is answered: nothing is planned, and no run is made.
    pub(crate) fn is_immediate(self) -> bool
        ensures { result ≡ is_immediate self }
    {
        match self {
            SessionCommand::Plan(_) | SessionCommand::Run(_) => false,
            SessionCommand::Batch(_) | SessionCommand::Show(_) | SessionCommand::Drop(_) => true,
            SessionCommand::Peek(..) | SessionCommand::Poke(..) => true,
            SessionCommand::Progress | SessionCommand::Bye => true,
        }
    }

    /// Puts its line, without a line feed, after what stands there. Takes no memory.
    pub fn put(self, line: &mut Line)
        requires { length line.old + COMMAND_ROOM ≤ LINE_ROOM }
        ensures text { line.new ≡ line.old ++ line_of self }
        ensures room { length line.new ≤ length line.old + COMMAND_ROOM }
    {
        match self {
            SessionCommand::Batch(count) => line.put_numbered(b"batch ", count),
            SessionCommand::Plan(id) => line.put_numbered(b"plan ", id),
            SessionCommand::Run(id) => line.put_numbered(b"run ", id),
            SessionCommand::Show(id) => line.put_numbered(b"show ", id),
            SessionCommand::Drop(id) => line.put_numbered(b"drop ", id),
            SessionCommand::Peek(module, address) => put_peek(line, module, address),
            SessionCommand::Poke(module, address, word) => put_poke(line, module, address, word),
            SessionCommand::Progress => line.put(b"progress"),
            SessionCommand::Bye => line.put(b"bye"),
        }
    }

    /// The command that this is the line of, without its line feed. Takes time by the length of the
    /// line.
    pub fn read(line: &[u8]) -> Option<SessionCommand>
        ensures { Means line.now result }
    {
        if let Some((module, address)) = peek(line) {
            return Some(SessionCommand::Peek(module, address));
        }
        if let Some((module, address, word)) = poke(line) {
            return Some(SessionCommand::Poke(module, address, word));
        }
        if let Some(count) = number_after(line, b"batch ") {
            return Some(SessionCommand::Batch(count));
        }
        if let Some(id) = number_after(line, b"plan ") {
            return Some(SessionCommand::Plan(id));
        }
        if let Some(id) = number_after(line, b"run ") {
            return Some(SessionCommand::Run(id));
        }
        if let Some(id) = number_after(line, b"show ") {
            return Some(SessionCommand::Show(id));
        }
        if let Some(id) = number_after(line, b"drop ") {
            return Some(SessionCommand::Drop(id));
        }
        if line == b"progress".as_slice() {
            return Some(SessionCommand::Progress);
        }
        if line == b"bye".as_slice() {
            return Some(SessionCommand::Bye);
        }
        None
    }
}

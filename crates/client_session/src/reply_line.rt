//! The reply lines, with their line feeds. They are public for whoever serves sessions over
//! something else than a reader and a writer.

ghost use Rattle.std.specs.Prelude.{◌≡◌, [], ◌≤◌, ◌<◌, ◌+◌, ◌*◌, ◌++◌, length, flat_map, codes};
ghost use Rattle.std.specs.Prelude.{IfSome};
ghost use Rattle.refusals.specs.Refusals.{refusal_line};
ghost use Rattle.client_session.specs.Steps.{CanBeTold};
ghost use Rattle.client_session.specs.Replies.{cause_words, state_words, moved_words, ran_words};
ghost use Rattle.client_session.specs.Replies.{stopped_words, reply_line, progress_line, with_feed};

use crate::sources::{of_book, of_run};
use batch::{MAX_MODULES, MAX_TRANSFERS, MAX_WORDS};
use batch_book::{BatchState, Reading, Reply};
use line_words::{LINE_ROOM, Line};
use refusals::Refusal;
use setting_runner::{StopCause, line_bits};
use std::marker::Model;

/// What is told of how far a batch has come.
fn state_text(state: BatchState) -> &'static [u8]
    ensures text { result.now ≡ state_words state }
    ensures short { length result.now ≤ 20 }
{
    match state {
        BatchState::Waiting => b"waiting",
        BatchState::Planned => b"planned",
        BatchState::Ran => b"ran",
        BatchState::Stopped => b"stopped",
    }
}

/// Puts why a run has stopped.
fn put_cause(line: &mut Line, cause: StopCause)
    requires { length line.old + 100 ≤ LINE_ROOM }
    ensures text { line.new ≡ line.old ++ cause_words cause }
    ensures room { length line.new ≤ length line.old + 27 }
{
    match cause {
        StopCause::Port => line.put(b"port"),
        StopCause::SwitchDisagrees(output) => line.put_numbered(b"switch ", usize::from(output)),
        StopCause::Wire(transfer) => line.put_numbered(b"wire ", transfer),
    }
}

/// Puts transfers after the line, each with the words that it has moved.
fn put_moved(line: &mut Line, moved: &[(u16, u16)])
    requires room { length line.old + 1400 ≤ LINE_ROOM }
    requires few { length moved.now ≤ MAX_MODULES }
    ensures text { line.new ≡ line.old ++ flat_map moved_words moved.now }
    ensures room { length line.new ≤ length line.old + 1344 }
{
    for (transfer, words) in moved {
        line.put_numbered(b" ", usize::from(*transfer));
        line.put_numbered(b":", usize::from(*words));
    }
}

/// Puts what is told of a stop, without a line feed, into an empty line.
pub fn put_stopped(
    line: &mut Line,
    id: usize,
    run: usize,
    setting: usize,
    cause: StopCause,
    moved: &[(u16, u16)],
)
    requires empty { length line.old ≡ 0 }
    requires few { length moved.now ≤ MAX_MODULES }
    ensures text { line.new ≡ line.old ++ stopped_words id run setting cause moved.now }
    ensures room { length line.new < LINE_ROOM }
{
    line.put_numbered(b"stopped ", id);
    line.put_numbered(b" run ", run);
    line.put_numbered(b" setting ", setting);
    line.put(b" ");
    put_cause(line, cause);
    line.put(b" moved");
    put_moved(line, moved);
}

/// Puts what is told of a run that completed.
fn put_ran(line: &mut Line, id: usize, run: usize, settings: usize, words: usize)
    requires empty { length line.old ≡ 0 }
    requires few { words ≤ MAX_TRANSFERS * MAX_WORDS }
    ensures text { line.new ≡ line.old ++ ran_words id run settings words }
    ensures room { length line.new < LINE_ROOM }
{
    line.put_numbered(b"ran ", id);
    line.put_numbered(b" run ", run);
    line.put_numbered(b" settings ", settings);
    line.put_numbered(b" words ", words);
    line.put(b" bits ");
    line.put_number(line_bits(words as u64));
}

/// A reply line, and the refusal that it says, where it says one.
///
/// A session lends one to what does a command, since it would cost more to hand it about.
#[derive(Drop)]
pub struct ReplyLine {
    line: Line,
    refusal: Option<Refusal>,
}

impl Model for ReplyLine {
    ghost use Rattle.std.specs.Prelude.{◌≡◌, ℕ, List, IfSome};
    ghost use Rattle.refusals.specs.Refusals.{refusal_line};

    ghost Value = { List ℕ };

    ghost view = { λ reply. reply.line };

    ghost invariant = { λ reply. IfSome reply.refusal (λ why. reply.line ≡ refusal_line why) };
}

impl ReplyLine {
    /// A line that says nothing yet.
    pub fn new() -> ReplyLine
        ensures { result ≡ [] }
    {
        ReplyLine {
            line: Line::new(),
            refusal: None,
        }
    }

    /// Says nothing again.
    pub fn clear(&mut self)
        ensures { self.new ≡ [] }
    {
        self.line.clear();
        self.refusal = None;
    }

    /// Puts the line of a refusal.
    pub fn refuse(&mut self, refusal: Refusal)
        requires { self.old ≡ [] }
        ensures { self.new ≡ refusal_line refusal }
    {
        refusal.put(&mut self.line);
        self.refusal = Some(refusal);
    }

    /// Puts the line of a reply to a command that names this batch, or to one that names none.
    pub fn tell(&mut self, id: usize, reply: &Reply)
        requires empty { self.old ≡ [] }
        requires can { CanBeTold reply.now }
        ensures { self.new ≡ reply_line id reply.now }
    {
        let line = &mut self.line;
        match reply {
            Reply::Accepted(new) => line.put_numbered(b"accepted ", *new),
            Reply::Fetched(_) => unreachable!(),
            Reply::Settled { settings } => {
                line.put_numbered(b"planned ", id);
                line.put_numbered(b" settings ", *settings);
            }
            Reply::Ran {
                run,
                settings,
                words,
            } => put_ran(line, id, *run, *settings, *words),
            Reply::Stopped {
                run,
                setting,
                cause,
                moved,
            } => put_stopped(line, id, *run, *setting, *cause, moved.as_slice()),
            Reply::RunRefused(why) => return self.refuse(of_run(*why)),
            Reply::Shown { transfers, state } => {
                line.put(b"batch ");
                line.put_number(id as u64);
                line.put(b" transfers ");
                line.put_number(*transfers as u64);
                line.put(b" ");
                line.put(state_text(*state));
            }
            Reply::Discarded => line.put_numbered(b"dropped ", id),
            Reply::Word(word) => {
                line.put(b"word ");
                line.put_hex8(*word);
            }
            Reply::Poked => line.put(b"poked"),
            Reply::Refused(why) => return self.refuse(of_book(*why)),
        }
        line.put(b"\n");
        self.refusal = None;
    }

    /// Puts the line of a reading of the progress word.
    pub fn tell_progress(&mut self, reading: Reading)
        requires { self.old ≡ [] }
        ensures { self.new ≡ progress_line reading }
    {
        let line = &mut self.line;
        line.put(b"progress run ");
        line.put_number(reading.run);
        line.put(b" done ");
        line.put_number(reading.done);
        line.put(b"\n");
        self.refusal = None;
    }

    /// Puts the line that a session ends with.
    pub fn tell_bye(&mut self)
        requires { self.old ≡ [] }
        ensures { self.new ≡ with_feed (codes "bye") }
    {
        self.line.put(b"bye\n");
        self.refusal = None;
    }

    /// The line.
    pub fn as_bytes(&self) -> &[u8]
        ensures line { result.now ≡ self.now }
        ensures room { length self.now ≤ LINE_ROOM }
    {
        self.line.as_bytes()
    }

    /// The refusal that it says, where it says one.
    pub fn refusal(&self) -> Option<Refusal>
        ensures { IfSome result (λ why. self.now ≡ refusal_line why) }
    {
        self.refusal
    }
}

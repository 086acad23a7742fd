//! A listener that sees whether it is told what it is to be told beside a session, and when.

ghost use Rattle.std.specs.Prelude.{None, ⊤};

use super::streams::Script;
use client_session::{Listener, ServeFault};
use refusals::Refusal;
use std::sync::atomic::{AtomicUsize, Ordering};

/// What a listener is told beside a session.
#[derive(Drop)]
pub struct Beside<'a> {
    says: &'static [u8],
    /// What the client says after the commands that were heard.
    rest: &'static [u8],
    hears: &'static [u8],
    flushed: &'a AtomicUsize,
    /// How many commands were heard, whether the last of them was `bye`, and whether it was
    /// refused.
    heard: usize,
    is_over: bool,
    is_refused: bool,
    is_wrong: bool,
}

impl<'a> Beside<'a> {
    pub fn of(script: &Script, flushed: &'a AtomicUsize) -> Beside<'a> {
        Beside {
            says: script.says.as_bytes(),
            rest: script.says.as_bytes(),
            hears: script.hears.as_bytes(),
            flushed,
            heard: 0,
            is_over: false,
            is_refused: false,
            is_wrong: false,
        }
    }

    /// Whether it heard each command, in their order and once the replies before were flushed; and
    /// was told, after each reply line that is a refusal, once that was flushed, of this refusal,
    /// and of no other. The session ended so.
    pub fn is_right(&self, fault: Option<ServeFault>) -> bool {
        let flushed = self.flushed.load(Ordering::SeqCst);
        let is_told = self.is_told_of(flushed);
        let is_answered = self.is_over || self.rest.is_empty();
        let is_right = match fault {
            Some(ServeFault::Write) => {
                !self.is_refused && self.heard == flushed.saturating_add(1)
            }
            Some(_) => is_told,
            None => is_told && is_answered,
        };
        is_right && !self.is_wrong
    }

    /// Whether so many commands were heard, and the last was refused just where its reply is a
    /// refusal.
    fn is_told_of(&self, replies: usize) -> bool {
        let is_refusal = match reply_at(self.hears, replies) {
            Some(reply) => reply.starts_with(b"refused "),
            None => false,
        };
        self.heard == replies && self.is_refused == is_refusal
    }
}

impl<'a> Listener for Beside<'a> {
    ghost told = { λ _. record { bytes = None; loan = None } };

    ghost may_tell = { λ _ _. ⊤ };

    fn on_lines(&mut self, text: &[u8]) {
        let is_told = self.is_told_of(self.flushed.load(Ordering::SeqCst));
        self.is_wrong = self.is_wrong || self.is_over || !is_told;
        if self.rest.is_empty() {
            self.rest = self.says;
        }
        match self.rest.strip_prefix(text) {
            Some(rest) if text.ends_with(b"\n") => self.rest = rest,
            _ => self.is_wrong = true,
        }
        self.heard = self.heard.saturating_add(1);
        self.is_over = text == b"bye\n".as_slice();
        self.is_refused = false;
    }

    fn on_refusal(&mut self, refusal: Refusal) {
        let flushed = self.flushed.load(Ordering::SeqCst);
        let is_its = refusal.line().as_bytes().strip_suffix(b"\n") == reply_at(self.hears, flushed);
        let is_next = self.heard == flushed;
        self.is_wrong = self.is_wrong || self.is_refused || !is_next || !is_its;
        self.is_refused = true;
    }
}

/// The reply of this number, counted from 1, of a client that hears these over and over.
fn reply_at(replies: &[u8], number: usize) -> Option<&[u8]> {
    let lines = replies.iter().filter(|b| **b == b'\n').count();
    let place = number.checked_sub(1)?.checked_rem(lines)?;
    replies.split(|b| *b == b'\n').nth(place)
}

/// Three commands, and how each is refused: the first and the last.
const COMMANDS: [(&str, Refusal); 3] = [
    ("hello\n", Refusal::Line),
    ("progress\n", Refusal::Line),
    ("show 1\n", Refusal::Unknown),
];

/// Whether a listener is right beside whom these come to pass: `h`, the next command is heard; `s`,
/// it isn't; `f`, a reply is flushed; and `r`, the refusal of the command that came last is told.
fn is_right_after(events: &str) -> bool {
    let says = "hello\nprogress\nshow 1\n";
    let hears = "refused line\nprogress run 0 done 0\nrefused unknown\n";
    let flushed = AtomicUsize::new(0);
    let mut beside = Beside::of(&Script::of(says, hears, 0), &flushed);
    let mut commands = COMMANDS.iter();
    let mut last = Refusal::Line;
    for event in events.as_bytes() {
        match *event {
            b'f' => {
                flushed.fetch_add(1, Ordering::SeqCst);
            }
            b'r' => beside.on_refusal(last),
            _ => {
                let Some((text, refusal)) = commands.next() else {
                    return false;
                };
                last = *refusal;
                if *event == b'h' {
                    beside.on_lines(text.as_bytes());
                }
            }
        }
    }
    beside.is_right(None)
}

/// Three commands are to be heard, and not two, each before its refusal, which is to be told once,
/// after its reply.
#[test]
fn a_listener_sees_what_it_is_not_told(rt: HostRuntime) {
    assert!(rt; is_right_after("hfrhfhfr"));
    for events in [
        "hfrhf",
        "hfrsfhfr",
        "hrfhfhfr",
        "hfhrfhfr",
        "hfhfhfr",
        "hfrhfhf",
        "hfrrhfhfr",
        "hfrhfrhfr",
    ] {
        assert!(rt; !is_right_after(events), "at {events}");
    }
}

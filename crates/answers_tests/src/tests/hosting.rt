//! A host whose clients' bytes are all known.

ghost use Rattle.std.specs.Prelude.{◌≡◌, ◌≤◌, true, IfOk, Some, length, map};
ghost use Rattle.exchange_limits.specs.declared.limits.TheConstants.{MAX_SESSIONS};
ghost use Rattle.batch_book.specs.History.{AreUnstopped};
ghost use Rattle.session_answers.specs.HostAnswers.{seen_end, AreHosted};
ghost use Rattle.answers_tests.specs.Known.{known_clients};

use crate::tests::books::{FailsOnce, is_left, small_book};
use batch_book::{Book, EntryLog, History};
use book_record::attach_stream;
use client_session::ServeFault;
use exchange_limits::WorkerCount;
use plan_answers::Answer;
use refusals::Refusal;
use session_answers::{
    ClientStreams, ClosedSessions, Ending, Hosted, PassTrace, ThreadsStarted, host_on,
};
use std::alloc::Global;
use std::io;
use std::io::ErrorKind;
use std::marker::Brand;
use std::sync::Wait;
use std::thread::Threads;
use std::time::Clock;

/// Clients each of whom says what is here, and whose replies are kept.
#[derive(Drop)]
struct KnownStreams<'a> {
    alloc: Global,
    said: &'a [&'a [u8]],
}

impl<'a> ClientStreams for KnownStreams<'a> {
    ghost use Rattle.std.specs.Prelude.{Some, ⊤};
    ghost use Rattle.answers_tests.specs.Known.{known_clients};

    type Reader = &'a [u8];

    type Writer = Vec<u8>;

    type Receipt = Vec<u8>;

    type Desk = PassTrace;

    type Pass = ();

    ghost known = { λ d. known_clients d.said.now };

    ghost received = { λ told. Some told.items };

    ghost admits = { λ _ _ _. ⊤ };

    ghost passes = { λ desk. desk };

    fn clients(&self) -> usize {
        self.said.len()
    }

    fn name(&self, _client: usize) -> &str {
        "client"
    }

    fn pass(&self, desk: &mut PassTrace, _client: usize) {
        desk.give("client");
    }

    fn admit(&self, desk: &mut PassTrace) {
        desk.admit();
    }

    fn open(
        &self,
        _there: ThreadsStarted,
        client: usize,
        _pass: (),
    ) -> io::Result<(&'a [u8], Vec<u8>)> {
        match self.said.get(client) {
            Some(said) => Ok((*said, Vec::new(self.alloc))),
            None => Err(io::Error::from(ErrorKind::NotFound)),
        }
    }

    fn close(&self, told: Vec<u8>) -> Vec<u8> {
        told
    }
}

/// What is left of a host of such clients, over this book.
fn host_known<K: History + Send, R: Clock + Threads + Wait + Sync>(
    rt: &R,
    alloc: Global,
    book: Book<K>,
    said: &[&[u8]],
) -> Result<Hosted<Vec<u8>, K>, (Refusal, Book<K>)>
    requires whole { book.whole ≡ true }
    requires stand { book.durable ≡ book.history }
    requires unstopped { AreUnstopped book.history }
    requires some { 1 ≤ length said.now }
    requires few { length said.now ≤ MAX_SESSIONS }
    ensures { IfOk result (λ hosted. AreHosted K.loses book (known_clients said.now)
        (map (seen_end (λ told. Some told.items)) hosted.endings.items) hosted.closing.answer
        hosted.closing.book) }
{
    let streams = KnownStreams { alloc, said };
    let mut desk = PassTrace::none();
    host_on(rt, alloc, book, WorkerCount::ONE, &streams, &mut desk)
}

/// Whether a session ended by itself, and its client was told this.
fn was_told(ending: &Ending<Vec<u8>>, told: &str) -> bool {
    match ending {
        Ending::Served {
            fault: None,
            receipt,
        } => receipt.as_slice() == told.as_bytes(),
        _ => false,
    }
}

/// Whether two sessions ended by themselves, and their clients were told this.
fn were_told(endings: &[Ending<Vec<u8>>], told: [&str; 2]) -> bool {
    match endings {
        [one, other] => {
            let is_told = was_told(one, told[0]);
            was_told(other, told[1]) && is_told
        }
        _ => false,
    }
}

/// Whether the answer is this text, under this status.
fn is_answer(answer: &Answer, text: &str, status: u8) -> bool {
    answer.status() == status && answer.text() == text.as_bytes()
}

/// Whether each of two clients is told its own replies, the answer has both, and the rack has what
/// both wrote.
fn are_hosted<R: Clock + Threads + Wait + Sync>(rt: &R, alloc: Global) -> bool {
    let said: [&[u8]; 2] = [
        b"poke 0 80000800 000000aa\npeek 0 80000800\n",
        b"poke 0 80000804 000000bb\nbye\n",
    ];
    let Some(book) = small_book(alloc) else {
        return false;
    };
    match host_known(rt, alloc, book, &said) {
        Ok(Hosted { closing, endings }) => {
            let are_told = were_told(
                endings.as_slice(),
                ["poked\nword 000000aa\n", "poked\nbye\n"],
            );
            let is_answer = is_answer(&closing.answer, "session 0 client\nsession 1 client\n", 0);
            let is_left = is_left(&closing.book, &[0xaa, 0, 0, 0, 0xbb, 0, 0, 0]);
            are_told && is_answer && is_left
        }
        Err(_) => false,
    }
}

#[test]
fn known_clients_are_told_their_own_replies(rt: HostRuntime) {
    assert!(rt; are_hosted(&rt, rt.alloc()));
}

/// Whether a session ended since a call couldn't be recorded.
fn was_lost(ending: &Ending<Vec<u8>>) -> bool {
    match ending {
        Ending::Served { fault, .. } => *fault == Some(ServeFault::Record),
        Ending::Unopened => false,
    }
}

/// Whether a session ended so, and was told nothing.
fn was_lost_untold(ending: &Ending<Vec<u8>>) -> bool {
    match ending {
        Ending::Served { fault, receipt } => {
            receipt.is_empty() && *fault == Some(ServeFault::Record)
        }
        Ending::Unopened => false,
    }
}

/// Whether each of three sessions ended so.
fn are_lost(endings: &[Ending<Vec<u8>>]) -> bool {
    endings.len() == 3 && endings.iter().all(was_lost_untold)
}

/// What three clients say, each in one read, and are to hear.
const SAID: [&[u8]; 3] = [b"peek 0 80000800\npeek 0 80000800\nbye\n"; 3];

const HEARD: &str = "word 00000000\nword 00000000\nbye\n";

/// How the sessions of clients who say this end over a record one writing of which fails after so
/// many, the answer, and whether the record is whole then.
fn host_recorded<R: Clock + Threads + Wait + Sync>(
    rt: &R,
    alloc: Global,
    said: &[&[u8]],
    good: usize,
) -> Option<(Vec<Ending<Vec<u8>>>, Answer, bool)>
    requires some { 1 ≤ length said.now }
    requires few { length said.now ≤ MAX_SESSIONS }
{
    let book = small_book(alloc)?;
    let book = attach_stream::<FailsOnce, Brand>(alloc, book, 0, FailsOnce { good }, false);
    match host_known(rt, alloc, book, said) {
        Ok(Hosted { closing, endings }) => {
            let ClosedSessions { answer, book } = closing;
            Some((endings, answer, book.log().is_whole()))
        }
        Err(_) => None,
    }
}

/// Whether each of three clients is told nothing, and each session ends since its calls couldn't be
/// recorded, where the first writing of all fails.
fn ends_all<R: Clock + Threads + Wait + Sync>(rt: &R, alloc: Global) -> bool {
    let text = "session 0 client\nended record\nsession 1 client\nended record\n\
        session 2 client\nended record\n";
    let Some((endings, answer, is_whole)) = host_recorded(rt, alloc, &SAID, 0) else {
        return false;
    };
    let are_lost = are_lost(endings.as_slice());
    let is_answer = is_answer(&answer, text, 1);
    are_lost && is_answer && !is_whole
}

#[test]
fn a_broken_record_ends_all_sessions(rt: HostRuntime) {
    assert!(rt; ends_all(&rt, rt.alloc()));
}

/// Whether a client was told all, and its session ended by itself; or nothing, and its record
/// broke.
fn was_told_all_or_nothing(ending: &Ending<Vec<u8>>) -> bool {
    was_told(ending, HEARD) || was_lost_untold(ending)
}

/// Whether each of three clients was told all or nothing, and one was told all. A record is whole
/// just where no session was lost.
fn are_told_whole(endings: &[Ending<Vec<u8>>], is_whole: bool) -> bool {
    let are_right = endings.iter().all(was_told_all_or_nothing);
    let is_one_told = endings.iter().any(|ending| was_told(ending, HEARD));
    let is_one_lost = endings.iter().any(was_lost);
    endings.len() == 3 && are_right && is_one_told && is_whole != is_one_lost
}

/// Whether each of three clients is told all or nothing, and one is told all, where the second
/// writing of all fails. One writing may have had the entries of all.
fn tells_some<R: Clock + Threads + Wait + Sync>(rt: &R, alloc: Global) -> bool {
    match host_recorded(rt, alloc, &SAID, 1) {
        Some((endings, _, is_whole)) => are_told_whole(endings.as_slice(), is_whole),
        None => false,
    }
}

#[test]
fn what_a_writing_had_is_told_whole(rt: HostRuntime) {
    assert!(rt; tells_some(&rt, rt.alloc()));
}

/// What many clients say, a line each.
const LINES: [&[u8]; 16] = [b"peek 0 80000800\n"; 16];

/// Whether each of many clients is told its word, where none writes after the last.
fn wakes_all<R: Clock + Threads + Wait + Sync>(rt: &R, alloc: Global) -> bool {
    match host_recorded(rt, alloc, &LINES, usize::MAX) {
        Some((endings, _, is_whole)) => {
            let are_told = endings
                .iter()
                .all(|ending| was_told(ending, "word 00000000\n"));
            are_told && is_whole
        }
        None => false,
    }
}

#[test]
fn all_who_wait_for_the_last_writing_are_woken(rt: HostRuntime) {
    assert!(rt; wakes_all(&rt, rt.alloc()));
}

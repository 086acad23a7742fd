//! A call of a book that raises the word of its exchange.

ghost use Rattle.std.specs.Prelude.{◌≡◌, ◌<◌, ◌||◌, true, IfOk, OnErr, is_err};
ghost use Rattle.batch_book.specs.Answering.{IsReplyTo};
ghost use Rattle.batch_book.specs.History.{AreUnstopped};
ghost use Rattle.batch_book.specs.Recording.{Applies, value_made};
ghost use Rattle.batch_book.specs.Replies.{NeverFail};
ghost use Rattle.batch_book.specs.Seats.{Reaches};

use crate::book::Book;
use crate::call::Call;
use crate::entry_log::EntryLog;
use crate::raise::Raise;
use crate::reply::Reply;
use crate::unrecorded::Unrecorded;
use crossbar::ConfigPort;
use peek_poke::WireMaker;
use progress_word::{ProgressWord, Watcher};
use schedule_certificate::Gate;
use setting_runner::Plant;
use std::thread::Threads;

/// One call of the book, which raises the word from the watcher while a run goes on.
#[inline(always)]
pub(crate) fn apply<
    R: Threads + Sync,
    P: ConfigPort,
    W: WireMaker + Sync,
    G: Gate + Sync,
    H: EntryLog,
>(
    rt: &R,
    book: &mut Book<H>,
    plant: &mut Plant<P, W, G>,
    word: &ProgressWord,
    watcher: Watcher,
    session: usize,
    call: Call,
) -> (Result<Reply, Unrecorded>, Watcher)
    requires word { watcher.word ≡ word.now }
    requires parts { 0 < watcher.parts }
    ensures reply { IfOk result.0 (IsReplyTo call) }
    ensures step { Applies book.old session call result.0 book.new }
    ensures waits { H.loses ≡ true → book.new.durable ≡ book.old.durable }
    ensures opening { book.new.opening ≡ book.old.opening }
    ensures reaches { Reaches watcher (value_made result.0) result.1 }
    ensures quiet { value_made result.0 ≡ 0 → result.1 ≡ watcher }
    ensures unstopped { (NeverFail P.ConfigPort W.is_sure → AreUnstopped book.old.history)
        → NeverFail P.ConfigPort W.is_sure → AreUnstopped book.new.history }
    ensures loses { OnErr result.0 (H.loses ≡ true) }
{
    let mut raise = Raise {
        word,
        watcher,
        run: book.next_run(),
    };
    let made = book.try_apply(rt, session, call, plant, &mut raise);
    let Raise {
        word: _,
        watcher,
        run: _,
    } = raise;
    (made, watcher)
}

/// Whether a record is broken that was broken before, or after such a call.
pub(crate) fn is_broken(made: &Result<Reply, Unrecorded>, before: bool) -> bool
    ensures { result ≡ is_err made.now || before }
{
    made.is_err() || before
}

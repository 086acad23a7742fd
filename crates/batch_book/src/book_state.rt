//! What lies under the book's lock of an exchange with group commit.

ghost use Rattle.std.specs.Prelude.{◌≡◌, ◌+◌, ◌++◌, ◌<◌, [], true, length, Some, IfOk};
ghost use Rattle.std.specs.Option.{option_map_or};
ghost use Rattle.batch_book.specs.declared.limits.TheConstants.{BOOK_SIDE};
ghost use Rattle.batch_book.specs.Answering.{IsReplyTo};
ghost use Rattle.batch_book.specs.History.{AreUnstopped};
ghost use Rattle.batch_book.specs.Recording.{made_in, noted, marked_in};
ghost use Rattle.batch_book.specs.Places.{are_up_to};
ghost use Rattle.batch_book.specs.Replies.{NeverFail};
ghost use Rattle.batch_book.specs.Seats.{IsAsked, open_seat};
ghost use Rattle.batch_book.specs.Sides.{side_lists};

use crate::access::ExchangeAccess;
use crate::book::Book;
use crate::call::Call;
use crate::calling::{apply, is_broken};
use crate::commit_queue::CommitQueue;
use crate::naming::ExchangeName;
use crate::noted::{AskedCall, NotedEntry};
use crate::pending_entries::PendingEntries;
use crate::reply::Reply;
use crate::seat::{Seat, SeatInner};
use crate::unrecorded::Unrecorded;
use crossbar::ConfigPort;
use peek_poke::WireMaker;
use progress_word::ProgressWord;
use schedule_certificate::Gate;
use session_lists::OwnList;
use setting_runner::Plant;
use std::snapshot::Snapshot;
use std::sync::ledger::Share;
use std::sync::{Mutex, Wait};
use std::thread::Threads;

/// The book, whose recorder is lent, and the plant; the book's own list, which has its history and
/// those entries that were queued; and how many entries the exchange has made. The rest is as with
/// a history that writes all itself.
#[derive(Drop)]
pub struct BookState<L: ExchangeName, P: ConfigPort, W: WireMaker, G, E: PendingEntries> {
    pub book: Book<E>,
    pub plant: Plant<P, W, G>,
    pub own: Option<OwnList<NotedEntry, L>>,
    pub pushed: u64,
    pub ghost its: { option_map_or (λ o. o.session) own 0 ≡ BOOK_SIDE },
    pub ghost lists: { side_lists L.earlier (option_map_or (λ o. o.list) own [])
        ≡ (book.history, book.durable) },
    pub ghost many: { length book.history ≡ length L.earlier + pushed },
    pub ghost waits: { E.loses ≡ true },
    pub ghost opened: { book.opening ≡ L.opening },
    pub ghost unstopped: { NeverFail P.ConfigPort W.is_sure → AreUnstopped book.history },
}

impl<
    L: ExchangeName,
    P: ConfigPort,
    W: WireMaker + Sync,
    G: Gate + Sync,
    E: PendingEntries,
> BookState<L, P, W, G, E> {
    /// One call of a seat, whose entry is pending until the record has it. No call is made once a
    /// writing of the record has failed, nor where there is no place for an entry.
    pub fn call<R: Threads + Wait + Sync>(
        &mut self,
        rt: &R,
        waiting: &Mutex<CommitQueue<L, E>>,
        word: &ProgressWord,
        seat: &mut Seat<L>,
        call: Call,
    ) -> Result<Reply, Unrecorded>
        requires { seat.old.exchange ≡ Some word.now }
        ensures reply { IfOk result (IsReplyTo call) }
        ensures asked { IsAsked seat.old call result seat.new }
    {
        let session = seat.session;
        let Some(place) = seat.place.take() else {
            unreachable!()
        };
        let lost = waiting.lock(rt).has_write_failed();
        if lost || self.pushed == u64::MAX {
            seat.place = Some(place.break_off());
            return Err(Unrecorded);
        }
        let (made, place) = self.ask(rt, waiting, word, session, place, call);
        seat.place = Some(place);
        made
    }

    // One call of the book, which raises the word from the access's watcher, and is noted.
    fn ask<R: Threads + Wait + Sync>(
        &mut self,
        rt: &R,
        waiting: &Mutex<CommitQueue<L, E>>,
        word: &ProgressWord,
        session: usize,
        place: SeatInner<L>,
        call: Call,
    ) -> (Result<Reply, Unrecorded>, SeatInner<L>)
        requires word { place.access.watcher.word ≡ word.now }
        requires session { place.own.session ≡ session }
        requires few { self.old.pushed < 18446744073709551615 }
        ensures reply { IfOk result.0 (IsReplyTo call) }
        ensures asked { IsAsked
            (open_seat place.access.watcher session (made_in place.own.list)
            (marked_in place.own.list) place.access.parts place.broken)
            call result.0
            (open_seat result.1.access.watcher session (made_in result.1.own.list)
            (marked_in result.1.own.list) result.1.access.parts result.1.broken) }
        ensures session { result.1.own.session ≡ session }
    {
        let SeatInner {
            access,
            own,
            last,
            has_pending: _,
            broken,
        } = place;
        let ExchangeAccess {
            mut share,
            watcher,
            parts,
        } = access;
        let asked = Snapshot::of(&call);
        let (made, watcher) = apply(
            rt,
            &mut self.book,
            &mut self.plant,
            word,
            watcher,
            session,
            call,
        );
        let Some(its) = self.own.take() else {
            unreachable!()
        };
        let before = Noting {
            own,
            its,
            pushed: self.pushed,
            last,
        };
        let Noting {
            own,
            its,
            pushed,
            last,
        } = note_made(
            rt,
            waiting,
            &mut self.book,
            &mut share,
            before,
            AskedCall {
                session,
                call: asked,
            },
            &made,
        );
        self.own = Some(its);
        self.pushed = pushed;
        let access = ExchangeAccess {
            share,
            watcher,
            parts,
        };
        let broken = is_broken(&made, broken);
        (
            made,
            SeatInner {
                access,
                own,
                last,
                has_pending: true,
                broken,
            },
        )
    }
}

/// What a note of a call changes: the lists of the session and of the book's side, how many entries
/// the exchange has made, and after which place the session has none.
struct Noting<L: ExchangeName> {
    own: OwnList<NotedEntry, L>,
    its: OwnList<NotedEntry, L>,
    pushed: u64,
    last: u64,
}

// Notes a call in the queue, and queues its entry, if the history has pending ones.
fn note_made<L: ExchangeName, E: PendingEntries, R: Wait>(
    rt: &R,
    waiting: &Mutex<CommitQueue<L, E>>,
    book: &mut Book<E>,
    share: &mut Share<L>,
    before: Noting<L>,
    asked: AskedCall,
    made: &Result<Reply, Unrecorded>,
) -> Noting<L>
    requires session { before.own.session ≡ asked.session }
    requires side { before.its.session ≡ BOOK_SIDE }
    requires parts { 0 < share.old.parts }
    requires few { before.pushed < 18446744073709551615 }
    requires grown { book.old.history ≡ (side_lists L.earlier before.its.list).0
        ++ made_in (noted asked.session (before.pushed + 1) asked.call.value made.now) }
    requires durable { book.old.durable ≡ (side_lists L.earlier before.its.list).1 }
    requires many { length (side_lists L.earlier before.its.list).0
        ≡ length L.earlier + before.pushed }
    requires low { are_up_to before.last before.own.list ≡ true }
    ensures history { book.new.history ≡ book.old.history }
    ensures opening { book.new.opening ≡ book.old.opening }
    ensures session { result.own.session ≡ asked.session }
    ensures list { result.own.list ≡ before.own.list
        ++ noted asked.session (before.pushed + 1) asked.call.value made.now }
    ensures side { result.its.session ≡ BOOK_SIDE }
    ensures lists { side_lists L.earlier result.its.list ≡ (book.new.history, book.new.durable) }
    ensures many { length book.new.history ≡ length L.earlier + result.pushed }
    ensures low { are_up_to result.last result.own.list ≡ true }
    ensures amount { share.new.amount ≡ share.old.amount
        + length (made_in (noted asked.session (before.pushed + 1) asked.call.value made.now)) }
    ensures parts { share.new.parts ≡ share.old.parts }
{
    match made {
        Ok(reply) => {
            if !reply.is_logged() {
                return before;
            }
            let Noting {
                own,
                its,
                pushed,
                last,
            } = before;
            let place = pushed + 1;
            let (own, its) = waiting
                .lock(rt)
                .enqueue(book, place, share, (own, its), asked, reply);
            Noting {
                own,
                its,
                pushed: place,
                last: last.max(place),
            }
        }
        Err(_) => before,
    }
}

//! What lies under the lock of an exchange that loses no entry.

ghost use Rattle.std.specs.Prelude.{◌≡◌, ◌+◌, ◌++◌, length, true, false, Some, IsSome, IfOk, OnErr};
ghost use Rattle.batch_book.specs.Answering.{IsReplyTo};
ghost use Rattle.batch_book.specs.History.{AreUnstopped};
ghost use Rattle.batch_book.specs.Recording.{Applies, made_in, marked_in};
ghost use Rattle.batch_book.specs.Replies.{NeverFail};
ghost use Rattle.batch_book.specs.Seats.{IsAsked, open_seat};

use crate::access::ExchangeAccess;
use crate::book::Book;
use crate::call::Call;
use crate::calling::{apply, is_broken};
use crate::entry_log::EntryLog;
use crate::naming::ExchangeName;
use crate::noted::{AskedCall, NotedEntry, note_call};
use crate::reply::Reply;
use crate::seat::{Seat, SeatInner, mark};
use crate::unrecorded::Unrecorded;
use crossbar::ConfigPort;
use peek_poke::WireMaker;
use progress_word::ProgressWord;
use schedule_certificate::Gate;
use session_lists::Keeper;
use setting_runner::Plant;
use std::snapshot::Snapshot;
use std::sync::ledger;
use std::thread::Threads;

/// The book and the plant, the ledger's total, which is the number of entries that were made, and
/// the keeper of the sessions' lists, which knows what the book's history has beyond the entries
/// that the exchange's name says. The book was opened with the words that the name says. Where port
/// and wires never fail, no run of the book has stopped.
#[derive(Drop)]
pub struct LockedBook<L: ExchangeName, P: ConfigPort, W: WireMaker, G, H: EntryLog> {
    pub book: Book<H>,
    pub plant: Plant<P, W, G>,
    pub entries: ledger::Book<L>,
    pub keeper: Keeper<NotedEntry, L>,
    pub ghost sure: { H.loses ≡ false },
    pub ghost counted: { length (made_in keeper.history) ≡ entries.total },
    pub ghost kept: { book.history ≡ L.earlier ++ made_in keeper.history },
    pub ghost opened: { book.opening ≡ L.opening },
    pub ghost unstopped: { NeverFail P.ConfigPort W.is_sure → AreUnstopped book.history },
}

impl<L: ExchangeName, P: ConfigPort, W: WireMaker + Sync, G: Gate + Sync, H: EntryLog> LockedBook<
    L,
    P,
    W,
    G,
    H,
> {
    /// One call of a seat. The history and what the seat asked get the entry, or neither does. The
    /// reply can be told.
    pub fn call<R: Threads + Sync>(
        &mut self,
        rt: &R,
        word: &ProgressWord,
        seat: &mut Seat<L>,
        call: Call,
    ) -> Result<Reply, Unrecorded>
        requires { seat.old.exchange ≡ Some word.now }
        ensures reply { IfOk result (IsReplyTo call) }
        ensures step { Applies self.old.book seat.old.session call result self.new.book }
        ensures asked { IsAsked seat.old call result seat.new }
        ensures told { seat.new.log ≡ seat.new.asked }
        ensures loses { OnErr result (H.loses ≡ true) }
    {
        let session = seat.session;
        let Some(place) = seat.place.take() else {
            unreachable!()
        };
        let (made, place) = self.ask(rt, word, session, place, call);
        seat.place = Some(self.mark(session, place));
        made
    }

    /// Notes that all that the seat has asked can be told.
    pub fn sync(&mut self, seat: &mut Seat<L>)
        requires { IsSome seat.old.exchange }
        ensures book { self.new.book ≡ self.old.book }
        ensures seat { seat.new ≡ record seat.old { log = seat.old.asked } }
    {
        let session = seat.session;
        let Some(place) = seat.place.take() else {
            unreachable!()
        };
        seat.place = Some(self.mark(session, place));
    }

    // Notes that all that a session has asked can be told.
    fn mark(&mut self, session: usize, place: SeatInner<L>) -> SeatInner<L>
        requires session { place.own.session ≡ session }
        ensures book { self.new.book ≡ self.old.book }
        ensures access { result.access ≡ place.access }
        ensures made { made_in result.own.list ≡ made_in place.own.list }
        ensures told { marked_in result.own.list ≡ made_in place.own.list }
        ensures session { result.own.session ≡ session }
        ensures broken { result.broken ≡ place.broken }
    {
        mark(&mut self.keeper, session, place)
    }

    // One call of the book, which raises the word from the access's watcher, and is noted.
    fn ask<R: Threads + Sync>(
        &mut self,
        rt: &R,
        word: &ProgressWord,
        session: usize,
        place: SeatInner<L>,
        call: Call,
    ) -> (Result<Reply, Unrecorded>, SeatInner<L>)
        requires word { place.access.watcher.word ≡ word.now }
        requires session { place.own.session ≡ session }
        ensures reply { IfOk result.0 (IsReplyTo call) }
        ensures step { Applies self.old.book session call result.0 self.new.book }
        ensures asked { IsAsked
            (open_seat place.access.watcher session (made_in place.own.list)
            (marked_in place.own.list) place.access.parts place.broken)
            call result.0
            (open_seat result.1.access.watcher session (made_in result.1.own.list)
            (marked_in result.1.own.list) result.1.access.parts result.1.broken) }
        ensures session { result.1.own.session ≡ session }
        ensures loses { OnErr result.0 (H.loses ≡ true) }
    {
        let SeatInner {
            access,
            own,
            last,
            has_pending: _,
            broken,
        } = place;
        let ExchangeAccess {
            mut share,
            watcher,
            parts,
        } = access;
        let asked = Snapshot::of(&call);
        let (made, watcher) = apply(
            rt,
            &mut self.book,
            &mut self.plant,
            word,
            watcher,
            session,
            call,
        );
        let own = note_call(
            &mut self.keeper,
            &mut self.entries,
            &mut share,
            own,
            AskedCall {
                session,
                call: asked,
            },
            &made,
            0,
        );
        let access = ExchangeAccess {
            share,
            watcher,
            parts,
        };
        let broken = is_broken(&made, broken);
        (
            made,
            SeatInner {
                access,
                own,
                last,
                has_pending: true,
                broken,
            },
        )
    }
}

//! A session's seat at an exchange.

ghost use Rattle.std.specs.Prelude.{◌≡◌, ◌≤◌, ◌++◌, ◌∷◌, [], true, false, length, Some, IsSome};
ghost use Rattle.batch_book.specs.Places.{are_up_to};
ghost use Rattle.batch_book.specs.Recording.{made_in, mark, marked_in};
ghost use Rattle.progress_word.specs.declared.limits.TheConstants.{ALL_PARTS};
ghost use Rattle.batch_book.specs.Values.{greatest};
ghost use Rattle.batch_book.specs.Seats.{open_seat, raised_for};

use crate::access::ExchangeAccess;
use crate::naming::ExchangeName;
use crate::noted::NotedEntry;
use progress_word::ALL_PARTS;
use session_lists::{Keeper, OwnList};
use std::marker::Model;

/// What a seat has of its exchange: its access, its session's list, after which place it has no
/// entry, whether it may have asked something that can't be told yet, and whether the record of its
/// calls is broken.
#[derive(Drop)]
pub(crate) struct SeatInner<L: ExchangeName> {
    pub(crate) access: ExchangeAccess<L>,
    pub(crate) own: OwnList<NotedEntry, L>,
    pub(crate) last: u64,
    pub(crate) has_pending: bool,
    pub(crate) broken: bool,
    pub(crate) ghost counted: { access.share.amount ≡ length (made_in own.list) },
    pub(crate) ghost highest: { access.watcher.raised
        ≡ greatest (raised_for L.earlier own.session (made_in own.list)) },
    pub(crate) ghost low: { are_up_to last own.list ≡ true },
    pub(crate) ghost settled: { has_pending ≡ false → marked_in own.list ≡ made_in own.list },
}

impl<L: ExchangeName> SeatInner<L> {
    /// This seat, once the record of its calls is broken.
    pub(crate) fn break_off(self) -> SeatInner<L>
        ensures access { result.access ≡ self.access }
        ensures own { result.own ≡ self.own }
        ensures broken { result.broken ≡ true }
    {
        let SeatInner {
            access,
            own,
            last,
            has_pending,
            broken: _,
        } = self;
        SeatInner {
            access,
            own,
            last,
            has_pending,
            broken: true,
        }
    }
}

/// Notes that all that a session has asked can be told.
pub(crate) fn mark<L: ExchangeName>(
    keeper: &mut Keeper<NotedEntry, L>,
    session: usize,
    place: SeatInner<L>,
) -> SeatInner<L>
    requires session { place.own.session ≡ session }
    ensures history { keeper.new.history ≡ keeper.old.history ++ mark session ∷ [] }
    ensures access { result.access ≡ place.access }
    ensures made { made_in result.own.list ≡ made_in place.own.list }
    ensures told { marked_in result.own.list ≡ made_in place.own.list }
    ensures session { result.own.session ≡ session }
    ensures broken { result.broken ≡ place.broken }
{
    let SeatInner {
        access,
        own,
        last,
        has_pending: _,
        broken,
    } = place;
    let own = keeper.add(own, &NotedEntry::mark(session));
    SeatInner {
        access,
        own,
        last,
        has_pending: false,
        broken,
    }
}

/// The seat of a session at an exchange. Contracts see the list of what the session has asked, and
/// that of what could be told to it. No byte of them is kept.
pub struct Seat<L: ExchangeName> {
    pub(crate) session: usize,
    // There, but while a call is made.
    pub(crate) place: Option<SeatInner<L>>,
}

// Said once, so that no function that lets go of one has to say it again.
impl<L: ExchangeName> Drop for Seat<L> {
    fn drop(self) {
        let Seat {
            session: _,
            place: _,
        } = self;
    }
}

impl<L: ExchangeName> Model for Seat<L> {
    ghost use Rattle.std.specs.Prelude.{◌≡◌, [], false, IfSome, option_map};
    ghost use Rattle.std.specs.Option.{option_map_or};
    ghost use Rattle.batch_book.specs.Recording.{made_in, marked_in};
    ghost use Rattle.batch_book.specs.Seats.{SeatState};

    ghost Value = { SeatState };

    ghost view = { λ s. record {
      exchange = option_map (λ p. p.access.watcher.word) s.place;
      session = s.session;
      asked = option_map_or (λ p. made_in p.own.list) s.place [];
      log = option_map_or (λ p. marked_in p.own.list) s.place [];
      seen = option_map_or (λ p. p.access.watcher.seen) s.place 0;
      raised = option_map_or (λ p. p.access.watcher.raised) s.place 0;
      parts = option_map_or (λ p. p.access.parts) s.place 0;
      broken = option_map_or (λ p. p.broken) s.place false;
    } };

    ghost invariant = { λ s. IfSome s.place (λ p. p.own.session ≡ s.session) };
}

impl<L: ExchangeName> Seat<L> {
    /// The seat of a session that has asked nothing yet.
    pub(crate) fn new(
        session: usize,
        access: ExchangeAccess<L>,
        own: OwnList<NotedEntry, L>,
    ) -> Seat<L>
        requires amount { access.share.amount ≡ 0 }
        requires raised { access.watcher.raised ≡ greatest (raised_for L.earlier session []) }
        requires session { own.session ≡ session }
        requires list { own.list ≡ [] }
        ensures { result ≡ open_seat access.watcher session [] [] access.parts false }
    {
        Seat {
            session,
            place: Some(SeatInner {
                access,
                own,
                last: 0,
                has_pending: false,
                broken: false,
            }),
        }
    }

    /// The number of the session.
    pub fn session(&self) -> usize
        ensures { result ≡ self.now.session }
    {
        self.session
    }

    /// How many parts of its exchange the seat has.
    pub(crate) fn parts(&self) -> usize
        ensures parts { result ≡ self.now.parts }
        ensures limit { result ≤ ALL_PARTS }
    {
        match &self.place {
            Some(place) => place.access.parts,
            None => 0,
        }
    }

    /// Whether it may have asked something that can't be told yet.
    pub fn has_pending(&self) -> bool
        ensures { result ≡ false → self.now.log ≡ self.now.asked }
    {
        match &self.place {
            Some(place) => place.has_pending,
            None => false,
        }
    }

    /// What the seat has of its exchange.
    pub(crate) fn into_inner(self) -> SeatInner<L>
        requires { IsSome self.exchange }
        ensures word { Some result.access.watcher.word ≡ self.exchange }
        ensures seen { result.access.watcher.seen ≡ self.seen }
        ensures parts { result.access.parts ≡ self.parts }
        ensures session { result.own.session ≡ self.session }
        ensures made { made_in result.own.list ≡ self.asked }
        ensures told { marked_in result.own.list ≡ self.log }
    {
        let Seat { session: _, place } = self;
        match place {
            Some(place) => place,
            None => unreachable!(),
        }
    }
}

//! The keeper of the history, and the lists of sessions.

ghost use Rattle.std.specs.Prelude.{◌≡◌, ◌+◌, ◌<◌, ◌++◌, ◌∷◌, []};
ghost use Rattle.session_lists.specs.Lists.{own_of};

use crate::rule::{AddsEntry, Compares, Deals, Hands, ListsRule, ListsView, SessionItem};
use atomic_table::{Seat, Table};
use std::alloc::{AllocError, Global};
use std::marker::{Brand, Model, PhantomData};

/// Names one history, so that what lies under a lock can be told to be of it.
pub trait HistoryName {
    ghost use Rattle.atomic_table.specs.Seated.{TableId};

    ghost table: { TableId };
}

impl HistoryName for Brand {
    ghost use Rattle.session_lists.specs.Views.{no_table};

    ghost table = { no_table };
}

/// An empty history, which no type names yet. Contracts see which it is.
#[derive(Drop)]
pub struct Fresh<E: SessionItem + Drop> {
    table: Table<E, ListsView<E>, (), ListsRule<E>, Global>,
    seat: Seat<E, ListsView<E>>,
}

impl<E: SessionItem + Drop> Model for Fresh<E> {
    ghost use Rattle.std.specs.Prelude.{◌≡◌, [], ◌<◌};
    ghost use Rattle.atomic_table.specs.Seated.{TableId, table_id_coded};
    ghost use Rattle.session_lists.specs.Lists.{keeper};

    ghost Value = { TableId };

    ghost coded = { table_id_coded };

    ghost view = { λ f. f.table.shared.table_id };

    ghost invariant = { λ f. (f.table.shared.table_id.words ≡ 1)
        × (f.seat.table_id ≡ f.table.shared.table_id) × (f.seat.me ≡ (keeper [] 0, [])) };
}

impl<E: SessionItem + Drop> Fresh<E> {
    /// It takes memory for a table of one word.
    pub fn new(alloc: Global) -> Result<Fresh<E>, AllocError> {
        let (table, seat) = Table::of_words(alloc, &[0], &())?;
        Ok(Fresh { table, seat })
    }

    /// The keeper of the empty history, with no session yet.
    pub fn open<B: HistoryName>(self) -> Keeper<E, B>
        requires { self ≡ B.table }
        ensures history { result.history ≡ [] }
        ensures dealt { result.dealt ≡ 0 }
    {
        let Fresh { table, seat } = self;
        Keeper {
            table,
            seat,
            of: PhantomData,
        }
    }
}

/// The keeper of a history. Contracts see the history, and how many sessions have lists.
#[derive(Drop)]
pub struct Keeper<E: SessionItem + Drop, B: HistoryName> {
    table: Table<E, ListsView<E>, (), ListsRule<E>, Global>,
    seat: Seat<E, ListsView<E>>,
    of: PhantomData<B>,
}

impl<E: SessionItem + Drop, B: HistoryName> Model for Keeper<E, B> {
    ghost use Rattle.std.specs.Prelude.{◌≡◌, []};
    ghost use Rattle.session_lists.specs.Lists.{keeper};
    ghost use Rattle.session_lists.specs.Views.{KeeperView};

    ghost Value = { KeeperView E };

    ghost view = { λ k.
        record { history = k.seat.me.0.history; dealt = k.seat.me.0.dealt } };

    ghost invariant = { λ k. (k.table.shared.table_id ≡ B.table)
        × (B.table.words ≡ 1) × (k.seat.table_id ≡ B.table)
        × (k.seat.me ≡ (keeper k.seat.me.0.history k.seat.me.0.dealt, [])) };
}

/// The list of a session. Contracts see the session and its list.
#[derive(Drop)]
pub struct OwnList<E, B: HistoryName> {
    seat: Seat<E, ListsView<E>>,
    of: PhantomData<B>,
}

impl<E, B: HistoryName> Model for OwnList<E, B> {
    ghost use Rattle.std.specs.Prelude.{◌≡◌, []};
    ghost use Rattle.session_lists.specs.Lists.{owner};
    ghost use Rattle.session_lists.specs.Views.{ListView};

    ghost Value = { ListView E };

    ghost view = { λ o. record { session = o.seat.me.0.session; list = o.seat.me.0.own } };

    ghost invariant = { λ o. (o.seat.table_id ≡ B.table)
        × (o.seat.me ≡ (owner o.seat.me.0.session o.seat.me.0.own, [])) };
}

impl<E: SessionItem + Drop, B: HistoryName> Keeper<E, B> {
    /// The empty list of one more session, before there is any history.
    pub fn deal(&mut self) -> OwnList<E, B>
        requires { self.old.history ≡ [] }
        ensures history { self.new.history ≡ [] }
        ensures dealt { self.new.dealt ≡ self.old.dealt + 1 }
        ensures session { result.session ≡ self.old.dealt }
        ensures list { result.list ≡ [] }
    {
        let Keeper { table, seat, of: _ } = self;
        table.shared.load::<Deals>(seat, 0);
        let own = table.shared.split_seat::<Hands>(seat);
        OwnList {
            seat: own,
            of: PhantomData,
        }
    }

    /// AddsEntry an entry of a session to the history and to the session's list.
    pub fn add(&mut self, own: OwnList<E, B>, entry: &E) -> OwnList<E, B>
        requires { E.session entry.now ≡ own.session }
        ensures history { self.new.history ≡ self.old.history ++ entry.now ∷ [] }
        ensures dealt { self.new.dealt ≡ self.old.dealt }
        ensures session { result.session ≡ own.session }
        ensures list { result.list ≡ own.list ++ entry.now ∷ [] }
    {
        let Keeper { table, seat, of: _ } = self;
        let OwnList { seat: other, of: _ } = own;
        table.shared.join_seat::<Hands>(seat, other);
        table
            .shared
            .compare_exchange_with::<AddsEntry>(seat, 0, 0, 0, entry);
        let own = table.shared.split_seat::<Hands>(seat);
        OwnList {
            seat: own,
            of: PhantomData,
        }
    }

    /// The list of a session is what the history has of it.
    pub fn compare(&mut self, own: OwnList<E, B>) -> OwnList<E, B>
        ensures same { (self.new ≡ self.old) × (result ≡ own) }
        ensures list { own.list ≡ own_of E.session own.session self.old.history }
    {
        let Keeper { table, seat, of: _ } = self;
        let OwnList { seat: other, of: _ } = own;
        table.shared.join_seat::<Hands>(seat, other);
        table.shared.load::<Compares<E>>(seat, 0);
        let own = table.shared.split_seat::<Hands>(seat);
        OwnList {
            seat: own,
            of: PhantomData,
        }
    }
}

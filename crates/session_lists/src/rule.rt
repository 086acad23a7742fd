//! What the rule of the lists speaks of, and the rule for their table.

ghost use Rattle.std.specs.Prelude.{ℕ};

use atomic_table::{Join, Play, Split, TableRule};
use std::collections::LinkedList;
use std::marker::PhantomData;

/// What some session did.
pub trait SessionItem {
    ghost session: { Self → ℕ };
}

/// What is known of the lists from one seat. No value of it is made.
pub struct ListsView<E> {
    /// Whether it is the keeper's, which alone knows the history.
    pub keeps: bool,
    /// The history.
    pub history: LinkedList<E>,
    /// How many sessions have lists.
    pub dealt: u64,
    /// Whether it has the list of a session.
    pub owns: bool,
    /// The number of that session.
    pub session: u64,
    /// Its list.
    pub own: LinkedList<E>,
}

/// The rule, for the table.
pub(crate) struct ListsRule<E> {
    of: PhantomData<E>,
}

impl<E: SessionItem> TableRule<E, ListsView<E>, ()> for ListsRule<E> {
    ghost use Rattle.session_lists.specs.Lists.{KeepsLists, keeper};

    ghost holds = { λ _. KeepsLists E.session };

    ghost first = { λ _. keeper [] 0 };

    ghost use Rattle.std.specs.Prelude.{[]};
}

/// The keeper gets the empty list of one more session.
pub(crate) struct Deals;

impl<E> Play<E, ListsView<E>> for Deals {
    ghost use Rattle.session_lists.specs.Lists.{HasDealt};

    ghost then = { HasDealt };
}

/// The keeper adds an entry to the history, and to the list that it has.
pub(crate) struct AddsEntry;

impl<E> Play<E, ListsView<E>> for AddsEntry {
    ghost use Rattle.session_lists.specs.Lists.{HasAdded};

    ghost then = { HasAdded };
}

/// The keeper compares the history with the list that it has.
pub(crate) struct Compares<E> {
    of: PhantomData<E>,
}

impl<E: SessionItem> Play<E, ListsView<E>> for Compares<E> {
    ghost use Rattle.session_lists.specs.Lists.{HasCompared};

    ghost then = { HasCompared E.session };
}

/// The keeper gives away the list that it has, or takes one in.
pub(crate) struct Hands;

impl<E> Split<ListsView<E>> for Hands {
    ghost use Rattle.session_lists.specs.Lists.{without_own, own_alone};

    ghost left = { without_own };

    ghost right = { own_alone };
}

impl<E> Join<ListsView<E>> for Hands {
    ghost use Rattle.session_lists.specs.Lists.{with_own, nobody};

    ghost both = { with_own };

    ghost spent = { nobody };
}

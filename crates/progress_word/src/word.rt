//! The word, and the watchers from which it is read and raised.

ghost use Rattle.std.specs.Prelude.{◌≡◌, ◌+◌, ◌-◌, ◌<◌, ◌≤◌, IfOk, max};
ghost use Rattle.progress_word.specs.Watchers.{watcher_view, IsAt};

use crate::limits::ALL_PARTS;
use crate::rule::{Loads, MergesIn, Raises, Rises, SplitsOff, WordView};
use atomic_table::{Seat, Table};
use std::alloc::{AllocError, Global};
use std::marker::Model;

/// A word of 64 bits that is never lowered. Contracts see which word it is.
#[derive(Drop)]
pub struct ProgressWord {
    table: Table<u8, WordView, (), Rises, Global>,
}

impl Model for ProgressWord {
    ghost use Rattle.std.specs.Prelude.{◌≡◌};
    ghost use Rattle.atomic_table.specs.Seated.{TableId, table_id_coded};

    ghost Value = { TableId };

    ghost coded = { table_id_coded };

    ghost view = { λ w. w.table.shared.table_id };

    ghost invariant = { λ w. w.table.shared.table_id.words ≡ 1 };
}

/// A place from which a word is read and raised. Contracts see of which word it is, and its view of
/// that.
#[derive(Drop)]
pub struct Watcher {
    seat: Seat<u8, WordView>,
}

impl Model for Watcher {
    ghost use Rattle.std.specs.Prelude.{◌≡◌, []};
    ghost use Rattle.progress_word.specs.Watchers.{WatcherView, watcher_view, watcher_view_coded};

    ghost Value = { WatcherView };

    ghost coded = { watcher_view_coded };

    ghost view = { λ l.
        watcher_view l.seat.table_id l.seat.me.0.seen l.seat.me.0.raised l.seat.me.0.parts };

    ghost invariant = { λ l. l.seat.me.1 ≡ [] };
}

impl ProgressWord {
    /// A word that is 0, and the one watcher, which has all [`ALL_PARTS`].
    pub fn new(alloc: Global) -> Result<(ProgressWord, Watcher), AllocError>
        ensures { IfOk result (λ r. r.1 ≡ watcher_view r.0 0 0 ALL_PARTS) }
    {
        let (table, seat) = Table::of_words(alloc, &[0], &())?;
        Ok((ProgressWord { table }, Watcher { seat }))
    }

    /// The word as it is now, which isn't after what was seen. One atomic load.
    pub fn load(&self, watcher: &mut Watcher) -> u64
        requires { IsAt self.now watcher.old }
        ensures watcher { watcher.new ≡
            watcher_view self.now result watcher.old.raised watcher.old.parts }
        ensures later { watcher.old.seen ≤ result }
        ensures whole { watcher.old.parts ≡ ALL_PARTS → result ≡ watcher.old.raised }
    {
        self.table.shared.load::<Loads>(&mut watcher.seat, 0)
    }

    /// Raises the word to a value, where it is below that. One atomic `fetch_max`. The watcher has
    /// then seen the greater of the value and of what the word was.
    pub fn raise(&self, watcher: &mut Watcher, value: u64)
        requires { IsAt self.now watcher.old }
        ensures word { watcher.new.word ≡ watcher.old.word }
        ensures parts { watcher.new.parts ≡ watcher.old.parts }
        ensures raised { watcher.new.raised ≡ max watcher.old.raised value }
        ensures later { watcher.old.seen ≤ watcher.new.seen }
        ensures seen { value ≤ watcher.new.seen }
    {
        self.table
            .shared
            .fetch_max::<Raises>(&mut watcher.seat, 0, value);
    }

    /// A new watcher, from which as much was seen and nothing raised, with one of the parts.
    pub fn split(&self, watcher: &mut Watcher) -> Watcher
        requires word { IsAt self.now watcher.old }
        requires parts { 1 < watcher.old.parts }
        ensures kept { watcher.new ≡
            watcher_view self.now watcher.old.seen watcher.old.raised (watcher.old.parts - 1) }
        ensures given { result ≡ watcher_view self.now watcher.old.seen 0 1 }
    {
        let seat = self.table.shared.split_seat::<SplitsOff>(&mut watcher.seat);
        Watcher { seat }
    }

    /// One watcher takes in what the other knows, and its parts.
    pub fn join(&self, watcher: &mut Watcher, other: Watcher)
        requires watcher { IsAt self.now watcher.old }
        requires other { IsAt self.now other }
        ensures { watcher.new ≡ watcher_view self.now
            (max watcher.old.seen other.seen)
            (max watcher.old.raised other.raised)
            (watcher.old.parts + other.parts) }
    {
        let Watcher { seat } = other;
        self.table
            .shared
            .join_seat::<MergesIn>(&mut watcher.seat, seat);
    }
}

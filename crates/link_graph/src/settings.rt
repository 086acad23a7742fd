//! Going over the settings of a schedule.

ghost use Rattle.std.specs.Prelude.{◌≡◌};
ghost use Rattle.std.specs.Iterator.{YieldsFirstRef, item_count};
ghost use Rattle.link_graph.specs.Schedules.{lists_of};

use std::marker::Model;

/// The settings of a schedule that are still to come, in order: an iterator over slices of transfer
/// numbers. Contracts see the list of them.
#[derive(Drop)]
pub struct SettingsIter<'a> {
    lists: &'a [Vec<usize>],
}

impl<'a> Model for SettingsIter<'a> {
    ghost use Rattle.std.specs.Prelude.{List, ℕ};
    ghost use Rattle.link_graph.specs.Schedules.{lists_of};

    ghost Value = { List (List ℕ) };

    ghost view = { λ s. lists_of s.lists.now };
}

impl<'a> SettingsIter<'a> {
    /// All of these lists.
    pub(crate) fn of(lists: &'a [Vec<usize>]) -> SettingsIter<'a>
        ensures { result ≡ lists_of lists.now }
    {
        SettingsIter { lists }
    }
}

impl<'a> Iterator for SettingsIter<'a> {
    type Item = &'a [usize];

    ghost next_gives = { YieldsFirstRef (λ s. s) };

    ghost remaining = { item_count (λ s. s) };

    fn next(&mut self) -> Option<&'a [usize]> {
        let (first, others) = self.lists.split_first()?;
        self.lists = others;
        Some(first.as_slice())
    }
}

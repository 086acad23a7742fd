ghost use Rattle.std.specs.Prelude.{◌≡◌};
ghost use Rattle.link_graph.specs.Schedules.{lists_of};

use link_graph::Schedule;
use std::marker::Model;

/// The schedule of a table's colour classes, and how many insertions the table counted.
///
/// Only [`Table::into_schedule`](crate::Table::into_schedule) makes one.
#[derive(Drop)]
pub struct Coloured {
    schedule: Schedule,
    inserted: usize,
}

impl Model for Coloured {
    ghost use Rattle.alternating_path.specs.Classes.{ColouredSettings};

    ghost Value = { ColouredSettings };

    ghost view = { λ s. record { settings = s.schedule; inserted = s.inserted } };
}

impl Coloured {
    pub(crate) fn of(lists: Vec<Vec<usize>>, inserted: usize) -> Coloured
        ensures { result ≡ record { settings = lists_of lists.items; inserted = inserted } }
    {
        Coloured {
            schedule: Schedule::of(lists),
            inserted,
        }
    }

    /// The classes, as the settings of a schedule.
    pub fn schedule(&self) -> &Schedule
        ensures { result.now ≡ self.now.settings }
    {
        &self.schedule
    }

    /// How many insertions the table counted.
    pub fn inserted(&self) -> usize
        ensures { result ≡ self.now.inserted }
    {
        self.inserted
    }
}

impl PartialEq for Coloured {
    ghost use Rattle.std.specs.Prelude.{◌≡◌, ◌↔◌, IsTrue};
    ghost use Rattle.std.specs.Cmp.{and_per, on_per, nat_eq_equiv, partial_equiv_from_equiv};
    ghost use Rattle.link_graph.specs.contracts.schedule.SchedulePartialEq.TheImpl.Laws as lists;
    ghost use Rattle.alternating_path.specs.Equal.{same_coloured};

    ghost eq = { same_coloured };

    ghost laws = { and_per
        (on_per (λ s. s.settings) lists.laws-law)
        (on_per (λ s. s.inserted) (partial_equiv_from_equiv nat_eq_equiv)) };

    fn eq(&self, other: &Coloured) -> bool
        ensures value { result ≡ same_coloured self.now other.now }
        ensures equal { IsTrue result ↔ (self.now ≡ other.now) }
    {
        self.schedule == other.schedule && self.inserted == other.inserted
    }
}

impl Eq for Coloured {
    ghost use Rattle.std.specs.Cmp.{and_equiv, on_equiv, nat_eq_equiv};
    ghost use Rattle.link_graph.specs.contracts.schedule.ScheduleEq.TheImpl.Laws as lists;

    ghost laws = { and_equiv
        (on_equiv (λ s. s.settings) lists.laws-law)
        (on_equiv (λ s. s.inserted) nat_eq_equiv) };
}

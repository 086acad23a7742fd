ghost use Rattle.std.specs.Prelude.{◌≡◌, ◌<◌, ◌^◌, ◌↔◌, [], length, IsTrue, IfOk, IfErr, slice_get};
ghost use Rattle.std.specs.Prelude.{option_map};
ghost use Rattle.std.specs.Option.{option_copied};
ghost use Rattle.link_graph.specs.Schedules.{lists_of};
ghost use Rattle.link_graph.specs.ScheduleText.{said, text_lent, Says, CanSpell, CanName};
ghost use Rattle.link_graph.specs.ScheduleFaults.{IsFaultOf};

use crate::certificate::Certificate;
use crate::schedule_fault::ScheduleFault;
use crate::settings::SettingsIter;
use crate::{reading, writing};
use std::alloc::{AllocError, Global};
use std::marker::Model;

/// A list of switch settings, numbered from 0, each of them a list of transfer numbers.
#[derive(Drop)]
pub struct Schedule {
    lists: Vec<Vec<usize>>,
}

impl Model for Schedule {
    ghost use Rattle.std.specs.Prelude.{List, ℕ};
    ghost use Rattle.link_graph.specs.Schedules.{lists_of};

    ghost Value = { List (List ℕ) };

    ghost view = { λ s. lists_of s.lists.items };
}

impl Schedule {
    /// The schedule of these settings.
    pub fn of(lists: Vec<Vec<usize>>) -> Schedule
        ensures { result ≡ lists_of lists.items }
    {
        Schedule { lists }
    }

    /// How many settings there are.
    pub fn settings(&self) -> usize
        ensures { result ≡ length self.now }
    {
        self.lists.len()
    }

    /// A law: settings lie in memory, so there are fewer than 2^63. It does nothing.
    pub fn are_few(&self)
        ensures { length self.now < 2 ^ 63 }
    {
        // Named for what is known of it alone: no vector is longer.
        let _lists = &self.lists;
    }

    /// Whether there is no setting.
    pub fn is_empty(&self) -> bool
        ensures { IsTrue result ↔ (self.now ≡ []) }
    {
        self.lists.is_empty()
    }

    /// The settings, in order.
    pub fn iter(&self) -> SettingsIter<'_>
        ensures { result ≡ self.now }
    {
        SettingsIter::of(self.lists.as_slice())
    }

    /// The transfer numbers of setting `k`, where there is one.
    pub fn setting(&self, k: usize) -> Option<&[usize]>
        ensures { option_map (λ s. s.now) result ≡ slice_get self.now k }
    {
        let setting = self.lists.get(k)?;
        Some(setting.as_slice())
    }

    /// The lists that the settings were made of.
    pub fn into_lists(self) -> Vec<Vec<usize>>
        ensures { lists_of result.items ≡ self }
    {
        let Schedule { lists } = self;
        lists
    }

    /// The settings, in order.
    pub(crate) fn lists(&self) -> &[Vec<usize>]
        ensures { lists_of result.now ≡ self.now }
    {
        self.lists.as_slice()
    }

    /// The schedule's text: the line `settings S`, then a line `setting t t ..` for each of the S
    /// settings. The certificate part, where a certificate is handed in, stands after them: the
    /// lines `busiest link E module M` and `named t t ..`, or the line `busiest none`.
    ///
    /// S and each transfer number must have at most nine digits, and the link must be one of a
    /// module that a rack may have. Takes time that grows with the length of the text.
    pub fn write(&self, certificate: Option<&Certificate>) -> Result<Vec<u8>, AllocError>
        requires settings { CanSpell self.now }
        requires named { CanName (option_copied certificate) }
        ensures { IfOk result (λ text. text.items ≡ text_lent self.now certificate.entry) }
    {
        let mut text = writing::settings_text(*self.lists.allocator(), self.lists.as_slice())?;
        if let Some(certificate) = certificate {
            writing::push_naming(&mut text, certificate.link(), certificate.transfers())?;
        }
        Ok(text)
    }

    /// Reads a schedule's text, as [`write`](Schedule::write) gives it: the schedule, and the
    /// certificate where the text has the certificate part.
    ///
    /// Gives what the text says, or its first line at fault. Want of memory is answered only where
    /// a setting or a number after a good first line had to be kept. Takes time linear in the
    /// length of the text.
    pub fn read(
        alloc: Global,
        text: &[u8],
    ) -> Result<(Schedule, Option<Certificate>), ScheduleFault>
        ensures says { IfOk result (λ read. Says text.now (said read.0 read.1)) }
        ensures fault { IfErr result (λ fault. IsFaultOf text.now fault) }
    {
        let Some((line, rest)) = reading::next_line(text) else {
            return Err(ScheduleFault::Line(1));
        };
        let Some(count) = reading::settings_count(line) else {
            return Err(ScheduleFault::Line(1));
        };
        let (lists, rest) = reading::settings(alloc, rest, count)?;
        let certificate = reading::certificate(alloc, rest, count + 1)?;
        Ok((Schedule { lists }, certificate))
    }
}

impl PartialEq for Schedule {
    ghost use Rattle.std.specs.Prelude.{◌≡◌, ◌↔◌, IsTrue};
    ghost use Rattle.std.proofs.Common.{rules};
    ghost use Rattle.std.specs.Cmp.Rules.{comparing};
    ghost use Rattle.link_graph.specs.Equal.{same_settings};

    ghost eq = { same_settings };

    ghost laws = { Prim.search (comparing, rules) };

    fn eq(&self, other: &Schedule) -> bool
        ensures value { result ≡ same_settings self.now other.now }
        ensures equal { IsTrue result ↔ (self.now ≡ other.now) }
    {
        self.lists == other.lists
    }
}

impl Eq for Schedule {
    ghost use Rattle.std.proofs.Common.{rules};
    ghost use Rattle.std.specs.Cmp.Rules.{comparing};

    ghost laws = { Prim.search (comparing, rules) };
}

//! How many words the transfers of a setting have moved.

ghost use Rattle.std.specs.Prelude.{◌≡◌, ◌≤◌, ◌<◌, ◌+◌, ◌++◌, ◌∷◌, ◌↔◌, [], IsTrue, length};
ghost use Rattle.std.specs.Prelude.{slice_get};
ghost use Rattle.std.specs.Slice.Iter.{iter_rest};
ghost use Rattle.setting_runner.specs.Equal.{same_moved};

use batch::{MAX_MODULES, MAX_TRANSFERS, MAX_WORDS};
use std::marker::Model;
use std::slice;
use switch_settings::ShortList;

/// The transfers of a setting in its order, at most one of each module, each with the number of
/// words that it has moved, from none to those of a block. Contracts see the list. It has 136
/// bytes, since a reply may be one of these.
#[derive(Clone, Copy)]
pub struct Moved {
    entries: ShortList<(u16, u16)>,
}

impl Model for Moved {
    ghost use Rattle.std.specs.Prelude.{List, ℕ};

    ghost Value = { List (ℕ × ℕ) };

    ghost view = { λ m. m.entries };

    ghost inverse = { λ xs. record { entries = xs } };
}

impl Moved {
    /// No transfers.
    pub(crate) fn none() -> Moved
        ensures { result ≡ [] }
    {
        Moved {
            entries: ShortList::new(),
        }
    }

    /// How many transfers there are, at most 32.
    pub fn len(&self) -> usize
        ensures number { result ≡ length self.now }
        ensures few { result ≤ MAX_MODULES }
    {
        self.as_slice().len()
    }

    /// Whether there is no transfer.
    pub fn is_empty(&self) -> bool
        ensures { IsTrue result ↔ (self.now ≡ []) }
    {
        self.as_slice().is_empty()
    }

    /// The transfer at a position, and how many words it has moved. Nothing where the position
    /// isn't below the number of transfers.
    pub fn get(&self, i: usize) -> Option<(u16, u16)>
        ensures { result ≡ slice_get self.now i }
    {
        self.as_slice().get(i).copied()
    }

    /// The transfers in order, each with the number of words that it has moved.
    pub fn iter(&self) -> slice::Iter<'_, (u16, u16)>
        ensures { iter_rest result ≡ self.now }
    {
        self.as_slice().iter()
    }

    /// The transfers in order, each with the number of words that it has moved.
    pub fn as_slice(&self) -> &[(u16, u16)]
        ensures entries { result.now ≡ self.now }
        ensures few { length self.now ≤ MAX_MODULES }
    {
        self.entries.as_slice()
    }

    /// Puts a transfer after the others.
    pub(crate) fn push(&mut self, transfer: usize, words: usize)
        requires room { length self.old < MAX_MODULES }
        requires transfer { transfer < MAX_TRANSFERS }
        requires words { words ≤ MAX_WORDS }
        ensures { self.new ≡ self.old ++ (transfer, words) ∷ [] }
    {
        self.push_entry((transfer as u16, words as u16));
    }

    /// Puts a transfer after the others, with the words that it has moved.
    fn push_entry(&mut self, entry: (u16, u16))
        requires { length self.old < MAX_MODULES }
        ensures { self.new ≡ self.old ++ entry ∷ [] }
    {
        self.entries.push(entry);
    }

    /// These transfers, and after them the others.
    pub(crate) fn and(self, others: Moved) -> Moved
        requires { length self + length others ≤ MAX_MODULES }
        ensures { result ≡ self ++ others }
    {
        let mut all = self;
        for entry in others.as_slice() {
            all.push_entry(*entry);
        }
        all
    }
}

impl PartialEq for Moved {
    ghost use Rattle.std.proofs.Common.{rules};
    ghost use Rattle.std.specs.Cmp.Rules.{comparing};
    ghost use Rattle.setting_runner.specs.Equal.{same_moved};

    ghost eq = { same_moved };

    ghost laws = { Prim.search (comparing, rules) };

    fn eq(&self, other: &Moved) -> bool
        ensures value { result ≡ same_moved self.now other.now }
        ensures equal { IsTrue result ↔ (self.now ≡ other.now) }
    {
        self.as_slice() == other.as_slice()
    }
}

impl Eq for Moved {
    ghost use Rattle.std.proofs.Common.{rules};
    ghost use Rattle.std.specs.Cmp.Rules.{comparing};

    ghost laws = { Prim.search (comparing, rules) };
}

//! Lists of at most one entry for each module, which take no memory from an allocator.

ghost use Rattle.std.specs.Prelude.{◌≡◌, ◌≤◌, ◌<◌, ◌++◌, ◌∷◌, [], length};

use batch::MAX_MODULES;
use std::alloc::AllocError;
use std::marker::Model;

/// A value that stands in a list where there is no entry.
pub trait Blank: Copy {
    /// The value.
    ghost blank: { Self };

    /// The value.
    fn blank() -> Self
        ensures { result ≡ blank };
}

impl Blank for (u16, u16) {
    ghost blank = { (0, 0) };

    fn blank() -> (u16, u16) {
        (0, 0)
    }
}

/// A list of at most one entry for each module. Contracts see the list.
#[derive(Copy)]
pub struct ShortList<T: Blank> {
    entries: [T; MAX_MODULES],
    count: usize,
}

impl<T: Blank> Clone for ShortList<T> {
    ghost use Rattle.std.specs.Prelude.{◌≡◌};

    ghost is_clone = { λ list copy. copy ≡ list };

    ghost is_infallible = { λ _. Unit {0} };

    fn clone(&self) -> Result<ShortList<T>, AllocError> {
        Ok(*self)
    }
}

impl<T: Blank> Model for ShortList<T> {
    ghost use Rattle.std.specs.Prelude.{List, length, ◌-◌, ◌++◌, take, replicate};
    ghost use Rattle.batch.specs.declared.limits.TheConstants.{MAX_MODULES};
    ghost use Rattle.switch_settings.specs.ShortLists.{IsFilledUp};

    ghost Value = { List T };

    ghost view = { λ m. take m.count m.entries };

    ghost invariant = { λ m. IsFilledUp T.blank m.count m.entries };

    ghost inverse = { λ xs. record {
      entries = xs ++ replicate (MAX_MODULES - length xs) T.blank;
      count = length xs;
    } };
}

impl<T: Blank> ShortList<T> {
    /// No entries.
    pub fn new() -> ShortList<T>
        ensures { result ≡ [] }
    {
        ShortList {
            entries: [T::blank(); MAX_MODULES],
            count: 0,
        }
    }

    /// The entries, in order.
    pub fn as_slice(&self) -> &[T]
        ensures entries { result.now ≡ self.now }
        ensures few { length self.now ≤ MAX_MODULES }
    {
        &self.entries[..self.count]
    }

    /// Puts an entry after the others.
    pub fn push(&mut self, entry: T)
        requires { length self.old < MAX_MODULES }
        ensures { self.new ≡ self.old ++ entry ∷ [] }
    {
        self.entries[self.count] = entry;
        self.count += 1;
    }
}

//! A held block as a store of its own.

ghost use Rattle.std.specs.Prelude.{◌≡◌, [], MatchOption};
ghost use Rattle.batch.specs.Places.{HasPlace};
ghost use Rattle.module_memory.specs.Lending.{copy_of};
ghost use Rattle.peek_poke.specs.Blocks.{IsHeldStore, held_read, no_write};

use crate::block::word_in_block;
use crate::fault::StoreFault;
use crate::store::WordStore;
use batch::Place;
use module_memory::{HOLD_START, Rest};
use std::marker::Model;

/// A held block of what is left of a rack, as a store to be read, at its addresses in the hold
/// window: every other address, a misaligned one too, and every write is `Outside`, which is this
/// project's choice. Contracts see the block's place and the words of its copy.
#[derive(Drop)]
pub struct HeldStore<'a> {
    rest: &'a Rest,
    place: Place,
}

impl<'a> Model for HeldStore<'a> {
    ghost use Rattle.module_memory.specs.Lending.{BlockAt, HasCopy, copy_of};

    ghost Value = { BlockAt };

    ghost view = { λ s. record { place = s.place; words = copy_of s.rest.now s.place } };

    ghost invariant = { λ s. HasCopy s.rest.now s.place (copy_of s.rest.now s.place) };
}

impl<'a> HeldStore<'a> {
    /// A block that the rest holds; there is none just where it isn't held.
    pub fn of(rest: &'a Rest, place: Place) -> Option<HeldStore<'a>>
        ensures { MatchOption result
            (HasPlace rest.now.store.shape place → copy_of rest.now place ≡ [])
            (IsHeldStore rest.now place) }
    {
        rest.held_block(place)?;
        Some(HeldStore { rest, place })
    }
}

impl<'a> WordStore for HeldStore<'a> {
    ghost read_gives = { held_read };

    ghost write_gives = { no_write };

    fn read_word(&self, address: u32) -> Result<u32, StoreFault> {
        let words = self.rest.shape().words();
        match word_in_block(HOLD_START, self.place.block, words, address) {
            Ok(j) => self.rest.held(self.place, j).ok_or(StoreFault::Outside),
            Err(_) => Err(StoreFault::Outside),
        }
    }

    fn write_word(&mut self, _address: u32, _word: u32) -> Result<(), StoreFault> {
        Err(StoreFault::Outside)
    }
}

//! A block of a module as a store of its own.

ghost use Rattle.std.specs.Prelude.{◌≡◌, ◌<◌, length, MatchResult};
ghost use Rattle.batch.specs.Places.{HasPlace};
ghost use Rattle.module_memory.specs.Store.{block_of};
ghost use Rattle.module_memory.specs.declared.address.TheConstants.{WINDOW_START};
ghost use Rattle.peek_poke.specs.Blocks.{IsWordOf, block_read, block_write, no_write};

use crate::fault::StoreFault;
use crate::store::WordStore;
use batch::Place;
use module_memory::{Bay, Rest, WINDOW_START, WORD_BYTES};
use std::marker::Model;

/// Which word of a block an address is: the block stands at this number in a window that begins at
/// an address, and each block of the window has so many words.
pub fn word_in_block(
    start: u32,
    block: usize,
    words: usize,
    address: u32,
) -> Result<usize, StoreFault>
    ensures word { IsWordOf start block words address result }
    ensures below { MatchResult result (λ j. j < words) (λ _. Unit {0}) }
{
    if address % WORD_BYTES != 0 {
        return Err(StoreFault::Misaligned);
    }
    if address < start || words == 0 {
        return Err(StoreFault::Outside);
    }
    let number = ((address - start) / WORD_BYTES) as usize;
    if number / words != block {
        return Err(StoreFault::Outside);
    }
    Ok(number % words)
}

impl WordStore for Bay {
    ghost read_gives = { block_read WINDOW_START };

    ghost write_gives = { block_write WINDOW_START };

    fn read_word(&self, address: u32) -> Result<u32, StoreFault> {
        let j = word_in_block(WINDOW_START, self.place().block, self.words(), address)?;
        self.word(j).ok_or(StoreFault::Outside)
    }

    fn write_word(&mut self, address: u32, word: u32) -> Result<(), StoreFault> {
        let j = word_in_block(WINDOW_START, self.place().block, self.words(), address)?;
        self.set(j, word);
        Ok(())
    }
}

/// A block of what is left of a rack, as a store to be read: every write is `Outside`, also one to
/// a misaligned address, which is this project's choice. Contracts see the block's place and words.
#[derive(Drop)]
pub struct RestStore<'a> {
    rest: &'a Rest,
    place: Place,
}

impl<'a> Model for RestStore<'a> {
    ghost use Rattle.module_memory.specs.Store.{block_of};
    ghost use Rattle.module_memory.specs.Lending.{BlockAt};
    ghost use Rattle.peek_poke.specs.Blocks.{HasBlock};

    ghost Value = { BlockAt };

    ghost view = { λ s. record { place = s.place; words = block_of s.rest.now.store s.place } };

    ghost invariant = { λ s. HasBlock s.rest.now.store s.place };
}

impl<'a> RestStore<'a> {
    /// A block that the rest has.
    pub fn of(rest: &'a Rest, place: Place) -> RestStore<'a>
        requires exists { HasPlace rest.now.store.shape place }
        requires here { length (block_of rest.now.store place) ≡ rest.now.store.shape.words }
        ensures { result ≡ record { place = place; words = block_of rest.now.store place } }
    {
        RestStore { rest, place }
    }
}

impl<'a> WordStore for RestStore<'a> {
    ghost read_gives = { block_read WINDOW_START };

    ghost write_gives = { no_write };

    fn read_word(&self, address: u32) -> Result<u32, StoreFault> {
        let words = self.rest.shape().words();
        let j = word_in_block(WINDOW_START, self.place.block, words, address)?;
        self.rest.word(self.place, j).ok_or(StoreFault::Outside)
    }

    fn write_word(&mut self, _address: u32, _word: u32) -> Result<(), StoreFault> {
        Err(StoreFault::Outside)
    }
}

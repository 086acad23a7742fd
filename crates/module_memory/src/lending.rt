//! A rack of which some blocks are lent.

ghost use Rattle.std.specs.Prelude.{◌≡◌, ◌<◌, ◌*◌, [], length, slice_get, None, MatchOption};
ghost use Rattle.batch.specs.ShapeView.{IsShape};
ghost use Rattle.batch.specs.Places.{HasPlace};
ghost use Rattle.module_memory.specs.Store.{block_of, find_word, set_block};
ghost use Rattle.module_memory.specs.Lending.{AreWholeCopies, HasCopy, Rejoins, copy_of};
ghost use Rattle.module_memory.specs.Lending.{store_rejoined, with_word};

use crate::address::{block_index, find_block};
use crate::block::Block;
use crate::rack::Rack;
use batch::{Place, Shape};
use std::marker::Model;

/// A block that is lent: it owns its words. Contracts see its place and its words.
#[derive(Drop)]
pub struct Bay {
    place: Place,
    block: Block,
}

impl Model for Bay {
    ghost use Rattle.module_memory.specs.Lending.{BlockAt};

    ghost Value = { BlockAt };

    ghost view = { λ b. record { place = b.place; words = b.block } };
}

/// What is left of a rack: a lent block has no words here. Of blocks that are held there are
/// copies, made when the rack was parted. Contracts see a rack's words, and the words of the
/// copies.
#[derive(Drop)]
pub struct Rest {
    shape: Shape,
    blocks: Vec<Block>,
    held: Vec<Block>,
}

impl Model for Rest {
    ghost use Rattle.std.specs.Prelude.{◌≡◌, ◌*◌, length};
    ghost use Rattle.batch.specs.ShapeView.{IsShape};
    ghost use Rattle.module_memory.specs.Lending.{RestView, AreWholeCopies};

    ghost Value = { RestView };

    ghost view = { λ r. record {
      store = record { shape = r.shape; blocks = r.blocks.items };
      held = r.held.items;
    } };

    ghost invariant = { λ r. IsShape r.shape
        × (length r.blocks.items ≡ r.shape.modules * r.shape.blocks)
        × AreWholeCopies r.shape r.held.items };
}

/// A rack of which some blocks are lent: the rest, and a bay for each place, in the order of the
/// places.
#[derive(Drop)]
pub struct Parted {
    pub rest: Rest,
    pub bays: Vec<Bay>,
}

impl Bay {
    /// The place of the block.
    pub fn place(&self) -> Place
        ensures { result ≡ self.now.place }
    {
        self.place
    }

    /// How many words the block has.
    pub fn words(&self) -> usize
        ensures { result ≡ length self.now.words }
    {
        self.block.len()
    }

    /// Word `j`, where there is one.
    pub fn word(&self, j: usize) -> Option<u32>
        ensures { result ≡ slice_get self.now.words j }
    {
        self.block.word(j)
    }

    /// Writes word `j`, which there has to be.
    pub fn set(&mut self, j: usize, word: u32)
        requires { j < length self.old.words }
        ensures { self.new ≡ with_word self.old j word }
    {
        self.block.set(j, word);
    }
}

impl Rest {
    /// All blocks, of which none is lent, and copies of those that are held.
    pub(crate) fn of(shape: Shape, blocks: Vec<Block>, held: Vec<Block>) -> Rest
        requires within { IsShape shape }
        requires all { length blocks.items ≡ shape.modules * shape.blocks }
        requires whole { AreWholeCopies shape held.items }
        ensures { result ≡ record {
          store = record { shape = shape; blocks = blocks.items };
          held = held.items;
        } }
    {
        Rest {
            shape,
            blocks,
            held,
        }
    }

    /// The shape of the rack.
    pub fn shape(&self) -> Shape
        ensures { result ≡ self.now.store.shape }
    {
        self.shape
    }

    /// Word `j` of a block, where the rack has the block, it isn't lent, and it has that word.
    pub fn word(&self, place: Place, j: usize) -> Option<u32>
        ensures missing { (HasPlace self.now.store.shape place → ⊥) → result ≡ None }
        // A lent block has no words here.
        ensures there { HasPlace self.now.store.shape place →
            result ≡ find_word self.now.store place j }
    {
        self.block(place)?.get(j).copied()
    }

    /// The words of a block, where the rack has it: none where it is lent.
    pub fn block(&self, place: Place) -> Option<&[u32]>
        ensures { MatchOption result
            (HasPlace self.now.store.shape place → ⊥)
            (λ words. HasPlace self.now.store.shape place
            × (words.now ≡ block_of self.now.store place)) }
    {
        let index = find_block(self.shape, place)?;
        let block = &self.blocks[index];
        Some(block.as_slice())
    }

    /// The words of a held block, as they stood there when the rack was parted. There are none
    /// where the rack hasn't the block, or it isn't held.
    pub fn held_block(&self, place: Place) -> Option<&[u32]>
        ensures { MatchOption result
            (HasPlace self.now.store.shape place → copy_of self.now place ≡ [])
            (λ words. HasCopy self.now place words.now) }
    {
        let index = find_block(self.shape, place)?;
        let block = self.held.get(index)?;
        if block.is_empty() {
            return None;
        }
        Some(block.as_slice())
    }

    /// Word `j` of a held block, as it stood there when the rack was parted. There is none where
    /// the rack hasn't the block, it isn't held, or it hasn't that word.
    pub fn held(&self, place: Place, j: usize) -> Option<u32>
        ensures missing { (HasPlace self.now.store.shape place → ⊥) → result ≡ None }
        // A block that isn't held has no words in the copies.
        ensures there { HasPlace self.now.store.shape place →
            result ≡ slice_get (copy_of self.now place) j }
    {
        self.held_block(place)?.get(j).copied()
    }

    /// Lends a block.
    pub(crate) fn lend(&mut self, place: Place) -> Bay
        requires { HasPlace self.old.store.shape place }
        ensures bay { result ≡ record { place = place; words = block_of self.old.store place } }
        ensures rest { self.new ≡ record {
          store = set_block self.old.store place [];
          held = self.old.held;
        } }
    {
        let index = block_index(self.shape, place);
        let slot = &mut self.blocks[index];
        let empty = slot.empty();
        let block = std::mem::replace(slot, empty);
        Bay { place, block }
    }

    /// Takes a block back.
    pub(crate) fn take_back(&mut self, bay: Bay)
        requires { HasPlace self.old.store.shape bay.place }
        ensures { self.new ≡ record {
          store = set_block self.old.store bay.place bay.words;
          held = self.old.held;
        } }
    {
        let Bay { place, block } = bay;
        let index = block_index(self.shape, place);
        self.blocks[index] = block;
    }
}

impl Parted {
    /// The rack, with the words of each bay back in their place. Each block that was lent has to be
    /// there as a bay, with all its words. Takes no memory, and time that grows with the number of
    /// bays.
    pub fn rejoin(self) -> Rack
        requires { Rejoins self.rest.store self.bays.items }
        ensures { result ≡ store_rejoined self.rest.store self.bays.items }
    {
        let Parted { mut rest, bays } = self;
        for bay in bays {
            rest.take_back(bay);
        }
        let Rest { shape, blocks, .. } = rest;
        Rack::of(shape, blocks)
    }
}

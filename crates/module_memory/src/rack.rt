//! The memories of all modules.

ghost use Rattle.std.specs.Prelude.{◌≡◌, ◌≢◌, ◌<◌, true, false, length, IfOk, IfErr, MatchOption};
ghost use Rattle.std.specs.Prelude.{MatchResult};
ghost use Rattle.batch.specs.Places.{HasPlace};
ghost use Rattle.module_memory.specs.Store.{IsWhole, block_of, zeros_of};
ghost use Rattle.module_memory.specs.Address.{IsMemoryFault, IsWordAt, IsWrittenAt};
ghost use Rattle.module_memory.specs.Mark.{IsMarked};
ghost use Rattle.module_memory.specs.Lending.{AreCopies, AreLendable, AreWholeCopies, ExistBefore};
ghost use Rattle.module_memory.specs.Lending.{IsLendFault, bays_of, without, store_rejoined};
ghost use Rattle.module_memory.specs.Lending.{Rejoins};
ghost use Rattle.module_memory.specs.Bays.{AreLent};

use crate::address::{block_index, find_block, site_of};
use crate::block::Block;
use crate::fault::{LendFault, MemoryFault};
use crate::lendable::lend_fault;
use crate::lending::{Parted, Rest};
use batch::{Place, Shape};
use std::alloc::{AllocError, Global};
use std::marker::Model;

/// How far apart the first words of two modules are in a marked rack.
pub const MODULE_MARK: usize = 65536;

/// How far apart the first words of two blocks of a module are in a marked rack.
pub const BLOCK_MARK: usize = 256;

/// The memories of all modules of a rack: each has the blocks, and each block the words, that the
/// shape says. Contracts see the words of the blocks, by module and then by block.
#[derive(Drop)]
pub struct Rack {
    shape: Shape,
    blocks: Vec<Block>,
}

impl Model for Rack {
    ghost use Rattle.module_memory.specs.Store.{Store, IsWhole};

    ghost Value = { Store };

    ghost view = { λ r. record { shape = r.shape; blocks = r.blocks.items } };

    ghost invariant = { λ r. IsWhole (record { shape = r.shape; blocks = r.blocks.items }) };
}

impl Rack {
    /// A rack whose words are all 0. Takes memory for each block, and time that grows with the
    /// number of words.
    pub fn new(alloc: Global, shape: Shape) -> Result<Rack, AllocError>
        ensures { IfOk result (λ rack. rack ≡ zeros_of shape) }
    {
        let words = shape.words();
        let count = shape.modules() * shape.blocks();
        let mut blocks = Vec::with_capacity(alloc, count)?;
        for _ in 0..count {
            blocks.push(Block::zeros(alloc, words)?)?;
        }
        Ok(Rack { shape, blocks })
    }

    /// The rack of these blocks.
    pub(crate) fn of(shape: Shape, blocks: Vec<Block>) -> Rack
        requires { IsWhole (record { shape = shape; blocks = blocks.items }) }
        ensures { result ≡ record { shape = shape; blocks = blocks.items } }
    {
        Rack { shape, blocks }
    }

    /// All blocks, by module and then by block.
    pub(crate) fn blocks(&self) -> &[Block]
        ensures { result.now ≡ self.now.blocks }
    {
        &self.blocks
    }

    /// Where its memory comes from.
    pub(crate) fn allocator(&self) -> Global {
        *self.blocks.allocator()
    }

    /// How many modules, blocks and words there are.
    pub fn shape(&self) -> Shape
        ensures value { result ≡ self.now.shape }
        ensures whole { IsWhole self.now }
    {
        self.shape
    }

    /// The words of a block, where the rack has it.
    pub fn block(&self, place: Place) -> Option<&[u32]>
        ensures { MatchOption result
            (HasPlace self.now.shape place → ⊥)
            (λ words. HasPlace self.now.shape place × (words.now ≡ block_of self.now place)) }
    {
        let index = find_block(self.shape, place)?;
        let block = &self.blocks[index];
        Some(block.as_slice())
    }

    /// An equal rack. Takes memory for each block, and time that grows with the number of words.
    pub fn copy(&self) -> Result<Rack, AllocError>
        ensures { IfOk result (λ rack. rack ≡ self.now) }
    {
        let mut blocks = Vec::with_capacity(*self.blocks.allocator(), self.blocks.len())?;
        for block in &self.blocks {
            blocks.push(block.copy()?)?;
        }
        Ok(Rack {
            shape: self.shape,
            blocks,
        })
    }

    /// Whether the other rack has the same shape and the same words. Takes time that grows with the
    /// number of words, and no memory.
    pub fn is_same(&self, other: &Rack) -> bool
        ensures same { result ≡ true → self.now ≡ other.now }
        ensures differ { result ≡ false → self.now ≢ other.now }
    {
        if self.shape != other.shape {
            return false;
        }
        for (i, block) in self.blocks.iter().enumerate() {
            if block.as_slice() != other.blocks[i].as_slice() {
                return false;
            }
        }
        true
    }

    /// Makes each word tell where it stands: word j of block b of module m becomes
    /// [`MODULE_MARK`]·m + [`BLOCK_MARK`]·b + j. This is the project's choice.
    pub fn mark(&mut self)
        ensures { IsMarked self.old self.new }
    {
        let blocks = self.shape.blocks();
        for index in 0..self.blocks.len() {
            let first = MODULE_MARK * (index / blocks) + BLOCK_MARK * (index % blocks);
            let block = &mut self.blocks[index];
            block.count_from(first as u32);
        }
    }

    /// The word at an address, in bytes, of a module, counted from 0; or the first cause why there
    /// is none.
    pub fn read(&self, module: usize, address: u32) -> Result<u32, MemoryFault>
        ensures { MatchResult result
            (IsWordAt self.now «module» address)
            (IsMemoryFault self.now «module» address) }
    {
        let site = site_of(self.shape, module, address)?;
        let index = block_index(self.shape, site.place);
        let block = &self.blocks[index];
        Ok(block.at(site.word))
    }

    /// Writes the word at an address of a module. Where there is none, that is answered with the
    /// first cause, and nothing is changed.
    pub fn write(&mut self, module: usize, address: u32, word: u32) -> Result<(), MemoryFault>
        ensures { MatchResult result
            (λ _. IsWrittenAt self.old «module» address word self.new)
            (λ fault. IsMemoryFault self.old «module» address fault × (self.new ≡ self.old)) }
    {
        let site = site_of(self.shape, module, address)?;
        let index = block_index(self.shape, site.place);
        let block = &mut self.blocks[index];
        block.set(site.word, word);
        Ok(())
    }

    /// Copies of these blocks, by where all blocks stand, and no words for the others. No memory is
    /// asked for where there are no such blocks.
    fn copies(&self, held: &[Place]) -> Result<Vec<Block>, AllocError>
        requires { ExistBefore self.now.shape held.now (length held.now) }
        ensures copies { IfOk result (λ copies. AreCopies self.now held.now copies.items) }
        ensures whole { IfOk result (λ copies. AreWholeCopies self.now.shape copies.items) }
        ensures memory { IfErr result (λ _. 0 < length held.now) }
    {
        let alloc = *self.blocks.allocator();
        if held.is_empty() {
            return Ok(Vec::new(alloc));
        }
        let mut copies = Vec::with_capacity(alloc, self.blocks.len())?;
        for block in &self.blocks {
            copies.push(block.empty())?;
        }
        for place in held {
            let index = block_index(self.shape, *place);
            let block = &self.blocks[index];
            let copy = block.copy()?;
            copies[index] = copy;
        }
        Ok(copies)
    }

    /// Parts the rack: the block at each of the places becomes a bay that owns its words, and the
    /// rest stays after. Words are moved and not copied, but for the held blocks: before any block
    /// becomes a bay, each of these is copied into the rest. One place may be held more than once.
    /// Where a fault is answered the rack comes back as it was.
    ///
    /// Takes memory for the list of bays, and for the copies. The time grows with the numbers of
    /// places and of blocks and, where something is held, with the number of the held words.
    pub fn part(self, places: &[Place], held: &[Place]) -> Result<Parted, (Rack, LendFault)>
        ensures lendable { IfOk result (λ _. AreLendable self.shape places.now) }
        ensures bays { IfOk result (λ parted. parted.bays.items ≡ bays_of self places.now) }
        ensures rest { IfOk result (λ parted. parted.rest.store ≡ without self places.now) }
        ensures held { IfOk result (λ parted. AreCopies self held.now parted.rest.held) }
        ensures store { IfOk result (λ parted.
            store_rejoined parted.rest.store parted.bays.items ≡ self) }
        ensures lent { IfOk result (λ parted. AreLent parted.rest.store parted.bays.items) }
        ensures rejoins { IfOk result (λ parted. Rejoins parted.rest.store parted.bays.items) }
        ensures unchanged { IfErr result (λ refused. refused.0 ≡ self) }
        ensures fault { IfErr result (λ refused.
            IsLendFault self.shape places.now held.now refused.1) }
    {
        if let Some(fault) = lend_fault(self.shape, places, held) {
            return Err((self, fault));
        }
        let Ok(mut bays) = Vec::with_capacity(*self.blocks.allocator(), places.len()) else {
            return Err((self, LendFault::NoMemory));
        };
        let Ok(copies) = self.copies(held) else {
            return Err((self, LendFault::NoMemory));
        };
        let Rack { shape, blocks } = self;
        let mut rest = Rest::of(shape, blocks, copies);
        for place in places {
            // There is room: it was asked for above.
            let _ = bays.push(rest.lend(*place));
        }
        Ok(Parted { rest, bays })
    }
}

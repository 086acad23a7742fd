ghost use Rattle.std.specs.Prelude.{◌≡◌, ◌<◌, ◌+◌, ◌*◌, ◌%◌, ◌^◌, ◌↔◌, ℕ, ◌++◌, [], IsTrue, length};
ghost use Rattle.std.specs.Prelude.{replicate, slice_index, slice_set, slice_get, IfOk};
ghost use Rattle.std.specs.List.{range_with_len};
ghost use Rattle.module_memory.specs.Images.{bytes_of_block};

use std::alloc::{AllocError, Global};
use std::marker::Model;

/// The words of one block. Contracts see the list of them.
#[derive(Drop)]
pub struct Block {
    words: Vec<u32>,
}

impl Model for Block {
    ghost use Rattle.std.specs.Prelude.{ℕ, List};

    ghost Value = { List ℕ };

    ghost view = { λ b. b.words.items };
}

impl Block {
    /// A block of zeros.
    pub fn zeros(alloc: Global, words: usize) -> Result<Block, AllocError>
        ensures { IfOk result (λ b. b ≡ replicate words 0) }
    {
        let words = vec![in alloc; 0u32; words]?;
        Ok(Block { words })
    }

    /// A block without words. It takes no memory.
    pub fn empty(&self) -> Block
        ensures { result ≡ [] }
    {
        Block {
            words: Vec::new(*self.words.allocator()),
        }
    }

    /// An equal block.
    pub fn copy(&self) -> Result<Block, AllocError>
        ensures { IfOk result (λ b. b ≡ self.now) }
    {
        let words = self.words.clone()?;
        Ok(Block { words })
    }

    /// The block of these bytes, four to a word, the least significant first.
    pub fn of_bytes(alloc: Global, bytes: &[u8]) -> Result<Block, AllocError>
        requires { length bytes.now % 4 ≡ 0 }
        ensures bytes { IfOk result (λ b. bytes_of_block b ≡ bytes.now) }
        ensures len { IfOk result (λ b. 4 * length b ≡ length bytes.now) }
        ensures words { IfOk result (λ b. (j : ℕ) → slice_index b j < 2 ^ 32) }
    {
        let (words, _) = bytes.as_chunks::<4>();
        let words = words
            .iter()
            .map(|word| u32::from_le_bytes(*word))
            .collect(alloc)?;
        Ok(Block { words })
    }

    /// Writes the bytes of its words after these, of each word the least significant first.
    pub fn write_bytes(&self, bytes: &mut Vec<u8>) -> Result<(), AllocError>
        ensures bytes { IfOk result
            (λ _. bytes.new.items ≡ bytes.old.items ++ bytes_of_block self.now) }
        ensures words { IfOk result (λ _. (j : ℕ) → slice_index self.now j < 2 ^ 32) }
    {
        for word in &self.words {
            bytes.extend_from_slice(&word.to_le_bytes())?;
        }
        Ok(())
    }

    /// How many words there are.
    pub fn len(&self) -> usize
        ensures { result ≡ length self.now }
    {
        self.words.len()
    }

    /// Whether there is no word.
    pub fn is_empty(&self) -> bool
        ensures { IsTrue result ↔ (self.now ≡ []) }
    {
        self.words.is_empty()
    }

    /// All words.
    pub fn as_slice(&self) -> &[u32]
        ensures { result.now ≡ self.now }
    {
        self.words.as_slice()
    }

    /// Word `j`, where there is one.
    pub fn word(&self, j: usize) -> Option<u32>
        ensures { result ≡ slice_get self.now j }
    {
        self.words.get(j).copied()
    }

    /// Word `j`, which there is.
    pub fn at(&self, j: usize) -> u32
        requires { j < length self.now }
        ensures { result ≡ slice_index self.now j }
    {
        self.words[j]
    }

    /// Writes word `j`.
    pub fn set(&mut self, j: usize, word: u32)
        requires { j < length self.old }
        ensures { self.new ≡ slice_set self.old j word }
    {
        self.words[j] = word;
    }

    /// Makes each word one more than the one before it.
    pub fn count_from(&mut self, first: u32)
        requires { first + length self.old < 2 ^ 32 }
        ensures { self.new ≡ range_with_len first (length self.old) }
    {
        for j in 0..self.words.len() {
            self.words[j] = first + j as u32;
        }
    }
}

//! Stores of words.

ghost use Rattle.std.specs.Prelude.{◌≡◌, ℕ, Result, Ok, Err, MatchResult};
ghost use Rattle.peek_poke.specs.declared.fault.StoreFault.{StoreFault};

use crate::fault::StoreFault;

/// Words by their addresses.
pub trait WordStore {
    /// What a read of an address gives.
    ghost read_gives: { Self → ℕ → Result ℕ StoreFault };

    /// The store after a write of a word to an address, or why it can't be written.
    ghost write_gives: { Self → ℕ → ℕ → Result Self StoreFault };

    /// The word at an address; or `Misaligned` where that is no multiple of four, else `Outside`
    /// where the store doesn't have it. A store of a held block answers `Outside` to every address
    /// that it doesn't have.
    fn read_word(&self, address: u32) -> Result<u32, StoreFault>
        ensures { result ≡ read_gives self.now address };

    /// Writes the word at an address; or answers as a read does, and changes nothing. A store that
    /// takes no writes answers each of them `Outside`.
    fn write_word(&mut self, address: u32, word: u32) -> Result<(), StoreFault>
        ensures { MatchResult result
            (λ _. write_gives self.old address word ≡ Ok self.new)
            (λ fault. (write_gives self.old address word ≡ Err fault) × (self.new ≡ self.old)) };
}

//! Words of memory that a caller lends.

ghost use Rattle.std.specs.Prelude.{◌≡◌, MatchResult, ◌+◌, ◌≤◌};
ghost use Rattle.link_devices.specs.Memory.{byte_place, lent_read, lent_write, none_read};
ghost use Rattle.link_devices.specs.Memory.{none_written};

use module_memory::WORD_BYTES;
use peek_poke::{StoreFault, WordStore};

/// Bytes of a caller as the memory of a module, from a base address on.
#[derive(Drop)]
pub(crate) struct LentMemory<'a> {
    pub bytes: &'a mut [u8],
    pub base: u32,
}

/// Where the word of an address stands among so many bytes from a base on.
fn place_of(base: u32, count: usize, address: u32) -> Result<usize, StoreFault>
    ensures place { result ≡ byte_place base count address }
    ensures inside { MatchResult result (λ place. place + WORD_BYTES ≤ count) (λ _. Unit {0}) }
{
    if address % WORD_BYTES != 0 {
        return Err(StoreFault::Misaligned);
    }
    if address < base || (address - base) as usize + WORD_BYTES as usize > count {
        return Err(StoreFault::Outside);
    }
    Ok((address - base) as usize)
}

impl<'a> WordStore for LentMemory<'a> {
    ghost read_gives = { lent_read };

    ghost write_gives = { lent_write };

    fn read_word(&self, address: u32) -> Result<u32, StoreFault> {
        let place = place_of(self.base, self.bytes.len(), address)?;
        let bytes = &self.bytes[place..];
        Ok(u32::from_le_bytes([bytes[0], bytes[1], bytes[2], bytes[3]]))
    }

    fn write_word(&mut self, address: u32, word: u32) -> Result<(), StoreFault> {
        let place = place_of(self.base, self.bytes.len(), address)?;
        self.bytes[place..place + WORD_BYTES as usize].copy_from_slice(&word.to_le_bytes());
        Ok(())
    }
}

/// No memory: no address is there.
#[derive(Clone, Copy)]
pub(crate) struct NoMemory;

impl WordStore for NoMemory {
    ghost read_gives = { none_read };

    ghost write_gives = { none_written };

    fn read_word(&self, _address: u32) -> Result<u32, StoreFault> {
        Err(StoreFault::Outside)
    }

    fn write_word(&mut self, _address: u32, _word: u32) -> Result<(), StoreFault> {
        Err(StoreFault::Outside)
    }
}

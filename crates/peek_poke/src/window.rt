//! A whole module of a rack as a store.

ghost use Rattle.std.specs.Prelude.{◌≡◌, ◌<◌, MatchResult};
ghost use Rattle.peek_poke.specs.Windows.{window_read, window_write};

use crate::fault::StoreFault;
use crate::store::WordStore;
use module_memory::{MemoryFault, Rack};
use std::marker::Model;

/// A whole module of a rack, as a store of its words. Contracts see the words of the rack and the
/// number of the module.
#[derive(Drop)]
pub struct Window {
    rack: Rack,
    number: usize,
}

impl Model for Window {
    ghost use Rattle.std.specs.Prelude.{◌<◌};
    ghost use Rattle.peek_poke.specs.Housed.{Housed};

    ghost Value = { Housed };

    ghost view = { λ w. record { store = w.rack; number = w.number } };

    ghost invariant = { λ w. w.number < w.rack.shape.modules };
}

impl Window {
    /// The module of this number, where the rack has it; else the rack comes back as it was.
    pub fn of(rack: Rack, number: usize) -> Result<Window, Rack>
        ensures { MatchResult result
            (λ window. (number < rack.shape.modules)
            × (window ≡ record { store = rack; number = number }))
            (λ back. (number < rack.shape.modules → ⊥) × (back ≡ rack)) }
    {
        if number < rack.shape().modules() {
            Ok(Window { rack, number })
        } else {
            Err(rack)
        }
    }

    /// The rack, with the words of the module as they now are, and all else as it was.
    pub fn into_rack(self) -> Rack
        ensures { result ≡ self.store }
    {
        let Window { rack, number: _ } = self;
        rack
    }
}

impl WordStore for Window {
    ghost read_gives = { window_read };

    ghost write_gives = { window_write };

    fn read_word(&self, address: u32) -> Result<u32, StoreFault> {
        match self.rack.read(self.number, address) {
            Ok(word) => Ok(word),
            Err(MemoryFault::Misaligned) => Err(StoreFault::Misaligned),
            Err(MemoryFault::NoModule | MemoryFault::Outside) => Err(StoreFault::Outside),
        }
    }

    fn write_word(&mut self, address: u32, word: u32) -> Result<(), StoreFault> {
        match self.rack.write(self.number, address, word) {
            Ok(()) => Ok(()),
            Err(MemoryFault::Misaligned) => Err(StoreFault::Misaligned),
            Err(MemoryFault::NoModule | MemoryFault::Outside) => Err(StoreFault::Outside),
        }
    }
}

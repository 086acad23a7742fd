//! Where the words of a module stand.

ghost use Rattle.std.specs.Prelude.{◌≡◌, ◌<◌, ◌*◌, Some, None, MatchOption, MatchResult};
ghost use Rattle.batch.specs.ShapeView.{IsShape};
ghost use Rattle.batch.specs.Places.{HasPlace, place_index};
ghost use Rattle.module_memory.specs.Store.{IsIndexOf};
ghost use Rattle.module_memory.specs.Address.{IsSiteOf, fault_of};

use crate::fault::MemoryFault;
use batch::{Place, Shape};

/// The address at which the window of each module begins: the first one after the two kilobytes of
/// an IMS T414's memory on the chip (data sheet, memory map). That the window begins here is this
/// project's choice.
pub const WINDOW_START: u32 = 0x8000_0800;

/// The address at which the hold window of each module begins: a copy of a held block has its words
/// there, during a run alone. That it begins here is this project's choice.
pub const HOLD_START: u32 = 0x8001_0800;

/// How many bytes a word has (IMS T414 data sheet).
pub const WORD_BYTES: u32 = 4;

/// One word of a rack.
#[derive(Clone, Copy)]
pub struct Site {
    pub place: Place,
    pub word: usize,
}

/// Where a block of the shape stands among all blocks.
pub fn block_index(shape: Shape, place: Place) -> usize
    requires { HasPlace shape place }
    ensures value { result ≡ place_index shape place }
    ensures below { result < shape.modules * shape.blocks }
{
    place.module * shape.blocks() + place.block
}

/// Where a block stands among all blocks, where the shape has it.
pub fn find_block(shape: Shape, place: Place) -> Option<usize>
    ensures value { MatchOption result (HasPlace shape place → ⊥) (IsIndexOf shape place) }
    ensures within { IsShape shape }
{
    if place.module < shape.modules() && place.block < shape.blocks() {
        Some(block_index(shape, place))
    } else {
        None
    }
}

/// The word that stands at an address of a module.
pub fn site_of(shape: Shape, module: usize, address: u32) -> Result<Site, MemoryFault>
    ensures { MatchResult result
        (λ site. IsSiteOf shape «module» address site.place site.word)
        (λ fault. fault_of shape «module» address ≡ Some fault) }
{
    let words = shape.words();
    let all_words = shape.blocks() * words;
    if module >= shape.modules() {
        return Err(MemoryFault::NoModule);
    }
    if address % WORD_BYTES != 0 {
        return Err(MemoryFault::Misaligned);
    }
    if address < WINDOW_START {
        return Err(MemoryFault::Outside);
    }
    let number = ((address - WINDOW_START) / WORD_BYTES) as usize;
    if number >= all_words {
        return Err(MemoryFault::Outside);
    }
    let place = Place {
        module,
        block: number / words,
    };
    Ok(Site {
        place,
        word: number % words,
    })
}

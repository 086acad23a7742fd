//! The blocks of a batch, placed in an image.

ghost use Rattle.std.specs.Prelude.{◌≡◌, length, IfOk};
ghost use Rattle.std.specs.List.{range_with_len};
ghost use Rattle.batch.specs.Overlap.{IsApart};
ghost use Rattle.module_memory.specs.Core.{FitsIn};
ghost use Rattle.module_memory.specs.Images.{image_length};
ghost use Rattle.module_memory.specs.Placing.{AreSources, IsPlacedImage};

use crate::address::{WORD_BYTES, block_index};
use batch::{Batch, Shape};
use std::alloc::{AllocError, Global};

/// The image that a run of a batch leaves of an image of a rack of the shape: each block that a
/// transfer writes has the bytes that its source has in the image that is handed in, and all other
/// blocks have their own. No two transfers may write one block.
///
/// Takes memory for the image and for a number of each block, and time that grows with the number
/// of bytes and of transfers.
pub fn placed_image(
    alloc: Global,
    shape: Shape,
    batch: &Batch,
    image: &[u8],
) -> Result<Vec<u8>, AllocError>
    requires fits { FitsIn shape batch.now }
    requires apart { IsApart batch.now }
    requires whole { length image.now ≡ image_length shape }
    ensures { IfOk result (λ placed. IsPlacedImage shape image.now batch.now placed.items) }
{
    let sources = sources_of(alloc, shape, batch)?;
    let size = WORD_BYTES as usize * shape.words();
    let mut placed = Vec::with_capacity(alloc, image.len())?;
    for source in &sources {
        let from = size * *source;
        placed.extend_from_slice(&image[from..from + size])?;
    }
    Ok(placed)
}

/// Of each block, by its number among all blocks, the number of the block whose bytes it gets.
fn sources_of(alloc: Global, shape: Shape, batch: &Batch) -> Result<Vec<usize>, AllocError>
    requires fits { FitsIn shape batch.now }
    requires apart { IsApart batch.now }
    ensures { IfOk result (λ sources. AreSources shape batch.now sources.items) }
{
    let mut sources = numbers_below(alloc, shape.modules() * shape.blocks())?;
    for transfer in batch.as_slice() {
        let to = block_index(shape, transfer.destination());
        sources[to] = block_index(shape, transfer.source());
    }
    Ok(sources)
}

/// The numbers below a number, in order.
fn numbers_below(alloc: Global, count: usize) -> Result<Vec<usize>, AllocError>
    ensures { IfOk result (λ numbers. numbers.items ≡ range_with_len 0 count) }
{
    let mut numbers = Vec::with_capacity(alloc, count)?;
    for k in 0..count {
        numbers.push(k)?;
    }
    Ok(numbers)
}

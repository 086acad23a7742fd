//! The words of a rack as bytes, and a rack of bytes.

ghost use Rattle.std.specs.Prelude.{◌≡◌, ◌≢◌, length, IfOk, IfErr, OnOk, MatchResult};
ghost use Rattle.module_memory.specs.declared.fault.ImageFault.TheVariants.{NoMemory};
ghost use Rattle.module_memory.specs.Images.{HasImage, IsImageFault, image_length, image_of};

use crate::address::WORD_BYTES;
use crate::block::Block;
use crate::fault::ImageFault;
use crate::rack::Rack;
use batch::Shape;
use std::alloc::{AllocError, Global};

/// How many bytes the images of a shape have.
fn image_length_of(shape: Shape) -> usize
    ensures { result ≡ image_length shape }
{
    WORD_BYTES as usize * (shape.modules() * shape.blocks() * shape.words())
}

/// Whether bytes are an image of the shape: whether there are as many as its images have. Else the
/// fault says how many there are.
pub fn check_image(shape: Shape, bytes: &[u8]) -> Result<(), ImageFault>
    ensures whole { OnOk result (length bytes.now ≡ image_length shape) }
    ensures fault { IfErr result (λ fault. IsImageFault shape bytes.now fault) }
    ensures known { IfErr result (λ fault. fault ≢ NoMemory) }
{
    let wanted = image_length_of(shape);
    if bytes.len() == wanted {
        return Ok(());
    }
    Err(ImageFault::Length {
        is: bytes.len(),
        wanted,
    })
}

impl Rack {
    /// The rack of an image: of each module in order all words of its window, from the first on, of
    /// each word four bytes, the least significant first, and nothing else. Takes memory for each
    /// block, and time that grows with the number of bytes.
    pub fn of_image(alloc: Global, shape: Shape, bytes: &[u8]) -> Result<Rack, ImageFault>
        ensures { MatchResult result (HasImage shape bytes.now) (IsImageFault shape bytes.now) }
    {
        check_image(shape, bytes)?;
        match Rack::of_bytes(alloc, shape, bytes) {
            Ok(rack) => Ok(rack),
            Err(_) => Err(ImageFault::NoMemory),
        }
    }

    /// The rack of an image, which has as many bytes as it has to.
    fn of_bytes(alloc: Global, shape: Shape, bytes: &[u8]) -> Result<Rack, AllocError>
        requires { length bytes.now ≡ image_length shape }
        ensures { IfOk result (HasImage shape bytes.now) }
    {
        let size = WORD_BYTES as usize * shape.words();
        let count = shape.modules() * shape.blocks();
        let mut blocks = Vec::with_capacity(alloc, count)?;
        let mut rest = bytes;
        for _ in 0..count {
            let (block, others) = rest.split_at(size);
            blocks.push(Block::of_bytes(alloc, block)?)?;
            rest = others;
        }
        Ok(Rack::of(shape, blocks))
    }

    /// The image of the rack: a rack of the same shape that is made of it is equal. Takes memory
    /// for the image, and time that grows with the number of bytes.
    pub fn image(&self) -> Result<Vec<u8>, AllocError>
        ensures image { IfOk result (λ bytes. bytes.items ≡ image_of self.now) }
        ensures again { IfOk result (λ bytes. HasImage self.now.shape bytes.items self.now) }
    {
        let mut bytes = Vec::with_capacity(self.allocator(), image_length_of(self.shape()))?;
        for block in self.blocks() {
            block.write_bytes(&mut bytes)?;
        }
        Ok(bytes)
    }
}

//! The rack that a command begins with.

ghost use Rattle.std.specs.Prelude.{◌≢◌, IfOk, IfErr};
ghost use Rattle.module_memory.specs.declared.fault.ImageFault.TheVariants as image_fault;
ghost use Rattle.plan_answers.specs.Lent.{bytes_of};
ghost use Rattle.refusals.specs.declared.refusal.Refusal.TheVariants.{NoMemory};
ghost use Rattle.rack_answers.specs.Openings.{IsOfImageOrZeros, IsRackOf, IsWrongImage};
ghost use Rattle.rack_answers.specs.Openings.{IsWrongRack};

use batch::Shape;
use module_memory::{ImageFault, Rack};
use refusals::Refusal;
use std::alloc::Global;

/// A rack of the shape that the shape text denotes, whose words are those of the image or, where
/// there is none, 0. The error is what is first wrong: the shape, then the image; or want of
/// memory.
pub fn read_rack(alloc: Global, shape: &[u8], image: Option<&[u8]>) -> Result<Rack, Refusal>
    ensures rack { IfOk result (IsRackOf shape.now (bytes_of image.entry)) }
    ensures wrong { IfErr result (λ refusal. refusal ≢ NoMemory
        → IsWrongRack shape.now (bytes_of image.entry) refusal) }
{
    let shape = Shape::read(shape)?;
    Ok(opening_rack(alloc, shape, image)?)
}

/// The rack of the image, where there is one, else a rack whose words are 0.
pub(crate) fn opening_rack(
    alloc: Global,
    shape: Shape,
    image: Option<&[u8]>,
) -> Result<Rack, ImageFault>
    ensures rack { IfOk result (IsOfImageOrZeros shape (bytes_of image.entry)) }
    ensures wrong { IfErr result (λ fault. fault ≢ image_fault.NoMemory
        → IsWrongImage shape (bytes_of image.entry) fault) }
{
    match image {
        Some(bytes) => Rack::of_image(alloc, shape, bytes),
        None => match Rack::new(alloc, shape) {
            Ok(rack) => Ok(rack),
            Err(_) => Err(ImageFault::NoMemory),
        },
    }
}

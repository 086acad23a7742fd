//! The command `apply`. It runs nothing: an image and a batch of which no transfers overlap have
//! one image after them, whichever way the blocks go.

ghost use Rattle.std.specs.Prelude.{◌≢◌, IfOk, IfErr, Some};
ghost use Rattle.batch.specs.Overlap.{IsApart};
ghost use Rattle.module_memory.specs.Core.{FitsIn};
ghost use Rattle.module_memory.specs.Placing.{IsPlacedImage};
ghost use Rattle.plan_answers.specs.declared.source.Planning.TheVariants.{Plain};
ghost use Rattle.plan_answers.specs.declared.source.ScheduleSource.TheVariants.{Plan};
ghost use Rattle.rack_answers.specs.Answers.{IsResult, IsWrongOf, IsFirstRunWrong, IsApplied};
ghost use Rattle.rack_answers.specs.Answers.{IsImage};
ghost use Rattle.refusals.specs.declared.refusal.Refusal.TheVariants.{NoMemory};

use batch::{Batch, Shape};
use module_memory::{check_image, placed_image};
use plan_answers::Answer;
use refusals::Refusal;
use std::alloc::{AllocError, Global};

/// The image with the blocks of the batch placed, or what is wrong.
fn apply_batch(alloc: Global, shape: Shape, batch: &Batch, image: &[u8]) -> Result<Vec<u8>, Refusal>
    requires fits { FitsIn shape batch.now }
    ensures placed { IfOk result (λ text. IsApart batch.now
        × IsPlacedImage shape image.now batch.now text.items) }
    ensures wrong { IfErr result (λ e. e ≢ NoMemory
        → IsWrongOf shape (Some image.now) batch.now e) }
{
    check_image(shape, image)?;
    if let Some((i, j)) = batch.first_overlap() {
        return Err(Refusal::Overlap(i, j));
    }
    Ok(placed_image(alloc, shape, batch, image)?)
}

/// The image that a run of the batch leaves, or what is first wrong.
fn apply_texts(alloc: Global, shape: &[u8], batch: &[u8], image: &[u8]) -> Result<Vec<u8>, Refusal>
    ensures result { IfOk result (λ text.
        IsResult IsImage shape.now batch.now (Some image.now) text.items) }
    ensures wrong { IfErr result (λ refusal. refusal ≢ NoMemory
        → IsFirstRunWrong (Plan Plain) shape.now batch.now (Some image.now) refusal) }
{
    let shape = Shape::read(shape)?;
    let batch = Batch::read(alloc, batch, shape)?;
    apply_batch(alloc, shape, &batch, image)
}

/// The answer of `exchange apply`: the image with the blocks of the batch placed, as a run on a
/// rack of the shape leaves it whose words are those of the image; or the refusal of what is first
/// wrong, as [`answer_run`](crate::answer_run) looks at it.
///
/// An image has all words of a rack, by module, by block and by place, each as four bytes, the
/// least significant first, and nothing else. It is written as a whole: nothing is planned, and
/// nothing runs. Takes memory for the batch and for the image that it gives, and time that grows
/// with the lengths of the texts and of the image.
pub fn answer_apply(
    alloc: Global,
    shape: &[u8],
    batch: &[u8],
    image: &[u8],
) -> Result<Answer, AllocError>
    ensures { IfOk result (IsApplied shape.now batch.now image.now) }
{
    match apply_texts(alloc, shape, batch, image) {
        Ok(text) => Ok(Answer::done(text)),
        Err(refusal) => Answer::refused(alloc, refusal),
    }
}

//! The text of a shape.

ghost use Rattle.std.specs.Prelude.{◌≡◌, IfSome, IfNone, IfOk, IfErr};
ghost use Rattle.batch.specs.ShapeView.{extent};
ghost use Rattle.batch.specs.Text.{IsNumber};
ghost use Rattle.batch.specs.ShapeText.{shape_text, DenotesShape, IsBadShape};

use crate::fault::ShapeFault;
use crate::reading::{number_before, number_from_digits};
use crate::shape::Shape;

/// What stands between the numbers of a shape.
const SEPARATOR: u8 = b'x';

impl Shape {
    /// Reads a shape's text `MxKxW`: how many modules there are, how many blocks each has, and how
    /// many words each block: 1 to [`MAX_MODULES`](crate::MAX_MODULES), 1 to
    /// [`MAX_BLOCKS`](crate::MAX_BLOCKS) and 1 to [`MAX_WORDS`](crate::MAX_WORDS), without leading
    /// zeros, and with nothing after them. Whatever isn't the text of a shape is a `BadShape`. It
    /// takes no memory.
    pub fn read(text: &[u8]) -> Result<Shape, ShapeFault>
        ensures shape { IfOk result (λ shape. DenotesShape text.now shape) }
        ensures bad { IfErr result (λ _. IsBadShape text.now) }
    {
        let Some((modules, blocks, words)) = three_numbers(text) else {
            return Err(ShapeFault::BadShape);
        };
        Shape::new(modules, blocks, words)
    }
}

/// The three numbers of a shape's text, each of which may be anything.
fn three_numbers(text: &[u8]) -> Option<(usize, usize, usize)>
    ensures spelled { IfSome result (λ n. text.now ≡ shape_text (extent n.0 n.1 n.2)) }
    ensures numbers { IfSome result (λ n. IsNumber n.0 × IsNumber n.1 × IsNumber n.2) }
    ensures none { IfNone result (IsBadShape text.now) }
{
    let (modules, rest) = number_before(text, SEPARATOR)?;
    let (blocks, rest) = number_before(rest, SEPARATOR)?;
    let words = number_from_digits(rest)?;
    Some((modules, blocks, words))
}

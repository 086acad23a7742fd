//! Laws of shapes and of the text of a batch. None of them does anything.

ghost use Rattle.std.specs.Prelude.{◌≡◌};
ghost use Rattle.batch.specs.ShapeView.{widest};
ghost use Rattle.batch.specs.Laws.{NeverBoth, OneBatch, OneFault, NoneOverlap, OneFirstOverlap};
ghost use Rattle.batch.specs.Laws.{OneShape};

use crate::shape::Shape;

/// A text denotes at most one batch, has at most one first fault, and never both.
pub fn one_reading()
    ensures batch { OneBatch }
    ensures apart { NeverBoth }
    ensures fault { OneFault }
{}

/// A text denotes at most one shape.
pub fn one_shape()
    ensures { OneShape }
{}

/// Where no two transfers are the first that overlap, none overlap; and there is one first pair.
pub fn first_overlap()
    ensures none { NoneOverlap }
    ensures one { OneFirstOverlap }
{}

/// [`Shape::WIDEST`] is the widest shape.
pub fn widest_shape() -> Shape
    ensures { result ≡ widest }
{
    Shape::WIDEST
}

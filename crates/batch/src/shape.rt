ghost use Rattle.std.specs.Prelude.{◌≡◌, ◌↔◌, IsOk, IfOk};
ghost use Rattle.batch.specs.ShapeView.{extent, IsShape};

use crate::fault::ShapeFault;
use crate::limits::{MAX_BLOCKS, MAX_MODULES, MAX_WORDS};
use std::marker::Model;

/// How many modules a rack has, how many blocks each module, and how many words each block.
///
/// Each number is at least 1 and at most [`MAX_MODULES`], [`MAX_BLOCKS`] and [`MAX_WORDS`].
#[derive(Clone, Copy, PartialEq, Eq)]
pub struct Shape {
    modules: usize,
    blocks: usize,
    words: usize,
}

impl Model for Shape {
    ghost use Rattle.batch.specs.ShapeView.{ShapeView, extent, IsShape};

    ghost Value = { ShapeView };

    ghost view = { λ s. extent s.modules s.blocks s.words };

    ghost invariant = { λ s. IsShape (extent s.modules s.blocks s.words) };

    ghost inverse = { λ e. record { modules = e.modules; blocks = e.blocks; words = e.words } };
}

impl Shape {
    /// The widest shape: as many modules, blocks and words as there may be.
    pub const WIDEST: Shape = Shape {
        modules: MAX_MODULES,
        blocks: MAX_BLOCKS,
        words: MAX_WORDS,
    };

    /// The shape of these numbers, where each is within its limits.
    pub fn new(modules: usize, blocks: usize, words: usize) -> Result<Shape, ShapeFault>
        ensures accepted { IsOk result ↔ IsShape (extent modules blocks words) }
        ensures shape { IfOk result (λ shape. shape ≡ extent modules blocks words) }
    {
        let fits = (1..=MAX_MODULES).contains(&modules)
            && (1..=MAX_BLOCKS).contains(&blocks)
            && (1..=MAX_WORDS).contains(&words);
        if !fits {
            return Err(ShapeFault::BadShape);
        }
        Ok(Shape {
            modules,
            blocks,
            words,
        })
    }

    /// How many modules the rack has.
    pub fn modules(self) -> usize
        ensures value { result ≡ self.modules }
        ensures shape { IsShape self }
    {
        self.modules
    }

    /// How many blocks each module has.
    pub fn blocks(self) -> usize
        ensures value { result ≡ self.blocks }
        ensures shape { IsShape self }
    {
        self.blocks
    }

    /// How many words each block has.
    pub fn words(self) -> usize
        ensures value { result ≡ self.words }
        ensures shape { IsShape self }
    {
        self.words
    }
}

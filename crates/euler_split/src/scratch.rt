//! What halving takes beside the members.

ghost use Rattle.std.specs.Prelude.{◌≡◌, ◌+◌, IfOk};

use std::alloc::{AllocError, Global};
use std::marker::Model;
use step_count::Steps;

/// Room for so many members, which halving fills anew each time. Contracts see their number.
#[derive(Drop)]
pub struct Scratch {
    /// Members on their way to the right half.
    pub(crate) others: Vec<usize>,
}

impl Model for Scratch {
    ghost use Rattle.std.specs.Prelude.{ℕ, length};

    ghost Value = { ℕ };

    ghost view = { λ s. length s.others.items };
}

impl Scratch {
    /// Cells for this many places. Takes time and room that grow with their number.
    pub fn new(alloc: Global, places: usize, steps: &mut Steps) -> Result<Scratch, AllocError>
        ensures places { IfOk result (λ scratch. scratch ≡ places) }
        ensures cost { steps.new ≡ steps.old + places }
    {
        steps.tick_many(places);
        Ok(Scratch {
            others: vec![in alloc; 0; places]?,
        })
    }
}

//! Tables of prices.

ghost use Rattle.std.specs.Prelude.{ℕ, List, IfOk};
ghost use Rattle.batch.specs.declared.transfer.Transfer.{Transfer};
ghost use Rattle.steady_schedule.specs.Prices.{IsPriceTable};

use link_graph::LINKS;
use std::alloc::{AllocError, Global};

/// A table of prices, and how many changes it shows of each schedule of a batch with so many
/// settings.
#[derive(Drop)]
pub struct PriceTable {
    /// How many changes the prices show. Where this is 0, they show nothing.
    pub changes: usize,
    /// The length that no step exceeds, where they show something; else 0.
    pub top: usize,
    /// The price of each link for each length up to `top`, at `length * LINKS + index`: those of a
    /// length side by side, of links 0 by their modules, then of links 3. Those of a length add up
    /// to 65,536 at most where they show something. None asks for those of length 0.
    pub prices: Vec<u32>,
}

impl PriceTable {
    /// No prices for any length, which show nothing.
    pub fn none(alloc: Global) -> Result<PriceTable, AllocError>
        ensures { IfOk result (λ priced.
            (batch : List Transfer) (settings : ℕ) → IsPriceTable batch settings priced) }
    {
        Ok(PriceTable {
            changes: 0,
            top: 0,
            prices: vec![in alloc; 0u32; LINKS]?,
        })
    }
}

//! What a batch needs of a board that the board hasn't.

ghost use Rattle.std.specs.Prelude.{◌≡◌, IfNone, IfSome, IfOk};
ghost use Rattle.board_wiring.specs.Boards.{modules_of};
ghost use Rattle.board_wiring.specs.Missing.{HasWays, IsFirstLack, IsMissingFor, MissesNothing};
ghost use Rattle.board_wiring.specs.Missing.{has_ends, has_way};

use crate::board::Board;
use batch::{Batch, BatchFault, Shape, Transfer};
use refusals::Refusal;
use std::alloc::{AllocError, Global};

impl Board {
    /// Whether it has both modules of a transfer.
    fn has_ends(&self, transfer: &Transfer) -> bool
        ensures { result ≡ has_ends (modules_of self.now) transfer.now }
    {
        self.has_module(transfer.initiator) && self.has_module(transfer.responder)
    }

    /// Whether both links that a transfer uses are on links of the switch.
    fn has_way(&self, transfer: &Transfer) -> bool
        ensures { result ≡ has_way (modules_of self.now) transfer.now }
    {
        self.has_link0(transfer.initiator) && self.has_link3(transfer.responder)
    }

    /// The refusal of the first transfer of a batch that names a module that the board hasn't, or
    /// needs a link that it hasn't; or none.
    fn first_missing(&self, batch: &Batch) -> Option<Refusal>
        ensures some { IfSome result (IsFirstLack (modules_of self.now) batch.now) }
        ensures none { IfNone result (HasWays (modules_of self.now) batch.now) }
    {
        for (t, transfer) in batch.as_slice().iter().enumerate() {
            if self.has_way(transfer) {
                continue;
            }
            if self.has_ends(transfer) {
                return Some(Refusal::NoLink(t));
            }
            return Some(Refusal::NoModule(t));
        }
        None
    }
}

/// The refusal of the first transfer of a batch's text that names a module that the board hasn't,
/// or needs a link that it hasn't. None where there is no such transfer, or no board, or where the
/// text denotes no batch of the widest shape. The text is read once.
pub fn read_missing(
    alloc: Global,
    board: &Option<Board>,
    text: &[u8],
) -> Result<Option<Refusal>, AllocError>
    ensures some { IfOk result (λ found. IfSome found (IsMissingFor board.now text.now)) }
    ensures none { IfOk result (λ found. IfNone found (MissesNothing board.now text.now)) }
{
    let Some(its) = board else {
        return Ok(None);
    };
    match Batch::read(alloc, text, Shape::WIDEST) {
        Ok(batch) => Ok(its.first_missing(&batch)),
        Err(fault) if fault == BatchFault::NoMemory => Err(AllocError),
        Err(_) => Ok(None),
    }
}

//! The command `direct`.

ghost use Rattle.std.specs.Prelude.{◌≡◌, IfOk};
ghost use Rattle.plan_answers.specs.Directing.{of_moves, IsDirected};

use crate::answer::Answer;
use batch::BatchFault;
use move_directions::{MoveList, direct};
use refusals::Refusal;
use std::alloc::{AllocError, Global};

/// The refusal of the fault of a text of moves.
fn refusal_of(fault: BatchFault) -> Refusal
    ensures { result ≡ of_moves fault }
{
    match fault {
        BatchFault::Line(n) => Refusal::MovesLine(n),
        other => other.into(),
    }
}

/// The answer of `exchange direct`: the text of a batch that does the moves that the text denotes,
/// in their order, by directions that need the fewest settings: each link has at most half of the
/// ends of moves at its module, rounded up. Or the refusal of the text's first fault.
///
/// That no directions need fewer settings is said by [`move_directions::laws::directions`]. Takes
/// time that grows with the length of the text.
pub fn answer_direct(alloc: Global, moves: &[u8]) -> Result<Answer, AllocError>
    ensures { IfOk result (IsDirected moves.now) }
{
    match MoveList::read(alloc, moves) {
        Ok(moves) => {
            let batch = direct(alloc, &moves)?;
            Ok(Answer::done(batch.write()?))
        }
        Err(fault) => Answer::refused(alloc, refusal_of(fault)),
    }
}

//! A rack that may be a board of its own wiring.

ghost use Rattle.std.specs.Prelude.{IfErr, IfOk, option_map};
ghost use Rattle.board_wiring.specs.Boards.{IsBoardOf, IsFilled, IsMiswired};

use crate::board::Board;
use crate::fault::WiringFault;
use crate::reading::read_wiring;
use crossbar::BoardWiring;

/// The board of which a text says the wiring, as [`read_wiring`] reads it, or none where there is
/// no text; or the text's first line at fault.
pub fn read_board(wiring: Option<&[u8]>) -> Result<Option<Board>, WiringFault>
    ensures board { IfOk result (IsBoardOf (option_map (λ text. text.now) wiring.entry)) }
    ensures fault { IfErr result (IsMiswired (option_map (λ text. text.now) wiring.entry)) }
{
    match wiring {
        Some(text) => Ok(Some(read_wiring(text)?)),
        None => Ok(None),
    }
}

/// The wiring of the board, with what it leaves out filled as [`Board::wiring`] does it, or none
/// where there is no board.
pub fn wiring_of(board: &Option<Board>) -> Option<BoardWiring>
    ensures { IsFilled board.now result }
{
    match board {
        Some(board) => Some(board.wiring()),
        None => None,
    }
}

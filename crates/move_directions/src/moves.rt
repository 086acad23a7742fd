ghost use Rattle.std.specs.Prelude.{◌≡◌, ◌↔◌, [], length, IsTrue, IfOk, IfErr};
ghost use Rattle.batch.specs.ListFaults.{ButForMemory, ForMemory};
ghost use Rattle.move_directions.specs.Faults.{IsFirstFault, NeedsMemory};
ghost use Rattle.move_directions.specs.Moves.{IsMoveList};
ghost use Rattle.move_directions.specs.Text.{Denotes, moves_text};

use batch::{BatchFault, Listed, Place, Shape, read_list, write_list};
use std::alloc::{AllocError, Global};
use std::marker::Model;

/// A block that goes to another place, which may be of the same module. Either end may start the
/// transfer that does this.
#[derive(Clone, Copy)]
pub struct Move {
    pub source: Place,
    pub destination: Place,
}

impl Listed for Move {
    ghost use Rattle.std.specs.Prelude.{codes};
    ghost use Rattle.move_directions.specs.Text.{moves_form};

    type Word = ();

    ghost form = { moves_form };

    ghost spelling = { λ _. codes "move " };

    fn heading() -> &'static str {
        "moves "
    }

    fn read_word(text: &[u8]) -> Option<((), &[u8])> {
        let rest = text.strip_prefix(b"move ")?;
        Some(((), rest))
    }

    fn of(_word: (), source: Place, destination: Place) -> Move {
        Move {
            source,
            destination,
        }
    }

    fn word(&self) -> &'static str {
        "move "
    }

    fn places(&self) -> (Place, Place) {
        (self.source, self.destination)
    }
}

/// A list of moves, numbered from 0: at most [`MAX_TRANSFERS`](batch::MAX_TRANSFERS) of them, all
/// between blocks of the widest shape. Equal moves are different members of the list.
#[derive(Drop)]
pub struct MoveList {
    moves: Vec<Move>,
}

impl Model for MoveList {
    ghost use Rattle.std.specs.Prelude.{List};
    ghost use Rattle.move_directions.specs.declared.moves.Move.{Move};
    ghost use Rattle.move_directions.specs.Moves.{IsMoveList};

    ghost Value = { List Move };

    ghost view = { λ l. l.moves.items };

    ghost invariant = { λ l. IsMoveList l.moves.items };
}

impl MoveList {
    /// Reads a text of moves: the line `moves N`, then N lines `move M b N c`, by which block b of
    /// module M goes to block c of module N.
    ///
    /// Gives the list that the text denotes, or the text's first fault; its faults are those of a
    /// batch text, judged in the same order. Modules and blocks have to be of the widest shape.
    /// Want of memory is answered only where a move had to be kept. Takes time linear in the length
    /// of the text.
    pub fn read(alloc: Global, text: &[u8]) -> Result<MoveList, BatchFault>
        ensures moves { IfOk result (λ moves. Denotes text.now moves) }
        ensures fault { IfErr result (ButForMemory (IsFirstFault text.now)) }
        ensures memory { IfErr result (ForMemory (NeedsMemory text.now)) }
    {
        let moves = read_list(alloc, text, Shape::WIDEST)?;
        Ok(MoveList { moves })
    }

    /// The list's text: the line `moves N`, then the N lines of its moves. Reading it gives an
    /// equal list. Takes time that grows with the length of the text.
    pub fn write(&self) -> Result<Vec<u8>, AllocError>
        ensures { IfOk result (λ text. text.items ≡ moves_text self.now) }
    {
        write_list(*self.moves.allocator(), self.moves.as_slice())
    }

    /// How many moves there are.
    pub fn len(&self) -> usize
        ensures value { result ≡ length self.now }
        ensures list { IsMoveList self.now }
    {
        self.moves.len()
    }

    /// Whether there is no move.
    pub fn is_empty(&self) -> bool
        ensures { IsTrue result ↔ (self.now ≡ []) }
    {
        self.moves.is_empty()
    }

    /// All moves, in order.
    pub fn as_slice(&self) -> &[Move]
        ensures value { result.now ≡ self.now }
        ensures list { IsMoveList self.now }
    {
        self.moves.as_slice()
    }
}

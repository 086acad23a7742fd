//! The switches of a rack, and what each carries.

use crate::board::BoardWiring;

/// A switch of a rack. A rack of at most [`crate::JOINED_MODULES`] modules has `A` alone, and a
/// wider one has both. That there are two is this project's choice.
#[derive(Clone, Copy)]
pub enum Chip {
    A,
    B,
}

/// Which ends of the modules' links are on a switch. This project's choice, which uses all inputs
/// and outputs of the chip.
#[derive(Clone, Copy)]
pub enum Wiring {
    /// Both directions of link 0 and of link 3 of each module, of at most
    /// [`crate::JOINED_MODULES`].
    Both,
    /// The way forth: an input comes from link 0 of the module of its number, and an output goes to
    /// link 3 of the module of its number.
    Forth,
    /// The way back: an input comes from link 3 of the module of its number, and an output goes to
    /// link 0 of the module of its number.
    Back,
    /// Both directions of link 0 and of link 3 of each module, of so many as the board wires, each
    /// link where the board has it.
    Board(BoardWiring),
}

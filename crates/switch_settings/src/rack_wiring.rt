//! How the modules of a rack are wired to its switches.

use crossbar::BoardWiring;

/// How the modules of a rack are wired to its switches.
#[derive(Clone, Copy)]
pub enum RackWiring {
    /// As usual, so many modules: to one switch, or to two where there are more than
    /// [`JOINED_MODULES`](crossbar::JOINED_MODULES).
    Usual(usize),
    /// As a board has it, to its one switch.
    Own(BoardWiring),
}

//! The text of a board's wiring: which links of the board's one switch link 0 and link 3 of each
//! module are on.
//!
//! Its first line is `wiring N`, where N counts the modules, and N lines
//! `module M link 0 at A link 3 at B` follow, by rising numbers of modules. A and B are links of
//! the switch, and none of them stands twice. Where a link of the module is on none of them, `none`
//! stands in the place of `at A`. A module that isn't there has no line.
//!
//! [`read_wiring`] gives the [`Board`] of a text (`Denotes` of `specs/Text.antt`), or the text's
//! first line at fault (`IsFirstBad` of `specs/Faults.antt`). A text has one of each at most, and
//! never both (`laws::one_reading`). Where a rack may be such a board or not, as its caller says,
//! [`read_board`] gives the board (`specs/Boards.antt`). [`read_missing`] gives the refusal of the
//! first transfer of a batch that needs what the board hasn't (`specs/Missing.antt`).
//!
//! The switches below know wirings that leave nothing out. [`Board::wiring`] fills what is left out
//! with links of the switch that are free (`Fills` of `specs/Boards.antt`).
#![tactic(auto)]

mod board;
mod boards;
mod fault;
mod filling;
pub mod laws;
mod missing;
mod reading;
mod wired_module;

pub use board::Board;
pub use boards::{read_board, wiring_of};
pub use fault::WiringFault;
pub use missing::read_missing;
pub use reading::read_wiring;
pub use wired_module::WiredModule;

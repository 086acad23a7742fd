//! The crossbar switch of an INMOS IMS C004, emulated, and the port through which a controller sets
//! the switches of a rack and asks them.
//!
//! A [`Crossbar`] is new as after a reset. [`Crossbar::apply`] changes and answers it as `after`
//! and `answer` of `specs/Switch.antt` say. An honest [`ConfigPort`] that answers Ok has carried
//! out the commands at the chip, given their answers, and left the other chip (`CarriesOutAt` of
//! `specs/Chips.antt`). Each fault is counted. Where a port tells what passes, each reply is heard
//! before the next command is sent (`specs/Traffic.antt`). A [`MemoryPort`] is honest and never
//! fails. A [`FusePort`] is honest, and fails once it is sent more bytes than it still takes.
//!
//! A reset, the joins of some pairs and a settle turn any switch into that of the pairs
//! (`laws::setting`). From the switch of the old pairs, cuts of those that go, joins of those that
//! come and a settle do (`laws::change`; `specs/Pairs.antt`). A [`BoardWiring`] has at most 16
//! modules, and no link of the switch twice.
//!
//! The commands and their effects are those of the INMOS IMS C004 data sheet. Where the sheet is
//! silent, the choice is this project's: when the switch is ready, that a new connection replaces
//! the one that the output had, and which links the modules of a rack are on.
#![tactic(auto)]

mod board;
mod chip;
mod chips;
mod fuse;
pub mod laws;
mod module_links;
mod pair;
mod port;
mod switch;
mod traffic;

pub use board::BoardWiring;
pub use chip::{Chip, Wiring};
pub use fuse::FusePort;
pub use module_links::ModuleLinks;
pub use pair::Pair;
pub use port::{ConfigPort, MemoryPort, PortFault};
pub use switch::{Crossbar, JOINED_MODULES, joined_wide};
pub use traffic::{Direction, Passing, Traffic};

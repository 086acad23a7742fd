//! Moves of blocks whose direction is left open, and the directions by which they need the fewest
//! settings.
//!
//! A transfer's direction decides which of two links it takes at either end: its initiator's link 0
//! and its responder's link 3. Seen as a graph, moves have the modules as their nodes and are its
//! edges, whatever their direction. Each of a module's two links has at most one transfer in a
//! setting, so no directions and no schedule need fewer settings than half of the moves' ends at a
//! module, rounded up (`laws::busiest_module`). [`direct`] gives directions by which no link has
//! more (Petersen 1891), so that a shortest schedule has no more settings either (König 1916).
//!
//! The batch of [`direct`] does just these moves, in their order (`Directs`), and no link has more
//! (`HalvesEnds`). A schedule of it that has a certificate has as few settings as any directions
//! allow (`NeedsFewest`, `laws::directions`). [`MoveList::read`] gives the list that a text
//! denotes, or the text's first fault, and [`MoveList::write`] the one text (`laws::one_reading`).
#![tactic(auto)]

mod directing;
mod ends;
pub mod laws;
mod moves;

pub use directing::direct;
pub use moves::{Move, MoveList};

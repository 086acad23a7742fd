//! A run of a batch by a schedule of it: the switches are set, setting by setting, and the blocks
//! are moved over the links.
//!
//! [`run`] ends in one of three ways (`LeavesMemories` of `specs/Runs.antt`). A completed run has
//! placed the blocks of all transfers. A stopped one names a setting and a cause, and its store is
//! that of the words that each transfer moved. A refused one has changed nothing. What is left of
//! port, wires and switches is `LeavesPlant` of `specs/Plants.antt`, and what the notice is told
//! `TellsOutcome`.
//!
//! Over a port that tells what passes, just that passes which the settings call for, one after
//! another (`LeavesTraffic` of `specs/Traffic.antt`): the bytes that turn the switches, the
//! enquiries of all outputs, and replies that agree. Where a run stops, what passed for its last
//! setting breaks off, ends with a reply that disagrees, or is whole where a wire failed.
#![tactic(auto)]

mod bits;
mod block;
pub mod laws;
mod moved;
mod notice;
mod outcome;
mod plant;
mod ready;
mod running;
mod setting;
mod work;

pub use bits::line_bits;
pub use moved::Moved;
pub use notice::Notice;
pub use outcome::{Outcome, RunRefusal, StopCause};
pub use plant::Plant;
pub use running::run;

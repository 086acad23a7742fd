//! Batches of block transfers in a rack of modules, and their text.
//!
//! The bottom of the controller: the shape of a rack, the places of its blocks, transfers between
//! them, and the batches that a user writes into a file.
//!
//! A [`Batch`] has at most 4096 transfers, all between blocks of the widest shape (`IsBatch`).
//! [`Batch::read`] gives the batch that a text denotes (`Denotes` of `specs/Text.antt`), or the
//! text's first fault (`IsFirstFault` of `specs/Faults.antt`). A text has one of each at most, and
//! never both (`laws::one_reading`). It is usually read against the widest shape
//! (`laws::widest_shape`). Lack of memory comes only where a good line of a transfer stands
//! (`NeedsMemory`). [`Batch::write`] gives the one text.
//! [`read_list`] and [`write_list`] do so for whatever is [`Listed`] (`specs/Lists.antt`,
//! `specs/ListFaults.antt`).
//!
//! [`Shape::new`] and [`Shape::read`] take just the shapes within the limits.
//! [`Batch::first_overlap`] finds the first two transfers that write one block, and none exactly
//! where no two do (`specs/Overlap.antt`). [`Batch::held_sources`] gives each block once that is
//! both read and written (`specs/Held.antt`).
#![tactic(auto)]

mod batch;
mod fault;
mod held;
pub mod laws;
mod limits;
mod list_reading;
mod list_writing;
mod listed;
mod overlap;
mod reading;
mod shape;
mod shape_reading;
mod transfer;
mod written;

pub use batch::Batch;
pub use fault::{BatchFault, ShapeFault};
pub use limits::{MAX_BLOCKS, MAX_DIGITS, MAX_MODULES, MAX_RACK_BLOCKS, MAX_TRANSFERS, MAX_WORDS};
pub use list_reading::read_list;
pub use list_writing::write_list;
pub use listed::Listed;
pub use overlap::widest_index;
pub use reading::{number_before, number_from_digits, position_of};
pub use shape::Shape;
pub use transfer::{Kind, Place, Transfer};
pub use written::WrittenBlocks;

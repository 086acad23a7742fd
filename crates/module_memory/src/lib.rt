//! The memories of a rack's modules.
//!
//! A [`Rack`] holds the words of all blocks. For a run it is parted: the blocks that are to be
//! written are lent as [`Bay`]s, each of which owns its words, while the [`Rest`] can be read by
//! all. Of blocks that are written and read as well the rest has copies.
//!
//! An address without a fault is that of one word (`fault_of` of `specs/Address.antt`).
//! [`Rack::read`] gives it, [`Rack::write`] changes it alone, and each refuses exactly an address
//! with a fault. [`Rack::image`] gives all words as bytes, and [`Rack::of_image`] the one rack of
//! as many bytes as its shape wants (`HasImage` of `specs/Images.antt`). [`Rack::part`] refuses
//! only a place that isn't there or comes twice, or lack of memory. Else bays and rest together are
//! the rack that was, and [`Parted::rejoin`] puts them together (`specs/Lending.antt`,
//! `laws::bays`).
//!
//! Where no two transfers of a batch write one block, the order in which a setting's words move
//! doesn't matter. Wherever they stop, a destination begins with the words that were moved, and
//! nothing else has changed (`laws::any_order`, over `specs/Core.antt`). Settings in which each
//! transfer stands place the whole batch, one after another (`IsPlaced`).
#![tactic(auto)]

mod address;
mod block;
mod fault;
mod image;
pub mod laws;
mod lendable;
mod lending;
mod placing;
mod rack;

pub use address::{HOLD_START, WINDOW_START, WORD_BYTES};
pub use fault::{ImageFault, LendFault, MemoryFault};
pub use image::check_image;
pub use lending::{Bay, Parted, Rest};
pub use placing::placed_image;
pub use rack::{BLOCK_MARK, MODULE_MARK, Rack};

//! What the program and its sessions refuse, and the line that says it.
//!
//! Each refusal has one line, which is put by one function, [`Refusal::put`]: `refused `, the words
//! of one table, and a line feed (`refusal_line` of `specs/Refusals.antt`). Whatever finds a fault
//! converts it by [`From`], and whoever prints it hands the [`Refusal`] on. Each fault of a batch,
//! a schedule, the checker and an image is one refusal (`specs/Sources.antt`); that of a shape is
//! `shape`, and lack of memory `no memory`.
#![tactic(auto)]

mod refusal;
mod validity;

pub use refusal::{PortName, REFUSAL_ROOM, Refusal};
pub use validity::Validity;

//! What tests of runs, books and sessions use: plans and racks of texts, ports and wires that fail
//! or lie, and gates at which threads meet. It has no tests of its own.
#![tactic(auto)]

pub mod common;
pub mod faults;
pub mod meeting;
pub mod running;

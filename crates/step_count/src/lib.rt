//! A count of steps that only contracts see.
//!
//! What does some work takes a `&mut Steps`. It calls [`Steps::tick`] once a round of each of its
//! loops that no constant bounds, and [`Steps::tick_many`] where it copies or fills many words at
//! once. Its contract then says how many steps it takes at most. A count has no bytes and no code.
#![tactic(auto)]

mod steps;

pub use steps::Steps;

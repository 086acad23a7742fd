//! Halving the transfers of a batch so that the uses of each link are halved too.
//!
//! The transfers are edges between the links of the modules. Of those that join the same two links
//! the halves get equally many, and where their number is odd, one is left over. These leftovers
//! are a simple graph, and the walks along them are Euler's: each takes out the edges that it
//! meets, and they fall into the two halves in turn, until it comes to a link that has none left.
//! So at each link the halves have equally many of the edges, or one more or less (Gabow 1976).
//! Where each pair of links has an even number of the transfers, none is left over, and there is no
//! walk.
//!
//! [`split`] and [`split_in_place`] put each member into one half. In each half a link has half of
//! its uses, rounded up, or fewer (`IsSplit` of `specs/Split.antt`). After [`split_evenly`] each
//! pair of links has as many in the one half as in the other (`HaveSamePairs`), and [`times_even`]
//! tells how often that can be done.
//!
//! Places that have partners at two ends are halved by walks from partner to partner. These are
//! public for others that have places to put into two halves: after [`halve`] no two partners are
//! in one half (`IsHalved` of `specs/Walks.antt`).
#![tactic(auto)]

mod evenly;
mod halving;
mod limits;
mod pairing;
mod pairs;
mod scratch;
mod trails;
mod walking;

pub use evenly::{split_evenly, times_even};
pub use halving::{split, split_in_place};
pub use limits::MAX_PLACES;
pub use pairing::wait_or_pair;
pub use scratch::Scratch;
pub use walking::halve;

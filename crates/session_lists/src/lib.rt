//! The history of what many sessions did, and each session's own list. Both are known to proofs
//! alone: no byte of them is kept.
//!
//! [`Fresh::open`] gives the [`Keeper`] of an empty history. [`Keeper::deal`] makes the empty list
//! of one more session, before there is any history. [`Keeper::add`] puts an entry after the
//! history, and after the list of the entry's session. [`Keeper::compare`] changes nothing, and
//! tells that a session's list is what the history has of it (`own_of` of `specs/Lists.antt`).
#![tactic(auto)]

mod keeper;
mod rule;

pub use keeper::{Fresh, HistoryName, Keeper, OwnList};
pub use rule::{ListsView, SessionItem};

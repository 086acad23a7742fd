//! A word that only rises, which says how far something has come.
//!
//! Some watch the word from watchers of their own, and each may raise it. A [`Watcher`] knows what
//! it saw of the word and to what it raised it, and has some of the word's parts. Where one has all
//! parts, no other is left, and the word is what it was raised to from there. No call waits for
//! another.
//!
//! The rule of the word is `HasRule` of `specs/Rule.antt`. It holds once the word is made, and
//! after each load, raise, split and join (`laws::rule`). [`ProgressWord::load`] answers nothing
//! after what the watcher has seen. After [`ProgressWord::raise`] the watcher has seen the value
//! or more. A new watcher of [`ProgressWord::split`] has seen as much and raised nothing.
//! [`ProgressWord::join`] adds up the parts of two, and keeps the greater of what they saw and
//! raised.
#![tactic(auto)]

pub mod laws;
mod limits;
mod rule;
mod word;

pub use limits::ALL_PARTS;
pub use rule::{WordStep, WordView};
pub use word::{ProgressWord, Watcher};

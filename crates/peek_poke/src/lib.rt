//! Peek and poke on a transputer's link (IMS T414): messages spelt as bytes, the end that answers
//! them byte by byte, and words moved over a wire.
//!
//! [`poke_bytes`] and [`peek_bytes`] are `spell` of `specs/Messages.antt`. A text is that of one
//! list of messages at most (`laws::one_reading`). [`Answerer::feed`] does to a store what these
//! messages say, each at its last byte (`Feeds` of `specs/Effects.antt`). It refuses just a control
//! byte above that of a peek, a message that the store refuses, and each byte after a fault. Then
//! the store stays as it was. A module, a bay, a block of the rest and a held block are stores
//! ([`WordStore`]): words stand at their addresses (`laws::blocks`), and only modules and bays take
//! writes.
//!
//! A [`Wire`] brings the byte that it was given, or it fails, which is counted, and has carried
//! nothing. A [`PlainWire`] never fails, a [`FuseWire`] does after so many bytes. [`push_word`] and
//! [`pull_word`] move one word or none. The wire has carried just the message and its reply, or,
//! where it broke, a proper front of them (`IsBrokenOff` of `specs/Sending.antt`).
#![tactic(auto)]

mod answerer;
mod bit_line;
mod block;
mod fault;
mod fuse;
mod held_store;
pub mod laws;
mod message;
mod plain;
mod store;
mod window;
mod wire;
mod word;

pub use answerer::Answerer;
pub use block::RestStore;
pub use fault::{AnswerFault, StoreFault, WireFault};
pub use fuse::{FuseLine, FuseWire, FuseWires};
pub use held_store::HeldStore;
pub use message::{
    Message, PEEK, PEEK_BYTES, POKE, POKE_BYTES, REPLY_BYTES, peek_bytes, poke_bytes,
};
pub use plain::{PlainWire, PlainWires};
pub use store::WordStore;
pub use window::Window;
pub use wire::{Wire, WireMaker};
pub use word::{pull_word, push_word};

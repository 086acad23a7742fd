//! The end of a module's link 3, which answers peek and poke.

ghost use Rattle.std.specs.Prelude.{◌≡◌, ◌↔◌, [], ◌∷◌, ◌++◌, length, false, IsTrue, MatchResult};
ghost use Rattle.peek_poke.specs.Messages.{IsAtRest, IsPartial, rest_after};
ghost use Rattle.peek_poke.specs.Effects.{Continues, HasEffect, Feeds, IsRefused};

use crate::fault::{AnswerFault, StoreFault};
use crate::message::{Message, PEEK, PEEK_BYTES, POKE, POKE_BYTES, REPLY_BYTES, message_in};
use crate::store::WordStore;
use byte_streams::PassedBytes;
use std::marker::Model;

/// The answering end of a module: it takes the bytes of pokes and peeks one by one, as an IMS T414
/// does while it waits to boot from a link (data sheet). Unlike one, it answers at all times, until
/// it has failed: this is the project's choice. Contracts see whether it has failed, what has come
/// of the next message, and all bytes that it was handed.
#[derive(Drop)]
pub struct Answerer {
    bytes: [u8; POKE_BYTES],
    len: usize,
    failed: bool,
    taken: PassedBytes,
}

impl Model for Answerer {
    ghost use Rattle.std.specs.Prelude.{take};
    ghost use Rattle.peek_poke.specs.Messages.{IsPartialMessage, Pending};

    ghost Value = { Pending };

    ghost view = { λ a. record { failed = a.failed; bytes = take a.len a.bytes; taken = a.taken } };

    ghost invariant = { λ a. IsPartialMessage a.bytes a.len };
}

impl Message {
    /// Takes effect on a store: a poke writes its word, a peek answers the bytes of the word.
    fn act<S: WordStore>(self, store: &mut S) -> Result<Option<[u8; REPLY_BYTES]>, StoreFault>
        ensures { MatchResult result
            (λ answer. HasEffect S.read_gives S.write_gives store.old self answer store.new)
            (λ fault. IsRefused S.read_gives S.write_gives store.old self fault
            × (store.new ≡ store.old)) }
    {
        match self {
            Message::Poke { address, word } => {
                store.write_word(address, word)?;
                Ok(None)
            }
            Message::Peek { address } => {
                let word = store.read_word(address)?;
                Ok(Some(word.to_le_bytes()))
            }
        }
    }
}

impl Answerer {
    /// An end to which nothing has come.
    pub fn new() -> Answerer
        ensures { result ≡ rest_after [] }
    {
        Answerer {
            bytes: [0; POKE_BYTES],
            len: 0,
            failed: false,
            taken: PassedBytes::none(),
        }
    }

    /// Whether it hasn't failed and nothing has come of a message.
    pub fn at_rest(&self) -> bool
        ensures { IsTrue result ↔ IsAtRest self.now }
    {
        !self.failed && self.len == 0
    }

    /// Takes the next byte, and answers the bytes of the word at the end of a peek.
    ///
    /// A message takes effect at its last byte; until then its bytes do nothing. A control byte
    /// above [`PEEK`] is answered `Boot` at once; an address that the store refuses is answered
    /// `Misaligned` or `Outside` at the last byte of its message. A fault leaves the store as it
    /// is, and every byte after it is answered `Failed`.
    #[inline]
    pub fn feed<S: WordStore>(
        &mut self,
        store: &mut S,
        byte: u8,
    ) -> Result<Option<[u8; REPLY_BYTES]>, AnswerFault>
        // This byte, with what came before it of its message.
        ensures step { Feeds S.read_gives S.write_gives
            self.old store.old byte result self.new store.new }
        // This byte as the end of all that has come, from whatever store on.
        ensures text { Continues S.read_gives S.write_gives
            self.old store.old byte result self.new store.new }
        ensures partial { IsPartial self.old.bytes × IsPartial self.new.bytes }
        ensures taken { self.new.taken ≡ self.old.taken ++ byte ∷ [] }
    {
        self.take_byte(store, byte)
    }

    /// Takes the next byte of a packet, which what came before doesn't complete.
    fn take_byte<S: WordStore>(
        &mut self,
        store: &mut S,
        byte: u8,
    ) -> Result<Option<[u8; REPLY_BYTES]>, AnswerFault>
        ensures step { Feeds S.read_gives S.write_gives
            self.old store.old byte result self.new store.new }
        ensures partial { IsPartial self.old.bytes × IsPartial self.new.bytes }
        ensures taken { self.new.taken ≡ self.old.taken ++ byte ∷ [] }
    {
        self.taken.add(byte);
        if self.failed {
            return Err(AnswerFault::Failed);
        }
        if self.len == 0 && byte > PEEK {
            self.failed = true;
            return Err(AnswerFault::Boot(byte));
        }
        self.bytes[self.len] = byte;
        self.len += 1;
        let whole = if self.bytes[0] == POKE {
            POKE_BYTES
        } else {
            PEEK_BYTES
        };
        if self.len < whole {
            return Ok(None);
        }
        self.len = 0;
        let message = message_in(&self.bytes);
        match message.act(store) {
            Ok(answer) => Ok(answer),
            Err(fault) => {
                self.failed = true;
                Err(AnswerFault::from(fault))
            }
        }
    }

    /// Takes a byte that its message goes on after, as [`feed`](Answerer::feed) does: `count`
    /// bytes of the message came before it. The number is handed in so that the compiler knows
    /// where the byte stands.
    #[inline]
    pub(crate) fn keep(&mut self, count: usize, arrived: u8)
        requires alive { self.old.failed ≡ false }
        requires count { length self.old.bytes ≡ count }
        requires goes_on { IsPartial (self.old.bytes ++ arrived ∷ []) }
        ensures { self.new ≡ record {
          failed = false;
          bytes = self.old.bytes ++ arrived ∷ [];
          taken = self.old.taken ++ arrived ∷ [];
        } }
    {
        self.taken.add(arrived);
        self.bytes[count] = arrived;
        self.len = count + 1;
    }
}

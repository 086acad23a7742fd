//! The bytes that keep an end.

ghost use Rattle.std.specs.Prelude.{◌≡◌, ◌++◌, ◌∷◌, [], MatchOption, false};
ghost use Rattle.peek_poke.specs.Effects.{Feeds};
ghost use Rattle.peek_poke.specs.Messages.{IsPartial};
ghost use Rattle.link_devices.specs.Memory.{memory_read, memory_write};
ghost use Rattle.link_devices.specs.BootStates.{IsBootState, message_begun, new_boot_end};
ghost use Rattle.link_devices.specs.BootStates.{pending_of};
ghost use Rattle.link_devices.specs.BootTaking.{EndTakesByte};

use crate::boot_fault::BootFault;
use crate::memory::{LentMemory, NoMemory};
use peek_poke::{AnswerFault, Answerer, POKE_BYTES, REPLY_BYTES};

/// How many bytes can have come of a message: one less than the longest has.
pub const MAX_PARTIAL_MESSAGE: usize = POKE_BYTES - 1;

/// The bytes that keep an end. Not all bytes do: those that no end has are refused by each call.
/// That they are these is this project's choice.
#[repr(C)]
#[derive(Clone, Copy)]
pub struct BootState {
    /// The bytes that have come of a message. What stands after them has no effect.
    pub begun: [u8; MAX_PARTIAL_MESSAGE],
    /// How many bytes have come of it, 0 to [`MAX_PARTIAL_MESSAGE`].
    pub begun_count: u8,
    /// 1 once the end has refused a byte, and else 0.
    pub failed: u8,
}

impl BootState {
    /// An end to which nothing has come: all bytes are 0.
    pub fn reset() -> BootState
        ensures state { IsBootState result }
        ensures new { pending_of result ≡ new_boot_end }
    {
        BootState {
            begun: [0; MAX_PARTIAL_MESSAGE],
            begun_count: 0,
            failed: 0,
        }
    }

    /// Takes the next byte of a link, and answers the bytes of the word at the end of a peek. The
    /// memory is that of the module from `base` on; a word is there where all its bytes are. Takes
    /// constant time.
    ///
    /// A control byte above that of a peek is refused at once, a bad address at the last byte of
    /// its message. After a refusal the end has failed, and refuses each byte. A refusal changes
    /// no byte of the memory.
    pub fn take(
        &mut self,
        memory: &mut [u8],
        base: u32,
        byte: u8,
    ) -> Result<Option<[u8; REPLY_BYTES]>, BootFault>
        ensures { EndTakesByte base self.old memory.old byte result self.new memory.new }
    {
        let Some(mut end) = self.answerer() else {
            return Err(BootFault::NoEnd);
        };
        if self.failed == 1 {
            return Err(BootFault::Refused(AnswerFault::Failed));
        }
        match hand(&mut end, memory, base, byte) {
            Ok(reply) if end.at_rest() => {
                self.begun_count = 0;
                Ok(reply)
            }
            Ok(reply) => {
                self.keep(byte);
                Ok(reply)
            }
            Err(fault) => {
                self.begun_count = 0;
                self.failed = 1;
                Err(BootFault::Refused(fault))
            }
        }
    }

    /// The byte has come of the next message too, which isn't whole yet.
    fn keep(&mut self, byte: u8)
        requires state { IsBootState self.old }
        requires partial { IsPartial (message_begun self.old ++ byte ∷ []) }
        ensures state { IsBootState self.new }
        ensures begun { message_begun self.new ≡ message_begun self.old ++ byte ∷ [] }
        ensures failed { self.new.failed ≡ self.old.failed }
    {
        self.begun[usize::from(self.begun_count)] = byte;
        self.begun_count += 1;
    }

    /// An end to which just the bytes have come that have come of the next message. There is none
    /// where no end has this state.
    fn answerer(&self) -> Option<Answerer>
        ensures { MatchOption result (IsBootState self.now → ⊥)
            (λ end. IsBootState self.now × (end.failed ≡ false)
            × (end.bytes ≡ message_begun self.now)) }
    {
        if self.failed > 1 || usize::from(self.begun_count) > MAX_PARTIAL_MESSAGE {
            return None;
        }
        answerer_of(&self.begun[..usize::from(self.begun_count)])
    }
}

/// An end to which these bytes have come. There is none where they are no front of a message.
fn answerer_of(begun: &[u8]) -> Option<Answerer>
    ensures { MatchOption result (IsPartial begun.now → ⊥)
        (λ end. (end.failed ≡ false) × (end.bytes ≡ begun.now) × IsPartial begun.now) }
{
    let mut end = Answerer::new();
    for byte in begun {
        match end.feed(&mut NoMemory, *byte) {
            Ok(None) => {}
            Ok(Some(_)) => return None,
            Err(_) => return None,
        }
    }
    Some(end)
}

/// Hands the end a byte, over the memory of its module.
fn hand(
    end: &mut Answerer,
    memory: &mut [u8],
    base: u32,
    byte: u8,
) -> Result<Option<[u8; REPLY_BYTES]>, AnswerFault>
    ensures { Feeds (memory_read base) (memory_write base)
        end.old memory.old byte result end.new memory.new }
{
    let mut store = LentMemory {
        bytes: memory,
        base,
    };
    end.feed(&mut store, byte)
}

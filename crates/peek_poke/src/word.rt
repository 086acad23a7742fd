//! Words moved over a wire, as messages to an answering end.

ghost use Rattle.std.specs.Prelude.{◌≡◌, ◌<◌, ◌≤◌, ◌++◌, ℕ, [], Ok, false, IfOk, OnErr, OnOk, IsOk};
ghost use Rattle.peek_poke.specs.declared.message.Message.TheVariants.{Peek, Poke};
ghost use Rattle.peek_poke.specs.Messages.{IsAtRest, IsPartial, rest_after, spell, word_bytes};
ghost use Rattle.peek_poke.specs.Sending.{IsBrokenOff, IsCut};

use crate::answerer::Answerer;
use crate::fault::WireFault;
use crate::message::{PEEK_BYTES, POKE_BYTES, REPLY_BYTES, peek_bytes, poke_bytes};
use crate::store::WordStore;
use crate::wire::Wire;

/// Sends less than a whole message.
#[inline(always)]
fn send_front<W: Wire>(wire: &mut W, answerer: &mut Answerer, bytes: &[u8]) -> Result<(), WireFault>
    requires rest { IsAtRest answerer.old }
    requires partial { IsPartial bytes.now }
    ensures sent { OnOk result
        (answerer.new ≡ record {
          failed = false;
          bytes = bytes.now;
          taken = answerer.old.taken ++ bytes.now;
        }) }
    ensures carried { OnOk result (W.carried wire.new ≡ W.carried wire.old ++ bytes.now) }
    ensures broken { OnErr result
        (IsBrokenOff W.carried bytes.now [] wire.old wire.new answerer.old answerer.new) }
    ensures fault { OnErr result (W.failures wire.old < W.failures wire.new) }
    ensures counted { W.failures wire.old ≤ W.failures wire.new }
    ensures unfailed { OnOk result (W.failures wire.new ≡ W.failures wire.old) }
    ensures sure { W.never_fails wire.old → IsOk result }
    ensures stays_sure { W.never_fails wire.old → W.never_fails wire.new }
{
    for (count, byte) in bytes.iter().enumerate() {
        let arrived = wire.carry(*byte)?;
        answerer.keep(count, arrived);
    }
    Ok(())
}

/// Carries the bytes of a word back.
#[inline(always)]
fn carry_back<W: Wire>(
    wire: &mut W,
    bytes: [u8; REPLY_BYTES],
) -> Result<[u8; REPLY_BYTES], WireFault>
    ensures arrived { IfOk result (λ arrived. arrived ≡ bytes) }
    ensures carried { OnOk result (W.carried wire.new ≡ W.carried wire.old ++ bytes) }
    ensures broken { OnErr result (IsCut bytes (W.carried wire.old) (W.carried wire.new)) }
    ensures fault { OnErr result (W.failures wire.old < W.failures wire.new) }
    ensures counted { W.failures wire.old ≤ W.failures wire.new }
    ensures unfailed { OnOk result (W.failures wire.new ≡ W.failures wire.old) }
    ensures sure { W.never_fails wire.old → IsOk result }
    ensures stays_sure { W.never_fails wire.old → W.never_fails wire.new }
{
    let [b0, b1, b2, b3] = bytes;
    let c0 = wire.carry(b0)?;
    let c1 = wire.carry(b1)?;
    let c2 = wire.carry(b2)?;
    let c3 = wire.carry(b3)?;
    Ok([c0, c1, c2, c3])
}

/// Pokes a word over a wire: the bytes of the poke go forward, and the answering end writes the
/// word.
///
/// The answering end has to be at rest, and the store has to take the write. Nine bytes go over the
/// wire, and the answering end takes them. Where the wire breaks, nothing is written; a new
/// answering end has to be made then.
#[inline(always)]
pub fn push_word<W: Wire, S: WordStore>(
    wire: &mut W,
    answerer: &mut Answerer,
    store: &mut S,
    address: u32,
    word: u32,
) -> Result<(), WireFault>
    requires rest { IsAtRest answerer.old }
    requires takes { IsOk (S.write_gives store.old address word) }
    ensures written { OnOk result (S.write_gives store.old address word ≡ Ok store.new) }
    ensures carried { OnOk result
        (W.carried wire.new ≡ W.carried wire.old ++ spell (Poke address word)) }
    ensures taken { OnOk result
        (answerer.new ≡ rest_after (answerer.old.taken ++ spell (Poke address word))) }
    ensures broken { OnErr result
        (IsBrokenOff W.carried (spell (Poke address word)) []
        wire.old wire.new answerer.old answerer.new) }
    ensures unchanged { OnErr result (store.new ≡ store.old) }
    ensures fault { OnErr result (W.failures wire.old < W.failures wire.new) }
    ensures counted { W.failures wire.old ≤ W.failures wire.new }
    ensures unfailed { OnOk result (W.failures wire.new ≡ W.failures wire.old) }
    ensures sure { W.never_fails wire.old → IsOk result }
    ensures stays_sure { W.never_fails wire.old → W.never_fails wire.new }
{
    let bytes = poke_bytes(address, word);
    send_front(wire, answerer, &bytes[..POKE_BYTES - 1])?;
    let last = wire.carry(bytes[POKE_BYTES - 1])?;
    match answerer.feed(store, last) {
        Ok(_) => Ok(()),
        Err(_) => unreachable!(),
    }
}

/// Peeks a word over a wire: the bytes of the peek go forward, and those of the word come back.
///
/// The answering end has to be at rest, and the store has to have the address. The store stays as
/// it is. Five bytes go forward and four come back. Where the wire breaks, a new answering end has
/// to be made.
#[inline(always)]
pub fn pull_word<W: Wire, S: WordStore>(
    wire: &mut W,
    answerer: &mut Answerer,
    store: &mut S,
    address: u32,
) -> Result<u32, WireFault>
    requires rest { IsAtRest answerer.old }
    requires has { IsOk (S.read_gives store.old address) }
    ensures read { IfOk result (λ word. S.read_gives store.old address ≡ Ok word) }
    ensures carried { IfOk result
        (λ word. W.carried wire.new
        ≡ W.carried wire.old ++ (spell (Peek address) ++ word_bytes word)) }
    ensures taken { OnOk result
        (answerer.new ≡ rest_after (answerer.old.taken ++ spell (Peek address))) }
    ensures broken { OnErr result
        ((word : ℕ) → S.read_gives store.old address ≡ Ok word
        → IsBrokenOff W.carried (spell (Peek address)) (word_bytes word)
        wire.old wire.new answerer.old answerer.new) }
    ensures unchanged { store.new ≡ store.old }
    ensures fault { OnErr result (W.failures wire.old < W.failures wire.new) }
    ensures counted { W.failures wire.old ≤ W.failures wire.new }
    ensures unfailed { OnOk result (W.failures wire.new ≡ W.failures wire.old) }
    ensures sure { W.never_fails wire.old → IsOk result }
    ensures stays_sure { W.never_fails wire.old → W.never_fails wire.new }
{
    let bytes = peek_bytes(address);
    send_front(wire, answerer, &bytes[..PEEK_BYTES - 1])?;
    let tail = wire.carry(bytes[PEEK_BYTES - 1])?;
    match answerer.feed(store, tail) {
        Ok(Some(reply)) => {
            let arrived = carry_back(wire, reply)?;
            Ok(u32::from_le_bytes(arrived))
        }
        Ok(None) | Err(_) => unreachable!(),
    }
}

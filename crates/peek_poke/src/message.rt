//! The messages to an answering end (IMS T414 data sheet, peek and poke over a link).

ghost use Rattle.std.specs.Prelude.{◌≡◌, ◌≤◌, slice_index, take};
ghost use Rattle.peek_poke.specs.Messages.{IsMessage, spell};
ghost use Rattle.peek_poke.specs.declared.message.Message.TheVariants.{Peek, Poke};

/// The control byte of a poke (IMS T414 data sheet).
pub const POKE: u8 = 0;

/// The control byte of a peek (IMS T414 data sheet). A greater one is the length of a bootstrap.
pub const PEEK: u8 = 1;

/// How many bytes a poke has: its control byte, an address and a word.
pub const POKE_BYTES: usize = 9;

/// How many bytes a peek has: its control byte and an address.
pub const PEEK_BYTES: usize = 5;

/// How many bytes answer a peek: those of a word.
pub const REPLY_BYTES: usize = 4;

/// What an answering end is asked.
#[derive(Clone, Copy)]
pub enum Message {
    /// To write a word.
    Poke { address: u32, word: u32 },
    /// To answer a word.
    Peek { address: u32 },
}

/// The bytes of a poke, the first one first: its control byte, the address and the word, each with
/// the least significant byte first.
pub fn poke_bytes(address: u32, word: u32) -> [u8; POKE_BYTES]
    ensures { result ≡ spell (Poke address word) }
{
    let [a0, a1, a2, a3] = address.to_le_bytes();
    let [w0, w1, w2, w3] = word.to_le_bytes();
    [POKE, a0, a1, a2, a3, w0, w1, w2, w3]
}

/// The bytes of a peek, the first one first: its control byte and the address, with the least
/// significant byte first.
pub fn peek_bytes(address: u32) -> [u8; PEEK_BYTES]
    ensures { result ≡ spell (Peek address) }
{
    let [a0, a1, a2, a3] = address.to_le_bytes();
    [PEEK, a0, a1, a2, a3]
}

/// The message at the beginning of these bytes.
pub(crate) fn message_in(bytes: &[u8; POKE_BYTES]) -> Message
    requires { slice_index bytes.now 0 ≤ PEEK }
    ensures poke { slice_index bytes.now 0 ≡ POKE → spell result ≡ bytes.now }
    ensures peek { slice_index bytes.now 0 ≡ PEEK → spell result ≡ take PEEK_BYTES bytes.now }
    ensures fits { IsMessage result }
{
    let address = u32::from_le_bytes([bytes[1], bytes[2], bytes[3], bytes[4]]);
    if bytes[0] == POKE {
        let word = u32::from_le_bytes([bytes[5], bytes[6], bytes[7], bytes[8]]);
        Message::Poke { address, word }
    } else {
        Message::Peek { address }
    }
}

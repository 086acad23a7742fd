//! The bits that go over a line.

ghost use Rattle.std.specs.Prelude.{◌≡◌, ◌≤◌};
ghost use Rattle.setting_runner.specs.LineBits.{bits_of};

use batch::{MAX_TRANSFERS, MAX_WORDS};
use peek_poke::POKE_BYTES;

/// How many bits a byte takes with its acknowledge (IMS T414 data sheet, link protocol).
const BYTE_BITS: u64 = 13;

/// The most words that a run can move.
const MAX_MOVED: u64 = (MAX_TRANSFERS * MAX_WORDS) as u64;

/// How many bits go over the lines, both ways, where so many words are moved, at most as many as a
/// run can move, 1,048,576: 117 for each word.
///
/// A word takes the nine bytes of a poke, or the five of a peek and the four of its reply. A byte
/// takes eleven bits, and two for its acknowledge (INMOS IMS T414 data sheet, link protocol).
pub fn line_bits(words: u64) -> u64
    requires { words ≤ MAX_MOVED }
    ensures { result ≡ bits_of words }
{
    BYTE_BITS * POKE_BYTES as u64 * words
}

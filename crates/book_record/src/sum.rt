//! Sums of images, and of a record's head, entries and end.

ghost use Rattle.std.specs.Prelude.{◌≡◌, ◌≢◌, ◌<◌, ◌++◌, ◌^◌, ℕ, List, MatchOption};
ghost use Rattle.book_record.specs.Sums.{adler, sum_at, sum_line, summing};

use line_words::{HEX_DIGITS, hex8_of, rest_after};

/// The greatest prime below 65,536 (RFC 1950).
const MODULUS: u32 = 65521;

/// A sum of lines is multiplied by this before a byte is added.
const FACTOR: u64 = 2_891_336_453;

/// A sum of lines is below this.
const SUMS: u64 = 4_294_967_296;

/// The bytes of the line of a sum.
pub(crate) const SUM_ROOM: usize = HEX_DIGITS + 2;

/// The sum of an image: its Adler-32, as RFC 1950 has it. Takes time by the bytes.
pub fn sum_of(image: &[u8]) -> u32
    ensures { result ≡ adler image.now }
{
    let mut low: u32 = 1;
    let mut high: u32 = 0;
    for byte in image {
        low = (low + *byte as u32) % MODULUS;
        high = (high + low) % MODULUS;
    }
    high * 65536 + low
}

/// The sum that goes on from this.
fn sum_from(start: u64, lines: &[u8]) -> u32
    requires { start < 2 ^ 32 }
    ensures { result ≡ summing start lines.now }
{
    let mut sum = start;
    for byte in lines {
        sum = (sum * FACTOR + *byte as u64) % SUMS;
    }
    sum as u32
}

/// The sum of the lines of the entry of this number. Takes time by the bytes.
pub fn sum_at(number: u64, lines: &[u8]) -> u32
    ensures { result ≡ sum_at number lines.now }
{
    sum_from(number % SUMS, lines)
}

/// The line of a sum.
pub(crate) fn sum_line(sum: u32) -> [u8; SUM_ROOM]
    ensures { result ≡ sum_line sum }
{
    let mut line = [b'='; SUM_ROOM];
    line[1..SUM_ROOM - 1].copy_from_slice(&hex8_of(sum));
    line[SUM_ROOM - 1] = b'\n';
    line
}

/// What follows the line of this sum, if the text begins with it.
pub(crate) fn after_sum(text: &[u8], sum: u32) -> Option<&[u8]>
    ensures { MatchOption result ((rest : List ℕ) → text.now ≢ sum_line sum ++ rest)
        (λ rest. text.now ≡ sum_line sum ++ rest.now) }
{
    rest_after(text, &sum_line(sum))
}

//! The numbers of a text, read from the left. Each reader gives what it has read and the rest.

ghost use Rattle.std.specs.Prelude.{◌≡◌, ◌≢◌, ℕ, ◌<◌, ◌++◌, IfSome, IfNone, length, position, ◌==◌};
ghost use Rattle.std.specs.Prelude.{◌↔◌, IsTrue, slice_index};
ghost use Rattle.std.specs.Fmt.{decimal};
ghost use Rattle.batch.specs.Numbers.{BeginsWithNoNumber, IsNumber, IsDigit, number};

use crate::limits::MAX_DIGITS;

/// Whether these are several digits, the first of which is 0.
fn has_leading_zero(digits: &[u8]) -> bool
    ensures { IsTrue result ↔ ((1 < length digits.now) × (slice_index digits.now 0 ≡ 48)) }
{
    digits.len() > 1 && digits[0] == b'0'
}

/// The number that these digits spell: `0`, or a digit from 1 to 9 and digits after it, at most
/// [`MAX_DIGITS`] in all. Takes time that grows with the number of digits.
pub fn number_from_digits(digits: &[u8]) -> Option<usize>
    ensures some { IfSome result (λ n. IsNumber n × (digits.now ≡ decimal n)) }
    ensures none { IfNone result ((n : ℕ) → IsNumber n → digits.now ≢ decimal n) }
{
    if digits.is_empty() || digits.len() > MAX_DIGITS || has_leading_zero(digits) {
        return None;
    }
    let mut n = 0usize;
    for digit in digits {
        if !digit.is_ascii_digit() {
            return None;
        }
        n = n * 10 + usize::from(*digit - b'0');
    }
    Some(n)
}

/// Where a byte stands first, counted from 0, or `None` where it doesn't stand. Takes time that
/// grows with the number of bytes before it.
pub fn position_of(bytes: &[u8], byte: u8) -> Option<usize>
    ensures { result ≡ position (λ b. b == byte) bytes.now }
{
    bytes.iter().position(|b| *b == byte)
}

/// A number that this byte ends after one digit or two, and what stands after the two. Most
/// numbers of a text are so short; of others, and of a number that ends the text, nothing is said.
fn short_number_before(bytes: &[u8], end: u8) -> Option<(usize, &[u8])>
    ensures { IfSome result (λ x. IsNumber x.0 × (bytes.now ≡ number x.0 end ++ x.1.now)) }
{
    if bytes.len() < 3 || !bytes[0].is_ascii_digit() {
        return None;
    }
    let tens = usize::from(bytes[0] - b'0');
    if bytes[1] == end {
        return Some((tens, &bytes[2..]));
    }
    if tens == 0 || !bytes[1].is_ascii_digit() || bytes[2] != end {
        return None;
    }
    let ones = usize::from(bytes[1] - b'0');
    Some((10 * tens + ones, &bytes[3..]))
}

/// A number that this byte ends, which is no digit, and what stands after the two. Takes time that
/// grows with the number of bytes before the byte.
pub fn number_before(bytes: &[u8], end: u8) -> Option<(usize, &[u8])>
    requires { IsDigit end → ⊥ }
    ensures some { IfSome result (λ x. IsNumber x.0 × (bytes.now ≡ number x.0 end ++ x.1.now)) }
    ensures none { IfNone result (BeginsWithNoNumber bytes.now end) }
{
    if let Some((n, rest)) = short_number_before(bytes, end) {
        return Some((n, rest));
    }
    let at = position_of(bytes, end)?;
    let n = number_from_digits(&bytes[..at])?;
    Some((n, &bytes[at + 1..]))
}

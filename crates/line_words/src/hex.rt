//! Hexadecimal digits, in lower case.

ghost use Rattle.std.specs.Prelude.{◌≡◌, ◌≢◌, ℕ, ◌<◌, IfSome, IfNone};
ghost use Rattle.line_words.specs.HexWords.{IsWord, hex_digit, hex2, hex8};

use crate::limits::HEX_DIGITS;

/// The digits, each at the place of its value.
static DIGITS: [u8; 16] = *b"0123456789abcdef";

/// The digit of a value.
fn digit_of(value: u32) -> u8
    requires { value < 16 }
    ensures { result ≡ hex_digit value }
{
    DIGITS[value as usize]
}

/// The two digits of a byte.
#[inline]
pub fn hex2_of(byte: u8) -> [u8; 2]
    ensures { result ≡ hex2 byte }
{
    let value = u32::from(byte);
    [digit_of(value / 16), digit_of(value % 16)]
}

/// The eight digits of a word.
#[inline]
pub fn hex8_of(word: u32) -> [u8; HEX_DIGITS]
    ensures { result ≡ hex8 word }
{
    let mut digits = [0; HEX_DIGITS];
    let mut front = word;
    for behind in 0..HEX_DIGITS {
        digits[HEX_DIGITS - 1 - behind] = digit_of(front % 16);
        front /= 16;
    }
    digits
}

/// The value of a digit.
fn value_of(digit: u8) -> Option<u32>
    ensures some { IfSome result (λ value. (value < 16) × (digit ≡ hex_digit value)) }
    ensures none { IfNone result ((value : ℕ) → value < 16 → digit ≢ hex_digit value) }
{
    match digit {
        b'0'..=b'9' => Some(u32::from(digit - b'0')),
        b'a'..=b'f' => Some(u32::from(digit - b'a') + 10),
        _ => None,
    }
}

/// The word that these digits spell: eight of them, and none in upper case.
pub fn word_from_hex8(digits: &[u8]) -> Option<u32>
    ensures some { IfSome result (λ word. IsWord word × (digits.now ≡ hex8 word)) }
    ensures none { IfNone result ((word : ℕ) → IsWord word → digits.now ≢ hex8 word) }
{
    if digits.len() != HEX_DIGITS {
        return None;
    }
    let mut word = 0u32;
    for digit in digits {
        let value = value_of(*digit)?;
        word = word * 16 + value;
    }
    Some(word)
}

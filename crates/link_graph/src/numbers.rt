//! Numbers of a text, each after a space.

ghost use Rattle.std.specs.Prelude.{◌≡◌, ◌<◌, ◌≤◌, ◌+◌, ◌/◌, ◌%◌, ◌++◌, OnOk};
ghost use Rattle.link_graph.specs.ScheduleText.{spaced};

use std::alloc::AllocError;

/// The two digits of each number below 100, in order.
static DIGIT_PAIRS: [u8; 200] = *b"\
    00010203040506070809\
    10111213141516171819\
    20212223242526272829\
    30313233343536373839\
    40414243444546474849\
    50515253545556575859\
    60616263646566676869\
    70717273747576777879\
    80818283848586878889\
    90919293949596979899";

/// The two digits of a number below 100.
fn pair(n: usize) -> (u8, u8)
    requires { n < 100 }
    ensures tens { result.0 ≡ 48 + n / 10 }
    ensures ones { result.1 ≡ 48 + n % 10 }
{
    (DIGIT_PAIRS[n * 2], DIGIT_PAIRS[n * 2 + 1])
}

/// The digit of a number below 10.
fn digit(n: usize) -> u8
    requires { n < 10 }
    ensures { result ≡ 48 + n }
{
    b'0' + n as u8
}

/// Puts a number of at most three digits at the end of a text, after a space.
#[inline(always)]
fn push_short(text: &mut Vec<u8>, n: usize) -> Result<(), AllocError>
    requires { n < 1000 }
    ensures { OnOk result (text.new.items ≡ text.old.items ++ spaced n) }
{
    let (tens, ones) = pair(n % 100);
    if n < 10 {
        return text.extend_from_slice(&[b' ', ones]);
    }
    if n < 100 {
        return text.extend_from_slice(&[b' ', tens, ones]);
    }
    let hundreds = digit(n / 100);
    text.extend_from_slice(&[b' ', hundreds, tens, ones])
}

/// Puts a number of four digits at the end of a text, after a space.
#[inline(always)]
fn push_four(text: &mut Vec<u8>, n: usize) -> Result<(), AllocError>
    requires least { 1000 ≤ n }
    requires most { n < 10000 }
    ensures { OnOk result (text.new.items ≡ text.old.items ++ spaced n) }
{
    let (thousands, hundreds) = pair(n / 100);
    let (tens, ones) = pair(n % 100);
    text.extend_from_slice(&[b' ', thousands, hundreds, tens, ones])
}

/// Puts a number of any length at the end of a text, after a space.
fn push_long(text: &mut Vec<u8>, n: usize) -> Result<(), AllocError>
    ensures { OnOk result (text.new.items ≡ text.old.items ++ spaced n) }
{
    if n < 1000 {
        return push_short(text, n);
    }
    push_long(text, n / 10)?;
    text.extend_from_slice(&[digit(n % 10)])
}

/// Puts a number at the end of a text, after a space. Most of writing a plan is done here, so it
/// is inlined, and only a number of five digits or more takes a call.
#[inline(always)]
pub(crate) fn push_number(text: &mut Vec<u8>, n: usize) -> Result<(), AllocError>
    ensures { OnOk result (text.new.items ≡ text.old.items ++ spaced n) }
{
    if n < 1000 {
        return push_short(text, n);
    }
    if n < 10000 {
        return push_four(text, n);
    }
    push_long(text, n)
}

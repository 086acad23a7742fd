//! The text of a range of settings.

ghost use Rattle.std.specs.Prelude.{IfSome, IfNone};
ghost use Rattle.plan_answers.specs.Drawings.{DenotesRange, IsBadRange};

use batch::{number_before, number_from_digits};
use line_words::rest_after;

/// Settings that follow one another, counted from 0.
#[derive(Clone, Copy)]
pub struct SettingRange {
    /// The first of them.
    pub first: usize,
    /// The last of them, which isn't before the first.
    pub last: usize,
}

impl SettingRange {
    /// The range of a text `A..B`: settings A to B, of which both are in the range.
    pub(crate) fn read(text: &[u8]) -> Option<SettingRange>
        ensures some { IfSome result (DenotesRange text.now) }
        ensures none { IfNone result (IsBadRange text.now) }
    {
        let (first, rest) = number_before(text, b'.')?;
        let last = number_from_digits(rest_after(rest, b".")?)?;
        if last < first {
            return None;
        }
        Some(SettingRange { first, last })
    }
}

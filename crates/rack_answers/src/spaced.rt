//! Digits in a line of a text.

ghost use Rattle.std.specs.Prelude.{◌∷◌, OnOk};
ghost use Rattle.batch.specs.Text.{space};
ghost use Rattle.rack_answers.specs.Reports.{Adds};

use std::alloc::AllocError;

/// Puts digits at the end of the text, after a space.
#[inline(always)]
pub(crate) fn push_spaced(text: &mut Vec<u8>, digits: &[u8]) -> Result<(), AllocError>
    ensures { OnOk result (Adds text.old text.new (space ∷ digits.now)) }
{
    text.reserve(1 + digits.len())?;
    text.push_reserved(b' ');
    for digit in digits {
        text.push_reserved(*digit);
    }
    Ok(())
}

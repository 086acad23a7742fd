//! Texts that list things, written.

ghost use Rattle.std.specs.Prelude.{◌≡◌, ◌++◌, OnOk, IfOk, string_bytes};
ghost use Rattle.batch.specs.Lists.{line, list_text};

use crate::listed::Listed;
use std::alloc::{AllocError, Global};

/// Puts the line of one thing at the end of the text.
fn push_line<T: Listed>(text: &mut String, thing: &T) -> Result<(), AllocError>
    ensures { OnOk result
        (string_bytes text.new ≡ string_bytes text.old ++ line T.form thing.now) }
{
    let (first, second) = thing.places();
    let (module, block) = (first.module, first.block);
    let (other_module, other_block) = (second.module, second.block);
    text.push_str(thing.word())?;
    write!(text, "{module} {block} {other_module} {other_block}\n")
}

/// The lines of all things, under the line that counts them.
pub fn write_list<T: Listed>(alloc: Global, things: &[T]) -> Result<Vec<u8>, AllocError>
    ensures { IfOk result (λ text. text.items ≡ list_text T.form things.now) }
{
    let (heading, count) = (T::heading(), things.len());
    let mut text = format!(in alloc; "{heading}{count}\n")?;
    for thing in things {
        push_line(&mut text, thing)?;
    }
    Ok(text.into_bytes())
}

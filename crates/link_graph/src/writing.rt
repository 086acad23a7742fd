//! The lines of a schedule text.

ghost use Rattle.std.specs.Prelude.{◌≡◌, ◌++◌, [], ◌∷◌, OnOk, IfOk};
ghost use Rattle.link_graph.specs.Schedules.{lists_of};
ghost use Rattle.link_graph.specs.ScheduleText.{numbers, schedule_text, busiest_line, naming_lines};
ghost use Rattle.link_graph.specs.ScheduleText.{GrowsBy};

use crate::link::Link;
use crate::numbers::push_number;
use std::alloc::{AllocError, Global};

/// Puts a line at the end of the text: a word, and numbers with a space before each.
#[inline(always)]
fn push_line(text: &mut Vec<u8>, word: &[u8], transfers: &[usize]) -> Result<(), AllocError>
    ensures { OnOk result (GrowsBy text.old text.new ((word.now ++ numbers transfers.now) ∷ [])) }
{
    text.extend_from_slice(word)?;
    for t in transfers {
        push_number(text, *t)?;
    }
    text.extend_from_slice(b"\n")
}

/// Puts the line that names the busiest link at the end of the text.
fn push_link(text: &mut Vec<u8>, link: Link) -> Result<(), AllocError>
    ensures { OnOk result (GrowsBy text.old text.new (busiest_line link ∷ [])) }
{
    let (end, module) = (link.end.number(), link.module);
    let line = format!(in *text.allocator(); "busiest link {end} module {module}\n")?;
    text.extend_from_slice(line.as_bytes())
}

/// The lines of all settings, under the line that counts them.
pub(crate) fn settings_text(alloc: Global, settings: &[Vec<usize>]) -> Result<Vec<u8>, AllocError>
    ensures { IfOk result (λ text. text.items ≡ schedule_text (lists_of settings.now)) }
{
    let count = settings.len();
    let mut text = format!(in alloc; "settings {count}\n")?.into_bytes();
    // The compiler sees that a copy on the stack doesn't lie within the text, and copies it without
    // looking.
    let word = *b"setting";
    for setting in settings {
        push_line(&mut text, &word, setting)?;
    }
    Ok(text)
}

/// Puts the certificate part at the end of the text.
pub(crate) fn push_naming(
    text: &mut Vec<u8>,
    link: Option<Link>,
    transfers: &[usize],
) -> Result<(), AllocError>
    ensures { OnOk result (GrowsBy text.old text.new (naming_lines link transfers.now)) }
{
    let Some(link) = link else {
        return text.extend_from_slice(b"busiest none\n");
    };
    push_link(text, link)?;
    push_line(text, b"named", transfers)
}

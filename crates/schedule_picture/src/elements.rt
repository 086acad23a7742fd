//! The elements of SVG that a picture is made of.

ghost use Rattle.std.specs.Prelude.{OnOk};
ghost use Rattle.schedule_picture.specs.Elements.{Adds, box_text, coloured_box, text_start};
ghost use Rattle.schedule_picture.specs.Elements.{link_label};

use link_graph::Link;
use std::alloc::AllocError;

/// Puts the place and the size of a rectangle at the end of the text, and ends the rectangle.
#[tactic(auto, unfolding(crate::specs::Elements::box_text))]
pub(crate) fn push_box(
    text: &mut String,
    left: usize,
    top: usize,
    width: usize,
    height: usize,
) -> Result<(), AllocError>
    ensures { OnOk result (Adds text.old text.new (box_text left top width height)) }
{
    write!(
        text,
        " x='{left}' y='{top}' width='{width}' height='{height}'/>"
    )
}

/// Puts a rectangle in a module's colour at the end of the text.
pub(crate) fn push_coloured(
    text: &mut String,
    module: usize,
    left: usize,
    top: usize,
    width: usize,
    height: usize,
) -> Result<(), AllocError>
    ensures { OnOk result (Adds text.old text.new (coloured_box «module» left top width height)) }
{
    write!(text, "<rect class='m{module}'")?;
    push_box(text, left, top, width, height)
}

/// Puts the beginning of a text at the end of the text: its place, before its words.
#[tactic(auto, unfolding(crate::specs::Elements::text_start))]
pub(crate) fn push_text_start(text: &mut String, left: usize, top: usize) -> Result<(), AllocError>
    ensures { OnOk result (Adds text.old text.new (text_start left top)) }
{
    write!(text, "<text x='{left}' y='{top}'>")
}

/// Puts the name of a link at the end of the text.
#[tactic(auto, unfolding(crate::specs::Elements::link_label))]
pub(crate) fn push_link(text: &mut String, link: Link) -> Result<(), AllocError>
    ensures { OnOk result (Adds text.old text.new (link_label link)) }
{
    let (end, module) = (link.end.number(), link.module);
    write!(text, "link {end} module {module}")
}

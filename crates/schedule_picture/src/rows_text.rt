//! The rows of a picture: the labels of the modules, and the ground on which their cells stand.

ghost use Rattle.std.specs.Prelude.{◌≡◌, ◌<◌, ◌^◌, OnOk};
ghost use Rattle.batch.specs.Text.{IsNumber};
ghost use Rattle.link_graph.specs.declared.link.Link.{Link};
ghost use Rattle.schedule_picture.specs.Places.{panels_of};
ghost use Rattle.schedule_picture.specs.Elements.{Adds};
ghost use Rattle.schedule_picture.specs.RowsText.{heading_at, headings_text, marks, label_text};
ghost use Rattle.schedule_picture.specs.RowsText.{looks_of, lane_title, lane_text, half_text};
ghost use Rattle.schedule_picture.specs.RowsText.{part_text, row_text};

use crate::elements::{push_box, push_coloured, push_link, push_text_start};
use crate::layout::{HALF_HEIGHT, LABEL_WIDTH, MARGIN, half_below, panel_columns, panels};
use crate::rows::Rows;
use batch::MAX_MODULES;
use link_graph::{End, Link};
use std::alloc::AllocError;

/// Whether this is the busiest link.
fn is_busiest(busiest: Option<Link>, link: Link) -> bool
    ensures { result ≡ marks busiest link }
{
    match busiest {
        None => false,
        Some(other) => other.end.number() == link.end.number() && other.module == link.module,
    }
}

/// Puts the label of a module at the end of the text, in its colour.
fn push_label(text: &mut String, module: usize, top: usize) -> Result<(), AllocError>
    requires { top < 2 ^ 49 }
    ensures { OnOk result (Adds text.old text.new (label_text «module» top)) }
{
    push_coloured(text, module, MARGIN + 8, top, 72, 56)?;
    push_text_start(text, MARGIN + 44, top + 32)?;
    write!(text, "module {module}</text>\n")
}

/// The beginning of a half of a row: whether it is marked.
fn looks(marked: bool) -> &'static str
    ensures { result.now ≡ looks_of marked }
{
    if marked {
        "<g class='busiest'><title>busiest "
    } else {
        "<g class='lane'><title>"
    }
}

/// Puts the beginning of a half of a row at the end of the text: whether it is marked, and its
/// title.
fn push_lane_title(text: &mut String, marked: bool, link: Link) -> Result<(), AllocError>
    ensures { OnOk result (Adds text.old text.new (lane_title marked link)) }
{
    text.push_str(looks(marked))?;
    push_link(text, link)?;
    text.push_str("</title><rect")
}

/// Puts a half of a row at the end of the text: its ground, as wide as the columns, and the label
/// of its link.
fn push_lane(
    text: &mut String,
    marked: bool,
    link: Link,
    top: usize,
    width: usize,
) -> Result<(), AllocError>
    requires { top < 2 ^ 49 }
    ensures { OnOk result (Adds text.old text.new (lane_text marked link top width)) }
{
    let end = link.end.number();
    let below = top + half_below(link.end);
    push_lane_title(text, marked, link)?;
    push_box(text, MARGIN + LABEL_WIDTH, below, width, HALF_HEIGHT)?;
    push_text_start(text, MARGIN + 104, below + 18)?;
    write!(text, "link {end}</text></g>\n")
}

/// Puts the half of a module's row that is one link's, in one panel, at the end of the text.
#[tactic(auto, unfolding(crate::specs::RowsText::half_text))]
fn push_half(
    text: &mut String,
    rows: &Rows<'_>,
    columns: usize,
    busiest: Option<Link>,
    link: Link,
    panel: usize,
) -> Result<(), AllocError>
    requires columns { IsNumber columns }
    requires panel { panel < panels_of columns }
    requires in_rack { link.«module» < MAX_MODULES }
    ensures { OnOk result (Adds text.old text.new (half_text rows.now columns busiest link panel)) }
{
    let top = rows.top(panel, link.module);
    let width = panel_columns(columns, panel);
    push_lane(text, is_busiest(busiest, link), link, top, width)
}

/// Puts the part of a module's row that stands in one panel at the end of the text.
fn push_part(
    text: &mut String,
    rows: &Rows<'_>,
    columns: usize,
    busiest: Option<Link>,
    module: usize,
    panel: usize,
) -> Result<(), AllocError>
    requires columns { IsNumber columns }
    requires panel { panel < panels_of columns }
    requires in_rack { «module» < MAX_MODULES }
    ensures { OnOk result
        (Adds text.old text.new (part_text rows.now columns busiest «module» panel)) }
{
    let zero = Link {
        end: End::Zero,
        module,
    };
    let three = Link {
        end: End::Three,
        module,
    };
    push_label(text, module, rows.top(panel, module))?;
    push_half(text, rows, columns, busiest, zero, panel)?;
    push_half(text, rows, columns, busiest, three, panel)
}

/// Puts the row of a module at the end of the text.
pub(crate) fn push_row(
    text: &mut String,
    rows: &Rows<'_>,
    columns: usize,
    busiest: Option<Link>,
    module: usize,
) -> Result<(), AllocError>
    requires columns { IsNumber columns }
    requires in_rack { «module» < MAX_MODULES }
    ensures { OnOk result (Adds text.old text.new (row_text rows.now columns busiest «module»)) }
{
    if !rows.has(module) {
        return Ok(());
    }
    for panel in 0..panels(columns) {
        push_part(text, rows, columns, busiest, module, panel)?;
    }
    Ok(())
}

/// Puts the heading of a panel's columns at the end of the text.
fn push_heading(text: &mut String, rows: &Rows<'_>, panel: usize) -> Result<(), AllocError>
    requires { IsNumber panel }
    ensures { OnOk result (Adds text.old text.new (heading_at rows.now panel)) }
{
    let (middle, above) = (MARGIN + 104, rows.panel_top(panel) + 14);
    write!(
        text,
        "<text class='number' x='{middle}' y='{above}'>setting</text>\n"
    )
}

/// Puts the headings of so many columns at the end of the text, one in each panel.
pub(crate) fn push_headings(
    text: &mut String,
    rows: &Rows<'_>,
    columns: usize,
) -> Result<(), AllocError>
    requires { IsNumber columns }
    ensures { OnOk result (Adds text.old text.new (headings_text rows.now columns)) }
{
    for panel in 0..panels(columns) {
        push_heading(text, rows, panel)?;
    }
    Ok(())
}

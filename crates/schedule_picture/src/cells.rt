//! The columns of a picture: the cells of the transfers that a setting holds.

ghost use Rattle.std.specs.Prelude.{◌≡◌, ◌<◌, length, All, OnOk};
ghost use Rattle.batch.specs.Text.{IsNumber};
ghost use Rattle.link_graph.specs.declared.link.End.{End};
ghost use Rattle.link_graph.specs.Counts.{module_at as module_of};
ghost use Rattle.schedule_picture.specs.Elements.{Adds};
ghost use Rattle.schedule_picture.specs.Cells.{kind_label, way_of, arrow_of, end_label, title_text};
ghost use Rattle.schedule_picture.specs.Cells.{number_text, cell_text, transfer_cells, column_text};

use crate::elements::{push_coloured, push_text_start};
use crate::layout::{CELL_HEIGHT, CELL_WIDTH, INSET, column_left, half_below, panel};
use crate::rows::Rows;
use batch::{Kind, MAX_MODULES, Transfer};
use link_graph::End;
use std::alloc::AllocError;

/// The word of a kind of transfers.
fn kind_word(kind: Kind) -> &'static str
    ensures { result.now ≡ kind_label kind }
{
    match kind {
        Kind::Push => "push",
        Kind::Pull => "pull",
    }
}

/// The word between the places of a transfer.
fn way_word(kind: Kind) -> &'static str
    ensures { result.now ≡ way_of kind }
{
    match kind {
        Kind::Push => " to ",
        Kind::Pull => " from ",
    }
}

/// The arrow in the cell at an end of a transfer: whether its words leave the module of that end.
fn arrow(kind: Kind, end: End) -> &'static str
    ensures { result.now ≡ arrow_of kind end }
{
    match (kind, end) {
        (Kind::Push, End::Zero) | (Kind::Pull, End::Three) => "&#8594;",
        (Kind::Push, End::Three) | (Kind::Pull, End::Zero) => "&#8592;",
    }
}

/// The transfer's module at an end.
fn module_at(end: End, transfer: &Transfer) -> usize
    ensures { result ≡ module_of end transfer.now }
{
    match end {
        End::Zero => transfer.initiator,
        End::Three => transfer.responder,
    }
}

/// Puts a place at the end of the text: a module with the link through which its block goes.
#[tactic(auto, unfolding(crate::specs::Cells::end_label))]
fn push_place(text: &mut String, module: usize, end: End, block: usize) -> Result<(), AllocError>
    ensures { OnOk result (Adds text.old text.new (end_label «module» end block)) }
{
    let link = end.number();
    write!(text, "module {module} link {link} block {block}")
}

/// Puts the beginning of a cell at the end of the text: its title, which says the transfer.
fn push_title(text: &mut String, number: usize, transfer: &Transfer) -> Result<(), AllocError>
    ensures { OnOk result (Adds text.old text.new (title_text number transfer.now)) }
{
    let word = kind_word(transfer.kind);
    write!(text, "<g><title>transfer {number}: {word} ")?;
    push_place(text, transfer.initiator, End::Zero, transfer.own_block)?;
    text.push_str(way_word(transfer.kind))?;
    push_place(text, transfer.responder, End::Three, transfer.far_block)?;
    text.push_str("</title>")
}

/// Puts the number of a transfer at the end of the text, and ends its cell.
#[tactic(auto, unfolding(crate::specs::Cells::number_text))]
fn push_number(text: &mut String, left: usize, top: usize, number: usize) -> Result<(), AllocError>
    ensures { OnOk result (Adds text.old text.new (number_text left top number)) }
{
    write!(
        text,
        "<text class='transfer' x='{left}' y='{top}'>{number}</text></g>\n"
    )
}

/// Puts the cell at an end of a transfer at the end of the text, in a column.
fn push_cell(
    text: &mut String,
    rows: &Rows<'_>,
    column: usize,
    number: usize,
    transfer: &Transfer,
    end: End,
) -> Result<(), AllocError>
    requires column { IsNumber column }
    requires in_rack { module_of end transfer.now < MAX_MODULES }
    ensures { OnOk result
        (Adds text.old text.new (cell_text rows.now column number transfer.now end)) }
{
    let partner = module_at(end.other(), transfer);
    let left = column_left(column);
    let top = rows.top(panel(column), module_at(end, transfer)) + half_below(end);
    push_title(text, number, transfer)?;
    push_coloured(
        text,
        partner,
        left + INSET,
        top + INSET,
        CELL_WIDTH,
        CELL_HEIGHT,
    )?;
    push_text_start(text, left + 16, top + 14)?;
    let arrow = arrow(transfer.kind, end);
    write!(text, "{arrow}{partner}</text>")?;
    push_number(text, left + 16, top + 24, number)
}

/// Puts the two cells of a transfer at the end of the text, in a column.
fn push_transfer(
    text: &mut String,
    rows: &Rows<'_>,
    column: usize,
    number: usize,
) -> Result<(), AllocError>
    requires column { IsNumber column }
    requires known { number < length rows.now }
    ensures { OnOk result (Adds text.old text.new (transfer_cells rows.now column number)) }
{
    let transfer = &rows.transfers()[number];
    push_cell(text, rows, column, number, transfer, End::Zero)?;
    push_cell(text, rows, column, number, transfer, End::Three)
}

/// Puts a column at the end of the text: the number of its setting, and the cells of the setting's
/// transfers.
pub(crate) fn push_column(
    text: &mut String,
    rows: &Rows<'_>,
    column: usize,
    setting: usize,
    numbers: &[usize],
) -> Result<(), AllocError>
    requires column { IsNumber column }
    requires known { All (λ t. t < length rows.now) numbers.now }
    ensures { OnOk result
        (Adds text.old text.new (column_text rows.now column setting numbers.now)) }
{
    let (middle, above) = (column_left(column) + 16, rows.panel_top(panel(column)) + 14);
    write!(
        text,
        "<text class='number' x='{middle}' y='{above}'>{setting}</text>\n"
    )?;
    for number in numbers {
        push_transfer(text, rows, column, *number)?;
    }
    Ok(())
}

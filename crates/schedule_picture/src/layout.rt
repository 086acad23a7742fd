//! Where the parts of a picture stand, in its units, which are pixels unless it is scaled. All of
//! it is this project's choice.

ghost use Rattle.std.specs.Prelude.{◌≡◌, ◌<◌, ◌≤◌, ◌^◌};
ghost use Rattle.batch.specs.Text.{IsNumber};
ghost use Rattle.link_graph.specs.declared.link.End.{End};
ghost use Rattle.schedule_picture.specs.Places.{column_place, panel_of, panels_of, panel_width};
ghost use Rattle.schedule_picture.specs.Places.{half_place, width_of};

use link_graph::End;

/// How far the picture's contents stand from its left side, and from its right.
pub const MARGIN: usize = 16;

/// The height of what stands above the panels: the heading, and the note below it.
pub const HEAD_HEIGHT: usize = 64;

/// How many columns a panel has. Where there are more, the next panel stands below it.
pub const PANEL_COLUMNS: usize = 32;

/// The height of the numbers of a panel's columns, above its rows.
pub const NUMBERS_HEIGHT: usize = 24;

/// The width of the labels before each panel.
pub const LABEL_WIDTH: usize = 128;

/// The width of a column.
pub const COLUMN_WIDTH: usize = 32;

/// The height of a row, with the room below it.
pub const ROW_HEIGHT: usize = 64;

/// The height of one half of a row.
pub const HALF_HEIGHT: usize = 28;

/// How far a cell stands from the left side of its column, and from the top of its half of a row.
pub const INSET: usize = 2;

/// The width of a cell.
pub const CELL_WIDTH: usize = 28;

/// The height of a cell.
pub const CELL_HEIGHT: usize = 24;

/// How far a rule begins above the first row of a panel, and how far it ends above the panel's end.
pub const RULE_ABOVE: usize = 8;

/// The height of what stands below the panels.
pub const LEGEND_HEIGHT: usize = 120;

/// The least width of a picture: that of the legend.
pub const MIN_WIDTH: usize = 760;

/// Which panel a column stands in.
pub(crate) fn panel(column: usize) -> usize
    ensures { result ≡ panel_of column }
{
    column / PANEL_COLUMNS
}

/// Where a column begins, from the left.
#[tactic(auto, unfolding(crate::specs::Places::column_place))]
pub(crate) fn column_left(column: usize) -> usize
    requires { IsNumber column }
    ensures value { result ≡ column_place column }
    ensures small { result < 2 ^ 40 }
{
    MARGIN + LABEL_WIDTH + column % PANEL_COLUMNS * COLUMN_WIDTH
}

/// How many panels so many columns fill, the last of them perhaps in part.
pub(crate) fn panels(columns: usize) -> usize
    requires { IsNumber columns }
    ensures value { result ≡ panels_of columns }
    ensures number { IsNumber result }
{
    columns.div_ceil(PANEL_COLUMNS)
}

/// How wide a panel's columns are together, of so many columns in all.
#[tactic(auto, unfolding(crate::specs::Places::panel_width))]
pub(crate) fn panel_columns(columns: usize, panel: usize) -> usize
    requires columns { IsNumber columns }
    requires panel { panel < panels_of columns }
    ensures { result ≡ panel_width columns panel }
{
    COLUMN_WIDTH * PANEL_COLUMNS.min(columns - panel * PANEL_COLUMNS)
}

/// How far the half of an end stands below the top of its row.
pub(crate) fn half_below(end: End) -> usize
    ensures value { result ≡ half_place end }
    ensures small { result ≤ HALF_HEIGHT }
{
    match end {
        End::Zero => 0,
        End::Three => HALF_HEIGHT,
    }
}

/// How wide a picture of so many columns is.
#[tactic(auto, unfolding(crate::specs::Places::width_of))]
pub(crate) fn width(columns: usize) -> usize
    requires { IsNumber columns }
    ensures { result ≡ width_of columns }
{
    MIN_WIDTH.max(2 * MARGIN + LABEL_WIDTH + PANEL_COLUMNS.min(columns) * COLUMN_WIDTH)
}

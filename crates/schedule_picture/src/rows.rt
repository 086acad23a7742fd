//! The rows of a picture: which modules take part, and where their rows stand.

ghost use Rattle.std.specs.Prelude.{◌≡◌, ◌<◌, ◌≤◌, ◌^◌};
ghost use Rattle.batch.specs.Batches.{IsBatch};
ghost use Rattle.batch.specs.Text.{IsNumber};
ghost use Rattle.schedule_picture.specs.Places.{takes_part, row_of, row_place, panel_place};
ghost use Rattle.schedule_picture.specs.Places.{legend_place, panel_height, height_of, TakePart};

use crate::layout::{HEAD_HEIGHT, LEGEND_HEIGHT, NUMBERS_HEIGHT, ROW_HEIGHT, panels};
use batch::{Batch, MAX_MODULES, Transfer};
use std::marker::Model;

/// The modules that take part in a batch, each of which has a row. Contracts see the batch.
#[derive(Drop)]
pub(crate) struct Rows<'a> {
    batch: &'a Batch,
    /// Whether each module takes part.
    parts: [bool; MAX_MODULES],
}

impl<'a> Model for Rows<'a> {
    ghost use Rattle.std.specs.Prelude.{List};
    ghost use Rattle.batch.specs.declared.transfer.Transfer.{Transfer};
    ghost use Rattle.schedule_picture.specs.Places.{TakePart};

    ghost Value = { List Transfer };

    ghost view = { λ r. r.batch.now };

    ghost invariant = { λ r. TakePart r.batch.now r.parts };
}

/// Whether each module takes part in one of the transfers.
fn parts_of(batch: &Batch) -> [bool; MAX_MODULES]
    ensures parts { TakePart batch.now result }
    ensures batch { IsBatch batch.now }
{
    let mut parts = [false; MAX_MODULES];
    for transfer in batch.as_slice() {
        parts[transfer.initiator] = true;
        parts[transfer.responder] = true;
    }
    parts
}

impl<'a> Rows<'a> {
    /// The rows of the batch. Takes time that grows with the number of transfers.
    pub(crate) fn of(batch: &'a Batch) -> Rows<'a>
        ensures value { result ≡ batch.entry.now }
        ensures batch { IsBatch result }
    {
        let parts = parts_of(batch);
        Rows { batch, parts }
    }

    /// The transfers of the batch, in order.
    pub(crate) fn transfers(&self) -> &[Transfer]
        ensures value { result.now ≡ self.now }
        ensures batch { IsBatch self.now }
    {
        self.batch.as_slice()
    }

    /// Whether the module takes part.
    pub(crate) fn has(&self, module: usize) -> bool
        requires { «module» < MAX_MODULES }
        ensures { result ≡ takes_part self.now «module» }
    {
        self.parts[module]
    }

    /// How many modules below this one take part: the place of its row, from 0.
    pub(crate) fn before(&self, module: usize) -> usize
        requires { «module» ≤ MAX_MODULES }
        ensures value { result ≡ row_of self.now «module» }
        ensures few { result ≤ MAX_MODULES }
    {
        let mut rows = 0;
        for m in 0..module {
            if self.has(m) {
                rows += 1;
            }
        }
        rows
    }

    /// The height of a panel: the numbers of its columns, and all rows.
    #[tactic(auto, unfolding(crate::specs::Places::rack_modules, crate::specs::Places::panel_height))]
    fn panel_height(&self) -> usize
        ensures value { result ≡ panel_height self.now }
        ensures small { result < 2 ^ 12 }
    {
        NUMBERS_HEIGHT + self.before(MAX_MODULES) * ROW_HEIGHT
    }

    /// How far the top of a panel stands from the top of the picture.
    #[tactic(auto, unfolding(crate::specs::Places::panel_place))]
    pub(crate) fn panel_top(&self, panel: usize) -> usize
        requires { IsNumber panel }
        ensures value { result ≡ panel_place self.now panel }
        ensures small { result < 2 ^ 48 }
    {
        HEAD_HEIGHT + panel * self.panel_height()
    }

    /// How far the top of the module's row in a panel stands from the top of the picture.
    #[tactic(auto, unfolding(crate::specs::Places::row_place))]
    pub(crate) fn top(&self, panel: usize, module: usize) -> usize
        requires panel { IsNumber panel }
        requires in_rack { «module» ≤ MAX_MODULES }
        ensures value { result ≡ row_place self.now panel «module» }
        ensures small { result < 2 ^ 49 }
    {
        self.panel_top(panel) + NUMBERS_HEIGHT + self.before(module) * ROW_HEIGHT
    }

    /// How far the legend, below the panels of so many columns, stands from the top of the picture.
    pub(crate) fn below(&self, columns: usize) -> usize
        requires { IsNumber columns }
        ensures value { result ≡ legend_place self.now columns }
        ensures small { result < 2 ^ 48 }
    {
        self.panel_top(panels(columns))
    }

    /// The height of a picture of so many columns.
    pub(crate) fn height(&self, columns: usize) -> usize
        requires { IsNumber columns }
        ensures { result ≡ height_of self.now columns }
    {
        self.below(columns) + LEGEND_HEIGHT
    }
}

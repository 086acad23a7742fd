//! The transfers of a setting are moved by workers, each of which has its bays alone, while all
//! share the rest of the rack.

ghost use Rattle.std.specs.Prelude.{◌≤◌, ◌<◌, length};
ghost use Rattle.std.specs.Thread.{IsSync};
ghost use Rattle.setting_runner.specs.Moves.{AreMovable, HaveMoved};

use crate::block::move_block;
use crate::moved::Moved;
use batch::{Batch, MAX_MODULES};
use module_memory::{Bay, Rest};
use peek_poke::WireMaker;
use schedule_certificate::{Gate, Workers};
use std::thread::{Threads, join_mut};
use switch_settings::transfer_of;

/// What the workers of a setting share: the gate at which they arrive, the maker of their wires,
/// the rest of the rack, and the batch.
#[derive(Clone, Copy)]
pub struct Work<'a, W, G> {
    pub gate: &'a G,
    pub wires: &'a W,
    pub rest: &'a Rest,
    pub batch: &'a Batch,
}

/// Moves the words of transfers into their bays, by some workers: they and the bays are split in
/// two until a part has one worker or one bay. Each part arrives at the gate with the least of its
/// numbers before it does anything else.
pub fn move_all<R: Threads + Sync, W: WireMaker + Sync, G: Gate + Sync>(
    rt: &R,
    work: &Work<'_, W, G>,
    workers: Workers,
    numbers: &[usize],
    bays: &mut [Bay],
) -> Moved
    requires some { 0 < workers.count }
    requires few { length numbers.now ≤ MAX_MODULES }
    requires movable { AreMovable work.now.rest.now work.now.batch.now numbers.now bays.old }
    ensures { HaveMoved (W.is_sure work.now.wires.now) work.now.rest.now work.now.batch.now
        numbers.now bays.old bays.new result }
{
    if workers.count < 2 || numbers.len() < 2 {
        return move_in_turn(work, numbers, bays);
    }
    let middle = numbers.len() / 2;
    let (workers1, workers2) = workers.halves();
    let (numbers1, numbers2) = numbers.split_at(middle);
    let (bays1, bays2) = bays.split_at_mut(middle);
    let (moved1, moved2) = join_mut(
        rt,
        &mut || -> Moved
            requires { IsSync R.row × IsSync W.row × IsSync G.row
                × (0 < workers1.count) × (length numbers1.now ≤ MAX_MODULES)
                × AreMovable work.now.rest.now work.now.batch.now numbers1.now bays1.now }
            ensures { HaveMoved (W.is_sure work.entry.now.wires.now)
                work.entry.now.rest.now work.entry.now.batch.now
                numbers1.entry.now bays1.entry.now bays1.exit.now result }
        {
            work.gate.arrive(workers1.least);
            move_all(rt, work, workers1, numbers1, bays1)
        },
        &mut || -> Moved
            requires { IsSync R.row × IsSync W.row × IsSync G.row
                × (0 < workers2.count) × (length numbers2.now ≤ MAX_MODULES)
                × AreMovable work.now.rest.now work.now.batch.now numbers2.now bays2.now }
            ensures { HaveMoved (W.is_sure work.entry.now.wires.now)
                work.entry.now.rest.now work.entry.now.batch.now
                numbers2.entry.now bays2.entry.now bays2.exit.now result }
        {
            work.gate.arrive(workers2.least);
            move_all(rt, work, workers2, numbers2, bays2)
        },
    );
    moved1.and(moved2)
}

/// Moves the words of one transfer after the other.
fn move_in_turn<W: WireMaker, G>(
    work: &Work<'_, W, G>,
    numbers: &[usize],
    bays: &mut [Bay],
) -> Moved
    requires few { length numbers.now ≤ MAX_MODULES }
    requires movable { AreMovable work.now.rest.now work.now.batch.now numbers.now bays.old }
    ensures { HaveMoved (W.is_sure work.now.wires.now) work.now.rest.now work.now.batch.now
        numbers.now bays.old bays.new result }
{
    // Asked for their contracts alone: no transfer has a greater number, and no block more words.
    let _few = (work.batch.len(), work.rest.shape().words());
    let mut moved = Moved::none();
    for i in 0..numbers.len() {
        let t = numbers[i];
        let transfer = transfer_of(work.batch, t);
        let mut wire = work.wires.line(t);
        let words = move_block(&mut wire, work.rest, transfer, &mut bays[i]);
        moved.push(t, words);
    }
    moved
}

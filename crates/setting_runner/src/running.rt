//! Runs of batches by their schedules.

ghost use Rattle.std.specs.Prelude.{◌≡◌, ◌↔◌, ℕ, Some, IfOk, IfErr};
ghost use Rattle.batch.specs.Overlap.{IsApart, IsFirstOverlap};
ghost use Rattle.link_graph.specs.Schedules.{IsScheduleOf};
ghost use Rattle.module_memory.specs.Lending.{store_rejoined, Rejoins};
ghost use Rattle.setting_runner.specs.declared.outcome.RunRefusal.TheVariants.{Overlap, Shape};
ghost use Rattle.setting_runner.specs.declared.outcome.RunRefusal.TheVariants.{NoMemory};
ghost use Rattle.setting_runner.specs.declared.outcome.Outcome.TheVariants.{Refused};
ghost use Rattle.setting_runner.specs.Refusals.{IsRefusal};
ghost use Rattle.setting_runner.specs.Plants.{LeavesPlant};
ghost use Rattle.setting_runner.specs.Runs.{IsPrepared, LeavesMemories, IsMisfit, IsRefusedRun};
ghost use Rattle.setting_runner.specs.Runs.{CanMove, RunNeedsMemory, TellsOutcome};

use crate::notice::Notice;
use crate::outcome::{Outcome, RunRefusal};
use crate::plant::Plant;
use crate::ready::{destinations, fits_in};
use crate::setting::{Setting, run_setting};
use batch::Batch;
use crossbar::ConfigPort;
use link_graph::Schedule;
use module_memory::{Bay, Parted, Rack, Rest};
use peek_poke::WireMaker;
use schedule_certificate::Gate;
use std::alloc::Global;
use std::thread::Threads;
use switch_settings::{PairList, numbers_of_setting};

/// Runs a batch on a rack, by a schedule of it, and gives the rack back.
///
/// First the batch is tested, and all memory is taken: lists of the blocks that are written and of
/// those that the batch both reads and writes, and copies of the latter. Their transfers move the
/// words that they had then; no other block is copied.
///
/// Then, setting by setting, the switches are set, whatever they were for the first setting and
/// from the setting before for each later one. A rack of at most 16 modules has one switch, and a
/// wider one has two, whatever modules the batch names. All their outputs are asked whether they
/// stand so, and the words of the setting's transfers are moved over their wires, by as many
/// workers as the plant may have. The notice is told 0 before the first setting, and after each
/// setting how many are done.
///
/// A run is refused where two transfers write one block, where the rack hasn't a block that a
/// transfer names, and where there is no memory, tested in this order: then the rack is as it was,
/// and neither the port nor the notice was called. A port that fails, a switch that doesn't stand
/// as set and a wire that fails stop the run. A wire that fails lets the other transfers of its
/// setting go on. After a run the switches stay as they were set last.
///
/// Where a thread can't be had, the worker that wanted it does the work itself. After the notice
/// has been told 0 the run takes no memory, a thread's start apart. Takes time that grows with the
/// words moved, with the number of transfers and with that of the blocks.
pub fn run<R: Threads + Sync, P: ConfigPort, W: WireMaker + Sync, G: Gate + Sync, N: Notice>(
    rt: &R,
    alloc: Global,
    rack: Rack,
    plant: &mut Plant<P, W, G>,
    batch: &Batch,
    schedule: &Schedule,
    notice: &mut N,
) -> (Rack, Outcome)
    requires schedule { IsScheduleOf batch.now schedule.now }

    ensures memories { LeavesMemories rack batch.now schedule.now result.1 result.0 }
    ensures plant { LeavesPlant P.ConfigPort W.is_sure rack.shape
        (Some (batch.now, schedule.now)) result.1 plant.old plant.new }
    ensures told { TellsOutcome N.hears notice.old result.1 notice.new }

    // Each refusal comes just where its cause is there and none before it, want of memory aside.
    ensures overlap { (i j : ℕ) →
        (result.1 ≡ Refused (Overlap i j)) ↔ IsFirstOverlap batch.now i j }
    ensures shape { (result.1 ≡ Refused Shape) ↔
        (IsApart batch.now × IsMisfit rack.shape batch.now) }
    ensures memory { result.1 ≡ Refused NoMemory → RunNeedsMemory rack.shape batch.now }

    // A run that isn't refused is of transfers that don't overlap and that the rack has.
    ensures free { (IsRefusedRun result.1 → ⊥) → CanMove rack.shape batch.now }
{
    match prepare(alloc, rack, batch, schedule) {
        Ok(parted) => {
            let Parted { rest, mut bays } = parted;
            let outcome = run_settings(
                rt,
                &rest,
                bays.as_mut_slice(),
                plant,
                batch,
                schedule,
                notice,
            );
            (Parted { rest, bays }.rejoin(), outcome)
        }
        Err((rack, refusal)) => (rack, Outcome::Refused(refusal)),
    }
}

/// Tests a batch, and parts the rack for it: all memory of the run is taken here. Where the run is
/// refused the rack comes back as it was.
fn prepare(
    alloc: Global,
    rack: Rack,
    batch: &Batch,
    schedule: &Schedule,
) -> Result<Parted, (Rack, RunRefusal)>
    requires { IsScheduleOf batch.now schedule.now }
    ensures prepared { IfOk result
        (λ parted. IsPrepared parted.rest parted.bays.items batch.now schedule.now) }
    ensures store { IfOk result (λ parted.
        store_rejoined parted.rest.store parted.bays.items ≡ rack) }
    ensures shape { IfOk result (λ parted. parted.rest.store.shape ≡ rack.shape) }
    ensures free { IfOk result (λ _. CanMove rack.shape batch.now) }
    ensures unchanged { IfErr result (λ refused. refused.0 ≡ rack) }
    ensures refusal { IfErr result
        (λ refused. IsRefusal rack.shape batch.now refused.1) }
{
    if let Some((i, j)) = batch.first_overlap() {
        return Err((rack, RunRefusal::Overlap(i, j)));
    }
    if !fits_in(rack.shape(), batch) {
        return Err((rack, RunRefusal::Shape));
    }
    let Ok(places) = destinations(alloc, batch, schedule) else {
        return Err((rack, RunRefusal::NoMemory));
    };
    let Ok(held) = batch.held_sources(alloc) else {
        return Err((rack, RunRefusal::NoMemory));
    };
    match rack.part(places.as_slice(), held.as_slice()) {
        Ok(parted) => Ok(parted),
        // The blocks that transfers write can be lent where no two overlap: only memory can be
        // wanting.
        Err((rack, _fault)) => Err((rack, RunRefusal::NoMemory)),
    }
}

/// Runs the settings of a schedule, whose destinations are lent in their order.
fn run_settings<R: Threads + Sync, P: ConfigPort, W: WireMaker + Sync, G: Gate + Sync, N: Notice>(
    rt: &R,
    rest: &Rest,
    bays: &mut [Bay],
    plant: &mut Plant<P, W, G>,
    batch: &Batch,
    schedule: &Schedule,
    notice: &mut N,
) -> Outcome
    requires prepared { IsPrepared rest.now bays.old batch.now schedule.now }

    ensures rejoins { Rejoins rest.now.store bays.new }
    ensures memories { LeavesMemories
        (store_rejoined rest.now.store bays.old) batch.now schedule.now result
        (store_rejoined rest.now.store bays.new) }
    ensures plant { LeavesPlant P.ConfigPort W.is_sure rest.now.store.shape
        (Some (batch.now, schedule.now)) result plant.old plant.new }
    ensures told { TellsOutcome N.hears notice.old result notice.new }
    ensures going { IsRefusedRun result → ⊥ }
{
    // Asked for their laws alone: there are few transfers, and no more settings than there may be.
    let _batch = batch.len();
    schedule.are_few();
    notice.done(0);
    let mut standing = None;
    let mut from = 0;
    for number in 0..schedule.settings() {
        let numbers = numbers_of_setting(batch, schedule, number);
        let pairs = PairList::of_setting(batch, numbers);
        let setting = Setting {
            batch,
            numbers,
            pairs,
            standing,
        };
        let to = from + numbers.len();
        if let Err(stop) = run_setting(rt, plant, &setting, rest, &mut bays[from..to]) {
            return Outcome::Stopped {
                setting: number,
                cause: stop.cause,
                moved: stop.moved,
            };
        }
        standing = Some(pairs);
        from = to;
        notice.done(number + 1);
    }
    Outcome::Completed {
        settings: schedule.settings(),
        words: from * rest.shape().words(),
    }
}

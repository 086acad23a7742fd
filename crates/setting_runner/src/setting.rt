//! One setting of a run.

ghost use Rattle.std.specs.Prelude.{◌≡◌, ◌≤◌, ◌<◌, ◌↔◌, ℕ, IsTrue, All, MatchOption, length};
ghost use Rattle.std.specs.Prelude.{MatchResult, OnOk, IfErr, IfSome};
ghost use Rattle.crossbar.specs.Pairs.{ArePairs};
ghost use Rattle.setting_runner.specs.declared.outcome.StopCause.TheVariants.{Wire};
ghost use Rattle.setting_runner.specs.Moves.{AreMovable, HaveMoved, none_sure, all_moved, AllWhole};
ghost use Rattle.setting_runner.specs.Runs.{IsStopCause, IsShortfall, IsLeastShort};
ghost use Rattle.setting_runner.specs.Traffic.{PassesFor};
ghost use Rattle.switch_settings.specs.Answers.{AreSetTo, AreStanding};
ghost use Rattle.switch_settings.specs.Asking.{HaveReplied};

use crate::moved::Moved;
use crate::outcome::StopCause;
use crate::plant::Plant;
use crate::work::{Work, move_all};
use batch::{Batch, MAX_MODULES, Shape};
use crossbar::ConfigPort;
use module_memory::{Bay, Rest};
use peek_poke::WireMaker;
use schedule_certificate::{Gate, Workers};
use std::thread::Threads;
use switch_settings::{PairList, configure_switches};

/// Why a setting stopped, and how many words its transfers have moved.
#[derive(Clone, Copy)]
pub struct Stop {
    pub cause: StopCause,
    pub moved: Moved,
}

/// A setting of a batch: the numbers of its transfers, their pairs, and the pairs that stand on the
/// switches before it, which are known but for the first setting of a run.
#[derive(Clone, Copy)]
pub struct Setting<'a> {
    pub batch: &'a Batch,
    pub numbers: &'a [usize],
    pub pairs: PairList,
    pub standing: Option<PairList>,
}

/// Sets the switches to the pairs of a setting, asks them whether they stand so, and moves the
/// words of the transfers into their bays.
pub fn run_setting<R: Threads + Sync, P: ConfigPort, W: WireMaker + Sync, G: Gate + Sync>(
    rt: &R,
    plant: &mut Plant<P, W, G>,
    setting: &Setting<'_>,
    rest: &Rest,
    bays: &mut [Bay],
) -> Result<(), Stop>
    requires standing { AreStanding rest.now.store.shape.modules
        (P.honest plant.old.port) (P.switches plant.old.port) setting.now.standing }
    requires pairs { ArePairs rest.now.store.shape.modules setting.now.pairs }
    requires numbers { length setting.now.numbers.now ≤ MAX_MODULES }
    requires movable { AreMovable rest.now setting.now.batch.now setting.now.numbers.now bays.old }

    ensures moved { MatchResult result
        (λ _. HaveMoved none_sure rest.now setting.now.batch.now setting.now.numbers.now
        bays.old bays.new (all_moved setting.now.numbers.now rest.now.store.shape.words))
        (λ stop. HaveMoved none_sure rest.now setting.now.batch.now setting.now.numbers.now
        bays.old bays.new stop.moved) }
    ensures cause { IfErr result (λ stop. IsStopCause (record {
      sure = W.is_sure plant.old.wires;
      shape = rest.now.store.shape;
      before = P.failures plant.old.port;
      after = P.failures plant.new.port;
      honest = P.honest plant.old.port;
    }) stop.cause stop.moved) }
    ensures set { OnOk result
        (AreSetTo rest.now.store.shape.modules (P.honest plant.old.port)
        (P.switches plant.new.port) setting.now.pairs) }
    ensures wire { IfErr result (λ stop. (t : ℕ) → stop.cause ≡ Wire t →
        AreSetTo rest.now.store.shape.modules (P.honest plant.old.port)
        (P.switches plant.new.port) setting.now.pairs) }
    ensures replied { OnOk result
        (HaveReplied rest.now.store.shape.modules setting.now.standing setting.now.pairs
        (P.passed plant.old.port) (P.passed plant.new.port)) }
    ensures passed { IfErr result (λ stop.
        PassesFor rest.now.store.shape.modules stop.cause setting.now.standing setting.now.pairs
        (P.passed plant.old.port) (P.passed plant.new.port)) }
    ensures plant { plant.new ≡ record plant.old { port = plant.new.port } }
    ensures counted { P.failures plant.old.port ≤ P.failures plant.new.port }
    ensures unfailed { OnOk result (P.failures plant.new.port ≡ P.failures plant.old.port) }
    ensures honesty { P.honest plant.new.port ≡ P.honest plant.old.port }
{
    begin_setting(plant, setting, rest.shape())?;
    let work = Work {
        gate: &plant.gate,
        wires: &plant.wires,
        rest,
        batch: setting.batch,
    };
    let workers = Workers::all(plant.workers);
    let moved = move_all(rt, &work, workers, setting.numbers, bays);
    end_setting(moved, rest.shape().words())
}

/// Begins a setting: sets the switches to its pairs, and asks them whether they stand so. Where
/// they don't, no word has moved.
fn begin_setting<P: ConfigPort, W: WireMaker, G>(
    plant: &mut Plant<P, W, G>,
    setting: &Setting<'_>,
    shape: Shape,
) -> Result<(), Stop>
    requires standing { AreStanding shape.modules
        (P.honest plant.old.port) (P.switches plant.old.port) setting.now.standing }
    requires pairs { ArePairs shape.modules setting.now.pairs }
    requires numbers { length setting.now.numbers.now ≤ MAX_MODULES }
    requires known { All (λ t. t < length setting.now.batch.now) setting.now.numbers.now }

    ensures unmoved { IfErr result (λ stop. stop.moved ≡ all_moved setting.now.numbers.now 0) }
    ensures cause { IfErr result (λ stop. IsStopCause (record {
      sure = W.is_sure plant.old.wires;
      shape = shape;
      before = P.failures plant.old.port;
      after = P.failures plant.new.port;
      honest = P.honest plant.old.port;
    }) stop.cause stop.moved) }
    ensures no_wire { IfErr result (λ stop. (t : ℕ) → stop.cause ≡ Wire t → ⊥) }
    ensures set { OnOk result
        (AreSetTo shape.modules (P.honest plant.old.port) (P.switches plant.new.port)
        setting.now.pairs) }
    ensures replied { OnOk result
        (HaveReplied shape.modules setting.now.standing setting.now.pairs
        (P.passed plant.old.port) (P.passed plant.new.port)) }
    ensures passed { IfErr result (λ stop.
        PassesFor shape.modules stop.cause setting.now.standing setting.now.pairs
        (P.passed plant.old.port) (P.passed plant.new.port)) }
    ensures plant { plant.new ≡ record plant.old { port = plant.new.port } }
    ensures counted { P.failures plant.old.port ≤ P.failures plant.new.port }
    ensures unfailed { OnOk result (P.failures plant.new.port ≡ P.failures plant.old.port) }
    ensures honesty { P.honest plant.new.port ≡ P.honest plant.old.port }
{
    let pairs = setting.pairs.as_slice();
    if let Err(fault) = configure_switches(
        &mut plant.port,
        shape.modules(),
        &setting.standing,
        pairs,
    ) {
        return Err(Stop {
            cause: fault.into(),
            moved: none_moved(setting.batch, setting.numbers),
        });
    }
    Ok(())
}

/// Ends a setting whose transfers have moved so many words: where one hasn't moved as many as a
/// block has, the least of these stops it.
fn end_setting(moved: Moved, words: usize) -> Result<(), Stop>
    ensures whole { OnOk result (AllWhole words moved) }
    ensures moved { IfErr result (λ stop. stop.moved ≡ moved) }
    ensures short { IfErr result (λ stop. IsShortfall words moved stop.cause) }
{
    match least_short(&moved, words) {
        Some(transfer) => Err(Stop {
            cause: StopCause::Wire(transfer),
            moved,
        }),
        None => Ok(()),
    }
}

/// The transfers of a setting of which no word has moved.
fn none_moved(batch: &Batch, numbers: &[usize]) -> Moved
    requires few { length numbers.now ≤ MAX_MODULES }
    requires known { All (λ t. t < length batch.now) numbers.now }
    ensures { result ≡ all_moved numbers.now 0 }
{
    // Asked for its contract alone: no transfer has a greater number.
    let _few = batch.len();
    let mut moved = Moved::none();
    for t in numbers {
        moved.push(*t, 0);
    }
    moved
}

/// The least transfer that has moved fewer words than a block has.
fn least_short(moved: &Moved, words: usize) -> Option<usize>
    ensures { MatchOption result
        (AllWhole words moved.now)
        (λ transfer. IsLeastShort words transfer moved.now) }
{
    let mut least = None;
    for entry in moved.as_slice() {
        let transfer = usize::from(entry.0);
        if usize::from(entry.1) < words && is_lesser(transfer, least) {
            least = Some(transfer);
        }
    }
    least
}

/// Whether the transfer is less than another, where there is one.
fn is_lesser(transfer: usize, other: Option<usize>) -> bool
    ensures { IsTrue result ↔ IfSome other (λ t. transfer < t) }
{
    match other {
        Some(other) => transfer < other,
        None => true,
    }
}

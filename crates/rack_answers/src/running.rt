//! The command `run`.

ghost use Rattle.std.specs.Prelude.{◌≡◌, ◌≢◌, IfOk, IfErr, length};
ghost use Rattle.batch.specs.Overlap.{IsApart};
ghost use Rattle.link_graph.specs.Schedules.{IsScheduleOf};
ghost use Rattle.module_memory.specs.declared.fault.ImageFault.TheVariants as image_fault;
ghost use Rattle.module_memory.specs.Core.{FitsIn, IsPlaced};
ghost use Rattle.plan_answers.specs.Answers.{IsOnly};
ghost use Rattle.rack_answers.specs.Answers.{IsLeftBy, HasRunFrom, IsOverlapOf, IsWrongOf};
ghost use Rattle.rack_answers.specs.Answers.{IsFirstRunWrong, IsRunAnswer};
ghost use Rattle.plan_answers.specs.Lent.{bytes_of};
ghost use Rattle.rack_answers.specs.Openings.{IsOfImageOrMarked, IsWrongImage};
ghost use Rattle.refusals.specs.declared.refusal.Refusal.TheVariants.{NoMemory};
ghost use Rattle.plan_answers.specs.Schedules.{said_by};
ghost use Rattle.plan_answers.specs.declared.source.Planning.TheVariants.{Steady};
ghost use Rattle.plan_answers.specs.declared.source.ScheduleSource.TheVariants.{Plan};
ghost use Rattle.rack_answers.specs.Reports.{report_of, tells_changes as tells, told_changes};
ghost use Rattle.steady_schedule.specs.Changes.{changes};

use crate::opening::opening_rack;
use crate::report::report;
use batch::{Batch, Shape, laws};
use crossbar::MemoryPort;
use exchange_limits::WorkerCount;
use link_graph::{LinkGraph, Schedule};
use module_memory::{ImageFault, Rack};
use peek_poke::PlainWires;
use plan_answers::{Answer, Planning, ScheduleSource, Scheduled};
use refusals::Refusal;
use schedule_certificate::OpenGate;
use setting_runner::{Notice, Outcome, Plant, RunRefusal, run};
use std::alloc::{AllocError, Global};
use std::thread::Threads;
use steady_schedule::count_changes;

/// Nobody is told how far a run has come.
#[derive(Drop)]
struct NoNotice;

impl Notice for NoNotice {
    ghost hears = { λ _ _ _. Unit {0} };

    fn done(&mut self, _settings: usize) {}
}

/// The rack of the image, where there is one, else one whose words tell where they stand.
fn marked_rack(alloc: Global, shape: Shape, image: Option<&[u8]>) -> Result<Rack, ImageFault>
    ensures rack { IfOk result (IsOfImageOrMarked shape (bytes_of image.entry)) }
    ensures wrong { IfErr result (λ fault. fault ≢ image_fault.NoMemory
        → IsWrongImage shape (bytes_of image.entry) fault) }
{
    let mut rack = opening_rack(alloc, shape, image)?;
    if image.is_none() {
        rack.mark();
    }
    Ok(rack)
}

/// Runs a batch on a rack by a schedule of it, over a port and wires that never fail. Gives the
/// rack as the run leaves it.
fn run_plain<R: Threads + Sync>(
    rt: &R,
    alloc: Global,
    rack: Rack,
    batch: &Batch,
    schedule: &Schedule,
    workers: WorkerCount,
) -> Result<Rack, Refusal>
    requires fits { FitsIn rack.shape batch.now }
    requires schedule { IsScheduleOf batch.now schedule.now }
    ensures placed { IfOk result (IsPlaced rack batch.now) }
    ensures apart { IfOk result (λ _. IsApart batch.now) }
    ensures wrong { IfErr result (λ e. e ≢ NoMemory → IsOverlapOf batch.now e) }
{
    laws::first_overlap();
    let mut plant = Plant {
        port: MemoryPort::new(),
        wires: PlainWires,
        gate: OpenGate,
        workers,
    };
    let (rack, outcome) = run(rt, alloc, rack, &mut plant, batch, schedule, &mut NoNotice);
    match outcome {
        Outcome::Completed { .. } => Ok(rack),
        Outcome::Refused(why) => match why {
            RunRefusal::Overlap(i, j) => Err(Refusal::Overlap(i, j)),
            RunRefusal::Shape => unreachable!(),
            RunRefusal::NoMemory => Err(Refusal::NoMemory),
        },
        Outcome::Stopped { .. } => unreachable!(),
    }
}

/// Runs a schedule on a rack of the shape that begins with the image's words, or with marks where
/// there is no image. Gives the rack as the run leaves it, or what is wrong.
fn run_on<R: Threads + Sync>(
    rt: &R,
    alloc: Global,
    shape: Shape,
    image: Option<&[u8]>,
    scheduled: &Scheduled,
    workers: WorkerCount,
) -> Result<Rack, Refusal>
    requires fits { FitsIn shape scheduled.now.batch }
    ensures left { IfOk result (IsLeftBy shape (bytes_of image.entry) scheduled.now.batch) }
    ensures wrong { IfErr result (λ e. e ≢ NoMemory
        → IsWrongOf shape (bytes_of image.entry) scheduled.now.batch e) }
{
    let rack = marked_rack(alloc, shape, image)?;
    run_plain(
        rt,
        alloc,
        rack,
        scheduled.batch(),
        scheduled.schedule(),
        workers,
    )
}

/// The schedule from this source, and the rack that its run leaves; or what is first wrong.
fn run_texts<R: Threads + Sync>(
    rt: &R,
    alloc: Global,
    shape: &[u8],
    batch: &[u8],
    source: ScheduleSource<&[u8]>,
    image: Option<&[u8]>,
    workers: WorkerCount,
) -> Result<(Scheduled, Rack), Refusal>
    ensures ran { IfOk result (λ ran. HasRunFrom (said_by source.entry) shape.now batch.now
        (bytes_of image.entry) ran.0 ran.1) }
    ensures wrong { IfErr result (λ refusal. refusal ≢ NoMemory
        → IsFirstRunWrong (said_by source.entry) shape.now batch.now (bytes_of image.entry)
        refusal) }
{
    let shape = Shape::read(shape)?;
    let scheduled = Scheduled::read(rt, alloc, shape, batch, source, workers)?;
    let rack = run_on(rt, alloc, shape, image, &scheduled, workers)?;
    Ok((scheduled, rack))
}

/// Whether it is told how often the switch changed over a schedule from this source.
fn tells_changes(source: &ScheduleSource<&[u8]>) -> bool
    ensures { result ≡ tells (said_by source.now) }
{
    match source {
        ScheduleSource::Plan(Planning::Plain) => false,
        ScheduleSource::Plan(Planning::Steady) | ScheduleSource::Text(_) => true,
    }
}

/// How often the switch changes over the schedule.
fn changes_of(scheduled: &Scheduled) -> Result<usize, AllocError>
    ensures { IfOk result (λ n. n ≡ changes scheduled.now.batch scheduled.now.settings) }
{
    let graph = LinkGraph::of(scheduled.batch())?;
    Ok(count_changes(&graph, scheduled.schedule()))
}

/// The report of a run of the schedule that left the rack, which may tell how often the switch
/// changed.
fn report_text(
    alloc: Global,
    scheduled: &Scheduled,
    rack: &Rack,
    told: bool,
) -> Result<Vec<u8>, AllocError>
    ensures { IfOk result (λ text. text.items ≡ report_of scheduled.now.batch
        (length scheduled.now.settings)
        (told_changes told scheduled.now.batch scheduled.now.settings) rack.now) }
{
    let changes = if told {
        Some(changes_of(scheduled)?)
    } else {
        None
    };
    let settings = scheduled.schedule().settings();
    report(alloc, rack, scheduled.batch(), settings, changes)
}

/// The answer of `exchange run`: the report of a run of the batch that the batch text denotes, on a
/// rack of the shape that the shape text denotes, whose words are first those of the image or,
/// where there is none, tell where they stand; or the refusal of what is first wrong.
///
/// The shape text `MxKxW` is looked at first; then the batch text, against that shape, and the text
/// of a schedule, as [`Scheduled::read`](plan_answers::Scheduled::read) looks at them; then whether
/// the image has as many bytes as the rack's words have, four each; then whether transfers overlap.
/// The report is `ran settings S words X bits Y`; the line `changes N`, how often the switch
/// changed, but for a plain plan; and the line `block M B` with the words, of eight hexadecimal
/// digits each, of every block that the batch writes, by module and then by block. Such a run goes
/// to its end, since its port and its wires never fail. A plan's has as few settings as the batch
/// allows. Its rack has two switches where it has more than 16 modules, whatever the batch names.
/// Planning and the run are given so many workers each.
pub fn answer_run<R: Threads + Sync>(
    rt: &R,
    alloc: Global,
    shape: &[u8],
    batch: &[u8],
    source: ScheduleSource<&[u8]>,
    image: Option<&[u8]>,
    workers: WorkerCount,
) -> Result<Answer, AllocError>
    ensures ran { IfOk result
        (IsRunAnswer (said_by source.entry) shape.now batch.now (bytes_of image.entry)) }
    // Steady plans of a batch may differ in how often they change the switch.
    ensures one { source.entry ≢ Plan Steady → IfOk result
        (IsOnly (IsRunAnswer (said_by source.entry) shape.now batch.now (bytes_of image.entry))) }
{
    let told = tells_changes(&source);
    match run_texts(rt, alloc, shape, batch, source, image, workers) {
        Ok((scheduled, rack)) => Ok(Answer::done(report_text(alloc, &scheduled, &rack, told)?)),
        Err(refusal) => Answer::refused(alloc, refusal),
    }
}

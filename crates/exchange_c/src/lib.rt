//! Calls for programs in C: each reads texts that its caller owns, and writes its answer into bytes
//! that its caller owns.
//!
//! Each gives one of the statuses of [`status`], and says how many bytes there are: those that it
//! wrote, or, where there was no room for them, those that it would write. It starts no thread,
//! reads no file and prints nothing. What C has to keep to is said in `include/exchange.h`.
//!
//! An answer of the command of its name stands at the front of the caller's bytes, and those after
//! are as they were. Where there is no room, or no memory, all are as they were (`Leaves` of
//! `specs/Writing.antt`). [`exchange_switch`] answers by a plan where the text of the schedule is
//! empty, and else by that schedule (`IsSwitchedBy` of `specs/Switching.antt`), and
//! [`exchange_switch_wired`] does so on a wiring (`IsSwitchedOn`). [`exchange_orders`] answers for
//! such a schedule too (`IsOrderedBy`).
#![tactic(auto)]

ghost use Rattle.std.specs.Prelude.{◌≡◌, IfOk, OnErr, None};
ghost use Rattle.batch.specs.ShapeView.{widest};
ghost use Rattle.plan_answers.specs.Answers.{IsPlanned, IsChecked};
ghost use Rattle.plan_answers.specs.Counting.{IsCounted};
ghost use Rattle.plan_answers.specs.Directing.{IsDirected};
ghost use Rattle.plan_answers.specs.Drawings.{IsDrawn};
ghost use Rattle.plan_answers.specs.Schedules.{said_by};
ghost use Rattle.plan_answers.specs.declared.source.Planning.TheVariants.{Plain, Steady};
ghost use Rattle.rack_answers.specs.Answers.{IsApplied};
ghost use Rattle.exchange_c.specs.Switching.{source_for, IsOrderedBy, IsSwitchedBy, IsSwitchedOn};
ghost use Rattle.exchange_c.specs.Writing.{Puts, IsOutOfMemory, Leaves};

mod boot;
mod status;
mod switch;
mod why;

pub use boot::{exchange_boot_reset, exchange_boot_take};
use exchange_limits::WorkerCount;
use plan_answers::{
    Answer, Planning, ScheduleSource, answer_changes, answer_check, answer_direct, answer_draw,
    answer_plan,
};
use rack_answers::{answer_apply, answer_orders, answer_switch};
use schedule_certificate::NoThreads;
pub use status::{
    BOOTSTRAP, FAILED, LOOSE, MISALIGNED, NO_CALL, NO_MEMORY, NO_PORT, NO_ROOM, NO_STATE, OUTSIDE,
    REPLY,
};
use std::alloc::{AllocError, Global};
use step_count::Steps;
pub use switch::{
    exchange_c004_joined, exchange_c004_reset, exchange_c004_source, exchange_c004_take,
};
pub use why::exchange_why;

/// Copies an answer to the front of the bytes, where there is room for all of it.
fn put(answer: &Answer, out: &mut [u8], count: &mut usize) -> u8
    ensures { Puts answer.now out.old out.new count.new result }
{
    let text = answer.text();
    *count = text.len();
    if text.len() > out.len() {
        return NO_ROOM;
    }
    let (front, _) = out.split_at_mut(text.len());
    front.copy_from_slice(text);
    answer.status()
}

/// What a command answered, or that there was no memory for it.
fn leave(answer: Result<Answer, AllocError>, out: &mut [u8], count: &mut usize) -> u8
    ensures some { IfOk answer (λ a. Puts a out.old out.new count.new result) }
    ensures none { OnErr answer (IsOutOfMemory out.old out.new count.new result) }
{
    match answer {
        Ok(answer) => put(&answer, out, count),
        Err(_) => {
            *count = 0;
            NO_MEMORY
        }
    }
}

/// What `exchange plan` answers to the text of a batch.
#[unsafe(no_mangle)]
pub extern "C" fn exchange_plan(
    alloc: Global,
    batch: &[u8],
    out: &mut [u8],
    count: &mut usize,
) -> u8
    ensures { Leaves (IsPlanned Plain widest batch.now) out.old out.new count.new result }
{
    let answer = answer_plan(
        &NoThreads,
        alloc,
        batch,
        Planning::Plain,
        WorkerCount::ONE,
        &mut Steps::none(),
    );
    leave(answer, out, count)
}

/// What `exchange plan --steady` answers to the text of a batch.
#[unsafe(no_mangle)]
pub extern "C" fn exchange_plan_steady(
    alloc: Global,
    batch: &[u8],
    out: &mut [u8],
    count: &mut usize,
) -> u8
    ensures { Leaves (IsPlanned Steady widest batch.now) out.old out.new count.new result }
{
    let answer = answer_plan(
        &NoThreads,
        alloc,
        batch,
        Planning::Steady,
        WorkerCount::ONE,
        &mut Steps::none(),
    );
    leave(answer, out, count)
}

/// What `exchange check` answers to the texts of a batch and of a schedule.
#[unsafe(no_mangle)]
pub extern "C" fn exchange_check(
    alloc: Global,
    batch: &[u8],
    schedule: &[u8],
    out: &mut [u8],
    count: &mut usize,
) -> u8
    ensures { Leaves (IsChecked widest batch.now schedule.now)
        out.old out.new count.new result }
{
    leave(answer_check(alloc, batch, schedule), out, count)
}

/// Where the schedule comes from: its text, or a plan where that is empty.
fn source_of(schedule: &[u8]) -> ScheduleSource<&[u8]>
    ensures { said_by result ≡ source_for schedule.now }
{
    if schedule.is_empty() {
        ScheduleSource::Plan(Planning::Plain)
    } else {
        ScheduleSource::Text(schedule)
    }
}

/// What `exchange switch` answers to the text of a batch, and `exchange switch --schedule` to that
/// and to the text of a schedule that isn't empty.
#[unsafe(no_mangle)]
pub extern "C" fn exchange_switch(
    alloc: Global,
    batch: &[u8],
    schedule: &[u8],
    out: &mut [u8],
    count: &mut usize,
) -> u8
    ensures { Leaves (IsSwitchedBy batch.now schedule.now) out.old out.new count.new result }
{
    let source = source_of(schedule);
    let answer = answer_switch(
        &NoThreads,
        alloc,
        false,
        None,
        batch,
        source,
        WorkerCount::ONE,
    );
    leave(answer, out, count)
}

/// What `exchange switch --wiring` answers to the text of a batch, to that of a schedule, which may
/// be empty, and to that of a wiring.
#[unsafe(no_mangle)]
pub extern "C" fn exchange_switch_wired(
    alloc: Global,
    batch: &[u8],
    schedule: &[u8],
    wiring: &[u8],
    out: &mut [u8],
    count: &mut usize,
) -> u8
    ensures { Leaves (IsSwitchedOn wiring.now batch.now schedule.now)
        out.old out.new count.new result }
{
    let source = source_of(schedule);
    let answer = answer_switch(
        &NoThreads,
        alloc,
        false,
        Some(wiring),
        batch,
        source,
        WorkerCount::ONE,
    );
    leave(answer, out, count)
}

/// What `exchange orders` answers to the text of a batch, and `exchange orders --schedule` to that
/// and to the text of a schedule that isn't empty.
#[unsafe(no_mangle)]
pub extern "C" fn exchange_orders(
    alloc: Global,
    batch: &[u8],
    schedule: &[u8],
    out: &mut [u8],
    count: &mut usize,
) -> u8
    ensures { Leaves (IsOrderedBy batch.now schedule.now) out.old out.new count.new result }
{
    let source = source_of(schedule);
    let answer = answer_orders(&NoThreads, alloc, batch, source, None, WorkerCount::ONE);
    leave(answer, out, count)
}

/// What `exchange apply` answers to the texts of a shape and of a batch, and to an image.
#[unsafe(no_mangle)]
pub extern "C" fn exchange_apply(
    alloc: Global,
    shape: &[u8],
    batch: &[u8],
    image: &[u8],
    out: &mut [u8],
    count: &mut usize,
) -> u8
    ensures { Leaves (IsApplied shape.now batch.now image.now)
        out.old out.new count.new result }
{
    leave(answer_apply(alloc, shape, batch, image), out, count)
}

/// What `exchange draw` answers to the texts of a batch and of a schedule: the picture of all
/// settings.
#[unsafe(no_mangle)]
pub extern "C" fn exchange_draw(
    alloc: Global,
    batch: &[u8],
    schedule: &[u8],
    out: &mut [u8],
    count: &mut usize,
) -> u8
    ensures { Leaves (IsDrawn widest batch.now schedule.now None)
        out.old out.new count.new result }
{
    leave(answer_draw(alloc, batch, schedule, None), out, count)
}

/// How often the schedule of a text changes the switch, and how often it is shown that one with as
/// many settings has to: the line `changes C least L`.
#[unsafe(no_mangle)]
pub extern "C" fn exchange_changes(
    alloc: Global,
    batch: &[u8],
    schedule: &[u8],
    out: &mut [u8],
    count: &mut usize,
) -> u8
    ensures { Leaves (IsCounted widest batch.now schedule.now)
        out.old out.new count.new result }
{
    leave(answer_changes(alloc, batch, schedule), out, count)
}

/// What `exchange direct` answers to the text of moves.
#[unsafe(no_mangle)]
pub extern "C" fn exchange_direct(
    alloc: Global,
    moves: &[u8],
    out: &mut [u8],
    count: &mut usize,
) -> u8
    ensures { Leaves (IsDirected moves.now) out.old out.new count.new result }
{
    leave(answer_direct(alloc, moves), out, count)
}

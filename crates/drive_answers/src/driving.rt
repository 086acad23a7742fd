//! The command `drive`.

ghost use Rattle.std.specs.Prelude.{◌≡◌, ◌≤◌, ◌⊎◌, ◌↔◌, IfOk, IfErr, IfSome, IsTrue, length};
ghost use Rattle.c004_commands.specs.declared.port.TheConstants.{PORTS as MOST};
ghost use Rattle.crossbar.specs.Wired.{links_of};
ghost use Rattle.link_graph.specs.Schedules.{IsScheduleOf};
ghost use Rattle.plan_answers.specs.Lent.{bytes_of};
ghost use Rattle.plan_answers.specs.Refusals.{Refuses};
ghost use Rattle.drive_answers.specs.declared.fault.DriveFault.TheVariants.{NoMemory};
ghost use Rattle.refusals.specs.declared.refusal.Refusal.TheVariants.{NoSetting};
ghost use Rattle.plan_answers.specs.Schedules.{said_by};
ghost use Rattle.switch_settings.specs.RackWirings.{wired_in};
ghost use Rattle.switch_settings.specs.Racks.{HasModulesOf, joined_by};
ghost use Rattle.drive_answers.specs.Answers.{is_wide_over as wide_over, rack_for, switches_in};
ghost use Rattle.drive_answers.specs.Answers.{IsStart, IsTried, HasFailedOver, IsDriveAnswer};
ghost use Rattle.drive_answers.specs.Answers.{HasFailed};
ghost use Rattle.drive_answers.specs.Ways.{names_of};

use crate::drive_end::DriveEnd;
use crate::ending::ending;
use crate::fault::DriveFault;
use crate::names::PortNames;
use crate::output_mismatch::OutputMismatch;
use crate::ports::Ports;
use batch::{Batch, Shape};
use board_wiring::{Board, read_board, read_missing, wiring_of};
use c004_commands::PORTS;
use crossbar::{BoardWiring, JOINED_MODULES};
use exchange_limits::WorkerCount;
use line_words::LINE_ROOM;
use link_graph::Schedule;
use plan_answers::{Answer, ScheduleSource, Scheduled};
use refusals::{Refusal, Validity};
use std::alloc::Global;
use std::thread::Threads;
use switch_driver::{DriveObserver, drive};
use switch_settings::{RackWiring, is_wide};

/// How many modules the switches of a rack join.
fn modules_of(wide: bool) -> usize
    ensures { result ≡ joined_by wide }
{
    if wide {
        PORTS as usize
    } else {
        JOINED_MODULES as usize
    }
}

/// Whether a rack that is wired as usual has two switches, where the batch is driven over these
/// ports: they are two, or the batch names a module that one doesn't join.
fn is_wide_over(names: PortNames<'_>, batch: &Batch) -> bool
    ensures wide { result ≡ wide_over (names_of names.entry) batch.now }
    ensures modules { HasModulesOf (joined_by result) batch.now }
{
    let transfers = batch.as_slice();
    names.count() == 2 || is_wide(transfers)
}

/// The rack that a batch is driven on over these ports. A wiring has all modules that the batch
/// names.
fn rack_of(wiring: &Option<BoardWiring>, names: PortNames<'_>, batch: &Batch) -> RackWiring
    requires { IfSome wiring.now (λ wiring. HasModulesOf (length (links_of wiring)) batch.now) }
    ensures rack { result ≡ rack_for wiring.now (wide_over (names_of names.entry) batch.now) }
    ensures few { wired_in result ≤ MOST }
    ensures modules { HasModulesOf (wired_in result) batch.now }
{
    match wiring {
        Some(wiring) => RackWiring::Own(*wiring),
        None => RackWiring::Usual(modules_of(is_wide_over(names, batch))),
    }
}

/// How many switches a rack has.
fn switches_of(rack: RackWiring) -> usize
    ensures value { result ≡ switches_in rack }
    ensures range { (result ≡ 1) ⊎ (result ≡ 2) }
{
    match rack {
        RackWiring::Usual(modules) if modules > JOINED_MODULES as usize => 2,
        _ => 1,
    }
}

/// Whether a schedule may be driven from this setting on.
fn is_start(first: usize, schedule: &Schedule) -> bool
    ensures { IsTrue result ↔ IsStart first schedule.now }
{
    first == 0 || first < schedule.settings()
}

/// Drives a schedule of the batch on the rack from this setting on, over the ports of these names,
/// which are opened for it, and says how that ended. The board, where there is one, says where an
/// output leads.
fn drive_over<Q: Ports, S: DriveObserver>(
    alloc: Global,
    board: &Option<Board>,
    rack: RackWiring,
    batch: &Batch,
    schedule: &Schedule,
    first: usize,
    names: PortNames<'_>,
    ports: &mut Q,
    stage: &mut S,
) -> Result<DriveEnd, DriveFault>
    requires few { wired_in rack ≤ MOST }
    requires modules { HasModulesOf (wired_in rack) batch.now }
    requires schedule { IsScheduleOf batch.now schedule.now }
    requires first { IsStart first schedule.now }
    ensures answer { IfOk result (λ end.
        IsTried S.hears rack batch.now schedule.now first (names_of names.entry)
        (Q.ways ports.old) (Q.ways ports.new) stage.old stage.new end.answer) }
    ensures fault { IfErr result
        (HasFailedOver S.hears rack batch.now schedule.now first (names_of names.entry)
        (Q.ways ports.old) (Q.ways ports.new) stage.old stage.new) }
{
    // The last line's room is kept before anything is sent.
    let room = Vec::with_capacity(alloc, LINE_ROOM)?;
    let switches = switches_of(rack);
    if names.count() != switches {
        return refused(alloc, Refusal::Ports(switches));
    }
    match ports.open(names) {
        Ok(mut port) => {
            let how = drive(&mut port, rack, batch, schedule, first, stage);
            ports.close(port);
            match ending(room, how) {
                Ok(answer) => Ok(DriveEnd {
                    answer,
                    sight: OutputMismatch::of(board, rack, &how),
                }),
                Err(fault) => Err(fault),
            }
        }
        Err(why) => refused(alloc, why),
    }
}

/// A refusal.
fn refused(alloc: Global, why: Refusal) -> Result<DriveEnd, DriveFault>
    ensures refused { IfOk result (λ end. Refuses why end.answer) }
    ensures fault { IfErr result (λ fault. fault ≡ NoMemory) }
{
    Ok(DriveEnd {
        answer: Answer::refused(alloc, why)?,
        sight: None,
    })
}

/// The refusal of a setting that a schedule of the batch hasn't. So many settings as it has are
/// enough for the batch, and that is known of it.
fn no_setting(alloc: Global, first: usize, schedule: &Schedule) -> Result<DriveEnd, DriveFault>
    ensures refused { IfOk result (λ end. Refuses (NoSetting first) end.answer) }
    ensures fault { IfErr result (λ fault. fault ≡ NoMemory) }
{
    let DriveEnd { answer, sight } = refused(alloc, Refusal::NoSetting(first))?;
    let known = Validity::Valid(schedule.settings());
    Ok(DriveEnd {
        answer: answer.with_validity(known),
        sight,
    })
}

/// What `exchange drive` answers after the calls of its observer: the settings of a schedule of the
/// batch that the text denotes are put on the switches, one after another, from the first one on
/// that is named, over the ports of these names, which are opened for them; or the refusal of what
/// is first wrong, as [`Scheduled::read`](plan_answers::Scheduled::read) looks at it, or of the
/// setting, or of the ports. Where it refuses, no port is handed over, so nothing is sent, and
/// nothing is told; a port is asked for only where the texts are right.
///
/// The last line is `driven settings S` under the status [`DONE`](plan_answers::DONE), where all
/// settings stood; or, under [`REFUSED`](plan_answers::REFUSED), `stopped setting K port` where the
/// port failed, `stopped setting K switch O` where that output is the first that doesn't reply what
/// setting K calls for, and `stopped setting K input` where setting K stands, and it can't be heard
/// whether another is wanted; or `left setting K` where the observer wants no other. K and S are
/// the schedule's numbers. The rack has two switches where two ports are named, or where the batch
/// names a module above 15. The batch is read against the widest shape. So many workers make a
/// plain plan. Want of memory comes before a port is opened.
///
/// Where there is a text of a board's wiring, the settings are put on the board's one switch, and O
/// is its output's own number. That text is looked at first, and `refused wiring line N` tells its
/// first line at fault. After the batch it is looked for its first transfer that names a module
/// that the board hasn't, or needs a link that it hasn't.
pub fn answer_drive<R: Threads + Sync, Q: Ports, S: DriveObserver>(
    rt: &R,
    alloc: Global,
    wiring: Option<&[u8]>,
    batch: &[u8],
    source: ScheduleSource<&[u8]>,
    workers: WorkerCount,
    first: usize,
    names: PortNames<'_>,
    ports: &mut Q,
    stage: &mut S,
) -> Result<DriveEnd, DriveFault>
    ensures answer { IfOk result (λ end. IsDriveAnswer S.hears (said_by source.entry) batch.now
        (bytes_of wiring.entry) first (names_of names.entry) (Q.ways ports.old) (Q.ways ports.new)
        stage.old stage.new end.answer) }
    ensures fault { IfErr result
        (HasFailed S.hears (said_by source.entry) batch.now (bytes_of wiring.entry) first
        (names_of names.entry) (Q.ways ports.old) (Q.ways ports.new) stage.old stage.new) }
{
    let board = match read_board(wiring) {
        Ok(board) => board,
        Err(fault) => return refused(alloc, fault.into()),
    };
    if let Some(lack) = read_missing(alloc, &board, batch)? {
        return refused(alloc, lack);
    }
    match Scheduled::read(rt, alloc, Shape::WIDEST, batch, source, workers) {
        Ok(scheduled) => {
            let (batch, schedule) = (scheduled.batch(), scheduled.schedule());
            if !is_start(first, schedule) {
                return no_setting(alloc, first, schedule);
            }
            let rack = rack_of(&wiring_of(&board), names, batch);
            drive_over(
                alloc, &board, rack, batch, schedule, first, names, ports, stage,
            )
        }
        Err(refusal) => refused(alloc, refusal),
    }
}

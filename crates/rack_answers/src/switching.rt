//! The command `switch`.

ghost use Rattle.std.specs.Prelude.{◌≡◌, ◌||◌, IfOk, IfSome, OnOk, None};
ghost use Rattle.batch.specs.Batches.{IsBatch};
ghost use Rattle.crossbar.specs.Pairs.{ArePairs, room_of};
ghost use Rattle.link_graph.specs.Schedules.{IsScheduleOf};
ghost use Rattle.plan_answers.specs.Lent.{bytes_of};
ghost use Rattle.plan_answers.specs.Schedules.{said_by};
ghost use Rattle.switch_settings.specs.Racks.{HasModulesOf, is_wide as needs_two};
ghost use Rattle.switch_settings.specs.Sending.{turning};
ghost use Rattle.rack_answers.specs.Boards.{joined_on};
ghost use Rattle.rack_answers.specs.Reports.{Adds};
ghost use Rattle.rack_answers.specs.Switching.{bytes_text, setting_head as head_of, switch_line};
ghost use Rattle.rack_answers.specs.Switching.{lines_on, TellsSwitch, IsOn, IsSwitched};

use crate::spaced::push_spaced;
use batch::{Batch, Shape};
use board_wiring::{Board, read_board, read_missing, wiring_of};
use crossbar::{BoardWiring, Pair, Wiring};
use exchange_limits::WorkerCount;
use line_words::{Line, hex2_of};
use link_graph::Schedule;
use plan_answers::{Answer, ScheduleSource, Scheduled};
use schedule_certificate::Planner;
use std::alloc::{AllocError, Global};
use switch_settings::{PairList, WIDE_CHANGE_BYTES, bytes_for, is_wide, numbers_of_setting};

/// Puts bytes at the end of the text, each after a space and as two hexadecimal digits.
fn push_bytes(text: &mut Vec<u8>, bytes: &[u8]) -> Result<(), AllocError>
    ensures { OnOk result (Adds text.old text.new (bytes_text bytes.now)) }
{
    for byte in bytes {
        push_spaced(text, &hex2_of(*byte))?;
    }
    Ok(())
}

/// The line of a setting, up to the name of a switch.
fn setting_head(setting: usize) -> Line
    ensures { result ≡ head_of setting }
{
    let mut head = Line::new();
    head.put(b"setting ");
    head.put_number(setting as u64);
    head
}

/// Puts the line of a setting at the end of the text, with the name of the switch that is sent its
/// bytes.
fn push_line(
    text: &mut Vec<u8>,
    setting: usize,
    name: &[u8],
    wiring: Wiring,
    standing: &Option<PairList>,
    pairs: &[Pair],
) -> Result<(), AllocError>
    requires pairs { ArePairs (room_of wiring) pairs.now }
    requires standing { IfSome standing.now (λ old. ArePairs (room_of wiring) old) }
    ensures { OnOk result
        (Adds text.old text.new
        (switch_line setting name.now (turning wiring standing.now pairs.now))) }
{
    let mut bytes = [0; WIDE_CHANGE_BYTES];
    let number = bytes_for(wiring, standing, pairs, &mut bytes);
    text.extend_from_slice(setting_head(setting).as_bytes())?;
    text.extend_from_slice(name)?;
    push_bytes(text, &bytes[..number])?;
    text.extend_from_slice(b"\n")
}

/// Puts the lines of a setting at the end of the text: one where the rack has one switch, else that
/// of each.
fn push_setting(
    text: &mut Vec<u8>,
    board: &Option<BoardWiring>,
    wide: bool,
    setting: usize,
    standing: &Option<PairList>,
    pairs: &[Pair],
) -> Result<(), AllocError>
    requires pairs { ArePairs (joined_on board.now wide) pairs.now }
    requires standing { IfSome standing.now (λ old. ArePairs (joined_on board.now wide) old) }
    ensures { OnOk result
        (Adds text.old text.new
        (lines_on board.now wide setting (λ wiring. turning wiring standing.now pairs.now))) }
{
    if let Some(board) = board {
        return push_line(text, setting, b"", Wiring::Board(*board), standing, pairs);
    }
    if wide {
        push_line(text, setting, b" a", Wiring::Forth, standing, pairs)?;
        push_line(text, setting, b" b", Wiring::Back, standing, pairs)
    } else {
        push_line(text, setting, b"", Wiring::Both, standing, pairs)
    }
}

/// Whether a rack that is wired as usual has two switches: that is said, or the batch names a
/// module that one doesn't join.
fn has_switch_b(has_two: bool, batch: &Batch) -> bool
    ensures { result ≡ (has_two || needs_two batch.now) }
{
    has_two || is_wide(batch.as_slice())
}

/// The answer that tells what the switches are sent for a schedule of the batch.
fn switch_answer(
    alloc: Global,
    board: &Option<BoardWiring>,
    wide: bool,
    batch: &Batch,
    schedule: &Schedule,
) -> Result<Answer, AllocError>
    requires batch { IsBatch batch.now }
    requires schedule { IsScheduleOf batch.now schedule.now }
    requires modules { HasModulesOf (joined_on board.now wide) batch.now }
    ensures { IfOk result (TellsSwitch board.now wide batch.now schedule.now) }
{
    let mut text = Vec::new(alloc);
    let mut standing = None;
    for number in 0..schedule.settings() {
        let pairs = PairList::of_setting(batch, numbers_of_setting(batch, schedule, number));
        push_setting(&mut text, board, wide, number, &standing, pairs.as_slice())?;
        standing = Some(pairs);
    }
    Ok(Answer::done(text))
}

/// The answer for a schedule from this source, or the refusal of what is first wrong.
fn switch_on<R: Planner>(
    rt: &R,
    alloc: Global,
    has_two: bool,
    board: &Option<Board>,
    batch: &[u8],
    source: ScheduleSource<&[u8]>,
    workers: WorkerCount,
) -> Result<Answer, AllocError>
    ensures { IfOk result (IsSwitched (said_by source.entry) has_two board.now batch.now) }
{
    if let Some(lack) = read_missing(alloc, board, batch)? {
        return Answer::refused(alloc, lack);
    }
    match Scheduled::read(rt, alloc, Shape::WIDEST, batch, source, workers) {
        Ok(scheduled) => {
            let (batch, schedule) = (scheduled.batch(), scheduled.schedule());
            let wide = has_switch_b(has_two, batch);
            switch_answer(alloc, &wiring_of(board), wide, batch, schedule)
        }
        Err(refusal) => Answer::refused(alloc, refusal),
    }
}

/// The answer of `exchange switch`: what a run of a schedule of the batch that the text denotes
/// sends over the configuration link, setting by setting, but for its enquiries; or the refusal of
/// what is first wrong, as [`Scheduled::read`](plan_answers::Scheduled::read) looks at it. The rack
/// of that run has two switches where that is said, or where the batch names a module above 15.
///
/// A line is `setting S`, with the bytes after it as pairs of hexadecimal digits: those of the
/// first setting set a switch, whatever it was, and those of each later one change the switch of
/// the setting before. Where there are two switches, a setting has two lines, `setting S a ..` for
/// the switch of the way forth and `setting S b ..` for that of the way back. The batch is read
/// against the widest shape. So many workers make a plain plan.
///
/// Where there is a text of a board's wiring, the links are those of this wiring, and all goes to
/// the board's one switch, whatever is said. That text is looked at first. After the batch it is
/// looked for its first transfer that names a module that the board hasn't, or needs a link that it
/// hasn't.
pub fn answer_switch<R: Planner>(
    rt: &R,
    alloc: Global,
    has_two: bool,
    wiring: Option<&[u8]>,
    batch: &[u8],
    source: ScheduleSource<&[u8]>,
    workers: WorkerCount,
) -> Result<Answer, AllocError>
    ensures { IfOk result
        (IsOn (λ board. IsSwitched (said_by source.entry) has_two board batch.now)
        (bytes_of wiring.entry)) }
{
    match read_board(wiring) {
        Ok(board) => switch_on(rt, alloc, has_two, &board, batch, source, workers),
        Err(fault) => Answer::refused(alloc, fault.into()),
    }
}

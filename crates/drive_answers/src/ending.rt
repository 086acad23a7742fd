//! The last line of a drive.

ghost use Rattle.std.specs.Prelude.{◌≡◌, ◌≤◌, ◌+◌, ◌*◌, ◌++◌, [], ℕ, codes, length, IfOk, IfErr};
ghost use Rattle.std.specs.Prelude.{vec_capacity};
ghost use Rattle.std.specs.Fmt.{decimal};
ghost use Rattle.line_words.specs.declared.limits.TheConstants.{LINE_ROOM, NUMBER_ROOM};
ghost use Rattle.switch_driver.specs.declared.driving.DriveOutcome.TheVariants.{Halted};
ghost use Rattle.switch_driver.specs.declared.drive_observer.Halt.TheVariants.{Untold as NotTold};
ghost use Rattle.drive_answers.specs.Endings.{fault_words, stopped_line, IsEnding};
ghost use Rattle.drive_answers.specs.declared.fault.DriveFault.TheVariants.{Untold};

use crate::fault::DriveFault;
use line_words::Line;
use plan_answers::Answer;
use switch_driver::{DriveOutcome, Halt};
use switch_settings::SettingFault;

/// These words and a number.
fn numbered(words: &[u8], number: usize) -> Line
    requires { length words.now ≤ NUMBER_ROOM }
    ensures text { result ≡ words.now ++ decimal number }
    ensures room { length result ≤ length words.now + NUMBER_ROOM }
{
    let mut line = Line::new();
    line.put(words);
    line.put_number(number as u64);
    line
}

/// The line of these words and a number.
fn line_of(words: &[u8], number: usize) -> Line
    requires { length words.now ≤ NUMBER_ROOM }
    ensures { result ≡ words.now ++ decimal number ++ codes "\n" }
{
    let mut line = numbered(words, number);
    line.put(b"\n");
    line
}

/// The line where it stopped at a setting.
fn line_stopped(setting: usize, why: &[u8]) -> Line
    requires { length why.now ≤ 2 * NUMBER_ROOM }
    ensures text { result ≡ stopped_line setting why.now }
{
    let mut line = numbered(b"stopped setting ", setting);
    line.put(b" ");
    line.put(why);
    line.put(b"\n");
    line
}

/// The line where a setting couldn't be set.
fn line_unset(setting: usize, fault: SettingFault) -> Line
    ensures { result ≡ stopped_line setting (fault_words fault) }
{
    match fault {
        SettingFault::Port => line_stopped(setting, b"port"),
        SettingFault::Switch(found) => {
            let words = numbered(b"switch ", usize::from(found.number()));
            line_stopped(setting, words.as_bytes())
        }
    }
}

/// The line, in the room that was kept for it.
fn filled(mut room: Vec<u8>, line: &Line) -> Vec<u8>
    requires empty { room.items ≡ [] }
    requires room { LINE_ROOM ≤ vec_capacity room }
    ensures { result.items ≡ line.now }
{
    if room.extend_from_slice(line.as_bytes()).is_err() {
        unreachable!();
    }
    room
}

/// The answer that tells how settings were driven, in the room that was kept for its line.
pub(crate) fn ending(room: Vec<u8>, how: DriveOutcome) -> Result<Answer, DriveFault>
    requires empty { room.items ≡ [] }
    requires room { LINE_ROOM ≤ vec_capacity room }
    ensures told { IfOk result (IsEnding how) }
    ensures untold { IfErr result (λ fault. (fault ≡ Untold) × (k : ℕ) × (how ≡ Halted k NotTold)) }
{
    match how {
        DriveOutcome::Completed { settings } => {
            Ok(Answer::done(filled(room, &line_of(b"driven settings ", settings))))
        }
        DriveOutcome::Stopped { setting, fault } => {
            Ok(Answer::failed(filled(room, &line_unset(setting, fault))))
        }
        DriveOutcome::Halted { setting, halt } => match halt {
            Halt::Left => Ok(Answer::failed(filled(room, &line_of(b"left setting ", setting)))),
            Halt::Unheard => Ok(Answer::failed(filled(room, &line_stopped(setting, b"input")))),
            Halt::Untold => Err(DriveFault::Untold),
        },
    }
}

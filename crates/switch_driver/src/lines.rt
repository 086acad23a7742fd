//! The observer that prints lines.

ghost use Rattle.std.specs.Prelude.{◌≡◌, ◌≤◌, length, IfOk, OnErr};
ghost use Rattle.batch.specs.declared.limits.TheConstants.{MAX_MODULES};
ghost use Rattle.switch_driver.specs.Lines.{driven_line, HasWaited, HasWaitedInVain};

use crate::drive_observer::{DriveObserver, Halt};
use byte_streams::{read_byte, write_bytes};
use line_words::Line;
use std::io;
use std::io::{ErrorKind, Read, Write};

/// An observer that prints a line `setting K T T ..` for each setting that stands, flushes it, and
/// then waits for a line, if it is to. Where the input has ended, no setting is wanted any more.
#[derive(Drop)]
pub struct LineObserver<'a, I, O> {
    input: &'a mut I,
    out: &'a mut O,
    waits: bool,
    reason: Option<io::Error>,
}

impl<'a, I, O> LineObserver<'a, I, O> {
    /// Settings are told on `out`, and a line of `input` is waited for after each, if it `waits`.
    pub fn new(input: &'a mut I, out: &'a mut O, waits: bool) -> LineObserver<'a, I, O>
        ensures input { (result.input.ghost_name ≡ input.entry.ghost_name)
            × (result.input.now ≡ input.old) }
        ensures out { (result.out.ghost_name ≡ out.entry.ghost_name) × (result.out.now ≡ out.old) }
        ensures waits { result.waits ≡ waits }
    {
        LineObserver {
            input,
            out,
            waits,
            reason: None,
        }
    }

    /// Why a setting couldn't be told, or no line be read, where that was so. It is given once.
    pub fn take_reason(&mut self) -> Option<io::Error>
        ensures input { self.new.input ≡ self.old.input }
        ensures out { self.new.out ≡ self.old.out }
        ensures waits { self.new.waits ≡ self.old.waits }
    {
        self.reason.take()
    }

    /// Gives the stream back on which settings were told.
    pub fn into_out(self) -> &'a mut O
        ensures { (result.ghost_name ≡ self.entry.out.ghost_name)
            × (result.now ≡ self.entry.out.now) }
    {
        self.out
    }
}

/// The line of a setting of these transfers.
fn line_of(setting: usize, numbers: &[usize]) -> Line
    requires { length numbers.now ≤ MAX_MODULES }
    ensures { result ≡ driven_line setting numbers.now }
{
    let mut line = Line::new();
    line.put(b"setting ");
    line.put_number(setting as u64);
    for number in numbers {
        line.put(b" ");
        line.put_number(*number as u64);
    }
    line.put(b"\n");
    line
}

/// Reads a line, and nothing after it. Says whether one came: none where the input ends before a
/// line feed.
fn wait_line<I: Read>(reader: &mut I) -> io::Result<bool>
    ensures waited { IfOk result
        (HasWaited (I.remaining reader.old) (I.remaining reader.new)) }
    ensures vain { OnErr result
        (HasWaitedInVain (I.remaining reader.old) (I.remaining reader.new)) }
{
    // More turns than anybody waits for: so the call is proved to return.
    for _ in 0..u64::MAX {
        match read_byte(reader)? {
            Some(b'\n') => return Ok(true),
            Some(_) => {}
            None => return Ok(false),
        }
    }
    Err(io::Error::from(ErrorKind::TimedOut))
}

impl<I: Read, O: Write> DriveObserver for LineObserver<'_, I, O> {
    ghost use Rattle.switch_driver.specs.Lines.{HasToldLine};

    ghost hears = { λ old setting numbers said new.
        HasToldLine I.remaining O.contents setting numbers said old new };

    fn on_setting(&mut self, setting: usize, numbers: &[usize]) -> Result<(), Halt> {
        let line = line_of(setting, numbers);
        if let Err(why) = write_bytes(self.out, line.as_bytes()) {
            self.reason = Some(why);
            return Err(Halt::Untold);
        }
        if !self.waits {
            return Ok(());
        }
        match wait_line(self.input) {
            Ok(true) => Ok(()),
            Ok(false) => Err(Halt::Left),
            Err(why) => {
                self.reason = Some(why);
                Err(Halt::Unheard)
            }
        }
    }
}

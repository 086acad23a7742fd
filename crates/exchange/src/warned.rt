//! The lines of `drive`, with a line on standard error before the first.

ghost use Rattle.std.specs.Prelude.{◌≡◌};
ghost use Rattle.exchange.specs.Warnings.{IsWarnedOnce};

use named_files::tell_line;
use std::io::{Read, Write};
use switch_driver::{DriveObserver, Halt, LineObserver};

/// An observer that prints the lines of settings, and before the first of them a warning on
/// standard error, where there is one. So the warning is printed once, and nowhere where no setting
/// stands.
#[derive(Drop)]
pub(crate) struct WarningObserver<'a, 'e, I, O, E> {
    lines: LineObserver<'a, I, O>,
    warning: Option<String>,
    err: &'e mut E,
}

impl<'a, 'e, I, O, E> WarningObserver<'a, 'e, I, O, E> {
    /// Tells these lines, and this one on standard error.
    pub(crate) fn new(
        lines: LineObserver<'a, I, O>,
        warning: Option<String>,
        err: &'e mut E,
    ) -> WarningObserver<'a, 'e, I, O, E>
        ensures lines { result.lines ≡ lines.entry }
        ensures warning { result.warning ≡ warning }
        ensures err { (result.err.ghost_name ≡ err.entry.ghost_name) × (result.err.now ≡ err.old) }
    {
        WarningObserver {
            lines,
            warning,
            err,
        }
    }

    /// Gives the lines and standard error back.
    pub(crate) fn into_parts(self) -> (LineObserver<'a, I, O>, &'e mut E)
        ensures lines { result.0 ≡ self.entry.lines }
        ensures err { (result.1.ghost_name ≡ self.entry.err.ghost_name)
            × (result.1.now ≡ self.entry.err.now) }
    {
        (self.lines, self.err)
    }
}

impl<I, O, E: Write> WarningObserver<'_, '_, I, O, E> {
    /// Tells the warning, where it wasn't told before.
    fn warn(&mut self)
        ensures lines { self.new.lines ≡ self.old.lines }
        ensures once { IsWarnedOnce E.contents self.old self.new }
    {
        if let Some(line) = self.warning.take() {
            tell_line(line.as_str().as_bytes(), self.err);
        }
    }
}

impl<I: Read, O: Write, E: Write> DriveObserver for WarningObserver<'_, '_, I, O, E> {
    ghost use Rattle.exchange.specs.Warnings.{HasToldWarned};

    ghost hears = { λ old setting numbers result new.
        HasToldWarned I.remaining O.contents E.contents setting numbers result old new };

    fn on_setting(&mut self, setting: usize, numbers: &[usize]) -> Result<(), Halt> {
        self.warn();
        self.lines.on_setting(setting, numbers)
    }
}

//! Whoever is told that a setting stands.

ghost use Rattle.std.specs.Prelude.{◌≤◌, length};
ghost use Rattle.batch.specs.declared.limits.TheConstants.{MAX_MODULES};
ghost use Rattle.switch_driver.specs.Hearings.{Hearing};

/// Why no setting comes after one that stands.
#[derive(Clone, Copy)]
pub enum Halt {
    /// No setting is wanted any more.
    Left,
    /// It can't be heard whether one is.
    Unheard,
    /// It couldn't be told that the setting stands.
    Untold,
}

/// Who is called for each setting that stands, and says when the next one may come.
pub trait DriveObserver {
    // What becomes of it where it is told that a setting stands, and what it says.
    ghost hears: { Hearing Self };

    /// The setting of this number, of these transfers, stands. It may wait until the next one may
    /// come, or says why none is to.
    fn on_setting(&mut self, setting: usize, numbers: &[usize]) -> Result<(), Halt>
        requires { length numbers.now ≤ MAX_MODULES }
        ensures { hears self.old setting numbers.now result self.new };
}

ghost use Rattle.std.specs.Prelude.{ℕ, ◌<◌, ◌^◌};

/// Whoever is told how far a run has come.
pub trait Notice {
    /// What becomes of the notice where it is told a number of settings.
    ghost hears: { Self → ℕ → Self → Type 0 };

    /// So many settings of the run are done: 0 before the first of them begins, and then one more
    /// each time, up to all settings of the schedule.
    fn done(&mut self, settings: usize)
        requires { settings < 2 ^ 63 }
        ensures { hears self.old settings self.new };
}

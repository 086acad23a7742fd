//! Whoever raises the word of an exchange while a run goes on.

ghost use Rattle.std.specs.Prelude.{◌≡◌, ◌+◌, ◌<◌, ◌≤◌};
ghost use Rattle.batch_book.specs.declared.limits.TheConstants.{MAX_NUMBER};

use crate::limits::RUN_STEP;
use progress_word::{ProgressWord, Watcher};
use setting_runner::Notice;

/// Raises the word of an exchange from a seat's watcher, each time that a setting of the run with
/// this number is done.
#[derive(Drop)]
pub struct Raise<'a> {
    pub word: &'a ProgressWord,
    pub watcher: Watcher,
    pub run: usize,
    pub ghost own: { watcher.word ≡ word.now },
    pub ghost some: { 0 < watcher.parts },
    pub ghost limit: { run ≤ MAX_NUMBER + 1 },
}

impl Notice for Raise<'_> {
    ghost use Rattle.std.specs.Prelude.{◌≡◌};
    ghost use Rattle.batch_book.specs.Values.{value_at};
    ghost use Rattle.batch_book.specs.Seats.{Reaches};

    ghost hears = { λ old k new.
        Reaches old.watcher (value_at old.run k) new.watcher × (new.run ≡ old.run) };

    fn done(&mut self, settings: usize) {
        let value = RUN_STEP * self.run as u64 + settings as u64;
        self.word.raise(&mut self.watcher, value);
    }
}

//! What the rule of the word speaks of, and the rule for the table that holds the word.

use atomic_table::{Join, Play, Split, TableRule};

/// What is known of the word from one watcher. No value of it is made.
pub struct WordView {
    /// The greatest value that was seen.
    pub seen: u64,
    /// The greatest value to which the word was raised.
    pub raised: u64,
    /// How many of the word's parts there are.
    pub parts: u64,
}

/// The five kinds of atomic step. The numbers are those of the views that step, in the order in
/// which they were made. No value of it is made.
pub enum WordStep {
    /// The word is made, with its first view.
    Make,
    /// The word is read.
    Load(usize),
    /// The word is raised to a value, by one `fetch_max`: view, value.
    Raise(usize, u64),
    /// A view gives a part to a new one.
    Split(usize),
    /// A view takes in another: the one that is kept, the other.
    Join(usize, usize),
}

/// The rule, for the table.
pub(crate) struct Rises;

impl TableRule<u8, WordView, ()> for Rises {
    ghost use Rattle.progress_word.specs.Plays.{MeetsRule};
    ghost use Rattle.progress_word.specs.Rule.{whole_view};

    ghost holds = { λ _. MeetsRule };

    ghost first = { λ _. whole_view };
}

/// A load.
pub(crate) struct Loads;

impl Play<u8, WordView> for Loads {
    ghost use Rattle.progress_word.specs.Plays.{HasLoaded};

    ghost then = { HasLoaded };
}

/// A raise.
pub(crate) struct Raises;

impl Play<u8, WordView> for Raises {
    ghost use Rattle.progress_word.specs.Plays.{HasRaised};

    ghost then = { HasRaised };
}

/// A split.
pub(crate) struct SplitsOff;

impl Split<WordView> for SplitsOff {
    ghost use Rattle.progress_word.specs.Rule.{without_part, split_off};

    ghost left = { without_part };

    ghost right = { split_off };
}

/// A join.
pub(crate) struct MergesIn;

impl Join<WordView> for MergesIn {
    ghost use Rattle.progress_word.specs.Rule.{joined, absorbed};

    ghost both = { joined };

    ghost spent = { absorbed };
}

//! What names an exchange.

ghost use Rattle.std.specs.Prelude.{◌≡◌, IfOk};
ghost use Rattle.progress_word.specs.declared.limits.TheConstants.{ALL_PARTS};

use crate::noted::NotedEntry;
use progress_word::ALL_PARTS;
use session_lists::{Fresh, HistoryName};
use std::alloc::{AllocError, Global};
use std::marker::Brand;
use std::sync::ledger::{Blank, Ledger};

/// Names an exchange, so that what lies under its lock can be told to be of it: beside its ledger
/// and its history, the words that its book was opened with, and the entries that this had before.
pub trait ExchangeName: Ledger + HistoryName {
    ghost use Rattle.std.specs.Prelude.{List};
    ghost use Rattle.module_memory.specs.Store.{Store};
    ghost use Rattle.batch_book.specs.declared.entry.Entry.{Entry};

    ghost opening: { Store };

    ghost earlier: { List Entry };
}

impl ExchangeName for Brand {
    ghost use Rattle.batch_book.specs.Naming.{no_words};
    ghost use Rattle.std.specs.Prelude.{[]};

    ghost opening = { no_words };

    ghost earlier = { [] };
}

/// What an exchange is made of that no type names yet: a ledger of [`ALL_PARTS`], and an empty
/// history.
#[derive(Drop)]
pub struct ExchangeBlank {
    pub ledger: Blank,
    pub history: Fresh<NotedEntry>,
}

impl ExchangeBlank {
    /// It takes memory for a word.
    pub fn new(alloc: Global) -> Result<ExchangeBlank, AllocError>
        ensures { IfOk result (λ blank. blank.ledger.parts ≡ ALL_PARTS) }
    {
        Ok(ExchangeBlank {
            ledger: Blank::new(ALL_PARTS as u64),
            history: Fresh::new(alloc)?,
        })
    }
}

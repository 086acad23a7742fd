ghost use Rattle.std.specs.Prelude.{◌≡◌, ◌<◌, ◌+◌, ◌*◌};
ghost use Rattle.batch_book.specs.Replies.{is_logged};
ghost use Rattle.batch_book.specs.Told.{IsKeptOf};
ghost use Rattle.batch_book.specs.Values.{value_of};

use crate::limits::{MAX_NUMBER, RUN_STEP};
use crate::refusal::BookRefusal;
use crate::stored_batch::BatchState;
use batch::Batch;
use setting_runner::{Moved, RunRefusal, StopCause};

/// What the book answers. Batches and runs are numbered from 1, and no number is given twice.
#[derive(Drop)]
pub enum Reply {
    /// The batch was accepted under this number.
    Accepted(usize),
    /// A copy of the batch.
    Fetched(Batch),
    /// The plan was taken.
    Settled {
        /// How many settings the plan has.
        settings: usize,
    },
    /// The run completed.
    Ran {
        /// The number of the run.
        run: usize,
        /// How many settings were run.
        settings: usize,
        /// How many words were moved.
        words: usize,
    },
    /// The run stopped.
    Stopped {
        /// The number of the run.
        run: usize,
        /// The setting in which it stopped, counted from 0.
        setting: usize,
        /// Why it stopped.
        cause: StopCause,
        /// How many words each transfer of that setting has moved.
        moved: Moved,
    },
    /// The batch can't be run on this rack, for this cause, which isn't want of memory. It is still
    /// planned.
    RunRefused(RunRefusal),
    /// What the batch is.
    Shown {
        /// How many transfers it has.
        transfers: usize,
        /// How far it has come.
        state: BatchState,
    },
    /// The batch is gone.
    Discarded,
    /// The word.
    Word(u32),
    /// The word was written.
    Poked,
    /// The call was refused.
    Refused(BookRefusal),
}

impl Reply {
    /// Whether a call with this reply has its entry in the history: each has, but where the history
    /// was full or there was no memory.
    pub fn is_logged(&self) -> bool
        ensures { result ≡ is_logged self.now }
    {
        !matches!(
            self,
            Reply::Refused(BookRefusal::HistoryFull) | Reply::Refused(BookRefusal::NoMemory)
        )
    }

    /// How far the run has come of which the reply tells, as the progress word has it; 0 where it
    /// tells of none.
    pub(crate) fn value(&self) -> u64
        requires { value_of self.now < RUN_STEP * (MAX_NUMBER + 2) }
        ensures { result ≡ value_of self.now }
    {
        match self {
            Reply::Ran { run, settings, .. } => RUN_STEP * *run as u64 + *settings as u64,
            Reply::Stopped { run, setting, .. } => RUN_STEP * *run as u64 + *setting as u64,
            _ => 0,
        }
    }

    /// An equal reply, where it has no batch. It takes no memory.
    pub(crate) fn without_batch(&self) -> Option<Reply>
        ensures { IsKeptOf result self.now }
    {
        let kept = match self {
            Reply::Fetched(_) => return None,
            Reply::Accepted(id) => Reply::Accepted(*id),
            Reply::Settled { settings } => Reply::Settled {
                settings: *settings,
            },
            Reply::Ran {
                run,
                settings,
                words,
            } => Reply::Ran {
                run: *run,
                settings: *settings,
                words: *words,
            },
            Reply::Stopped {
                run,
                setting,
                cause,
                moved,
            } => Reply::Stopped {
                run: *run,
                setting: *setting,
                cause: *cause,
                moved: *moved,
            },
            Reply::RunRefused(refusal) => Reply::RunRefused(*refusal),
            Reply::Shown { transfers, state } => Reply::Shown {
                transfers: *transfers,
                state: *state,
            },
            Reply::Discarded => Reply::Discarded,
            Reply::Word(word) => Reply::Word(*word),
            Reply::Poked => Reply::Poked,
            Reply::Refused(refusal) => Reply::Refused(*refusal),
        };
        Some(kept)
    }
}

use std::alloc::AllocError;
use thiserror::Error;

/// Why the lines of an entry aren't those of the one that comes.
#[derive(Drop)]
pub(crate) enum EntryFault<'a> {
    /// There is no call.
    Call,
    /// The first follows the call, where the second is due: the line of its reply.
    Reply(&'a [u8], Vec<u8>),
    /// There was no memory.
    NoMemory,
}

impl<'a> From<AllocError> for EntryFault<'a> {
    ghost use Rattle.std.specs.Prelude.{◌≡◌};
    ghost use Rattle.record_replay.specs.declared.fault.EntryFault.TheVariants.{NoMemory};

    ghost from_gives = { λ _ gives. gives ≡ NoMemory };

    fn from(_error: AllocError) -> EntryFault<'a> {
        EntryFault::NoMemory
    }
}

/// What is first wrong with a record. Entries are counted from 0.
#[derive(Clone, Copy, Debug, PartialEq, Eq, Error)]
pub enum RecordFault {
    /// Its head isn't that of the rack, or there is none.
    #[error("head")]
    Head,
    /// After this many entries comes neither an entry nor the end with its sum.
    #[error("sum {0}")]
    Sum(usize),
    /// After this many entries comes neither a call nor the last lines, though the sum is right.
    #[error("call {0}")]
    Call(usize),
    /// The reply of this entry isn't the one that its call gets.
    #[error("reply {0}")]
    Reply(usize),
    /// Something follows the last lines.
    #[error("more")]
    More,
    /// There was no memory.
    #[error("no memory")]
    NoMemory,
}

/// A record that isn't replayed.
#[derive(Drop)]
pub struct RecordError {
    /// What is wrong with it.
    pub fault: RecordFault,
    /// The number of bytes before that.
    pub offset: usize,
    /// The line that is due there, with its line feed, if one is: that of a reply, or the first of
    /// a head. Whoever has a whole head that is due puts all of it here.
    pub due: Option<Vec<u8>>,
}

impl From<AllocError> for RecordError {
    ghost use Rattle.std.specs.Prelude.{◌≡◌};
    ghost use Rattle.record_replay.specs.declared.fault.RecordFault.TheVariants.{NoMemory};

    ghost from_gives = { λ _ gives. gives.fault ≡ NoMemory };

    fn from(_error: AllocError) -> RecordError {
        RecordError {
            fault: RecordFault::NoMemory,
            offset: 0,
            due: None,
        }
    }
}

//! When a seat that writes, or waits for a writing, looks again.

/// How often a seat lets other threads run while more entries come, before it writes, or while
/// another writes, before it sleeps: where none waits for the disk a writing is done sooner than
/// who sleeps is woken.
const GROUP_YIELDS: usize = 8;

/// How often it looks where who writes waits for more entries: not at all where that takes long.
const GROUP_SPINS: usize = 2;

/// From how many microseconds on a writing is slow.
const SLOW: u64 = 1000;

/// How many microseconds a nap takes at most.
const LONGEST_NAP: u64 = 20_000;

/// How writings follow one another in time. No contract says anything of it: it decides how many
/// entries go with a writing, and who is woken, and never what is written.
#[derive(Drop)]
pub struct WritePacing {
    /// Whether who writes waits for more entries first.
    pub groups_writes: bool,
    /// Up to which place some may soon come.
    pub due: u64,
    /// How many microseconds who writes naps meanwhile: none where a writing is quick.
    pub nap: u64,
    /// How many writings were begun.
    pub round: u64,
    /// Whether there was no memory to queue an entry, which may go with a later writing then.
    pub late: bool,
}

impl WritePacing {
    /// Before the first writing.
    pub fn new(groups_writes: bool) -> WritePacing {
        WritePacing {
            groups_writes,
            due: 0,
            nap: 0,
            round: 0,
            late: false,
        }
    }

    /// A writing has ended, which took so many microseconds. Each whose entry was written may soon
    /// ask again: then all up to this place have come.
    pub fn end(&mut self, due: u64, micros: u64) {
        self.due = due;
        self.nap = if micros < SLOW {
            0
        } else {
            (micros / 8).min(LONGEST_NAP)
        };
    }

    /// Whether the number of the last writing that was begun is odd.
    pub fn is_odd(&self) -> bool {
        self.round % 2 == 1
    }

    /// How often who writes looks whether more entries have come.
    pub fn writer_looks(&self) -> usize {
        if self.groups_writes { GROUP_YIELDS } else { 0 }
    }

    /// How often who waits looks whether its entry is durable, before it sleeps.
    pub fn waiter_looks(&self) -> usize {
        match (self.groups_writes, self.nap) {
            (false, _) => GROUP_YIELDS,
            (true, 0) => GROUP_SPINS,
            (true, _) => 0,
        }
    }
}

ghost use Rattle.std.specs.Prelude.{◌≡◌, ◌+◌, ◌/◌, ◌<◌, ◌≤◌};
ghost use Rattle.exchange_limits.specs.declared.limits.TheConstants.{MAX_WORKERS};

use exchange_limits::{MAX_WORKERS, WorkerCount};

/// The workers who may take part in some work: a range of their numbers, which begin at 1 and end
/// at [`MAX_WORKERS`].
#[derive(Clone, Copy)]
pub struct Workers {
    /// The least of the numbers.
    pub least: usize,
    /// How many there are.
    pub count: usize,
    pub ghost from_one: { 1 ≤ least },
    pub ghost numbered: { least + count ≤ MAX_WORKERS + 1 },
}

impl Workers {
    /// This many workers, numbered from 1.
    pub fn all(count: WorkerCount) -> Workers
        ensures least { result.least ≡ 1 }
        ensures count { result.count ≡ count }
        ensures some { 0 < result.count }
    {
        Workers {
            least: 1,
            count: count.get(),
        }
    }

    /// The first half of the range, rounded up, and the rest, which begins where that half ends. Of
    /// one worker the rest is none.
    pub fn halves(self) -> (Workers, Workers)
        ensures first_least { result.0.least ≡ self.least }
        ensures first_count { result.0.count ≡ (self.count + 1) / 2 }
        ensures rest_least { result.1.least ≡ self.least + (self.count + 1) / 2 }
        ensures rest_count { result.1.count ≡ self.count / 2 }
    {
        let first = self.count.div_ceil(2);
        (
            Workers {
                least: self.least,
                count: first,
            },
            Workers {
                least: self.least + first,
                count: self.count - first,
            },
        )
    }
}

ghost use Rattle.std.specs.Prelude.{◌≡◌, false, IfSome, length};
ghost use Rattle.std.specs.List.{list_any};
ghost use Rattle.session_answers.specs.HostedSessions.{is_refused};

use crate::client_streams::ClientStreams;
use crate::host_threads::SeatThread;
use batch_book::{ExchangeName, History};

/// Shows that so many threads are there: it is made of them alone.
#[derive(Clone, Copy)]
pub struct ThreadsStarted {
    threads: usize,
}

impl ThreadsStarted {
    /// What these show, where each is a thread.
    pub(crate) fn of<L: ExchangeName, D: ClientStreams, K: History>(
        started: &[SeatThread<'_, L, D, K>],
    ) -> Option<ThreadsStarted>
        ensures threads { IfSome result (λ there. there.threads ≡ length started.now) }
        ensures all { IfSome result (λ _. list_any is_refused started.now ≡ false) }
    {
        for one in started {
            if let SeatThread::Refused(_) = one {
                return None;
            }
        }
        Some(ThreadsStarted {
            threads: started.len(),
        })
    }

    /// How many there are.
    pub fn threads(self) -> usize
        ensures { result ≡ self.threads }
    {
        self.threads
    }
}

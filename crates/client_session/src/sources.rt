//! Which refusal one of the book is, and one of a run.

ghost use Rattle.std.specs.Prelude.{◌≡◌};
ghost use Rattle.client_session.specs.Sources.{of_book, of_run};

use refusals::Refusal;
use setting_runner::RunRefusal;

/// The refusal of a call which the book refused.
pub(crate) fn of_book(refusal: batch_book::BookRefusal) -> Refusal
    ensures { result ≡ of_book refusal }
{
    match refusal {
        batch_book::BookRefusal::HistoryFull => Refusal::HistoryFull,
        batch_book::BookRefusal::BookFull => Refusal::BookFull,
        batch_book::BookRefusal::Unknown => Refusal::Unknown,
        batch_book::BookRefusal::Unplanned => Refusal::Unplanned,
        batch_book::BookRefusal::Stranger => Refusal::Stranger,
        batch_book::BookRefusal::Already => Refusal::Already,
        batch_book::BookRefusal::Memory(fault) => Refusal::Memory(fault),
        batch_book::BookRefusal::NoMemory => Refusal::NoMemory,
    }
}

/// The refusal of a run that wasn't begun: [`Refusal::Shape`] where its plan has a module or a
/// block that the rack hasn't.
pub(crate) fn of_run(refusal: RunRefusal) -> Refusal
    ensures { result ≡ of_run refusal }
{
    match refusal {
        RunRefusal::Overlap(i, j) => Refusal::Overlap(i, j),
        RunRefusal::Shape => Refusal::Shape,
        RunRefusal::NoMemory => Refusal::NoMemory,
    }
}

//! Whether seats are all seats of their exchange.

ghost use Rattle.std.specs.Prelude.{◌↔◌, ◌≤◌, IsTrue};
ghost use Rattle.batch_book.specs.Seats.{parts_of};

use crate::naming::ExchangeName;
use crate::seat::Seat;
use progress_word::ALL_PARTS;

/// Whether these seats have all parts.
pub(crate) fn have_all_parts<L: ExchangeName>(seats: &[Seat<L>]) -> bool
    ensures { IsTrue result ↔ (ALL_PARTS ≤ parts_of seats.now) }
{
    let mut total = 0;
    for seat in seats {
        total += seat.parts();
        if total >= ALL_PARTS {
            return true;
        }
    }
    false
}

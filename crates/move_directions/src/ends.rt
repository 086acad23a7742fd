//! The two ends of each move as places, and their partners.

ghost use Rattle.std.specs.Prelude.{◌≡◌, ◌≤◌, ◌*◌, ℕ, length, None, slice_index_or};
ghost use Rattle.euler_split.specs.Pairs.{AreBalanced};
ghost use Rattle.move_directions.specs.Ends.{AreOtherEnds, module_of_end};
ghost use Rattle.move_directions.specs.Moves.{IsMoveList};

use crate::moves::Move;
use batch::{MAX_MODULES, MAX_TRANSFERS};
use euler_split::wait_or_pair;

/// Makes the two ends of each move partners.
pub(crate) fn join(count: usize, partners: &mut [Option<u16>])
    requires few { count ≤ MAX_TRANSFERS }
    requires sized { length partners.old ≡ 2 * count }
    requires empty { (place : ℕ) → slice_index_or partners.old place None ≡ None }
    ensures { AreOtherEnds (2 * count) partners.new }
{
    for t in 0..count {
        let source = 2 * t;
        partners[source] = Some(source as u16 + 1);
        partners[source + 1] = Some(source as u16);
    }
}

/// Pairs the ends at each module, two by two in their order.
pub(crate) fn pair_at_modules(moves: &[Move], partners: &mut [Option<u16>])
    requires list { IsMoveList moves.now }
    requires sized { length partners.old ≡ 2 * length moves.now }
    requires empty { (place : ℕ) → slice_index_or partners.old place None ≡ None }
    ensures { AreBalanced (module_of_end moves.now) (2 * length moves.now) partners.new }
{
    let mut waiting = [None; MAX_MODULES];
    for t in 0..moves.len() {
        let next = moves[t];
        wait_or_pair(&mut waiting, partners, next.source.module, 2 * t);
        wait_or_pair(&mut waiting, partners, next.destination.module, 2 * t + 1);
    }
}

//! Laws of directions and of the text of moves, proved of the definitions alone. None of them does
//! anything.

ghost use Rattle.move_directions.specs.Laws.{HalvedIsFewest, ModuleBounds, NeverBoth, OneFault};
ghost use Rattle.move_directions.specs.Laws.{OneMoveList};

/// A text denotes at most one list of moves, has at most one first fault, and never both.
pub fn one_reading()
    ensures moves { OneMoveList }
    ensures apart { NeverBoth }
    ensures fault { OneFault }
{}

/// Whatever directions moves are given, a schedule of them has at least half as many settings as
/// there are ends of moves at any module, rounded up: each of the module's two links has at most
/// one transfer in a setting.
pub fn busiest_module()
    ensures { ModuleBounds }
{}

/// A schedule with a certificate, of directions that [`direct`](crate::direct) gives, has half as
/// many settings as there are ends at the busiest module, rounded up. No schedule of any directions
/// has fewer.
pub fn directions()
    ensures { HalvedIsFewest }
{}

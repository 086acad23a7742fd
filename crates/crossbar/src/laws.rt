//! What commands do to the switch of a set of pairs, whatever is wired to it. These functions do
//! nothing: each states a law that callers may cite.

ghost use Rattle.std.specs.Prelude.{◌≡◌, List};
ghost use Rattle.std.specs.FinMap as map;
ghost use Rattle.crossbar.specs.Switch.{Switch, after_all};
ghost use Rattle.crossbar.specs.declared.chip.Wiring.{Wiring};
ghost use Rattle.crossbar.specs.declared.pair.Pair.{Pair};
ghost use Rattle.crossbar.specs.Pairs.{ArePairs, room_of, switch_of, setting, change};

/// A reset, the joins of the pairs and a settle turn any switch into the switch of the pairs. What
/// each command does is the INMOS IMS C004 data sheet's; that a setting is these is this project's
/// choice.
pub fn setting()
    ensures { (wiring : Wiring) (switch : Switch) (pairs : List Pair) →
        ArePairs (room_of wiring) pairs →
        after_all (setting wiring pairs) switch ≡ switch_of wiring pairs }
{}

/// From the switch of the old pairs it is enough to cut what isn't wanted any more, to join what is
/// new, and to settle: the result is the switch of the new pairs. What each command does is the
/// INMOS IMS C004 data sheet's; that a change is these is this project's choice.
pub fn change()
    ensures { (wiring : Wiring) (old new : List Pair) →
        ArePairs (room_of wiring) old → ArePairs (room_of wiring) new →
        after_all (change wiring old new) (switch_of wiring old) ≡ switch_of wiring new }
{}

//! Laws of the answers, proved of the definitions alone. None of them does anything.

ghost use Rattle.rack_answers.specs.Laws.{HeldIsSettled};

/// Where a setting joins the same pairs of modules as the one before, `switch` tells one byte for
/// each switch, which ends a sequence: nothing is cut or joined.
pub fn held_is_settled()
    ensures { HeldIsSettled }
{}

//! A law of the text of a wiring, proved of the definitions alone. It makes no call.

ghost use Rattle.board_wiring.specs.Laws.{NeverBoth, OneBadLine, OneWiring};

/// A text denotes at most one wiring, has at most one first line at fault, and never both.
pub fn one_reading()
    ensures wiring { OneWiring }
    ensures apart { NeverBoth }
    ensures line { OneBadLine }
{}

//! Laws of pictures. They do nothing.

ghost use Rattle.schedule_picture.specs.Laws.{NothingOverlaps, VerdictTellsFewest};
ghost use Rattle.schedule_picture.specs.Laws.{TellsNeededChanges};

/// In the picture of a schedule no cell lies over another, not even in part.
pub fn nothing_overlaps()
    ensures { NothingOverlaps }
{}

/// As many settings as a verdict tells are the fewest: no schedule of the batch has fewer, and each
/// that has a certificate, as a plan has, has just so many.
pub fn tells_fewest()
    ensures { VerdictTellsFewest }
{}

/// As many changes as a verdict tells partners are the fewest: no schedule of the batch, of
/// whatever length, changes the switch less often. And no schedule with as many settings as the one
/// that the verdict is on has fewer changes than it tells as the least.
pub fn tells_needed_changes()
    ensures { TellsNeededChanges }
{}

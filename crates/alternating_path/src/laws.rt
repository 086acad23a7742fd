//! A law of colourings, proved of their definitions alone. It does nothing.

ghost use Rattle.alternating_path.specs.Laws.{UnplacedFindRoom};

/// A link of a transfer that isn't placed has fewer placed transfers than uses. So a table with as
/// many colours as the most used link has uses refuses no transfer for want of room.
pub fn room()
    ensures { UnplacedFindRoom }
{}

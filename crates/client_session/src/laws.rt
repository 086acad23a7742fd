//! Laws of sessions. None of them does anything.

ghost use Rattle.client_session.specs.Laws.{OneMeaning};

/// A line is that of at most one command.
pub fn one_meaning()
    ensures { OneMeaning }
{}

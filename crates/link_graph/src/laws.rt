//! Laws of links and schedules, proved of the definitions alone. None of them does anything.

ghost use Rattle.std.specs.Prelude.{◌↔◌, IsTrue};
ghost use Rattle.link_graph.specs.Links.{StandsBefore};
ghost use Rattle.link_graph.specs.Laws.{CertifiedIsShortest, RightHasNoFault, OneFault, OneSaid};
ghost use Rattle.link_graph.specs.Laws.{NeverBoth, OneBadLine};

use crate::link::Link;

/// Whether a link stands before another: the order of [`Link`] is that of the definition.
pub fn link_order(a: Link, b: Link) -> bool
    ensures { IsTrue result ↔ StandsBefore a b }
{
    a < b
}

/// A schedule with a certificate is shortest: each setting of any schedule holds at most one of the
/// transfers that use the link. This is the easy half of König's theorem.
pub fn certified_is_shortest()
    ensures { CertifiedIsShortest }
{}

/// A schedule and a certificate that are right have no first fault, and others have at most one.
pub fn one_check()
    ensures right { RightHasNoFault }
    ensures fault { OneFault }
{}

/// A text says at most one schedule with its certificate, has at most one first line at fault, and
/// never both. So what [`Schedule::write`](crate::Schedule::write) gives is read back as it was.
pub fn one_reading()
    ensures said { OneSaid }
    ensures apart { NeverBoth }
    ensures line { OneBadLine }
{}

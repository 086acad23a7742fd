ghost use Rattle.std.specs.Prelude.{◌≡◌, ◌<◌};
ghost use Rattle.link_graph.specs.Links.{link_index, other_end};
ghost use Rattle.link_graph.specs.ScheduleText.{end_number};

use crate::limits::LINKS;
use batch::MAX_MODULES;
use std::fmt;

/// Which end of the wire between two modules a link is.
#[derive(Clone, Copy, Debug, PartialEq, Eq, PartialOrd, Ord)]
pub enum End {
    /// Link 0, the starting end: it sends the pokes and peeks of a module's own transfers.
    Zero,
    /// Link 3, the answering end: it answers the pokes and peeks of other modules.
    Three,
}

impl End {
    /// The link's number at a module: 0 or 3.
    pub fn number(self) -> usize
        ensures { result ≡ end_number self }
    {
        match self {
            End::Zero => 0,
            End::Three => 3,
        }
    }

    /// The end at the other side of a transfer.
    pub fn other(self) -> End
        ensures { result ≡ other_end self }
    {
        match self {
            End::Zero => End::Three,
            End::Three => End::Zero,
        }
    }
}

/// A link of a module, which may also be a module that no rack has.
///
/// In the order of links all links 0 stand before all links 3, and links of one kind by their
/// modules.
#[derive(Clone, Copy, Debug, PartialEq, Eq, PartialOrd, Ord)]
pub struct Link {
    pub end: End,
    /// The module's number, from 0.
    pub module: usize,
}

impl Link {
    /// The link's place in the order of links, from 0: the index of what a table keeps of it.
    pub fn index(self) -> usize
        requires { self.«module» < MAX_MODULES }
        ensures index { result ≡ link_index self }
        ensures below { result < LINKS }
    {
        match self.end {
            End::Zero => self.module,
            End::Three => MAX_MODULES + self.module,
        }
    }

    /// The link at this place in the order of links.
    pub(crate) fn at(index: usize) -> Link
        requires { index < LINKS }
        ensures index { link_index result ≡ index }
        ensures module { result.«module» < MAX_MODULES }
    {
        if index < MAX_MODULES {
            Link {
                end: End::Zero,
                module: index,
            }
        } else {
            Link {
                end: End::Three,
                module: index - MAX_MODULES,
            }
        }
    }
}

impl fmt::Display for Link {
    fn fmt<W: fmt::Write>(&self, f: &mut fmt::Formatter<W>) -> fmt::Result {
        let (end, module) = (self.end.number(), self.module);
        write!(f, "link {end} module {module}")
    }
}

ghost use Rattle.std.specs.Prelude.{◌≡◌};
ghost use Rattle.batch.specs.Places.{own_place, far_place, source_of, destination_of};

use crate::listed::Listed;

/// Which way a transfer moves its block.
#[derive(Clone, Copy, PartialEq, Eq)]
pub enum Kind {
    /// From the initiator to the responder: the initiator pokes its words into the responder.
    Push,
    /// From the responder to the initiator: the initiator peeks its words from the responder.
    Pull,
}

/// A block of a module, both numbered from 0.
#[derive(Clone, Copy, PartialEq, Eq)]
pub struct Place {
    pub module: usize,
    pub block: usize,
}

/// The move of one block between two modules, which may be the same one.
///
/// Either kind uses link 0 of the initiator and link 3 of the responder. Modules and blocks are
/// numbered from 0.
#[derive(Clone, Copy, PartialEq, Eq)]
pub struct Transfer {
    pub kind: Kind,
    pub initiator: usize,
    /// The initiator's block.
    pub own_block: usize,
    pub responder: usize,
    /// The responder's block.
    pub far_block: usize,
}

impl Transfer {
    /// The block that is read: the initiator's of a push, the responder's of a pull.
    pub fn source(&self) -> Place
        ensures { result ≡ source_of self.now }
    {
        match self.kind {
            Kind::Push => self.own_place(),
            Kind::Pull => self.far_place(),
        }
    }

    /// The block that is written: the responder's of a push, the initiator's of a pull.
    pub fn destination(&self) -> Place
        ensures { result ≡ destination_of self.now }
    {
        match self.kind {
            Kind::Push => self.far_place(),
            Kind::Pull => self.own_place(),
        }
    }

    fn own_place(&self) -> Place
        ensures { result ≡ own_place self.now }
    {
        Place {
            module: self.initiator,
            block: self.own_block,
        }
    }

    fn far_place(&self) -> Place
        ensures { result ≡ far_place self.now }
    {
        Place {
            module: self.responder,
            block: self.far_block,
        }
    }
}

impl Listed for Transfer {
    ghost use Rattle.batch.specs.Text.{batch_form, first_word};

    type Word = Kind;

    ghost form = { batch_form };

    ghost spelling = { first_word };

    fn heading() -> &'static str {
        "batch "
    }

    fn read_word(text: &[u8]) -> Option<(Kind, &[u8])> {
        if let Some(rest) = text.strip_prefix(b"push ") {
            return Some((Kind::Push, rest));
        }
        let rest = text.strip_prefix(b"pull ")?;
        Some((Kind::Pull, rest))
    }

    fn of(kind: Kind, own: Place, far: Place) -> Transfer {
        Transfer {
            kind,
            initiator: own.module,
            own_block: own.block,
            responder: far.module,
            far_block: far.block,
        }
    }

    fn word(&self) -> &'static str {
        match self.kind {
            Kind::Push => "push ",
            Kind::Pull => "pull ",
        }
    }

    fn places(&self) -> (Place, Place) {
        (self.own_place(), self.far_place())
    }
}

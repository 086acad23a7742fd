//! The switches of a rack, emulated.

ghost use Rattle.std.specs.Prelude.{◌≡◌, length};
ghost use Rattle.crossbar.specs.Chips.{both_idle, switch_at, CarriesOutAt, CarriesOutWholeAt};
ghost use Rattle.crossbar.specs.Port.{IsConversation, IsFront};

use crate::chip::Chip;
use crate::fuse::carry_whole;
use crate::port::carry_out;
use crate::switch::Crossbar;
use std::marker::Model;

/// A switch for each chip. Contracts see both.
#[derive(Drop)]
pub struct Chips {
    a: Crossbar,
    b: Crossbar,
}

impl Model for Chips {
    ghost use Rattle.crossbar.specs.Chips.{Switches, switches_code};

    ghost Value = { Switches };

    ghost coded = { switches_code };

    ghost view = { λ chips. record { a = chips.a; b = chips.b } };
}

impl Chips {
    /// Two new switches.
    pub fn new() -> Chips
        ensures { result ≡ both_idle }
    {
        Chips {
            a: Crossbar::new(),
            b: Crossbar::new(),
        }
    }

    /// The switch of a chip.
    pub fn crossbar(&self, chip: Chip) -> &Crossbar
        ensures { result.now ≡ switch_at chip self.now }
    {
        match chip {
            Chip::A => &self.a,
            Chip::B => &self.b,
        }
    }

    /// Carries out whole commands at a chip, in order, and fills the replies with the answers to
    /// their enquiries.
    pub fn carry_out(&mut self, chip: Chip, bytes: &[u8], replies: &mut [u8])
        requires { IsConversation bytes.now (length replies.old) }
        ensures { CarriesOutAt chip bytes.now self.old self.new replies.new }
    {
        match chip {
            Chip::A => carry_out(&mut self.a, bytes, replies),
            Chip::B => carry_out(&mut self.b, bytes, replies),
        }
    }

    /// Carries out the commands at a chip that are whole within the bytes, in order, and keeps no
    /// answer.
    pub fn carry_whole(&mut self, chip: Chip, bytes: &[u8])
        requires { IsFront bytes.now }
        ensures { CarriesOutWholeAt chip bytes.now self.old self.new }
    {
        match chip {
            Chip::A => carry_whole(&mut self.a, bytes),
            Chip::B => carry_whole(&mut self.b, bytes),
        }
    }
}

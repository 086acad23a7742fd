//! The numbers of the switch's link inputs and link outputs.

ghost use Rattle.std.specs.Prelude.{◌≡◌, ◌<◌};
ghost use Rattle.std.specs.Option.{SomeIff};

use std::marker::Model;

/// How many link inputs the chip has, and how many link outputs (INMOS IMS C004 data sheet).
pub const PORTS: u8 = 32;

/// The number of a link input or of a link output, below [`PORTS`] (INMOS IMS C004 data sheet).
/// Contracts see the number.
#[derive(Clone, Copy, PartialEq, Eq)]
pub struct PortNo {
    number: u8,
}

impl Model for PortNo {
    ghost use Rattle.std.specs.Prelude.{ℕ, ◌<◌};
    ghost use Rattle.c004_commands.specs.declared.port.TheConstants.{PORTS};

    ghost Value = { ℕ };

    ghost view = { λ port. port.number };

    ghost invariant = { λ port. port.number < PORTS };

    ghost inverse = { λ number. record { number = number } };
}

impl PortNo {
    /// The port of this number, or `None` where the number isn't below [`PORTS`].
    pub fn new(number: u8) -> Option<PortNo>
        ensures { SomeIff result (number < PORTS) number }
    {
        if number < PORTS {
            Some(PortNo { number })
        } else {
            None
        }
    }

    /// The port's number.
    pub fn get(self) -> u8
        ensures number { result ≡ self }
        ensures range { result < PORTS }
    {
        self.number
    }
}

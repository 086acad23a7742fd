//! Why a setting couldn't be put on the switches of a rack.

ghost use Rattle.std.specs.Prelude.{◌≡◌};
ghost use Rattle.switch_settings.specs.Answers.{number_of};

use c004_commands::{PORTS, PortNo};
use crossbar::{Chip, PortFault};

/// Why a setting couldn't be put on the switches of a rack.
#[derive(Clone, Copy)]
pub enum SettingFault {
    /// The port to the switches failed, as the setting was sent or as the outputs were asked.
    Port,
    /// An output doesn't reply what the setting calls for, and all before it do.
    Switch(Disagreement),
}

/// The first output that doesn't reply what a setting calls for. A reply that a switch never gives
/// is no such reply.
#[derive(Clone, Copy)]
pub struct Disagreement {
    /// The output's switch.
    pub chip: Chip,
    /// The output.
    pub output: PortNo,
    /// The number of the input that the setting calls for, or none where the output is to be loose.
    pub wanted: Option<u8>,
    /// The reply.
    pub came: u8,
}

impl Disagreement {
    /// The output's number in a rack, 0 to 63: those of the second switch stand after those of the
    /// first.
    pub fn number(&self) -> u8
        ensures { result ≡ number_of self.now }
    {
        match self.chip {
            Chip::A => self.output.get(),
            Chip::B => PORTS + self.output.get(),
        }
    }
}

impl From<PortFault> for SettingFault {
    ghost use Rattle.std.specs.Prelude.{◌≡◌};
    ghost use Rattle.switch_settings.specs.declared.fault.SettingFault.TheVariants.{Port};

    ghost from_gives = { λ _ gives. gives ≡ Port };

    fn from(_fault: PortFault) -> SettingFault {
        SettingFault::Port
    }
}

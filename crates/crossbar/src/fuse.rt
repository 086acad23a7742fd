//! A port that fails after so many bytes.

ghost use Rattle.std.specs.Prelude.{◌≡◌, ◌+◌, ◌↔◌, length, Some, None, IsOk, OnOk, OnErr};
ghost use Rattle.crossbar.specs.Port.{IsConversation, IsFront, CarriesOutWhole};
ghost use Rattle.crossbar.specs.Chips.{both_idle, switch_at};

use crate::chip::Chip;
use crate::chips::Chips;
use crate::port::{ConfigPort, PortFault};
use crate::switch::Crossbar;
use byte_streams::FailureCount;
use c004_commands::CommandReader;
use std::marker::Model;

/// An honest port to a switch in memory for each chip, which takes so many bytes over all its
/// calls, to whichever chip they go. A call with more bytes than are left fails, and so does each
/// call after it. It takes no memory. Such a port is this project's own, and shows what a failing
/// port leaves.
#[derive(Drop)]
pub struct FusePort {
    chips: Chips,
    // How many bytes it still takes, and nothing once it has failed.
    remaining: Option<usize>,
    failed: FailureCount,
}

impl Model for FusePort {
    ghost use Rattle.crossbar.specs.Fuse.{Fuse, fuse_code};

    ghost Value = { Fuse };

    ghost coded = { fuse_code };

    ghost view = { λ port. record {
      switches = port.chips;
      remaining = port.remaining;
      failures = port.failed;
    } };
}

impl FusePort {
    /// A port to new switches, which takes so many bytes.
    pub fn new(bytes: usize) -> FusePort
        ensures { result ≡ record { switches = both_idle; remaining = Some bytes; failures = 0 } }
    {
        FusePort {
            chips: Chips::new(),
            remaining: Some(bytes),
            failed: FailureCount::zero(),
        }
    }

    /// The switch of a chip.
    pub fn crossbar(&self, chip: Chip) -> &Crossbar
        ensures { result.now ≡ switch_at chip self.now.switches }
    {
        self.chips.crossbar(chip)
    }
}

impl ConfigPort for FusePort {
    ghost use Rattle.std.specs.Prelude.{true};
    ghost use Rattle.crossbar.specs.Fuse.{HasRemaining, remaining_after, Carries, CarriesRemaining};

    ghost switches = { λ port. port.switches };

    ghost honest = { λ _. true };

    ghost failures = { λ port. port.failures };

    /// Takes time by the number of bytes. Where the bytes are more than are left, the commands that
    /// are whole within those that are left are carried out, and the port fails from then on. A
    /// call that fails leaves the replies as they were.
    fn converse(&mut self, chip: Chip, bytes: &[u8], replies: &mut [u8]) -> Result<(), PortFault>
        requires { IsConversation bytes.now (length replies.old) }
        ensures done { OnOk result (Carries chip bytes.now self.old self.new replies.new) }
        // It takes the bytes just where they are within those that are left.
        ensures within { IsOk result ↔ HasRemaining self.old.remaining (length bytes.now) }
        ensures remaining { OnOk result
            (self.new.remaining ≡ remaining_after self.old.remaining (length bytes.now)) }
        ensures whole { OnErr result (CarriesRemaining chip bytes.now self.old self.new) }
        ensures ends { OnErr result (self.new.remaining ≡ None) }
        ensures replies { OnErr result (replies.new ≡ replies.old) }
        ensures fault { OnErr result (self.new.failures ≡ self.old.failures + 1) }
        ensures unfailed { OnOk result (self.new.failures ≡ self.old.failures) }
    {
        let Some(remaining) = self.remaining else {
            self.failed.raise();
            return Err(PortFault);
        };
        if bytes.len() <= remaining {
            self.chips.carry_out(chip, bytes, replies);
            self.remaining = Some(remaining - bytes.len());
            return Ok(());
        }
        self.chips.carry_whole(chip, &bytes[..remaining]);
        self.remaining = None;
        self.failed.raise();
        Err(PortFault)
    }
}

/// Carries out the commands that are whole within the bytes, in order, and keeps no answer.
pub(crate) fn carry_whole(crossbar: &mut Crossbar, bytes: &[u8])
    requires { IsFront bytes.now }
    ensures { CarriesOutWhole bytes.now crossbar.old crossbar.new }
{
    let mut reader = CommandReader::new();
    for byte in bytes {
        let Ok(given) = reader.feed(*byte) else {
            unreachable!();
        };
        if let Some(command) = given {
            // What an enquiry answers goes to nobody.
            let _answer = crossbar.apply(command);
        }
    }
}

//! The port through which the switches of a rack are set and asked.

ghost use Rattle.std.specs.Prelude.{◌≡◌, ◌<◌, ◌≤◌, ◌+◌, ◌++◌, Bool, true, ℕ, List, Option, None};
ghost use Rattle.std.specs.Prelude.{IsTrue, length, take, IsOk, OnOk, OnErr};
ghost use Rattle.std.specs.Option.{option_to_list};
ghost use Rattle.crossbar.specs.Switch.{after_all, answers, enquiries};
ghost use Rattle.crossbar.specs.Chips.{Switches, both_idle, switch_at, CarriesOutAt};
ghost use Rattle.crossbar.specs.Port.{IsConversation, CarriesOut};
ghost use Rattle.crossbar.specs.Traffic.{HaveConversed, BreaksOff};
ghost use Rattle.crossbar.specs.declared.traffic.Passing.{Passing};

use crate::chip::Chip;
use crate::chips::Chips;
use crate::switch::Crossbar;
use c004_commands::{Command, CommandReader};
use std::marker::Model;
use thiserror::Error;

/// The port failed. Which of the commands the switches have carried out isn't known. That a port
/// may fail is this project's choice.
#[derive(Clone, Copy, Debug, Error)]
#[error("the port to the switch failed")]
pub struct PortFault;

/// The controller's way to the switches of a rack: command bytes go out to one of them, and the
/// answers to enquiries come back (INMOS IMS C004 data sheet, configuration link). That a port
/// takes whole commands at a time, and counts its failures over all switches, is this project's
/// choice.
pub trait ConfigPort {
    // The switches at the port's other end.
    ghost switches: { Self → Switches };
    // Whether the port carries out what it answers Ok to. No call changes it.
    ghost honest: { Self → Bool };
    // How often the port has failed.
    ghost failures: { Self → ℕ };
    // The bytes that have passed, in order, where the port tells them.
    ghost passed: { Self → Option (List Passing) } = { λ _. None };

    /// Sends the bytes of whole commands to a chip, and fills `replies` with the answers to their
    /// enquiries, in order. The other chip stays as it is. What passes is told as if each reply
    /// were heard before the next command is sent: a link adaptor holds a byte each way, so a port
    /// to a real switch has to do so.
    fn converse(&mut self, chip: Chip, bytes: &[u8], replies: &mut [u8]) -> Result<(), PortFault>
        requires { IsConversation bytes.now (length replies.old) }
        ensures done { IsTrue (honest self.old) → OnOk result
            (CarriesOutAt chip bytes.now (switches self.old) (switches self.new) replies.new) }
        // A fault is a failure in this call, and there are no others. They are never taken back.
        ensures fault { OnErr result (failures self.old < failures self.new) }
        ensures counted { failures self.old ≤ failures self.new }
        ensures unfailed { OnOk result (failures self.new ≡ failures self.old) }
        ensures honesty { honest self.new ≡ honest self.old }
        // The commands were sent and the replies heard, each after its enquiry; where it failed, a
        // front of that.
        ensures passed { OnOk result
            (HaveConversed chip bytes.now replies.new (passed self.old) (passed self.new)) }
        ensures broken { OnErr result
            (BreaksOff chip bytes.now (passed self.old) (passed self.new)) };
}

/// A port to a switch in memory for each chip (INMOS IMS C004 data sheet). It is honest and never
/// fails. Contracts see the switches.
#[derive(Drop)]
pub struct MemoryPort {
    chips: Chips,
}

impl Model for MemoryPort {
    ghost use Rattle.crossbar.specs.Chips.{Switches, switches_code};

    ghost Value = { Switches };

    ghost coded = { switches_code };

    ghost view = { λ port. port.chips };
}

impl MemoryPort {
    /// A port to new switches.
    pub fn new() -> MemoryPort
        ensures { result ≡ both_idle }
    {
        MemoryPort {
            chips: Chips::new(),
        }
    }

    /// The switch of a chip.
    pub fn crossbar(&self, chip: Chip) -> &Crossbar
        ensures { result.now ≡ switch_at chip self.now }
    {
        self.chips.crossbar(chip)
    }
}

impl ConfigPort for MemoryPort {
    ghost switches = { λ port. port };

    ghost honest = { λ _. true };

    ghost failures = { λ _. 0 };

    /// Takes time by the number of bytes, and never fails.
    fn converse(&mut self, chip: Chip, bytes: &[u8], replies: &mut [u8]) -> Result<(), PortFault>
        requires { IsConversation bytes.now (length replies.old) }
        ensures done { CarriesOutAt chip bytes.now self.old self.new replies.new }
        ensures never_fails { IsOk result }
    {
        self.chips.carry_out(chip, bytes, replies);
        Ok(())
    }
}

/// Carries out whole commands, in order, and fills the replies with the answers to their enquiries.
pub(crate) fn carry_out(crossbar: &mut Crossbar, bytes: &[u8], replies: &mut [u8])
    requires { IsConversation bytes.now (length replies.old) }
    ensures { CarriesOut bytes.now crossbar.old crossbar.new replies.new }
{
    let mut reader = CommandReader::new();
    let mut answered = 0;
    for byte in bytes {
        let Ok(given) = reader.feed(*byte) else {
            unreachable!();
        };
        answered = carry_given(crossbar, given, replies, answered);
    }
}

/// Carries out a command, if there is one, writes its answer after those that stand, and says how
/// many stand then.
fn carry_given(
    crossbar: &mut Crossbar,
    given: Option<Command>,
    replies: &mut [u8],
    answered: usize,
) -> usize
    requires { answered + enquiries (option_to_list given) ≤ length replies.old }
    ensures switch { crossbar.new ≡ after_all (option_to_list given) crossbar.old }
    ensures count { result ≡ answered + enquiries (option_to_list given) }
    ensures replies { take result replies.new
        ≡ take answered replies.old ++ answers (option_to_list given) crossbar.old }
{
    let Some(command) = given else {
        return answered;
    };
    match crossbar.apply(command) {
        Some(answer) => {
            replies[answered] = answer;
            answered + 1
        }
        None => answered,
    }
}

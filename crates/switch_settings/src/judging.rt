//! Whether an output of a switch replies what pairs call for.

ghost use Rattle.std.specs.Prelude.{◌≡◌, ◌<◌, ◌↔◌, IsTrue, OnOk, IfErr, IfSome};
ghost use Rattle.std.specs.FinMap as map;
ghost use Rattle.c004_commands.specs.declared.port.TheConstants.{PORTS};
ghost use Rattle.crossbar.specs.Chips.{switch_at};
ghost use Rattle.crossbar.specs.Pairs.{ArePairs, room_of, switch_of};
ghost use Rattle.crossbar.specs.declared.chip.Chip.TheVariants.{A};
ghost use Rattle.switch_settings.specs.Answers.{Agrees, Reports, seen};
ghost use Rattle.switch_settings.specs.declared.fault.SettingFault.TheVariants.{Switch};

use crate::bytes::WIDE_CHANGE_BYTES;
use crate::fault::{Disagreement, SettingFault};
use crate::sending::bytes_for;
use c004_commands::{OutputState, PortNo};
use crossbar::{Chip, ConfigPort, MemoryPort, Pair, Wiring};

/// A switch in memory that has been set to the pairs, as the first of its port. These are as
/// [`bytes_for`] wants them.
pub fn wanted_switch(wiring: Wiring, pairs: &[Pair]) -> MemoryPort
    requires { ArePairs (room_of wiring) pairs.now }
    ensures { switch_at A result ≡ switch_of wiring pairs.now }
{
    let mut bytes = [0; WIDE_CHANGE_BYTES];
    let number = bytes_for(wiring, &None, pairs, &mut bytes);
    let mut wanted = MemoryPort::new();
    // A port in memory never fails.
    let _ = wanted.converse(Chip::A, &bytes[..number], &mut []);
    wanted
}

/// Judges the reply of an output of a chip by the switch that is wanted. Takes constant time.
pub fn judge(chip: Chip, wanted: &MemoryPort, output: PortNo, came: u8) -> Result<(), SettingFault>
    ensures agrees { OnOk result (Agrees (switch_at A wanted.now) output came) }
    ensures differs { IfErr result (λ fault.
        (fault ≡ Switch (seen chip (switch_at A wanted.now) output came))
        × (Agrees (switch_at A wanted.now) output came → ⊥)) }
{
    let wanted = source_in(wanted, output);
    if reports(wanted, came) {
        return Ok(());
    }
    Err(SettingFault::Switch(Disagreement {
        chip,
        output,
        wanted,
        came,
    }))
}

/// The input that feeds this output of the first switch of a port in memory, if one does.
fn source_in(port: &MemoryPort, output: PortNo) -> Option<u8>
    ensures source { result ≡ map.get (switch_at A port.now).sources output }
    ensures range { IfSome result (λ input. input < PORTS) }
{
    match port.crossbar(Chip::A).source_of(output) {
        Some(input) => Some(input.get()),
        None => None,
    }
}

/// Whether a reply says that this input feeds the output, or that none does.
fn reports(wanted: Option<u8>, reply: u8) -> bool
    requires { IfSome wanted (λ input. input < PORTS) }
    ensures { IsTrue result ↔ Reports wanted reply }
{
    let Ok(state) = OutputState::read(reply) else {
        return false;
    };
    match state {
        OutputState::Connected(input) => wanted == Some(input.get()),
        OutputState::Loose => wanted.is_none(),
    }
}

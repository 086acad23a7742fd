//! The calls of a switch, over a state of their caller.

ghost use Rattle.std.specs.Prelude.{◌≡◌};
ghost use Rattle.link_devices.specs.SwitchStates.{IsSwitchState, kept_end, new_switch_end};
ghost use Rattle.exchange_c.specs.States.{TakesByte, TellsSource, TellsJoined, fault_code};

use crate::status::{LOOSE, NO_PORT, NO_STATE, REPLY};
use link_devices::{AskFault, SwitchState, TakeFault};
use plan_answers::{DONE, REFUSED};

/// Makes the state that of a switch as after a reset, to which nothing has come.
#[unsafe(no_mangle)]
pub extern "C" fn exchange_c004_reset(state: &mut SwitchState)
    ensures state { IsSwitchState state.new }
    ensures new { kept_end state.new ≡ new_switch_end }
{
    *state = SwitchState::reset();
}

/// Takes the next byte of the configuration link. Where a reply is due it stands in `reply`, and
/// else that is as it was.
#[unsafe(no_mangle)]
pub extern "C" fn exchange_c004_take(state: &mut SwitchState, byte: u8, reply: &mut u8) -> u8
    ensures { TakesByte state.old byte result state.new reply.old reply.new }
{
    match state.take(byte) {
        Ok(None) => DONE,
        Ok(Some(answer)) => {
            *reply = answer;
            REPLY
        }
        Err(TakeFault::Byte(_)) => REFUSED,
        Err(TakeFault::NoSwitch) => NO_STATE,
    }
}

/// The input that feeds an output.
#[unsafe(no_mangle)]
pub extern "C" fn exchange_c004_source(state: &SwitchState, output: u8) -> u8
    ensures { TellsSource state.now output result }
{
    match state.source(output) {
        Ok(Some(input)) => input,
        Ok(None) => LOOSE,
        Err(fault) => code_of(fault),
    }
}

/// Whether two links feed each other, and the switch is ready: 1 or 0.
#[unsafe(no_mangle)]
pub extern "C" fn exchange_c004_joined(state: &SwitchState, link: u8, other: u8) -> u8
    ensures { TellsJoined state.now link other result }
{
    match state.joined(link, other) {
        Ok(joined) => u8::from(joined),
        Err(fault) => code_of(fault),
    }
}

/// What is told of a fault in place of an answer.
fn code_of(fault: AskFault) -> u8
    ensures { result ≡ fault_code fault }
{
    match fault {
        AskFault::NoPort => NO_PORT,
        AskFault::NoSwitch => NO_STATE,
    }
}

//! The calls of a link's end that waits to boot, over a state and memory of their caller.

ghost use Rattle.std.specs.Prelude.{◌≡◌};
ghost use Rattle.link_devices.specs.BootStates.{IsBootState, new_boot_end, pending_of};
ghost use Rattle.exchange_c.specs.States.{FeedsByte, fault_status};

use crate::status::{BOOTSTRAP, FAILED, MISALIGNED, NO_STATE, OUTSIDE, REPLY};
use link_devices::{BootFault, BootState};
use peek_poke::{AnswerFault, REPLY_BYTES};
use plan_answers::DONE;

/// Makes the state that of an end to which nothing has come.
#[unsafe(no_mangle)]
pub extern "C" fn exchange_boot_reset(end: &mut BootState)
    ensures state { IsBootState end.new }
    ensures new { pending_of end.new ≡ new_boot_end }
{
    *end = BootState::reset();
}

/// Takes the next byte of a link, over the memory of its module, which begins at the address
/// `base`. Where a word is due its bytes stand in `reply`, and else those are as they were.
#[unsafe(no_mangle)]
pub extern "C" fn exchange_boot_take(
    end: &mut BootState,
    memory: &mut [u8],
    base: u32,
    byte: u8,
    reply: &mut [u8; REPLY_BYTES],
) -> u8
    ensures { FeedsByte base end.old memory.old byte result end.new memory.new reply.old reply.new }
{
    match end.take(memory, base, byte) {
        Ok(None) => DONE,
        Ok(Some(word)) => {
            *reply = word;
            REPLY
        }
        Err(fault) => status_of(fault),
    }
}

/// The status of a fault.
fn status_of(fault: BootFault) -> u8
    ensures { result ≡ fault_status fault }
{
    match fault {
        BootFault::NoEnd => NO_STATE,
        BootFault::Refused(AnswerFault::Boot(_)) => BOOTSTRAP,
        BootFault::Refused(AnswerFault::Misaligned) => MISALIGNED,
        BootFault::Refused(AnswerFault::Outside) => OUTSIDE,
        BootFault::Refused(AnswerFault::Failed) => FAILED,
    }
}

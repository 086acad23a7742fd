//! What is at the far end of a link, and is handed its bytes: an IMS C004 at its configuration
//! link, and an IMS T414 that waits to boot.
//!
//! [`SwitchEnd::take`] takes a byte at a time (`HasTaken` of `specs/End.antt`). [`answer_commands`]
//! hands it all bytes of a stream, and writes its replies (`HasAnsweredInput` of
//! `specs/Answering.antt`). `exchange` calls both for `c004`.
//!
//! A [`SwitchState`] is such a switch as plain bytes that its caller keeps (`SwitchTakesByte` of
//! `specs/SwitchTaking.antt`). A [`BootState`] is the end of a link of a module, as plain bytes
//! too, over memory that its caller lends (`EndTakesByte` of `specs/BootTaking.antt`). `exchange_c`
//! calls these, and any emulator may. No call over a state takes memory, or trusts its bytes: those
//! that no switch, or no end, has are refused, and nothing changes.
#![tactic(auto)]

mod answering;
mod asking;
mod boot_fault;
mod boot_state;
mod end;
mod fault_line;
mod memory;
mod switch_fault;
mod switch_state;
mod taking;

pub use answering::{EndFault, answer_commands};
pub use boot_fault::BootFault;
pub use boot_state::BootState;
pub use end::SwitchEnd;
pub use switch_fault::{AskFault, TakeFault};
pub use switch_state::SwitchState;

//! The answer of the command that drives the switches of a rack, from the bytes of its texts to the
//! last line that is printed and its status.
//!
//! The ports of the switches, and the observer that is called for each setting that stands, are the
//! caller's: [`Ports`] and [`DriveObserver`](switch_driver::DriveObserver). The settings from the
//! one that is named on were driven over the ports of these names, which were opened for them,
//! once, and the last line says how that ended. Or it is a refusal: then no port was handed over,
//! nothing was sent, and nothing was told (`IsDriveAnswer` of `specs/Answers.antt`; `HasFailed`
//! where there is no answer).
#![tactic(auto)]

mod drive_end;
mod driving;
mod ending;
mod fault;
mod names;
mod output_mismatch;
mod port_trace;
mod ports;

pub use drive_end::DriveEnd;
pub use driving::answer_drive;
pub use fault::DriveFault;
pub use names::PortNames;
pub use output_mismatch::OutputMismatch;
pub use port_trace::PortTrace;
pub use ports::{PortFailure, PortFile, Ports};

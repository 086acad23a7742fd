//! The settings of a schedule on switches that stand somewhere else: each is sent, asked for and
//! told, and stands until the next one may come.
//!
//! [`drive`] wants a port that tells what passes. It tells a setting only after traffic in which
//! its bytes went whole, each output replied as it calls for, and the end of the sequence was sent
//! again; each reply is judged before the next output is asked. A setting of the pairs that stand
//! already is told without any. The next one's bytes go only after that (`IsDriven` of
//! `specs/Driving.antt`; `Stands` of `specs/Steps.antt`). A setting that couldn't be set is named
//! with its cause, and isn't told (`HasDriveCause`). Where [`LineObserver`] wait, the next setting
//! comes only after one line that was read (`HasToldLine` of `specs/Lines.antt`).
//!
//! What a [`StreamPort`] noted as sent was written to the stream of that switch, and what it noted
//! as heard was read from it (`HasTried` of `specs/Ports.antt`). Before that each switch comes up,
//! once (`CameUp` of `specs/ComingUp.antt`); until that went well, nothing else is sent to it.
#![tactic(auto)]

mod drive_observer;
mod driving;
mod lines;
mod port;
mod setting;
mod stream;
mod switch_start;

pub use drive_observer::{DriveObserver, Halt};
pub use driving::{DriveOutcome, drive};
pub use lines::LineObserver;
pub use port::StreamPort;
pub use stream::{StreamFault, SwitchStream};

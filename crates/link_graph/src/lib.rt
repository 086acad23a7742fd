//! The links that transfers use, schedules of switch settings, and the text of a schedule.
//!
//! Seen as a graph, a batch has the links of the modules as its nodes and the transfers as its
//! edges: each joins link 0 of its initiator to link 3 of its responder (`Uses` of
//! `specs/Uses.antt`). Links have an order (`laws::link_order`). A [`LinkGraph`] tells how many
//! transfers use a link, and which link is busiest (`specs/Counts.antt`).
//!
//! [`check_schedule`] answers Ok exactly where the settings are a schedule of the batch with a
//! certificate (`IsScheduleOf`, `IsCertificate`), lack of memory aside. Then no schedule is shorter
//! (`IsShortest`, `laws::certified_is_shortest`). Else it names the first fault
//! (`IsFirstCheckFault` of `specs/Checks.antt`), and there is one at most (`laws::one_check`).
//! [`Schedule::read`] gives what a text says, or its first line at fault; a text has one of each at
//! most, and never both (`laws::one_reading`). [`Schedule::write`] gives the one text of a schedule
//! and of its certificate.
#![tactic(auto)]

mod certificate;
mod check_fault;
mod checker;
mod checking;
mod counting;
mod graph;
pub mod laws;
mod limits;
mod link;
mod mask;
mod numbers;
mod reading;
mod schedule;
mod schedule_fault;
mod settings;
mod writing;

pub use certificate::Certificate;
pub use check_fault::CheckFault;
pub use checker::{Shortest, check_schedule};
pub use graph::LinkGraph;
pub use limits::LINKS;
pub use link::{End, Link};
pub use mask::{Masks, has_module, lowest};
pub use schedule::Schedule;
pub use schedule_fault::ScheduleFault;
pub use settings::SettingsIter;

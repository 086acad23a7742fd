//! Schedules of batches: shortest ones with their certificates, and first fit.
//!
//! [`schedule`] gives a plan of the batch that was handed in, whatever the number of workers
//! (`IsPlan` of `specs/Plans.antt`). So does each [`Planner`]: whatever has threads, and
//! [`NoThreads`], for callers that have none. The plan's schedule is shortest, as its certificate
//! shows, which names the busiest link with all its transfers. No setting is empty, numbers ascend
//! in each, and settings are ordered by their least numbers. At most three quarters of the
//! transfers are put in one by one, and none where the busiest link's uses are 0 or a power of two
//! (`AreFew` of `specs/Reinsertions.antt`). The type [`Planned`] keeps all this.
//!
//! [`schedule_in_steps`] counts the steps of all workers: they are at most `most_steps` of
//! `specs/Steps.antt`, and `one_link_steps` where one link is in all transfers. A step is one round
//! of a loop that no constant bounds, or one word that is copied or filled there; `tools/steps.txt`
//! names what counts none, with the reason of each.
//!
//! [`first_fit`] gives a schedule that may be longer than needed: each transfer stands in the first
//! setting in which no smaller number uses one of its links (`IsFirstFit` of
//! `specs/FirstFit.antt`).
#![tactic(auto)]

mod colouring;
mod degree;
mod gate;
mod greedy;
mod halving;
mod planned;
mod planner;
mod planning;
mod workers;

pub use gate::{Gate, OpenGate};
pub use greedy::first_fit;
pub use planned::Planned;
pub use planner::{NoThreads, Planner};
pub use planning::{schedule, schedule_in_steps};
pub use workers::Workers;

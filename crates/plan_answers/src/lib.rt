//! The answers of the commands that need no rack: from the bytes of their texts to the bytes that
//! are printed, and the status that the program ends with.
//!
//! Each `answer_` function reads its texts, does what the command asks for, and gives an
//! [`Answer`]: what was asked for, or the line of the refusal of what is first wrong. It reads no
//! file and prints nothing. Only [`answer_plan`] and [`Scheduled::read`] may start threads, by the
//! [`Planner`](schedule_certificate::Planner) that they are handed; the latter is for answers that
//! are made elsewhere.
//!
//! What the answers are is said by `IsPlanned` and `IsChecked` of `specs/Answers.antt`, `IsDrawn`
//! of `specs/Drawings.antt`, `IsPriced` of `specs/Pricing.antt` and `IsDirected` of
//! `specs/Directing.antt`; what a schedule's source gives, by `specs/Schedules.antt`. Of `check`
//! there is one answer at most.
#![tactic(auto)]

mod answer;
mod checking;
mod counting;
mod directing;
mod drawing;
mod limits;
mod planning;
mod pricing;
mod schedule_texts;
mod scheduled;
mod setting_range;
mod source;
mod texts;
mod validity;

pub use answer::Answer;
pub use checking::answer_check;
pub use counting::answer_changes;
pub use directing::answer_direct;
pub use drawing::answer_draw;
pub use limits::{DONE, REFUSED};
pub use planning::answer_plan;
pub use pricing::answer_prices;
pub use scheduled::Scheduled;
pub use source::{Planning, ScheduleSource};

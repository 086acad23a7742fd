//! The answers of `run`, `apply`, `switch` and `orders`, which a rack, its switches or its modules
//! take part in, and no session: from the bytes of their texts to the bytes that are printed, and
//! the status that the program ends with.
//!
//! Each `answer_` function reads its texts, does what the command asks for, and gives an
//! [`Answer`](plan_answers::Answer): what was asked for, or the line of the refusal of what is
//! first wrong. It reads no file and prints nothing. `answer_run` may start threads, and
//! `answer_switch` and `answer_orders` may, by the
//! [`Planner`](schedule_certificate::Planner) that they are handed.
//!
//! What the answers are is said by `IsRunAnswer` and `IsApplied` of `specs/Answers.antt`, by
//! `IsSwitched` of `specs/Switching.antt`, and by `IsOrdered` of `specs/Orders.antt`. There is one
//! answer at most of `run` but by a steady plan.
#![tactic(auto)]

mod applying;
pub mod laws;
mod opening;
mod ordering;
mod report;
mod running;
mod spaced;
mod switching;

pub use applying::answer_apply;
pub use opening::read_rack;
pub use ordering::answer_orders;
pub use running::answer_run;
pub use switching::answer_switch;

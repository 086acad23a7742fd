//! Edge colourings of the graph of a batch, made by inserting one transfer after the other.
//!
//! The nodes of the graph are the links of the modules, its edges the transfers; each edge joins a
//! link 0 to a link 3. A [`Table`] gives some of the transfers a colour so that no two transfers of
//! one colour use a common link (`IsProper` of `specs/Colouring.antt`). As long as its links aren't
//! full, another transfer can be put in: where the colour that is free at the one link is taken at
//! the other, two colours change places along an alternating path (König 1916). The colours that
//! hold something are the settings of a schedule.
//!
//! [`Table::insert`] refuses a transfer exactly where it is placed already or one of its links is
//! full. Else the transfers placed are those of before and this one. A table with as many colours
//! as the busiest link has uses never lacks room (`laws::room`). [`Table::take_back`] gives up the
//! first of the smallest colours and hands its transfers back (`IsTakenBack`).
//! [`Table::into_schedule`] gives the colours that hold something, each once (`AreClassesOf`);
//! where all transfers are placed, they are a schedule.
#![tactic(auto)]

mod classes;
mod coloured;
mod fault;
pub mod laws;
mod rows;
mod table;

pub use coloured::Coloured;
pub use fault::InsertFault;
pub use table::Table;

//! What each module of a rack does in the settings of a schedule: its orders, and their text.
//!
//! [`RackOrders::of`] gives the orders of all modules: for each setting what a module sends or
//! receives over link 0 and over link 3 (`orders_of` of `specs/Orders.antt`). A module sends the
//! copy of a block, which it makes before the first setting, exactly where another transfer changes
//! the block in that setting or in one before it. [`RackOrders::write`] gives the one text of them
//! (`orders_text` of `specs/OrdersText.antt`).
//!
//! Modules that obey, setting by setting, in whatever order words pass within a setting, leave each
//! destination with the words that its source had, and all else as it was (`laws::obeying`, over
//! `specs/Obeying.antt`).
#![tactic(auto)]

mod changed;
pub mod laws;
mod module;
mod order;
mod rack;
mod writing;

pub use module::ModuleOrders;
pub use order::{Act, Order};
pub use rack::RackOrders;

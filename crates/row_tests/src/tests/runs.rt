//! The bytes that go to the switch, runs over ports and wires that record, fail or answer wrongly,
//! and when and by whom wires are made. What runs over ports and wires that never fail leave in the
//! blocks is shown by rows of `run`.

mod bytes;
mod carried;
mod cuts;
mod ports;
mod wires;
mod workers;

//! The links of the switch that a module is on.

/// The links of the switch that link 0 and link 3 of a module are on, as numbers below
/// [`PORTS`](c004_commands::PORTS).
#[derive(Clone, Copy)]
pub struct ModuleLinks {
    pub link0: u8,
    pub link3: u8,
}

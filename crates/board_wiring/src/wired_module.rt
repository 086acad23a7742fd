//! The links of the switch that a module is on, as the text of a wiring says it.

/// A module of a board, by its number, and the links of the switch that its link 0 and its link 3
/// are on, as numbers below [`PORTS`](c004_commands::PORTS), where they are on one.
#[derive(Clone, Copy)]
pub struct WiredModule {
    pub number: usize,
    pub link0: Option<u8>,
    pub link3: Option<u8>,
}

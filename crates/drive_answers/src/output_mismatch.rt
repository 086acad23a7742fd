//! What was seen of an output that disagrees, in words.

use board_wiring::Board;
use c004_commands::{CONNECTED, OutputState};
use crossbar::{Chip, JOINED_MODULES};
use std::fmt;
use switch_driver::DriveOutcome;
use switch_settings::{Disagreement, RackWiring, SettingFault};

/// A link of a module.
#[derive(Clone, Copy)]
struct ModuleLink {
    link: u8,
    module: usize,
}

/// An output that didn't reply what a setting calls for: where it leads, what the setting calls
/// for, and the reply, each as the byte and in words.
#[derive(Clone, Copy)]
pub struct OutputMismatch {
    found: Disagreement,
    /// Where it leads, unless no module is on it.
    place: Option<ModuleLink>,
    /// Whether each switch carries one way, so that a reply tells an input and no link.
    is_one_way: bool,
}

impl OutputMismatch {
    /// What was seen where a drive stopped at an output of a rack, or of the board, where there is
    /// one.
    pub(crate) fn of(
        board: &Option<Board>,
        rack: RackWiring,
        how: &DriveOutcome,
    ) -> Option<OutputMismatch> {
        let DriveOutcome::Stopped {
            fault: SettingFault::Switch(found),
            ..
        } = how
        else {
            return None;
        };
        Some(OutputMismatch {
            found: *found,
            place: match board {
                Some(board) => place_on(board, found.output.get()),
                None => Some(usual_place(rack, found)),
            },
            is_one_way: is_one_way(rack),
        })
    }

    /// The output's switch.
    pub fn chip(&self) -> Chip {
        self.found.chip
    }
}

/// Whether each switch of a rack carries one way.
fn is_one_way(rack: RackWiring) -> bool {
    match rack {
        RackWiring::Usual(modules) => modules > JOINED_MODULES as usize,
        RackWiring::Own(_) => false,
    }
}

/// The link that an output of a rack leads to.
fn usual_place(rack: RackWiring, found: &Disagreement) -> ModuleLink {
    let module = usize::from(found.output.get());
    if is_one_way(rack) {
        let link = match found.chip {
            Chip::A => 3,
            Chip::B => 0,
        };
        return ModuleLink { link, module };
    }
    match module.checked_sub(usize::from(JOINED_MODULES)) {
        Some(module) => ModuleLink { link: 3, module },
        None => ModuleLink { link: 0, module },
    }
}

/// The link that is on an output of a board's switch, where one is.
fn place_on(board: &Board, output: u8) -> Option<ModuleLink> {
    for on in board.modules() {
        let module = on.number;
        if on.link0 == Some(output) {
            return Some(ModuleLink { link: 0, module });
        }
        if on.link3 == Some(output) {
            return Some(ModuleLink { link: 3, module });
        }
    }
    None
}

/// A reply of an output, as the byte, and in words what feeds the output.
#[derive(Clone, Copy)]
struct DisplayedReply {
    byte: u8,
    is_one_way: bool,
}

impl fmt::Display for DisplayedReply {
    fn fmt<W: fmt::Write>(&self, f: &mut fmt::Formatter<W>) -> fmt::Result {
        let byte = self.byte;
        let Ok(state) = OutputState::read(byte) else {
            return write!(f, "{byte:02x}, which no switch gives");
        };
        match state {
            OutputState::Connected(input) => {
                let kind = if self.is_one_way { "input" } else { "link" };
                let number = input.get();
                write!(f, "{byte:02x}, fed by {kind} {number}")
            }
            OutputState::Loose => write!(f, "{byte:02x}, fed by nothing"),
        }
    }
}

impl fmt::Display for OutputMismatch {
    fn fmt<W: fmt::Write>(&self, f: &mut fmt::Formatter<W>) -> fmt::Result {
        let is_one_way = self.is_one_way;
        let wanted = DisplayedReply {
            byte: wanted_byte(self.found.wanted),
            is_one_way,
        };
        let came = DisplayedReply {
            byte: self.found.came,
            is_one_way,
        };
        let number = self.found.number();
        match self.place {
            Some(ModuleLink { link, module }) => {
                write!(f, "output {number}, link {link} of module {module}")?;
            }
            None => write!(f, "output {number}, on which there is no module")?,
        }
        write!(f, ": expected {wanted}; got {came}")
    }
}

/// The byte by which a switch says that this input feeds an output, or that none does.
fn wanted_byte(wanted: Option<u8>) -> u8 {
    match wanted {
        Some(input) => CONNECTED | input,
        None => 0,
    }
}

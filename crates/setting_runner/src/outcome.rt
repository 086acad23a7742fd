use crate::moved::Moved;
use switch_settings::SettingFault;
use thiserror::Error;

/// Why a run was refused: the rack is as it was, and the port wasn't called. The causes are tested
/// in this order, which is this project's choice.
#[derive(Clone, Copy, Debug, PartialEq, Eq, Error)]
pub enum RunRefusal {
    /// These two transfers write one block, and no pair before them does. The first number is less
    /// than the second.
    #[error("overlap {0} {1}")]
    Overlap(usize, usize),
    /// A transfer names a module or a block that the rack hasn't.
    #[error("shape")]
    Shape,
    /// There was no memory for the run.
    #[error("no memory")]
    NoMemory,
}

/// Why a run stopped. Where the cause isn't a wire, no word of the stopped setting has moved.
#[derive(Clone, Copy, PartialEq, Eq)]
pub enum StopCause {
    /// The port to the switches failed, as the setting was sent or as the outputs were asked.
    Port,
    /// This output doesn't answer what the setting calls for, and all before it do. It is from 0 to
    /// 31 for the first switch, and in a wider rack 32 + its number for the second. An answer that
    /// a switch never gives is no such answer.
    SwitchDisagrees(u8),
    /// The wire of this transfer failed before all its words had moved, and that of none with a
    /// lesser number in the setting. All other transfers of it have moved as far as their wires
    /// went.
    Wire(usize),
}

impl From<SettingFault> for StopCause {
    ghost use Rattle.std.specs.Prelude.{◌≡◌};
    ghost use Rattle.setting_runner.specs.Causes.{cause_of};

    ghost from_gives = { λ fault cause. cause ≡ cause_of fault };

    fn from(fault: SettingFault) -> StopCause {
        match fault {
            SettingFault::Port => StopCause::Port,
            SettingFault::Switch(found) => StopCause::SwitchDisagrees(found.number()),
        }
    }
}

/// How a run ended.
#[derive(Clone, Copy, PartialEq, Eq)]
pub enum Outcome {
    /// All settings were run. The words are those of all blocks that were moved, each of four
    /// bytes.
    Completed {
        settings: usize,
        words: usize,
    },
    /// Nothing was done, for this cause.
    Refused(RunRefusal),
    /// This setting, counted from 0, was not run to its end: its transfers have moved so many words
    /// each. All settings before it were run, and none after it.
    Stopped {
        setting: usize,
        cause: StopCause,
        moved: Moved,
    },
}

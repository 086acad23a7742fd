//! What a state is asked.

ghost use Rattle.link_devices.specs.Asking.{AnswersSource, AnswersJoined};

use crate::switch_fault::AskFault;
use crate::switch_state::SwitchState;
use c004_commands::{CONNECTED, PORTS};

impl SwitchState {
    /// The input that feeds an output, or `None` where the output is disconnected. Takes constant
    /// time.
    pub fn source(&self, output: u8) -> Result<Option<u8>, AskFault>
        ensures { AnswersSource self.now output result }
    {
        let Some(_) = self.reader() else {
            return Err(AskFault::NoSwitch);
        };
        if output >= PORTS {
            return Err(AskFault::NoPort);
        }
        Ok(self.outputs[usize::from(output)].checked_sub(CONNECTED))
    }

    /// Whether two links feed each other, and the switch is ready. Takes constant time.
    pub fn joined(&self, link: u8, other: u8) -> Result<bool, AskFault>
        ensures { AnswersJoined self.now link other result }
    {
        let fed_by = self.source(link)?;
        let feeds = self.source(other)?;
        Ok(self.connecting == 0 && fed_by == Some(other) && feeds == Some(link))
    }
}

use refusals::Refusal;
use thiserror::Error;

/// Why a text says no wiring.
#[derive(Clone, Copy, Debug, Error)]
pub enum WiringFault {
    /// This line, counted from 1, is the first that isn't as it should be, or has no line feed.
    /// Where the text ends too early, it is the line that is missing; where something follows a
    /// whole text, it is the first line that follows.
    #[error("line {0}")]
    Line(usize),
}

impl From<WiringFault> for Refusal {
    ghost use Rattle.std.specs.Prelude.{◌≡◌};
    ghost use Rattle.board_wiring.specs.Sources.{of_wiring};

    ghost from_gives = { λ fault gives. gives ≡ of_wiring fault };

    fn from(fault: WiringFault) -> Refusal {
        match fault {
            WiringFault::Line(n) => Refusal::WiringLine(n),
        }
    }
}

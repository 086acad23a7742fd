//! The rack that a batch needs.

ghost use Rattle.std.specs.Prelude.{◌≡◌};
ghost use Rattle.switch_settings.specs.Racks.{is_wide as needs_two};

use batch::Transfer;
use crossbar::JOINED_MODULES;

/// The most modules that one switch joins.
const ONE_SWITCH_MODULES: usize = JOINED_MODULES as usize;

/// Whether a rack that has the modules of these transfers has two switches. Takes time by their
/// number.
pub fn is_wide(transfers: &[Transfer]) -> bool
    ensures { result ≡ needs_two transfers.now }
{
    transfers.iter().any(|t| ONE_SWITCH_MODULES <= t.initiator || ONE_SWITCH_MODULES <= t.responder)
}

//! A law of the program's refusals, proved of the definitions alone. It does nothing.

ghost use Rattle.exchange.specs.Rights.{RightIsNotWrong};

use board_wiring::laws::one_reading;

/// Texts by which a job can be done have nothing that is first wrong: so they aren't refused for
/// their form. Of `replay` it says nothing.
pub fn right_is_not_wrong()
    ensures { RightIsNotWrong }
{
    one_reading();
}

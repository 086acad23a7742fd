//! What sets a switch to pairs is written, and sent.

ghost use Rattle.std.specs.Prelude.{◌≡◌, ◌≤◌, ◌<◌, IsTrue, length, take, OnOk, OnErr, IfSome};
ghost use Rattle.c004_commands.specs.Commands.{text};
ghost use Rattle.crossbar.specs.Chips.{put_switch};
ghost use Rattle.crossbar.specs.Port.{IsConversation};
ghost use Rattle.crossbar.specs.Pairs.{ArePairs, room_of, switch_of};
ghost use Rattle.crossbar.specs.Traffic.{Passes, PassesFront};
ghost use Rattle.switch_settings.specs.Answers.{IsStandingAt, TurnFrom};
ghost use Rattle.switch_settings.specs.Asking.{turned};
ghost use Rattle.switch_settings.specs.Pairs.{longest_setting, longest_change};
ghost use Rattle.switch_settings.specs.Sending.{turning};

use crate::bytes::{WIDE_CHANGE_BYTES, put_change, put_setting};
use crate::pair_list::PairList;
use crossbar::{Chip, ConfigPort, Pair, PortFault, Wiring};

/// Writes the bytes that [`send_setting`] sends to a switch of this wiring to set it to the pairs,
/// and gives their number: the change from the pairs that stand if they are known ([`put_change`]),
/// else the setting of any switch ([`put_setting`]). What stands in `out` after them isn't said.
///
/// Of both, the initiators have to ascend, the responders to be distinct, and all to be below the
/// number of modules that can be wired so; `out` has to have room for the longest setting and the
/// longest change, at most [`WIDE_CHANGE_BYTES`]. The time grows with the product of the numbers of
/// pairs.
pub fn bytes_for(
    wiring: Wiring,
    standing: &Option<PairList>,
    pairs: &[Pair],
    out: &mut [u8],
) -> usize
    requires pairs { ArePairs (room_of wiring) pairs.now }
    requires standing { IfSome standing.now (λ old. ArePairs (room_of wiring) old) }
    requires setting_room { longest_setting wiring ≤ length out.old }
    requires change_room { longest_change wiring ≤ length out.old }
    ensures bytes { take result out.new ≡ text (turning wiring standing.now pairs.now) }
    ensures quiet { IsConversation (take result out.new) 0 }
    ensures sets { TurnFrom wiring standing.now (take result out.new) pairs.now }
    ensures room { result ≤ length out.new }
{
    match standing {
        Some(old) => put_change(wiring, old.as_slice(), pairs, out),
        None => put_setting(wiring, pairs, out),
    }
}

/// Sends a switch of this wiring the bytes that set it to the pairs, from the pairs that stand if
/// they are known. Both are as [`bytes_for`] wants them.
pub fn send_setting<P: ConfigPort>(
    port: &mut P,
    chip: Chip,
    wiring: Wiring,
    standing: &Option<PairList>,
    pairs: &[Pair],
) -> Result<(), PortFault>
    requires pairs { ArePairs (room_of wiring) pairs.now }
    requires standing { IsStandingAt chip wiring
        (P.honest port.old) (P.switches port.old) standing.now }
    ensures set { OnOk result (IsTrue (P.honest port.old) →
        P.switches port.new ≡ put_switch chip (switch_of wiring pairs.now) (P.switches port.old)) }
    ensures fault { OnErr result (P.failures port.old < P.failures port.new) }
    ensures unfailed { OnOk result (P.failures port.new ≡ P.failures port.old) }
    ensures honesty { P.honest port.new ≡ P.honest port.old }
    ensures passed { OnOk result (Passes (P.passed port.old) (P.passed port.new)
        (turned chip wiring standing.now pairs.now)) }
    ensures broken { OnErr result (PassesFront chip (turning wiring standing.now pairs.now)
        (P.passed port.old) (P.passed port.new)) }
{
    let mut bytes = [0; WIDE_CHANGE_BYTES];
    let number = bytes_for(wiring, standing, pairs, &mut bytes);
    port.converse(chip, &bytes[..number], &mut [])
}

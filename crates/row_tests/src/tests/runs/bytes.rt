//! Bytes that go to the switch.

ghost use Rattle.std.specs.Prelude.{◌≡◌};
ghost use Rattle.crossbar.specs.Pairs.{ArePairs};

use c004_commands::PORTS;
use crossbar::JOINED_MODULES;
use setting_runner::line_bits;
use switch_settings::{
    Chip, ENQUIRY_BYTES, Pair, WIDE_CHANGE_BYTES, Wiring, put_change, put_setting,
};

fn pair(initiator: u8, responder: u8) -> Pair
    ensures { result ≡ record { initiator = initiator; responder = responder } }
{
    Pair {
        initiator,
        responder,
    }
}

/// Whether just these bytes set the one switch of a rack to the pairs.
fn is_setting(pairs: &[Pair], bytes: &[u8]) -> bool
    requires { ArePairs JOINED_MODULES pairs.now }
{
    let mut out = [0; WIDE_CHANGE_BYTES];
    let count = put_setting(Wiring::Both, pairs, &mut out);
    &out[..count] == bytes
}

/// Whether just these bytes set the one switch of a rack from the old pairs to the new ones.
fn is_change(old: &[Pair], new: &[Pair], bytes: &[u8]) -> bool
    requires old { ArePairs JOINED_MODULES old.now }
    requires new { ArePairs JOINED_MODULES new.now }
{
    let mut out = [0; WIDE_CHANGE_BYTES];
    let count = put_change(Wiring::Both, old, new, &mut out);
    &out[..count] == bytes
}

/// Whether just these bytes set a switch of a wider rack to the pairs.
fn is_wide_setting(chip: Chip, pairs: &[Pair], bytes: &[u8]) -> bool
    requires { ArePairs PORTS pairs.now }
{
    let mut out = [0; WIDE_CHANGE_BYTES];
    let count = match chip {
        Chip::A => put_setting(Wiring::Forth, pairs, &mut out),
        Chip::B => put_setting(Wiring::Back, pairs, &mut out),
    };
    &out[..count] == bytes
}

/// Whether just these bytes set a switch of a wider rack from the old pairs to the new ones.
fn is_wide_change(chip: Chip, old: &[Pair], new: &[Pair], bytes: &[u8]) -> bool
    requires old { ArePairs PORTS old.now }
    requires new { ArePairs PORTS new.now }
{
    let mut out = [0; WIDE_CHANGE_BYTES];
    let count = match chip {
        Chip::A => put_change(Wiring::Forth, old, new, &mut out),
        Chip::B => put_change(Wiring::Back, old, new, &mut out),
    };
    &out[..count] == bytes
}

#[test]
fn change_of_pairs(rt: HostRuntime) {
    let old = [pair(0, 1), pair(1, 2)];
    let new = [pair(0, 1), pair(1, 3)];
    let are_sent = is_change(&old, &new, &[0x06, 0x01, 0x12, 0x01, 0x01, 0x13, 0x03])
        && is_change(&old, &old, &[0x03])
        && is_setting(&old, &[0x04, 0x01, 0x00, 0x11, 0x01, 0x01, 0x12, 0x03]);
    assert!(rt; are_sent);
}

/// Row wide_rack.
#[test]
fn setting_of_a_wide_rack(rt: HostRuntime) {
    let pairs = [pair(0, 16), pair(16, 0)];
    let are_sent = is_wide_setting(
        Chip::A,
        &pairs,
        &[0x04, 0x00, 0x00, 0x10, 0x00, 0x10, 0x00, 0x03],
    ) && is_wide_setting(
        Chip::B,
        &pairs,
        &[0x04, 0x00, 0x10, 0x00, 0x00, 0x00, 0x10, 0x03],
    );
    assert!(rt; are_sent);
}

#[test]
fn change_of_a_wide_rack(rt: HostRuntime) {
    let old = [pair(0, 1), pair(16, 2)];
    let new = [pair(0, 1), pair(16, 3)];
    let are_sent = is_wide_change(Chip::A, &old, &new, &[0x05, 0x02, 0x00, 0x10, 0x03, 0x03])
        && is_wide_change(Chip::B, &old, &new, &[0x05, 0x10, 0x00, 0x03, 0x10, 0x03])
        && is_wide_change(Chip::B, &old, &old, &[0x03]);
    assert!(rt; are_sent);
}

#[test]
fn named_sizes(rt: HostRuntime) {
    let are_bits = line_bits(1) == 117 && line_bits(1_048_576) == 122_683_392;
    assert!(rt; WIDE_CHANGE_BYTES == 161 && ENQUIRY_BYTES == 64 && are_bits);
}

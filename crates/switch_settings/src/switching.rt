//! A run puts a setting on the switches of a rack, and asks them whether they stand so.

ghost use Rattle.std.specs.Prelude.{◌≡◌, ◌≤◌, ◌<◌, IsTrue, true, false, length, OnOk, OnErr, IfOk};
ghost use Rattle.std.specs.Prelude.{IfErr};
ghost use Rattle.crossbar.specs.Chips.{switch_at};
ghost use Rattle.crossbar.specs.Pairs.{ArePairs, room_of, switch_of};
ghost use Rattle.crossbar.specs.Traffic.{Passes, PassesFront};
ghost use Rattle.crossbar.specs.declared.chip.Chip.TheVariants.{A};
ghost use Rattle.crossbar.specs.declared.chip.Wiring.TheVariants.{Both};
ghost use Rattle.crossbar.specs.declared.switch.TheConstants.{JOINED_MODULES};
ghost use Rattle.switch_settings.specs.Answers.{AllAgree, Misses, AreSetTo, IsSettingFault};
ghost use Rattle.switch_settings.specs.Answers.{IsStandingAt, AreStanding, AreBothSet};
ghost use Rattle.switch_settings.specs.Answers.{AreBothStanding};
ghost use Rattle.switch_settings.specs.Asking.{AreDone, HasPassedFor, HavePassedFor, HaveReplied};
ghost use Rattle.switch_settings.specs.Asking.{asked, asked_steps, wirings};
ghost use Rattle.switch_settings.specs.Pairs.{all_enquiries};

use crate::bytes::{enquiry_bytes, port_of};
use crate::fault::SettingFault;
use crate::judging::{judge, wanted_switch};
use crate::pair_list::PairList;
use crate::sending::send_setting;
use c004_commands::PORTS;
use crossbar::{Chip, ConfigPort, JOINED_MODULES, Pair, PortFault, Wiring};

/// How many outputs a switch has to ask.
const OUTPUTS: usize = PORTS as usize;

/// Sets the switches of a rack of so many modules to the pairs, from the pairs that stand if they
/// are known, and asks all outputs whether they are so set. Both switches of a wider rack are asked
/// before either is judged. What fits on one switch goes to the first alone, in both directions,
/// and else the first has the way forth and the second the way back.
pub fn configure_switches<P: ConfigPort>(
    port: &mut P,
    modules: usize,
    standing: &Option<PairList>,
    pairs: &[Pair],
) -> Result<(), SettingFault>
    requires few { modules ≤ PORTS }
    requires pairs { ArePairs modules pairs.now }
    requires standing { AreStanding modules (P.honest port.old) (P.switches port.old) standing.now }
    ensures set { OnOk result
        (AreSetTo modules (P.honest port.old) (P.switches port.new) pairs.now) }
    ensures fault { IfErr result
        (IsSettingFault (P.failures port.old) (P.failures port.new) (P.honest port.old)) }
    ensures counted { P.failures port.old ≤ P.failures port.new }
    ensures unfailed { OnOk result (P.failures port.new ≡ P.failures port.old) }
    ensures honesty { P.honest port.new ≡ P.honest port.old }
    // Each switch was sent its bytes whole, and then replied at all outputs as the pairs call for;
    // else what had passed as it stopped, and why.
    ensures replied { OnOk result
        (HaveReplied modules standing.now pairs.now (P.passed port.old) (P.passed port.new)) }
    ensures vain { IfErr result (λ fault.
        HavePassedFor modules fault standing.now pairs.now
        (P.passed port.old) (P.passed port.new)) }
{
    if modules <= JOINED_MODULES as usize {
        return configure_one(port, standing, pairs);
    }
    configure_both(port, standing, pairs)
}

/// Configures the one switch of a rack, which is the first.
fn configure_one<P: ConfigPort>(
    port: &mut P,
    standing: &Option<PairList>,
    pairs: &[Pair],
) -> Result<(), SettingFault>
    requires pairs { ArePairs JOINED_MODULES pairs.now }
    requires standing { IsStandingAt A Both
        (P.honest port.old) (P.switches port.old) standing.now }
    ensures set { OnOk result (IsTrue (P.honest port.old) →
        switch_at A (P.switches port.new) ≡ switch_of Both pairs.now) }
    ensures fault { IfErr result
        (IsSettingFault (P.failures port.old) (P.failures port.new) (P.honest port.old)) }
    ensures counted { P.failures port.old ≤ P.failures port.new }
    ensures unfailed { OnOk result (P.failures port.new ≡ P.failures port.old) }
    ensures honesty { P.honest port.new ≡ P.honest port.old }
    ensures replied { OnOk result (AreDone standing.now pairs.now (asked_steps (wirings false))
        (P.passed port.old) (P.passed port.new)) }
    ensures vain { IfErr result (λ fault. HasPassedFor false fault standing.now pairs.now
        (P.passed port.old) (P.passed port.new)) }
{
    send_setting(port, Chip::A, Wiring::Both, standing, pairs)?;
    let replies = enquire(port, Chip::A)?;
    judge_all(Chip::A, Wiring::Both, pairs, &replies)
}

/// Configures both switches of a wider rack.
fn configure_both<P: ConfigPort>(
    port: &mut P,
    standing: &Option<PairList>,
    pairs: &[Pair],
) -> Result<(), SettingFault>
    requires pairs { ArePairs PORTS pairs.now }
    requires standing { AreBothStanding (P.honest port.old) (P.switches port.old) standing.now }
    ensures set { OnOk result (AreBothSet (P.honest port.old) (P.switches port.new) pairs.now) }
    ensures fault { IfErr result
        (IsSettingFault (P.failures port.old) (P.failures port.new) (P.honest port.old)) }
    ensures counted { P.failures port.old ≤ P.failures port.new }
    ensures unfailed { OnOk result (P.failures port.new ≡ P.failures port.old) }
    ensures honesty { P.honest port.new ≡ P.honest port.old }
    ensures replied { OnOk result (AreDone standing.now pairs.now (asked_steps (wirings true))
        (P.passed port.old) (P.passed port.new)) }
    ensures vain { IfErr result (λ fault. HasPassedFor true fault standing.now pairs.now
        (P.passed port.old) (P.passed port.new)) }
{
    send_setting(port, Chip::A, Wiring::Forth, standing, pairs)?;
    send_setting(port, Chip::B, Wiring::Back, standing, pairs)?;
    let of_a = enquire(port, Chip::A)?;
    let of_b = enquire(port, Chip::B)?;
    judge_all(Chip::A, Wiring::Forth, pairs, &of_a)?;
    judge_all(Chip::B, Wiring::Back, pairs, &of_b)
}

/// Asks all outputs of a switch, and gives their replies in order.
fn enquire<P: ConfigPort>(port: &mut P, chip: Chip) -> Result<[u8; OUTPUTS], PortFault>
    ensures replies { IfOk result (λ replies. IsTrue (P.honest port.old) →
        AllAgree (switch_at chip (P.switches port.old)) replies) }
    ensures unmoved { OnOk result (IsTrue (P.honest port.old) →
        P.switches port.new ≡ P.switches port.old) }
    ensures fault { OnErr result (P.failures port.old < P.failures port.new) }
    ensures unfailed { OnOk result (P.failures port.new ≡ P.failures port.old) }
    ensures honesty { P.honest port.new ≡ P.honest port.old }
    ensures all { IfOk result (λ replies. length replies ≡ PORTS) }
    ensures passed { IfOk result (λ replies.
        Passes (P.passed port.old) (P.passed port.new) (asked chip replies)) }
    ensures broken { OnErr result (PassesFront chip all_enquiries
        (P.passed port.old) (P.passed port.new)) }
{
    let mut replies = [0; OUTPUTS];
    port.converse(chip, &enquiry_bytes(), &mut replies)?;
    Ok(replies)
}

/// Judges the replies of all outputs of a switch, in order.
fn judge_all(
    chip: Chip,
    wiring: Wiring,
    pairs: &[Pair],
    replies: &[u8; OUTPUTS],
) -> Result<(), SettingFault>
    requires { ArePairs (room_of wiring) pairs.now }
    ensures agreed { OnOk result (AllAgree (switch_of wiring pairs.now) replies.now) }
    ensures fault { IfErr result (Misses chip (switch_of wiring pairs.now) replies.now) }
{
    let wanted = wanted_switch(wiring, pairs);
    for number in 0..PORTS {
        judge(chip, &wanted, port_of(number), replies[number as usize])?;
    }
    Ok(())
}

//! A drive puts a setting on the switches of a rack, and asks them whether they stand so.

ghost use Rattle.std.specs.Prelude.{◌≡◌, ◌≢◌, ◌≤◌, ◌<◌, ◌∷◌, ◌↔◌, [], Some, IsTrue, true, length};
ghost use Rattle.std.specs.Prelude.{OnOk, OnErr, IfOk, IfErr};
ghost use Rattle.std.specs.Option.{option_to_list};
ghost use Rattle.std.specs.FinMap as map;
ghost use Rattle.c004_commands.specs.Answers.{answer_byte};
ghost use Rattle.c004_commands.specs.declared.command.Command.TheVariants.{Enquire};
ghost use Rattle.crossbar.specs.Chips.{put_switch, switch_at};
ghost use Rattle.crossbar.specs.Pairs.{ArePairs, room_of, switch_of};
ghost use Rattle.crossbar.specs.Switch.{after, answer, enquiries};
ghost use Rattle.crossbar.specs.Traffic.{Passes, PassesFront, conversed};
ghost use Rattle.crossbar.specs.declared.chip.Chip.TheVariants.{A};
ghost use Rattle.switch_settings.specs.Answers.{AllAgree, AreBothSet, AreBothStanding};
ghost use Rattle.switch_settings.specs.Answers.{IsSettingFault, IsStandingAt};
ghost use Rattle.switch_settings.specs.Asking.{AreDone, BreakOff, HasReplied, IsUnanswered};
ghost use Rattle.switch_settings.specs.Asking.{wirings};
ghost use Rattle.switch_settings.specs.RackWirings.{AreSetIn, AreStandingIn, wired_in};
ghost use Rattle.switch_settings.specs.declared.fault.SettingFault.TheVariants.{Port};
ghost use Rattle.switch_driver.specs.Steps.{HasStopped, Stands, settled_steps};

use c004_commands::{Command, LONGEST_COMMAND, PORTS, PortNo, write};
use crossbar::{Chip, ConfigPort, JOINED_MODULES, Pair, PortFault, Wiring};
use switch_settings::{
    PairList, RackWiring, SettingFault, judge, port_of, send_setting, wanted_switch,
};

/// Sets the switches of a rack to the pairs, from the pairs that stand if they are known, and asks
/// all outputs whether they are so set. Each reply is judged as it comes. Then the switches are
/// sent the end of the sequence again, in case the first was lost. Where these pairs stand already,
/// nothing is sent and nothing asked.
///
/// What fits on one switch goes to the first alone, in both directions, and else the first has the
/// way forth and the second the way back. The one switch of a board is the first one.
pub(crate) fn set_rack<P: ConfigPort>(
    port: &mut P,
    rack: RackWiring,
    standing: &Option<PairList>,
    pairs: &[Pair],
) -> Result<(), SettingFault>
    requires few { wired_in rack ≤ PORTS }
    requires pairs { ArePairs (wired_in rack) pairs.now }
    requires standing { AreStandingIn rack (P.honest port.old) (P.switches port.old) standing.now }
    ensures set { OnOk result (AreSetIn rack (P.honest port.old) (P.switches port.new) pairs.now) }
    ensures fault { IfErr result
        (IsSettingFault (P.failures port.old) (P.failures port.new) (P.honest port.old)) }
    ensures unfailed { OnOk result (P.failures port.new ≡ P.failures port.old) }
    ensures honesty { P.honest port.new ≡ P.honest port.old }
    ensures stands { OnOk result
        (Stands rack standing.now pairs.now (P.passed port.old) (P.passed port.new)) }
    ensures vain { IfErr result (λ fault.
        HasStopped rack fault standing.now pairs.now (P.passed port.old) (P.passed port.new)) }
{
    if is_standing(standing, pairs) {
        return Ok(());
    }
    match rack {
        RackWiring::Usual(modules) if modules > JOINED_MODULES as usize => {
            set_both(port, standing, pairs)
        }
        RackWiring::Usual(_) => set_one(port, Wiring::Both, standing, pairs),
        RackWiring::Own(board) => set_one(port, Wiring::Board(board), standing, pairs),
    }
}

/// Whether these pairs stand already.
fn is_standing(standing: &Option<PairList>, pairs: &[Pair]) -> bool
    ensures { IsTrue result ↔ (standing.now ≡ Some pairs.now) }
{
    match standing {
        Some(old) => old.as_slice() == pairs,
        None => false,
    }
}

/// Sets the one switch of a rack, where other pairs stand, or none are known to.
fn set_one<P: ConfigPort>(
    port: &mut P,
    wiring: Wiring,
    standing: &Option<PairList>,
    pairs: &[Pair],
) -> Result<(), SettingFault>
    requires pairs { ArePairs (room_of wiring) pairs.now }
    requires standing { IsStandingAt A wiring
        (P.honest port.old) (P.switches port.old) standing.now }
    ensures set { OnOk result (IsTrue (P.honest port.old) →
        switch_at A (P.switches port.new) ≡ switch_of wiring pairs.now) }
    ensures fault { IfErr result
        (IsSettingFault (P.failures port.old) (P.failures port.new) (P.honest port.old)) }
    ensures unfailed { OnOk result (P.failures port.new ≡ P.failures port.old) }
    ensures honesty { P.honest port.new ≡ P.honest port.old }
    ensures done { OnOk result
        (AreDone standing.now pairs.now (settled_steps ((A, wiring) ∷ []))
        (P.passed port.old) (P.passed port.new)) }
    ensures vain { IfErr result (λ fault.
        BreakOff fault standing.now pairs.now (settled_steps ((A, wiring) ∷ []))
        (P.passed port.old) (P.passed port.new)) }
{
    send_setting(port, Chip::A, wiring, standing, pairs)?;
    ask_all(port, Chip::A, wiring, pairs)?;
    send(port, Chip::A, Command::Settle, &mut [])?;
    Ok(())
}

/// Sets both switches of a wider rack: the replies of the first are judged before the second is
/// asked.
fn set_both<P: ConfigPort>(
    port: &mut P,
    standing: &Option<PairList>,
    pairs: &[Pair],
) -> Result<(), SettingFault>
    requires pairs { ArePairs PORTS pairs.now }
    requires standing { AreBothStanding (P.honest port.old) (P.switches port.old) standing.now }
    ensures set { OnOk result (AreBothSet (P.honest port.old) (P.switches port.new) pairs.now) }
    ensures fault { IfErr result
        (IsSettingFault (P.failures port.old) (P.failures port.new) (P.honest port.old)) }
    ensures unfailed { OnOk result (P.failures port.new ≡ P.failures port.old) }
    ensures honesty { P.honest port.new ≡ P.honest port.old }
    ensures done { OnOk result
        (AreDone standing.now pairs.now (settled_steps (wirings true))
        (P.passed port.old) (P.passed port.new)) }
    ensures vain { IfErr result (λ fault.
        BreakOff fault standing.now pairs.now (settled_steps (wirings true))
        (P.passed port.old) (P.passed port.new)) }
{
    send_setting(port, Chip::A, Wiring::Forth, standing, pairs)?;
    send_setting(port, Chip::B, Wiring::Back, standing, pairs)?;
    ask_all(port, Chip::A, Wiring::Forth, pairs)?;
    ask_all(port, Chip::B, Wiring::Back, pairs)?;
    send(port, Chip::A, Command::Settle, &mut [])?;
    send(port, Chip::B, Command::Settle, &mut [])?;
    Ok(())
}

/// Asks all outputs of a switch in order, up to the first whose reply isn't what the pairs call
/// for.
fn ask_all<P: ConfigPort>(
    port: &mut P,
    chip: Chip,
    wiring: Wiring,
    pairs: &[Pair],
) -> Result<(), SettingFault>
    requires { ArePairs (room_of wiring) pairs.now }
    ensures replied { OnOk result
        (HasReplied chip (AllAgree (switch_of wiring pairs.now))
        (P.passed port.old) (P.passed port.new)) }
    ensures vain { IfErr result (λ fault.
        IsUnanswered fault chip wiring pairs.now (P.passed port.old) (P.passed port.new)) }
    ensures unmoved { OnOk result (IsTrue (P.honest port.old) →
        P.switches port.new ≡ P.switches port.old) }
    // A switch that stands so at an honest port replies so.
    ensures lied { IfErr result (λ fault. IsTrue (P.honest port.old) →
        switch_at chip (P.switches port.old) ≡ switch_of wiring pairs.now → fault ≡ Port) }
    ensures counted { IfErr result (λ fault.
        (fault ≡ Port → P.failures port.old < P.failures port.new)
        × (fault ≢ Port → P.failures port.new ≡ P.failures port.old)) }
    ensures unfailed { OnOk result (P.failures port.new ≡ P.failures port.old) }
    ensures honesty { P.honest port.new ≡ P.honest port.old }
{
    let wanted = wanted_switch(wiring, pairs);
    for number in 0..PORTS {
        let output = port_of(number);
        let came = enquire(port, chip, output)?;
        judge(chip, &wanted, output, came)?;
    }
    Ok(())
}

/// Asks an output of a switch, and gives its reply.
fn enquire<P: ConfigPort>(port: &mut P, chip: Chip, output: PortNo) -> Result<u8, PortFault>
    ensures replied { IfOk result (λ reply. IsTrue (P.honest port.old) →
        reply ≡ answer_byte (map.get (switch_at chip (P.switches port.old)).sources output)) }
    ensures unmoved { OnOk result (IsTrue (P.honest port.old) →
        P.switches port.new ≡ P.switches port.old) }
    ensures fault { OnErr result (P.failures port.old < P.failures port.new) }
    ensures unfailed { OnOk result (P.failures port.new ≡ P.failures port.old) }
    ensures honesty { P.honest port.new ≡ P.honest port.old }
    ensures passed { IfOk result (λ reply. Passes (P.passed port.old) (P.passed port.new)
        (conversed chip (Enquire output ∷ []) (reply ∷ []))) }
    ensures broken { OnErr result
        (PassesFront chip (Enquire output ∷ []) (P.passed port.old) (P.passed port.new)) }
{
    let mut replies = [0];
    send(port, chip, Command::Enquire { output }, &mut replies)?;
    Ok(replies[0])
}

/// Sends a switch a command, and fills in the reply to an enquiry.
fn send<P: ConfigPort>(
    port: &mut P,
    chip: Chip,
    command: Command,
    replies: &mut [u8],
) -> Result<(), PortFault>
    requires { length replies.old ≡ enquiries (command ∷ []) }
    ensures set { OnOk result (IsTrue (P.honest port.old) → P.switches port.new
        ≡ put_switch chip (after command (switch_at chip (P.switches port.old)))
        (P.switches port.old)) }
    ensures replied { OnOk result (IsTrue (P.honest port.old) → replies.new
        ≡ option_to_list (answer command (switch_at chip (P.switches port.old)))) }
    ensures fault { OnErr result (P.failures port.old < P.failures port.new) }
    ensures unfailed { OnOk result (P.failures port.new ≡ P.failures port.old) }
    ensures honesty { P.honest port.new ≡ P.honest port.old }
    ensures passed { OnOk result (Passes (P.passed port.old) (P.passed port.new)
        (conversed chip (command ∷ []) replies.new)) }
    ensures broken { OnErr result
        (PassesFront chip (command ∷ []) (P.passed port.old) (P.passed port.new)) }
{
    let mut bytes = [0; LONGEST_COMMAND];
    let number = write(command, &mut bytes);
    port.converse(chip, &bytes[..number], replies)
}

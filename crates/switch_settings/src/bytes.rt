//! The bytes that go to the switches.

ghost use Rattle.std.specs.Prelude.{◌≡◌, ◌≤◌, ◌<◌, ◌+◌, ◌++◌, length, take};
ghost use Rattle.std.specs.List.{list_any};
ghost use Rattle.c004_commands.specs.Commands.{row, text};
ghost use Rattle.crossbar.specs.Switch.{Switch};
ghost use Rattle.crossbar.specs.Pairs.{Fits, ArePairs, room_of, switch_of, setting, change};
ghost use Rattle.crossbar.specs.Pairs.{is_pair};
ghost use Rattle.crossbar.specs.declared.chip.Wiring.TheVariants.{Board};
ghost use Rattle.switch_settings.specs.Pairs.{command_of, commands_of, both_ways_command};
ghost use Rattle.switch_settings.specs.Pairs.{one_way_command, longest_setting, longest_change};
ghost use Rattle.switch_settings.specs.Pairs.{Turns, all_enquiries};

use c004_commands::{Command, LONGEST_COMMAND, PORTS, PortNo, write};
use crossbar::{BoardWiring, JOINED_MODULES, Pair, Wiring, laws};

/// How many bytes the longest change of a switch of a wider rack has, 161: two for each pair that
/// goes, three for each pair that comes, and one for the end of the sequence.
pub const WIDE_CHANGE_BYTES: usize = (2 + LONGEST_COMMAND) * (PORTS as usize) + 1;

/// How many bytes the enquiries of all outputs have, 64.
pub const ENQUIRY_BYTES: usize = 2 * (PORTS as usize);

/// What becomes of a pair.
#[derive(Clone, Copy)]
enum PairChange {
    Join,
    Cut,
}

/// Puts the bytes that set a switch of this wiring to the pairs, whatever it was, and says how many
/// they are: a reset, the joins of the pairs in their order, and the end of the sequence (INMOS IMS
/// C004 data sheet, configuration messages). Where one switch joins both ways that is `04`, a row
/// `01 I 16+R` a pair, `03`; on the way forth a row is `00 I R`, on the way back `00 R I`. What
/// stands in `out` after them isn't said.
///
/// The initiators have to ascend, the responders to be distinct, and all to be below the number of
/// modules that can be wired so. Takes time by the number of pairs.
pub fn put_setting(wiring: Wiring, pairs: &[Pair], out: &mut [u8]) -> usize
    requires pairs { ArePairs (room_of wiring) pairs.now }
    requires room { longest_setting wiring ≤ length out.old }
    ensures bytes { take result out.new ≡ text (setting wiring pairs.now) }
    ensures sets { (switch : Switch) →
        Turns (take result out.new) switch (switch_of wiring pairs.now) }
    ensures room { result ≤ longest_setting wiring }
{
    laws::setting();
    let begun = put(out, 0, Command::Reset);
    let joined = put_pairs(out, begun, PairChange::Join, wiring, pairs, &[]);
    put(out, joined, Command::Settle)
}

/// Puts the bytes that set a switch of this wiring from the old pairs to the new ones, and says how
/// many they are: the cuts of the pairs that go, the joins of those that come, each in their order,
/// and the end of the sequence. A row `06 I 16+R` is a cut both ways, `05 R` one on the way forth,
/// `05 I` one on the way back. What stands in `out` after them isn't said. The time grows with the
/// product of the numbers of pairs.
pub fn put_change(wiring: Wiring, old: &[Pair], new: &[Pair], out: &mut [u8]) -> usize
    requires old { ArePairs (room_of wiring) old.now }
    requires new { ArePairs (room_of wiring) new.now }
    requires room { longest_change wiring ≤ length out.old }
    ensures bytes { take result out.new ≡ text (change wiring old.now new.now) }
    ensures sets { Turns (take result out.new)
        (switch_of wiring old.now) (switch_of wiring new.now) }
    ensures room { result ≤ longest_change wiring }
{
    laws::change();
    let cut = put_pairs(out, 0, PairChange::Cut, wiring, old, new);
    let changed = put_pairs(out, cut, PairChange::Join, wiring, new, old);
    put(out, changed, Command::Settle)
}

/// The bytes that enquire every output, in order: `02 n` for n from 0 to 31 (INMOS IMS C004 data
/// sheet, configuration messages). The switch answers each by a byte.
pub fn enquiry_bytes() -> [u8; ENQUIRY_BYTES]
    ensures { result ≡ text all_enquiries }
{
    let mut bytes = [0; ENQUIRY_BYTES];
    let mut stand = 0;
    for number in 0..PORTS {
        let output = port_of(number);
        stand = put(&mut bytes, stand, Command::Enquire { output });
    }
    bytes
}

/// Puts the commands of those pairs that aren't among others after the bytes that stand, and says
/// how many stand then.
fn put_pairs(
    out: &mut [u8],
    stand: usize,
    way: PairChange,
    wiring: Wiring,
    pairs: &[Pair],
    others: &[Pair],
) -> usize
    requires pairs { ArePairs (room_of wiring) pairs.now }
    requires room { stand + length (text (commands_of way wiring others.now pairs.now))
        ≤ length out.old }
    ensures bytes { take result out.new ≡
        take stand out.old ++ text (commands_of way wiring others.now pairs.now) }
    ensures number { result ≡ stand + length (text (commands_of way wiring others.now pairs.now)) }
{
    let mut count = stand;
    for pair in pairs {
        if !is_among(*pair, others) {
            count = put(out, count, to_command(way, wiring, *pair));
        }
    }
    count
}

/// Whether a pair is one of others.
fn is_among(pair: Pair, others: &[Pair]) -> bool
    ensures { result ≡ list_any (is_pair pair) others.now }
{
    for other in others {
        if *other == pair {
            return true;
        }
    }
    false
}

/// The command that joins or parts a pair.
fn to_command(way: PairChange, wiring: Wiring, pair: Pair) -> Command
    requires { Fits wiring pair }
    ensures { result ≡ command_of way wiring pair }
{
    match wiring {
        Wiring::Both => both_ways(way, pair.initiator, JOINED_MODULES + pair.responder),
        Wiring::Forth => one_way(way, pair.initiator, pair.responder),
        Wiring::Back => one_way(way, pair.responder, pair.initiator),
        Wiring::Board(board) => on_board(way, &board, pair),
    }
}

/// The command that joins or parts both ends of a pair where a board has them.
fn on_board(way: PairChange, board: &BoardWiring, pair: Pair) -> Command
    requires { Fits (Board board.now) pair }
    ensures { result ≡ command_of way (Board board.now) pair }
{
    let initiator = board.links(pair.initiator as usize);
    let responder = board.links(pair.responder as usize);
    both_ways(way, initiator.link0, responder.link3)
}

/// The command that joins two links, or parts them.
fn both_ways(way: PairChange, link1: u8, link2: u8) -> Command
    requires { (link1 < PORTS) × (link2 < PORTS) }
    ensures { result ≡ both_ways_command way link1 link2 }
{
    let (link1, link2) = (port_of(link1), port_of(link2));
    match way {
        PairChange::Join => Command::Join { link1, link2 },
        PairChange::Cut => Command::CutPair { link1, link2 },
    }
}

/// The command that connects an output to an input, or disconnects it.
fn one_way(way: PairChange, input: u8, output: u8) -> Command
    requires { (input < PORTS) × (output < PORTS) }
    ensures { result ≡ one_way_command way input output }
{
    let (input, output) = (port_of(input), port_of(output));
    match way {
        PairChange::Join => Command::Connect { input, output },
        PairChange::Cut => Command::Cut { output },
    }
}

/// The port of this number, below [`PORTS`].
pub fn port_of(number: u8) -> PortNo
    requires { number < PORTS }
    ensures { result ≡ number }
{
    let Some(port) = PortNo::new(number) else {
        unreachable!();
    };
    port
}

/// Puts the bytes of a command after those that stand, and says how many stand then.
fn put(out: &mut [u8], stand: usize, command: Command) -> usize
    requires { stand + length (row command) ≤ length out.old }
    ensures bytes { take result out.new ≡ take stand out.old ++ row command }
    ensures number { result ≡ stand + length (row command) }
{
    let mut bytes = [0; LONGEST_COMMAND];
    let number = write(command, &mut bytes);
    let mut count = stand;
    for byte in &bytes[..number] {
        out[count] = *byte;
        count += 1;
    }
    count
}

//! The text of a wiring, read from the left. Each reader gives what it has read, and the rest.

ghost use Rattle.std.specs.Prelude.{◌≡◌, ◌≢◌, ℕ, List, Option, ◌<◌, ◌≤◌, ◌++◌, IfSome, IfNone};
ghost use Rattle.std.specs.Prelude.{IfOk, IfErr, codes};
ghost use Rattle.batch.specs.Text.{IsDigit, IsNumber, number};
ghost use Rattle.board_wiring.specs.Boards.{modules_of};
ghost use Rattle.board_wiring.specs.Text.{Denotes, line, place};
ghost use Rattle.board_wiring.specs.Faults.{AreModules, HasNoHead, IsFirstBad, IsHeaded, HasPorts};
ghost use Rattle.board_wiring.specs.Faults.{IsPort, StopsAt};
ghost use Rattle.board_wiring.specs.declared.wired_module.WiredModule.{WiredModule};
ghost use Rattle.c004_commands.specs.declared.port.TheConstants.{PORTS};
ghost use Rattle.crossbar.specs.declared.switch.TheConstants.{JOINED_MODULES};

use crate::board::{Board, MAX_BOARD_MODULES};
use crate::fault::WiringFault;
use crate::wired_module::WiredModule;
use batch::number_before;
use c004_commands::PORTS;
use line_words::rest_after;

/// A number after these words, and what stands after the byte that ends it, which is no digit.
fn number_after_words<'a>(bytes: &'a [u8], words: &[u8], end: u8) -> Option<(usize, &'a [u8])>
    requires { IsDigit end → ⊥ }
    ensures some { IfSome result (λ x. IsNumber x.0
        × (bytes.entry.now ≡ words.now ++ (number x.0 end ++ x.1.now))) }
    ensures none { IfNone result ((n : ℕ) (rest : List ℕ) → IsNumber n →
        bytes.entry.now ≢ words.now ++ (number n end ++ rest)) }
{
    let (n, rest) = number_before(rest_after(bytes, words)?, end)?;
    Some((n, rest))
}

/// Where a link is, after these words: a link of the switch or none; and what stands after the
/// byte that ends it, which is no digit.
fn place_after<'a>(bytes: &'a [u8], words: &[u8], end: u8) -> Option<(Option<u8>, &'a [u8])>
    requires { IsDigit end → ⊥ }
    ensures some { IfSome result (λ x. IsPort x.0
        × (bytes.entry.now ≡ words.now ++ (place x.0 end ++ x.1.now))) }
    ensures none { IfNone result ((link : Option ℕ) (rest : List ℕ) → IsPort link →
        bytes.entry.now ≢ words.now ++ (place link end ++ rest)) }
{
    let bytes = rest_after(bytes, words)?;
    if let Some(rest) = rest_after(bytes, b"none") {
        return Some((None, rest_after(rest, &[end])?));
    }
    let (link, rest) = link_after(bytes, end)?;
    Some((Some(link), rest))
}

/// A link of the switch after `at `, and what stands after the byte that ends it, which is no
/// digit.
fn link_after(bytes: &[u8], end: u8) -> Option<(u8, &[u8])>
    requires { IsDigit end → ⊥ }
    ensures some { IfSome result (λ x. (x.0 < PORTS)
        × (bytes.now ≡ codes "at " ++ (number x.0 end ++ x.1.now))) }
    ensures none { IfNone result ((n : ℕ) (rest : List ℕ) → n < PORTS →
        bytes.now ≢ codes "at " ++ (number n end ++ rest)) }
{
    let (n, rest) = number_after_words(bytes, b"at ", end)?;
    if n >= PORTS as usize {
        return None;
    }
    Some((n as u8, rest))
}

/// How many modules the first line says that there are.
fn first_line(text: &[u8]) -> Option<(usize, &[u8])>
    ensures some { IfSome result (λ x. IsHeaded text.now x.0 x.1.now) }
    ensures none { IfNone result (HasNoHead text.now) }
{
    let (count, rest) = number_after_words(text, b"wiring ", b'\n')?;
    if count == 0 || count > MAX_BOARD_MODULES {
        return None;
    }
    Some((count, rest))
}

/// The line of a module.
fn module_line(bytes: &[u8]) -> Option<(WiredModule, &[u8])>
    ensures some { IfSome result (λ x. HasPorts x.0 × (bytes.now ≡ line x.0 ++ x.1.now)) }
    ensures none { IfNone result ((on : WiredModule) (rest : List ℕ) → HasPorts on →
        bytes.now ≢ line on ++ rest) }
{
    let (number, rest) = number_after_words(bytes, b"module ", b' ')?;
    if number >= MAX_BOARD_MODULES {
        return None;
    }
    let (link0, rest) = place_after(rest, b"link 0 ", b' ')?;
    let (link3, rest) = place_after(rest, b"link 3 ", b'\n')?;
    let on = WiredModule {
        number,
        link0,
        link3,
    };
    Some((on, rest))
}

/// So many modules, line by line.
fn modules(lines: &[u8], count: usize) -> Result<(Board, &[u8]), WiringFault>
    requires { count ≤ JOINED_MODULES }
    ensures ok { IfOk result (λ x. AreModules lines.now count (modules_of x.0) x.1.now) }
    ensures err { IfErr result (StopsAt lines.now count) }
{
    let mut board = Board::none();
    let mut rest = lines;
    for number in 0..count {
        let Some((on, after)) = module_line(rest) else {
            return Err(WiringFault::Line(number + 2));
        };
        let Some(more) = board.with(on) else {
            return Err(WiringFault::Line(number + 2));
        };
        board = more;
        rest = after;
    }
    Ok((board, rest))
}

/// Reads a wiring's text: the line `wiring N`, for N from 1 to
/// [`JOINED_MODULES`](crossbar::JOINED_MODULES), and then N lines `module M link 0 at A link 3 at
/// B`, by rising numbers M below that. A and B are links of the switch, below
/// [`PORTS`](c004_commands::PORTS), and none of them stands twice. In the place of `at A` or `at B`
/// may stand `none`. Nothing stands after these lines. It takes no memory.
///
/// Gives the board whose wiring the text denotes, or the text's first line at fault. Takes time
/// that grows with the length of the text.
pub fn read_wiring(text: &[u8]) -> Result<Board, WiringFault>
    ensures wiring { IfOk result (λ board. Denotes text.now (modules_of board)) }
    ensures fault { IfErr result (IsFirstBad text.now) }
{
    let Some((count, lines)) = first_line(text) else {
        return Err(WiringFault::Line(1));
    };
    let (board, rest) = modules(lines, count)?;
    if !rest.is_empty() {
        return Err(WiringFault::Line(count + 2));
    }
    Ok(board)
}

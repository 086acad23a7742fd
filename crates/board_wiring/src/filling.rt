//! A wiring that leaves nothing out.

ghost use Rattle.std.specs.Prelude.{◌≡◌, ◌<◌, ◌≤◌, IfNone, IfSome, length, map, take};
ghost use Rattle.c004_commands.specs.declared.port.TheConstants.{PORTS};
ghost use Rattle.crossbar.specs.Wired.{links_of};
ghost use Rattle.board_wiring.specs.Boards.{Fills};
ghost use Rattle.board_wiring.specs.Faults.{IsPort};
ghost use Rattle.board_wiring.specs.Filling.{exchange as exchange_of, exchange_on, usual_links};

use crate::board::Board;
use crossbar::{BoardWiring, JOINED_MODULES, ModuleLinks};

/// Link 0 of module m on link m of the switch, and its link 3 on link 16 + m.
fn usual() -> BoardWiring
    ensures { links_of result ≡ usual_links }
{
    let mut wiring = BoardWiring::none();
    for number in 0..JOINED_MODULES {
        let links = ModuleLinks {
            link0: number,
            link3: number + JOINED_MODULES,
        };
        let Some(more) = wiring.with(links) else {
            unreachable!()
        };
        wiring = more;
    }
    wiring
}

/// A link, where two are exchanged.
fn exchange(link: u8, one: u8, other: u8) -> u8
    ensures { result ≡ exchange_of one other link }
{
    if link == one {
        other
    } else if link == other {
        one
    } else {
        link
    }
}

/// The wiring with two links of the switch exchanged.
fn exchanged(wiring: &BoardWiring, one: u8, other: u8) -> BoardWiring
    requires had { (one < PORTS) × (other < PORTS) }
    ensures { links_of result ≡ map (exchange_on one other) (links_of wiring.now) }
{
    let mut made = BoardWiring::none();
    for number in 0..wiring.modules() {
        let on = wiring.links(number);
        let links = ModuleLinks {
            link0: exchange(on.link0, one, other),
            link3: exchange(on.link3, one, other),
        };
        let Some(more) = made.with(links) else {
            unreachable!()
        };
        made = more;
    }
    made
}

/// The wiring with a link that was on the one link of the switch on this one, where there is one.
fn moved(wiring: BoardWiring, was: u8, link: Option<u8>) -> BoardWiring
    requires was { was < PORTS }
    requires link { IsPort link }
    ensures some { IfSome link (λ link.
        links_of result ≡ map (exchange_on was link) (links_of wiring)) }
    ensures none { IfNone link (links_of result ≡ links_of wiring) }
{
    match link {
        Some(link) => exchanged(&wiring, was, link),
        None => wiring,
    }
}

/// The first modules of a wiring, so many.
fn first_modules(wiring: &BoardWiring, count: usize) -> BoardWiring
    requires { count ≤ length (links_of wiring.now) }
    ensures { links_of result ≡ take count (links_of wiring.now) }
{
    let mut made = BoardWiring::none();
    for number in 0..count {
        let on = wiring.links(number);
        let Some(more) = made.with(on) else {
            unreachable!()
        };
        made = more;
    }
    made
}

impl Board {
    /// A wiring of the modules up to the last. What the board's leaves out is there on links of the
    /// switch that are free.
    pub fn wiring(&self) -> BoardWiring
        ensures { Fills self.now result }
    {
        let mut wiring = usual();
        for on in self.modules() {
            let was = wiring.links(on.number).link0;
            wiring = moved(wiring, was, on.link0);
            let was = wiring.links(on.number).link3;
            wiring = moved(wiring, was, on.link3);
        }
        first_modules(&wiring, self.width())
    }
}

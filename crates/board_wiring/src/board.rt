//! A board, as the text of its wiring says it is.

ghost use Rattle.std.specs.Prelude.{◌≡◌, ◌≤◌, ◌<◌, ◌==◌, ◌++◌, ◌∷◌, [], IsTrue, IfSome, IfNone};
ghost use Rattle.std.specs.Prelude.{length, take};
ghost use Rattle.std.specs.List.{list_any};
ghost use Rattle.crossbar.specs.declared.switch.TheConstants.{JOINED_MODULES};
ghost use Rattle.board_wiring.specs.Modules.{all_given, are_wired, given, has_module, has_link0};
ghost use Rattle.board_wiring.specs.Modules.{has_link3, is_at as is_at_link, is_free_in, is_one};

use crate::wired_module::WiredModule;
use c004_commands::PORTS;
use crossbar::JOINED_MODULES;

/// The most modules that a board has.
pub(crate) const MAX_BOARD_MODULES: usize = JOINED_MODULES as usize;

/// Which links of a board's one switch link 0 and link 3 of each of its modules are on, where they
/// are on one. The modules' numbers are below [`JOINED_MODULES`], and some may be left out. No two
/// of their links are on one link of the switch.
#[derive(Clone, Copy)]
pub struct Board {
    // What the modules are on, by rising numbers, and after them anything.
    lines: [WiredModule; MAX_BOARD_MODULES],
    count: usize,
    ghost few: { count ≤ JOINED_MODULES },
    ghost own: { IsTrue (are_wired (take count lines)) },
}

impl Board {
    ghost use Rattle.board_wiring.specs.Boards.{modules_of, width_of};

    /// No module is there.
    pub(crate) fn none() -> Board
        ensures { modules_of result ≡ [] }
    {
        let line = WiredModule {
            number: 0,
            link0: None,
            link3: None,
        };
        Board {
            lines: [line; MAX_BOARD_MODULES],
            count: 0,
        }
    }

    /// The number after that of the last module.
    pub(crate) fn width(&self) -> usize
        ensures width { result ≡ width_of self.now }
        ensures few { result ≤ JOINED_MODULES }
    {
        if self.count == 0 {
            return 0;
        }
        self.lines[self.count - 1].number + 1
    }

    /// The modules, by rising numbers.
    pub fn modules(&self) -> &[WiredModule]
        ensures { result.now ≡ modules_of self.now }
    {
        &self.lines[..self.count]
    }

    /// The board with one module more, or `None` where its number isn't above that of the last or
    /// isn't below [`JOINED_MODULES`], or where one of the links that it is on isn't free, or they
    /// are one.
    pub(crate) fn with(&self, on: WiredModule) -> Option<Board>
        ensures some { IfSome result (λ more. modules_of more ≡ modules_of self.now ++ on ∷ []) }
        ensures none { IfNone result (IsTrue (are_wired (modules_of self.now ++ on ∷ [])) → ⊥) }
    {
        if !self.has_room_for(&on) {
            return None;
        }
        let mut more = *self;
        more.lines[more.count] = on;
        more.count += 1;
        Some(more)
    }

    /// Whether the module may stand after the last, and the switch has the links that it is on,
    /// and these are free.
    fn has_room_for(&self, on: &WiredModule) -> bool
        ensures { result ≡ are_wired (modules_of self.now ++ on.now ∷ []) }
    {
        if on.number < self.width() || on.number >= MAX_BOARD_MODULES {
            return false;
        }
        self.is_free(on.link0) && self.is_free(on.link3) && !are_one(on.link0, on.link3)
    }

    /// Whether the switch has this link, and no module is on it.
    fn is_free(&self, link: Option<u8>) -> bool
        ensures { result ≡ is_free_in (all_given (modules_of self.now)) link }
    {
        match link {
            Some(link) => link < PORTS && !self.is_taken(link),
            None => true,
        }
    }

    /// Whether a module is on this link of the switch.
    fn is_taken(&self, link: u8) -> bool
        ensures { result ≡ list_any (is_at_link link) (modules_of self.now) }
    {
        self.lines[..self.count]
            .iter()
            .any(|on| is_at(on.link0, link) || is_at(on.link3, link))
    }

    /// Whether it has the module of this number.
    pub(crate) fn has_module(&self, number: usize) -> bool
        ensures { result ≡ has_module (modules_of self.now) number }
    {
        self.modules().iter().any(|on| on.number == number)
    }

    /// Whether link 0 of the module of this number is on a link of the switch.
    pub(crate) fn has_link0(&self, number: usize) -> bool
        ensures { result ≡ has_link0 (modules_of self.now) number }
    {
        self.modules()
            .iter()
            .any(|on| on.number == number && on.link0.is_some())
    }

    /// Whether link 3 of the module of this number is on a link of the switch.
    pub(crate) fn has_link3(&self, number: usize) -> bool
        ensures { result ≡ has_link3 (modules_of self.now) number }
    {
        self.modules()
            .iter()
            .any(|on| on.number == number && on.link3.is_some())
    }
}

/// Whether a link is on this link of the switch.
fn is_at(link: Option<u8>, other: u8) -> bool
    ensures { result ≡ list_any (λ link. link == other) (given link) }
{
    match link {
        Some(link) => link == other,
        None => false,
    }
}

/// Whether both links are on one link of the switch.
fn are_one(link0: Option<u8>, link3: Option<u8>) -> bool
    ensures { result ≡ is_one link0 link3 }
{
    match (link0, link3) {
        (Some(link0), Some(link3)) => link0 == link3,
        _ => false,
    }
}

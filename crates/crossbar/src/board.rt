//! How a board's modules are wired to its switch.

ghost use Rattle.std.specs.Prelude.{◌≡◌, ◌≤◌, ◌<◌, ◌==◌, ◌++◌, ◌∷◌, [], IsTrue, IfSome, IfNone};
ghost use Rattle.std.specs.Prelude.{length, take, Some};
ghost use Rattle.std.specs.List.{list_any};
ghost use Rattle.crossbar.specs.Boards.{is_at, is_wiring};
ghost use Rattle.crossbar.specs.declared.switch.TheConstants.{JOINED_MODULES};

use crate::module_links::ModuleLinks;
use crate::switch::JOINED_MODULES;
use c004_commands::PORTS;

const MODULES: usize = JOINED_MODULES as usize;

/// How a board leads link 0 and link 3 of each of its modules to its one switch. The modules are
/// numbered from 0 on. There are at most [`JOINED_MODULES`], and no two of their links are on one
/// link of the switch. That link 0 and link 3 are the ones that matter is this project's choice.
#[derive(Clone, Copy)]
pub struct BoardWiring {
    // What the modules are on, and after them anything.
    links: [ModuleLinks; MODULES],
    modules: usize,
    ghost few: { modules ≤ JOINED_MODULES },
    ghost own: { IsTrue (is_wiring (take modules links)) },
}

impl BoardWiring {
    ghost use Rattle.crossbar.specs.Wired.{links_of, links_on};

    /// No module is wired.
    pub fn none() -> BoardWiring
        ensures { links_of result ≡ [] }
    {
        let links = ModuleLinks { link0: 0, link3: 0 };
        BoardWiring {
            links: [links; MODULES],
            modules: 0,
        }
    }

    /// How many modules are wired.
    pub fn modules(&self) -> usize
        ensures number { result ≡ length (links_of self.now) }
        ensures few { result ≤ JOINED_MODULES }
    {
        self.modules
    }

    /// The links of the switch that the module of this number is on, which has to be wired.
    pub fn links(&self, number: usize) -> ModuleLinks
        requires { number < length (links_of self.now) }
        ensures links { result ≡ links_on self.now number }
        ensures had { (result.link0 < PORTS) × (result.link3 < PORTS) }
    {
        self.links[number]
    }

    /// The wiring with one module more, or `None` where one switch joins no more, or where one of
    /// the links that the module is on isn't free, or they are one.
    pub fn with(&self, links: ModuleLinks) -> Option<BoardWiring>
        ensures some { IfSome result (λ more. links_of more ≡ links_of self.now ++ links ∷ []) }
        ensures none { IfNone result (IsTrue (is_wiring (links_of self.now ++ links ∷ [])) → ⊥) }
    {
        if !self.has_room_for(&links) {
            return None;
        }
        let mut more = *self;
        more.links[more.modules] = links;
        more.modules += 1;
        Some(more)
    }

    /// Whether one switch joins one module more, and has the links that it is on, and these are
    /// free.
    fn has_room_for(&self, links: &ModuleLinks) -> bool
        ensures { result ≡ is_wiring (links_of self.now ++ links.now ∷ []) }
    {
        if self.modules == MODULES || links.link0 >= PORTS || links.link3 >= PORTS {
            return false;
        }
        links.link0 != links.link3 && !self.is_taken(links.link0) && !self.is_taken(links.link3)
    }

    /// Whether a module is on this link of the switch.
    pub fn is_taken(&self, link: u8) -> bool
        ensures { result ≡ list_any (is_at link) (links_of self.now) }
    {
        self.links[..self.modules]
            .iter()
            .any(|on| on.link0 == link || on.link3 == link)
    }
}

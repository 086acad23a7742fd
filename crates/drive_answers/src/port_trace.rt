//! What contracts see of ports.

ghost use Rattle.std.specs.Prelude.{◌≡◌, Some};
ghost use Rattle.plan_answers.specs.Lent.{bytes_of};
ghost use Rattle.drive_answers.specs.Ways.{given_back, names_of, opened_by, unopened_ways};

use crate::names::PortNames;
use byte_streams::{FailureCount, PassedBytes};
use crossbar::Traffic;
use std::marker::Model;
use switch_driver::StreamPort;

/// The names of ports, as contracts see them.
#[derive(Drop)]
struct SeenNames {
    port: PassedBytes,
    port_b: Option<PassedBytes>,
}

/// How often ports were opened, the names of those that were opened last, what passed over those
/// that were given back last, and how often these had failed. No call tells the program of it, and
/// it takes no memory.
#[derive(Drop)]
pub struct PortTrace {
    opened: FailureCount,
    names: Option<SeenNames>,
    carried: Option<Traffic>,
    failed: FailureCount,
}

impl Model for PortTrace {
    ghost use Rattle.drive_answers.specs.Ways.{Ways};
    ghost use Rattle.drive_answers.specs.Seen.{ways_seen};

    ghost Value = { Ways };

    ghost view = { λ ways. ways_seen ways.opened ways.names ways.carried ways.failed };
}

/// The bytes of a name.
fn seen(name: &str) -> PassedBytes
    ensures { result ≡ name.now }
{
    let mut bytes = PassedBytes::none();
    for byte in name.as_bytes() {
        bytes.add(*byte);
    }
    bytes
}

/// The bytes of a name, where there is one.
fn seen_option(name: Option<&str>) -> Option<PassedBytes>
    ensures { result ≡ bytes_of name.entry }
{
    match name {
        Some(name) => Some(seen(name)),
        None => None,
    }
}

impl PortTrace {
    /// None was opened as yet.
    pub fn none() -> PortTrace
        ensures { result ≡ unopened_ways }
    {
        PortTrace {
            opened: FailureCount::zero(),
            names: None,
            carried: None,
            failed: FailureCount::zero(),
        }
    }

    /// Takes down that the ports of these names were opened.
    pub fn open(&mut self, names: PortNames<'_>)
        ensures { self.new ≡ opened_by (names_of names.entry) self.old }
    {
        self.opened.raise();
        self.names = Some(SeenNames {
            port: seen(names.port),
            port_b: seen_option(names.port_b),
        });
    }

    /// They are given back.
    pub fn give_back<I: Drop, O: Drop>(&mut self, port: StreamPort<I, O>)
        ensures { self.new ≡ given_back (Some port.traffic) port.failed self.old }
    {
        let (traffic, failed) = port.into_passed();
        self.carried = Some(traffic);
        self.failed = failed;
    }
}

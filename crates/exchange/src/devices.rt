//! What the program speaks with by name, as it is left.

ghost use Rattle.std.specs.Prelude.{◌≡◌, []};

use byte_streams::PassedBytes;
use session_answers::Ending;
use std::alloc::Global;

/// The ports of switches, and how the sessions of live clients ended.
#[derive(Drop)]
pub struct Devices<P, D, N> {
    /// What opens the ports.
    pub ports: P,
    /// What gives passes for the files of live clients.
    pub desk: D,
    /// What takes down which files were read.
    pub reads: N,
    /// How the session of each client ended, in their order, and what went to its file.
    pub endings: Vec<Ending<PassedBytes>>,
}

impl<P, D, N> Devices<P, D, N> {
    /// Ports, and no session as yet.
    pub fn new(alloc: Global, ports: P, desk: D, reads: N) -> Devices<P, D, N>
        ensures ports { result.ports ≡ ports }
        ensures desk { result.desk ≡ desk }
        ensures reads { result.reads ≡ reads }
        ensures endings { result.endings.items ≡ [] }
    {
        let endings = Vec::new(alloc);
        Devices {
            ports,
            desk,
            reads,
            endings,
        }
    }
}

//! The ports of switches, by the names of their files.

ghost use Rattle.std.specs.Prelude.{◌≡◌, ◌≢◌, IfErr};
ghost use Rattle.refusals.specs.declared.refusal.Refusal.TheVariants.{NoMemory, Port};
ghost use Rattle.drive_answers.specs.Ways.{unopened_ways};

use crossbar::{Chip, Direction};
use drive_answers::{PortFailure, PortFile, PortNames, PortTrace, Ports};
use refusals::{PortName, Refusal};
use std::fs::{OpenFile, OpenOptions};
use std::io::ErrorKind;
use std::marker::Model;
use std::rt::Files;
use std::{fs, io};
use switch_driver::{StreamFault, StreamPort, SwitchStream};

/// The ports of the real system, and why one couldn't be opened, or failed.
#[derive(Drop)]
pub struct HostPorts<'a, R> {
    rt: &'a R,
    /// Whether the port of A is two pipes, and that of B.
    is_piped: bool,
    is_piped_b: bool,
    failure: Option<PortFailure>,
    ways: PortTrace,
}

impl<'a, R> Model for HostPorts<'a, R> {
    ghost use Rattle.drive_answers.specs.Ways.{Ways};

    ghost Value = { Ways };

    ghost view = { λ ports. ports.ways };
}

impl<'a, R> HostPorts<'a, R> {
    /// None is open.
    pub fn new(rt: &'a R) -> HostPorts<'a, R>
        ensures { result ≡ unopened_ways }
    {
        HostPorts {
            rt,
            is_piped: false,
            is_piped_b: false,
            failure: None,
            ways: PortTrace::none(),
        }
    }

    /// Why a port failed over whose streams this happened.
    fn failure_of(&self, fault: StreamFault) -> PortFailure {
        let (port, is_piped) = match fault.chip {
            Chip::A => (PortName::A, self.is_piped),
            Chip::B => (PortName::B, self.is_piped_b),
        };
        let file = match (is_piped, fault.direction) {
            (false, _) => PortFile::Port,
            (true, Direction::Sent) => PortFile::In,
            (true, Direction::Heard) => PortFile::Out,
        };
        let why = fault.why;
        PortFailure { port, file, why }
    }
}

/// Looks whether a file may be a port: a plain one that has something in it is none.
fn look_at_port<R: Files>(rt: &R, name: &str) -> io::Result<()> {
    let metadata = fs::metadata(rt, name)?;
    if metadata.is_file() && metadata.len() > 0 {
        let why = "a plain file with something in it; a port is a device or a pair of pipes";
        return Err(io::Error::other(why));
    }
    Ok(())
}

/// Opens the pipe to a switch.
fn open_to<R: Files>(rt: &R, name: &str) -> io::Result<R::File> {
    look_at_port(rt, name)?;
    OpenOptions::new().write(true).open(rt, name)
}

/// Opens a device both to read and to write.
fn open_device<R: Files>(rt: &R, name: &str) -> io::Result<SwitchStream<R::File, R::File>> {
    look_at_port(rt, name)?;
    let reader = OpenOptions::new().read(true).write(true).open(rt, name)?;
    let writer = reader.try_clone()?;
    Ok(SwitchStream { reader, writer })
}

/// The streams of a port that was opened, and whether it is two pipes.
type OpenedPort<F> = (SwitchStream<F, F>, bool);

/// A file of a port that couldn't be opened, and why.
type OpenFailure = (PortFile, io::Error);

/// The pipes that a port may be, by their names, and whether they are there.
#[derive(Drop)]
struct Pipes {
    to: String,
    from: String,
    has_to: bool,
    has_from: bool,
}

impl Pipes {
    /// Those of a port of this name.
    fn of<R: AllocGlobal + Files>(rt: &R, name: &str) -> io::Result<Pipes> {
        let to = format!(in rt.alloc(); "{name}.in")?;
        let from = format!(in rt.alloc(); "{name}.out")?;
        let has_to = fs::exists(rt, to.as_str())?;
        let has_from = fs::exists(rt, from.as_str())?;
        Ok(Pipes {
            to,
            from,
            has_to,
            has_from,
        })
    }

    /// The file that is missing where the port's own couldn't be opened for this reason: the other
    /// pipe, where one is there alone, and the port's own isn't.
    fn lacking(&self, why: &io::Error) -> PortFile {
        match (why.kind(), self.has_to, self.has_from) {
            (ErrorKind::NotFound, true, false) => PortFile::Out,
            (ErrorKind::NotFound, false, true) => PortFile::In,
            _ => PortFile::Port,
        }
    }

    /// Opens both, that to the switch first.
    fn open<R: AllocGlobal + Files>(&self, rt: &R) -> Result<OpenedPort<R::File>, OpenFailure> {
        let writer = open_to(rt, self.to.as_str()).map_err(|why| (PortFile::In, why))?;
        let reader = OpenOptions::new().read(true).open(rt, self.from.as_str());
        let reader = reader.map_err(|why| (PortFile::Out, why))?;
        Ok((SwitchStream { reader, writer }, true))
    }
}

/// Opens both ways of a port: `NAME.in` to the switch, and then `NAME.out` from it, where both are
/// there; else `NAME` both to read and to write. Nothing is made, and nothing emptied.
fn open_port<R: AllocGlobal + Files>(
    rt: &R,
    name: &str,
) -> Result<OpenedPort<R::File>, OpenFailure> {
    let pipes = Pipes::of(rt, name).map_err(|why| (PortFile::Port, why))?;
    if pipes.has_to && pipes.has_from {
        return pipes.open(rt);
    }
    match open_device(rt, name) {
        Ok(stream) => Ok((stream, false)),
        Err(why) => Err((pipes.lacking(&why), why)),
    }
}

impl<'a, R: AllocGlobal + Files> HostPorts<'a, R> {
    /// Opens one of them.
    fn open_one(&mut self, port: PortName, name: &str) -> Result<OpenedPort<R::File>, Refusal>
        ensures refused { IfErr result (λ refusal. refusal ≢ NoMemory → refusal ≡ Port port) }
        ensures same { self.new ≡ self.old }
    {
        match open_port(self.rt, name) {
            Ok(opened) => Ok(opened),
            Err((_, why)) if why.kind() == ErrorKind::OutOfMemory => Err(Refusal::NoMemory),
            Err((file, why)) => {
                self.failure = Some(PortFailure { port, file, why });
                Err(Refusal::Port(port))
            }
        }
    }
}

impl<'a, R: AllocGlobal + Files> Ports for HostPorts<'a, R> {
    type Port = StreamPort<R::File, R::File>;

    ghost ways = { λ ports. ports };

    fn open(&mut self, names: PortNames<'_>) -> Result<StreamPort<R::File, R::File>, Refusal> {
        let (a, is_piped) = self.open_one(PortName::A, names.port)?;
        self.is_piped = is_piped;
        let b = match names.port_b {
            Some(name) => {
                let (b, is_piped_b) = self.open_one(PortName::B, name)?;
                self.is_piped_b = is_piped_b;
                Some(b)
            }
            None => None,
        };
        self.ways.open(names);
        Ok(StreamPort::new(a, b))
    }

    fn take_failure(&mut self) -> Option<PortFailure> {
        self.failure.take()
    }

    fn close(&mut self, port: StreamPort<R::File, R::File>) {
        let mut port = port;
        if let Some(fault) = port.take_fault() {
            self.failure = Some(self.failure_of(fault));
        }
        self.ways.give_back(port);
    }
}

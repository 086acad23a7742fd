//! The port over streams.

ghost use Rattle.std.specs.Prelude.{◌≡◌, ◌+◌, Some, length, IsTrue, false, OnOk, OnErr};
ghost use Rattle.crossbar.specs.Port.{IsConversation};
ghost use Rattle.crossbar.specs.Traffic.{HaveConversed, BreaksOff};
ghost use Rattle.switch_driver.specs.Ports.{PortCameUp, HasTried, IsUpOnce, LineCarries};
ghost use Rattle.switch_driver.specs.Ports.{fresh_port};
ghost use Rattle.switch_driver.specs.Streams.{HasPassed};

use crate::stream::{StreamFault, SwitchStream, converse};
use crate::switch_start::start_switch;
use byte_streams::FailureCount;
use crossbar::{Chip, ConfigPort, PortFault, Traffic};
use std::io;
use std::io::{ErrorKind, Read, Write};

/// The line to a switch: its stream, and whether the switch has come up.
#[derive(Drop)]
struct SwitchLine<I, O> {
    stream: SwitchStream<I, O>,
    is_up: bool,
}

impl<I, O> SwitchLine<I, O> {
    /// The line to a switch that hasn't come up.
    fn new(stream: SwitchStream<I, O>) -> SwitchLine<I, O>
        ensures { result ≡ record { stream = stream; is_up = false } }
    {
        SwitchLine {
            stream,
            is_up: false,
        }
    }
}

impl<I: Read, O: Write> SwitchLine<I, O> {
    /// Brings the switch up, unless it has come up. What passes is noted.
    fn bring_up(&mut self, chip: Chip, came_up: &mut Traffic) -> Result<(), StreamFault>
        ensures passed { HasPassed O.contents I.remaining self.old.stream self.new.stream
            came_up.old came_up.new }
        ensures once { IsTrue self.old.is_up →
            (self.new.stream ≡ self.old.stream) × (came_up.new ≡ came_up.old) }
        ensures up { IsUpOnce chip self.old self.new came_up.old came_up.new }
        ensures is_up { OnOk result (IsTrue self.new.is_up) }
    {
        if self.is_up {
            return Ok(());
        }
        start_switch(chip, &mut self.stream, came_up)?;
        self.is_up = true;
        Ok(())
    }

    /// Brings the switch up, unless it has come up, and then sends the commands and hears the
    /// replies.
    fn converse(
        &mut self,
        chip: Chip,
        bytes: &[u8],
        replies: &mut [u8],
        came_up: &mut Traffic,
        traffic: &mut Traffic,
    ) -> Result<(), StreamFault>
        requires { IsConversation bytes.now (length replies.old) }
        ensures carried { LineCarries O.contents I.remaining self.old self.new
            came_up.old came_up.new traffic.old traffic.new }
        ensures up { IsUpOnce chip self.old self.new came_up.old came_up.new }
        ensures is_up { OnOk result (IsTrue self.new.is_up) }
        ensures whole { OnOk result
            (HaveConversed chip bytes.now replies.new (Some traffic.old) (Some traffic.new)) }
        ensures broken { OnErr result
            (BreaksOff chip bytes.now (Some traffic.old) (Some traffic.new)) }
    {
        self.bring_up(chip, came_up)?;
        converse(chip, bytes, replies, &mut self.stream, traffic)
    }
}

/// A port to the switches of a rack over streams of bytes: one for the one switch, and a second
/// where there are two. What is sent to a switch that has no stream fails. Nobody knows what is at
/// the other ends, so it isn't honest: what was replied has to be looked at.
///
/// Before it is first sent anything else, each switch comes up: whatever command it stands in is
/// ended, and answers that stand in the line are read. That isn't counted as what has passed.
#[derive(Drop)]
pub struct StreamPort<I, O> {
    a: SwitchLine<I, O>,
    b: Option<SwitchLine<I, O>>,
    came_up: Traffic,
    traffic: Traffic,
    failed: FailureCount,
    lost: Option<StreamFault>,
}

impl<I, O> StreamPort<I, O> {
    /// A port over streams, over which nothing has passed as yet.
    pub fn new(a: SwitchStream<I, O>, b: Option<SwitchStream<I, O>>) -> StreamPort<I, O>
        ensures { result ≡ fresh_port a b }
    {
        let b = match b {
            Some(stream) => Some(SwitchLine::new(stream)),
            None => None,
        };
        StreamPort {
            a: SwitchLine::new(a),
            b,
            came_up: Traffic::none(),
            traffic: Traffic::none(),
            failed: FailureCount::zero(),
            lost: None,
        }
    }

    /// Why it failed last, where it has failed. It is told once.
    pub fn take_fault(&mut self) -> Option<StreamFault>
        ensures { (self.new.traffic ≡ self.old.traffic) × (self.new.failed ≡ self.old.failed) }
    {
        self.lost.take()
    }
}

impl<I: Drop, O: Drop> StreamPort<I, O> {
    /// What has passed over the streams, which are let go, and how often the port has failed.
    pub fn into_passed(self) -> (Traffic, FailureCount)
        ensures { (result.0 ≡ self.traffic) × (result.1 ≡ self.failed) }
    {
        let StreamPort {
            traffic,
            failed,
            ..
        } = self;
        (traffic, failed)
    }
}

impl<I: Read, O: Write> StreamPort<I, O> {
    /// Sends the commands to a chip, and hears the replies.
    fn try_converse(
        &mut self,
        chip: Chip,
        bytes: &[u8],
        replies: &mut [u8],
    ) -> Result<(), StreamFault>
        requires { IsConversation bytes.now (length replies.old) }
        ensures tried { HasTried O.contents I.remaining chip self.old self.new }
        ensures up { OnOk result (PortCameUp chip self.old self.new) }
        ensures went { OnOk result (HaveConversed chip bytes.now replies.new
            (Some self.old.traffic) (Some self.new.traffic)) }
        ensures broken { OnErr result (BreaksOff chip bytes.now
            (Some self.old.traffic) (Some self.new.traffic)) }
        ensures failed { self.new.failed ≡ self.old.failed }
    {
        let (came_up, traffic) = (&mut self.came_up, &mut self.traffic);
        match (chip, &mut self.b) {
            (Chip::A, _) => self.a.converse(chip, bytes, replies, came_up, traffic),
            (Chip::B, Some(b)) => b.converse(chip, bytes, replies, came_up, traffic),
            (Chip::B, None) => {
                let none = io::Error::from(ErrorKind::NotConnected);
                Err(StreamFault::to(chip, none))
            }
        }
    }
}

impl<I: Read, O: Write> ConfigPort for StreamPort<I, O> {
    ghost use Rattle.std.specs.Prelude.{false};
    ghost use Rattle.crossbar.specs.Chips.{both_idle};

    ghost switches = { λ _. both_idle };

    ghost honest = { λ _. false };

    ghost failures = { λ port. port.failed };

    ghost passed = { λ port. Some port.traffic };

    /// Writes and reads byte by byte, and takes no memory. It waits for each reply. The first time
    /// it brings the switch up.
    fn converse(&mut self, chip: Chip, bytes: &[u8], replies: &mut [u8]) -> Result<(), PortFault>
        requires { IsConversation bytes.now (length replies.old) }
        ensures tried { HasTried O.contents I.remaining chip self.old self.new }
        ensures up { OnOk result (PortCameUp chip self.old self.new) }
        ensures passed { OnOk result (HaveConversed chip bytes.now replies.new
            (Some self.old.traffic) (Some self.new.traffic)) }
        ensures broken { OnErr result (BreaksOff chip bytes.now
            (Some self.old.traffic) (Some self.new.traffic)) }
        ensures fault { OnErr result (self.new.failed ≡ self.old.failed + 1) }
        ensures unfailed { OnOk result (self.new.failed ≡ self.old.failed) }
    {
        match self.try_converse(chip, bytes, replies) {
            Ok(()) => Ok(()),
            Err(fault) => {
                self.failed.raise();
                self.lost = Some(fault);
                Err(PortFault)
            }
        }
    }
}

//! A seat, and what its session asks of the exchange.

ghost use Rattle.std.specs.Prelude.{◌≡◌, true, Some, IfOk, IfErr, OnOk, OnErr};
ghost use Rattle.client_session.specs.declared.fault.ServeFault.TheVariants.{Record};
ghost use Rattle.client_session.specs.Seats.{seat_view, IsCalled, IsUncalled, IsProgressRead};

use crate::fault::ServeFault;
use crate::setup::Setup;
use batch::Shape;
use batch_book::{Call, History, Reading, Reply, Seat, Shared, Unrecorded};
use std::marker::Model;
use std::sync::Wait;
use std::thread::Threads;
use std::time::Clock;

/// A seat beside the exchange that it belongs to. Contracts see the seat as its session does.
#[derive(Drop)]
pub(crate) struct ExchangeSeat<'a, X: Setup> {
    shared: &'a Shared<X::Name, X::Port, X::Wires, X::Gate, X::Entries>,
    seat: Seat<X::Name>,
}

impl<'a, X: Setup> Model for ExchangeSeat<'a, X> {
    ghost use Rattle.std.specs.Prelude.{◌≡◌, Some};
    ghost use Rattle.client_session.specs.Seats.{SeatView, seat_view};

    ghost Value = { SeatView };

    ghost view = { λ d. seat_view X.Entries.loses d.shared.now.shape d.seat };

    ghost invariant = { λ d. d.seat.exchange ≡ Some d.shared.now.word };
}

impl<'a, X: Setup> ExchangeSeat<'a, X> {
    /// The seat at its exchange.
    pub fn new(
        shared: &'a Shared<X::Name, X::Port, X::Wires, X::Gate, X::Entries>,
        seat: Seat<X::Name>,
    ) -> ExchangeSeat<'a, X>
        requires { seat.exchange ≡ Some shared.now.word }
        ensures { result ≡ seat_view X.Entries.loses shared.now.shape seat }
    {
        ExchangeSeat { shared, seat }
    }

    /// The seat.
    pub fn into_seat(self) -> Seat<X::Name>
        ensures { seat_view self.entry.loses self.entry.shape result ≡ self.entry }
    {
        self.seat
    }

    /// The shape of the exchange's rack.
    pub fn shape(&self) -> Shape
        ensures { result ≡ self.now.shape }
    {
        self.shared.shape()
    }

    /// Whether it may have asked something that can't be told yet.
    pub fn has_pending(&self) -> bool
        ensures { result ≡ true → self.now.loses ≡ true }
    {
        self.shared.has_pending(&self.seat)
    }

    /// Reads the progress word.
    pub fn progress(&mut self) -> Reading
        ensures { IsProgressRead self.old result self.new }
    {
        self.shared.progress(&mut self.seat)
    }

    /// Makes a call of the book, whose reply can be told once the seat is synced.
    pub fn call<R: Threads + Wait + Sync>(
        &mut self,
        rt: &R,
        call: Call,
    ) -> Result<Reply, Unrecorded>
        ensures ok { IfOk result (λ reply. IsCalled self.old call reply self.new) }
        ensures err { OnErr result (IsUncalled self.old self.new) }
        ensures loses { OnErr result (X.Entries.loses ≡ true) }
    {
        self.shared.try_call(rt, &mut self.seat, call)
    }

    /// Sees to it that all which the session has asked can be told. The fault is that the record is
    /// broken.
    pub fn sync<R: Wait + Clock>(&mut self, rt: &R) -> Result<(), ServeFault>
        ensures ok { OnOk result (self.new ≡ record self.old { log = self.old.asked }) }
        ensures fault { IfErr result (λ fault. fault ≡ Record) }
        ensures err { OnErr result (self.new ≡ record self.old { broken = true }) }
        ensures loses { OnErr result (X.Entries.loses ≡ true) }
    {
        self.shared.sync(rt, &mut self.seat)?;
        Ok(())
    }
}

//! What an exchange is made of.

use batch_book::{ExchangeName, History};
use crossbar::ConfigPort;
use peek_poke::WireMaker;
use schedule_certificate::Gate;
use std::marker::PhantomData;

/// What an exchange is made of: its name, its plant's port, wires and gate, and where its book's
/// entries go.
pub(crate) trait Setup {
    type Name: ExchangeName;

    type Port: ConfigPort;

    type Wires: WireMaker + Sync;

    type Gate: Gate + Sync;

    type Entries: History;
}

/// An exchange of these.
pub(crate) struct Parts<L, P, W, G, K>(PhantomData<(L, P, W, G, K)>);

impl<L: ExchangeName, P: ConfigPort, W: WireMaker + Sync, G: Gate + Sync, K: History> Setup
    for Parts<L, P, W, G, K> {
    type Name = L;

    type Port = P;

    type Wires = W;

    type Gate = G;

    type Entries = K;
}

ghost use Rattle.std.specs.Prelude.{◌≡◌};
ghost use Rattle.module_orders.specs.Orders.{act_at as act_of, block_at as block_of, is_copy};
ghost use Rattle.module_orders.specs.Orders.{order_at as order_of, sending};
ghost use Rattle.module_orders.specs.OrdersText.{act_words};

use batch::{Kind, Transfer};
use link_graph::End;

/// What a module does over a link, as to one of its blocks.
#[derive(Clone, Copy, PartialEq, Eq)]
pub enum Act {
    /// It sends the words of the block, as they are.
    Send,
    /// It sends the words of the block that it copied aside before the first setting.
    SendCopy,
    /// It receives words, and puts them into the block.
    Receive,
}

impl Act {
    /// Whether the copy of the block is sent.
    pub fn is_copy(self) -> bool
        ensures { result ≡ is_copy self }
    {
        match self {
            Act::SendCopy => true,
            Act::Send | Act::Receive => false,
        }
    }

    /// The words of the text that say it.
    pub(crate) fn words(self) -> &'static str
        ensures { result.now ≡ act_words self }
    {
        match self {
            Act::Send => "send block",
            Act::SendCopy => "send copy",
            Act::Receive => "receive block",
        }
    }
}

/// What a module does over one of its links while a setting stands: with all words of a block, the
/// first of them first. Settings and blocks are numbered from 0.
#[derive(Clone, Copy, PartialEq, Eq)]
pub struct Order {
    pub setting: usize,
    /// Which of the module's links it is: link 0 or link 3.
    pub end: End,
    pub act: Act,
    pub block: usize,
}

/// What the module at this end of a transfer does, where the end that sends does `sends`.
fn act_at(end: End, kind: Kind, sends: Act) -> Act
    ensures { result ≡ act_of end kind sends }
{
    match end {
        End::Zero => match kind {
            Kind::Push => sends,
            Kind::Pull => Act::Receive,
        },
        End::Three => match kind {
            Kind::Push => Act::Receive,
            Kind::Pull => sends,
        },
    }
}

/// The block of the module at this end of a transfer.
fn block_at(end: End, transfer: &Transfer) -> usize
    ensures { result ≡ block_of end transfer.now }
{
    match end {
        End::Zero => transfer.own_block,
        End::Three => transfer.far_block,
    }
}

/// What is sent of a block that is `late`: changed by then.
fn sent(late: bool) -> Act
    ensures { result ≡ sending late }
{
    if late { Act::SendCopy } else { Act::Send }
}

/// The order that a transfer of a setting gives the module at this end, where its source is `late`:
/// changed in this setting, or in one before it.
pub(crate) fn order_at(late: bool, setting: usize, end: End, transfer: &Transfer) -> Order
    ensures { result ≡ order_of late setting end transfer.now }
{
    Order {
        setting,
        end,
        act: act_at(end, transfer.kind, sent(late)),
        block: block_at(end, transfer),
    }
}

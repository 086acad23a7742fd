//! What an entry of the history keeps of a call, and of the reply to it.

ghost use Rattle.std.specs.Prelude.{◌≡◌};
ghost use Rattle.std.specs.Option.{option_copied};
ghost use Rattle.batch_book.specs.Told.{told, IsKeptOf};

use crate::call::Call;
use crate::recorded_call::RecordedCall;
use crate::reply::Reply;
use crate::shared_batch::SharedBatch;
use std::marker::Model;
use std::snapshot::Snapshot;

/// A call of the history. It keeps no plan. A batch that was submitted it shares with the book,
/// while that has it. Contracts see the whole call.
#[derive(Drop)]
pub struct LoggedCall {
    kept: RecordedCall<SharedBatch>,
    asked: Snapshot<Call>,
}

impl Model for LoggedCall {
    ghost use Rattle.std.specs.Prelude.{◌≡◌};
    ghost use Rattle.batch_book.specs.declared.call.Call.{Call};
    ghost use Rattle.batch_book.specs.Told.{told};

    ghost Value = { Call };

    ghost view = { λ c. c.asked.value };

    ghost invariant = { λ c. c.kept ≡ told c.asked.value };
}

impl LoggedCall {
    /// This call, of which that is kept.
    pub(crate) fn new(asked: Snapshot<Call>, kept: RecordedCall<SharedBatch>) -> LoggedCall
        requires { kept ≡ told asked.value }
        ensures { result ≡ asked.value }
    {
        LoggedCall { kept, asked }
    }

    /// All of the call, but its plan.
    pub fn told(&self) -> &RecordedCall<SharedBatch>
        ensures { result.now ≡ told self.now }
    {
        &self.kept
    }
}

/// A reply of the history. It keeps no batch that was fetched. Contracts see the whole reply.
#[derive(Drop)]
pub struct LoggedReply {
    kept: Option<Reply>,
    given: Snapshot<Reply>,
}

impl Model for LoggedReply {
    ghost use Rattle.batch_book.specs.declared.reply.Reply.{Reply};
    ghost use Rattle.batch_book.specs.Told.{IsKeptOf};

    ghost Value = { Reply };

    ghost view = { λ r. r.given.value };

    ghost invariant = { λ r. IsKeptOf r.kept r.given.value };
}

impl LoggedReply {
    /// What the history keeps of a reply. It takes no memory.
    #[inline(always)]
    pub(crate) fn of(reply: &Reply) -> LoggedReply
        ensures { result ≡ reply.now }
    {
        LoggedReply {
            kept: reply.without_batch(),
            given: Snapshot::of(reply),
        }
    }

    /// The reply, where it is no batch that was fetched.
    pub fn kept(&self) -> Option<&Reply>
        ensures { IsKeptOf (option_copied result) self.now }
    {
        self.kept.as_ref()
    }
}

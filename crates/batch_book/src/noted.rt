//! What is noted of calls, for the lists of sessions.

ghost use Rattle.std.specs.Prelude.{◌≡◌, ◌++◌, ◌+◌, ◌<◌, length};
ghost use Rattle.batch_book.specs.Recording.{note, mark, side_note, noted, made_in};

use crate::call::Call;
use crate::ghost_history::HistorySnapshot;
use crate::naming::ExchangeName;
use crate::reply::Reply;
use crate::unrecorded::Unrecorded;
use session_lists::{Keeper, OwnList, SessionItem};
use std::marker::Model;
use std::snapshot::Snapshot;
use std::sync::ledger;
use std::sync::ledger::Share;

/// A call that a session made, its reply and the place of its entry; or a mark, that all which the
/// session has asked can be told; or what a side that has a lock of its own knows of the entries.
/// Contracts alone see it; it takes no memory.
#[derive(Drop)]
pub struct NotedEntry {
    session: Snapshot<usize>,
    made: Option<(Snapshot<Call>, Snapshot<Reply>)>,
    place: Snapshot<u64>,
    lists: Option<(Snapshot<HistorySnapshot>, Snapshot<HistorySnapshot>)>,
}

/// A call of this session, which is asked. It takes no memory.
#[derive(Drop)]
pub struct AskedCall {
    pub session: usize,
    pub call: Snapshot<Call>,
}

impl Model for NotedEntry {
    ghost use Rattle.std.specs.Prelude.{option_map};
    ghost use Rattle.batch_book.specs.Recording.{Noted};

    ghost Value = { Noted };

    ghost view = { λ n. record {
      session = n.session.value;
      made = option_map (λ m. (m.0.value, m.1.value)) n.made;
      place = n.place.value;
      lists = option_map (λ l. (l.0.value.value.value, l.1.value.value.value)) n.lists;
    } };
}

impl SessionItem for NotedEntry {
    ghost session = { λ n. n.session };
}

impl NotedEntry {
    /// A call, its reply, and the place of its entry.
    pub(crate) fn of(asked: AskedCall, place: u64, reply: &Reply) -> NotedEntry
        ensures { result ≡ note asked.session place asked.call.value reply.now }
    {
        NotedEntry {
            session: Snapshot::of(&asked.session),
            made: Some((asked.call, Snapshot::of(reply))),
            place: Snapshot::of(&place),
            lists: None,
        }
    }

    /// All that the session has asked can be told.
    pub(crate) fn mark(session: usize) -> NotedEntry
        ensures { result ≡ mark session }
    {
        NotedEntry {
            session: Snapshot::of(&session),
            made: None,
            place: Snapshot::of(&0),
            lists: None,
        }
    }

    /// What a side knows of all entries, and of those that were queued, and up to which place they
    /// are durable.
    pub(crate) fn side(
        side: usize,
        place: u64,
        all: &HistorySnapshot,
        queued: &HistorySnapshot,
    ) -> NotedEntry
        ensures { result ≡ side_note side place all.now.value.value queued.now.value.value }
    {
        NotedEntry {
            session: Snapshot::of(&side),
            made: None,
            place: Snapshot::of(&place),
            lists: Some((Snapshot::of(all), Snapshot::of(queued))),
        }
    }
}

/// Notes a call in the history of an exchange, and in the list of its session. The ledger counts
/// its entry, which has this place.
pub(crate) fn note_call<L: ExchangeName>(
    keeper: &mut Keeper<NotedEntry, L>,
    entries: &mut ledger::Book<L>,
    share: &mut Share<L>,
    own: OwnList<NotedEntry, L>,
    asked: AskedCall,
    made: &Result<Reply, Unrecorded>,
    place: u64,
) -> OwnList<NotedEntry, L>
    requires session { own.session ≡ asked.session }
    requires parts { 0 < share.old.parts }
    ensures history { keeper.new.history
        ≡ keeper.old.history ++ noted asked.session place asked.call.value made.now }
    ensures list { result.list ≡ own.list ++ noted asked.session place asked.call.value made.now }
    ensures session { result.session ≡ asked.session }
    ensures total { entries.new.total
        ≡ entries.old.total
        + length (made_in (noted asked.session place asked.call.value made.now)) }
    ensures amount { share.new.amount
        ≡ share.old.amount
        + length (made_in (noted asked.session place asked.call.value made.now)) }
    ensures parts { share.new.parts ≡ share.old.parts }
{
    match made {
        Ok(reply) => {
            if !reply.is_logged() {
                return own;
            }
            entries.add(share, 1);
            keeper.add(own, &NotedEntry::of(asked, place, reply))
        }
        Err(_) => own,
    }
}

//! Laws of the records that sessions leave.

ghost use Rattle.record_replay.specs.SessionRecords.{HostIsReplayed, ServeIsReplayed};
ghost use Rattle.record_replay.specs.SessionRecords.{StreamIsRecorded, TalkIsReplayed};
ghost use Rattle.record_replay.specs.SessionLaws.{NoStrangers, SessionsAreTold, SessionsSay};

/// Whatever entries come before: if each session settles a plan right after fetching its batch, no
/// plan is another batch's; so a record can hold all that sessions leave, if no run stopped.
pub fn sessions_are_told()
    ensures say { SessionsSay }
    ensures strangers { NoStrangers }
    ensures told { SessionsAreTold }
{}

/// The record of the book that `serve` leaves is replayed to that book's words: given the same
/// image, and the same shape or none, `replay` has just this answer. `host` and `talk` write theirs
/// while calls are made, maybe after an earlier record. Wherever that file ends, even within an
/// entry, it is replayed to the words to which its whole entries lead: all that any session got a
/// reply to, and maybe some last ones without. What a stream's writer holds is such a file.
pub fn record_is_answered()
    ensures serve { ServeIsReplayed }
    ensures host { HostIsReplayed }
    ensures talk { TalkIsReplayed }
    ensures stream { StreamIsRecorded }
{
    sessions_are_told();
}

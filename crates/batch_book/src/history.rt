//! Where the entries of an exchange go.

ghost use Rattle.std.specs.Prelude.{◌≡◌, true, false, List, IfOk, IfErr, IfSome, IsSome, OnOk};
ghost use Rattle.std.specs.Prelude.{OnErr};
ghost use Rattle.batch_book.specs.declared.entry.Entry.{Entry};
ghost use Rattle.batch_book.specs.History.{IsPrefix};

use crate::entry_log::EntryLog;
use crate::pending_entries::PendingEntries;
use crate::recorder::Recorder;

/// Where the entries of an exchange go. Where they wait until they are written, the history lends
/// its recorder, so that some are written while others are made.
///
/// Such a history is whole as long as no writing has failed. Once one has, the entries that waited
/// may be missing there, and one may be cut; no later writing puts any there.
pub trait History: EntryLog {
    /// What is left of it while its recorder is lent.
    type Pending: PendingEntries + Send;

    /// What writes the entries.
    type Recorder: Recorder + Send;

    /// Lends its recorder. A history that loses no entry comes back as it is.
    fn lend(self) -> Result<(Self::Pending, Self::Recorder), Self>
        requires whole { Self.whole self ≡ true }
        requires all { Self.durable self ≡ Self.pushed self }
        ensures pushed { IfOk result (λ parts. Self.Pending.pushed parts.0 ≡ Self.pushed self) }
        ensures queued { IfOk result (λ parts. Self.Pending.durable parts.0 ≡ Self.pushed self) }
        ensures whole { IfOk result (λ parts. Self.Pending.whole parts.0 ≡ true) }
        ensures durable { IfOk result (λ parts. Self.Recorder.durable parts.1 ≡ Self.pushed self) }
        ensures tried { IfOk result (λ parts. Self.Recorder.tried parts.1 ≡ Self.pushed self) }
        ensures texts { OnOk result ((taken all : List Entry)
            → Self.Pending.texts taken all ≡ Self.Recorder.texts taken all) }
        ensures limited { OnOk result (Self.Pending.limited ≡ Self.limited) }
        ensures loses { OnOk result ((Self.loses ≡ true) × (Self.Pending.loses ≡ true)) }
        ensures sure { OnErr result (Self.loses ≡ false) }
        ensures back { IfErr result (λ back. back ≡ self) };

    /// The history whose recorder is back. Unless a writing has failed it writes all that the
    /// recorder hasn't got: this text of the entries that were queued, and that of the others.
    /// Nothing, where it lends no recorder.
    fn take_back(pending: Self::Pending, recorder: Self::Recorder, text: &[u8]) -> Option<Self>
        requires durable { IsPrefix (Self.Recorder.durable recorder)
            (Self.Recorder.tried recorder) }
        requires first { IsPrefix (Self.Recorder.tried recorder) (Self.Pending.durable pending) }
        requires front { IsPrefix (Self.Pending.durable pending) (Self.Pending.pushed pending) }
        requires text { text.now ≡ Self.Recorder.texts (Self.Recorder.tried recorder)
            (Self.Pending.durable pending) }
        ensures some { Self.loses ≡ true → IsSome result }
        ensures pushed { IfSome result (λ back. Self.pushed back ≡ Self.Pending.pushed pending) }
        ensures more { IfSome result (λ back.
            IsPrefix (Self.Recorder.durable recorder) (Self.durable back)) }
        ensures front { IfSome result (λ back. IsPrefix (Self.durable back) (Self.pushed back)) }
        ensures all { IfSome result (λ back.
            Self.whole back ≡ true → Self.durable back ≡ Self.pushed back) };
}

//! Where the entries of a book go.

ghost use Rattle.std.specs.Prelude.{◌≡◌, ◌++◌, ◌∷◌, [], true, false, ℕ, Bool, List, length, OnOk};
ghost use Rattle.batch_book.specs.declared.call.Call.{Call};
ghost use Rattle.batch_book.specs.declared.entry.Entry.{Entry};
ghost use Rattle.batch_book.specs.Answering.{IsReplyTo};
ghost use Rattle.batch_book.specs.History.{has_room};

use crate::call::Call;
use crate::entry::Entry;
use std::alloc::AllocError;

/// Where the entries of a book go. An entry is drafted before its call is made, so that want of
/// memory changes nothing, and is pushed with the reply.
pub trait EntryLog {
    /// The entries that were pushed, in order.
    ghost pushed: { Self → List Entry };

    /// The first of them: those that are durable, or were queued for who writes them.
    ghost durable: { Self → List Entry };

    /// Whether none of them is lost.
    ghost whole: { Self → Bool };

    /// Whether their number is limited, to `MAX_ENTRIES`.
    ghost limited: { Bool };

    /// Whether an entry is pending until it is written, and may be lost. Else it is durable as soon
    /// as it is pushed.
    ghost loses: { Bool };

    /// The entry of this call of a session was drafted.
    ghost drafted: { Self → ℕ → Call → Type 0 };

    /// Whether none of them is lost.
    fn is_whole(&self) -> bool
        ensures { result ≡ whole self.now };

    /// Whether there is room for one more entry.
    fn has_room(&self) -> bool
        ensures { result ≡ has_room limited (length (pushed self.now)) };

    /// Drafts the entry of a call of a session, and takes the room for its reply. Nothing is
    /// pushed.
    fn draft(&mut self, session: usize, call: &Call) -> Result<(), AllocError>
        ensures pushed { pushed self.new ≡ pushed self.old }
        ensures durable { durable self.new ≡ durable self.old }
        ensures whole { whole self.new ≡ whole self.old }
        ensures drafted { OnOk result (drafted self.new session call.now) };

    /// Pushes the entry that was drafted.
    fn push(&mut self, entry: Entry)
        requires drafted { drafted self.old entry.session entry.call }
        requires answers { IsReplyTo entry.call entry.reply }
        ensures pushed { pushed self.new ≡ pushed self.old ++ entry ∷ [] }
        ensures waits { loses ≡ true → durable self.new ≡ durable self.old }
        ensures all { loses ≡ false → durable self.new ≡ pushed self.new }
        ensures whole { whole self.new ≡ whole self.old };
}

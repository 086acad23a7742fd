//! What may stand in a line.

use crate::context::OpeningRack;
use crate::forms::write_forms;
use crate::lines::{announced, line_at};
use crate::listed::Listing;
use crate::quote::Quote;
use batch::MAX_MODULES;
use c004_commands::PORTS;
use crossbar::JOINED_MODULES;
use exchange_limits::MAX_SESSIONS;
use std::fmt::{self, Display, Formatter, Write};

const _: () = prove!(MAX_MODULES == 32 && PORTS == 32 && JOINED_MODULES == 16);

const _: () = prove!(MAX_SESSIONS == 16);

/// The first line of a record, and what goes on after it.
const RECORD_HEAD: &str =
    "\"record-2 MxKxW SUM N\", where MxKxW is its shape, SUM the sum of its image, of eight \
    digits, and N, at most 16, counts the lines \"client NAME\" after it, and then \"=SUM\", the \
    sum of these lines";

/// The call of an entry of a record, what names in calls stand for, and how lines are written.
const CALL: &str =
    "\"S CALL\", where S is the number of a session, below the number of clients if the head names \
    any, CALL is \"batch N\" and the batch's lines, \"fetch ID\", \"settle ID\", \"run ID\", \
    \"show ID\", \"drop ID\", \"peek M A\" or \"poke M A D\", ID is the number of a batch, M a \
    module, A an address and D a word, of eight digits 0 to 9 and a to f each: small letters, \
    single spaces, numbers of at most nine digits and no leading zero, a line feed at its end";

/// What is expected in a line.
#[derive(Clone, Copy)]
pub(crate) enum Expected<'a> {
    /// The first line of a text that lists these.
    Head(Listing),
    /// The line of one of these.
    Entry(Listing),
    /// The link of a certificate.
    BusiestLink,
    /// The transfers of a certificate.
    Named,
    /// The end of the text.
    End,
    /// The first line of a record.
    RecordHead,
    /// The line of a client in the head of a record.
    Client,
    /// The line of the head's sum.
    HeadSum,
    /// The line of the head of a record on this rack, which begins so.
    HeadLine(OpeningRack, Quote<'a>),
    /// What follows in a record that has so many entries, with its sum.
    Sum(usize),
    /// The call of this entry of a record.
    Call(usize),
    /// The reply of this entry of a record, whose line begins so.
    Reply(usize, Quote<'a>),
    /// A line of a session.
    Sent,
}

impl<'a> Expected<'a> {
    /// What is expected in the line of this number, counted from 1.
    pub(crate) fn at(listing: Listing, text: &[u8], number: usize) -> Expected<'a> {
        let after = number.saturating_sub(announced(text).saturating_add(1));
        let last = line_at(text, number.saturating_sub(1));
        match (listing, after) {
            _ if number <= 1 => Expected::Head(listing),
            (_, 0) => Expected::Entry(listing),
            (Listing::Settings, 1) => Expected::BusiestLink,
            (Listing::Settings, 2) if last != b"busiest none".as_slice() => Expected::Named,
            _ => Expected::End,
        }
    }

    /// The forms that the line may have, or how it is told otherwise; nothing where this depends on
    /// more.
    #[rattlefmt::skip]
    pub(crate) fn forms(self) -> &'static str {
        match self {
            Expected::Head(Listing::Transfers) => "`batch N`, where N counts the transfers",
            Expected::Head(Listing::Moves) => "`moves N`, where N counts the moves",
            Expected::Head(Listing::Settings) => "`settings S`, where S counts the settings",
            Expected::Head(Listing::Modules) => "`wiring N`, where N counts the modules, 1 to 16",
            Expected::Entry(Listing::Transfers) => "`push I b R c` or `pull I b R c`",
            Expected::Entry(Listing::Moves) => "`move M b N c`",
            Expected::Entry(Listing::Settings) =>
                "`setting T U ..`, where T, U .. are transfers, or `setting` alone",
            Expected::Entry(Listing::Modules) =>
                "`module M link 0 at_A link 3 at_B`, where M rises from line to line up to 15, A \
                and B are 0 to 31, each used once, and \"none\" may replace \"at A\" or \"at B\"",
            Expected::BusiestLink =>
                "`busiest link E module M`, where E is 0 or 3 and M 0 to 31, or `busiest none`",
            Expected::Named => "`named T U ..`, where T, U .. are transfers, one at least",
            Expected::Sent =>
                "`batch N` and the batch's lines, `plan ID`, `run ID`, `show ID`, `drop ID`, `peek \
                M A`, `poke M A D`, `progress` or `bye`",
            Expected::End => "the end of the text",
            Expected::RecordHead => RECORD_HEAD,
            Expected::Client => "\"client NAME\", where NAME isn't empty and no client above has \
                it",
            Expected::HeadSum => "\"=SUM\", the sum of the lines above it",
            Expected::HeadLine(..) | Expected::Sum(_) => "",
            Expected::Call(_) | Expected::Reply(..) => "",
        }
    }
}

/// What is expected. Names in the lines of a session aren't explained.
impl<'a> Display for Expected<'a> {
    #[rattlefmt::skip]
    fn fmt<W: Write>(&self, f: &mut Formatter<W>) -> fmt::Result {
        match *self {
            Expected::HeadLine(_, due) => due.fmt(f),
            Expected::Sum(e) => write!(f,
                "the start of entry {e}, or of the end, with a right sum: a byte was changed, or \
                lines were left out, added or moved"),
            Expected::Call(e) => write!(f, "the call of entry {e}, {CALL}"),
            Expected::Reply(e, due) => write!(f, "the reply of entry {e}, {due}"),
            _ => write_forms(f, self.forms()),
        }
    }
}

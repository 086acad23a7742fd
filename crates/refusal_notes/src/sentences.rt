//! The sentences that are told of refusals.

use crate::context::{Many, NamedText, Note, Numbered, TextLine};
use crate::differences::Difference;
use crate::expected::Expected;
use crate::line_note::LineNote;
use crate::lines::{announced, entry_line, first_from, line_at};
use crate::listed::{Listing, is_listed, listed};
use crate::quote::Quote;
use crate::recorded::{line_of_head, line_wanting};
use crate::schedules::ScheduleNote;
use batch::{MAX_BLOCKS, MAX_MODULES, MAX_TRANSFERS, MAX_WORDS};
use module_memory::{MemoryFault, WINDOW_START, WORD_BYTES};
use refusals::{Refusal, Validity};
use std::fmt::{self, Display, Formatter, Write};

const _: () = prove!(MAX_MODULES == 32 && MAX_BLOCKS == 64 && MAX_WORDS == 256);

const _: () = prove!(MAX_TRANSFERS == 4096 && WINDOW_START == 0x8000_0800);

impl<'a> Display for Note<'a> {
    #[rattlefmt::skip]
    fn fmt<W: Write>(&self, f: &mut Formatter<W>) -> fmt::Result {
        let sent = match self.refusal {
            Refusal::BatchLine(n) | Refusal::MovesLine(n) =>
                return self.line(self.texts.list, self.texts.listing, n).fmt(f),
            Refusal::ScheduleLine(n) =>
                return self.write_listed(f, self.texts.other, Listing::Settings, n),
            Refusal::WiringLine(n) =>
                return self.line(self.texts.wiring, Listing::Modules, n).fmt(f),
            Refusal::Count => return self.write_listed(f, self.texts.list, self.texts.listing,
                entry_line(announced(self.texts.list.text))),
            Refusal::TooMany => return self.write_too_many(f),
            Refusal::NoModule(t) if self.texts.wiring.text.is_empty() => return self.write_above(f,
                t, &[1, 3], Numbered(self.texts.rack().modules(), "module"), ["rack", " of "]),
            Refusal::NoBlock(t) => return self.write_above(f, t, &[2, 4],
                Numbered(self.texts.rack().blocks(), "block"), ["module", " in a rack of "]),
            Refusal::NoModule(t) | Refusal::NoLink(t) => return self.write_missing(f, t),
            Refusal::Shape => return write!(f,
                "{} isn't \"MxKxW\": 1 to 32 modules, 1 to 64 blocks each, 1 to 256 words each",
                Quote(self.texts.shape.as_bytes())),
            Refusal::Settings => return write!(f,
                "{} isn't \"A..B\": two settings, counted from 0, of which the second isn't below \
                the first",
                Quote(self.texts.range.as_bytes())),
            Refusal::NoSetting(k) => return self.write_no_setting(f, k),
            Refusal::Image { is, wanted } => return write!(f,
                "{}: {}; an image of {} has {wanted}", self.texts.other, Many(is, "byte"),
                self.texts.shape),
            Refusal::Overlap(t, u) => return self.write_overlap(f, t, u),
            Refusal::Ports(1) => return f.write_str("a board has one switch: name PORT alone"),
            Refusal::Ports(_) => return write!(f,
                "{}: a module above 15 is named, so there are two switches: name PORT and PORT_B",
                self.texts.list),
            Refusal::Threads =>
                return f.write_str("the system has no thread for each client; try fewer clients"),
            Refusal::CheckUnknown(t) => return self.write_unknown(f, t),
            Refusal::CheckRepeated(t) => return self.write_repeated(f, t),
            Refusal::CheckClash(k, link) => return self.write_clash(f, k, link),
            Refusal::CheckMissing(t) => return write!(f,
                "{}: transfer {t} occurs in no setting (line {} of {})", self.texts.other,
                entry_line(t), self.texts.list),
            Refusal::NoCertificate => return write!(f,
                "{}: no certificate: \"busiest link E module M\" and \"named T U ..\"{}",
                self.texts.other, self.known()),
            Refusal::CheckWrongLink(t) if t < announced(self.texts.list.text) =>
                return self.write_named(f, t, "and doesn't use the link"),
            Refusal::CheckWrongLink(t) => return write!(f,
                "{}: transfer {t} is named; {} has {}{}", self.certificate_line(), self.texts.list,
                Numbered(announced(self.texts.list.text), "transfer"), self.known()),
            Refusal::CheckCertificateRepeats(t) => return self.write_named(f, t, "twice"),
            Refusal::CheckNotTight { settings, named } => return write!(f,
                "{}: {}, and the certificate names {}{}", self.texts.other,
                Many(settings, "setting"), Many(named, "transfer"), self.known()),
            Refusal::Memory(MemoryFault::NoModule) => return write!(f,
                "{} names a module that the rack doesn't have; it has {}", self.sent(),
                Numbered(self.texts.rack().modules(), "module")),
            Refusal::Memory(MemoryFault::Misaligned) =>
                "names an address that isn't a multiple of four; its last digit has to be 0, 4, 8 \
                or c",
            Refusal::Memory(MemoryFault::Outside) => return self.write_outside(f),
            Refusal::Unknown =>
                "names no batch of this session; \"accepted ID\" gives the ID of each that it \
                hands in",
            Refusal::Unplanned => "names a batch that has no plan yet; send \"plan ID\" first",
            Refusal::Already =>
                "names a batch that was already planned or run; hand it in again to run it again",
            Refusal::Stranger => "was given the plan of another batch; send it again",
            Refusal::BookFull =>
                "is one batch too many for the exchange; send \"drop ID\" for one that isn't \
                needed",
            Refusal::HistoryFull =>
                "is one call too many for the exchange; end the session, and start the program \
                anew",
            Refusal::Line => return self.write_no_command(f),
            Refusal::RecordHead => return line_of_head(&self.texts).fmt(f),
            Refusal::RecordSum(e) => return line_wanting(&self.texts, Expected::Sum(e)).fmt(f),
            Refusal::RecordCall(e) => return line_wanting(&self.texts, Expected::Call(e)).fmt(f),
            Refusal::RecordReply(e) => return line_wanting(&self.texts,
                Expected::Reply(e, Quote(line_at(self.texts.due, 1)))).fmt(f),
            Refusal::RecordMore => return line_wanting(&self.texts, Expected::End).fmt(f),
            Refusal::File | Refusal::Port(_) | Refusal::NoMemory => return Ok(()),
        };
        self.write_sent(f, sent)
    }
}

impl<'a> Note<'a> {
    /// The line of this transfer.
    pub(crate) fn line_of(&self, t: usize) -> TextLine<'a> {
        TextLine(self.texts.list, entry_line(t).saturating_add(self.above))
    }

    /// The line that names the transfers of a certificate.
    fn certificate_line(&self) -> TextLine<'a> {
        let plan = self.texts.other;
        TextLine(plan, announced(plan.text).saturating_add(3))
    }

    /// The line that a session sent.
    fn sent(&self) -> Quote<'a> {
        Quote(line_at(self.texts.list.text, 1))
    }

    /// What is known of the schedule.
    fn known(&self) -> ScheduleNote<'a> {
        ScheduleNote(self.texts.other, self.texts.validity)
    }

    /// A line of a text that lists these.
    fn line(&self, named: NamedText<'a>, listing: Listing, number: usize) -> LineNote<'a> {
        LineNote {
            named,
            above: self.above,
            number,
            wanted: Expected::at(listing, named.text, number),
        }
    }

    /// Writes what is told of a line; or, where entries end in it or go on, how many of them there
    /// are, if line 1 says another number.
    fn write_listed<W: Write>(
        &self,
        f: &mut Formatter<W>,
        named: NamedText<'a>,
        listing: Listing,
        number: usize,
    ) -> fmt::Result {
        let line = self.line(named, listing, number);
        let here = line_at(named.text, number);
        let is_counted = match (listing, line.wanted) {
            (Listing::Settings, Expected::Entry(_)) => {
                here.is_empty() || here.starts_with(b"busiest ")
            }
            (Listing::Settings, Expected::BusiestLink) => is_listed(listing, here),
            (Listing::Settings, _) => false,
            (Listing::Transfers | Listing::Moves | Listing::Modules, _) => true,
        };
        let (entries, most) = (listed(listing, named.text), announced(named.text));
        if !is_counted || entries == most {
            return line.fmt(f);
        }
        let entries = Many(entries, listing.line_name());
        write!(f, "{named}: {entries}, and line 1 says {most}")
    }

    /// Writes how many entries are too many.
    #[rattlefmt::skip]
    fn write_too_many<W: Write>(&self, f: &mut Formatter<W>) -> fmt::Result {
        let list = self.texts.list;
        let what = match self.texts.listing {
            Listing::Moves => "moves; a text of moves",
            Listing::Transfers | Listing::Settings | Listing::Modules => "transfers; a batch",
        };
        let place = TextLine(list, self.above.saturating_add(1));
        write!(f, "{place}: {} {what} has at most 4096", announced(list.text))
    }

    /// Writes which of these words of a transfer's line isn't below its limit, and what has fewer.
    #[rattlefmt::skip]
    fn write_above<W: Write>(
        &self,
        f: &mut Formatter<W>,
        t: usize,
        places: &[usize],
        what: Numbered,
        owner: [&'static str; 2],
    ) -> fmt::Result {
        let line = line_at(self.texts.list.text, entry_line(t));
        let n = first_from(line, places, what.0).ok_or(fmt::Error)?;
        let of = if self.texts.shape.is_empty() { "" } else { owner[1] };
        write!(f, "{}: {} {n}; a {}{of}{} has {what}", self.line_of(t), what.1, owner[0],
            self.texts.shape)
    }

    /// Writes that there is no such setting.
    #[rattlefmt::skip]
    fn write_no_setting<W: Write>(&self, f: &mut Formatter<W>, k: usize) -> fmt::Result {
        match self.texts.validity {
            Validity::Valid(count) if self.texts.other.name.is_empty() =>
                write!(f, "setting {k}; the plan has {}", Numbered(count, "setting")),
            _ => write!(f, "setting {k}; {} has {}", self.texts.other,
                Numbered(announced(self.texts.other.text), "setting")),
        }
    }

    /// Writes what is wrong with a transfer that the certificate names.
    #[rattlefmt::skip]
    fn write_named<W: Write>(&self, f: &mut Formatter<W>, t: usize, what: &str) -> fmt::Result {
        write!(f, "{}: transfer {t} is named {what} (line {} of {}){}", self.certificate_line(),
            entry_line(t), self.texts.list, self.known())
    }

    /// Writes what is wrong with a line that a session sent.
    fn write_sent<W: Write>(&self, f: &mut Formatter<W>, what: &str) -> fmt::Result {
        write!(f, "{} {what}", self.sent())
    }

    /// Writes that a module has no word at an address, and where it has words.
    #[rattlefmt::skip]
    fn write_outside<W: Write>(&self, f: &mut Formatter<W>) -> fmt::Result {
        let words = (self.texts.rack().blocks() * self.texts.rack().words()) as u32;
        let last = WINDOW_START + WORD_BYTES * (words - 1);
        write!(f,
            "{} names an address where there is no word; a module has its words at 80000800 to \
            {last:08x}",
            self.sent())
    }

    /// Writes that what was sent is no line of a session.
    #[rattlefmt::skip]
    fn write_no_command<W: Write>(&self, f: &mut Formatter<W>) -> fmt::Result {
        self.write_sent(f, "isn't a line of a session")?;
        let line = line_at(self.texts.list.text, 1);
        match Difference::of(self.texts.list.text, 1, Expected::Sent) {
            _ if line == b"help".as_slice() =>
                f.write_str("; \"exchange talk --help\" lists them"),
            _ if line == b"quit".as_slice() => f.write_str("; \"bye\" ends it"),
            Some(Difference::Stops(1, ..)) | None =>
                write!(f, ": {}; see \"exchange talk --help\"", Expected::Sent),
            Some(difference) =>
                write!(f, ": {difference}; \"exchange talk --help\" lists the lines"),
        }
    }
}

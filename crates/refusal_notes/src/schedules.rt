//! What is told of a schedule that the checker refuses.

use crate::context::{NamedText, Note, Numbered, TextLine};
use crate::lines::{announced, entry_line};
use batch::{Batch, BatchFault, Shape};
use link_graph::{Certificate, CheckFault, End, Link, Schedule, check_schedule};
use refusals::{Refusal, Validity};
use std::alloc::Global;
use std::fmt::{self, Display, Formatter, Write};

/// What is told of a schedule besides, of which this is known.
#[derive(Clone, Copy)]
pub(crate) struct ScheduleNote<'a>(pub NamedText<'a>, pub Validity);

impl<'a> Display for ScheduleNote<'a> {
    fn fmt<W: Write>(&self, f: &mut Formatter<W>) -> fmt::Result {
        let ScheduleNote(plan, validity) = *self;
        let Validity::Valid(enough) = validity else {
            return Ok(());
        };
        f.write_str(match enough {
            _ if enough >= announced(plan.text) => {
                "; the schedule is valid, and none has fewer settings"
            }
            1 => "; the schedule is valid, and 1 setting is enough",
            n => return write!(f, "; the schedule is valid, and {n} settings are enough"),
        })
    }
}

/// Whether this transfer of a batch uses a link.
fn uses(batch: &Batch, t: usize, link: Link) -> bool {
    match (link.end, batch.transfer(t)) {
        (End::Zero, Some(transfer)) => transfer.initiator == link.module,
        (End::Three, Some(transfer)) => transfer.responder == link.module,
        (_, None) => false,
    }
}

/// The refusal of the first fault of the settings, in place of that of the certificate. None where
/// there is no memory to find it.
pub(crate) fn refusal_of_settings(alloc: Global, list: &[u8], plan: &[u8]) -> Option<Refusal> {
    let batch = Batch::read(alloc, list, Shape::WIDEST).ok()?;
    let (schedule, _) = Schedule::read(alloc, plan).ok()?;
    match check_schedule(alloc, &batch, &schedule, &Certificate::none()).err() {
        None | Some(CheckFault::NoMemory) => None,
        Some(fault) => Some(Refusal::from(fault)),
    }
}

impl<'a> Note<'a> {
    /// How often the settings of the schedule hold a transfer, and the two settings in which they
    /// do so first. An error where they hold it less often than this.
    fn holding(&self, t: usize, least: usize) -> Result<(usize, usize, usize), fmt::Error> {
        let (schedule, _) = Schedule::read(self.alloc, self.texts.other.text).or(Err(fmt::Error))?;
        let (mut times, mut first, mut second) = (0usize, 0, 0);
        for (k, setting) in schedule.iter().enumerate() {
            for u in setting {
                match times {
                    _ if *u != t => continue,
                    0 => first = k,
                    1 => second = k,
                    _ => {}
                }
                times = times.saturating_add(1);
            }
        }
        match times >= least {
            true => Ok((times, first, second)),
            false => Err(fmt::Error),
        }
    }

    /// Writes that the batch has no such transfer, which a setting holds.
    #[rattlefmt::skip]
    pub(crate) fn write_unknown<W: Write>(&self, f: &mut Formatter<W>, t: usize) -> fmt::Result {
        let (_, first, _) = self.holding(t, 1)?;
        write!(f, "{}: transfer {t}; {} has {}", TextLine(self.texts.other, entry_line(first)),
            self.texts.list, Numbered(announced(self.texts.list.text), "transfer"))
    }

    /// Writes that the schedule holds this transfer twice or more, and where.
    #[rattlefmt::skip]
    pub(crate) fn write_repeated<W: Write>(&self, f: &mut Formatter<W>, t: usize) -> fmt::Result {
        let (times, first, second) = self.holding(t, 2)?;
        write!(f, "{}: transfer {t} occurs ", TextLine(self.texts.other, entry_line(second)))?;
        match times {
            2 if first == second => f.write_str("twice ")?,
            2 => {}
            _ => write!(f, "{times} times, the first two ")?,
        }
        match first == second {
            true => write!(f, "in setting {first} ")?,
            false => write!(f, "in settings {first} and {second} ")?,
        }
        write!(f, "(line {} of {})", entry_line(t), self.texts.list)
    }

    /// The first two transfers of this setting that use a link.
    fn users(&self, k: usize, link: Link) -> Result<(usize, usize), fmt::Error> {
        let (schedule, _) = Schedule::read(self.alloc, self.texts.other.text).or(Err(fmt::Error))?;
        let list = self.texts.list.text;
        let batch = Batch::read(self.alloc, list, Shape::WIDEST).or(Err(fmt::Error))?;
        let setting = schedule.setting(k).ok_or(fmt::Error)?;
        let mut first = None;
        for t in setting {
            match first {
                _ if !uses(&batch, *t, link) => {}
                None => first = Some(*t),
                Some(first) => return Ok((first, *t)),
            }
        }
        Err(fmt::Error)
    }

    /// Writes which two transfers of this setting use one link.
    #[rattlefmt::skip]
    pub(crate) fn write_clash<W: Write>(
        &self,
        f: &mut Formatter<W>,
        k: usize,
        link: Link,
    ) -> fmt::Result {
        let (t, u) = self.users(k, link)?;
        write!(f,
            "{}: transfers {t} and {u} both use link {} of module {} (lines {} and {} of {})",
            TextLine(self.texts.other, entry_line(k)), link.end.number(), link.module,
            entry_line(t), entry_line(u), self.texts.list)
    }

    /// Writes that two transfers of the batch write one block, and which, unless the text is none.
    #[rattlefmt::skip]
    pub(crate) fn write_overlap<W: Write>(
        &self,
        f: &mut Formatter<W>,
        t: usize,
        u: usize,
    ) -> fmt::Result {
        let (list, one, other) = (self.texts.list, entry_line(t), entry_line(u));
        write!(f, "{}: transfers {t} and {u} both write ", TextLine(list, other))?;
        match Batch::read(self.alloc, list.text, Shape::WIDEST) {
            Ok(batch) => {
                let place = batch.transfer(u).ok_or(fmt::Error)?.destination();
                write!(f, "block {} of module {}", place.block, place.module)?;
            }
            Err(BatchFault::NoMemory) => return Err(fmt::Error),
            Err(_) => f.write_str("one block")?,
        }
        write!(f, " (lines {one} and {other})")
    }
}

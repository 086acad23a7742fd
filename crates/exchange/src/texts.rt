//! What the second line of a refusal is told of.

use batch::position_of;
use command_words::{Job, Text, TextJob};
use named_files::{Contents, slice_of};
use record_replay::RecordError;
use recorded_sessions::JobResult;
use refusal_notes::{Listing, NamedText, OpeningRack, RefusalContext};
use refusals::Refusal;

/// A file's name, and what it contains, where one was read.
fn named<'a>(name: Option<&'a Text>, file: &'a Option<Vec<u8>>) -> NamedText<'a> {
    match (name, file) {
        (Some(name), Some(file)) => NamedText {
            name: name.as_str(),
            text: file.as_slice(),
        },
        _ => NamedText::NONE,
    }
}

/// A word, where there is one.
fn word_in(text: &Option<Text>) -> &str {
    match text {
        Some(text) => text.as_str(),
        None => "",
    }
}

/// The second word of a record's first line, which is that of its shape, where it is a head.
fn shape_of(recorded: &[u8]) -> &str {
    let Some(end) = position_of(recorded, b'\n') else {
        return "";
    };
    let Ok(line) = str::from_utf8(&recorded[..end]) else {
        return "";
    };
    match line.split_once(' ') {
        Some((_, rest)) => match rest.split_once(' ') {
            Some((shape, _)) => shape,
            None => "",
        },
        None => "",
    }
}

/// These texts with a record, and with what is wrong with that, where something is.
fn of_record<'a>(
    texts: RefusalContext<'a>,
    recorded: NamedText<'a>,
    error: &'a Option<RecordError>,
) -> RefusalContext<'a> {
    let texts = RefusalContext { recorded, ..texts };
    match error {
        Some(error) => RefusalContext {
            offset: error.offset,
            due: slice_of(&error.due).unwrap_or(&[]),
            ..texts
        },
        None => texts,
    }
}

/// The texts of a job's files and its words, with what its answer knows of a schedule, and of a
/// record that is refused. Where a schedule is told of, that stands there, and else the image.
pub(crate) fn texts_of<'a>(
    job: &'a Job,
    contents: &'a Contents,
    found: &'a JobResult,
) -> RefusalContext<'a> {
    let (files, error) = (job.files(), &found.error);
    let schedule = named(files.schedule, &contents.schedule);
    let texts = RefusalContext {
        list: named(files.list, &contents.list),
        other: named(files.image, &contents.image),
        wiring: named(files.wiring, &contents.wiring),
        validity: found.answer.validity(),
        ..RefusalContext::NONE
    };
    match job {
        Job::Texts(TextJob::Direct { .. }) => RefusalContext {
            listing: Listing::Moves,
            ..texts
        },
        Job::Texts(TextJob::Draw { settings, .. }) => RefusalContext {
            other: schedule,
            range: word_in(settings),
            ..texts
        },
        Job::Texts(TextJob::Apply { shape, .. }) => RefusalContext {
            shape: shape.as_str(),
            other: schedule,
            ..texts
        },
        Job::Texts(TextJob::Run { shape, .. }) => RefusalContext {
            shape: shape.as_str(),
            other: match found.answer.refusal() {
                Some(Refusal::Image { .. }) => texts.other,
                _ => schedule,
            },
            ..texts
        },
        Job::Texts(TextJob::Replay { shape, .. }) => {
            let recorded = texts.list;
            let texts = RefusalContext {
                list: NamedText::NONE,
                shape: match shape {
                    Some(shape) => shape.as_str(),
                    None => shape_of(recorded.text),
                },
                opening: match contents.image {
                    Some(_) => OpeningRack::Image,
                    None => OpeningRack::Zeros,
                },
                ..texts
            };
            of_record(texts, recorded, error)
        }
        Job::Texts(_) | Job::Ports(_) => RefusalContext {
            other: schedule,
            ..texts
        },
        Job::Sessions { rack, .. } => {
            let texts = RefusalContext {
                shape: rack.shape.as_str(),
                ..texts
            };
            of_record(texts, named(rack.record_name(), &found.held), error)
        }
    }
}

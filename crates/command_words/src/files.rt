//! The files that a job reads.

ghost use Rattle.std.specs.Prelude.{◌≡◌, is_some};
ghost use Rattle.plan_answers.specs.Lent.{bytes_of};
ghost use Rattle.command_words.specs.Jobs.{files_of, hears_input, of_list as files_by, schedule_in};
ghost use Rattle.command_words.specs.Jobs.{scripts_on as script_files, text_files};
ghost use Rattle.command_words.specs.Files.{file_names};

use crate::jobs::{Job, PortJob, SessionJob, TextJob};
use crate::role::Role;
use crate::text::Text;
use plan_answers::ScheduleSource;

/// The names of the files that a job reads, in the order in which they are read, each by what it is
/// for.
#[derive(Clone, Copy)]
pub struct JobFiles<'a> {
    /// The image with whose words a rack begins.
    pub image: Option<&'a Text>,
    /// The batch, the moves or the record.
    pub list: Option<&'a Text>,
    /// Which of these it is.
    pub(crate) list_role: Role,
    /// The schedule, or the image of `apply`, which comes after its batch.
    pub schedule: Option<&'a Text>,
    /// The wiring of a board.
    pub wiring: Option<&'a Text>,
    /// The scripts of sessions.
    pub scripts: &'a [Text],
}

/// A batch, moves or a record, with an image, a schedule and a wiring, where there are such.
fn of_list<'a>(
    list_role: Role,
    image: Option<&'a Text>,
    list: &'a Text,
    schedule: Option<&'a Text>,
    wiring: Option<&'a Text>,
) -> JobFiles<'a>
    ensures { file_names result ≡ files_by (bytes_of image.entry) list.now
        (bytes_of schedule.entry) (bytes_of wiring.entry) }
{
    JobFiles {
        image,
        list: Some(list),
        list_role,
        schedule,
        wiring,
        scripts: &[],
    }
}

/// Scripts, on a rack with this image.
fn scripts_on<'a>(image: Option<&'a Text>, scripts: &'a [Text]) -> JobFiles<'a>
    ensures { file_names result ≡ script_files (bytes_of image.entry) scripts.now }
{
    JobFiles {
        image,
        list: None,
        list_role: Role::Batch,
        schedule: None,
        wiring: None,
        scripts,
    }
}

/// The file that has a schedule, where one has.
fn schedule_of(source: &ScheduleSource<Text>) -> Option<&Text>
    ensures { bytes_of result ≡ schedule_in source.now }
{
    match source {
        ScheduleSource::Text(schedule) => Some(schedule),
        ScheduleSource::Plan(_) => None,
    }
}

impl TextJob {
    /// The files that it reads.
    #[rattlefmt::skip]
    fn files(&self) -> JobFiles<'_>
        ensures { file_names result ≡ text_files self.now }
    {
        match self {
            TextJob::Plan { file, .. } => of_list(Role::Batch, None, file, None, None),
            TextJob::Direct { moves } => of_list(Role::Moves, None, moves, None, None),
            TextJob::Check { batch, schedule }
            | TextJob::Draw { batch, schedule, .. }
            | TextJob::Prices { batch, schedule }
            | TextJob::Apply { batch, image: schedule, .. } =>
                of_list(Role::Batch, None, batch, Some(schedule), None),
            TextJob::Switch { batch, source, wiring, .. } =>
                of_list(Role::Batch, None, batch, schedule_of(source), wiring.as_ref()),
            TextJob::Orders { batch, source, .. } =>
                of_list(Role::Batch, None, batch, schedule_of(source), None),
            TextJob::Run { batch, source, image, .. } =>
                of_list(Role::Batch, image.as_ref(), batch, schedule_of(source), None),
            TextJob::Replay { recorded, image, .. } =>
                of_list(Role::Record, image.as_ref(), recorded, None, None),
        }
    }
}

impl Job {
    /// The files that it reads.
    #[rattlefmt::skip]
    pub fn files(&self) -> JobFiles<'_>
        ensures { file_names result ≡ files_of self.now }
    {
        match self {
            Job::Texts(job) => job.files(),
            Job::Ports(PortJob::Drive { batch, source, wiring, .. }) =>
                of_list(Role::Batch, None, batch, schedule_of(source), wiring.as_ref()),
            Job::Ports(PortJob::C004) => scripts_on(None, &[]),
            Job::Sessions { rack, job } => scripts_on(rack.image.as_ref(), job.scripts()),
        }
    }

    /// What it hears from standard input itself, where it does.
    pub(crate) fn standard_input(&self) -> Option<Role>
        ensures { is_some result ≡ hears_input self.now }
    {
        match self {
            Job::Ports(PortJob::Drive { goes_on: false, .. }) => Some(Role::GoOn),
            Job::Ports(PortJob::C004) => Some(Role::Commands),
            Job::Sessions {
                job: SessionJob::Talk,
                ..
            } => Some(Role::Talk),
            _ => None,
        }
    }
}

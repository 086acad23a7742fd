//! What the arguments of the command line ask for, or why they ask for nothing.

ghost use Rattle.std.specs.Prelude.{◌≡◌};
ghost use Rattle.command_words.specs.declared.jobs.ArgumentsFault.TheVariants.{NoMemory};
ghost use Rattle.plan_answers.specs.Lent.{bytes_of};
ghost use Rattle.command_words.specs.Jobs.{IsFaultBy, live_names, recorded_in, scripts_of};
ghost use Rattle.command_words.specs.Jobs.{serves_live};

use crate::text::Text;
use crate::text_list::TextList;
use clap::error::ErrorKind;
use exchange_limits::WorkerCount;
use plan_answers::{Planning, ScheduleSource};
use std::alloc::AllocError;
use thiserror::Error;

/// What the program is to do.
#[derive(Drop)]
pub enum Job {
    /// Answer what files say.
    Texts(TextJob),
    /// Send a switch its commands, or be one.
    Ports(PortJob),
    /// Serve sessions on one exchange with this rack.
    Sessions { rack: SharedRack, job: SessionJob },
}

/// A job whose files are all that it asks for.
#[derive(Drop)]
pub enum TextJob {
    /// Plan the batch of a file, with so many workers.
    Plan {
        file: Text,
        planning: Planning,
        workers: WorkerCount,
    },
    /// Judge the schedule of a file against the batch of another.
    Check {
        batch: Text,
        schedule: Text,
    },
    /// Draw the schedule of a file, which is one of the batch of another, or of its settings those
    /// of the range.
    Draw {
        batch: Text,
        schedule: Text,
        settings: Option<Text>,
    },
    /// Tell prices that show how often schedules of the batch of a file have to change the switch,
    /// where they have as many settings as that of another file.
    Prices {
        batch: Text,
        schedule: Text,
    },
    /// Tell what a run of a schedule of the batch of a file sends the switches, which may be two
    /// where the batch needs one, or the one switch of a board whose wiring a file has. So many
    /// workers plan.
    Switch {
        batch: Text,
        source: ScheduleSource<Text>,
        wiring: Option<Text>,
        has_two: bool,
        workers: WorkerCount,
    },
    /// Tell what each module does in the settings of a schedule of the batch of a file, or what one
    /// module does. So many workers plan.
    Orders {
        batch: Text,
        source: ScheduleSource<Text>,
        module: Option<usize>,
        workers: WorkerCount,
    },
    /// Give the moves of a file directions that need the fewest settings.
    Direct {
        moves: Text,
    },
    /// Place the blocks of a file's batch in the words of an image's file, which are those of a
    /// rack of the shape. That is done alike however many workers are named.
    Apply {
        shape: Text,
        batch: Text,
        image: Text,
        workers: WorkerCount,
    },
    /// Run a schedule of the batch of a file on a rack of the shape, which may begin with the words
    /// of an image's file, with so many workers.
    Run {
        shape: Text,
        batch: Text,
        source: ScheduleSource<Text>,
        image: Option<Text>,
        workers: WorkerCount,
    },
    /// Make the calls of the record of a file again, or its first ones, so many, on a rack that may
    /// begin with the words of an image's file, and compare each reply. Where a shape is given it
    /// has to be the record's.
    Replay {
        shape: Option<Text>,
        recorded: Text,
        image: Option<Text>,
        first_entries: Option<usize>,
    },
}

/// A job of a switch.
#[derive(Drop)]
pub enum PortJob {
    /// Set the switches at a port, or at two, or the one switch of a board whose wiring a
    /// file has, as each setting of a schedule of the batch of a file calls for, from the first one
    /// on, and after each wait for a line of standard input, unless it goes on. So many workers
    /// plan.
    Drive {
        batch: Text,
        port: Text,
        port_b: Option<Text>,
        source: ScheduleSource<Text>,
        wiring: Option<Text>,
        first_setting: usize,
        goes_on: bool,
        workers: WorkerCount,
    },
    /// Be a switch whose configuration link is standard input and output.
    C004,
}

/// A job that has sessions, which may wait for each other and for clients.
#[derive(Drop)]
pub enum SessionJob {
    /// Serve the scripts of 1 to [`MAX_CLIENTS`](crate::MAX_CLIENTS) files side by side, with so
    /// many workers.
    Serve {
        scripts: TextList,
        workers: WorkerCount,
    },
    /// Serve 1 to [`MAX_CLIENTS`](crate::MAX_CLIENTS) clients of these names while they last, each
    /// through two files of its own, with so many workers.
    Host {
        clients: TextList,
        workers: WorkerCount,
    },
    /// Serve one client, which is standard input and output.
    Talk,
}

/// The rack of an exchange.
#[derive(Drop)]
pub struct SharedRack {
    /// Its shape.
    pub shape: Text,
    /// The file of the image with whose words it begins; without one all are 0.
    pub image: Option<Text>,
    /// The file to which the record of its sessions goes: each call as it is made, but that of
    /// scripts once all sessions have ended.
    pub record_out: Option<RecordFile>,
    /// The file to which its image goes once all sessions have ended.
    pub image_out: Option<Text>,
}

/// The file for a record of sessions.
#[derive(Drop)]
pub struct RecordFile {
    /// Its name.
    pub name: Text,
    /// Whether sessions go on where it ends, if it has a record already. Scripts never do.
    pub resumes: bool,
    /// Whether each entry is to be on the disk before its reply is told. With scripts it isn't.
    pub syncs: bool,
}

impl SharedRack {
    /// The name of the file for its record, where it has one.
    pub fn record_name(&self) -> Option<&Text>
        ensures { bytes_of result ≡ recorded_in self.now }
    {
        self.record_out.as_ref().map(|record| &record.name)
    }
}

impl SessionJob {
    /// The scripts that it serves.
    pub fn scripts(&self) -> &[Text]
        ensures { result.now ≡ scripts_of self.now }
    {
        match self {
            SessionJob::Serve { scripts, .. } => scripts.as_slice(),
            SessionJob::Host { .. } | SessionJob::Talk => &[],
        }
    }

    /// Whether it serves live clients, and no scripts.
    pub fn serves_live(&self) -> bool
        ensures { result ≡ serves_live self.now }
    {
        match self {
            SessionJob::Serve { .. } => false,
            SessionJob::Host { .. } | SessionJob::Talk => true,
        }
    }

    /// The names of the live clients that it serves; `talk` has none.
    pub fn clients(&self) -> &[Text]
        ensures { result.now ≡ live_names self.now }
    {
        match self {
            SessionJob::Host { clients, .. } => clients.as_slice(),
            SessionJob::Serve { .. } | SessionJob::Talk => &[],
        }
    }
}

/// What the arguments of the command line ask for.
#[derive(Drop)]
pub struct Request {
    /// What the program is to do.
    pub job: Job,
    /// Whether nothing is to be told on standard error beside a refusal.
    pub is_quiet: bool,
}

/// Why the arguments name no job.
#[derive(Debug, Drop, Error)]
pub enum ArgumentsFault {
    /// They fit no command, or ask for help. The error has the text to print. It never tells of
    /// lack of memory.
    #[error(transparent)]
    Clap(clap::Error),
    /// There was no memory to read them, and nothing is said about them.
    #[error("no memory")]
    NoMemory,
}

impl From<AllocError> for ArgumentsFault {
    ghost from_gives = { λ _ fault. fault ≡ NoMemory };

    fn from(_error: AllocError) -> ArgumentsFault {
        ArgumentsFault::NoMemory
    }
}

impl From<clap::Error> for ArgumentsFault {
    ghost from_gives = { λ error fault. IsFaultBy error fault };

    fn from(error: clap::Error) -> ArgumentsFault {
        match error.kind() {
            ErrorKind::OutOfMemory => ArgumentsFault::NoMemory,
            _ => ArgumentsFault::Clap(error),
        }
    }
}

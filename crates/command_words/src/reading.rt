//! From the arguments to what they ask for, by what clap finds in them.

ghost use Rattle.std.specs.Prelude.{◌≢◌, ◌↔◌, IfErr, IfOk, IsTrue, OnOk, Some, codes};
ghost use Rattle.command_words.specs.declared.limits.TheConstants.{MAX_NUMBER};
ghost use Rattle.command_words.specs.declared.faults.UsageError.TheVariants.{Memory};
ghost use Rattle.command_words.specs.Jobs.{AskFor, HasNumeral, HasOption, HasPlanning, HasServed};
ghost use Rattle.command_words.specs.Jobs.{HasRack, HasRecord, HasSource, HasText, HasTwo};
ghost use Rattle.command_words.specs.Jobs.{HasWorkers, GivesRequest, IsFaultIn, IsGiven, IsJob};
ghost use Rattle.command_words.specs.Jobs.{IsReading, IsRequest, IsTaken, IsWithinLimits};
ghost use Rattle.command_words.specs.Jobs.{MayBeDone, rows_in, texts_of};

use crate::commands::CommandName;
use crate::faults::{UsageError, fault_of};
use crate::grammar::matches_of;
use crate::jobs::{
    ArgumentsFault, Job, PortJob, RecordFile, Request, SessionJob, SharedRack, TextJob,
};
use crate::limits::{LAST_MODULE, MAX_CLIENTS, MAX_NUMBER};
use crate::outputs::{first_misnamed, names_clients};
use crate::text::Text;
use crate::text_list::TextList;
use crate::uses::file_uses;
use clap::ArgMatches;
use clap::parser::ValueSource;
use exchange_limits::{MAX_WORKERS, WorkerCount};
use plan_answers::{Planning, ScheduleSource};
use std::alloc::{AllocError, Global};
use std::fmt::Display;

/// The text of an argument that has to be there.
fn text_of(alloc: Global, matches: &ArgMatches<'_>, id: &str) -> Result<Text, UsageError>
    ensures { IsReading (HasText id.now (rows_in matches.now)) result }
{
    option_of(alloc, matches, id)?.ok_or(UsageError::Word)
}

/// The text of an option, where it is there.
fn option_of(alloc: Global, matches: &ArgMatches<'_>, id: &str) -> Result<Option<Text>, AllocError>
    ensures { IfOk result (HasOption id.now (rows_in matches.now)) }
{
    match matches.get_str(id) {
        Some(text) => Ok(Some(Text::of(alloc, text)?)),
        None => Ok(None),
    }
}

/// The texts of from 1 to [`MAX_CLIENTS`] arguments.
fn served_of(alloc: Global, matches: &ArgMatches<'_>, id: &str) -> Result<TextList, UsageError>
    ensures { IsReading (HasServed id.now (rows_in matches.now)) result }
{
    match matches.get_strs(id) {
        Some(texts) if texts.len() >= 1 && texts.len() <= MAX_CLIENTS => Ok(TextList::of(
            alloc, texts,
        )?),
        _ => Err(UsageError::Word),
    }
}

/// The number of an option, up to the last, where it is there.
fn number_of(matches: &ArgMatches<'_>, id: &str, last: usize) -> Result<Option<usize>, UsageError>
    ensures { IsReading (HasNumeral id.now last (rows_in matches.now)) result }
{
    if matches.get_str(id).is_none() {
        return Ok(None);
    }
    match matches.get_one::<usize>(id) {
        Some(number) if number <= last => Ok(Some(number)),
        _ => Err(UsageError::Word),
    }
}

/// The number of `--workers`.
fn workers_of(matches: &ArgMatches<'_>) -> Result<WorkerCount, UsageError>
    ensures { IsReading (HasWorkers (rows_in matches.now)) result }
{
    match number_of(matches, "workers", MAX_WORKERS)? {
        Some(number) => WorkerCount::new(number).ok_or(UsageError::Word),
        None => Err(UsageError::Word),
    }
}

/// The number of `--from`.
fn first_of(matches: &ArgMatches<'_>) -> Result<usize, UsageError>
    ensures { IsReading
        (λ n. HasNumeral (codes "from") MAX_NUMBER (rows_in matches.now) (Some n)) result }
{
    number_of(matches, "from", MAX_NUMBER)?.ok_or(UsageError::Word)
}

/// Whether the arguments themselves give an option.
fn is_given(matches: &ArgMatches<'_>, id: &str) -> bool
    ensures { IsTrue result ↔ IsGiven id.now (rows_in matches.now) }
{
    matches!(matches.value_source(id), Some(ValueSource::CommandLine))
}

/// How a batch is to be planned.
fn planning_of(matches: &ArgMatches<'_>) -> Result<Planning, UsageError>
    ensures { IsReading (HasPlanning (rows_in matches.now)) result }
{
    match (is_given(matches, "steady"), is_given(matches, "workers")) {
        (false, _) => Ok(Planning::Plain),
        (true, false) => Ok(Planning::Steady),
        (true, true) => Err(UsageError::Planning),
    }
}

/// Where a schedule is to come from.
fn source_of(alloc: Global, matches: &ArgMatches<'_>) -> Result<ScheduleSource<Text>, UsageError>
    ensures { IsReading (HasSource (rows_in matches.now)) result }
{
    let Some(file) = option_of(alloc, matches, "schedule")? else {
        return Ok(ScheduleSource::Plan(planning_of(matches)?));
    };
    if is_given(matches, "steady") || is_given(matches, "workers") {
        return Err(UsageError::Source);
    }
    Ok(ScheduleSource::Text(file))
}

/// The file for a record of sessions, where there is one.
fn record_of(alloc: Global, matches: &ArgMatches<'_>) -> Result<Option<RecordFile>, UsageError>
    ensures { IsReading (HasRecord (rows_in matches.now)) result }
{
    let resumes = is_given(matches, "resume");
    let syncs = is_given(matches, "sync");
    match option_of(alloc, matches, "record")? {
        Some(name) => Ok(Some(RecordFile {
            name,
            resumes,
            syncs,
        })),
        None if resumes || syncs => Err(UsageError::Record),
        None => Ok(None),
    }
}

/// The rack of an exchange.
fn rack_of(alloc: Global, matches: &ArgMatches<'_>) -> Result<SharedRack, UsageError>
    ensures { IsReading (HasRack (rows_in matches.now)) result }
{
    Ok(SharedRack {
        shape: text_of(alloc, matches, "SHAPE")?,
        image: option_of(alloc, matches, "image")?,
        record_out: record_of(alloc, matches)?,
        image_out: option_of(alloc, matches, "image-out")?,
    })
}

/// The job of `plan`.
fn plan_of(alloc: Global, found: &ArgMatches<'_>) -> Result<Job, UsageError>
    ensures { IsReading (IsJob CommandName.Plan (rows_in found.now)) result }
{
    Ok(Job::Texts(TextJob::Plan {
        workers: workers_of(found)?,
        file: text_of(alloc, found, "FILE")?,
        planning: planning_of(found)?,
    }))
}

/// The job of `check`.
fn check_of(alloc: Global, found: &ArgMatches<'_>) -> Result<Job, UsageError>
    ensures { IsReading (IsJob CommandName.Check (rows_in found.now)) result }
{
    Ok(Job::Texts(TextJob::Check {
        batch: text_of(alloc, found, "BATCH")?,
        schedule: text_of(alloc, found, "SCHEDULE")?,
    }))
}

/// The job of `draw`.
fn draw_of(alloc: Global, found: &ArgMatches<'_>) -> Result<Job, UsageError>
    ensures { IsReading (IsJob CommandName.Draw (rows_in found.now)) result }
{
    let batch = text_of(alloc, found, "BATCH")?;
    let schedule = text_of(alloc, found, "SCHEDULE")?;
    let settings = option_of(alloc, found, "settings")?;
    match (is_given(found, "prices"), settings) {
        (false, settings) => Ok(Job::Texts(TextJob::Draw {
            batch,
            schedule,
            settings,
        })),
        (true, None) => Ok(Job::Texts(TextJob::Prices { batch, schedule })),
        (true, Some(_)) => Err(UsageError::Picture),
    }
}

/// Whether there are two switches.
fn has_two(matches: &ArgMatches<'_>) -> Result<bool, UsageError>
    ensures { IsReading (HasTwo (rows_in matches.now)) result }
{
    match (is_given(matches, "switches"), is_given(matches, "wiring")) {
        (false, _) => Ok(false),
        (true, false) => Ok(true),
        (true, true) => Err(UsageError::Switches),
    }
}

/// The job of `switch`.
fn switch_of(alloc: Global, found: &ArgMatches<'_>) -> Result<Job, UsageError>
    ensures { IsReading (IsJob CommandName.Switch (rows_in found.now)) result }
{
    Ok(Job::Texts(TextJob::Switch {
        workers: workers_of(found)?,
        batch: text_of(alloc, found, "BATCH")?,
        source: source_of(alloc, found)?,
        wiring: option_of(alloc, found, "wiring")?,
        has_two: has_two(found)?,
    }))
}

/// The job of `orders`.
fn orders_of(alloc: Global, found: &ArgMatches<'_>) -> Result<Job, UsageError>
    ensures { IsReading (IsJob CommandName.Orders (rows_in found.now)) result }
{
    Ok(Job::Texts(TextJob::Orders {
        workers: workers_of(found)?,
        module: number_of(found, "module", LAST_MODULE)?,
        batch: text_of(alloc, found, "BATCH")?,
        source: source_of(alloc, found)?,
    }))
}

/// The job of `drive`.
fn drive_of(alloc: Global, found: &ArgMatches<'_>) -> Result<Job, UsageError>
    ensures { IsReading (IsJob CommandName.Drive (rows_in found.now)) result }
{
    Ok(Job::Ports(PortJob::Drive {
        workers: workers_of(found)?,
        first_setting: first_of(found)?,
        goes_on: is_given(found, "go-on"),
        batch: text_of(alloc, found, "BATCH")?,
        port: text_of(alloc, found, "PORT")?,
        port_b: option_of(alloc, found, "PORT_B")?,
        source: source_of(alloc, found)?,
        wiring: option_of(alloc, found, "wiring")?,
    }))
}

/// The job of `direct`.
fn direct_of(alloc: Global, found: &ArgMatches<'_>) -> Result<Job, UsageError>
    ensures { IsReading (IsJob CommandName.Direct (rows_in found.now)) result }
{
    Ok(Job::Texts(TextJob::Direct {
        moves: text_of(alloc, found, "MOVES")?,
    }))
}

/// The job of `apply`.
fn apply_of(alloc: Global, found: &ArgMatches<'_>) -> Result<Job, UsageError>
    ensures { IsReading (IsJob CommandName.Apply (rows_in found.now)) result }
{
    Ok(Job::Texts(TextJob::Apply {
        workers: workers_of(found)?,
        shape: text_of(alloc, found, "SHAPE")?,
        batch: text_of(alloc, found, "BATCH")?,
        image: text_of(alloc, found, "IMAGE")?,
    }))
}

/// The job of `run`.
fn run_of(alloc: Global, found: &ArgMatches<'_>) -> Result<Job, UsageError>
    ensures { IsReading (IsJob CommandName.Run (rows_in found.now)) result }
{
    Ok(Job::Texts(TextJob::Run {
        workers: workers_of(found)?,
        shape: text_of(alloc, found, "SHAPE")?,
        batch: text_of(alloc, found, "BATCH")?,
        source: source_of(alloc, found)?,
        image: option_of(alloc, found, "image")?,
    }))
}

/// The job of `serve`.
fn serve_of(alloc: Global, found: &ArgMatches<'_>) -> Result<Job, UsageError>
    ensures { IsReading (IsJob CommandName.Serve (rows_in found.now)) result }
{
    Ok(Job::Sessions {
        rack: rack_of(alloc, found)?,
        job: SessionJob::Serve {
            scripts: served_of(alloc, found, "SCRIPT")?,
            workers: workers_of(found)?,
        },
    })
}

/// The job of `host`.
fn host_of(alloc: Global, found: &ArgMatches<'_>) -> Result<Job, UsageError>
    ensures { IsReading (IsJob CommandName.Host (rows_in found.now)) result }
{
    Ok(Job::Sessions {
        rack: rack_of(alloc, found)?,
        job: SessionJob::Host {
            clients: served_of(alloc, found, "CLIENT")?,
            workers: workers_of(found)?,
        },
    })
}

/// The job of `talk`.
fn talk_of(alloc: Global, found: &ArgMatches<'_>) -> Result<Job, UsageError>
    ensures { IsReading (IsJob CommandName.Talk (rows_in found.now)) result }
{
    Ok(Job::Sessions {
        rack: rack_of(alloc, found)?,
        job: SessionJob::Talk,
    })
}

/// The job of `replay`.
fn replay_of(alloc: Global, found: &ArgMatches<'_>) -> Result<Job, UsageError>
    ensures { IsReading (IsJob CommandName.Replay (rows_in found.now)) result }
{
    Ok(Job::Texts(TextJob::Replay {
        first_entries: number_of(found, "first", MAX_NUMBER)?,
        shape: option_of(alloc, found, "shape")?,
        recorded: text_of(alloc, found, "RECORD")?,
        image: option_of(alloc, found, "image")?,
    }))
}

/// The job of a command by its matches.
fn job_of(alloc: Global, name: CommandName, found: &ArgMatches<'_>) -> Result<Job, UsageError>
    ensures { IsReading (IsJob name (rows_in found.now)) result }
{
    match name {
        CommandName::Plan => plan_of(alloc, found),
        CommandName::Check => check_of(alloc, found),
        CommandName::Draw => draw_of(alloc, found),
        CommandName::Switch => switch_of(alloc, found),
        CommandName::Orders => orders_of(alloc, found),
        CommandName::Drive => drive_of(alloc, found),
        CommandName::C004 => Ok(Job::Ports(PortJob::C004)),
        CommandName::Direct => direct_of(alloc, found),
        CommandName::Apply => apply_of(alloc, found),
        CommandName::Run => run_of(alloc, found),
        CommandName::Serve => serve_of(alloc, found),
        CommandName::Host => host_of(alloc, found),
        CommandName::Talk => talk_of(alloc, found),
        CommandName::Replay => replay_of(alloc, found),
    }
}

/// The job of the command that this word calls, by its matches, and whether it is quiet.
fn request_of(alloc: Global, word: &str, found: &ArgMatches<'_>) -> Result<Request, UsageError>
    ensures { IsReading (IsRequest word.now (rows_in found.now)) result }
{
    let Some(name) = CommandName::of(word) else {
        return Err(UsageError::Word);
    };
    Ok(Request {
        job: job_of(alloc, name, found)?,
        is_quiet: is_given(found, "quiet"),
    })
}

/// What the arguments ask for, whatever files it names.
fn request_named(alloc: Global, arguments: &[String]) -> Result<Request, ArgumentsFault>
    ensures taken { OnOk result (IsTaken (texts_of arguments.now)) }
    ensures request { IfOk result (GivesRequest (texts_of arguments.now)) }
    ensures fault { IfErr result (IsFaultIn (texts_of arguments.now)) }
{
    let matches = matches_of(alloc, arguments)?;
    match matches.subcommand() {
        Some((word, found)) => match request_of(alloc, word, found) {
            Ok(request) => Ok(request),
            Err(lack) => Err(fault_of(alloc, arguments, lack)),
        },
        None => Err(fault_of(alloc, arguments, UsageError::Word)),
    }
}

/// Whether a job may be done: what it lacks, where a client has no name that is one, or a file is
/// named twice that can't be.
fn judge(alloc: Global, job: &Job) -> Result<(), UsageError>
    ensures done { OnOk result (MayBeDone job.now) }
    ensures refused { IfErr result (λ lack. lack ≢ Memory → MayBeDone job.now → ⊥) }
{
    if !names_clients(job) {
        return Err(UsageError::Clients);
    }
    let files = file_uses(alloc, job)?;
    match first_misnamed(files.as_slice()) {
        None => Ok(()),
        Some(why) => Err(UsageError::Files(why.to_string(alloc)?)),
    }
}

/// Reads the program's arguments, the first of which is its own name.
///
/// Gives what clap finds in arguments that fit the program's grammar: the command's job, with its
/// texts and its number of workers, and whether it is quiet. Other arguments are clap's error of
/// what is at fault in them, which holds the text to print; a demand for help or for the program's
/// version is one. So are arguments that fit, but give two of `--workers`, `--steady` and
/// `--schedule`, or `--prices` with `--settings`, or `--switches` with `--wiring`, or `--resume` or
/// `--sync` without `--record`, or name a job of which several files are `-`, standard input,
/// clients whose names are no names, or a file to be written that is read or written too, or that
/// is `-`.
/// Where there was no memory, nothing is said about the arguments: clap's error of that kind is
/// [`ArgumentsFault::NoMemory`], too.
pub fn read_arguments(alloc: Global, arguments: &[String]) -> Result<Request, ArgumentsFault>
    ensures request { IfOk result (AskFor (texts_of arguments.now)) }
    ensures limits { IfOk result (λ request. IsWithinLimits request.job) }
    ensures fault { IfErr result (IsFaultIn (texts_of arguments.now)) }
{
    let request = request_named(alloc, arguments)?;
    // A `?` would take a refused request apart here, which makes the proof long; `drop` does it
    // elsewhere.
    match judge(alloc, &request.job) {
        Ok(()) => Ok(request),
        Err(lack) => {
            drop(request);
            Err(fault_of(alloc, arguments, lack))
        }
    }
}

//! The command `drive`.

ghost use Rattle.std.specs.Prelude.{◌≡◌, [], List, ℕ, IfOk, IfErr};
ghost use Rattle.std.specs.Io.KnownBytes.{Appends};
ghost use Rattle.drive_answers.specs.Ways.{names_of};
ghost use Rattle.drive_answers.specs.declared.fault.DriveFault.TheVariants.{NoMemory, Untold};
ghost use Rattle.named_files.specs.Contents.{contents_in};
ghost use Rattle.exchange.specs.Drives.{IsDriveBy, IsDriveCut};
ghost use Rattle.exchange.specs.Outcomes.{HasTold, IsMissedFor};
ghost use Rattle.named_files.specs.Notes.{IsNoAnswer};
ghost use Rattle.exchange.specs.Responses.{source_in, text_in};
ghost use Rattle.exchange.specs.Warnings.{MayHaveWarned};

use crate::warned::WarningObserver;
use command_words::Text;
use crossbar::Chip;
use drive_answers::{
    DriveEnd, DriveFault, OutputMismatch, PortFailure, PortFile, PortNames, Ports, answer_drive,
};
use exchange_limits::WorkerCount;
use named_files::{Contents, IoFailure, JobFailure, OutputFailure, slice_of, source_with, text_of};
use plan_answers::ScheduleSource;
use recorded_sessions::JobResult;
use refusals::PortName;
use std::alloc::{AllocError, Global};
use std::io;
use std::io::{ErrorKind, Read, Write};
use std::thread::Threads;
use switch_driver::LineObserver;

/// How a drive by lines ended, and why a setting couldn't be told, or no line be read, where that
/// was so.
#[derive(Drop)]
struct LinesEnd {
    end: Result<DriveEnd, DriveFault>,
    reason: Option<io::Error>,
}

/// What is answered to these texts after lines that are told on `out`. After each a line of
/// `input` is waited for, unless it goes on. Before the first a warning is told on `err`, where
/// there is one.
fn answer_lines<R: AllocGlobal + Threads + Sync, P: Ports, I: Read, O: Write, E: Write>(
    rt: &R,
    workers: WorkerCount,
    source: &ScheduleSource<Text>,
    contents: &Contents,
    first: usize,
    names: PortNames<'_>,
    goes_on: bool,
    ports: &mut P,
    input: &mut I,
    out: &mut O,
    warning: Option<String>,
    err: &mut E,
) -> LinesEnd
    ensures told { (told : List ℕ) × Appends (O.contents out.old) (O.contents out.new) told
        × IfOk result.end (λ end. let files = contents_in contents.now in
        IsDriveBy (source_in source.now (text_in files.schedule)) (text_in files.list) files.wiring
        first goes_on (names_of names.entry) (I.remaining input.old) (P.ways ports.old)
        (P.ways ports.new) told end.answer)
        × IfErr result.end (λ fault. (fault ≡ NoMemory
        → (told ≡ []) × (P.ways ports.new ≡ P.ways ports.old))
        × (fault ≡ Untold → let files = contents_in contents.now in
        IsDriveCut (source_in source.now (text_in files.schedule)) (text_in files.list) files.wiring
        first goes_on (names_of names.entry) (I.remaining input.old) (P.ways ports.old)
        (P.ways ports.new) told)) }
    ensures beside { MayHaveWarned warning (E.contents err.old) (E.contents err.new) }
{
    let (list, wiring) = (text_of(&contents.list), slice_of(&contents.wiring));
    let source = source_with(source, text_of(&contents.schedule));
    let alloc = rt.alloc();
    let mut stage = WarningObserver::new(LineObserver::new(input, out, !goes_on), warning, err);
    let end = answer_drive(
        rt, alloc, wiring, list, source, workers, first, names, ports, &mut stage,
    );
    let (mut lines, _err) = stage.into_parts();
    let reason = lines.take_reason();
    // It does nothing when the program runs: the proof reads from it what `out` holds.
    lines.into_out();
    LinesEnd { end, reason }
}

/// The answer of `exchange drive BATCH PORT [PORT_B]`, from this setting on, after the lines that
/// are told on `out`, each once its setting stands. After each a line of `input` is waited for,
/// unless it goes on. Before the first a warning is told on `err`, where there is one.
pub(crate) fn drive<R: AllocGlobal + Threads + Sync, P: Ports, I: Read, O: Write, E: Write>(
    rt: &R,
    workers: WorkerCount,
    source: &ScheduleSource<Text>,
    contents: &Contents,
    first: usize,
    names: PortNames<'_>,
    goes_on: bool,
    ports: &mut P,
    input: &mut I,
    out: &mut O,
    warning: Option<String>,
    err: &mut E,
) -> Result<JobResult, JobFailure>
    ensures answer { HasTold (O.contents out.old) (O.contents out.new)
        (λ told found. let files = contents_in contents.now in
        IsDriveBy (source_in source.now (text_in files.schedule)) (text_in files.list) files.wiring
        first goes_on (names_of names.entry) (I.remaining input.old) (P.ways ports.old)
        (P.ways ports.new) told found.answer)
        (λ told. (told ≡ []) × (P.ways ports.new ≡ P.ways ports.old))
        (λ told. let files = contents_in contents.now in
        IsDriveCut (source_in source.now (text_in files.schedule)) (text_in files.list) files.wiring
        first goes_on (names_of names.entry) (I.remaining input.old) (P.ways ports.old)
        (P.ways ports.new) told) result }
    ensures note { IfErr result (λ missed. IsNoAnswer missed) }
    ensures beside { MayHaveWarned warning (E.contents err.old) (E.contents err.new) }
{
    let LinesEnd { end, reason } = answer_lines(
        rt, workers, source, contents, first, names, goes_on, ports, input, out, warning, err,
    );
    match end {
        Ok(end) => {
            let failure = ports.take_failure();
            let lack = failure_of(rt.alloc(), names, failure, end.sight, reason);
            Ok(JobResult {
                lack,
                ..JobResult::alone(end.answer)
            })
        }
        Err(fault) => Err(missed_by(fault, reason)),
    }
}

/// Why nothing is printed after settings. A setting couldn't be told for this reason.
fn missed_by(fault: DriveFault, reason: Option<io::Error>) -> JobFailure
    ensures { IsNoAnswer result × IsMissedFor fault result }
{
    match fault {
        DriveFault::Untold => JobFailure::OutputFailure(OutputFailure::Setting(reason)),
        DriveFault::NoMemory => JobFailure::NoMemory,
    }
}

/// What is told of a port that failed, of an output that disagrees, or of input that can't be read.
fn failure_of(
    alloc: Global,
    names: PortNames<'_>,
    failure: Option<PortFailure>,
    sight: Option<OutputMismatch>,
    unread: Option<io::Error>,
) -> Option<IoFailure> {
    if let Some(failure) = failure {
        return port_failure(alloc, names, &failure).ok();
    }
    if let Some(sight) = sight {
        return mismatch_failure(alloc, names, &sight).ok();
    }
    input_failure(alloc, &unread?).ok()
}

/// What is told of a port that couldn't be opened, or that failed.
fn port_failure(
    alloc: Global,
    names: PortNames<'_>,
    failure: &PortFailure,
) -> Result<IoFailure, AllocError> {
    let port = match failure.port {
        PortName::A => names.port,
        PortName::B => names.port_b.unwrap_or(""),
    };
    let end = match failure.file {
        PortFile::Port => "",
        PortFile::In => ".in",
        PortFile::Out => ".out",
    };
    let why = match failure.why.kind() {
        ErrorKind::UnexpectedEof => format!(in alloc; "it ended")?,
        _ => failure.why.to_string(alloc)?,
    };
    let name = format!(in alloc; "{port}{end}")?;
    Ok(IoFailure { name, why })
}

/// What is told of an output that disagrees.
fn mismatch_failure(
    alloc: Global,
    names: PortNames<'_>,
    sight: &OutputMismatch,
) -> Result<IoFailure, AllocError> {
    let port = match sight.chip() {
        Chip::A => names.port,
        Chip::B => names.port_b.unwrap_or(""),
    };
    let name = format!(in alloc; "{port}")?;
    let why = sight.to_string(alloc)?;
    Ok(IoFailure { name, why })
}

/// What is told of standard input that can't be read.
fn input_failure(alloc: Global, unread: &io::Error) -> Result<IoFailure, AllocError> {
    let name = format!(in alloc; "-")?;
    let why = unread.to_string(alloc)?;
    Ok(IoFailure { name, why })
}

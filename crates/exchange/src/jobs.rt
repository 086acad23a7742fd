//! The answer to each job.

ghost use Rattle.std.specs.Prelude.{◌≡◌, [], List, ℕ, IfErr, IfOk, IsOk, OnErr, OnOk, Option, None};
ghost use Rattle.std.specs.Prelude.{length};
ghost use Rattle.std.specs.Io.KnownBytes.{Appends};
ghost use Rattle.batch_book.specs.History.{BookView};
ghost use Rattle.plan_answers.specs.Lent.{bytes_of};
ghost use Rattle.command_words.specs.Jobs.{IsWithinLimits, all_files, clients_of, files_of};
ghost use Rattle.command_words.specs.declared.jobs.Job.TheVariants.{Ports as OverPorts};
ghost use Rattle.command_words.specs.declared.jobs.Job.TheVariants.{Texts as OfTexts};
ghost use Rattle.named_files.specs.Contents.{AreContents, HasReadOnce, contents_in};
ghost use Rattle.named_files.specs.Clients.{AreAdmitted, clients_by, ends_of};
ghost use Rattle.session_answers.specs.Passes.{no_passes};
ghost use Rattle.exchange.specs.Ends.{HasEnded, behind, streams_of};
ghost use Rattle.exchange.specs.Responses.{IsAnswerTo, IsC004By, IsC004Cut, IsPortAnswer};
ghost use Rattle.exchange.specs.Responses.{IsPortCut, IsTextAnswer, IsToldCut, given_by, named_by};
ghost use Rattle.exchange.specs.Notes.{IsBeside, IsWarnedOf};
ghost use Rattle.exchange.specs.Keeping.{AreKept, AreKeptBut};
ghost use Rattle.named_files.specs.Outputs.{AreNamed, AreOpened, begins_with, is_live, output_of};
ghost use Rattle.named_files.specs.Outputs.{record_of};
ghost use Rattle.exchange.specs.Outcomes.{HasTold, IsNothing, IsUnanswered, response_of};
ghost use Rattle.named_files.specs.Notes.{IsNoAnswer, IsRefused};

use crate::answered::{NotedAnswer, finished};
use crate::devices::Devices;
use crate::driving::drive;
use crate::failures::{cut_note, no_failures, report_failure, report_failures, torn_note};
use crate::note_writer::NoteWriter;
use crate::unserved::{close_outputs, without_sessions};
use crate::warnings::{overlap_warning_of, tell_beside, warning_of};
use client_session::NoListener;
use command_words::{Job, PortJob, Request, SessionJob, Text, TextJob};
use drive_answers::{PortNames, Ports};
use exchange_limits::WorkerCount;
use link_devices::{EndFault, SwitchEnd, answer_commands};
use named_files::{
    Contents, DistinctFiles, JobFailure, OutputFailure, Outputs, ProgramRuntime, Receipts, System,
    open_distinct, read_contents, reason_line, slice_of, source_with, tell_note, text_of,
};
use plan_answers::{Answer, answer_check, answer_direct, answer_draw, answer_plan, answer_prices};
use rack_answers::{answer_apply, answer_orders, answer_run, answer_switch};
use record_replay::answer_replay;
use recorded_sessions::{JobResult, SessionsResult, host, serve, talk};
use std::alloc::{AllocError, Global};
use std::io;
use std::io::{Read, Write};
use std::thread::Threads;
use step_count::Steps;

/// How a job ended, and what is left of what was opened for it to be written.
pub(crate) struct JobEnd<C> {
    pub(crate) end: Result<NotedAnswer, JobFailure>,
    pub(crate) receipts: Receipts<C>,
}

/// The answer to a job, or why it has none, with what is told beside it. A session of `talk` is
/// told its replies on `out` before, and a line on `err` beside each that is a refusal, but for
/// lack of memory. `drive` tells its settings on `out` before, and `c004` writes its answers to
/// enquiries there, and tells on `err` what it drops. `plan`, `switch` and `drive` tell on `err`
/// where two transfers write one block, `draw` where its picture is higher than common tools draw,
/// `host` which files of clients couldn't be opened, and `replay` how far a record goes that hasn't
/// ended. It is looked first where names lead. Then the files for the record of sessions and for
/// the image that they leave are opened, before any other is read, and all that are read are read
/// before anything is answered.
pub(crate) fn run_job<R: ProgramRuntime, S: System, P: Ports, I: Read, O: Write, E: Write>(
    rt: &R,
    system: &S,
    peers: &mut Devices<P, S::Desk, S::Reads>,
    request: &Request,
    input: &mut I,
    out: &mut O,
    err: &mut E,
) -> JobEnd<S::Receipt>
    requires limits { IsWithinLimits request.now.job }
    requires unserved { peers.old.endings.items ≡ [] }
    requires no_passes { S.passes peers.old.desk ≡ no_passes }
    ensures ended { HasEnded (named_by (S.holds system.now) (S.leads system.now)) S.received
        (given_by (I.remaining input.old) (P.ways peers.old.ports)
        (clients_by (S.says system.now) (S.had system.now))) request.now
        (streams_of (O.contents out.old) (O.contents out.new) (E.contents err.old)
        (E.contents err.new))
        (behind result.receipts (P.ways peers.new.ports) (ends_of peers.new.endings.items))
        result.end }
    ensures admitted { AreAdmitted (clients_of request.now.job) (ends_of peers.new.endings.items)
        (S.passes peers.new.desk).admitted }
    ensures read { HasReadOnce (all_files (files_of request.now.job)) (S.were_read peers.old.reads)
        (S.were_read peers.new.reads) }
{
    let (alloc, job) = (rt.alloc(), &request.job);
    let (outputs, opened) = open_distinct(system, alloc, job);
    let (apart, contents) = match read_opened(system, alloc, job, opened, &mut peers.reads, input) {
        Ok(read) => read,
        Err(missed) => {
            return JobEnd {
                end: Err(missed),
                receipts: close_outputs(system, job, outputs),
            };
        }
    };
    let SessionsResult {
        end,
        receipts,
        lost,
        cut: _,
    } = run_job_on(
        rt, system, peers, request, &apart, &contents, outputs, input, out, err,
    );
    JobEnd {
        end: finished(alloc, end, lost, job, &contents),
        receipts,
    }
}

/// What the files of a job contain, where those that it writes are open.
fn read_opened<S: System, I: Read>(
    system: &S,
    alloc: Global,
    job: &Job,
    opened: Result<DistinctFiles, JobFailure>,
    reads: &mut S::Reads,
    input: &mut I,
) -> Result<(DistinctFiles, Contents), JobFailure>
    requires apart { IfOk opened (λ apart. apart ≡ job.now) }
    requires note { IfErr opened (λ missed. IsRefused missed) }
    ensures apart { IfOk result (λ read. read.0 ≡ job.now) }
    ensures contents { IfOk result (λ read. AreContents (S.holds system.now)
        (I.remaining input.old) (files_of job.now) (contents_in read.1)
        (I.remaining input.new)) }
    ensures scripts { IfOk result (λ read. length (contents_in read.1).scripts
        ≡ length (files_of job.now).scripts) }
    ensures note { IfErr result (λ missed. IsRefused missed) }
    ensures opened { OnOk result (IsOk opened) }
    ensures read { HasReadOnce (all_files (files_of job.now)) (S.were_read reads.old)
        (S.were_read reads.new) }
{
    let apart = opened?;
    let contents = read_contents(system, alloc, reads, &apart, job.files(), input)?;
    Ok((apart, contents))
}

/// What comes of a job whose files contain this, and of the files that are open for it. Only
/// sessions wait, for a lock or for a client: `run_text_job` and `run_port_job` aren't handed what
/// that takes, and so return, but that a read may block.
fn run_job_on<R: ProgramRuntime, S: System, P: Ports, I: Read, O: Write, E: Write>(
    rt: &R,
    system: &S,
    peers: &mut Devices<P, S::Desk, S::Reads>,
    request: &Request,
    apart: &DistinctFiles,
    contents: &Contents,
    outputs: Outputs<'_, S::Stream>,
    input: &mut I,
    out: &mut O,
    err: &mut E,
) -> SessionsResult<S::Receipt>
    requires limits { IsWithinLimits request.now.job }
    requires apart { apart.now ≡ request.now.job }
    requires unserved { peers.old.endings.items ≡ [] }
    requires no_passes { S.passes peers.old.desk ≡ no_passes }
    requires scripts { length (contents_in contents.now).scripts
        ≡ length (files_of request.now.job).scripts }
    requires opened { AreOpened S.Stream.contents
        (begins_with (S.holds system.now) (is_live request.now.job)) (record_of request.now.job)
        (output_of request.now.job) outputs }
    requires named { AreNamed (record_of request.now.job) (output_of request.now.job) outputs }
    ensures response { HasTold (O.contents out.old) (O.contents out.new)
        (λ told found. (left : Option BookView) × IsAnswerTo (S.holds system.now) request.now.job
        (contents_in contents.now)
        (given_by (I.remaining input.old) (P.ways peers.old.ports)
        (clients_by (S.says system.now) (S.had system.now)))
        (response_of told found left (P.ways peers.new.ports)
        (ends_of peers.new.endings.items))
        × AreKeptBut (S.holds system.now) S.received request.now.job left result.receipts
        result.lost)
        (IsUnanswered (P.ways peers.old.ports) (P.ways peers.new.ports)
        (ends_of peers.new.endings.items))
        (λ told. IsToldCut request.now.job (contents_in contents.now) (I.remaining input.old)
        (P.ways peers.old.ports) (P.ways peers.new.ports) told
        × (ends_of peers.new.endings.items ≡ [])) result.end }
    ensures note { IfErr result.end (λ missed. IsNoAnswer missed) }
    ensures beside { IsBeside (IsWarnedOf request.now.job (contents_in contents.now)) request.now
        (E.contents err.old) (E.contents err.new) }
    ensures unkept { OnErr result.end
        (AreKept (S.holds system.now) S.received request.now.job None result.receipts) }
    ensures admitted { AreAdmitted (clients_of request.now.job) (ends_of peers.new.endings.items)
        (S.passes peers.new.desk).admitted }
    ensures reads { S.were_read peers.new.reads ≡ S.were_read peers.old.reads }
{
    let (alloc, is_quiet) = (rt.alloc(), request.is_quiet);
    match &request.job {
        Job::Texts(job) => {
            let end = run_text_job(rt, request, job, contents, err);
            without_sessions(system, &request.job, end, outputs)
        }
        Job::Ports(job) => {
            let end = run_port_job(
                rt,
                &mut peers.ports,
                request,
                job,
                contents,
                input,
                out,
                err,
            );
            without_sessions(system, &request.job, end, outputs)
        }
        Job::Sessions { rack, job } => match job {
            SessionJob::Serve { workers, .. } => {
                serve(rt, system, rack, *workers, contents, outputs)
            }
            SessionJob::Host { clients, workers } => {
                let clients = clients.as_slice();
                let lacks = match no_failures(alloc, clients.len()) {
                    Ok(lacks) => lacks,
                    Err(error) => return without_sessions(
                        system,
                        &request.job,
                        Err(JobFailure::from(error)),
                        outputs,
                    ),
                };
                let lacks = lacks.as_slice();
                let kept = host(
                    rt,
                    system,
                    rack,
                    clients,
                    apart,
                    *workers,
                    contents,
                    lacks,
                    outputs,
                    &mut peers.desk,
                    &mut peers.endings,
                );
                report_failures(alloc, lacks, is_quiet, err);
                report_failure(
                    alloc,
                    cut_note(alloc, rack, kept.cut).as_ref(),
                    is_quiet,
                    err,
                );
                kept
            }
            SessionJob::Talk if is_quiet => talk(
                rt,
                system,
                rack,
                contents,
                outputs,
                input,
                out,
                &mut NoListener,
            ),
            SessionJob::Talk => {
                let mut beside = NoteWriter::new(alloc, rack.shape.as_str(), err);
                let kept = talk(rt, system, rack, contents, outputs, input, out, &mut beside);
                // It does nothing when the program runs: the proof reads from it what `err` holds.
                beside.into_stream();
                report_failure(
                    alloc,
                    cut_note(alloc, rack, kept.cut).as_ref(),
                    is_quiet,
                    err,
                );
                kept
            }
        },
    }
}

/// The answer to a job of a switch, whose files contain this. It waits for nobody but for a line of
/// `input`.
fn run_port_job<R: AllocGlobal + Threads + Sync, P: Ports, I: Read, O: Write, E: Write>(
    rt: &R,
    ports: &mut P,
    request: &Request,
    job: &PortJob,
    contents: &Contents,
    input: &mut I,
    out: &mut O,
    err: &mut E,
) -> Result<JobResult, JobFailure>
    requires { request.now.job ≡ OverPorts job.now }
    ensures response { HasTold (O.contents out.old) (O.contents out.new)
        (λ told found. IsPortAnswer job.now (contents_in contents.now) (I.remaining input.old)
        (P.ways ports.old) (P.ways ports.new) told found.answer)
        (λ told. (told ≡ []) × (P.ways ports.new ≡ P.ways ports.old))
        (IsPortCut job.now (contents_in contents.now) (I.remaining input.old) (P.ways ports.old)
        (P.ways ports.new)) result }
    ensures note { IfErr result (λ missed. IsNoAnswer missed) }
    ensures beside { IsBeside (IsWarnedOf request.now.job (contents_in contents.now)) request.now
        (E.contents err.old) (E.contents err.new) }
{
    let alloc = rt.alloc();
    match job {
        PortJob::Drive {
            port,
            port_b,
            source,
            first_setting: first,
            goes_on,
            workers,
            ..
        } => {
            let names = PortNames {
                port: port.as_str(),
                port_b: text_in(port_b),
            };
            let warning = overlap_warning_of(alloc, request, contents);
            drive(
                rt, *workers, source, contents, *first, names, *goes_on, ports, input, out,
                warning, err,
            )
        }
        PortJob::C004 if request.is_quiet => c004(alloc, input, out, &mut io::sink()),
        PortJob::C004 => c004(alloc, input, out, err),
    }
}

/// The answer to a job whose files are all that it asks for, with what is told beside it. It waits
/// for nobody.
fn run_text_job<R: AllocGlobal + Threads + Sync, E: Write>(
    rt: &R,
    request: &Request,
    job: &TextJob,
    contents: &Contents,
    err: &mut E,
) -> Result<JobResult, JobFailure>
    requires { request.now.job ≡ OfTexts job.now }
    ensures text { IfOk result (λ found.
        IsTextAnswer job.now (contents_in contents.now) found.answer) }
    ensures note { IfErr result (λ missed. IsRefused missed) }
    ensures beside { IsBeside (IsWarnedOf request.now.job (contents_in contents.now)) request.now
        (E.contents err.old) (E.contents err.new) }
{
    let alloc = rt.alloc();
    let found = answer_texts(rt, job, contents)?;
    match job {
        TextJob::Replay { recorded, .. } => {
            let lack = torn_note(alloc, recorded, found.torn);
            report_failure(alloc, lack.as_ref(), request.is_quiet, err);
            Ok(found)
        }
        _ => {
            let warning = warning_of(alloc, request, job, contents, &found.answer);
            tell_beside(warning, &found.answer, err);
            Ok(found)
        }
    }
}

/// The same without what is told beside it.
fn answer_texts<R: AllocGlobal + Threads + Sync>(
    rt: &R,
    job: &TextJob,
    contents: &Contents,
) -> Result<JobResult, AllocError>
    ensures { IfOk result (λ found.
        IsTextAnswer job.now (contents_in contents.now) found.answer) }
{
    let alloc = rt.alloc();
    let (list, schedule) = (text_of(&contents.list), text_of(&contents.schedule));
    let image = slice_of(&contents.image);
    match job {
        TextJob::Plan {
            planning,
            workers,
            ..
        } => Ok(JobResult::alone(answer_plan(
            rt,
            alloc,
            list,
            *planning,
            *workers,
            &mut Steps::none(),
        )?)),
        TextJob::Check { .. } => Ok(JobResult::alone(answer_check(alloc, list, schedule)?)),
        TextJob::Draw { settings, .. } => {
            let range = bytes_in(settings);
            Ok(JobResult::alone(answer_draw(alloc, list, schedule, range)?))
        }
        TextJob::Prices { .. } => Ok(JobResult::alone(answer_prices(alloc, list, schedule)?)),
        TextJob::Switch {
            source,
            has_two,
            workers,
            ..
        } => {
            let source = source_with(source, schedule);
            let wiring = slice_of(&contents.wiring);
            let answer = answer_switch(rt, alloc, *has_two, wiring, list, source, *workers)?;
            Ok(JobResult::alone(answer))
        }
        TextJob::Orders {
            source,
            module,
            workers,
            ..
        } => {
            let source = source_with(source, schedule);
            let answer = answer_orders(rt, alloc, list, source, *module, *workers)?;
            Ok(JobResult::alone(answer))
        }
        TextJob::Direct { .. } => Ok(JobResult::alone(answer_direct(alloc, list)?)),
        TextJob::Apply { shape, .. } => {
            let shape = shape.as_str().as_bytes();
            let answer = answer_apply(alloc, shape, list, schedule)?;
            Ok(JobResult::alone(answer))
        }
        TextJob::Run {
            shape,
            source,
            workers,
            ..
        } => {
            let shape = shape.as_str().as_bytes();
            let source = source_with(source, schedule);
            let answer = answer_run(rt, alloc, shape, list, source, image, *workers)?;
            Ok(JobResult::alone(answer))
        }
        TextJob::Replay {
            shape,
            first_entries,
            ..
        } => {
            let shape = bytes_in(shape);
            let workers = WorkerCount::ONE;
            let replayed = answer_replay(rt, alloc, shape, list, image, *first_entries, workers)?;
            Ok(JobResult::replayed(replayed))
        }
    }
}

/// A text, where there is one.
fn text_in(text: &Option<Text>) -> Option<&str>
    ensures { bytes_of result ≡ text.now }
{
    match text {
        Some(text) => Some(text.as_str()),
        None => None,
    }
}

/// The bytes of a text, where there is one.
fn bytes_in(text: &Option<Text>) -> Option<&[u8]>
    ensures { bytes_of result ≡ text.now }
{
    match text {
        Some(text) => Some(text.as_str().as_bytes()),
        None => None,
    }
}

/// The answer of `exchange c004`, after its answers to enquiries on `out`. What it drops is told
/// on `err`, and so is why standard input can't be read any further.
fn c004<I: Read, O: Write, E: Write>(
    alloc: Global,
    input: &mut I,
    out: &mut O,
    err: &mut E,
) -> Result<JobResult, JobFailure>
    ensures answer { HasTold (O.contents out.old) (O.contents out.new)
        (λ told found. IsC004By (I.remaining input.old) told found.answer)
        IsNothing (IsC004Cut (I.remaining input.old)) result }
    ensures note { IfErr result (λ missed. IsNoAnswer missed) }
    ensures beside { (told : List ℕ) × Appends (E.contents err.old) (E.contents err.new) told }
{
    let mut end = SwitchEnd::new();
    match answer_commands(&mut end, input, out, err) {
        Ok(()) => Ok(JobResult::alone(Answer::done(Vec::new(alloc)))),
        Err(EndFault::Read(error)) => {
            tell_note(&reason_line(alloc, "-", &error), false, err);
            Ok(JobResult::alone(Answer::failed(Vec::new(alloc))))
        }
        Err(EndFault::Write(error)) => Err(JobFailure::OutputFailure(OutputFailure::from(error))),
    }
}

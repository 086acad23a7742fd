//! From the arguments of the command line to what is printed, and the status that the program ends
//! with.

ghost use Rattle.std.specs.Prelude.{◌≡◌, [], ◌⊎◌, IfErr, IfOk, IsSomeAnd, MatchOption, OnErr};
ghost use Rattle.std.specs.Prelude.{option_map, string_bytes};
ghost use Rattle.std.specs.Process.{exit_status};
ghost use Rattle.command_words.specs.Jobs.{texts_of};
ghost use Rattle.exchange.specs.Responses.{given_by, named_by};
ghost use Rattle.named_files.specs.Notes.{note_of, refusal_of, unanswered, IsToldInPart};
ghost use Rattle.named_files.specs.Notes.{IsToldUnless};
ghost use Rattle.named_files.specs.Clients.{clients_by, ends_of};
ghost use Rattle.named_files.specs.Outputs.{no_write_failures, IsUnwrittenTold};
ghost use Rattle.exchange.specs.Ends.{IsLeft, IsNoneLeft, IsPrinted, leaving, streams_of, IsCutFor};
ghost use Rattle.exchange.specs.Ends.{IsEndForArguments, IsEndWithoutArguments, IsFaultCut};
ghost use Rattle.exchange.specs.Ends.{IsFaultEnd, IsUnwrittenOf};
ghost use Rattle.exchange.specs.Opened.{AreOpenedFor, none_opened_by_name, files_opened};
ghost use Rattle.session_answers.specs.Passes.{no_passes};

use crate::answered::NotedAnswer;
use crate::devices::Devices;
use crate::jobs::{JobEnd, run_job};
use crate::limits::{MISUSED, UNWRITTEN};
use byte_streams::write_bytes;
use command_words::{ArgumentsFault, read_arguments};
use drive_answers::Ports;
use named_files::{JobFailure, OutputFailure, ProgramRuntime, Receipts, System, tell_note};
use plan_answers::{Answer, DONE, REFUSED};
use refusals::Refusal;
use std::alloc::{AllocError, Global};
use std::io;
use std::io::{ErrorKind, Read, Write};
use std::process::ExitCode;

/// How the program ends, and what is left of what it opened to be written.
pub struct ProgramExit<C> {
    /// The status that it ends with.
    pub code: ExitCode,
    /// What is left of the files of a record and of an image.
    pub receipts: Receipts<C>,
}

/// Does what the arguments ask for, prints what there is to say of it, and gives the status that
/// the program ends with: [`UNWRITTEN`] where that can't be printed.
///
/// A file that is `-` is read from `input`. Answers, refusals and the texts of help go to `out`;
/// arguments that fit no command are answered on `err`.
pub fn respond<R: ProgramRuntime, S: System, P: Ports, I: Read, O: Write, E: Write>(
    rt: &R,
    system: &S,
    peers: &mut Devices<P, S::Desk, S::Reads>,
    arguments: io::Result<Vec<String>>,
    input: &mut I,
    out: &mut O,
    err: &mut E,
) -> ProgramExit<S::Receipt>
    requires unserved { peers.old.endings.items ≡ [] }
    requires no_passes { S.passes peers.old.desk ≡ no_passes }
    requires unread { S.were_read peers.old.reads ≡ [] }
    ensures arguments { IfOk arguments (λ w.
        ((exit_status result.code ≡ UNWRITTEN)
        × IsCutFor (named_by (S.holds system.now) (S.leads system.now))
        (leaving (S.holds system.now) S.received result.receipts (P.ways peers.old.ports)
        (P.ways peers.new.ports) (ends_of peers.new.endings.items)) (texts_of w.items)
        (given_by (I.remaining input.old) (P.ways peers.old.ports)
        (clients_by (S.says system.now) (S.had system.now)))
        (O.contents out.old) (O.contents out.new))
        ⊎ IsEndForArguments (named_by (S.holds system.now) (S.leads system.now))
        (IsLeft (S.holds system.now) S.received result.receipts (P.ways peers.new.ports)
        (ends_of peers.new.endings.items))
        (IsNoneLeft result.receipts (P.ways peers.old.ports) (P.ways peers.new.ports)
        (ends_of peers.new.endings.items))
        (texts_of w.items) (given_by (I.remaining input.old) (P.ways peers.old.ports)
        (clients_by (S.says system.now) (S.had system.now)))
        (streams_of (O.contents out.old) (O.contents out.new) (E.contents err.old)
        (E.contents err.new)) (exit_status result.code)) }
    ensures none { OnErr arguments (IsNoneLeft result.receipts (P.ways peers.old.ports)
        (P.ways peers.new.ports) (ends_of peers.new.endings.items)
        × ((exit_status result.code ≡ UNWRITTEN)
        ⊎ IsEndWithoutArguments (O.contents out.old) (O.contents out.new)
        (exit_status result.code))) }
    ensures opened { IfOk arguments (λ w. AreOpenedFor (texts_of w.items)
        (ends_of peers.new.endings.items)
        (files_opened (S.passes peers.new.desk) (S.were_read peers.new.reads))) }
    ensures unopened { OnErr arguments (files_opened (S.passes peers.new.desk)
        (S.were_read peers.new.reads) ≡ none_opened_by_name) }
{
    match arguments {
        Ok(arguments) => {
            let (end, receipts) = print_response(
                rt,
                system,
                peers,
                arguments.as_slice(),
                input,
                out,
                err,
            );
            let code = status_of(end, err);
            ProgramExit { code, receipts }
        }
        Err(error) => {
            let code = status_of(print_without_arguments(&error, out, err), err);
            let receipts = Receipts::none();
            ProgramExit { code, receipts }
        }
    }
}

/// The status that the program ends with. What couldn't be written is told on `err`.
fn status_of<E: Write>(end: Result<u8, OutputFailure>, err: &mut E) -> ExitCode
    ensures done { IfOk end (λ status.
        (exit_status result ≡ status) × (E.contents err.new ≡ E.contents err.old)) }
    ensures unwritten { OnErr end (exit_status result ≡ UNWRITTEN) }
    ensures told { IfErr end (λ what.
        IsUnwrittenTold what (E.contents err.old) (E.contents err.new)) }
{
    match end {
        Ok(status) => ExitCode::from(status),
        Err(unwritten) => {
            unwritten.tell(err);
            ExitCode::from(UNWRITTEN)
        }
    }
}

/// Prints why arguments can't be had as texts. The error is that of writing.
fn print_without_arguments<O: Write, E: Write>(
    error: &io::Error,
    out: &mut O,
    err: &mut E,
) -> Result<u8, OutputFailure>
    ensures { IfOk result (IsEndWithoutArguments (O.contents out.old) (O.contents out.new)) }
{
    if error.kind() == ErrorKind::OutOfMemory {
        return refuse(Refusal::NoMemory, out);
    }
    err.write_all(b"error: a word isn't UTF-8 text\n")?;
    Ok(MISUSED)
}

/// Does what the arguments ask for, prints its answer, or why it has none, and tells a line beside
/// a refusal. The error is that of writing the answer.
fn print_response<R: ProgramRuntime, S: System, P: Ports, I: Read, O: Write, E: Write>(
    rt: &R,
    system: &S,
    peers: &mut Devices<P, S::Desk, S::Reads>,
    arguments: &[String],
    input: &mut I,
    out: &mut O,
    err: &mut E,
) -> (Result<u8, OutputFailure>, Receipts<S::Receipt>)
    requires unserved { peers.old.endings.items ≡ [] }
    requires no_passes { S.passes peers.old.desk ≡ no_passes }
    requires unread { S.were_read peers.old.reads ≡ [] }
    ensures done { IfOk result.0 (IsEndForArguments
        (named_by (S.holds system.now) (S.leads system.now))
        (IsLeft (S.holds system.now) S.received result.1 (P.ways peers.new.ports)
        (ends_of peers.new.endings.items))
        (IsNoneLeft result.1 (P.ways peers.old.ports) (P.ways peers.new.ports)
        (ends_of peers.new.endings.items))
        (texts_of arguments.now) (given_by (I.remaining input.old) (P.ways peers.old.ports)
        (clients_by (S.says system.now) (S.had system.now)))
        (streams_of (O.contents out.old) (O.contents out.new) (E.contents err.old)
        (E.contents err.new))) }
    ensures cut { OnErr result.0 (IsCutFor
        (named_by (S.holds system.now) (S.leads system.now))
        (leaving (S.holds system.now) S.received result.1 (P.ways peers.old.ports)
        (P.ways peers.new.ports) (ends_of peers.new.endings.items)) (texts_of arguments.now)
        (given_by (I.remaining input.old) (P.ways peers.old.ports)
        (clients_by (S.says system.now) (S.had system.now)))
        (O.contents out.old) (O.contents out.new)) }
    ensures opened { AreOpenedFor (texts_of arguments.now) (ends_of peers.new.endings.items)
        (files_opened (S.passes peers.new.desk) (S.were_read peers.new.reads)) }
{
    match read_arguments(rt.alloc(), arguments) {
        Ok(request) => {
            let JobEnd { end, receipts } = run_job(rt, system, peers, &request, input, out, err);
            let is_quiet = request.is_quiet;
            match end {
                Ok(done) => (print_noted(done, is_quiet, out, err), receipts),
                Err(missed) => (print_failure(missed, is_quiet, out, err), receipts),
            }
        }
        Err(fault) => (
            print_fault(rt.alloc(), arguments, fault, out, err),
            Receipts::none(),
        ),
    }
}

/// Prints what is at fault in the arguments, or the help that they ask for.
fn print_fault<O: Write, E: Write>(
    alloc: Global,
    arguments: &[String],
    fault: ArgumentsFault,
    out: &mut O,
    err: &mut E,
) -> Result<u8, OutputFailure>
    ensures done { IfOk result (IsFaultEnd fault (streams_of (O.contents out.old)
        (O.contents out.new) (E.contents err.old) (E.contents err.new))) }
    ensures cut { OnErr result (IsFaultCut fault (O.contents out.old) (O.contents out.new)) }
{
    match fault {
        ArgumentsFault::NoMemory => refuse(Refusal::NoMemory, out),
        ArgumentsFault::Clap(error) if error.use_stderr() => {
            write!(err, "{error}")?;
            Ok(MISUSED)
        }
        ArgumentsFault::Clap(help) => {
            write_help(alloc, arguments, &help, out)?;
            Ok(DONE)
        }
    }
}

/// Writes a text of help. Where the program's own name, the first argument, has no `/`, or ends as
/// that of an installed one does, the text says `exchange` in the place of `./exchange`, as far as
/// there is memory for that.
fn write_help<O: Write>(
    alloc: Global,
    arguments: &[String],
    help: &clap::Error,
    out: &mut O,
) -> io::Result<()> {
    if let Some(name) = arguments.first()
        && (!name.as_str().contains('/') || name.as_str().ends_with("bin/exchange"))
        && let Ok(text) = installed_help(alloc, help)
    {
        return out.write_all(text.as_str().as_bytes());
    }
    write!(out, "{help}")
}

/// A text of help, with `exchange` in the place of `./exchange`.
fn installed_help(alloc: Global, help: &clap::Error) -> Result<String, AllocError> {
    let text = help.to_string(alloc)?;
    text.as_str().replace(alloc, "./exchange", "exchange")
}

/// Prints an answer, then tells what there is to tell beside it, and gives the answer's status. The
/// error is what couldn't be written: what sessions leave, which is written before, the answer, or
/// both.
fn print_noted<O: Write, E: Write>(
    done: NotedAnswer,
    is_quiet: bool,
    out: &mut O,
    err: &mut E,
) -> Result<u8, OutputFailure>
    ensures printed { IfOk result (λ status. IsPrinted (O.contents out.old) (O.contents out.new)
        done.answer status × (done.lost ≡ no_write_failures)) }
    ensures unwritten { IfErr result
        (IsUnwrittenOf done (O.contents out.old) (O.contents out.new)) }
    ensures told { IsToldUnless is_quiet (option_map (λ line. string_bytes line) done.note)
        (E.contents err.old) (E.contents err.new) }
{
    let NotedAnswer { answer, note, lost } = done;
    let status = match print(&answer, out) {
        Ok(status) => status,
        Err(error) => return Err(OutputFailure::Answer { error, lost }),
    };
    tell_note(&note, is_quiet, err);
    if lost.is_none() {
        return Ok(status);
    }
    Err(OutputFailure::SessionFiles(lost))
}

/// Prints why there is no answer, then tells what there is to tell beside it, and gives the status
/// of a refusal. Where standard output is a file of the job, nothing is printed there.
fn print_failure<O: Write, E: Write>(
    missed: JobFailure,
    is_quiet: bool,
    out: &mut O,
    err: &mut E,
) -> Result<u8, OutputFailure>
    ensures printed { IfOk result (λ status. IsSomeAnd (refusal_of missed)
        (λ why. IsPrinted (O.contents out.old) (O.contents out.new) (unanswered why) status)) }
    ensures cut { OnErr result (MatchOption (refusal_of missed)
        (O.contents out.new ≡ O.contents out.old)
        (λ why. IsToldInPart (O.contents out.old) (O.contents out.new) (unanswered why).text)) }
    ensures told { IsToldUnless is_quiet (note_of missed) (E.contents err.old)
        (E.contents err.new) }
{
    match missed {
        JobFailure::File { note } => {
            let status = refuse(Refusal::File, out)?;
            tell_note(&note, is_quiet, err);
            Ok(status)
        }
        JobFailure::Output { note } => {
            tell_note(&note, is_quiet, err);
            Err(OutputFailure::Nowhere)
        }
        JobFailure::NoMemory => refuse(Refusal::NoMemory, out),
        JobFailure::OutputFailure(unwritten) => Err(unwritten),
    }
}

/// Prints an answer, and gives its status.
fn print<O: Write>(answer: &Answer, out: &mut O) -> io::Result<u8>
    ensures printed { IfOk result
        (IsPrinted (O.contents out.old) (O.contents out.new) answer.now) }
    ensures cut { OnErr result
        (IsToldInPart (O.contents out.old) (O.contents out.new) answer.now.text) }
{
    write_bytes(out, answer.text())?;
    Ok(answer.status())
}

/// Prints why there is no answer, and gives the status of a refusal.
fn refuse<O: Write>(why: Refusal, out: &mut O) -> Result<u8, OutputFailure>
    ensures printed { IfOk result
        (IsPrinted (O.contents out.old) (O.contents out.new) (unanswered why)) }
    ensures cut { OnErr result
        (IsToldInPart (O.contents out.old) (O.contents out.new) (unanswered why).text) }
{
    write_bytes(out, why.line().as_bytes())?;
    Ok(REFUSED)
}

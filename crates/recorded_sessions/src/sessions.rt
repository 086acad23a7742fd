//! The jobs that have sessions.

ghost use Rattle.std.specs.Prelude.{◌≡◌, [], List, ℕ, Option, None, IfErr, IfOk, is_some, length};
ghost use Rattle.std.specs.Prelude.{true};
ghost use Rattle.book_record.specs.Heads.{whole_record};
ghost use Rattle.book_record.specs.Sums.{numbered};
ghost use Rattle.std.specs.Io.KnownBytes.{Appends};
ghost use Rattle.batch_book.specs.History.{BookView};
ghost use Rattle.client_session.specs.Listening.{TellsOfRefusals};
ghost use Rattle.command_words.specs.Jobs.{CanBeServed, recorded_in};
ghost use Rattle.command_words.specs.declared.jobs.Job.TheVariants.{Sessions};
ghost use Rattle.command_words.specs.declared.jobs.SessionJob.TheVariants.{Host};
ghost use Rattle.session_answers.specs.Passes.{no_passes};
ghost use Rattle.session_answers.specs.Serving.{IsServeAnswer};
ghost use Rattle.named_files.specs.Clients.{AreAdmitted, clients_by, ends_of};
ghost use Rattle.named_files.specs.Contents.{contents_in};
ghost use Rattle.recorded_sessions.specs.Live.{AreAdmittedBy, IsHostOver, IsLived};
ghost use Rattle.recorded_sessions.specs.Live.{IsFinishedBookAt, IsOverFrom, IsReady, IsTalkOver};
ghost use Rattle.named_files.specs.Notes.{IsRefused};
ghost use Rattle.named_files.specs.Outputs.{AreNamed, AreOpened, IsFileWritten, IsOpened, is_new};
ghost use Rattle.named_files.specs.Outputs.{no_write_failures, name_of};
ghost use Rattle.recorded_sessions.specs.Keeping.{AreScriptsKept};
ghost use Rattle.recorded_sessions.specs.Answers.{hosting, talking};

use crate::job_result::JobResult;
use crate::live::{
    FinishedSessions, SessionsResult, SessionsStart, finish_live, finish_recorded,
    finish_unrecorded, keep_image, start_live,
};
use batch_book::{Book, History, NullHistory};
use book_record::{StreamName, attach_stream, write_record};
use byte_streams::PassedBytes;
use client_session::Listener;
use command_words::{SharedRack, Text};
use exchange_limits::WorkerCount;
use named_files::{
    ClientFiles, Contents, DistinctFiles, FileStreams, IoFailure, JobFailure, NamedOutput, Outputs,
    ProgramRuntime, Receipts, System, WriteFailure, WriteFailures, close_file, keep_file, slice_of,
};
use plan_answers::Answer;
use refusals::Refusal;
use session_answers::{ClosedSessions, Ending, Hosted, Served, answer_serve, host_on, talk_on};
use std::alloc::Global;
use std::io::{Read, Write};
use std::marker::Brand;
use std::sync::{OnceLock, Wait};
use std::thread::Threads;
use std::time::Clock;

/// Writes the record of the book that scripts leave, where a file is open for it.
fn keep_record<S: System>(
    system: &S,
    alloc: Global,
    book: &Book,
    out: Option<NamedOutput<'_, S::Stream>>,
) -> (Option<S::Receipt>, Option<WriteFailure>)
    requires { IsOpened S.Stream.contents is_new (name_of out) out }
    ensures { IsFileWritten S.received (name_of out.entry)
        (whole_record [] book.now.opening book.now.history) result.0 result.1 }
{
    let Some(out) = out else {
        return (None, None);
    };
    keep_file(system, alloc, write_record(alloc, book), Some(out))
}

/// Writes what scripts leave, where they leave a book, and closes the files for that.
fn keep_scripts<S: System>(
    system: &S,
    alloc: Global,
    left: &Option<Book>,
    outputs: Outputs<'_, S::Stream>,
) -> (Receipts<S::Receipt>, WriteFailures)
    requires { AreOpened S.Stream.contents is_new (name_of outputs.recorded)
        (name_of outputs.image) outputs }
    ensures { AreScriptsKept S.received (name_of outputs.entry.recorded)
        (name_of outputs.entry.image) left.now result.0 result.1 }
{
    let Outputs { recorded, image } = outputs;
    let Some(book) = left else {
        let receipts = Receipts {
            recorded: close_file(system, recorded),
            image: close_file(system, image),
        };
        return (receipts, WriteFailures::none());
    };
    let (recorded, unrecorded) = keep_record(system, alloc, book, recorded);
    let (image, unput) = keep_image(system, alloc, book.rack(), true, image);
    let lost = WriteFailures {
        recorded: unrecorded,
        image: unput,
    };
    (Receipts { recorded, image }, lost)
}

/// What comes of `exchange serve SHAPE SCRIPT..`.
pub fn serve<R: ProgramRuntime, S: System>(
    rt: &R,
    system: &S,
    shared: &SharedRack,
    workers: WorkerCount,
    contents: &Contents,
    outputs: Outputs<'_, S::Stream>,
) -> SessionsResult<S::Receipt>
    requires scripts { CanBeServed (contents_in contents.now).scripts }
    requires opened { AreOpened S.Stream.contents is_new (recorded_in shared.now)
        shared.now.image_out outputs }
    requires named { AreNamed (recorded_in shared.now) shared.now.image_out outputs }
    ensures answer { IfOk result.end (λ found. let files = contents_in contents.now in
        (left : Option BookView)
        × IsServeAnswer shared.now.shape files.image files.scripts found.answer left
        × AreScriptsKept S.received (recorded_in shared.now) shared.now.image_out left
        result.receipts result.lost) }
    ensures missed { IfErr result.end (λ missed. IsRefused missed
        × AreScriptsKept S.received (recorded_in shared.now) shared.now.image_out None
        result.receipts no_write_failures) }
{
    let alloc = rt.alloc();
    let shape = shared.shape.as_str().as_bytes();
    let scripts = contents.scripts.as_slice();
    let served = answer_serve(
        rt,
        alloc,
        shape,
        slice_of(&contents.image),
        workers,
        scripts,
    );
    match served {
        Ok(Served { answer, book }) => {
            let (receipts, lost) = keep_scripts(system, alloc, &book, outputs);
            SessionsResult {
                end: Ok(JobResult::alone(answer)),
                receipts,
                lost,
                cut: None,
            }
        }
        Err(error) => {
            let (receipts, lost) = keep_scripts(system, alloc, &None, outputs);
            SessionsResult {
                end: Err(JobFailure::from(error)),
                receipts,
                lost,
                cut: None,
            }
        }
    }
}

/// The sessions of a host's clients over a book.
fn host_over<K: History + Send, R: Clock + Threads + Wait + Sync, S: ClientFiles>(
    rt: &R,
    alloc: Global,
    book: Book<K>,
    workers: WorkerCount,
    streams: &FileStreams<'_, S>,
    desk: &mut S::Desk,
    endings: &mut Vec<Ending<PassedBytes>>,
) -> (Result<Answer, Refusal>, Book<K>)
    requires clients { CanBeServed streams.now.clients.now }
    requires ready { IsReady book }
    requires no_passes { S.passes desk.old ≡ no_passes }
    ensures over { IsHostOver K.loses book
        (clients_by (S.says streams.now.system.now) (S.had streams.now.system.now)
        streams.now.clients.now) endings.old.items endings.new.items result.0 result.1 }
    ensures admitted { AreAdmittedBy streams.now.clients.now result.0
        (S.passes desk.new).admitted }
{
    match host_on(rt, alloc, book, workers, streams, desk) {
        Ok(hosted) => {
            *endings = hosted.endings;
            let ClosedSessions { answer, book } = hosted.closing;
            (Ok(answer), book)
        }
        Err((refusal, book)) => (Err(refusal), book),
    }
}

/// The same over a book whose record goes on at this stream.
fn host_recorded<N: StreamName + Send, R: Clock + Threads + Wait + Sync, S: System>(
    rt: &R,
    alloc: Global,
    book: Book<NullHistory>,
    entries: u64,
    stream: S::Stream,
    groups_writes: bool,
    workers: WorkerCount,
    streams: &FileStreams<'_, S>,
    desk: &mut S::Desk,
    endings: &mut Vec<Ending<PassedBytes>>,
) -> FinishedSessions<S::Stream>
    requires held { S.Stream.contents stream ≡ N.held }
    requires earlier { book.history ≡ N.earlier }
    requires entries { entries ≡ numbered (length book.history) }
    requires clients { CanBeServed streams.now.clients.now }
    requires ready { IsReady book }
    requires no_passes { S.passes desk.old ≡ no_passes }
    ensures stream { is_some result.stream ≡ true }
    ensures over { (left : BookView) × IsFinishedBookAt S.Stream.contents N.held book left result
        × IsHostOver true book
        (clients_by (S.says streams.now.system.now) (S.had streams.now.system.now)
        streams.now.clients.now) endings.old.items endings.new.items result.end left }
    ensures admitted { AreAdmittedBy streams.now.clients.now result.end
        (S.passes desk.new).admitted }
{
    let book = attach_stream::<S::Stream, N>(alloc, book, entries, stream, groups_writes);
    let (end, book) = host_over(rt, alloc, book, workers, streams, desk, endings);
    finish_recorded(end, book)
}

/// Whether sessions wait for a disk that they share.
fn groups_writes(shared: &SharedRack) -> bool {
    shared.record_out.as_ref().is_some_and(|out| out.syncs)
}

/// The sessions of a host's clients, from their beginning on.
fn host_from<R: Clock + Threads + Wait + Sync, S: System>(
    rt: &R,
    alloc: Global,
    start: SessionsStart<S::Stream>,
    groups_writes: bool,
    workers: WorkerCount,
    streams: &FileStreams<'_, S>,
    desk: &mut S::Desk,
    endings: &mut Vec<Ending<PassedBytes>>,
) -> FinishedSessions<S::Stream>
    requires clients { CanBeServed streams.now.clients.now }
    requires ready { IsReady start.book }
    requires entries { start.entries ≡ numbered (length start.book.history) }
    requires no_passes { S.passes desk.old ≡ no_passes }
    ensures over { (left : BookView) × IsOverFrom S.Stream.contents start left result
        × IsHostOver (is_some start.stream) start.book
        (clients_by (S.says streams.now.system.now) (S.had streams.now.system.now)
        streams.now.clients.now) endings.old.items endings.new.items result.end left }
    ensures admitted { AreAdmittedBy streams.now.clients.now result.end
        (S.passes desk.new).admitted }
{
    let SessionsStart {
        book,
        entries,
        stream,
        cut: _,
    } = start;
    match stream {
        Some(stream) => host_recorded::<Brand, R, S>(
            rt,
            alloc,
            book,
            entries,
            stream,
            groups_writes,
            workers,
            streams,
            desk,
            endings,
        ),
        None => {
            let (end, book) = host_over(rt, alloc, book, workers, streams, desk, endings);
            finish_unrecorded(end, book)
        }
    }
}

/// What comes of `exchange host SHAPE CLIENT..`, with how the sessions of the clients ended, for
/// whose files the desk gives passes. Which of these couldn't be opened is kept.
pub fn host<R: ProgramRuntime, S: System>(
    rt: &R,
    system: &S,
    shared: &SharedRack,
    clients: &[Text],
    apart: &DistinctFiles,
    workers: WorkerCount,
    contents: &Contents,
    unopened: &[OnceLock<IoFailure>],
    outputs: Outputs<'_, S::Stream>,
    desk: &mut S::Desk,
    endings: &mut Vec<Ending<PassedBytes>>,
) -> SessionsResult<S::Receipt>
    requires clients { CanBeServed clients.now }
    requires apart { apart.now ≡ Sessions shared.now (Host clients.now workers) }
    requires no_passes { S.passes desk.old ≡ no_passes }
    requires unserved { endings.old.items ≡ [] }
    requires opened { AreOpened S.Stream.contents (S.holds system.now) (recorded_in shared.now)
        shared.now.image_out outputs }
    requires named { AreNamed (recorded_in shared.now) shared.now.image_out outputs }
    ensures lived { IsLived (S.holds system.now) S.received shared.now clients.now
        (contents_in contents.now).image (hosting shared.now
        (clients_by (S.says system.now) (S.had system.now) clients.now) (ends_of endings.new.items))
        (ends_of endings.new.items ≡ []) result }
    ensures admitted { AreAdmitted clients.now (ends_of endings.new.items)
        (S.passes desk.new).admitted }
{
    let begun = start_live(rt, system, shared, clients, contents, workers, outputs);
    let (start, image) = match begun {
        Ok(begun) => begun,
        Err(kept) => return kept,
    };
    let alloc = rt.alloc();
    let streams = FileStreams {
        system,
        alloc,
        clients,
        apart,
        unopened,
    };
    let cut = start.cut;
    let over = host_from(
        rt,
        alloc,
        start,
        groups_writes(shared),
        workers,
        &streams,
        desk,
        endings,
    );
    finish_live(system, alloc, shared, over, image, cut)
}

/// The session of a client over a book, of whose refusals the listener is told.
fn talk_over<K: History, R: Clock + Threads + Wait + Sync, I: Read, O: Write, H: Listener>(
    rt: &R,
    alloc: Global,
    book: Book<K>,
    input: &mut I,
    out: &mut O,
    listener: &mut H,
) -> (Result<Answer, Refusal>, Book<K>)
    requires ready { IsReady book }
    ensures session { (told : List ℕ)
        × Appends (O.contents out.old) (O.contents out.new) told
        × IsTalkOver K.loses book (I.remaining input.old) (I.remaining input.new) told result.0
        result.1 }
    ensures beside { TellsOfRefusals H.may_tell (H.told listener.old) (H.told listener.new) }
{
    match talk_on(rt, alloc, book, input, out, listener) {
        Ok(ClosedSessions { answer, book }) => (Ok(answer), book),
        Err((_, book)) => (Err(Refusal::NoMemory), book),
    }
}

/// The same over a book whose record goes on at this stream.
fn talk_recorded<
    N: StreamName + Send,
    R: Clock + Threads + Wait + Sync,
    F: Write + Send,
    I: Read,
    O: Write,
    H: Listener,
>(
    rt: &R,
    alloc: Global,
    book: Book<NullHistory>,
    entries: u64,
    stream: F,
    input: &mut I,
    out: &mut O,
    listener: &mut H,
) -> FinishedSessions<F>
    requires held { F.contents stream ≡ N.held }
    requires earlier { book.history ≡ N.earlier }
    requires entries { entries ≡ numbered (length book.history) }
    requires ready { IsReady book }
    ensures stream { is_some result.stream ≡ true }
    ensures session { (told : List ℕ) × (left : BookView)
        × Appends (O.contents out.old) (O.contents out.new) told
        × IsFinishedBookAt F.contents N.held book left result
        × IsTalkOver true book (I.remaining input.old) (I.remaining input.new) told result.end
        left }
    ensures beside { TellsOfRefusals H.may_tell (H.told listener.old) (H.told listener.new) }
{
    let book = attach_stream::<F, N>(alloc, book, entries, stream, false);
    let (end, book) = talk_over(rt, alloc, book, input, out, listener);
    finish_recorded(end, book)
}

/// The session of a client, from its beginning on.
fn talk_from<R: Clock + Threads + Wait + Sync, F: Write + Send, I: Read, O: Write, H: Listener>(
    rt: &R,
    alloc: Global,
    start: SessionsStart<F>,
    input: &mut I,
    out: &mut O,
    listener: &mut H,
) -> FinishedSessions<F>
    requires ready { IsReady start.book }
    requires entries { start.entries ≡ numbered (length start.book.history) }
    ensures session { (told : List ℕ) × (left : BookView)
        × Appends (O.contents out.old) (O.contents out.new) told
        × IsOverFrom F.contents start left result
        × IsTalkOver (is_some start.stream) start.book (I.remaining input.old)
        (I.remaining input.new) told result.end left }
    ensures beside { TellsOfRefusals H.may_tell (H.told listener.old) (H.told listener.new) }
{
    let SessionsStart {
        book,
        entries,
        stream,
        cut: _,
    } = start;
    match stream {
        Some(stream) => talk_recorded::<Brand, R, F, I, O, H>(
            rt, alloc, book, entries, stream, input, out, listener,
        ),
        None => {
            let (end, book) = talk_over(rt, alloc, book, input, out, listener);
            finish_unrecorded(end, book)
        }
    }
}

/// What comes of `exchange talk SHAPE`, after a session over `input` and `out`, of whose refusals
/// the listener is told.
pub fn talk<R: ProgramRuntime, S: System, I: Read, O: Write, H: Listener>(
    rt: &R,
    system: &S,
    shared: &SharedRack,
    contents: &Contents,
    outputs: Outputs<'_, S::Stream>,
    input: &mut I,
    out: &mut O,
    listener: &mut H,
) -> SessionsResult<S::Receipt>
    requires opened { AreOpened S.Stream.contents (S.holds system.now) (recorded_in shared.now)
        shared.now.image_out outputs }
    requires named { AreNamed (recorded_in shared.now) shared.now.image_out outputs }
    ensures session { (told : List ℕ)
        × Appends (O.contents out.old) (O.contents out.new) told
        × IsLived (S.holds system.now) S.received shared.now [] (contents_in contents.now).image
        (talking shared.now (I.remaining input.old) (I.remaining input.new) told) (told ≡ [])
        result }
    ensures beside { TellsOfRefusals H.may_tell (H.told listener.old) (H.told listener.new) }
{
    let one = WorkerCount::ONE;
    let begun = start_live(rt, system, shared, &[], contents, one, outputs);
    let (start, image) = match begun {
        Ok(begun) => begun,
        Err(kept) => return kept,
    };
    let alloc = rt.alloc();
    let cut = start.cut;
    let over = talk_from(rt, alloc, start, input, out, listener);
    finish_live(system, alloc, shared, over, image, cut)
}

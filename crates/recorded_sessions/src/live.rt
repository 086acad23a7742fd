//! Live sessions over a book whose entries go to a record, if they go anywhere.

ghost use Rattle.std.specs.Prelude.{◌≡◌, ◌⊎◌, ◌++◌, ◌≤◌, ℕ, List, None, Some, IfOk, IfErr, IfSome};
ghost use Rattle.std.specs.Prelude.{MatchOption, OnErr, OnOk, Option, false, is_some, length, take};
ghost use Rattle.std.specs.Prelude.{true};
ghost use Rattle.batch.specs.Text.{IsNumber};
ghost use Rattle.batch_book.specs.History.{BookView};
ghost use Rattle.clap.specs.Words.{Text};
ghost use Rattle.command_words.specs.Jobs.{recorded_in};
ghost use Rattle.module_memory.specs.Images.{image_of};
ghost use Rattle.module_memory.specs.Store.{Store};
ghost use Rattle.plan_answers.specs.Refusals.{Refuses};
ghost use Rattle.rack_answers.specs.Openings.{IsRackOf};
ghost use Rattle.book_record.specs.Fronts.{last_lines};
ghost use Rattle.book_record.specs.Heads.{session_limit};
ghost use Rattle.book_record.specs.Streams.{IsWritten as IsStreamed};
ghost use Rattle.book_record.specs.Sums.{numbered};
ghost use Rattle.named_files.specs.Contents.{contents_in};
ghost use Rattle.recorded_sessions.specs.Live.{HasFront, IsFinishedBook, IsReady, IsStarted};
ghost use Rattle.recorded_sessions.specs.Live.{IsUnserved, IsStartFailure, left_by};
ghost use Rattle.named_files.specs.Notes.{IsRefused};
ghost use Rattle.recorded_sessions.specs.Outcomes.{IsToldBy, IsToldOf, IsStartError};
ghost use Rattle.recorded_sessions.specs.Keeping.{AreLiveKept, AreWritten, HasGrown};
ghost use Rattle.named_files.specs.Outputs.{AreNamed, AreOpened, IsFileWritten, IsLeftOfAny};
ghost use Rattle.named_files.specs.Outputs.{IsOpened, IsUnput, is_new, name_of};
ghost use Rattle.recorded_sessions.specs.Records.{BeginsAs, BeginsWith, IsBookOn, IsCutFrom};
ghost use Rattle.recorded_sessions.specs.Records.{IsRecordStart, IsSoFar, head_for, record_front};
ghost use Rattle.named_files.specs.Streams.{IsWrittenBy, closed, written_at, written_by};
ghost use Rattle.named_files.specs.Streams.{written_to};

use crate::job_result::{CutEntry, JobResult};
use crate::recording::{RecordStart, StartError, begin, new_book};
use batch_book::{BareBook, Book, EntryLog, NullHistory};
use book_record::{StreamHistory, StreamName, detach_stream, last_lines};
use byte_streams::write_bytes;
use command_words::{SharedRack, Text};
use exchange_limits::WorkerCount;
use module_memory::Rack;
use named_files::{
    Contents, JobFailure, NamedOutput, Outputs, Receipts, System, WriteFailure, WriteFailures,
    close_file, close_stream, keep_file, leave_file, put_written, read_failure, slice_of,
};
use plan_answers::Answer;
use rack_answers::read_rack;
use record_replay::refusal_of;
use refusals::Refusal;
use std::alloc::Global;
use std::io;
use std::io::{ErrorKind, Write};
use std::thread::Threads;

/// What comes of sessions, and what is left of what was opened for them to be written.
pub struct SessionsResult<C> {
    pub end: Result<JobResult, JobFailure>,
    pub receipts: Receipts<C>,
    pub lost: WriteFailures,
    /// What was cut off from the record with which sessions went on.
    pub cut: Option<CutEntry>,
}

/// What sessions begin with.
pub(crate) struct SessionsStart<F> {
    pub(crate) book: Book<NullHistory>,
    /// How many entries the book has.
    pub(crate) entries: u64,
    /// The stream of their record, which has what the book has.
    pub(crate) stream: Option<F>,
    /// What was cut off there.
    pub(crate) cut: Option<CutEntry>,
}

/// Why they don't start.
pub(crate) struct StartFailure<C> {
    pub(crate) why: StartError,
    /// What the file of their record held.
    pub(crate) held: Vec<u8>,
    /// What is left of that.
    pub(crate) receipt: Option<C>,
}

/// What sessions leave.
pub(crate) struct FinishedSessions<F> {
    pub(crate) end: Result<Answer, Refusal>,
    pub(crate) bare: BareBook,
    /// How many entries the book has, where there is a stream.
    pub(crate) entries: u64,
    pub(crate) stream: Option<F>,
    /// Whether each entry is durable.
    pub(crate) is_whole: bool,
}

/// Makes a record's file hold what sessions begin with: so many bytes that it has, and these.
fn write_front<S: System>(
    system: &S,
    file: &mut S::Stream,
    held: &[u8],
    kept: usize,
    head: &[u8],
) -> io::Result<()>
    requires held { (name : List ℕ)
        × (written_to name (S.Stream.contents file.old) ≡ Some held.now) }
    requires kept { kept ≤ length held.now }
    ensures written { OnOk result ((name : List ℕ)
        → written_to name (S.Stream.contents file.old) ≡ Some held.now
        → written_to name (S.Stream.contents file.new) ≡ Some (take kept held.now ++ head.now)) }
    ensures cut { OnErr result ((name : List ℕ)
        → written_to name (S.Stream.contents file.old) ≡ Some held.now
        → (text : List ℕ) × (written_to name (S.Stream.contents file.new) ≡ Some text)
        × ((text ≡ held.now) ⊎ ((front rest : List ℕ) × (head.now ≡ front ++ rest)
        × (text ≡ take kept held.now ++ front)))) }
{
    system.cut(file, held, kept)?;
    write_bytes(file, head)
}

/// Sessions don't begin, since this is left of their record's file.
fn not_started<S: System>(
    system: &S,
    why: StartError,
    held: Vec<u8>,
    file: S::Stream,
) -> StartFailure<S::Receipt>
    ensures why { result.why ≡ why }
    ensures receipt { IsLeftOfAny S.Stream.contents S.received (Some file) result.receipt }
{
    StartFailure {
        why,
        held,
        receipt: Some(system.close(file)),
    }
}

/// Makes this file begin as sessions do on this rack.
fn start_in<R: Threads + Sync, S: System>(
    rt: &R,
    system: &S,
    alloc: Global,
    rack: Rack,
    resumes: bool,
    names: &[Text],
    workers: WorkerCount,
    out: NamedOutput<'_, S::Stream>,
) -> Result<SessionsStart<S::Stream>, StartFailure<S::Receipt>>
    requires number { IsNumber (length names.now) }
    requires contents { written_to out.name.now (S.Stream.contents out.file) ≡ Some out.held.items }
    ensures started { IfOk result (λ start.
        BeginsAs resumes out.entry.held.items rack names.now start.book.history
        × IsBookOn rack start.book × IsReady start.book × (is_some start.stream ≡ true)
        × HasFront (written_at S.Stream.contents (Some out.entry.name.now)) names.now start.book
        start.stream) }
    ensures cut { IfOk result (λ start. IsCutFrom (length start.book.history)
        out.entry.held.items (record_front names.now start.book) start.cut) }
    ensures entries { IfOk result (λ start.
        start.entries ≡ numbered (length start.book.history)) }
    ensures unstarted { IfErr result (λ end.
        IsStartError resumes (session_limit (length names.now)) out.entry.held.items
        (head_for rack names.now) rack end.why
        × IfSome end.receipt (λ receipt. (text : List ℕ)
        × (S.received receipt ≡ closed out.entry.name.now (Some text) false)
        × ((text ≡ out.entry.held.items)
        ⊎ IsRecordStart resumes out.entry.held.items names.now text))) }
{
    let NamedOutput {
        name,
        mut file,
        held,
    } = out;
    let begun = begin(
        rt,
        alloc,
        rack,
        name,
        resumes,
        names,
        held.as_slice(),
        workers,
    );
    let RecordStart {
        book,
        entries,
        kept,
        head,
        cut,
    } = match begun {
        Ok(begun) => begun,
        Err(why) => return Err(not_started(system, why, held, file)),
    };
    match write_front(system, &mut file, held.as_slice(), kept, head.as_slice()) {
        Ok(()) => Ok(SessionsStart {
            book,
            entries,
            stream: Some(file),
            cut,
        }),
        Err(error) => {
            let why = StartError::Missed(read_failure(alloc, name, &error));
            Err(not_started(system, why, held, file))
        }
    }
}

/// Whether sessions go on with a record.
fn resumes(shared: &SharedRack) -> bool
    ensures { IfSome shared.now.record_out (λ out. result ≡ out.resumes) }
{
    match &shared.record_out {
        Some(record) => record.resumes,
        None => false,
    }
}

/// What sessions on this rack begin with.
fn start_on<R: Threads + Sync, S: System>(
    rt: &R,
    system: &S,
    alloc: Global,
    rack: Rack,
    shared: &SharedRack,
    names: &[Text],
    workers: WorkerCount,
    out: Option<NamedOutput<'_, S::Stream>>,
) -> Result<SessionsStart<S::Stream>, StartFailure<S::Receipt>>
    requires number { IsNumber (length names.now) }
    requires opened { IsOpened S.Stream.contents (S.holds system.now) (recorded_in shared.now) out }
    requires named { name_of out ≡ recorded_in shared.now }
    ensures started { IfOk result (IsStarted (S.holds system.now)
        (written_at S.Stream.contents (recorded_in shared.now)) shared.now.record_out rack
        names.now) }
    ensures unstarted { IfErr result (IsStartFailure (S.holds system.now) S.received
        shared.now.record_out rack names.now) }
{
    match out {
        Some(out) => start_in(
            rt,
            system,
            alloc,
            rack,
            resumes(shared),
            names,
            workers,
            out,
        ),
        None => match new_book(alloc, rack) {
            Ok(book) => Ok(SessionsStart {
                book,
                entries: 0,
                stream: None,
                cut: None,
            }),
            Err(error) => Err(StartFailure {
                why: StartError::from(error),
                held: Vec::new(alloc),
                receipt: None,
            }),
        },
    }
}

/// The refusal of what is wrong, where it isn't want of memory.
fn refused(alloc: Global, refusal: Refusal) -> Result<JobResult, JobFailure>
    ensures answer { IfOk result (λ found. Refuses refusal found.answer) }
    ensures missed { IfErr result IsRefused }
{
    Ok(JobResult::alone(Answer::refused(alloc, refusal)?))
}

/// What is told where sessions don't begin.
fn start_failure(alloc: Global, why: StartError, held: Vec<u8>) -> Result<JobResult, JobFailure>
    ensures { IsToldOf why result }
{
    match why {
        StartError::Missed(missed) => Err(missed),
        StartError::Wrong(error) => {
            let found = refused(alloc, refusal_of(error.fault))?;
            Ok(JobResult {
                error: Some(error),
                held: Some(held),
                ..found
            })
        }
    }
}

/// What sessions on a rack begin with, by clients of these names, and the file for the image that
/// they leave; or what comes of them where they don't begin.
pub(crate) fn start_live<'a, R: AllocGlobal + Threads + Sync, S: System>(
    rt: &R,
    system: &S,
    shared: &SharedRack,
    names: &[Text],
    contents: &Contents,
    workers: WorkerCount,
    outputs: Outputs<'a, S::Stream>,
) -> Result<
    (SessionsStart<S::Stream>, Option<NamedOutput<'a, S::Stream>>),
    SessionsResult<S::Receipt>,
>
    requires number { IsNumber (length names.now) }
    requires opened { AreOpened S.Stream.contents (S.holds system.now) (recorded_in shared.now)
        shared.now.image_out outputs }
    requires named { AreNamed (recorded_in shared.now) shared.now.image_out outputs }
    ensures started { IfOk result (λ begun. (opening : Store)
        × IsRackOf shared.now.shape (contents_in contents.now).image opening
        × IsStarted (S.holds system.now) (written_at S.Stream.contents (recorded_in shared.now))
        shared.now.record_out opening names.now begun.0) }
    ensures image { IfOk result (λ begun. begun.1 ≡ outputs.entry.image) }
    ensures unserved { IfErr result (IsUnserved (S.holds system.now) S.received shared.now names.now
        (contents_in contents.now).image) }
{
    let Outputs { recorded, image } = outputs;
    let alloc = rt.alloc();
    let words = slice_of(&contents.image);
    let rack = match read_rack(alloc, shared.shape.as_str().as_bytes(), words) {
        Ok(rack) => rack,
        Err(refusal) => {
            return Err(SessionsResult {
                end: refused(alloc, refusal),
                receipts: Receipts {
                    recorded: close_file(system, recorded),
                    image: close_file(system, image),
                },
                lost: WriteFailures::none(),
                cut: None,
            });
        }
    };
    match start_on(rt, system, alloc, rack, shared, names, workers, recorded) {
        Ok(start) => Ok((start, image)),
        Err(StartFailure { why, held, receipt }) => Err(SessionsResult {
            end: start_failure(alloc, why, held),
            receipts: Receipts {
                recorded: receipt,
                image: close_file(system, image),
            },
            lost: WriteFailures::none(),
            cut: None,
        }),
    }
}

/// What sessions leave that have no record.
pub(crate) fn finish_unrecorded<F>(
    end: Result<Answer, Refusal>,
    book: Book<NullHistory>,
) -> FinishedSessions<F>
    ensures end { result.end ≡ end }
    ensures machine { result.bare.machine ≡ book.machine }
    ensures whole { result.is_whole ≡ book.whole }
    ensures stream { result.stream ≡ None }
{
    let is_whole = book.log().is_whole();
    let (bare, _) = book.part();
    FinishedSessions {
        end,
        bare,
        entries: 0,
        stream: None,
        is_whole,
    }
}

/// What sessions leave whose record is a stream.
pub(crate) fn finish_recorded<F: Write + Send, N: StreamName + Send>(
    end: Result<Answer, Refusal>,
    book: Book<StreamHistory<F, N>>,
) -> FinishedSessions<F>
    ensures end { result.end ≡ end }
    ensures machine { result.bare.machine ≡ book.machine }
    ensures whole { result.is_whole ≡ book.whole }
    ensures stream { is_some result.stream ≡ true }
    ensures text { IfSome result.stream (λ file.
        IsStreamed N.held (F.contents file) N.earlier book.durable book.history book.whole) }
    ensures entries { result.entries ≡ numbered (length book.history) }
{
    let is_whole = book.log().is_whole();
    let (bare, stream, entries) = detach_stream(book);
    FinishedSessions {
        end,
        bare,
        entries,
        stream: Some(stream),
        is_whole,
    }
}

/// Writes the last lines of a record of so many entries whose sessions have ended, if each entry
/// stands there.
fn write_end<S: System>(
    system: &S,
    file: &mut S::Stream,
    entries: u64,
    is_whole: bool,
) -> io::Result<()>
    ensures end { (n : ℕ) → (name : Option Text) → (text : List ℕ) → entries ≡ numbered n
        → IsSoFar is_whole text (written_by name (S.Stream.contents file.old))
        → IsWrittenBy result (text ++ last_lines n)
        (written_by name (S.Stream.contents file.new)) }
    ensures grown { HasGrown (S.Stream.contents file.old) (S.Stream.contents file.new) }
{
    if is_whole {
        return write_bytes(file, last_lines(entries).as_bytes());
    }
    match system.failure(file) {
        Some(error) => Err(error),
        None => Err(io::Error::from(ErrorKind::OutOfMemory)),
    }
}

/// Ends the record of sessions, of so many entries, where they have one.
fn end_record<S: System>(
    system: &S,
    alloc: Global,
    shared: &SharedRack,
    stream: Option<S::Stream>,
    entries: u64,
    is_whole: bool,
) -> (Option<S::Receipt>, Option<WriteFailure>)
    requires { is_some stream ≡ is_some shared.now.record_out }
    ensures { (n : ℕ) → (text : List ℕ) → IfSome stream (λ file.
        IsSoFar is_whole text (written_at S.Stream.contents (recorded_in shared.now) file)
        × (entries ≡ numbered n))
        → IsFileWritten S.received (recorded_in shared.now) (text ++ last_lines n) result.0
        result.1
        × MatchOption stream (result.0 ≡ None) (λ file. IfSome result.0
        (λ receipt. HasGrown (written_at S.Stream.contents (recorded_in shared.now) file)
        (S.received receipt).bytes)) }
{
    let Some(mut file) = stream else {
        return (None, None);
    };
    let end = write_end(system, &mut file, entries, is_whole);
    let (receipt, end) = put_written(system, file, end);
    (
        Some(receipt),
        WriteFailure::why(alloc, shared.record_name(), &end),
    )
}

/// Keeps the image of the rack that sessions leave. Where their record isn't kept it is put
/// nowhere: it could have more than the record tells.
pub(crate) fn keep_image<S: System>(
    system: &S,
    alloc: Global,
    rack: &Rack,
    is_kept: bool,
    image: Option<NamedOutput<'_, S::Stream>>,
) -> (Option<S::Receipt>, Option<WriteFailure>)
    requires { IsOpened S.Stream.contents is_new (name_of image) image }
    ensures written { IsFileWritten S.received (name_of image.entry) (image_of rack.now) result.0
        result.1 }
    ensures unput { is_kept ≡ false → IsUnput S.received result.0 }
{
    let Some(out) = image else {
        return (None, None);
    };
    if is_kept {
        keep_file(system, alloc, rack.image(), Some(out))
    } else {
        leave_file(system, alloc, Some(out))
    }
}

/// Ends what sessions leave that have ended: the record, and then the image, if that is whole.
fn keep_live<S: System>(
    system: &S,
    alloc: Global,
    shared: &SharedRack,
    bare: &BareBook,
    stream: Option<S::Stream>,
    entries: u64,
    is_whole: bool,
    image: Option<NamedOutput<'_, S::Stream>>,
) -> (Receipts<S::Receipt>, WriteFailures)
    requires stream { is_some stream ≡ is_some shared.now.record_out }
    requires opened { IsOpened S.Stream.contents is_new (name_of image) image }
    requires named { name_of image ≡ shared.now.image_out }
    ensures written { (names : List Text) → (left : BookView) → bare.now.machine ≡ left.machine
        → IfSome stream (λ file. IsSoFar is_whole (record_front names left)
        (written_at S.Stream.contents (recorded_in shared.now) file)
        × (entries ≡ numbered (length left.history)))
        → AreWritten S.received (recorded_in shared.now) shared.now.image_out names left result.0
        result.1
        × MatchOption stream (result.0.recorded ≡ None) (λ file. IfSome result.0.recorded
        (λ receipt. HasGrown (written_at S.Stream.contents (recorded_in shared.now) file)
        (S.received receipt).bytes)) }
    ensures broken { is_whole ≡ false → IsUnput S.received result.0.image }
    ensures lost { is_some result.1.recorded ≡ true → IsUnput S.received result.0.image }
{
    let (recorded, unrecorded) = end_record(system, alloc, shared, stream, entries, is_whole);
    let is_kept = is_whole && unrecorded.is_none();
    let (image, unput) = keep_image(system, alloc, bare.rack(), is_kept, image);
    let lost = WriteFailures {
        recorded: unrecorded,
        image: unput,
    };
    (Receipts { recorded, image }, lost)
}

/// Ends what sessions leave, or leaves files as they are where none began. This was cut off from
/// the record with which they went on.
pub(crate) fn finish_live<S: System>(
    system: &S,
    alloc: Global,
    shared: &SharedRack,
    over: FinishedSessions<S::Stream>,
    image: Option<NamedOutput<'_, S::Stream>>,
    cut: Option<CutEntry>,
) -> SessionsResult<S::Receipt>
    requires stream { is_some over.stream ≡ is_some shared.now.record_out }
    requires opened { IsOpened S.Stream.contents is_new (name_of image) image }
    requires named { name_of image ≡ shared.now.image_out }
    ensures told { IsToldBy over.end result.end }
    ensures cut { result.cut ≡ cut }
    ensures kept { (opening : Store) → (names : List Text) → (was : BookView) → (left : BookView)
        → BeginsWith (S.holds system.now) shared.now.record_out opening names was
        → IsFinishedBook (written_at S.Stream.contents (recorded_in shared.now)) names was left over
        → OnErr over.end (left.history ≡ was.history)
        → AreLiveKept (S.holds system.now) S.received shared.now names (left_by over.end left)
        result.receipts result.lost }
{
    let FinishedSessions {
        end,
        bare,
        entries,
        stream,
        is_whole,
    } = over;
    match end {
        Ok(answer) => {
            let (receipts, lost) = keep_live(
                system, alloc, shared, &bare, stream, entries, is_whole, image,
            );
            SessionsResult {
                end: Ok(JobResult::alone(answer)),
                receipts,
                lost,
                cut,
            }
        }
        Err(refusal) => SessionsResult {
            end: refused(alloc, refusal),
            receipts: Receipts {
                recorded: close_stream(system, stream),
                image: close_file(system, image),
            },
            lost: WriteFailures::none(),
            cut,
        },
    }
}

//! The files to which go the record of sessions and the image that they leave.

ghost use Rattle.std.specs.Prelude.{◌≡◌, ℕ, List, [], Some, IfErr, IfOk, None, OnErr, OnOk, false};
ghost use Rattle.std.specs.Prelude.{is_ok};
ghost use Rattle.command_words.specs.Jobs.{file_uses as the_uses, recorded_in};
ghost use Rattle.named_files.specs.DistinctFiles.{AreSeenApart, IsWrittenOf, MayBeWritten};
ghost use Rattle.named_files.specs.Notes.{IsRefused};
ghost use Rattle.named_files.specs.Outputs.{AreNamed, AreOpened, IsFileWritten, IsLeftOfAny};
ghost use Rattle.named_files.specs.Outputs.{IsOpened, IsUnput, begins_with, is_live as live};
ghost use Rattle.named_files.specs.Outputs.{is_new, name_of, none_open, none_opened, output_of};
ghost use Rattle.named_files.specs.Outputs.{record_of, stream_of};
ghost use Rattle.named_files.specs.Streams.{IsLeftOf, IsWrittenBy, written_to};

use crate::distinct_files::{DistinctFiles, check_distinct};
use crate::notes::{JobFailure, read_failure};
use crate::system::System;
use crate::write_failures::WriteFailure;
use byte_streams::write_bytes;
use command_words::{Job, SharedRack, Text};
use std::alloc::{AllocError, Global};
use std::io;
use std::io::Write;

/// A file that is open to be written.
pub struct NamedOutput<'a, F> {
    /// Its name, or that of the place where it goes.
    pub name: &'a Text,
    pub file: F,
    /// What it held as it was opened.
    pub held: Vec<u8>,
}

/// The files to which go what sessions leave, where they are named.
pub struct Outputs<'a, F> {
    /// That of the record.
    pub recorded: Option<NamedOutput<'a, F>>,
    /// That of the image.
    pub image: Option<NamedOutput<'a, F>>,
}

impl<'a, F> Outputs<'a, F> {
    /// None is open.
    fn none() -> Outputs<'a, F>
        ensures { result ≡ none_open }
    {
        Outputs {
            recorded: None,
            image: None,
        }
    }
}

/// What is left of those that were opened, once they are closed.
#[derive(Drop)]
pub struct Receipts<C> {
    /// What is left of that of the record.
    pub recorded: Option<C>,
    /// What is left of that of the image.
    pub image: Option<C>,
}

impl<C> Receipts<C> {
    /// None was opened.
    pub fn none() -> Receipts<C>
        ensures { result ≡ none_opened }
    {
        Receipts {
            recorded: None,
            image: None,
        }
    }
}

/// Opens a new file for this name.
fn open_new<'a, S: System>(
    system: &S,
    alloc: Global,
    apart: &DistinctFiles,
    name: &'a Text,
) -> Result<NamedOutput<'a, S::Stream>, JobFailure>
    requires { IsWrittenOf apart.now name.now }
    ensures opened { IfOk result (λ out.
        IsOpened S.Stream.contents is_new (Some name.entry.now) (Some out)) }
    ensures note { IfErr result (λ missed. IsRefused missed) }
{
    match system.open_new(apart, name.as_str()) {
        Ok(file) => Ok(NamedOutput {
            name,
            file,
            held: Vec::new(alloc),
        }),
        Err(error) => Err(read_failure(alloc, name, &error)),
    }
}

/// Opens the file of this name to go on with it.
fn open_held<'a, S: System>(
    system: &S,
    alloc: Global,
    apart: &DistinctFiles,
    name: &'a Text,
    syncs: bool,
) -> Result<NamedOutput<'a, S::Stream>, JobFailure>
    requires { IsWrittenOf apart.now name.now }
    ensures opened { IfOk result (λ out.
        IsOpened S.Stream.contents (S.holds system.now) (Some name.entry.now) (Some out)) }
    ensures note { IfErr result (λ missed. IsRefused missed) }
{
    match system.open_record(apart, name.as_str(), syncs) {
        Ok((file, held)) => Ok(NamedOutput { name, file, held }),
        Err(error) => Err(read_failure(alloc, name, &error)),
    }
}

/// Opens the file for a record, where one is named: that of live sessions to go on with it.
fn open_record<'a, S: System>(
    system: &S,
    alloc: Global,
    apart: &DistinctFiles,
    rack: &'a SharedRack,
    is_live: bool,
) -> Result<Option<NamedOutput<'a, S::Stream>>, JobFailure>
    requires { MayBeWritten apart.now (recorded_in rack.now) }
    ensures named { IfOk result (λ out. name_of out ≡ recorded_in rack.entry.now) }
    ensures opened { IfOk result (IsOpened S.Stream.contents
        (begins_with (S.holds system.now) is_live) (recorded_in rack.entry.now)) }
    ensures note { IfErr result (λ missed. IsRefused missed) }
{
    let Some(record) = &rack.record_out else {
        return Ok(None);
    };
    if is_live {
        Ok(Some(open_held(system, alloc, apart, &record.name, record.syncs)?))
    } else {
        Ok(Some(open_new(system, alloc, apart, &record.name)?))
    }
}

/// Opens a new file for an image, where its file is named.
fn open_image<'a, S: System>(
    system: &S,
    alloc: Global,
    apart: &DistinctFiles,
    name: &'a Option<Text>,
) -> Result<Option<NamedOutput<'a, S::Stream>>, JobFailure>
    requires { MayBeWritten apart.now name.now }
    ensures named { IfOk result (λ out. name_of out ≡ name.entry.now) }
    ensures opened { IfOk result (IsOpened S.Stream.contents is_new name.entry.now) }
    ensures note { IfErr result (λ missed. IsRefused missed) }
{
    match name {
        Some(name) => Ok(Some(open_new(system, alloc, apart, name)?)),
        None => Ok(None),
    }
}

/// Opens the files for the record and for the image, where they are named. Where one can't be
/// opened, the image's isn't.
fn open_both<'a, S: System>(
    system: &S,
    alloc: Global,
    apart: &DistinctFiles,
    rack: &'a SharedRack,
    is_live: bool,
) -> (Outputs<'a, S::Stream>, Result<(), JobFailure>)
    requires recorded { MayBeWritten apart.now (recorded_in rack.now) }
    requires image { MayBeWritten apart.now rack.now.image_out }
    ensures opened { AreOpened S.Stream.contents (begins_with (S.holds system.now) is_live)
        (recorded_in rack.entry.now) rack.entry.now.image_out result.0 }
    ensures named { OnOk result.1
        (AreNamed (recorded_in rack.entry.now) rack.entry.now.image_out result.0) }
    ensures note { IfErr result.1 (λ missed. IsRefused missed) }
{
    let recorded = match open_record(system, alloc, apart, rack, is_live) {
        Ok(recorded) => recorded,
        Err(missed) => return (Outputs::none(), Err(missed)),
    };
    match open_image(system, alloc, apart, &rack.image_out) {
        Ok(image) => (Outputs { recorded, image }, Ok(())),
        Err(missed) => {
            let image = None;
            (Outputs { recorded, image }, Err(missed))
        }
    }
}

/// Opens the files for the record and for the image that a job's sessions leave, where they are
/// named.
fn open_outputs<'a, S: System>(
    system: &S,
    alloc: Global,
    apart: &DistinctFiles,
    job: &'a Job,
) -> (Outputs<'a, S::Stream>, Result<(), JobFailure>)
    requires { apart.now ≡ job.now }
    ensures opened { AreOpened S.Stream.contents
        (begins_with (S.holds system.now) (live job.entry.now)) (record_of job.entry.now)
        (output_of job.entry.now) result.0 }
    ensures named { OnOk result.1
        (AreNamed (record_of job.entry.now) (output_of job.entry.now) result.0) }
    ensures note { IfErr result.1 (λ missed. IsRefused missed) }
{
    match job {
        Job::Sessions { rack, job } => open_both(system, alloc, apart, rack, job.serves_live()),
        Job::Texts(_) | Job::Ports(_) => (Outputs::none(), Ok(())),
    }
}

/// The same, where the files that the job writes are others than those that it reads, and than each
/// other; else none is opened. It gives what shows that.
pub fn open_distinct<'a, S: System>(
    system: &S,
    alloc: Global,
    job: &'a Job,
) -> (Outputs<'a, S::Stream>, Result<DistinctFiles, JobFailure>)
    ensures opened { AreOpened S.Stream.contents
        (begins_with (S.holds system.now) (live job.entry.now)) (record_of job.entry.now)
        (output_of job.entry.now) result.0 }
    ensures named { OnOk result.1
        (AreNamed (record_of job.entry.now) (output_of job.entry.now) result.0) }
    ensures job { IfOk result.1 (λ apart. apart ≡ job.entry.now) }
    ensures apart { OnOk result.1 (AreSeenApart (S.leads system.now) (the_uses job.entry.now)) }
    ensures note { IfErr result.1 (λ missed. IsRefused missed) }
{
    match check_distinct(system, alloc, job) {
        Ok(apart) => {
            let (outputs, end) = open_outputs(system, alloc, &apart, job);
            (outputs, end.map(|()| apart))
        }
        Err(missed) => (Outputs::none(), Err(missed)),
    }
}

/// Closes a stream, where there is one.
pub fn close_stream<S: System>(system: &S, stream: Option<S::Stream>) -> Option<S::Receipt>
    ensures { IsLeftOfAny S.Stream.contents S.received stream result }
{
    match stream {
        Some(file) => Some(system.close(file)),
        None => None,
    }
}

/// Closes a file, where one is open.
pub fn close_file<S: System>(
    system: &S,
    out: Option<NamedOutput<'_, S::Stream>>,
) -> Option<S::Receipt>
    ensures { IsLeftOfAny S.Stream.contents S.received (stream_of out.entry) result }
{
    match out {
        Some(
            NamedOutput {
                name: _,
                file,
                held: _,
            },
        ) => Some(system.close(file)),
        None => None,
    }
}

/// Closes a file, and puts it in its place where all was written; or says why not all stands there.
pub fn put_written<S: System>(
    system: &S,
    file: S::Stream,
    end: io::Result<()>,
) -> (S::Receipt, io::Result<()>)
    ensures received { IsLeftOf (S.Stream.contents file) (is_ok result.1) (S.received result.0) }
    ensures cut { OnErr end (is_ok result.1 ≡ false) }
{
    match end {
        Ok(()) => system.put(file),
        Err(error) => (system.close(file), Err(error)),
    }
}

/// Writes these bytes to a file that is empty. Where they couldn't be had, nothing is written.
fn write_new<W: Write>(file: &mut W, bytes: Result<Vec<u8>, AllocError>) -> io::Result<()>
    ensures { (name : List ℕ) → (wanted : List ℕ) → written_to name (W.contents file.old) ≡ Some []
        → IfOk bytes (λ bytes. bytes.items ≡ wanted)
        → IsWrittenBy result wanted (written_to name (W.contents file.new)) }
{
    let bytes = bytes?;
    write_bytes(file, bytes.as_slice())
}

/// Writes these bytes to a new file, where one is open, and puts it in its place. Where the bytes
/// couldn't be had, nothing is written.
pub fn keep_file<S: System>(
    system: &S,
    alloc: Global,
    bytes: Result<Vec<u8>, AllocError>,
    out: Option<NamedOutput<'_, S::Stream>>,
) -> (Option<S::Receipt>, Option<WriteFailure>)
    requires { IsOpened S.Stream.contents is_new (name_of out) out }
    ensures { (wanted : List ℕ) → IfOk bytes (λ bytes. bytes.items ≡ wanted)
        → IsFileWritten S.received (name_of out.entry) wanted result.0 result.1 }
{
    let Some(NamedOutput { name, file, held }) = out else {
        return (None, None);
    };
    drop(held);
    let mut file = file;
    let end = write_new(&mut file, bytes);
    let (receipt, end) = put_written(system, file, end);
    (Some(receipt), WriteFailure::why(alloc, Some(name), &end))
}

/// Leaves a new file for an image unwritten, where one is open, since the record isn't kept.
pub fn leave_file<S: System>(
    system: &S,
    alloc: Global,
    out: Option<NamedOutput<'_, S::Stream>>,
) -> (Option<S::Receipt>, Option<WriteFailure>)
    requires { IsOpened S.Stream.contents is_new (name_of out) out }
    ensures written { (wanted : List ℕ)
        → IsFileWritten S.received (name_of out.entry) wanted result.0 result.1 }
    ensures unput { IsUnput S.received result.0 }
{
    let Some(NamedOutput { name, file, held }) = out else {
        return (None, None);
    };
    drop(held);
    let why = io::Error::other("not written, since the record isn't kept");
    let lost = WriteFailure::of(alloc, name, &why);
    (Some(system.close(file)), Some(lost))
}

//! Which files the names of a job lead to: none that it writes is one that it reads, or writes too.

ghost use Rattle.std.specs.Prelude.{◌≡◌, ◌↔◌, All, IfErr, IfNone, IfOk, IfSome, IsTrue, OnOk};
ghost use Rattle.std.specs.Prelude.{codes, false, string_bytes};
ghost use Rattle.command_words.specs.Jobs.{file_uses as the_uses};
ghost use Rattle.command_words.specs.declared.uses.Access.TheVariants.{Port};
ghost use Rattle.named_files.specs.declared.file_id.FileKind.TheVariants.{Null, Plain};
ghost use Rattle.named_files.specs.DistinctFiles.{HaveNoClash, AreSeenApart, Clash};
ghost use Rattle.named_files.specs.DistinctFiles.{IsForbiddenStream, IsBarredSeen, IsClashSeen};
ghost use Rattle.named_files.specs.DistinctFiles.{IsNoneOf, IsOther, IsSeen};
ghost use Rattle.named_files.specs.Notes.{IsWholeLine, IsRefused};

use crate::file_id::{FileId, FileKind, PathLookup, are_one_file};
use crate::notes::JobFailure;
use command_words::{Access, FileUse, Job, RoleClash, file_uses};
use refusal_notes::{NamedText, file_line};
use std::alloc::{AllocError, Global};
use std::marker::Model;
use std::snapshot::Snapshot;

/// Shows that the files of a job are apart, as far as that can be told: it is made of that look
/// alone. Contracts see the job.
#[derive(Drop)]
pub struct DistinctFiles {
    files: Vec<FileUse>,
    // A value that contracts alone see.
    job: Snapshot<Job>,
}

impl Model for DistinctFiles {
    ghost use Rattle.std.specs.Prelude.{◌≡◌};
    ghost use Rattle.command_words.specs.Jobs.{file_uses};
    ghost use Rattle.command_words.specs.declared.jobs.Job.{Job};

    ghost Value = { Job };

    ghost view = { λ apart. apart.job.value };

    ghost invariant = { λ apart. apart.files.items ≡ file_uses apart.job.value };
}

impl DistinctFiles {
    /// All files that the job names.
    pub(crate) fn files(&self) -> &[FileUse]
        ensures { result.now ≡ the_uses self.now }
    {
        self.files.as_slice()
    }
}

/// Whether it is a port.
fn is_port(access: Access) -> bool
    ensures { IsTrue result ↔ (access ≡ Port) }
{
    matches!(access, Access::Port)
}

/// Whether files of these uses have to be two, and are one. A character device may be one, but as a
/// port.
fn clash_at(one: Access, other: Access, file_id: &FileId, there: &FileId) -> bool
    ensures { IsTrue result ↔ Clash one other file_id.now there.now }
{
    one.excludes(other)
        && are_one_file(file_id, there)
        && (!file_id.kind.is_device() || is_port(one) || is_port(other))
}

/// The same, where both can be told.
fn clash_seen(one: Access, other: Access, file_id: &Option<FileId>, there: &Option<FileId>) -> bool
    ensures { IsTrue result ↔ IsClashSeen one other file_id.now there.now }
{
    match (file_id, there) {
        (Some(file_id), Some(there)) => clash_at(one, other, file_id, there),
        _ => false,
    }
}

/// Whether two files that have to be two are one, as far as that can be told.
fn clash<S: PathLookup>(system: &S, one: &FileUse, other: &FileUse) -> Result<bool, AllocError>
    ensures { IfOk result (λ clash. IsSeen (S.leads system.now) one.now other.now clash) }
{
    let file_id = system.file_id(one.name.as_str())?;
    let there = system.file_id(other.name.as_str())?;
    Ok(clash_seen(one.access, other.access, &file_id, &there))
}

/// What is told of two names that lead to one file.
fn one_file_line(alloc: Global, one: &FileUse, other: &FileUse) -> Option<String>
    ensures { IfSome result (λ line. IsWholeLine (string_bytes line)) }
{
    let clash = RoleClash {
        first: one.role(),
        later: other.role(),
    };
    let first = NamedText::only(one.name.as_str());
    let reason = format!(in alloc; "the same file as {first}, and {clash}").ok()?;
    file_line(alloc, other.name.as_str(), reason.as_str())
}

/// Why a job isn't done where two of its files are one, and what is told of them.
fn refused(alloc: Global, one: &FileUse, other: &FileUse) -> JobFailure
    ensures { IsRefused result }
{
    JobFailure::File {
        note: one_file_line(alloc, one, other),
    }
}

/// Looks whether a file and each of others are two, where they have to be.
fn look_at<S: PathLookup>(
    system: &S,
    alloc: Global,
    file: &FileUse,
    others: &[FileUse],
) -> Result<(), JobFailure>
    ensures apart { OnOk result
        (All (λ other. IsSeen (S.leads system.now) other file.now false) others.now) }
    ensures note { IfErr result (λ missed. IsRefused missed) }
{
    for other in others {
        if clash(system, other, file)? {
            return Err(refused(alloc, other, file));
        }
    }
    Ok(())
}

/// Looks whether each two of these files are two, where they have to be.
fn look_through<S: PathLookup>(
    system: &S,
    alloc: Global,
    files: &[FileUse],
) -> Result<(), JobFailure>
    ensures apart { OnOk result (HaveNoClash (S.leads system.now) files.now) }
    ensures note { IfErr result (λ missed. IsRefused missed) }
{
    for i in 0..files.len() {
        look_at(system, alloc, &files[i], &files[..i])?;
    }
    Ok(())
}

/// Whether it is a plain file.
fn is_plain(kind: FileKind) -> bool
    ensures { IsTrue result ↔ (kind ≡ Plain) }
{
    matches!(kind, FileKind::Plain)
}

/// Whether it is the null device.
fn is_null(kind: FileKind) -> bool
    ensures { IsTrue result ↔ (kind ≡ Null) }
{
    matches!(kind, FileKind::Null)
}

/// Whether no standard stream may lead to a file of this use: to no plain file, nor, but for the
/// null device, to one that is written.
fn is_barred(access: Access, kind: FileKind) -> bool
    ensures { IsTrue result ↔ IsForbiddenStream access kind }
{
    is_plain(kind) || (access.excludes(Access::Read) && !is_null(kind))
}

/// Whether a stream leads to such a file, as far as that can be told.
fn is_barred_seen(access: Access, file_id: &Option<FileId>, there: &Option<FileId>) -> bool
    ensures { IsTrue result ↔ IsBarredSeen access file_id.now there.now }
{
    match (file_id, there) {
        (Some(file_id), Some(there)) => is_barred(access, file_id.kind)
            && are_one_file(file_id, there),
        _ => false,
    }
}

/// The first of these files that a stream which leads to this place may not be, and is.
fn barred_file<'a, S: PathLookup>(
    system: &S,
    file_id: &Option<FileId>,
    files: &'a [FileUse],
) -> Result<Option<&'a FileUse>, AllocError>
    ensures { IfOk result (λ barred.
        IfNone barred (All (IsOther (S.leads system.now) file_id.now) files.entry.now)) }
{
    for file in files {
        let there = system.file_id(file.name.as_str())?;
        if is_barred_seen(file.access, file_id, &there) {
            return Ok(Some(file));
        }
    }
    Ok(None)
}

/// Looks whether standard output and standard error are none of these files, but where they may be.
/// Where standard error is another, nothing is told there.
fn look_at_streams<S: PathLookup>(
    system: &S,
    alloc: Global,
    files: &[FileUse],
) -> Result<(), JobFailure>
    ensures out { OnOk result (IsNoneOf (S.leads system.now) (codes "/dev/stdout") files.now) }
    ensures err { OnOk result (IsNoneOf (S.leads system.now) (codes "/dev/stderr") files.now) }
    ensures note { IfErr result (λ missed. IsRefused missed) }
{
    let out = system.file_id("/dev/stdout")?;
    let err = system.file_id("/dev/stderr")?;
    let told = barred_file(system, &err, files);
    if let Some(file) = barred_file(system, &out, files)? {
        let reason = "standard output goes there, and nothing else may";
        let note = match told {
            Ok(None) => file_line(alloc, file.name.as_str(), reason),
            _ => None,
        };
        return Err(JobFailure::Output { note });
    }
    match told? {
        Some(_) => Err(JobFailure::File { note: None }),
        None => Ok(()),
    }
}

/// Looks whether the files that a job writes are others than those that it reads, and than each
/// other, and whether standard output and standard error are none of all these, but where they may
/// be, as far as the system tells where their names lead. Nothing is opened.
pub(crate) fn check_distinct<S: PathLookup>(
    system: &S,
    alloc: Global,
    job: &Job,
) -> Result<DistinctFiles, JobFailure>
    ensures job { IfOk result (λ apart. apart ≡ job.now) }
    ensures apart { OnOk result (AreSeenApart (S.leads system.now) (the_uses job.now)) }
    ensures note { IfErr result (λ missed. IsRefused missed) }
{
    let files = file_uses(alloc, job)?;
    look_at_streams(system, alloc, files.as_slice())?;
    look_through(system, alloc, files.as_slice())?;
    let job = Snapshot::of(job);
    Ok(DistinctFiles { files, job })
}

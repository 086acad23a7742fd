//! To which files names lead.

ghost use Rattle.std.specs.Prelude.{◌↔◌, ℕ, List, Option, IfOk, IsTrue};
ghost use Rattle.named_files.specs.declared.file_id.FileId.{FileId};
ghost use Rattle.named_files.specs.DistinctFiles.{AreOneFile, IsDevice};

use std::alloc::AllocError;
use std::fs;
use std::fs::Metadata;
use std::io::ErrorKind;
use std::os::unix::fs::{FileTypeExt, MetadataExt};
use std::path::{Path, PathBuf};
use std::rt::Files;

/// What kind of file it is, as far as that says what a job may do with it.
#[derive(Clone, Copy)]
pub enum FileKind {
    /// A plain file.
    Plain,
    /// The null device, which keeps nothing.
    Null,
    /// Another character device, as a terminal is.
    Device,
    /// Another kind, as a pipe or a socket; or the file isn't there yet.
    Other,
}

/// The file that a name leads to.
#[derive(Drop)]
pub struct FileId {
    /// The device on which it is, or its folder.
    pub device: u64,
    /// Its number there, or that of its folder.
    pub number: u64,
    /// Its name in that folder, where it isn't there yet, and else nothing.
    pub name: String,
    /// What kind of file it is.
    pub kind: FileKind,
}

/// What tells which files names lead to. It opens none. No contract says where the system's names
/// lead.
pub trait PathLookup {
    /// A name leads to this file, or no file can be told.
    ghost leads: { Self → List ℕ → Option FileId → Type 0 };

    /// The file that a name leads to, where that can be told.
    fn file_id(&self, name: &str) -> Result<Option<FileId>, AllocError>
        ensures { IfOk result (leads self.now name.now) };
}

impl PathLookup for HostRuntime {
    ghost use Rattle.std.specs.Prelude.{⊤};

    ghost leads = { λ _ _ _. ⊤ };

    fn file_id(&self, name: &str) -> Result<Option<FileId>, AllocError> {
        let name = if name == "-" { "/dev/stdin" } else { name };
        match look(self, name)? {
            Some(metadata) => Ok(Some(place_of(&metadata, String::new(self.alloc())))),
            None => place_in_folder(self, followed(self, name)?.as_path()),
        }
    }
}

/// The number that Linux gives to the null device.
const NULL_DEVICE: u64 = 0x103;

/// How many links are followed, one after another.
const MAX_LINKS: usize = 40;

/// Where a name leads, by links too.
pub(crate) fn followed(rt: &HostRuntime, name: &str) -> Result<PathBuf, AllocError> {
    let mut path = PathBuf::from_str(rt.alloc(), name)?;
    for _ in 0..MAX_LINKS {
        match target_of(rt, path.as_path())? {
            Some(target) => path = target,
            None => break,
        }
    }
    Ok(path)
}

/// What a link names, where there is a link.
fn target_of(rt: &HostRuntime, path: Path<'_>) -> Result<Option<PathBuf>, AllocError> {
    let target = match fs::read_link(rt, path) {
        Ok(target) => target,
        Err(error) if error.kind() == ErrorKind::OutOfMemory => return Err(AllocError),
        Err(_) => return Ok(None),
    };
    match path.parent() {
        Some(folder) => Ok(Some(folder.join(rt.alloc(), target)?)),
        None => Ok(Some(target)),
    }
}

/// The folder in which a path lies.
pub(crate) fn folder_of(path: Path<'_>) -> &str {
    match path.parent() {
        Some(folder) if !folder.as_str().is_empty() => folder.as_str(),
        _ => ".",
    }
}

/// The id of a file that isn't there yet: its name in its folder.
fn place_in_folder(rt: &HostRuntime, path: Path<'_>) -> Result<Option<FileId>, AllocError> {
    let Some(name) = path.file_name() else {
        return Ok(None);
    };
    match look(rt, folder_of(path))? {
        Some(metadata) => Ok(Some(place_of(&metadata, format!(in rt.alloc(); "{name}")?))),
        None => Ok(None),
    }
}

/// What the system says of a file, where it says anything.
fn look<R: Files>(rt: &R, path: &str) -> Result<Option<Metadata>, AllocError> {
    match fs::metadata(rt, path) {
        Ok(metadata) => Ok(Some(metadata)),
        Err(error) if error.kind() == ErrorKind::OutOfMemory => Err(AllocError),
        Err(_) => Ok(None),
    }
}

/// The kind of the file of which the system says this.
fn kind_of(metadata: &Metadata) -> FileKind {
    if metadata.is_file() {
        return FileKind::Plain;
    }
    match (metadata.file_type().is_char_device(), metadata.rdev()) {
        (true, NULL_DEVICE) => FileKind::Null,
        (true, _) => FileKind::Device,
        (false, _) => FileKind::Other,
    }
}

/// The file of which the system says this, or one of this name in that folder.
fn place_of(metadata: &Metadata, name: String) -> FileId {
    FileId {
        device: metadata.dev(),
        number: metadata.ino(),
        name,
        kind: kind_of(metadata),
    }
}

/// Whether both are one file.
pub(crate) fn are_one_file(one: &FileId, other: &FileId) -> bool
    ensures { IsTrue result ↔ AreOneFile one.now other.now }
{
    one.device == other.device
        && one.number == other.number
        && one.name.as_str() == other.name.as_str()
}

impl FileKind {
    /// Whether it is a character device.
    pub(crate) fn is_device(self) -> bool
        ensures { IsTrue result ↔ IsDevice self }
    {
        matches!(self, FileKind::Null | FileKind::Device)
    }
}

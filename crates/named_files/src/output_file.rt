//! A file that goes on, or a new one that is put in a place.

ghost use Rattle.std.specs.Prelude.{◌≡◌, ◌≤◌, [], IfOk, OnOk, OnErr, false, is_ok, length, take};

use crate::distinct_files::DistinctFiles;
use crate::file_id::{FileId, PathLookup, are_one_file, folder_of, followed};
use crate::traced_file::{TracedFile, passed};
use byte_streams::PassedBytes;
use std::alloc::AllocError;
use std::fs::{File, OpenOptions, TryLockError};
use std::io::{ErrorKind, Read, Write};
use std::os::unix::fs::MetadataExt;
use std::path::{Path, PathBuf};
use std::{fs, io};

/// How many names are tried for a new file.
const MAX_NAMES: usize = 100;

/// What the name of a new file has after that of its place, and before a number.
const NEW_FILE: &str = ".exchange-";

/// How often a file is opened that another has replaced, or removed, before it was locked.
const MAX_TURNS: usize = 10;

/// What is open to be written.
#[derive(Drop)]
enum OutputTarget {
    /// A device or a pipe.
    Device,
    /// The file to which this name led, and whether it was made then.
    Held { name: String, is_made: bool },
    /// A new file of this name, which goes to this place.
    New { name: String, file_id: PathBuf },
}

/// A file that is open to be written: that of a name itself, or a new one that goes there.
#[derive(Drop)]
pub struct OutputFile {
    pub(crate) sent: TracedFile,
    /// The name by which it was opened.
    pub(crate) named: PassedBytes,
    opened: OutputTarget,
    syncs: bool,
    /// Why something couldn't be written, where that was so.
    pub(crate) failure: Option<io::Error>,
}

/// What went to a file that is closed, by which name it was opened, and whether it is durable under
/// that name.
#[derive(Drop)]
pub struct ClosedFile {
    pub(crate) sent: PassedBytes,
    pub(crate) named: PassedBytes,
    pub(crate) durable: bool,
}

/// What is at a name: a file, or a device or a pipe, or nothing as yet.
fn is_file_at(rt: &HostRuntime, name: &str) -> io::Result<Option<bool>> {
    match fs::metadata(rt, name) {
        Ok(metadata) => Ok(Some(metadata.is_file())),
        Err(error) if error.kind() == ErrorKind::NotFound => Ok(None),
        Err(error) => Err(error),
    }
}

/// Whether a name leads to this file.
fn leads_to(rt: &HostRuntime, name: &str, file: &File) -> io::Result<bool> {
    let own = file.metadata()?;
    match fs::metadata(rt, name) {
        Ok(there) => Ok(there.dev() == own.dev() && there.ino() == own.ino()),
        Err(error) if error.kind() == ErrorKind::NotFound => Ok(false),
        Err(error) => Err(error),
    }
}

/// Whether a name leads to the file of this id.
fn is_at(rt: &HostRuntime, name: &str, file_id: &FileId) -> Result<bool, AllocError> {
    let there = rt.file_id(name)?;
    Ok(there.is_some_and(|there| are_one_file(&there, file_id)))
}

/// Whether the file of this name, there or not, is one that the job names.
fn is_used(rt: &HostRuntime, apart: &DistinctFiles, name: &str) -> Result<bool, AllocError> {
    let Some(file_id) = rt.file_id(name)? else {
        return Ok(false);
    };
    for file in apart.files() {
        if is_at(rt, file.name.as_str(), &file_id)? {
            return Ok(true);
        }
    }
    Ok(false)
}

/// A new file of this name, where nothing has it.
fn make_new(rt: &HostRuntime, name: &str) -> io::Result<Option<File>> {
    let file = match OpenOptions::new()
        .write(true)
        .create_new(true)
        .open(rt, name)
    {
        Ok(file) => file,
        Err(error) if error.kind() == ErrorKind::AlreadyExists => return Ok(None),
        Err(error) => return Err(error),
    };
    match file.try_lock() {
        Err(TryLockError::WouldBlock) => Ok(None),
        Err(TryLockError::Error(error)) => {
            let _ = fs::remove_file(rt, name);
            Err(error)
        }
        // Another may have written something before that, or put the file elsewhere.
        Ok(()) if file.metadata()?.len() > 0 || !leads_to(rt, name, &file)? => Ok(None),
        Ok(()) => Ok(Some(file)),
    }
}

/// Sees to it that a new file may be put in this place: it has a name, and none of a new file.
fn look_at_place(place: &str) -> io::Result<()> {
    if place.is_empty() || place.ends_with('/') {
        return Err(io::Error::other("it names no file"));
    }
    let number = place.rsplit_once(NEW_FILE).map(|(_, number)| number);
    if number.is_some_and(|number| number.parse::<usize>().is_ok()) {
        return Err(io::Error::other("names that end in .exchange-N are for new files"));
    }
    Ok(())
}

/// Has the disk keep the name of a file that is new in its folder.
fn keep_name(rt: &HostRuntime, file_id: Path<'_>) -> io::Result<()> {
    File::open(rt, folder_of(file_id))?.sync_all()
}

/// The same where it has to.
fn sync_name(rt: &HostRuntime, file_id: Path<'_>) -> io::Result<()> {
    match keep_name(rt, file_id) {
        Err(error) if error.kind() != ErrorKind::OutOfMemory => {
            Err(io::Error::other("its folder can't be synced"))
        }
        end => end,
    }
}

/// Makes a file beside this place: `PLACE.exchange-0`, or with the first number that is free.
fn make_beside(
    rt: &HostRuntime,
    apart: &DistinctFiles,
    file_id: &PathBuf,
) -> io::Result<(File, String)> {
    for number in 0..MAX_NAMES {
        let name = format!(in rt.alloc(); "{}{NEW_FILE}{number}", file_id.as_str())?;
        if is_used(rt, apart, name.as_str())? {
            continue;
        }
        match make_new(rt, name.as_str()) {
            Ok(Some(file)) => return Ok((file, name)),
            Err(error) if error.kind() == ErrorKind::PermissionDenied => {
                return Err(io::Error::other("no new file can be made in its folder"));
            }
            Err(error) => return Err(error),
            Ok(None) => {}
        }
    }
    Err(io::Error::other("each name for a new file beside it is taken"))
}

/// Keeps other programs that ask for it from this file, as long as it is open.
fn lock_alone(file: &File) -> io::Result<()> {
    match file.try_lock() {
        Ok(()) => Ok(()),
        Err(TryLockError::WouldBlock) => Err(io::Error::other("another program writes it")),
        Err(TryLockError::Error(error)) => Err(error),
    }
}

/// The same, and whether this name leads to it still: another may have taken its place before.
fn lock_named(rt: &HostRuntime, name: &str, file: &File) -> io::Result<bool> {
    lock_alone(file)?;
    leads_to(rt, name, file)
}

/// The file of a name, to be read, and written after its end, and whether it was made for that.
fn open_or_make(rt: &HostRuntime, name: &str) -> io::Result<(File, bool)> {
    match OpenOptions::new().read(true).append(true).open(rt, name) {
        Err(error) if error.kind() == ErrorKind::NotFound => {}
        opened => return Ok((opened?, false)),
    }
    let place = followed(rt, name)?;
    let made = OpenOptions::new()
        .read(true)
        .append(true)
        .create_new(true)
        .open(rt, &place)?;
    Ok((made, true))
}

/// The same, kept from other programs that ask for it. What another has put in its place, or
/// removed, before it was locked is opened again.
fn open_alone(rt: &HostRuntime, name: &str) -> io::Result<(File, bool)> {
    for _ in 0..MAX_TURNS {
        match open_or_make(rt, name) {
            Ok((file, is_made)) if lock_named(rt, name, &file)? => return Ok((file, is_made)),
            Err(error) if error.kind() != ErrorKind::AlreadyExists => return Err(error),
            _ => {}
        }
    }
    Err(io::Error::other("another program writes it"))
}

/// Removes a file that is locked, if nothing is in it and this name leads to it still.
fn remove_empty(rt: &HostRuntime, name: &str, file: &File) -> io::Result<()> {
    let place = followed(rt, name)?;
    if file.metadata()?.len() == 0 && leads_to(rt, place.as_str(), file)? {
        fs::remove_file(rt, place.as_str())?;
    }
    Ok(())
}

/// What a file holds, and its name. With `syncs` the disk has to keep that.
fn read_held(
    rt: &HostRuntime,
    name: &str,
    file: &mut File,
    syncs: bool,
) -> io::Result<(String, Vec<u8>)> {
    if syncs {
        sync_name(rt, followed(rt, name)?.as_path())?;
    }
    let mut held = Vec::new(rt.alloc());
    file.read_to_end(&mut held)?;
    Ok((String::from_str(rt.alloc(), name)?, held))
}

/// Empties a plain file, and keeps it from other programs that ask for it, as long as it is open.
pub(crate) fn empty_alone(file: &File) -> io::Result<()> {
    lock_alone(file)?;
    if file.metadata()?.is_file() {
        file.set_len(0)?;
    }
    Ok(())
}

/// The file of a name, kept from other programs that ask for it as long as it is open.
fn lock_at(rt: &HostRuntime, name: &str) -> io::Result<File> {
    let file = OpenOptions::new().write(true).open(rt, name)?;
    if lock_named(rt, name, &file)? {
        return Ok(file);
    }
    Err(io::Error::other("another program writes it"))
}

/// Puts a new file that the disk has in its place, unless another program has come to write what
/// stands there. The disk keeps its name, if the system can do that.
fn put_new(rt: &HostRuntime, name: &str, file_id: Path<'_>) -> io::Result<()> {
    let there = match is_file_at(rt, file_id.as_str())? {
        Some(true) => Some(lock_at(rt, file_id.as_str())?),
        _ => None,
    };
    fs::rename(rt, name, file_id)?;
    drop(there);
    let _ = keep_name(rt, file_id);
    Ok(())
}

impl OutputFile {
    /// The file that was opened by this name, to which nothing has gone.
    fn of(file: File, name: &str, opened: OutputTarget) -> OutputFile
        ensures sent { result.sent.sent ≡ [] }
        ensures named { result.named ≡ name.now }
    {
        OutputFile {
            sent: TracedFile::of(file),
            named: passed(name.as_bytes()),
            opened,
            syncs: false,
            failure: None,
        }
    }

    /// The device or the pipe of a name.
    fn device(rt: &HostRuntime, name: &str) -> io::Result<OutputFile>
        ensures { IfOk result (λ it. (it.sent.sent ≡ []) × (it.named ≡ name.now)) }
    {
        let file = OpenOptions::new().write(true).open(rt, name)?;
        Ok(OutputFile::of(file, name, OutputTarget::Device))
    }

    /// The file of a name, to be written after its end, and what it holds. No other record may be
    /// written there meanwhile.
    pub(crate) fn open_record(
        rt: &HostRuntime,
        name: &str,
        syncs: bool,
    ) -> io::Result<(OutputFile, Vec<u8>)>
        ensures { IfOk result (λ opened.
            (opened.0.sent.sent ≡ opened.1.items) × (opened.0.named ≡ name.now)) }
    {
        if let Some(false) = is_file_at(rt, name)? {
            return Ok((OutputFile::device(rt, name)?, Vec::new(rt.alloc())));
        }
        let (mut file, is_made) = open_alone(rt, name)?;
        let (own, held) = match read_held(rt, name, &mut file, syncs) {
            Ok(held) => held,
            Err(error) => {
                if is_made {
                    let _ = remove_empty(rt, name, &file);
                }
                return Err(error);
            }
        };
        let sent = passed(held.as_slice());
        let it = OutputFile {
            sent: TracedFile { file, sent },
            named: passed(name.as_bytes()),
            opened: OutputTarget::Held { name: own, is_made },
            syncs,
            failure: None,
        };
        Ok((it, held))
    }

    /// A new file that goes to the place to which a name leads, and may be used as the file there,
    /// where one is. A device or a pipe itself.
    pub(crate) fn open_new(
        rt: &HostRuntime,
        apart: &DistinctFiles,
        name: &str,
    ) -> io::Result<OutputFile>
        ensures { IfOk result (λ it. (it.sent.sent ≡ []) × (it.named ≡ name.now)) }
    {
        let permissions = match is_file_at(rt, name)? {
            Some(false) => return OutputFile::device(rt, name),
            Some(true) => Some(lock_at(rt, name)?.metadata()?.permissions()),
            None => None,
        };
        let file_id = followed(rt, name)?;
        look_at_place(file_id.as_str())?;
        let (file, new) = make_beside(rt, apart, &file_id)?;
        if let Some(permissions) = permissions {
            let _ = file.set_permissions(permissions);
        }
        let opened = OutputTarget::New { name: new, file_id };
        Ok(OutputFile::of(file, name, opened))
    }

    /// Cuts off what it holds after so many bytes.
    pub(crate) fn cut(&mut self, held: &[u8], kept: usize) -> io::Result<()>
        requires { kept ≤ length held.now }
        ensures cut { OnOk result (self.new.sent.sent ≡ take kept held.now) }
        ensures same { OnErr result (self.new.sent.sent ≡ self.old.sent.sent) }
        ensures named { self.new.named ≡ self.old.named }
    {
        match &self.opened {
            OutputTarget::Device => {}
            _ => self.sent.file.set_len(kept as u64)?,
        }
        self.sent.sent = passed(&held[..kept]);
        Ok(())
    }

    /// What has gone to it. It is let go, and with it what was made and isn't wanted.
    pub(crate) fn close(self, rt: &HostRuntime) -> ClosedFile
        ensures { (result.sent ≡ self.sent.sent) × (result.named ≡ self.named)
            × (result.durable ≡ false) }
    {
        self.forget(rt);
        ClosedFile {
            sent: self.sent.into_sent(),
            named: self.named,
            durable: false,
        }
    }

    /// What has gone to it. Once the disk has it, a new file is put in its place, or else let go.
    pub(crate) fn put(self, rt: &HostRuntime) -> (ClosedFile, io::Result<()>)
        ensures { (result.0.sent ≡ self.sent.sent) × (result.0.named ≡ self.named)
            × (result.0.durable ≡ is_ok result.1) }
    {
        let end = self.persist(rt);
        let closed = ClosedFile {
            sent: self.sent.into_sent(),
            named: self.named,
            durable: end.is_ok(),
        };
        (closed, end)
    }

    /// Lets go of a new file, and of one that was made for a record where nothing is in it.
    fn forget(&self, rt: &HostRuntime) {
        let _ = match &self.opened {
            OutputTarget::New { name, .. } => fs::remove_file(rt, name.as_str()),
            OutputTarget::Held { name, is_made } if *is_made => {
                remove_empty(rt, name.as_str(), &self.sent.file)
            }
            _ => Ok(()),
        };
    }

    /// Syncs it, and renames a new file into its place, so that its name leads to it. Where that
    /// fails a new file goes.
    fn persist(&self, rt: &HostRuntime) -> io::Result<()> {
        let end = self.persist_named(rt);
        if end.is_err() {
            self.forget(rt);
        }
        end
    }

    /// The same, but that a new file stays where that fails.
    fn persist_named(&self, rt: &HostRuntime) -> io::Result<()> {
        match &self.opened {
            OutputTarget::Device => Ok(()),
            OutputTarget::Held { name, .. } => {
                self.sent.file.sync_all()?;
                if leads_to(rt, name.as_str(), &self.sent.file)? {
                    return Ok(());
                }
                Err(io::Error::other("its name leads to another file now, or to none"))
            }
            OutputTarget::New { name, file_id } => {
                self.sent.file.sync_all()?;
                put_new(rt, name.as_str(), file_id.as_path())
            }
        }
    }

    /// What comes of writing. Why something couldn't be written is kept.
    fn noted<T: Drop>(&mut self, end: io::Result<T>) -> io::Result<T>
        ensures end { result ≡ end }
        ensures sent { self.new.sent.sent ≡ self.old.sent.sent }
        ensures named { self.new.named ≡ self.old.named }
    {
        if let Err(error) = &end {
            self.failure = Some(*error);
        }
        end
    }
}

impl Write for OutputFile {
    ghost use Rattle.std.specs.Prelude.{Some};
    ghost use Rattle.named_files.specs.Streams.{named_text};

    ghost contents = { λ it. Some (named_text it.named it.sent.sent) };

    fn write(&mut self, buf: &[u8]) -> io::Result<usize> {
        let end = self.sent.write(buf);
        self.noted(end)
    }

    fn flush(&mut self) -> io::Result<()> {
        if !self.syncs {
            return Ok(());
        }
        let end = self.sent.file.sync_data();
        self.noted(end)
    }
}

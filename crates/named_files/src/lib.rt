//! What the program asks of the system by name: files that it reads, files that sessions write, the
//! files of live clients, and the ports of switches.
//!
//! [`System`] and [`ClientFiles`] say what each call does to the file of which name, [`PathLookup`]
//! to which file a name leads. `HostRuntime` is the one implementation over the real system, of
//! which contracts know nothing but names, and [`HostPorts`] is that of `drive_answers`' ports.
//! Streams and receipts of any [`System`] aren't `Drop`: each that is opened is closed, and its
//! receipt is handed out.
//!
//! [`read_contents`] reads a job's files in their order (`AreContents` of `specs/Contents.antt`).
//! [`open_distinct`] opens the files that sessions write, once it has looked that no file is read
//! and written (`AreOpened` of `specs/Outputs.antt`, `AreSeenApart` of `specs/DistinctFiles.antt`):
//! what opens one wants a [`DistinctFiles`], which that look alone makes. [`keep_file`] writes one
//! and puts it in its place, or says why not all of it stands there (`IsFileWritten`). Where
//! something can't be read or opened there is no answer, and a line that tells why (`IsRefused` of
//! `specs/Notes.antt`).
#![tactic(auto)]

mod client_streams;
mod contents;
mod distinct_files;
mod file_id;
mod host_system;
mod io_failure;
mod notes;
mod output_failure;
mod output_file;
mod outputs;
mod ports;
mod system;
mod traced_file;
mod write_failures;

pub use client_streams::{ClientFile, ClientFiles, FileStreams};
pub use contents::{Contents, read_contents, slice_of, source_with, text_of};
pub use distinct_files::DistinctFiles;
pub use file_id::{FileId, FileKind, PathLookup};
pub use host_system::ClientPass;
pub use io_failure::IoFailure;
pub use notes::{JobFailure, failure_line, read_failure, reason_line, tell_line, tell_note};
pub use output_failure::OutputFailure;
pub use output_file::{ClosedFile, OutputFile};
pub use outputs::{
    NamedOutput, Outputs, Receipts, close_file, close_stream, keep_file, leave_file, open_distinct,
    put_written,
};
pub use ports::HostPorts;
pub use system::{ProgramRuntime, System};
pub use traced_file::TracedFile;
pub use write_failures::{WriteFailure, WriteFailures};

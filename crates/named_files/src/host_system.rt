//! The files of the real system. Which bytes they hold contracts don't say.

ghost use Rattle.std.specs.Prelude.{◌≡◌, [], IfOk};

use crate::client_streams::{ClientFile, ClientFiles};
use crate::distinct_files::DistinctFiles;
use crate::output_file::{ClosedFile, OutputFile, empty_alone};
use crate::system::System;
use crate::traced_file::{TracedFile, passed};
use byte_streams::PassedBytes;
use session_answers::{NameTrace, PassTrace, ThreadsStarted};
use std::fs::{File, OpenOptions};
use std::{fs, io};

/// A pass for the files of the client of a name, which contracts alone see.
#[derive(Drop)]
pub struct ClientPass {
    named: PassedBytes,
}

impl System for HostRuntime {
    ghost use Rattle.std.specs.Prelude.{⊤, Some};
    ghost use Rattle.named_files.specs.Streams.{closed};

    type Stream = OutputFile;

    type Receipt = ClosedFile;

    type Reads = NameTrace;

    ghost holds = { λ _ _ _. ⊤ };

    ghost received = { λ file. closed file.named (Some file.sent) file.durable };

    ghost were_read = { λ reads. reads };

    fn read(
        &self,
        reads: &mut NameTrace,
        _apart: &DistinctFiles,
        name: &str,
    ) -> io::Result<Vec<u8>> {
        reads.add(name);
        fs::read(self, name)
    }

    fn open_record(
        &self,
        _apart: &DistinctFiles,
        name: &str,
        syncs: bool,
    ) -> io::Result<(OutputFile, Vec<u8>)> {
        OutputFile::open_record(self, name, syncs)
    }

    fn open_new(&self, apart: &DistinctFiles, name: &str) -> io::Result<OutputFile> {
        OutputFile::open_new(self, apart, name)
    }

    fn cut(&self, stream: &mut OutputFile, held: &[u8], kept: usize) -> io::Result<()> {
        stream.cut(held, kept)
    }

    fn failure(&self, stream: &OutputFile) -> Option<io::Error> {
        stream.failure
    }

    fn close(&self, stream: OutputFile) -> ClosedFile {
        stream.close(self)
    }

    fn put(&self, stream: OutputFile) -> (ClosedFile, io::Result<()>) {
        stream.put(self)
    }
}

impl ClientFiles for HostRuntime {
    ghost use Rattle.std.specs.Prelude.{[], None};

    type Input = File;

    type Desk = PassTrace;

    type Pass = ClientPass;

    ghost says = { λ _ _. None };

    ghost had = { λ _ _. [] };

    ghost named = { λ pass. pass.named };

    ghost passes = { λ desk. desk };

    fn pass(&self, desk: &mut PassTrace, name: &str) -> ClientPass {
        desk.give(name);
        ClientPass {
            named: passed(name.as_bytes()),
        }
    }

    fn admit(&self, desk: &mut PassTrace) {
        desk.admit();
    }

    fn open_files(
        &self,
        _there: &ThreadsStarted,
        _apart: &DistinctFiles,
        _pass: ClientPass,
        input: &str,
        output: &str,
    ) -> Result<(File, TracedFile), (ClientFile, io::Error)> {
        let heard = match File::open(self, input) {
            Ok(heard) => heard,
            Err(error) => return Err((ClientFile::Input, error)),
        };
        match open_output(self, output) {
            Ok(told) => Ok((heard, told)),
            Err(error) => Err((ClientFile::Output, error)),
        }
    }
}

/// Opens the file of a client's output: it is made where it isn't there, and emptied.
fn open_output(rt: &HostRuntime, name: &str) -> io::Result<TracedFile>
    ensures { IfOk result (λ told. told.sent ≡ []) }
{
    let file = OpenOptions::new().write(true).create(true).open(rt, name)?;
    empty_alone(&file)?;
    Ok(TracedFile::of(file))
}

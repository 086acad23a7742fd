//! The files of the clients of a host.

ghost use Rattle.std.specs.Prelude.{◌≡◌, ◌++◌, ℕ, List, [], Option, IfOk, codes};
ghost use Rattle.command_words.specs.Jobs.{clients_of};
ghost use Rattle.named_files.specs.DistinctFiles.{TellsBy};
ghost use Rattle.session_answers.specs.Passes.{GivenPasses, all_admitted, given_to};

use crate::distinct_files::DistinctFiles;
use crate::io_failure::IoFailure;
use crate::traced_file::TracedFile;
use byte_streams::PassedBytes;
use command_words::Text;
use session_answers::{ClientStreams, ThreadsStarted};
use std::alloc::Global;
use std::io;
use std::io::{ErrorKind, Read};
use std::sync::OnceLock;

/// A file of a client.
#[derive(Clone, Copy)]
pub enum ClientFile {
    /// `NAME.in`, of what the client says.
    Input,
    /// `NAME.out`, of what the client is told.
    Output,
}

/// What opens the files of clients, in the thread of each, once all threads are there.
pub trait ClientFiles: Sync {
    /// What a client says is read from this.
    type Input: Read + Send + Drop;
    /// What gives passes. Who is handed any system can make none, and no thread has it.
    type Desk;
    /// Lets the files of one client be opened, once.
    type Pass: Send + Drop;

    /// What comes from the file of this name, as far as that is known.
    ghost says: { Self → List ℕ → Option (List ℕ) };

    /// What has gone to the file of this name before it is opened.
    ghost had: { Self → List ℕ → List ℕ };

    /// The name of the client whose pass it is.
    ghost named: { Self.Pass → List ℕ };

    /// The passes that the desk gave, and which of them were used.
    ghost passes: { Self.Desk → GivenPasses };

    /// Gives a pass for the files of the client of this name, as long as none was used.
    fn pass(&self, desk: &mut Self::Desk, name: &str) -> Self::Pass
        requires { (passes desk.old).admitted ≡ [] }
        ensures named { named result ≡ name.now }
        ensures given { passes desk.new ≡ given_to name.now (passes desk.old) };

    /// Takes down that all passes were used. No other is given after that.
    fn admit(&self, desk: &mut Self::Desk)
        ensures { passes desk.new ≡ all_admitted (passes desk.old) };

    /// Opens the files of the client whose pass this is: first that of its input, and then that of
    /// its output, which is made where it isn't there, and emptied. This is one of those that the
    /// job names for outputs of clients. The error has the file that couldn't be opened.
    fn open_files(
        &self,
        there: &ThreadsStarted,
        apart: &DistinctFiles,
        pass: Self::Pass,
        input: &str,
        output: &str,
    ) -> Result<(Self::Input, TracedFile), (ClientFile, io::Error)>
        requires input { input.now ≡ named pass ++ codes ".in" }
        requires output { output.now ≡ named pass ++ codes ".out" }
        requires apart { TellsBy apart.now output.now }
        ensures input { IfOk result (λ files.
            Self.Input.remaining files.0 ≡ says self.now input.now) }
        ensures output { IfOk result (λ files. files.1.sent ≡ had self.now output.now) };
}

/// The files of clients by their names: a client says what `NAME.in` has, and is told what goes to
/// `NAME.out`.
#[derive(Drop)]
pub struct FileStreams<'a, S> {
    pub system: &'a S,
    pub alloc: Global,
    pub clients: &'a [Text],
    /// It was looked that the files of the job are apart whose clients these are.
    pub apart: &'a DistinctFiles,
    /// Of each client the file that couldn't be opened, where one couldn't, and why.
    pub unopened: &'a [OnceLock<IoFailure>],
    ghost hosted: { clients.now ≡ clients_of apart.now },
}

impl<'a, S> FileStreams<'a, S> {
    /// Keeps which file of a client couldn't be opened, and why, where there is memory for that.
    fn keep(&self, client: usize, name: String, error: &io::Error) {
        if error.kind() == ErrorKind::OutOfMemory {
            return;
        }
        if let Some(unopened) = self.unopened.get(client)
            && let Ok(why) = error.to_string(self.alloc)
        {
            let _ = unopened.try_set(IoFailure { name, why });
        }
    }
}

impl<'a, S: ClientFiles> ClientStreams for FileStreams<'a, S> {
    ghost use Rattle.std.specs.Prelude.{◌≡◌, Some, [], slice_index_or};
    ghost use Rattle.named_files.specs.Clients.{clients_by};

    type Reader = S::Input;

    type Writer = TracedFile;

    type Receipt = PassedBytes;

    type Desk = S::Desk;

    type Pass = S::Pass;

    ghost known = { λ d. clients_by (S.says d.system.now) (S.had d.system.now) d.clients.now };

    ghost received = { λ sent. Some sent };

    ghost admits = { λ d client pass. S.named pass ≡ slice_index_or d.clients.now client [] };

    ghost passes = { S.passes };

    fn clients(&self) -> usize {
        self.clients.len()
    }

    fn name(&self, client: usize) -> &str {
        match self.clients.get(client) {
            Some(name) => name.as_str(),
            None => "",
        }
    }

    fn pass(&self, desk: &mut S::Desk, client: usize) -> S::Pass {
        self.system.pass(desk, self.name(client))
    }

    fn admit(&self, desk: &mut S::Desk) {
        self.system.admit(desk);
    }

    fn open(
        &self,
        there: ThreadsStarted,
        client: usize,
        pass: S::Pass,
    ) -> io::Result<(S::Input, TracedFile)> {
        let Some(name) = self.clients.get(client) else {
            return Err(io::Error::from(ErrorKind::NotFound));
        };
        let name = name.as_str();
        let input = format!(in self.alloc; "{name}.in")?;
        let output = format!(in self.alloc; "{name}.out")?;
        let opened = self
            .system
            .open_files(&there, self.apart, pass, input.as_str(), output.as_str());
        match opened {
            Ok(files) => Ok(files),
            Err((file, error)) => {
                let name = match file {
                    ClientFile::Input => input,
                    ClientFile::Output => output,
                };
                self.keep(client, name, &error);
                Err(error)
            }
        }
    }

    fn close(&self, writer: TracedFile) -> PassedBytes {
        writer.into_sent()
    }
}

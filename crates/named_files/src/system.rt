//! What the program asks of the system by name.

ghost use Rattle.std.specs.Prelude.{◌≡◌, ◌≤◌, ◌++◌, ◌∷◌, ℕ, false, is_ok, length, take, List, []};
ghost use Rattle.std.specs.Prelude.{Some, IfOk, OnOk, OnErr};
ghost use Rattle.named_files.specs.DistinctFiles.{IsReadOf, IsWrittenOf};
ghost use Rattle.named_files.specs.Streams.{Closed, IsLeftOf, written_to};

use crate::client_streams::ClientFiles;
use crate::distinct_files::DistinctFiles;
use crate::file_id::PathLookup;
use std::io;
use std::io::Write;
use std::sync::Wait;
use std::thread::Threads;
use std::time::Clock;

/// What the program runs on.
pub trait ProgramRuntime: AllocGlobal + Clock + Threads + Wait + Sync {}

impl<R: AllocGlobal + Clock + Threads + Wait + Sync> ProgramRuntime for R {}

/// What the program asks of the system by name. It is shared, so no call changes what contracts see
/// of it. A stream of a record or an image isn't `Drop`, and neither is its receipt: who is handed
/// any system can let neither go, so each is closed, and its receipt handed out. What contracts see
/// of a stream begins with the name by which it was opened, and its receipt has that name.
pub trait System: PathLookup + ClientFiles + Sync {
    /// What was opened to be written.
    type Stream: Write + Send;
    /// What is left of a stream that was closed.
    type Receipt;
    /// What takes down which files were read. Who is handed any system can make none.
    type Reads;

    /// The file of this name holds these bytes.
    ghost holds: { Self → List ℕ → List ℕ → Type 0 };

    /// What is known of the stream of which this is left.
    ghost received: { Self.Receipt → Closed };

    /// The names of the files that were read, in that order.
    ghost were_read: { Self.Reads → List (List ℕ) };

    /// Reads the file of this name to its end, and takes that down. It is one that the job reads.
    fn read(
        &self,
        reads: &mut Self::Reads,
        apart: &DistinctFiles,
        name: &str,
    ) -> io::Result<Vec<u8>>
        requires { IsReadOf apart.now name.now }
        ensures content { IfOk result (λ bytes. holds self.now name.now bytes.items) }
        ensures read { were_read reads.new ≡ were_read reads.old ++ name.now ∷ [] };

    /// Opens the file of this name, to be written after what it holds, and reads that. It is made
    /// where it isn't there. A device or a pipe holds nothing. With `syncs` each flush waits until
    /// the disk has what was written. It was looked before that the job's files are apart.
    fn open_record(
        &self,
        apart: &DistinctFiles,
        name: &str,
        syncs: bool,
    ) -> io::Result<(Self::Stream, Vec<u8>)>
        requires { IsWrittenOf apart.now name.now }
        ensures { IfOk result (λ opened. holds self.now name.now opened.1.items
            × (written_to name.now (Self.Stream.contents opened.0) ≡ Some opened.1.items)) };

    /// Opens a new file, to be written and put in the place of the file of this name, which is as
    /// it was until then. A device or a pipe of this name is opened itself. The new file is none
    /// of the job's files, of which it was looked before that they are apart.
    fn open_new(&self, apart: &DistinctFiles, name: &str) -> io::Result<Self::Stream>
        requires { IsWrittenOf apart.now name.now }
        ensures { IfOk result (λ stream.
            written_to name.now (Self.Stream.contents stream) ≡ Some []) };

    /// Cuts off what a file holds after so many bytes.
    fn cut(&self, stream: &mut Self::Stream, held: &[u8], kept: usize) -> io::Result<()>
        requires held { (name : List ℕ)
            × (written_to name (Self.Stream.contents stream.old) ≡ Some held.now) }
        requires kept { kept ≤ length held.now }
        ensures cut { OnOk result ((name : List ℕ)
            → written_to name (Self.Stream.contents stream.old) ≡ Some held.now
            → written_to name (Self.Stream.contents stream.new) ≡ Some (take kept held.now)) }
        ensures same { OnErr result
            (Self.Stream.contents stream.new ≡ Self.Stream.contents stream.old) };

    /// Why something couldn't be written to it, where that was so: the last reason.
    fn failure(&self, stream: &Self::Stream) -> Option<io::Error>;

    /// Closes a stream. A new file is put nowhere: it goes.
    fn close(&self, stream: Self::Stream) -> Self::Receipt
        ensures { IsLeftOf (Self.Stream.contents stream) false (received result) };

    /// Closes a stream that is whole: once the disk has it, a new file is put in its place.
    fn put(&self, stream: Self::Stream) -> (Self::Receipt, io::Result<()>)
        ensures { IsLeftOf (Self.Stream.contents stream) (is_ok result.1) (received result.0) };
}

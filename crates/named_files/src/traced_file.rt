//! A file that is written, with what has gone to it.

ghost use Rattle.std.specs.Prelude.{◌≡◌, ◌++◌, []};

use byte_streams::PassedBytes;
use std::fs::File;
use std::io;
use std::io::Write;

/// A file that is open to be written, and what has gone to it.
#[derive(Drop)]
pub struct TracedFile {
    pub(crate) file: File,
    pub(crate) sent: PassedBytes,
}

/// These bytes have passed too.
fn add_all(sent: &mut PassedBytes, bytes: &[u8])
    ensures { sent.new ≡ sent.old ++ bytes.now }
{
    for byte in bytes {
        sent.add(*byte);
    }
}

/// These bytes have passed.
pub(crate) fn passed(bytes: &[u8]) -> PassedBytes
    ensures { result ≡ bytes.now }
{
    let mut sent = PassedBytes::none();
    add_all(&mut sent, bytes);
    sent
}

impl TracedFile {
    /// A file to which nothing has gone as yet.
    pub(crate) fn of(file: File) -> TracedFile
        ensures { result.sent ≡ [] }
    {
        TracedFile {
            file,
            sent: PassedBytes::none(),
        }
    }

    /// What has gone to it. It is let go.
    pub(crate) fn into_sent(self) -> PassedBytes
        ensures { result ≡ self.sent }
    {
        let TracedFile { file: _, sent } = self;
        sent
    }
}

impl Write for TracedFile {
    ghost use Rattle.std.specs.Prelude.{Some};

    ghost contents = { λ file. Some file.sent };

    fn write(&mut self, buf: &[u8]) -> io::Result<usize> {
        let count = self.file.write(buf)?;
        add_all(&mut self.sent, &buf[..count]);
        Ok(count)
    }

    fn flush(&mut self) -> io::Result<()> {
        self.file.flush()
    }
}

//! What couldn't be written.

ghost use Rattle.named_files.specs.Outputs.{IsUnwrittenTold};

use crate::notes::tell_line;
use crate::write_failures::WriteFailures;
use std::io;
use std::io::Write;

/// What couldn't be written, so that the program ends with status 3.
#[derive(Drop)]
pub enum OutputFailure {
    /// The answer, or what a session or a switch is told before it; and what was lost before that
    /// of what sessions leave.
    Answer {
        error: io::Error,
        lost: WriteFailures,
    },
    /// The answer, since standard output is a file that the job reads or writes. It was told,
    /// where anything is wanted.
    Nowhere,
    /// The line of a setting that stands, and why, where that is known.
    Setting(Option<io::Error>),
    /// What sessions leave: their record, the image, or both. The answer was printed.
    SessionFiles(WriteFailures),
}

impl From<io::Error> for OutputFailure {
    fn from(error: io::Error) -> OutputFailure {
        OutputFailure::Answer {
            error,
            lost: WriteFailures::none(),
        }
    }
}

impl OutputFailure {
    /// Tells it on this stream, as far as it can be written: of what sessions leave first, and
    /// then of the answer.
    pub fn tell<E: Write>(&self, err: &mut E)
        ensures { IsUnwrittenTold self.now (E.contents err.old) (E.contents err.new) }
    {
        match self {
            OutputFailure::Answer { error, lost } => {
                lost.tell(err);
                let _ = err.writeln(format_args!("exchange: the answer can't be written: {error}"));
            }
            OutputFailure::Nowhere => {}
            OutputFailure::Setting(Some(error)) => {
                let _ = err.writeln(format_args!(
                    "exchange: a setting that is set can't be printed: {error}"
                ));
            }
            OutputFailure::Setting(None) => tell_line(
                b"exchange: a setting that is set can't be printed\n",
                err,
            ),
            OutputFailure::SessionFiles(lost) => lost.tell(err),
        }
    }
}

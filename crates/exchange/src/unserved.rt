//! What comes of a job by whose sessions nothing is written.

ghost use Rattle.std.specs.Prelude.{◌≡◌, None};
ghost use Rattle.named_files.specs.Outputs.{AreOpened, begins_with, is_live, no_write_failures};
ghost use Rattle.named_files.specs.Outputs.{output_of, record_of};
ghost use Rattle.exchange.specs.Keeping.{AreKept};

use command_words::Job;
use named_files::{JobFailure, Outputs, Receipts, System, WriteFailures, close_file};
use recorded_sessions::{JobResult, SessionsResult};

/// Closes the files that are open, where nothing went to them.
pub(crate) fn close_outputs<S: System>(
    system: &S,
    job: &Job,
    outputs: Outputs<'_, S::Stream>,
) -> Receipts<S::Receipt>
    requires { AreOpened S.Stream.contents (begins_with (S.holds system.now) (is_live job.now))
        (record_of job.now) (output_of job.now) outputs }
    ensures { AreKept (S.holds system.now) S.received job.now None result }
{
    let Outputs { recorded, image } = outputs;
    Receipts {
        recorded: close_file(system, recorded),
        image: close_file(system, image),
    }
}

/// What comes of a job by whose sessions nothing is written.
pub(crate) fn without_sessions<S: System>(
    system: &S,
    job: &Job,
    end: Result<JobResult, JobFailure>,
    outputs: Outputs<'_, S::Stream>,
) -> SessionsResult<S::Receipt>
    requires { AreOpened S.Stream.contents (begins_with (S.holds system.now) (is_live job.now))
        (record_of job.now) (output_of job.now) outputs }
    ensures end { result.end ≡ end }
    ensures lost { result.lost ≡ no_write_failures }
    ensures unkept { AreKept (S.holds system.now) S.received job.now None result.receipts }
{
    SessionsResult {
        end,
        receipts: close_outputs(system, job, outputs),
        lost: WriteFailures::none(),
        cut: None,
    }
}

//! The program, by what it promises.
//!
//! `main` takes the standard streams, reads the arguments, and hands both to [`answer`], with whose
//! status it ends. The clause of that is what the program promises, over the definitions of
//! `specs/Promises.antt`: who reads these has read what it is proved to do.
//!
//! By its bounds `answer` may wait, and so may `respond`, `print_response`, `run_job` and
//! `run_job_on` below it. These have no loop, and hand on jobs without sessions to `run_text_job`
//! and `run_port_job`, which by their bounds can't wait.

ghost use Rattle.std.specs.Prelude.{◌≡◌, [], IfOk, OnErr};
ghost use Rattle.std.specs.Io.KnownBytes.{Appends};
ghost use Rattle.std.specs.Process.{exit_status};
ghost use Rattle.command_words.specs.Jobs.{texts_of};
ghost use Rattle.exchange.specs.Promises.{KeepsPromises, KeepsUnread, clients_of, saved_by, run_of};
ghost use Rattle.exchange.specs.Promises.{world_of};
ghost use Rattle.exchange.specs.Opened.{files_opened};
ghost use Rattle.session_answers.specs.Passes.{no_passes};
ghost use Rattle.named_files.specs.Notes.{IsToldInPart};

use crate::devices::Devices;
use crate::responding::{ProgramExit, respond};
use drive_answers::Ports;
use named_files::{ProgramRuntime, System};
use std::io;
use std::io::{Read, Write};

/// Does what the arguments ask for, prints what there is to say of it, and gives the status that
/// the program ends with.
///
/// A file that is `-` is read from `input`. What is printed goes to `out`, and what is told beside
/// it to `err`.
pub fn answer<R: ProgramRuntime, S: System, P: Ports, I: Read, O: Write, E: Write>(
    rt: &R,
    system: &S,
    peers: &mut Devices<P, S::Desk, S::Reads>,
    arguments: io::Result<Vec<String>>,
    input: &mut I,
    out: &mut O,
    err: &mut E,
) -> ProgramExit<S::Receipt>
    requires unserved { peers.old.endings.items ≡ [] }
    requires no_passes { S.passes peers.old.desk ≡ no_passes }
    requires unread { S.were_read peers.old.reads ≡ [] }
    ensures arguments { IfOk arguments (λ w. KeepsPromises (S.leads system.now)
        (world_of (run_of (S.holds system.now) (I.remaining input.old)
        (Appends (O.contents out.old) (O.contents out.new)) (texts_of w.items)
        (exit_status result.code))
        (P.ways peers.old.ports) (P.ways peers.new.ports)
        (saved_by S.received result.receipts)
        (clients_of (S.says system.now) (S.had system.now) peers.new.endings.items)
        (files_opened (S.passes peers.new.desk) (S.were_read peers.new.reads)))
        (IsToldInPart (O.contents out.old) (O.contents out.new))) }
    // Where the arguments can't be read as texts.
    ensures none { OnErr arguments (KeepsUnread
        (world_of (run_of (S.holds system.now) (I.remaining input.old)
        (Appends (O.contents out.old) (O.contents out.new)) [] (exit_status result.code))
        (P.ways peers.old.ports) (P.ways peers.new.ports)
        (saved_by S.received result.receipts)
        (clients_of (S.says system.now) (S.had system.now) peers.new.endings.items)
        (files_opened (S.passes peers.new.desk) (S.were_read peers.new.reads)))) }
{
    respond(rt, system, peers, arguments, input, out, err)
}

//! The controller of a rack of transputer modules whose links meet in one crossbar switch or two.
//!
//! Each command reads the files that its arguments name, and prints one answer. Only `main` names
//! the system's own streams and arguments: it hands them to [`answer`], whose clause is what the
//! program promises (`specs/Promises.antt`). That is proved of the contract of `respond`.
//!
//! `respond` prints the answer to the job that the words ask for, by what the files of their names
//! contain and over the ports of their names, or the line that says why there is none; or it ends
//! as for an error of clap (`IsEndFor` of `specs/Ends.antt`, `IsAnswerTo` of
//! `specs/Responses.antt`). Where it ends with status 3, a front of that stands there, or of what
//! is told before it, and fronts of what sessions leave went to the files for that (`IsCutFor`).
//! Else what sessions leave went to the files that `--record` and `--image-out` name, and nothing
//! else did (`AreKept` of `specs/Keeping.antt`). The record of live sessions goes on from what its
//! file held (`BeginsAs` of `recorded_sessions`), and in the end has each entry of which somebody
//! was told. What a live client was told went to the file of its name (`clients_by` of
//! `named_files`). No port was opened but by `drive`, once, by the names of its words (`Ways` of
//! `drive_answers`). Which bytes a file holds, and where names lead, the
//! [`System`](named_files::System) tells: of the real one contracts know none but the bytes of
//! standard input. Beside what it prints for a job, standard error gets at most a front of one text
//! of a refusal, and what is told beside `talk`, `c004`, `host` and `replay`, and beside `plan`,
//! `switch` and `drive` where transfers overlap, and `draw` where a picture is high (`IsNoted` of
//! `specs/Notes.antt`).
#![tactic(auto)]

mod answered;
mod devices;
mod driving;
mod failures;
mod jobs;
mod laws;
mod limits;
mod note_writer;
mod promises;
mod responding;
mod texts;
mod unserved;
mod warned;
mod warnings;

use crate::devices::Devices;
use crate::limits::UNWRITTEN;
use crate::promises::answer;
use crate::responding::ProgramExit;
use named_files::HostPorts;
use session_answers::{NameTrace, PassTrace};
use std::fs::{File, OpenOptions};
use std::io::Write;
use std::os::fd::{AsRawFd, IntoRawFd};
use std::process::ExitCode;
use std::rt::{Env, Files};
use std::{env, io, mem};

fn main(rt: HostRuntime) -> ExitCode {
    if let Err(error) = take_standard(&rt) {
        let err = &mut rt.stderr();
        let _ = err.writeln(format_args!("exchange: nothing can be opened: {error}"));
        return ExitCode::from(UNWRITTEN);
    }
    let arguments = command_line(&rt);
    let mut peers = Devices::new(
        rt.alloc(),
        HostPorts::new(&rt),
        PassTrace::none(),
        NameTrace::none(),
    );
    let ProgramExit { code, receipts: _ } = answer(
        &rt,
        &rt,
        &mut peers,
        arguments,
        &mut rt.reader(),
        &mut io::writer(&rt),
        &mut rt.stderr(),
    );
    code
}

/// The arguments of the command line, the first of which is the program's name.
fn command_line<R: AllocGlobal + Env>(rt: &R) -> io::Result<Vec<String>> {
    Ok(env::args(rt)?.collect(rt.alloc())?)
}

/// This, or the folder `/` where it can't be opened.
fn or_root<R: Files<File = File>>(rt: &R, opened: io::Result<File>) -> io::Result<File> {
    match opened {
        Ok(file) => Ok(file),
        Err(_) => File::open(rt, "/"),
    }
}

/// Sees to it that no file can become standard input, output or error: where one is closed, its
/// number, 0 to 2, is taken by the null device, or by the folder `/` where there is none, so that
/// using it fails. The system gives the lowest number that is free.
fn take_standard<R: Files<File = File>>(rt: &R) -> io::Result<()> {
    for _ in 0..3 {
        let null = OpenOptions::new().write(true).open(rt, "/dev/null");
        let taken = or_root(rt, null)?;
        match taken.as_raw_fd() {
            0 => mem::forget(taken),
            1 | 2 => {
                drop(taken);
                or_root(rt, File::open(rt, "/dev/null"))?.into_raw_fd();
            }
            _ => break,
        }
    }
    Ok(())
}

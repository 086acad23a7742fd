//! How sessions are printed.

ghost use Rattle.std.specs.Prelude.{◌≡◌, ◌≤◌, ◌+◌, ◌++◌, IfOk, OnOk, length, map, vec_len};
ghost use Rattle.std.specs.Prelude.{vec_capacity};
ghost use Rattle.session_answers.specs.Frames.{ended_line, end_line, end_text, sessions_text};
ghost use Rattle.session_answers.specs.Frames.{has_fault};
ghost use Rattle.session_answers.specs.Hosting.{transcript, session_bytes};

use crate::session::ScriptSession;
use batch_book::ExchangeName;
use client_session::ServeFault;
use std::alloc::{AllocError, Global};

/// Room for the line that tells how a session ended, however it ended.
pub const END_ROOM: usize = 20;

/// Puts bytes at the end of a text that has room for them.
pub fn put(text: &mut Vec<u8>, bytes: &[u8])
    requires { vec_len text.old + length bytes.now ≤ vec_capacity text.old }
    ensures items { text.new.items ≡ text.old.items ++ bytes.now }
    ensures room { vec_capacity text.old ≤ vec_capacity text.new }
{
    if text.extend_from_slice(bytes).is_err() {
        unreachable!();
    }
}

/// The line that tells of a fault which ended a session.
fn ended_line(fault: ServeFault) -> &'static [u8]
    ensures line { result.now ≡ ended_line fault }
    ensures room { length result.now ≤ END_ROOM }
{
    match fault {
        ServeFault::Read => b"ended read\n",
        ServeFault::Write => b"ended write\n",
        ServeFault::LineTooLong => b"ended line too long\n",
        ServeFault::Cut => b"ended cut\n",
        ServeFault::Turns => b"ended turns\n",
        ServeFault::NoMemory => b"ended no memory\n",
        ServeFault::Record => b"ended record\n",
    }
}

/// The line that tells which fault ended a session; nothing where none did.
pub fn end_line(fault: Option<ServeFault>) -> &'static [u8]
    ensures line { result.now ≡ end_line fault }
    ensures room { length result.now ≤ END_ROOM }
{
    match fault {
        Some(fault) => ended_line(fault),
        None => b"",
    }
}

/// Puts what is said of a session's end at the end of the text, after what the session was told.
pub fn push_end(
    text: &mut Vec<u8>,
    told: &[u8],
    fault: Option<ServeFault>,
) -> Result<(), AllocError>
    ensures { OnOk result (text.new.items ≡ text.old.items ++ end_text told.now fault) }
{
    let Some(fault) = fault else {
        return Ok(());
    };
    match told.last() {
        Some(last) if *last != b'\n' => text.push(b'\n')?,
        _ => {}
    }
    text.extend_from_slice(ended_line(fault))
}

/// Puts what is printed of a session at the end of the text.
fn push_session<L: ExchangeName>(
    alloc: Global,
    text: &mut Vec<u8>,
    session: &ScriptSession<L>,
) -> Result<(), AllocError>
    ensures { OnOk result (text.new.items ≡ text.old.items ++ session_bytes session.now) }
{
    let number = session.seat.session();
    let heading = format!(in alloc; "session {number}\n")?;
    text.extend_from_slice(heading.as_str().as_bytes())?;
    text.extend_from_slice(session.told.as_slice())?;
    push_end(text, session.told.as_slice(), session.fault)
}

/// What is printed of sessions: for each the line `session I`, what it was told, and where a fault
/// ended it a line that says so.
pub fn frame<L: ExchangeName>(
    alloc: Global,
    sessions: &[ScriptSession<L>],
) -> Result<Vec<u8>, AllocError>
    ensures { IfOk result (λ text. text.items ≡ sessions_text (map transcript sessions.now)) }
{
    let mut text = Vec::new(alloc);
    for session in sessions {
        push_session(alloc, &mut text, session)?;
    }
    Ok(text)
}

/// Whether a fault ended one of the sessions.
pub fn has_fault<L: ExchangeName>(sessions: &[ScriptSession<L>]) -> bool
    ensures { result ≡ has_fault (map transcript sessions.now) }
{
    sessions.iter().any(|session| session.fault.is_some())
}

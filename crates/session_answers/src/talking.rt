//! The command `talk`.

ghost use Rattle.std.specs.Prelude.{◌≡◌, true, List, ℕ, IfOk, IfErr, OnErr};
ghost use Rattle.std.specs.Io.KnownBytes.{Appends};
ghost use Rattle.batch_book.specs.History.{AreUnstopped};
ghost use Rattle.batch_book.specs.Naming.{IsNamed};
ghost use Rattle.client_session.specs.Listening.{TellsOfRefusals};
ghost use Rattle.session_answers.specs.Talking.{HasTalked, IsUntouched};

use crate::closed_sessions::ClosedSessions;
use crate::frames::{END_ROOM, end_line, put};
use crate::plain_exchange::{SessionRuntime, finish, open_exchange, serve_client};
use batch_book::{Book, ExchangeBlank, ExchangeName, History};
use client_session::Listener;
use exchange_limits::WorkerCount;
use progress_word::ALL_PARTS;
use std::alloc::{AllocError, Global};
use std::io::{Read, Write};
use std::marker::Brand;

/// What is left of the session of this reader and this writer, on an exchange over this book.
fn talk<L: ExchangeName, K: History, R: SessionRuntime, I: Read, O: Write, H: Listener>(
    rt: &R,
    alloc: Global,
    blank: ExchangeBlank,
    book: Book<K>,
    reader: &mut I,
    writer: &mut O,
    listener: &mut H,
) -> Result<ClosedSessions<K>, (AllocError, Book<K>)>
    requires named { IsNamed L.name L.parts L.table L.opening L.earlier blank book }
    requires unstopped { AreUnstopped book.history }
    ensures session { (told : List ℕ)
        × Appends (O.contents writer.old) (O.contents writer.new) told
        × IfOk result (λ closing. HasTalked K.loses book (I.remaining reader.old)
        (I.remaining reader.new) told closing.answer closing.book)
        × OnErr result (IsUntouched (I.remaining reader.old) (I.remaining reader.new) told) }
    ensures back { IfErr result (λ back. back.1 ≡ book) }
    ensures beside { TellsOfRefusals H.may_tell (H.told listener.old) (H.told listener.new) }
    ensures unheard { OnErr result (H.told listener.new ≡ H.told listener.old) }
{
    // All memory is taken before the session begins, so that nothing fails after it.
    let Ok(mut line) = Vec::with_capacity(alloc, END_ROOM) else {
        return Err((AllocError, book));
    };
    let one = WorkerCount::ONE;
    let (exchange, mut seats) = match open_exchange::<L, K>(alloc, blank, book, one, 1) {
        Ok(made) => made,
        Err(book) => return Err((AllocError, book)),
    };
    let Some(seat) = seats.pop() else {
        unreachable!()
    };
    let (seat, fault) = serve_client(rt, alloc, &exchange, seat, reader, writer, listener, one);
    seats.push(seat).unwrap();
    put(&mut line, end_line(fault));
    Ok(finish(exchange, seats, line, fault.is_some()))
}

/// What `exchange talk` leaves: one client's session, which is read from the reader, on an exchange
/// over this book, which may have entries. Each of these is durable, and tells of no run that
/// stopped.
///
/// Reply lines are written, and the writer flushed, before more is read, as
/// [`serve`](client_session::serve) tells. The listener hears each command, and each refusal of the
/// session. After a session that ended by itself there is nothing more to print; where a fault
/// ended it a line `ended ..` says so, under the status [`REFUSED`](plan_answers::REFUSED). Want of
/// memory comes before the session alone: then nothing is read or told, and the book comes back as
/// it was.
pub fn talk_on<K: History, R: SessionRuntime, I: Read, O: Write, H: Listener>(
    rt: &R,
    alloc: Global,
    book: Book<K>,
    reader: &mut I,
    writer: &mut O,
    listener: &mut H,
) -> Result<ClosedSessions<K>, (AllocError, Book<K>)>
    requires whole { book.whole ≡ true }
    requires stand { book.durable ≡ book.history }
    requires unstopped { AreUnstopped book.history }
    ensures session { (told : List ℕ)
        × Appends (O.contents writer.old) (O.contents writer.new) told
        × IfOk result (λ closing. HasTalked K.loses book (I.remaining reader.old)
        (I.remaining reader.new) told closing.answer closing.book)
        × OnErr result (IsUntouched (I.remaining reader.old) (I.remaining reader.new) told) }
    ensures back { IfErr result (λ back. back.1 ≡ book) }
    ensures beside { TellsOfRefusals H.may_tell (H.told listener.old) (H.told listener.new) }
    ensures unheard { OnErr result (H.told listener.new ≡ H.told listener.old) }
{
    let Ok(blank) = ExchangeBlank::new(alloc) else {
        return Err((AllocError, book));
    };
    talk::<Brand, K, R, I, O, H>(rt, alloc, blank, book, reader, writer, listener)
}

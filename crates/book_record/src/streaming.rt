//! How a book goes on with a stream, and how it ends with one.

ghost use Rattle.std.specs.Prelude.{◌≡◌, true, length};
ghost use Rattle.batch_book.specs.History.{book_view};
ghost use Rattle.book_record.specs.Streams.{IsWritten};
ghost use Rattle.book_record.specs.Sums.{numbered};

use crate::naming::StreamName;
use crate::stream_history::StreamHistory;
use batch_book::{BareBook, Book, NullHistory};
use std::alloc::Global;
use std::io::Write;

/// The book goes on after its entries, whose number is given: the next ones go to this writer. What
/// the writer holds, and the entries, are those that the stream's name has. If it groups writes,
/// who writes lets others run first; that is for many sessions whose writer waits for a disk.
pub fn attach_stream<W: Write + Send, N: StreamName + Send>(
    alloc: Global,
    book: Book<NullHistory>,
    entries: u64,
    writer: W,
    groups_writes: bool,
) -> Book<StreamHistory<W, N>>
    requires held { W.contents writer ≡ N.held }
    requires earlier { book.history ≡ N.earlier }
    requires entries { entries ≡ numbered (length book.history) }
    ensures { result ≡ book_view book.opening book.history book.history book.machine true }
{
    let (bare, log) = book.part();
    let NullHistory { past } = log;
    Book::go_on(
        bare,
        StreamHistory::resume_after(alloc, past, entries, writer, groups_writes),
    )
}

/// The book without its history, the writer, and the number of entries. The writer has got the text
/// of the entries that were flushed since the stream began, and where the history isn't whole,
/// maybe a front of that of the others too.
pub fn detach_stream<W: Write + Send, N: StreamName + Send>(
    book: Book<StreamHistory<W, N>>,
) -> (BareBook, W, u64)
    ensures opening { result.0.opening ≡ book.opening }
    ensures machine { result.0.machine ≡ book.machine }
    ensures written { IsWritten N.held (W.contents result.1) N.earlier book.durable book.history
        book.whole }
    ensures entries { result.2 ≡ numbered (length book.history) }
{
    let (bare, log) = book.part();
    let (writer, entries) = log.into_writer();
    (bare, writer, entries)
}

//! A whole record.

ghost use Rattle.std.specs.Prelude.{◌≡◌, [], IfOk};
ghost use Rattle.book_record.specs.Heads.{whole_record};

use crate::head::head_text;
use crate::push_history;
use crate::record_prefix::last_lines;
use crate::sum::sum_of;
use batch_book::Book;
use std::alloc::{AllocError, Global};

/// The record of a book whose sessions have all ended, and of whose clients none has a name: the
/// head, the entries of its history, and the last lines. It takes memory, and time, by the image,
/// by the history and by the batches in it.
pub fn write_record(alloc: Global, book: &Book) -> Result<Vec<u8>, AllocError>
    ensures { IfOk result (λ text.
        text.items ≡ whole_record [] book.now.opening book.now.history) }
{
    let opening = book.opening();
    let image = opening.image()?;
    let mut text = head_text(alloc, opening.shape(), sum_of(image.as_slice()), &[])?;
    push_history(&mut text, book)?;
    text.extend_from_slice(last_lines(book.history().len() as u64).as_bytes())?;
    Ok(text)
}

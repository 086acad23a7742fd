//! Books of a small rack, and a record that breaks.

ghost use Rattle.std.specs.Prelude.{◌≡◌, [], true, IfSome};

use batch::Shape;
use batch_book::{Book, History, NullHistory};
use module_memory::Rack;
use std::alloc::{AllocError, Global};
use std::io;
use std::io::Write;
use std::thread::yield_now;

/// A book of a rack of one module with two words.
pub fn small_book(alloc: Global) -> Option<Book<NullHistory>>
    ensures whole { IfSome result (λ book. book.whole ≡ true) }
    ensures empty { IfSome result (λ book. book.history ≡ []) }
    ensures durable { IfSome result (λ book. book.durable ≡ []) }
{
    let Ok(shape) = Shape::new(1, 1, 2) else {
        return None;
    };
    let Ok(rack) = Rack::new(alloc, shape) else {
        return None;
    };
    match Book::with(alloc, rack, NullHistory::new()) {
        Ok(book) => Some(book),
        Err(_) => None,
    }
}

/// Whether this is the image of the book's rack.
pub fn is_left<K: History>(book: &Book<K>, image: &[u8]) -> bool {
    match book.rack().image() {
        Ok(left) => left.as_slice() == image,
        Err(AllocError) => false,
    }
}

/// How often a writing lets other threads run, so that many come to wait for it.
const TURNS: usize = 1000;

/// The writer of a record, which takes its time. So many writings go well, and then one fails.
#[derive(Drop)]
pub struct FailsOnce {
    pub good: usize,
}

impl Write for FailsOnce {
    fn write(&mut self, buf: &[u8]) -> io::Result<usize> {
        for _ in 0..TURNS {
            yield_now();
        }
        if self.good == 0 {
            self.good = usize::MAX;
            return Err(io::ErrorKind::Other.into());
        }
        self.good -= 1;
        Ok(buf.len())
    }

    fn flush(&mut self) -> io::Result<()> {
        Ok(())
    }
}

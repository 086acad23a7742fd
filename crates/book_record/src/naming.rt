//! What names a stream.

use std::marker::Brand;

/// Names a stream, so that a contract can say at any time what its writer has got: what the writer
/// held as the stream began, and the entries that the history had then.
pub trait StreamName {
    ghost use Rattle.std.specs.Prelude.{ℕ, List, Option};
    ghost use Rattle.batch_book.specs.declared.entry.Entry.{Entry};

    ghost held: { Option (List ℕ) };

    ghost earlier: { List Entry };
}

impl StreamName for Brand {
    ghost use Rattle.std.specs.Prelude.{[], None};

    ghost held = { None };

    ghost earlier = { [] };
}

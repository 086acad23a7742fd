//! Laws of messages, and of blocks as stores. They make no call.

ghost use Rattle.peek_poke.specs.Laws.{OthersAreOutside, WordsAreRead, WordsAreWritten, OneReading};

/// A text is that of one list of messages and less than a whole message after them, at most.
pub fn one_reading()
    ensures { OneReading }
{}

/// A block as a store has each of its words at that word's address in the module, and no word of
/// another block.
pub fn blocks()
    ensures read { WordsAreRead }
    ensures written { WordsAreWritten }
    ensures others { OthersAreOutside }
{}

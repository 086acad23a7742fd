//! The limits of racks, batches and their texts. All of them are this project's choice.

/// The most modules that a rack may have.
pub const MAX_MODULES: usize = 32;

/// The most blocks that each module of a rack may have.
pub const MAX_BLOCKS: usize = 64;

/// How many blocks a rack of the most modules has.
pub const MAX_RACK_BLOCKS: usize = MAX_MODULES * MAX_BLOCKS;

/// The most words that each block may have. A word has 32 bits.
pub const MAX_WORDS: usize = 256;

/// The most transfers that a batch may have.
pub const MAX_TRANSFERS: usize = 4096;

/// The most digits that a number of a text may have.
pub const MAX_DIGITS: usize = 9;

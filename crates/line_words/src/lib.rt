//! The words of a line: numbers in decimal digits and words of 32 bits in hexadecimal ones.
//!
//! They are read from the left, each with the rest after it, and put one after another into a
//! [`Line`]. Neither takes memory, so that a reply whose call was made is never lost for want of
//! it.
//!
//! [`Line::put`], [`Line::put_number`], [`Line::put_numbered`] and [`Line::put_hex8`] put just
//! these bytes or digits after what stands there. [`word_from_hex8`] reads eight hexadecimal digits
//! in lower case as the word that they spell, and nothing else (`hex8` of `specs/HexWords.antt`).
//! [`number_and_rest`], [`hex8_and_rest`] and [`rest_after`] read what a line begins with, exactly
//! where it begins so, and [`number_after`] a whole line of a word and its number.
#![tactic(auto)]

mod hex;
mod limits;
mod line;
mod reading;

pub use hex::{hex2_of, hex8_of, word_from_hex8};
pub use limits::{HEX_DIGITS, LINE_ROOM, NUMBER_ROOM};
pub use line::Line;
pub use reading::{hex8_and_rest, number_after, number_and_rest, rest_after};

//! What can go wrong with addresses, with images and with lending.

use thiserror::Error;

/// Why a word can't be read or written. The causes are tested in this order, which is this
/// project's choice.
#[derive(Clone, Copy, Debug, PartialEq, Eq, Error)]
pub enum MemoryFault {
    /// The rack has no such module.
    #[error("no such module")]
    NoModule,
    /// The address is no multiple of four.
    #[error("the address is misaligned")]
    Misaligned,
    /// The address isn't in the module's window.
    #[error("the address is outside the window")]
    Outside,
}

/// Why there is no rack of an image. The number of bytes is looked at first, and memory is asked
/// for last. This is the project's choice.
#[derive(Clone, Copy, Debug, Error)]
pub enum ImageFault {
    /// The image has so many bytes, and the images of the shape have another number.
    #[error("the image has {is} bytes, and {wanted} are wanted")]
    Length { is: usize, wanted: usize },
    /// There was no memory for the words.
    #[error("no memory")]
    NoMemory,
}

/// Why blocks can't be lent. Positions in a list are counted from 0.
///
/// A missing place is looked for first, in the whole list; then a missing held place, in the whole
/// list of these; then a repeated place. Memory is asked for last. This is the project's choice.
#[derive(Clone, Copy, Debug, PartialEq, Eq, Error)]
pub enum LendFault {
    /// The place at this position stands before it too. It is the first such position.
    #[error("place {0} is lent twice")]
    SamePlace(usize),
    /// The rack has no place as at this position. It is the first such position.
    #[error("place {0} does not exist")]
    NoPlace(usize),
    /// The rack has no held place as at this position. It is the first such position.
    #[error("held place {0} does not exist")]
    NoHeld(usize),
    /// There was no memory for the list of bays or for the copies.
    #[error("no memory")]
    NoMemory,
}

use thiserror::Error;

/// Why a transfer wasn't inserted. `Already` is tested first.
#[derive(Clone, Copy, Debug, PartialEq, Eq, Error)]
pub enum InsertFault {
    /// One of the transfer's links is full: the placed transfers that use it have all colours.
    #[error("no room")]
    NoRoom,
    /// The transfer is placed.
    #[error("already")]
    Already,
}

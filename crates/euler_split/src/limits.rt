//! How many places may be paired.

use batch::MAX_TRANSFERS;

/// The most places that are paired at links: two for each transfer that a batch may have.
pub const MAX_PLACES: usize = 2 * MAX_TRANSFERS;

//! How a word is parted.

use exchange_limits::MAX_SESSIONS;

/// How many parts a word has. Each watcher has one at least, so there are never more watchers than
/// parts, and each session of an exchange may have one.
pub const ALL_PARTS: usize = MAX_SESSIONS;

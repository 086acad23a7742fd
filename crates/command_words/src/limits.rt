//! The limits of the command line, and the program's version.

use batch::MAX_MODULES;
use exchange_limits::MAX_SESSIONS;

/// The most clients that are served at once, and so the most scripts: each has a session, and an
/// exchange has as many at most.
pub const MAX_CLIENTS: usize = MAX_SESSIONS;

/// The last module that a rack may have.
pub(crate) const LAST_MODULE: usize = MAX_MODULES - 1;

/// The largest number that a line of a text may have, and so no schedule has as many settings and
/// one more.
pub(crate) const MAX_NUMBER: usize = 999_999_999;

/// The program's version.
pub(crate) const VERSION: &str = "1.0.0";

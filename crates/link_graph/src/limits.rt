//! The number of links of the widest rack.

use batch::MAX_MODULES;

/// How many links of modules there are: a link 0 and a link 3 of each module that a rack may have.
pub const LINKS: usize = 2 * MAX_MODULES;

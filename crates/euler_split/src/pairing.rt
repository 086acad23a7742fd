//! Pairing places at each link.

ghost use Rattle.std.specs.Prelude.{◌≡◌, ℕ, ◌<◌, ◌≤◌, length, None, Some, slice_index_or};
ghost use Rattle.euler_split.specs.Pairs.{HasCome};

use crate::limits::MAX_PLACES;
use batch::MAX_MODULES;

/// Lets a place wait at a module's link, or pairs it with the one that waits there. Where all
/// places come in their order, they are paired at each link two by two, and the last of an odd
/// number has no partner.
pub fn wait_or_pair(
    waiting: &mut [Option<u16>; MAX_MODULES],
    partners: &mut [Option<u16>],
    module: usize,
    place: usize,
)
    requires link { «module» < MAX_MODULES }
    requires within { place < length partners.old }
    requires few { length partners.old ≤ MAX_PLACES }
    requires earlier { (w : ℕ) → slice_index_or waiting.old «module» None ≡ Some w → w < place }
    ensures { HasCome «module» place waiting.old partners.old waiting.new partners.new }
{
    match waiting[module] {
        None => waiting[module] = Some(place as u16),
        Some(earlier) => {
            partners[usize::from(earlier)] = Some(place as u16);
            partners[place] = Some(earlier);
            waiting[module] = None;
        }
    }
}

//! Masks of modules: a bit for each.

ghost use Rattle.std.specs.Prelude.{◌≡◌, ◌<◌, true};
ghost use Rattle.link_graph.specs.Masks.{has_bit};

use batch::MAX_MODULES;

/// A mask of modules for each module.
pub type Masks = [u32; MAX_MODULES];

/// The least module of a mask that has any.
pub fn lowest(mask: u32) -> usize
    requires { 0 < mask }
    ensures within { result < MAX_MODULES }
    ensures has { has_bit mask result ≡ true }
{
    mask.trailing_zeros() as usize
}

/// Whether a module is in a mask.
pub fn has_module(mask: u32, module: usize) -> bool
    requires { «module» < MAX_MODULES }
    ensures { result ≡ has_bit mask «module» }
{
    mask >> module & 1 == 1
}

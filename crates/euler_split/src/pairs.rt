//! Pairs of a link 0 and a link 3, as masks.

ghost use Rattle.std.specs.Prelude.{◌≡◌, ℕ, ◌<◌, true, false, sum};
ghost use Rattle.link_graph.specs.Masks.{has_pair};
ghost use Rattle.euler_split.specs.Masks.{toggled, AreMirrored, AreToggled};

use batch::MAX_MODULES;
use link_graph::Masks;

/// Takes a pair of modules out where the masks have it, and else puts it in. Without it the masks
/// are less, as numbers.
pub(crate) fn toggle(masks: &mut Masks, module: usize, other: usize)
    requires module { «module» < MAX_MODULES }
    requires other { other < MAX_MODULES }
    ensures toggled { AreToggled masks.old masks.new «module» other }
    ensures less { has_pair masks.old «module» other ≡ true → sum masks.new < sum masks.old }
{
    masks[module] ^= 1u32 << other;
}

/// Pairs of a link 0 and a link 3, each at most once.
#[derive(Drop)]
pub(crate) struct Pairs {
    /// For each module the modules whose links 3 are paired with its link 0.
    pub(crate) zero: Masks,
    /// For each module the modules whose links 0 are paired with its link 3.
    pub(crate) three: Masks,
    ghost mirrored: { AreMirrored zero three },
}

impl Pairs {
    /// No pairs.
    pub(crate) fn none() -> Pairs
        ensures { (u v : ℕ) → has_pair result.zero u v ≡ false }
    {
        Pairs {
            zero: [0; MAX_MODULES],
            three: [0; MAX_MODULES],
        }
    }

    /// Takes a pair out where it is one of these, and else puts it in.
    pub(crate) fn toggle(&mut self, zero: usize, three: usize)
        requires zero_in { zero < MAX_MODULES }
        requires three_in { three < MAX_MODULES }
        ensures toggled { AreToggled self.old.zero self.new.zero zero three }
        ensures less { has_pair self.old.zero zero three ≡ true
            → sum self.new.zero < sum self.old.zero }
    {
        toggle(&mut self.zero, zero, three);
        toggle(&mut self.three, three, zero);
    }
}

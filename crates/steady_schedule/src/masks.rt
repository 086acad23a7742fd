//! Masks of modules.

ghost use Rattle.std.specs.Prelude.{◌≡◌, ◌≢◌, ◌<◌, ℕ, true, false, ◌||◌, ◌==◌};
ghost use Rattle.link_graph.specs.Masks.{has_bit};

use batch::MAX_MODULES;
use link_graph::lowest;

/// In which order modules are tried.
#[derive(Clone, Copy)]
pub(crate) enum TrialOrder {
    Rising,
    Falling,
}

/// How the steps of a plan are made.
#[derive(Clone, Copy)]
pub(crate) struct PlanWay {
    /// In which order the modules of each end are tried.
    pub(crate) order: TrialOrder,
    /// How many links are looked at for each transfer, at most, while steps are sought that use up
    /// as many pairs as they can.
    pub(crate) looks: usize,
}

/// So many looks take less time than a plan of the other ways, and few batches gain by more.
const LOOKS: usize = 8;

/// The ways in which plans are made, of which the best is taken. The two orders are each other's
/// reverse, so their plans differ most.
pub(crate) const PLAN_WAYS: [PlanWay; 3] = [
    PlanWay {
        order: TrialOrder::Rising,
        looks: 0,
    },
    PlanWay {
        order: TrialOrder::Falling,
        looks: 0,
    },
    PlanWay {
        order: TrialOrder::Rising,
        looks: LOOKS,
    },
];

/// The first module of a mask that has any.
pub(crate) fn first(mask: u32, order: TrialOrder) -> usize
    requires { 0 < mask }
    ensures within { result < MAX_MODULES }
    ensures has { has_bit mask result ≡ true }
{
    match order {
        TrialOrder::Rising => lowest(mask),
        TrialOrder::Falling => MAX_MODULES - 1 - mask.leading_zeros() as usize,
    }
}

/// The first module of a mask that has any, among those that are preferred where it has some of
/// them; no contract says so.
pub(crate) fn first_of(mask: u32, preferred: u32, order: TrialOrder) -> usize
    requires { 0 < mask }
    ensures within { result < MAX_MODULES }
    ensures has { has_bit mask result ≡ true }
{
    let better = mask & preferred;
    if better > 0 {
        return first(better, order);
    }
    first(mask, order)
}

/// The mask with a module more, where it hadn't it.
pub(crate) fn with_module(mask: u32, module: usize) -> u32
    requires { «module» < MAX_MODULES }
    ensures { (m : ℕ) → has_bit result m ≡ (has_bit mask m || «module» == m) }
{
    mask | 1u32 << module
}

/// The mask without a module that it has.
pub(crate) fn without_module(mask: u32, module: usize) -> u32
    requires low { «module» < MAX_MODULES }
    requires has { has_bit mask «module» ≡ true }
    ensures out { has_bit result «module» ≡ false }
    ensures others { (m : ℕ) → m ≢ «module» → has_bit result m ≡ has_bit mask m }
    ensures less { result < mask }
{
    mask ^ 1u32 << module
}

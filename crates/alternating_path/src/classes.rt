//! The colour classes of a colouring.

ghost use Rattle.std.specs.Prelude.{◌≡◌, ℕ, ◌+◌, ◌<◌, ◌≤◌, ◌++◌, ◌∷◌, [], length, Some, IfOk, OnOk};
ghost use Rattle.link_graph.specs.Schedules.{lists_of};
ghost use Rattle.alternating_path.specs.Colouring.{colour_at};
ghost use Rattle.alternating_path.specs.Classes.{AreClassesOf, EachStandsOnce, with_pushed};

use batch::MAX_MODULES;
use std::alloc::{AllocError, Global};
use step_count::Steps;

/// Puts a transfer at the end of list `k`.
fn push_into(lists: &mut Vec<Vec<usize>>, k: usize, t: usize) -> Result<(), AllocError>
    requires { k < length (lists_of lists.old.items) }
    ensures { OnOk result (lists_of lists.new.items ≡ with_pushed (lists_of lists.old.items) k t) }
{
    lists[k].push(t)?;
    Ok(())
}

/// Puts a transfer into a new list after the others, with room for this many.
fn push_alone(
    alloc: Global,
    lists: &mut Vec<Vec<usize>>,
    t: usize,
    room: usize,
) -> Result<(), AllocError>
    ensures { OnOk result (lists_of lists.new.items ≡ lists_of lists.old.items ++ (t ∷ []) ∷ []) }
{
    let mut alone = Vec::with_capacity(alloc, room)?;
    alone.push(t)?;
    lists.push(alone)?;
    Ok(())
}

/// The classes that hold something. Each stands where its least number comes first.
///
/// Each list has room for twice as many as a class has on average, so that few have to be moved.
pub(crate) fn classes(
    alloc: Global,
    colour: &[Option<usize>],
    colours: usize,
    steps: &mut Steps,
) -> Result<Vec<Vec<usize>>, AllocError>
    requires { (t c : ℕ) → colour_at colour.now t ≡ Some c → c < colours }
    ensures classes { IfOk result (λ lists. AreClassesOf colour.now (lists_of lists.items)) }
    ensures once { IfOk result (λ lists. EachStandsOnce colour.now (lists_of lists.items)) }
    ensures count { IfOk result (λ lists. length (lists_of lists.items) ≤ colours) }
    ensures cost { steps.new ≤ steps.old + colours + length colour.now }
{
    let room = MAX_MODULES.min(2 * colour.len() / colours.max(1));
    let mut lists = Vec::new(alloc);
    steps.tick_many(colours);
    let mut list_of_colour = vec![in alloc; None; colours]?;
    for t in 0..colour.len() {
        steps.tick();
        let Some(c) = colour[t] else {
            continue;
        };
        if let Some(k) = list_of_colour[c] {
            push_into(&mut lists, k, t)?;
            continue;
        }
        list_of_colour[c] = Some(lists.len());
        push_alone(alloc, &mut lists, t, room)?;
    }
    Ok(lists)
}

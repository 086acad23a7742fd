//! Whether blocks can be lent.

ghost use Rattle.std.specs.Prelude.{length, MatchOption};
ghost use Rattle.module_memory.specs.Lending.{AreLendable, DifferBefore, ExistBefore};
ghost use Rattle.module_memory.specs.Lending.{IsFirstMissing, IsFirstRepeated, IsLendFault};

use crate::address::find_block;
use crate::fault::LendFault;
use batch::{MAX_RACK_BLOCKS, Place, Shape, widest_index};

/// The first place that the shape hasn't.
fn first_missing(shape: Shape, places: &[Place]) -> Option<usize>
    ensures { MatchOption result
        (ExistBefore shape places.now (length places.now))
        (IsFirstMissing shape places.now) }
{
    for (i, place) in places.iter().enumerate() {
        if find_block(shape, *place).is_none() {
            return Some(i);
        }
    }
    None
}

/// The first place that stands before too. The shape has all of them.
fn first_repeated(shape: Shape, places: &[Place]) -> Option<usize>
    requires { ExistBefore shape places.now (length places.now) }
    ensures { MatchOption result
        (DifferBefore places.now (length places.now))
        (IsFirstRepeated places.now) }
{
    let mut taken = [false; MAX_RACK_BLOCKS];
    for i in 0..places.len() {
        let index = widest_index(places[i]);
        if taken[index] {
            return Some(i);
        }
        taken[index] = true;
    }
    None
}

/// Why these places can't be lent while others are held, memory aside.
pub fn lend_fault(shape: Shape, places: &[Place], held: &[Place]) -> Option<LendFault>
    ensures { MatchOption result
        (AreLendable shape places.now × ExistBefore shape held.now (length held.now))
        (IsLendFault shape places.now held.now) }
{
    if let Some(i) = first_missing(shape, places) {
        return Some(LendFault::NoPlace(i));
    }
    if let Some(i) = first_missing(shape, held) {
        return Some(LendFault::NoHeld(i));
    }
    if let Some(i) = first_repeated(shape, places) {
        return Some(LendFault::SamePlace(i));
    }
    None
}

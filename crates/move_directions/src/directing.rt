//! Directions for moves.

ghost use Rattle.std.specs.Prelude.{◌≡◌, ◌≤◌, ◌*◌, ℕ, length, slice_index_or, None, IfOk};
ghost use Rattle.euler_split.specs.Deals.{in_left};
ghost use Rattle.move_directions.specs.Directions.{directed, AreDirected, HalvesEnds, NeedsFewest};
ghost use Rattle.move_directions.specs.Ends.{HalvesModules};
ghost use Rattle.move_directions.specs.Moves.{Directs, IsMoveList};

use crate::ends::{join, pair_at_modules};
use crate::moves::{Move, MoveList};
use batch::{Batch, Kind, MAX_TRANSFERS, Transfer};
use euler_split::halve;
use std::alloc::{AllocError, Global};

/// The transfer that does a move, started by the move's source or else by its destination.
fn directed(next: &Move, from_source: bool) -> Transfer
    ensures { result ≡ directed next.now from_source }
{
    let (kind, own, far) = if from_source {
        (Kind::Push, next.source, next.destination)
    } else {
        (Kind::Pull, next.destination, next.source)
    };
    Transfer {
        kind,
        initiator: own.module,
        own_block: own.block,
        responder: far.module,
        far_block: far.block,
    }
}

/// The transfers that do the moves, each of them started by that of its ends that is in the left
/// half.
fn transfers(
    alloc: Global,
    moves: &[Move],
    halves: &[Option<bool>],
) -> Result<Vec<Transfer>, AllocError>
    requires sized { length halves.now ≡ 2 * length moves.now }
    requires few { length moves.now ≤ MAX_TRANSFERS }
    requires halves { HalvesModules moves.now (in_left halves.now) }
    ensures { IfOk result (λ all.
        AreDirected moves.now (in_left halves.now) (length moves.now) all.items) }
{
    let mut transfers = Vec::with_capacity(alloc, moves.len())?;
    for (t, next) in moves.iter().enumerate() {
        transfers.push(directed(next, halves[2 * t].unwrap_or(false)))?;
    }
    Ok(transfers)
}

/// Puts each end into a half, by cells for each that hold nothing yet.
fn halve_ends(
    moves: &[Move],
    at_modules: &mut [Option<u16>],
    of_moves: &mut [Option<u16>],
    halves: &mut [Option<bool>],
)
    requires list { IsMoveList moves.now }
    requires modules_sized { length at_modules.old ≡ 2 * length moves.now }
    requires moves_sized { length of_moves.old ≡ 2 * length moves.now }
    requires halves_sized { length halves.old ≡ 2 * length moves.now }
    requires modules_empty { (place : ℕ) → slice_index_or at_modules.old place None ≡ None }
    requires moves_empty { (place : ℕ) → slice_index_or of_moves.old place None ≡ None }
    requires halves_empty { (place : ℕ) → slice_index_or halves.old place None ≡ None }
    ensures { HalvesModules moves.now (in_left halves.new) }
{
    pair_at_modules(moves, at_modules);
    join(moves.len(), of_moves);
    halve(at_modules, of_moves, halves);
}

/// The half of each end, so that the two ends of a move are in different ones, and half of the ends
/// at each module are in each, but for one.
fn halved_ends(alloc: Global, moves: &[Move]) -> Result<Vec<Option<bool>>, AllocError>
    requires { IsMoveList moves.now }
    ensures sized { IfOk result (λ halves. length halves.items ≡ 2 * length moves.now) }
    ensures halves { IfOk result (λ halves. HalvesModules moves.now (in_left halves.items)) }
{
    let ends = 2 * moves.len();
    let mut at_modules = vec![in alloc; None; ends]?;
    let mut of_moves = vec![in alloc; None; ends]?;
    let mut halves = vec![in alloc; None; ends]?;
    halve_ends(moves, &mut at_modules, &mut of_moves, &mut halves);
    Ok(halves)
}

/// A batch that does just these moves, in their order, by directions that need the fewest settings:
/// each link is used by at most half of the ends at its module, rounded up. So a shortest schedule,
/// as planning gives it, has half as many settings as there are ends at the busiest module, rounded
/// up, and no other directions have a schedule of fewer.
///
/// Euler walks go along a move from end to end, and at each module from an end to the one that it
/// is paired with; the ends that they meet start a transfer and answer one in turn (Petersen 1891).
/// Takes time and room that grow with the number of moves.
pub fn direct(alloc: Global, moves: &MoveList) -> Result<Batch, AllocError>
    ensures moves { IfOk result (λ batch. Directs moves.now batch) }
    ensures halved { IfOk result (λ batch. HalvesEnds moves.now batch) }
    ensures fewest { IfOk result (λ batch. NeedsFewest moves.now batch) }
{
    let halves = halved_ends(alloc, moves.as_slice())?;
    let transfers = transfers(alloc, moves.as_slice(), &halves)?;
    Ok(Batch::of(transfers))
}

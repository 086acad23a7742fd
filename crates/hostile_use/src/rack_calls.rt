//! The calls of batches and racks that take no memory.

use crate::marks::{begin, end};
use crate::met::Met;
use crate::rows::{FIRST, TWO_PUSHES, TWO_PUSHES_SHAPE, WRITTEN, batch, is_marked, marked};
use batch::{Batch, Place};
use module_memory::Rack;

/// A call on row two-pushes.
#[derive(Clone, Copy)]
pub enum RackCall {
    /// `Parted::rejoin`.
    Rejoin,
    /// The calls of batches and racks that look, mark, read and write.
    Look,
}

/// Makes a call on the marked rack of the row.
pub fn make<R: AllocGlobal + Eprint>(rt: &R, call: RackCall) -> Option<Met> {
    match call {
        RackCall::Rejoin => rejoin(rt),
        RackCall::Look => look(rt),
    }
}

/// A marked rack that was parted and has rejoined, the second between the marks.
fn rejoined<R: AllocGlobal + Eprint>(rt: &R) -> Option<Rack> {
    let rack = marked(rt.alloc(), TWO_PUSHES_SHAPE)?;
    let Ok(parted) = rack.part(&WRITTEN, &[]) else {
        return None;
    };
    begin(rt);
    let rack = parted.rejoin();
    end(rt);
    Some(rack)
}

/// `Parted::rejoin` on row two-pushes.
fn rejoin<R: AllocGlobal + Eprint>(rt: &R) -> Option<Met> {
    let rack = rejoined(rt)?;
    Some(Met::row_if(is_marked(rt.alloc(), &rack, TWO_PUSHES_SHAPE)))
}

/// Whether a batch is that of row two-pushes, by the calls that look at it.
fn looks_right(batch: &Batch, same: &Batch) -> bool {
    batch.len() == 2
        && batch.first_overlap().is_none()
        && batch.transfer(1) == same.transfer(1)
        && batch == same
        && batch.iter().count() == 2
}

/// Whether a rack can be marked, read and written.
fn works(rack: &mut Rack) -> bool {
    rack.mark();
    let place = Place {
        module: 1,
        block: 0,
    };
    let read = rack.read(1, FIRST);
    let written = rack.write(1, FIRST, 7);
    let block = rack.block(place);
    read == Ok(0x0001_0000) && written == Ok(()) && block == Some([7, 0x0001_0001].as_slice())
}

/// Looks at a batch and works on a rack, between the marks.
fn look_between<R: Eprint>(rt: &R, batch: &Batch, same: &Batch, rack: &mut Rack) -> Met {
    begin(rt);
    let is_right = looks_right(batch, same) && works(rack);
    end(rt);
    Met::row_if(is_right)
}

/// Looks at a batch, beside the same batch and a rack.
fn look_beside<R: AllocGlobal + Eprint>(rt: &R, batch: &Batch, same: &Batch) -> Option<Met> {
    let mut rack = marked(rt.alloc(), TWO_PUSHES_SHAPE)?;
    Some(look_between(rt, batch, same, &mut rack))
}

/// Looks at a batch, beside the same batch.
fn look_at<R: AllocGlobal + Eprint>(rt: &R, one: &Batch) -> Option<Met> {
    let same = batch(rt.alloc(), TWO_PUSHES)?;
    look_beside(rt, one, &same)
}

/// The calls of batches and racks that look, mark, read and write.
fn look<R: AllocGlobal + Eprint>(rt: &R) -> Option<Met> {
    let one = batch(rt.alloc(), TWO_PUSHES)?;
    look_at(rt, &one)
}

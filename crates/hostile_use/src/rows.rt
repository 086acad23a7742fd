//! The texts of the worked rows, and what is made of them.

use batch::{Batch, Place, Shape};
use exchange_limits::WorkerCount;
use module_memory::Rack;
use schedule_certificate::{OpenGate, Planned, schedule};
use std::alloc::Global;
use std::thread::Threads;

/// Row three-transfers.
pub const THREE_TRANSFERS: &str = "batch 3\npush 0 0 1 0\npush 0 1 2 0\npush 1 1 2 1\n";

/// The batch of rows first-fit-loses, split-of-four and table-of-four: transfers 0 and 3 have a
/// common link, and so have 3 and 2, and 2 and 1.
pub const FOUR: &str = "batch 4\npush 0 0 0 1\npush 1 0 1 1\npush 1 1 2 0\npush 0 2 2 1\n";

/// Row two-pushes, for the shape [`TWO_PUSHES_SHAPE`].
pub const TWO_PUSHES: &str = "batch 2\npush 0 0 1 0\npush 1 1 2 0\n";

/// The shape on which row two-pushes is run.
pub const TWO_PUSHES_SHAPE: &str = "3x2x2";

/// The blocks that row two-pushes writes.
pub const WRITTEN: [Place; 2] = [
    Place {
        module: 1,
        block: 0,
    },
    Place {
        module: 2,
        block: 0,
    },
];

/// Row swap: both blocks are held sources.
pub const SWAP: &str = "batch 2\npush 0 0 1 0\npush 1 0 0 0\n";

/// The shape on which row swap is run.
pub const SWAP_SHAPE: &str = "2x1x1";

/// The batch of row book-limits.
pub const ONE_PUSH: &str = "batch 1\npush 0 0 1 0\n";

/// The shape on which row book-limits is run.
pub const ONE_PUSH_SHAPE: &str = "2x1x1";

/// The batch of row book-limits whose plan is a stranger's.
pub const OTHER_PUSH: &str = "batch 1\npush 1 0 0 0\n";

/// The address of the first word of block 0.
pub const FIRST: u32 = 0x8000_0800;

/// The batch of a text.
pub fn batch(alloc: Global, text: &str) -> Option<Batch> {
    Batch::read(alloc, text.as_bytes(), Shape::WIDEST).ok()
}

/// The plan of a batch text.
pub fn plan<R: AllocGlobal + Threads + Sync>(rt: &R, text: &str) -> Option<Planned> {
    let batch = batch(rt.alloc(), text)?;
    schedule(rt, rt.alloc(), batch, WorkerCount::ONE, &OpenGate).ok()
}

/// A rack of the shape of a text, each of whose words tells where it stands.
pub fn marked(alloc: Global, shape: &str) -> Option<Rack> {
    let shape = Shape::read(shape.as_bytes()).ok()?;
    let mut rack = Rack::new(alloc, shape).ok()?;
    rack.mark();
    Some(rack)
}

/// Whether a rack is a marked rack of this shape.
pub fn is_marked(alloc: Global, rack: &Rack, shape: &str) -> bool {
    match marked(alloc, shape) {
        Some(wanted) => rack.is_same(&wanted),
        None => false,
    }
}

/// Whether this is the batch of a text.
pub fn is_batch(alloc: Global, found: &Batch, text: &str) -> bool {
    match batch(alloc, text) {
        Some(wanted) => *found == wanted,
        None => false,
    }
}

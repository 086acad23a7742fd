//! Racks.

use batch::Shape;
use module_memory::Rack;
use std::alloc::Global;

/// A rack of a shape of these numbers, each of whose words tells where it stands.
pub fn marked_rack(alloc: Global, modules: usize, blocks: usize, words: usize) -> Option<Rack> {
    let shape = Shape::new(modules, blocks, words).ok()?;
    let mut rack = Rack::new(alloc, shape).ok()?;
    rack.mark();
    Some(rack)
}

ghost use Rattle.std.specs.Prelude.{◌≡◌, [], ◌∷◌, codes};
ghost use Rattle.batch.specs.Text.{batch_text};
ghost use Rattle.batch.specs.ShapeView.{extent, widest};
ghost use Rattle.batch.specs.ShapeText.{shape_text};
ghost use Rattle.batch.specs.Rows.{pull, three_transfers, three_transfers_text};

use super::prints::{are_printed, prints};
use super::texts::{THREE_TRANSFERS, read};
use batch::{
    BatchFault, MAX_BLOCKS, MAX_DIGITS, MAX_MODULES, MAX_TRANSFERS, MAX_WORDS, ShapeFault,
};
use std::alloc::Global;

/// The definitions give the texts of worked rows.
fn the_definitions_spell_the_rows()
    ensures three_transfers { batch_text three_transfers ≡ three_transfers_text }
    ensures empty_batch { batch_text [] ≡ codes "batch 0\n" }
    ensures pull { batch_text (pull 13 63 0 10 ∷ []) ≡ codes "batch 1\npull 13 63 0 10\n" }
    ensures shape { shape_text (extent 3 2 2) ≡ codes "3x2x2" }
    ensures widest_shape { shape_text widest ≡ codes "32x64x256" }
{}

/// Whether two batch texts have the same transfers.
fn are_equal(alloc: Global, one: &str, other: &str) -> Option<bool> {
    let one = read(alloc, one)?;
    let other = read(alloc, other)?;
    Some(one == other)
}

/// Whether the batch of a text is written by the same text.
fn is_written_again(alloc: Global, text: &str) -> Option<bool> {
    let batch = read(alloc, text)?;
    let written = batch.write().ok()?;
    Some(written.as_slice() == text.as_bytes())
}

#[test]
fn three_transfers(rt: HostRuntime) {
    assert!(rt; is_written_again(rt.alloc(), THREE_TRANSFERS) == Some(true));
}

#[test]
fn batches_are_compared(rt: HostRuntime) {
    let pull = "batch 1\npull 0 0 1 0\n";
    let alloc = rt.alloc();
    let are_told_apart = are_equal(alloc, THREE_TRANSFERS, THREE_TRANSFERS) == Some(true)
        && are_equal(alloc, THREE_TRANSFERS, pull) == Some(false)
        && are_equal(alloc, "batch 1\npush 0 0 1 0\n", pull) == Some(false);
    assert!(rt; are_told_apart);
}

#[test]
fn sizes_have_numbers(rt: HostRuntime) {
    let are_shapes = MAX_MODULES == 32 && MAX_BLOCKS == 64 && MAX_WORDS == 256;
    assert!(rt; are_shapes && MAX_TRANSFERS == 4096 && MAX_DIGITS == 9);
}

const FAULTS: &[(BatchFault, &str)] = &[
    (BatchFault::Line(2), "line 2"),
    (BatchFault::TooMany, "too many"),
    (BatchFault::NoModule(0), "no module 0"),
    (BatchFault::NoBlock(7), "no block 7"),
    (BatchFault::Count, "count"),
    (BatchFault::NoMemory, "no memory"),
];

#[test]
fn faults_are_printed(rt: HostRuntime) {
    let alloc = rt.alloc();
    assert!(rt; are_printed(alloc, FAULTS) && prints(alloc, &ShapeFault::BadShape, "bad shape"));
}

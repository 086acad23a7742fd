//! What a completed run reports.

ghost use Rattle.std.specs.Prelude.{◌≡◌, ◌<◌, IfOk, OnOk};
ghost use Rattle.batch.specs.ShapeView.{IsShape};
ghost use Rattle.batch.specs.Places.{HasPlace};
ghost use Rattle.rack_answers.specs.Reports.{words_text, block_head as head_of, block_text};
ghost use Rattle.rack_answers.specs.Reports.{module_text, changes_text, report_of, Adds};

use crate::spaced::push_spaced;
use batch::{Batch, Place, WrittenBlocks};
use line_words::{HEX_DIGITS, Line, hex8_of};
use module_memory::Rack;
use setting_runner::line_bits;
use std::alloc::{AllocError, Global};

/// Puts words at the end of the text, each after a space and as eight hexadecimal digits.
fn push_words(text: &mut Vec<u8>, words: &[u32]) -> Result<(), AllocError>
    ensures { OnOk result (Adds text.old text.new (words_text words.now)) }
{
    text.reserve(words.len().saturating_mul(1 + HEX_DIGITS))?;
    for word in words {
        push_spaced(text, &hex8_of(*word))?;
    }
    Ok(())
}

/// The line of a block, up to its words.
fn block_head(place: Place) -> Line
    ensures { result ≡ head_of place }
{
    let mut head = Line::new();
    head.put(b"block ");
    head.put_number(place.module as u64);
    head.put(b" ");
    head.put_number(place.block as u64);
    head
}

/// Puts the line of a block at the end of the text, where the batch writes it.
fn push_block(
    text: &mut Vec<u8>,
    rack: &Rack,
    written: &WrittenBlocks,
    module: usize,
    block: usize,
) -> Result<(), AllocError>
    requires shape { IsShape rack.now.shape }
    requires place { HasPlace rack.now.shape (record { «module» = «module»; block = block }) }
    ensures { OnOk result
        (Adds text.old text.new (block_text written.now rack.now «module» block)) }
{
    let place = Place { module, block };
    if !written.has(place) {
        return Ok(());
    }
    let Some(words) = rack.block(place) else {
        unreachable!();
    };
    text.extend_from_slice(block_head(place).as_bytes())?;
    push_words(text, words)?;
    text.extend_from_slice(b"\n")
}

/// Puts the lines of a module's blocks at the end of the text, as far as the batch writes them.
fn push_module(
    text: &mut Vec<u8>,
    rack: &Rack,
    written: &WrittenBlocks,
    module: usize,
) -> Result<(), AllocError>
    requires { «module» < rack.now.shape.modules }
    ensures { OnOk result (Adds text.old text.new (module_text written.now rack.now «module»)) }
{
    for block in 0..rack.shape().blocks() {
        push_block(text, rack, written, module, block)?;
    }
    Ok(())
}

/// Puts the line of so many changes at the end of the text, where there is such a number.
fn push_changes(alloc: Global, text: &mut Vec<u8>, changes: Option<usize>) -> Result<(), AllocError>
    ensures { OnOk result (Adds text.old text.new (changes_text changes)) }
{
    if let Some(changes) = changes {
        let line = format!(in alloc; "changes {changes}\n")?;
        text.extend_from_slice(line.as_bytes())?;
    }
    Ok(())
}

/// The report of a run that placed the blocks of a batch in so many settings and left the rack: how
/// much was done, how often the switch changed, where that is told, and the words of each block
/// that the batch writes, by module and then by block.
///
/// Takes time that grows with the number of transfers, of blocks, and of words written.
pub fn report(
    alloc: Global,
    rack: &Rack,
    batch: &Batch,
    settings: usize,
    changes: Option<usize>,
) -> Result<Vec<u8>, AllocError>
    ensures { IfOk result (λ text. text.items ≡ report_of batch.now settings changes rack.now) }
{
    let shape = rack.shape();
    let words = batch.len() * shape.words();
    let bits = line_bits(words as u64);
    let mut text = format!(in alloc;
        "ran settings {settings} words {words} bits {bits}\n"
    )?.into_bytes();
    push_changes(alloc, &mut text, changes)?;
    let written = batch.written_blocks();
    for module in 0..shape.modules() {
        push_module(&mut text, rack, &written, module)?;
    }
    Ok(text)
}

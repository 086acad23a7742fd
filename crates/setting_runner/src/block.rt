//! The words of one transfer.

ghost use Rattle.std.specs.Prelude.{◌≡◌, ◌≤◌, ◌<◌, ◌↔◌, length};
ghost use Rattle.batch.specs.Places.{HasPlace, source_of};
ghost use Rattle.module_memory.specs.declared.address.TheConstants.{HOLD_START};
ghost use Rattle.module_memory.specs.Address.{address_from};
ghost use Rattle.module_memory.specs.Lending.{found_in};
ghost use Rattle.setting_runner.specs.Carried.{HasCarried, pulled, pushed, sent, window_of};
ghost use Rattle.setting_runner.specs.Moves.{ReadsFound, moved_into};

use batch::{Kind, Place, Shape, Transfer};
use module_memory::{Bay, HOLD_START, Rest, WINDOW_START, WORD_BYTES};
use peek_poke::{Answerer, HeldStore, RestStore, Wire, WordStore, laws, pull_word, push_word};

/// Moves the words of a transfer into its bay until its wire fails, and says how many have moved.
pub fn move_block<W: Wire>(wire: &mut W, rest: &Rest, transfer: Transfer, bay: &mut Bay) -> usize
    requires source_exists { HasPlace rest.now.store.shape (source_of transfer) }
    requires source_here { length (found_in rest.now (source_of transfer))
        ≡ rest.now.store.shape.words }
    requires bay_exists { HasPlace rest.now.store.shape bay.old.place }
    requires bay_width { length bay.old.words ≡ rest.now.store.shape.words }
    ensures place { bay.new.place ≡ bay.old.place }
    ensures words { bay.new.words ≡
        moved_into result (found_in rest.now (source_of transfer)) bay.old.words }
    ensures at_most { result ≤ rest.now.store.shape.words }
    ensures sure { W.never_fails wire.old → result ≡ rest.now.store.shape.words }
    // What went over the wire is the words' messages, one after the other.
    ensures carried { HasCarried
        (sent transfer.kind (window_of rest.now (source_of transfer)) rest.now.store.shape
        bay.old.place.block (source_of transfer).block (found_in rest.now (source_of transfer)))
        rest.now.store.shape.words result (W.carried wire.old) (W.carried wire.new) }
    // All words have moved just where the wire hasn't failed, and fewer just where it has.
    ensures whole { (result ≡ rest.now.store.shape.words)
        ↔ (W.failures wire.new ≡ W.failures wire.old) }
    ensures short { (result < rest.now.store.shape.words)
        ↔ (W.failures wire.old < W.failures wire.new) }
{
    match transfer.kind {
        Kind::Push => push_block(wire, rest, transfer.source(), bay),
        Kind::Pull => pull_block(wire, rest, transfer.source(), bay),
    }
}

/// The address of a word of a block, in a window that begins at an address.
fn address_in(window: u32, shape: Shape, block: usize, word: usize) -> u32
    requires window { window ≤ HOLD_START }
    requires block { block < shape.blocks }
    requires word { word < shape.words }
    ensures { result ≡ address_from window shape block word }
{
    let number = block * shape.words() + word;
    window + WORD_BYTES * number as u32
}

/// The words that a transfer finds at its source: those of the copy where the block is held, else
/// the block's.
fn found_words(rest: &Rest, source: Place) -> &[u32]
    requires { HasPlace rest.now.store.shape source }
    ensures { result.now ≡ found_in rest.now source }
{
    if let Some(words) = rest.held_block(source) {
        return words;
    }
    rest.block(source).unwrap()
}

/// Pokes the words of a block into a bay until the wire fails, and says how many have moved.
fn push_block<W: Wire>(wire: &mut W, rest: &Rest, source: Place, bay: &mut Bay) -> usize
    requires source_exists { HasPlace rest.now.store.shape source }
    requires source_here { length (found_in rest.now source) ≡ rest.now.store.shape.words }
    requires bay_exists { HasPlace rest.now.store.shape bay.old.place }
    requires bay_width { length bay.old.words ≡ rest.now.store.shape.words }
    ensures place { bay.new.place ≡ bay.old.place }
    ensures words { bay.new.words ≡ moved_into result (found_in rest.now source) bay.old.words }
    ensures at_most { result ≤ rest.now.store.shape.words }
    ensures sure { W.never_fails wire.old → result ≡ rest.now.store.shape.words }
    // What went over the wire is the words' messages, one after the other.
    ensures carried { HasCarried
        (pushed rest.now.store.shape bay.old.place.block (found_in rest.now source))
        rest.now.store.shape.words result (W.carried wire.old) (W.carried wire.new) }
    // All words have moved just where the wire hasn't failed, and fewer just where it has.
    ensures whole { (result ≡ rest.now.store.shape.words)
        ↔ (W.failures wire.new ≡ W.failures wire.old) }
    ensures short { (result < rest.now.store.shape.words)
        ↔ (W.failures wire.old < W.failures wire.new) }
{
    laws::blocks();
    let shape = rest.shape();
    let block = bay.place().block;
    let words = found_words(rest, source);
    let mut answerer = Answerer::new();
    for j in 0..shape.words() {
        let word = words[j];
        let address = address_in(WINDOW_START, shape, block, j);
        if push_word(wire, &mut answerer, bay, address, word).is_err() {
            return j;
        }
    }
    shape.words()
}

/// Peeks the words of a block and sets them in a bay until the wire fails, and says how many have
/// moved. A held block is peeked in the hold window.
fn pull_block<W: Wire>(wire: &mut W, rest: &Rest, source: Place, bay: &mut Bay) -> usize
    requires source_exists { HasPlace rest.now.store.shape source }
    requires source_here { length (found_in rest.now source) ≡ rest.now.store.shape.words }
    requires bay_width { length bay.old.words ≡ rest.now.store.shape.words }
    ensures place { bay.new.place ≡ bay.old.place }
    ensures words { bay.new.words ≡ moved_into result (found_in rest.now source) bay.old.words }
    ensures at_most { result ≤ rest.now.store.shape.words }
    ensures sure { W.never_fails wire.old → result ≡ rest.now.store.shape.words }
    // What went over the wire is the words' messages, one after the other.
    ensures carried { HasCarried
        (pulled (window_of rest.now source) rest.now.store.shape source.block
        (found_in rest.now source))
        rest.now.store.shape.words result (W.carried wire.old) (W.carried wire.new) }
    // All words have moved just where the wire hasn't failed, and fewer just where it has.
    ensures whole { (result ≡ rest.now.store.shape.words)
        ↔ (W.failures wire.new ≡ W.failures wire.old) }
    ensures short { (result < rest.now.store.shape.words)
        ↔ (W.failures wire.old < W.failures wire.new) }
{
    laws::blocks();
    if let Some(mut store) = HeldStore::of(rest, source) {
        return pull_words(wire, &mut store, HOLD_START, rest, source, bay);
    }
    let mut store = RestStore::of(rest, source);
    pull_words(wire, &mut store, WINDOW_START, rest, source, bay)
}

/// Peeks the words of a block from a store, in a window that begins at an address, and sets them in
/// a bay until the wire fails, and says how many have moved.
fn pull_words<W: Wire, S: WordStore>(
    wire: &mut W,
    store: &mut S,
    window: u32,
    rest: &Rest,
    source: Place,
    bay: &mut Bay,
) -> usize
    requires window { window ≤ HOLD_START }
    requires reads { ReadsFound (S.read_gives store.old) window rest.now source }
    requires source_exists { HasPlace rest.now.store.shape source }
    requires source_here { length (found_in rest.now source) ≡ rest.now.store.shape.words }
    requires bay_width { length bay.old.words ≡ rest.now.store.shape.words }
    ensures place { bay.new.place ≡ bay.old.place }
    ensures words { bay.new.words ≡ moved_into result (found_in rest.now source) bay.old.words }
    ensures at_most { result ≤ rest.now.store.shape.words }
    ensures sure { W.never_fails wire.old → result ≡ rest.now.store.shape.words }
    ensures carried { HasCarried
        (pulled window rest.now.store.shape source.block (found_in rest.now source))
        rest.now.store.shape.words result (W.carried wire.old) (W.carried wire.new) }
    ensures whole { (result ≡ rest.now.store.shape.words)
        ↔ (W.failures wire.new ≡ W.failures wire.old) }
    ensures short { (result < rest.now.store.shape.words)
        ↔ (W.failures wire.old < W.failures wire.new) }
{
    let shape = rest.shape();
    let mut answerer = Answerer::new();
    for j in 0..shape.words() {
        let address = address_in(window, shape, source.block, j);
        match pull_word(wire, &mut answerer, store, address) {
            Ok(word) => bay.set(j, word),
            Err(_) => return j,
        }
    }
    shape.words()
}

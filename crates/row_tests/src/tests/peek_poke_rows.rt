//! The worked rows of messages, named sizes and printed faults. What goes over wires is tested in
//! `runs`.

use super::prints::{are_printed, prints};
use super::racks::marked_rack;
use batch::Place;
use module_memory::{MemoryFault, Rack, Rest};
use peek_poke::{
    AnswerFault, Answerer, HeldStore, PEEK, PEEK_BYTES, POKE, POKE_BYTES, REPLY_BYTES, StoreFault,
    Window, WireFault, WordStore, peek_bytes, poke_bytes,
};
use std::alloc::Global;

/// Whether an answering end takes these bytes, and answers none of them.
fn takes<S: WordStore>(answerer: &mut Answerer, store: &mut S, bytes: &[u8]) -> bool {
    for byte in bytes {
        if answerer.feed(store, *byte) != Ok(None) {
            return false;
        }
    }
    true
}

/// Whether an answering end answers none of the bytes of a message but the last, and that one so.
fn answers<S: WordStore>(
    answerer: &mut Answerer,
    store: &mut S,
    bytes: &[u8],
    last: u8,
    reply: [u8; REPLY_BYTES],
) -> bool {
    takes(answerer, store, bytes) && answerer.feed(store, last) == Ok(Some(reply))
}

/// Whether a new answering end takes these bytes, and refuses the next one for this fault.
fn refuses<S: WordStore>(store: &mut S, bytes: &[u8], next: u8, fault: AnswerFault) -> bool {
    let mut answerer = Answerer::new();
    takes(&mut answerer, store, bytes) && answerer.feed(store, next) == Err(fault)
}

/// The only module of a rack `1x1xW`.
fn only_module(alloc: Global, words: usize) -> Option<Window> {
    let rack = marked_rack(alloc, 1, 1, words)?;
    Window::of(rack, 0).ok()
}

/// Whether a word is poked and then peeked by an answering end, which is at rest then.
fn is_poked_and_peeked(store: &mut Window) -> bool {
    let mut answerer = Answerer::new();
    takes(
        &mut answerer,
        store,
        &[0, 0, 8, 0, 0x80, 0x78, 0x56, 0x34, 0x12],
    ) && answers(
        &mut answerer,
        store,
        &[1, 0, 8, 0],
        0x80,
        [0x78, 0x56, 0x34, 0x12],
    ) && answerer.at_rest()
}

/// Whether that is so in a rack `1x1x1`, and the rack has the word then.
fn rack_has_poked_word(alloc: Global) -> bool {
    match only_module(alloc, 1) {
        Some(mut store) => {
            let moved = is_poked_and_peeked(&mut store);
            store.into_rack().read(0, 0x8000_0800) == Ok(0x1234_5678) && moved
        }
        None => false,
    }
}

#[test]
fn poke_then_peek(rt: HostRuntime) {
    assert!(rt; rack_has_poked_word(rt.alloc()));
}

/// That just these bytes go over a wire, and for a pull those of the word after them, is in the
/// contracts of `push_word` and `pull_word`.
#[test]
fn words_go_as_messages(rt: HostRuntime) {
    let is_poked = poke_bytes(0x8000_0804, 0x1234_5678)
        == [0, 4, 8, 0, 0x80, 0x78, 0x56, 0x34, 0x12];
    assert!(rt; is_poked && peek_bytes(0x8000_0804) == [1, 4, 8, 0, 0x80]);
}

/// Whether an answering end refuses a boot, and then all bytes.
fn refuses_to_boot(store: &mut Window) -> bool {
    let mut answerer = Answerer::new();
    answerer.feed(store, 2) == Err(AnswerFault::Boot(2))
        && answerer.feed(store, 0) == Err(AnswerFault::Failed)
        && !answerer.at_rest()
}

/// Whether the second word of a module `1x1x2` is poked, and what lies after it or between the two
/// is refused.
fn faults_are_answered(store: &mut Window) -> bool {
    takes(&mut Answerer::new(), store, &[0, 4, 8, 0, 0x80, 1, 0, 0, 0])
        && refuses(store, &[0, 8, 8, 0, 0x80, 1, 0, 0], 0, AnswerFault::Outside)
        && refuses(store, &[1, 1, 8, 0], 0x80, AnswerFault::Misaligned)
        && store.read_word(0x8000_0804) == Ok(1)
}

/// Whether that is so of a new rack, and it refuses to boot.
fn has_answerer_faults(alloc: Global) -> bool {
    match only_module(alloc, 2) {
        Some(mut store) => faults_are_answered(&mut store) && refuses_to_boot(&mut store),
        None => false,
    }
}

#[test]
fn answerer_faults(rt: HostRuntime) {
    assert!(rt; has_answerer_faults(rt.alloc()));
}

#[test]
fn messages_have_their_sizes(rt: HostRuntime) {
    let are_sizes = POKE_BYTES == 9 && PEEK_BYTES == 5 && REPLY_BYTES == 4;
    assert!(rt; POKE == 0 && PEEK == 1 && are_sizes);
}

const ANSWER_FAULTS: &[(AnswerFault, &str)] = &[
    (AnswerFault::Boot(2), "no bootstrap is taken, of 2 bytes"),
    (AnswerFault::Failed, "the answering end has failed"),
];

#[test]
fn faults_are_printed(rt: HostRuntime) {
    let alloc = rt.alloc();
    let are_all_printed = are_printed(alloc, ANSWER_FAULTS)
        && prints(
            alloc,
            &StoreFault::Outside,
            "the address is outside the store",
        )
        && prints(alloc, &WireFault, "the wire failed");
    assert!(rt; are_all_printed);
}

/// The only block of module 1 of a rack `2x1x1`.
const HELD: Place = Place {
    module: 1,
    block: 0,
};

/// Whether that block of a marked rack is peeked in the hold window alone.
fn is_held_in_window(rest: &Rest) -> bool {
    match HeldStore::of(rest, HELD) {
        Some(mut store) => {
            answers(
                &mut Answerer::new(),
                &mut store,
                &[1, 0, 8, 1],
                0x80,
                [0, 0, 1, 0],
            ) && refuses(&mut store, &[1, 0, 8, 0], 0x80, AnswerFault::Outside)
        }
        None => false,
    }
}

/// Whether that is so where the block is lent and held.
fn is_lent_and_held(rack: Rack) -> bool {
    match rack.part(&[HELD], &[HELD]) {
        Ok(parted) => is_held_in_window(&parted.rest),
        Err(_) => false,
    }
}

/// Whether that is so of a new rack, which has no word in the hold window.
fn has_hold_window(alloc: Global) -> bool {
    match marked_rack(alloc, 2, 1, 1) {
        Some(rack) => {
            let outside = rack.read(1, 0x8001_0800) == Err(MemoryFault::Outside);
            is_lent_and_held(rack) && outside
        }
        None => false,
    }
}

#[test]
fn hold_window(rt: HostRuntime) {
    assert!(rt; has_hold_window(rt.alloc()));
}

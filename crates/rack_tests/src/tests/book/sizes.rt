//! The number after each named size, and what faults are told as.

use batch_book::{ALL_PARTS, BookRefusal, MAX_BATCHES, MAX_ENTRIES, RUN_STEP, SharedFault};
use module_memory::MemoryFault;
use std::alloc::Global;
use std::fmt::Display;

#[test]
fn named_sizes(rt: HostRuntime) {
    assert!(rt; MAX_BATCHES == 256);
    assert!(rt; MAX_ENTRIES == 65536);
    assert!(rt; ALL_PARTS == 16);
    assert!(rt; RUN_STEP == 8192);
}

/// Whether a fault is told so.
fn is_told<F: Display>(alloc: Global, fault: &F, want: &str) -> bool {
    match format!(in alloc; "{fault}") {
        Ok(text) => text.as_str() == want,
        Err(_) => false,
    }
}

const TOLD: [(BookRefusal, &str); 8] = [
    (BookRefusal::HistoryFull, "history full"),
    (BookRefusal::BookFull, "book full"),
    (BookRefusal::Unknown, "unknown"),
    (BookRefusal::Unplanned, "unplanned"),
    (BookRefusal::Stranger, "stranger"),
    (BookRefusal::Already, "already"),
    (
        BookRefusal::Memory(MemoryFault::NoModule),
        "memory: no such module",
    ),
    (BookRefusal::NoMemory, "no memory"),
];

#[test]
fn texts(rt: HostRuntime) {
    for (refusal, text) in TOLD {
        assert!(rt; is_told(rt.alloc(), &refusal, text), "{text}");
    }
    let bad = SharedFault::BadSessions;
    assert!(rt; is_told(rt.alloc(), &bad, "sessions must be 1 to 16"));
    assert!(rt; is_told(rt.alloc(), &SharedFault::NoMemory, "no memory"));
}

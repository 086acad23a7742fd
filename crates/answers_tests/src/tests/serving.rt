//! How the end of a session is framed.

use client_session::ServeFault;
use session_answers::push_end;
use std::alloc::Global;

/// Whether this is put after what a session was told, where the fault ended it.
fn is_end(alloc: Global, told: &str, fault: Option<ServeFault>, end: &str) -> bool {
    let mut text = Vec::new(alloc);
    let is_put = push_end(&mut text, told.as_bytes(), fault).is_ok();
    is_put && text.as_slice() == end.as_bytes()
}

/// What a session was told, the fault that ended it, and what is put after: the line of each fault
/// begins a line.
const ENDS: [(&str, Option<ServeFault>, &str); 9] = [
    ("bye\n", None, ""),
    ("", Some(ServeFault::Read), "ended read\n"),
    ("bye\n", Some(ServeFault::Write), "ended write\n"),
    ("word 0000", Some(ServeFault::Write), "\nended write\n"),
    (
        "poked\n",
        Some(ServeFault::LineTooLong),
        "ended line too long\n",
    ),
    ("poked\n", Some(ServeFault::Cut), "ended cut\n"),
    ("poked\n", Some(ServeFault::Turns), "ended turns\n"),
    ("poked\n", Some(ServeFault::NoMemory), "ended no memory\n"),
    ("poked\n", Some(ServeFault::Record), "ended record\n"),
];

#[test]
fn ends_are_framed(rt: HostRuntime) {
    for (told, fault, end) in ENDS {
        assert!(rt; is_end(rt.alloc(), told, fault, end), "{end}");
    }
}

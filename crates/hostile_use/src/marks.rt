//! Marks on standard error around the one call that is tried, so that `tools/hostile/refuse.c`
//! counts the growths of that call alone. Neither mark takes memory.

/// From here on growths count.
pub fn begin<R: Eprint>(rt: &R) {
    let _ = rt.eprint("[");
}

/// Up to here growths count.
pub fn end<R: Eprint>(rt: &R) {
    let _ = rt.eprint("]\n");
}

//! One call that the program `exchange` doesn't make, that is handed a rack or that takes no
//! memory, on the worked row that is named for it: `hostile_use NAME` makes it and says whether its
//! answer is the row's, or want of memory that leaves all as before. Without a name each call is
//! made once.
//!
//! `tools/hostile` runs it while the growths of that one call are refused in turn.
//! `hostile_use clients SHAPE SCRIPT..` serves the scripts side by side, closes their exchange, and
//! prints what each session was told and whether it is closed.
#![tactic(auto)]

mod book_calls;
mod calls;
mod clients;
mod graph_calls;
mod loan_calls;
mod marks;
mod met;
mod plan_calls;
mod plants;
mod rack_calls;
mod rows;

use crate::calls::{CALLS, NamedCall};
use crate::clients::serve_side_by_side;
use std::rt::Files;
use std::sync::Wait;
use std::thread::Threads;
use std::time::Clock;
use std::{env, io};

fn main(rt: HostRuntime) -> io::Result<()> {
    let words = env::args(&rt)?.collect::<Vec<String>>(rt.alloc())?;
    answer(&rt, words.as_slice())
}

/// Does what the words of the command line want.
fn answer<R: AllocGlobal + Clock + Eprint + Files + Print + Threads + Wait + Sync>(
    rt: &R,
    words: &[String],
) -> io::Result<()> {
    match words {
        [_, name, shape, files @ ..] if name.as_str() == "clients" => {
            serve_side_by_side(rt, shape.as_str(), files)
        }
        [_, name, ..] => make_wanted(rt, Some(name.as_str())),
        _ => make_wanted(rt, None),
    }
}

/// Makes a call, and says what was met.
fn make<R: AllocGlobal + Eprint + Print + Threads + Sync>(
    rt: &R,
    name: &str,
    call: NamedCall,
) -> io::Result<()> {
    let met = call.make(rt).map_or("unprepared", |met| met.words());
    println!(rt; "{name}: {met}")
}

/// Makes the call of this name, or each call once where there is no name.
fn make_wanted<R: AllocGlobal + Eprint + Print + Threads + Sync>(
    rt: &R,
    wanted: Option<&str>,
) -> io::Result<()> {
    for (name, call) in &CALLS {
        if *name == wanted.unwrap_or(*name) {
            make(rt, name, *call)?;
        }
    }
    Ok(())
}

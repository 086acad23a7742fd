//! Worked rows of two clients, one after the other: over wires with a fuse, and over shared words
//! and runs.

use super::order::one_script;
use super::served::{Day, NO_FUSE, is_so};
use super::streams::Script;
use peek_poke::FuseWires;
use std::sync::Wait;
use std::thread::Threads;
use std::time::Clock;

/// Whether two clients are served so, one after the other from two seats.
fn are_served<R: AllocGlobal + Clock + Threads + Wait + Sync>(
    rt: &R,
    shape: &'static str,
    wires: FuseWires,
    one: Script,
    other: Script,
) -> bool {
    let plan = Day {
        shape,
        wires,
        is_one_seat: false,
        scripts: [one, other],
    };
    is_so(rt, &plan)
}

/// The wire of transfer 0 carries 14 bytes. Nine bytes move a word, so that the second word is cut.
/// The run takes a number, and its batch can be let go.
#[test]
fn a_wire_that_fails(rt: HostRuntime) {
    let wires = FuseWires {
        transfer: 0,
        bytes: 14,
    };
    let one = Script::of(
        "poke 0 80000800 00000007\npoke 0 80000804 00000008\nbatch 1\npush 0 0 1 0\nplan 1\nrun 1\n\
        show 1\nrun 1\nplan 1\nprogress\n",
        "poked\npoked\naccepted 1\nplanned 1 settings 1\n\
        stopped 1 run 1 setting 0 wire 0 moved 0:1\nbatch 1 transfers 1 stopped\nrefused already\n\
        refused already\nprogress run 1 done 0\n",
        10,
    );
    let other = Script::of(
        "peek 0 80000800\npeek 0 80000804\npeek 1 80000800\npeek 1 80000804\nbatch 0\nplan 2\n\
        run 2\nprogress\n",
        "word 00000007\nword 00000008\nword 00000007\nword 00000000\naccepted 2\n\
        planned 2 settings 0\nran 2 run 2 settings 0 words 0 bits 0\nprogress run 2 done 0\n",
        8,
    );
    assert!(rt; are_served(&rt, "2x1x2", wires, one, other));
}

/// Row second-setting-stops.
#[test]
fn the_second_setting_stops(rt: HostRuntime) {
    let wires = FuseWires {
        transfer: 1,
        bytes: 0,
    };
    let one = Script::of(
        "batch 2\npush 0 0 1 0\npush 0 0 2 0\nplan 1\nrun 1\nprogress\ndrop 1\nshow 1\n",
        "accepted 1\nplanned 1 settings 2\nstopped 1 run 1 setting 1 wire 1 moved 1:0\n\
        progress run 1 done 1\ndropped 1\nrefused unknown\n",
        6,
    );
    let other = Script::of("progress\n", "progress run 1 done 1\n", 0);
    assert!(rt; are_served(&rt, "3x1x1", wires, one, other));
}

#[test]
fn a_stop_of_sixteen_transfers(rt: HostRuntime) {
    let wires = FuseWires {
        transfer: 5,
        bytes: 18,
    };
    let one = Script::of(
        "batch 16\npush 0 0 1 1\npush 1 0 2 1\npush 2 0 3 1\npush 3 0 4 1\npush 4 0 5 1\n\
        push 5 0 6 1\npush 6 0 7 1\npush 7 0 8 1\npush 8 0 9 1\npush 9 0 10 1\npush 10 0 11 1\n\
        push 11 0 12 1\npush 12 0 13 1\npush 13 0 14 1\npush 14 0 15 1\npush 15 0 0 1\nplan 1\n\
        run 1\n",
        "accepted 1\nplanned 1 settings 1\n\
        stopped 1 run 1 setting 0 wire 5 moved 0:256 1:256 2:256 3:256 4:256 5:2 6:256 7:256 8:256 \
        9:256 10:256 11:256 12:256 13:256 14:256 15:256\n",
        4,
    );
    let other = Script::of("progress\n", "progress run 1 done 0\n", 0);
    assert!(rt; are_served(&rt, "16x2x256", wires, one, other));
}

/// The two clients of row one-script, of whom the second looks at the first one's words and
/// progress too, and hands in a batch.
#[test]
fn two_clients(rt: HostRuntime) {
    let other = Script::of(
        "show 1\nplan 1\nrun 1\ndrop 1\npeek 1 80000808\nprogress\nbatch 0\nshow 2\n",
        "refused unknown\nrefused unknown\nrefused unknown\nrefused unknown\nword 000000ff\n\
        progress run 1 done 1\naccepted 2\nbatch 2 transfers 0 waiting\n",
        7,
    );
    assert!(rt; are_served(&rt, "2x2x2", NO_FUSE, one_script(), other));
}

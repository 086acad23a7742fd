//! Reply lines that no client of the program is told.

ghost use Rattle.std.specs.Prelude.{◌≤◌, length};
ghost use Rattle.batch.specs.declared.limits.TheConstants.{MAX_MODULES};
ghost use Rattle.client_session.specs.Steps.{CanBeTold};

use batch::BatchFault;
use batch_book::{BookRefusal, Reading, Reply};
use client_session::reply_line::{ReplyLine, put_stopped};
use line_words::Line;
use refusals::Refusal as Refused;
use setting_runner::{RunRefusal, StopCause};

/// Whether the reply to a command that names batch 12 is told so.
fn is_told(reply: Reply, want: &str) -> bool
    requires { CanBeTold reply }
{
    let mut line = ReplyLine::new();
    line.tell(12, &reply);
    line.as_bytes() == want.as_bytes()
}

/// Whether the fault of a batch text is told so.
fn is_batch_fault(fault: BatchFault, want: &str) -> bool {
    Refused::from(fault).line().as_bytes() == want.as_bytes()
}

/// These have no memory, or a cause that a session doesn't meet.
#[test]
fn refusals(rt: HostRuntime) {
    assert!(rt; is_told(Reply::Refused(BookRefusal::Stranger), "refused stranger\n"));
    assert!(rt; is_told(Reply::Refused(BookRefusal::NoMemory), "refused no memory\n"));
    assert!(rt; is_told(Reply::RunRefused(RunRefusal::Shape), "refused shape\n"));
    assert!(rt; is_batch_fault(BatchFault::Count, "refused count\n"));
    assert!(rt; is_batch_fault(BatchFault::NoMemory, "refused no memory\n"));
    assert!(rt; is_batch_fault(BatchFault::Line(4097), "refused batch line 4097\n"));
}

#[test]
fn great_numbers(rt: HostRuntime) {
    let ran = Reply::Ran {
        run: 65536,
        settings: 4096,
        words: 1_048_576,
    };
    let want = "ran 12 run 65536 settings 4096 words 1048576 bits 122683392\n";
    assert!(rt; is_told(ran, want));
    let reading = Reading {
        run: 65536,
        done: 4096,
    };
    let mut line = ReplyLine::new();
    line.tell_progress(reading);
    assert!(rt; line.as_bytes() == b"progress run 65536 done 4096\n".as_slice());
}

/// Whether a stop of batch 7 in run 2 is told so.
fn is_stopped(setting: usize, cause: StopCause, moved: &[(u16, u16)], want: &str) -> bool
    requires { length moved.now ≤ MAX_MODULES }
{
    let mut line = Line::new();
    put_stopped(&mut line, 7, 2, setting, cause, moved);
    line.as_bytes() == want.as_bytes()
}

#[test]
fn stops(rt: HostRuntime) {
    let moved = [(0, 1)];
    let want = "stopped 7 run 2 setting 0 wire 0 moved 0:1";
    assert!(rt; is_stopped(0, StopCause::Wire(0), &moved, want));
    let moved = [(3, 0), (14, 256)];
    let want = "stopped 7 run 2 setting 4095 port moved 3:0 14:256";
    assert!(rt; is_stopped(4095, StopCause::Port, &moved, want));
    let want = "stopped 7 run 2 setting 1 switch 63 moved 3:0 14:256";
    assert!(rt; is_stopped(1, StopCause::SwitchDisagrees(63), &moved, want));
}

/// As many transfers with numbers of four digits as a setting may have.
const LONGEST: [u16; 32] = [
    1000, 1234, 1500, 1999, 2000, 2222, 2500, 2999, 3000, 3333, 3500, 3999, 4000, 4044, 4078, 4079,
    4080, 4081, 4082, 4083, 4084, 4085, 4086, 4087, 4088, 4089, 4090, 4091, 4092, 4093, 4094, 4095,
];

/// One has moved no word, and the others a whole block.
#[test]
fn longest_stop(rt: HostRuntime) {
    let mut moved = [(0, 256); 32];
    for place in 0..32 {
        moved[place] = (LONGEST[place], 256);
    }
    moved[5] = (2222, 0);
    let want =
        "stopped 7 run 2 setting 4095 wire 2222 moved 1000:256 1234:256 1500:256 1999:256 2000:256 \
        2222:0 2500:256 2999:256 3000:256 3333:256 3500:256 3999:256 4000:256 4044:256 4078:256 \
        4079:256 4080:256 4081:256 4082:256 4083:256 4084:256 4085:256 4086:256 4087:256 4088:256 \
        4089:256 4090:256 4091:256 4092:256 4093:256 4094:256 4095:256";
    assert!(rt; is_stopped(4095, StopCause::Wire(2222), &moved, want));
}

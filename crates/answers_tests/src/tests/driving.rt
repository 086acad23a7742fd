//! Three settings of one switch, driven over a stream whose other end follows a script: how the
//! switch comes up, which bytes it is sent, when it is asked for a reply, and when a setting is
//! told, all in one order. Its modules are wired as usual, or as a board has it.

ghost use Rattle.std.specs.Prelude.{⊤};

use drive_answers::{DriveEnd, DriveFault, PortFailure, PortNames, PortTrace, Ports, answer_drive};
use exchange_limits::WorkerCount;
use plan_answers::{DONE, REFUSED, ScheduleSource};
use refusals::{PortName, Refusal};
use std::alloc::{AllocError, Global};
use std::io;
use std::io::{Read, Write};
use std::sync::atomic::{AtomicBool, AtomicUsize, Ordering};
use std::thread::Threads;
use switch_driver::{DriveObserver, Halt, StreamPort, SwitchStream};

/// Module 0 sends a block to each of three others.
const BATCH: &[u8] = b"batch 3\npush 0 0 1 0\npush 0 0 2 0\npush 0 0 3 0\n";

/// A setting for each.
const SCHEDULE: &[u8] = b"settings 3\nsetting 0\nsetting 1\nsetting 2\n";

/// How many settings these are.
const SETTINGS: usize = 3;

/// How many outputs are asked.
const OUTPUTS: u8 = 32;

/// How many steps there are as a switch comes up whose line is empty: three bytes, three for each
/// join, and three for each enquiry with its answer.
const WAKING: usize = 195;

/// How many steps the first setting has: five bytes, three for each enquiry with its reply, the
/// byte after them, and that it is told.
const FIRST: usize = 103;

/// What a rack is told by, and what its switch is sent and replies.
#[derive(Clone, Copy, Drop)]
struct Rack<'a> {
    /// The text of a board's wiring.
    wiring: Option<&'a [u8]>,
    /// What the switch is sent for each setting.
    sent: [&'a [u8]; SETTINGS],
    /// The output that link 0 of module 0 is on.
    first: u8,
    /// What this output replies in each setting, and which other output is joined to it then.
    joined: [(u8, u8); SETTINGS],
    /// What that other output replies.
    back: u8,
}

/// Link 0 of module 0 is on link 0 of the switch, and link 3 of module M on its link 16 + M.
const USUAL: Rack<'static> = Rack {
    wiring: None,
    sent: [
        &[0x04, 0x01, 0x00, 0x11, 0x03],
        &[0x06, 0x00, 0x11, 0x01, 0x00, 0x12, 0x03],
        &[0x06, 0x00, 0x12, 0x01, 0x00, 0x13, 0x03],
    ],
    first: 0,
    joined: [(0x91, 17), (0x92, 18), (0x93, 19)],
    back: 0x80,
};

/// The wiring of a board.
const WIRING: &[u8] = b"wiring 4\n\
module 0 link 0 at 9 link 3 at 30\n\
module 1 link 0 at 1 link 3 at 22\n\
module 2 link 0 at 17 link 3 at 4\n\
module 3 link 0 at 3 link 3 at 31\n";

/// Link 0 of module 0 is on link 9 of the switch, and link 3 of modules 1, 2 and 3 on its links 22,
/// 4 and 31.
const BOARD: Rack<'static> = Rack {
    wiring: Some(WIRING),
    sent: [
        &[0x04, 0x01, 0x09, 0x16, 0x03],
        &[0x06, 0x09, 0x16, 0x01, 0x09, 0x04, 0x03],
        &[0x06, 0x09, 0x04, 0x01, 0x09, 0x1f, 0x03],
    ],
    first: 9,
    joined: [(0x96, 22), (0x84, 4), (0x9f, 31)],
    back: 0x89,
};

/// What happens at the switch's end of the stream, and at the stage.
#[derive(Clone, Copy, PartialEq, Eq)]
enum Step {
    /// This byte comes.
    Sent(u8),
    /// All is flushed, and this reply is read.
    Heard(u8),
    /// The setting of this number is told.
    Told(usize),
}

/// Which reply of the second setting is another one.
type Lie = Option<(u8, u8)>;

/// What an output of the rack's switch replies, where its first output is so joined.
fn reply_of(rack: &Rack<'_>, output: u8, joined: (u8, u8)) -> u8 {
    if output == rack.first {
        joined.0
    } else if output == joined.1 {
        rack.back
    } else {
        0
    }
}

/// Puts after the other steps what happens as the switch comes up, where these answers stand in
/// its line. After each enquiry a byte is read, and in the end those that are still to come.
fn push_waking(steps: &mut Vec<Step>, old: &[u8]) -> Result<(), AllocError> {
    for byte in [3, 3, 4] {
        steps.push(Step::Sent(byte))?;
    }
    for output in 0..OUTPUTS {
        for byte in [0, output, output] {
            steps.push(Step::Sent(byte))?;
        }
    }
    let ahead = old.len().min(OUTPUTS as usize) as u8;
    for output in 0..OUTPUTS {
        steps.push(Step::Sent(2))?;
        steps.push(Step::Sent(output))?;
        let own = 0x80 | output.saturating_sub(ahead);
        let heard = old.get(output as usize).copied().unwrap_or(own);
        steps.push(Step::Heard(heard))?;
    }
    for output in OUTPUTS.saturating_sub(ahead)..OUTPUTS {
        steps.push(Step::Heard(0x80 | output))?;
    }
    Ok(())
}

/// Puts what happens in a setting after the other steps.
fn push_setting(
    steps: &mut Vec<Step>,
    rack: &Rack<'_>,
    number: usize,
    lie: Lie,
) -> Result<(), AllocError> {
    let (Some(bytes), Some(joined)) = (rack.sent.get(number), rack.joined.get(number)) else {
        return Ok(());
    };
    push_bytes(steps, bytes)?;
    for output in 0..OUTPUTS {
        let reply = match lie {
            Some((liar, reply)) if liar == output && number == 1 => reply,
            _ => reply_of(rack, output, *joined),
        };
        steps.push(Step::Sent(2))?;
        steps.push(Step::Sent(output))?;
        steps.push(Step::Heard(reply))?;
    }
    steps.push(Step::Sent(3))?;
    steps.push(Step::Told(number))?;
    Ok(())
}

/// Puts bytes that are sent after the other steps.
fn push_bytes(steps: &mut Vec<Step>, bytes: &[u8]) -> Result<(), AllocError> {
    for byte in bytes {
        steps.push(Step::Sent(*byte))?;
    }
    Ok(())
}

/// What happens in all three settings.
fn steps_of(alloc: Global, rack: &Rack<'_>, lie: Lie) -> Result<Vec<Step>, AllocError> {
    let mut steps = Vec::new(alloc);
    push_waking(&mut steps, &[])?;
    for number in 0..SETTINGS {
        push_setting(&mut steps, rack, number, lie)?;
    }
    Ok(steps)
}

/// What has happened of a script.
#[derive(Drop)]
struct Desk<'a> {
    script: &'a [Step],
    /// How many steps have been tried.
    at: AtomicUsize,
    /// How many had been when the stream was last flushed.
    flushed: AtomicUsize,
    /// How many ports were asked for.
    opened: AtomicUsize,
    /// Whether something came out of turn.
    is_wrong: AtomicBool,
}

impl<'a> Desk<'a> {
    fn of(script: &'a [Step]) -> Desk<'a> {
        Desk {
            script,
            at: AtomicUsize::new(0),
            flushed: AtomicUsize::new(usize::MAX),
            opened: AtomicUsize::new(0),
            is_wrong: AtomicBool::new(false),
        }
    }

    /// The next step, if the script has one.
    fn next(&self) -> Option<Step> {
        self.script.get(self.at.load(Ordering::SeqCst)).copied()
    }

    /// Tries this step, and says whether it is the next one. At the script's end none is.
    fn make(&self, step: Step) -> bool {
        let wanted = self.next();
        self.at.fetch_add(1, Ordering::SeqCst);
        let is_next = wanted == Some(step);
        if wanted.is_some() && !is_next {
            self.is_wrong.store(true, Ordering::SeqCst);
        }
        is_next
    }

    /// Whether all came in turn, up to the script's end, and no more than one step was tried there.
    fn is_followed(&self) -> bool {
        let is_wrong = self.is_wrong.load(Ordering::SeqCst);
        let tried = self.at.load(Ordering::SeqCst);
        matches!(tried.checked_sub(self.script.len()), Some(0 | 1)) && !is_wrong
    }
}

/// The way from the switch.
#[derive(Clone, Copy, Drop)]
struct FromSwitch<'a> {
    desk: &'a Desk<'a>,
}

impl Read for FromSwitch<'_> {
    fn read(&mut self, buf: &mut [u8]) -> io::Result<usize> {
        let (Some(Step::Heard(reply)), Some(first)) = (self.desk.next(), buf.first_mut()) else {
            self.desk.make(Step::Heard(0));
            // The stream ends after an even number of steps, and fails after an odd one.
            return match self.desk.script.len() % 2 {
                0 => Ok(0),
                _ => Err(io::ErrorKind::BrokenPipe.into()),
            };
        };
        if self.desk.flushed.load(Ordering::SeqCst) != self.desk.at.load(Ordering::SeqCst) {
            self.desk.is_wrong.store(true, Ordering::SeqCst);
        }
        *first = reply;
        self.desk.make(Step::Heard(reply));
        // Nothing was sent since the last flush.
        self.desk
            .flushed
            .store(self.desk.at.load(Ordering::SeqCst), Ordering::SeqCst);
        Ok(1)
    }
}

/// The way to the switch.
#[derive(Clone, Copy, Drop)]
struct ToSwitch<'a> {
    desk: &'a Desk<'a>,
}

impl Write for ToSwitch<'_> {
    fn write(&mut self, buf: &[u8]) -> io::Result<usize> {
        match buf.first() {
            Some(byte) if self.desk.make(Step::Sent(*byte)) => Ok(1),
            _ => Err(io::ErrorKind::BrokenPipe.into()),
        }
    }

    fn flush(&mut self) -> io::Result<()> {
        self.desk
            .flushed
            .store(self.desk.at.load(Ordering::SeqCst), Ordering::SeqCst);
        Ok(())
    }
}

/// The one port to the desk, which may be refused.
#[derive(Drop)]
struct DeskPorts<'a> {
    desk: &'a Desk<'a>,
    is_refused: bool,
    ways: PortTrace,
}

impl<'a> Ports for DeskPorts<'a> {
    type Port = StreamPort<FromSwitch<'a>, ToSwitch<'a>>;

    ghost ways = { λ p. p.ways };

    fn open(&mut self, names: PortNames<'_>) -> Result<Self::Port, Refusal> {
        self.desk.opened.fetch_add(1, Ordering::SeqCst);
        if names.port != "desk" || names.port_b.is_some() {
            self.desk.is_wrong.store(true, Ordering::SeqCst);
        }
        if self.is_refused {
            return Err(Refusal::Port(PortName::A));
        }
        let desk = self.desk;
        let stream = SwitchStream {
            reader: FromSwitch { desk },
            writer: ToSwitch { desk },
        };
        self.ways.open(names);
        Ok(StreamPort::new(stream, None))
    }

    fn take_failure(&mut self) -> Option<PortFailure> {
        None
    }

    fn close(&mut self, port: StreamPort<FromSwitch<'a>, ToSwitch<'a>>) {
        self.ways.give_back(port);
    }
}

/// The stage at the desk: after a setting it says this.
#[derive(Clone, Copy, Drop)]
struct DeskStage<'a> {
    desk: &'a Desk<'a>,
    says: [Result<(), Halt>; 3],
}

impl DriveObserver for DeskStage<'_> {
    ghost use Rattle.std.specs.Prelude.{⊤};

    ghost hears = { λ _ _ _ _ _. ⊤ };

    fn on_setting(&mut self, setting: usize, numbers: &[usize]) -> Result<(), Halt> {
        if numbers != [setting].as_slice() || !self.desk.make(Step::Told(setting)) {
            return Err(Halt::Left);
        }
        self.says.get(setting).copied().unwrap_or(Err(Halt::Left))
    }
}

/// The answer from this setting on, where the desk follows its script, and the stage says this.
fn answer_from<R: AllocGlobal + Threads + Sync>(
    rt: &R,
    desk: &Desk<'_>,
    first: usize,
    says: [Result<(), Halt>; 3],
    is_refused: bool,
    wiring: Option<&[u8]>,
) -> Result<DriveEnd, DriveFault> {
    let mut ports = DeskPorts {
        desk,
        is_refused,
        ways: PortTrace::none(),
    };
    let names = PortNames {
        port: "desk",
        port_b: None,
    };
    let mut stage = DeskStage { desk, says };
    let source = ScheduleSource::Text(SCHEDULE);
    let (alloc, one) = (rt.alloc(), WorkerCount::ONE);
    answer_drive(
        rt, alloc, wiring, BATCH, source, one, first, names, &mut ports, &mut stage,
    )
}

/// Whether the answer is this line, under this status.
fn is_line(end: &Result<DriveEnd, DriveFault>, line: &[u8], status: u8) -> bool {
    matches!(end, Ok(end) if end.answer.text() == line && end.answer.status() == status)
}

const ON: [Result<(), Halt>; 3] = [Ok(()), Ok(()), Ok(())];

/// Whether a drive from this setting on follows these steps, where the stage says this, and its
/// answer is this line, under this status.
fn goes_so<R: AllocGlobal + Threads + Sync>(
    rt: &R,
    steps: &[Step],
    first: usize,
    says: [Result<(), Halt>; 3],
    wiring: Option<&[u8]>,
    line: &[u8],
    status: u8,
) -> bool {
    let desk = Desk::of(steps);
    let answer = answer_from(rt, &desk, first, says, false, wiring);
    let is_line = is_line(&answer, line, status);
    let is_followed = desk.is_followed();
    is_line && is_followed
}

/// How many settings are told in these steps.
fn told_in(steps: &[Step]) -> usize {
    steps
        .iter()
        .filter(|step| matches!(step, Step::Told(_)))
        .count()
}

/// Whether a drive stops where the script ends, after so many steps: at the port, or at the stage
/// where a setting would be told next.
fn stops_behind<R: AllocGlobal + Threads + Sync>(
    rt: &R,
    steps: &[Step],
    count: usize,
) -> Result<bool, AllocError> {
    let alloc = rt.alloc();
    let front = &steps[..count.min(steps.len())];
    let setting = told_in(front);
    let line = match steps.get(count) {
        Some(Step::Told(_)) => format!(in alloc; "left setting {setting}\n")?,
        _ => format!(in alloc; "stopped setting {setting} port\n")?,
    };
    Ok(goes_so(rt, front, 0, ON, None, line.as_bytes(), REFUSED))
}

/// Whether a reply of this output in the second setting that names an input which nothing is on
/// stops the drive there.
fn is_caught<R: AllocGlobal + Threads + Sync>(
    rt: &R,
    rack: &Rack<'_>,
    output: u8,
) -> Result<bool, AllocError> {
    let alloc = rt.alloc();
    let steps = steps_of(alloc, rack, Some((output, 0x93)))?;
    // After the second setting's seven bytes, and the enquiries up to this one, with their replies.
    let count = WAKING + FIRST + 7 + 3 * (output as usize + 1);
    let front = steps.as_slice().get(..count).unwrap_or(&[]);
    let line = format!(in alloc; "stopped setting 1 switch {output}\n")?;
    Ok(goes_so(rt, front, 0, ON, rack.wiring, line.as_bytes(), REFUSED))
}

/// Whether all three settings of a rack are driven in turn.
fn is_in_turn<R: AllocGlobal + Threads + Sync>(
    rt: &R,
    rack: &Rack<'_>,
) -> Result<bool, AllocError> {
    let steps = steps_of(rt.alloc(), rack, None)?;
    let line = b"driven settings 3\n";
    Ok(goes_so(rt, steps.as_slice(), 0, ON, rack.wiring, line, DONE))
}

#[test]
fn in_turn(rt: HostRuntime) {
    for rack in &[USUAL, BOARD] {
        assert!(rt; is_in_turn(&rt, rack) == Ok(true));
    }
}

/// The stream ends or fails after each step in turn, and is tried there once.
#[test]
fn cut_off(rt: HostRuntime) {
    let steps = steps_of(rt.alloc(), &USUAL, None).expect(&rt, "memory");
    for count in 0..steps.len() {
        assert!(rt;
            stops_behind(&rt, steps.as_slice(), count) == Ok(true),
            "{count}"
        );
    }
}

#[test]
fn lied_to(rt: HostRuntime) {
    for output in 0..OUTPUTS {
        assert!(rt; is_caught(&rt, &USUAL, output) == Ok(true), "{output}");
        assert!(rt; is_caught(&rt, &BOARD, output) == Ok(true), "{output}");
    }
}

/// Whether a drive is left at its second setting.
fn is_left<R: AllocGlobal + Threads + Sync>(rt: &R) -> Result<bool, AllocError> {
    let steps = steps_of(rt.alloc(), &USUAL, None)?;
    let front = steps.as_slice().get(..WAKING + FIRST + 105).unwrap_or(&[]);
    let says = [Ok(()), Err(Halt::Left), Ok(())];
    Ok(goes_so(rt, front, 0, says, None, b"left setting 1\n", REFUSED))
}

#[test]
fn left(rt: HostRuntime) {
    assert!(rt; is_left(&rt) == Ok(true));
}

/// Whether a drive ends whose first setting couldn't be told.
fn is_untold<R: AllocGlobal + Threads + Sync>(rt: &R) -> Result<bool, AllocError> {
    let steps = steps_of(rt.alloc(), &USUAL, None)?;
    let desk = Desk::of(steps.as_slice().get(..WAKING + FIRST).unwrap_or(&[]));
    let says = [Err(Halt::Untold), Ok(()), Ok(())];
    let answer = answer_from(rt, &desk, 0, says, false, None);
    let is_followed = desk.is_followed();
    Ok(is_followed && matches!(answer, Err(DriveFault::Untold)))
}

#[test]
fn untold(rt: HostRuntime) {
    assert!(rt; is_untold(&rt) == Ok(true));
}

/// Whether a port that can't be had is asked for once, and nothing is sent.
fn is_refused<R: AllocGlobal + Threads + Sync>(rt: &R) -> bool {
    let desk = Desk::of(&[]);
    let answer = answer_from(rt, &desk, 0, ON, true, None);
    let is_line = is_line(&answer, b"refused port a\n", REFUSED);
    let opened = desk.opened.load(Ordering::SeqCst);
    let is_followed = desk.is_followed();
    is_line && is_followed && opened == 1
}

#[test]
fn refused(rt: HostRuntime) {
    assert!(rt; is_refused(&rt));
}

/// Old answers, as many as a line may have and still be told, and one more.
const OLD: [u8; 32] = [0x85; 32];

/// What happens where so many of the old answers stand in the line, and nothing is to be set.
fn woken_after(alloc: Global, count: usize) -> Result<Vec<Step>, AllocError> {
    let mut steps = Vec::new(alloc);
    push_waking(&mut steps, OLD.get(..count).unwrap_or(&[]))?;
    Ok(steps)
}

/// Whether a drive goes on with its first setting's bytes after so many old answers.
fn comes_up_after<R: AllocGlobal + Threads + Sync>(
    rt: &R,
    count: usize,
) -> Result<bool, AllocError> {
    let mut steps = woken_after(rt.alloc(), count)?;
    push_bytes(&mut steps, &[0x04, 0x01])?;
    let line = b"stopped setting 0 port\n";
    Ok(goes_so(rt, steps.as_slice(), 0, ON, None, line, REFUSED))
}

/// Up to 31 answers that stood in the line are read as the switch comes up.
#[test]
fn comes_up(rt: HostRuntime) {
    for count in 0..32 {
        assert!(rt; comes_up_after(&rt, count) == Ok(true), "{count}");
    }
}

/// What happens where the last byte that is read after an enquiry is 05: an echo would say so.
fn strange_steps(alloc: Global) -> Result<Vec<Step>, AllocError> {
    let mut steps = woken_after(alloc, 32)?;
    steps.truncate(WAKING - 1);
    steps.push(Step::Heard(0x05))?;
    Ok(steps)
}

/// What comes as no switch would answer isn't taken.
#[test]
fn comes_up_to_a_stranger(rt: HostRuntime) {
    let steps = strange_steps(rt.alloc()).expect(&rt, "memory");
    let line = b"stopped setting 0 port\n";
    assert!(rt; goes_so(&rt, steps.as_slice(), 0, ON, None, line, REFUSED));
}

/// What happens from the second setting on, where that is the first to be driven: it is set as from
/// a reset, whatever stood before.
fn later_steps(alloc: Global) -> Result<Vec<Step>, AllocError> {
    let later = Rack {
        sent: [&[], &[0x04, 0x01, 0x00, 0x12, 0x03], USUAL.sent[2]],
        ..USUAL
    };
    let mut steps = Vec::new(alloc);
    push_waking(&mut steps, &[])?;
    push_setting(&mut steps, &later, 1, None)?;
    push_setting(&mut steps, &later, 2, None)?;
    Ok(steps)
}

#[test]
fn taken_up(rt: HostRuntime) {
    let steps = later_steps(rt.alloc()).expect(&rt, "memory");
    let line = b"driven settings 3\n";
    assert!(rt; goes_so(&rt, steps.as_slice(), 1, ON, None, line, DONE));
    let line = b"refused no setting 3\n";
    assert!(rt; goes_so(&rt, &[], 3, ON, None, line, REFUSED));
}

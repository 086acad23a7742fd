ghost use Rattle.std.specs.Prelude.{◌≡◌, ◌≤◌, ◌+◌, ◌++◌, length};
ghost use Rattle.refusals.specs.Refusals.{link_words, memory_words, port_words, refusal_line};
ghost use Rattle.refusals.specs.Refusals.{refusal_words, two_numbers};

use batch::{BatchFault, ShapeFault};
use line_words::{LINE_ROOM, Line};
use link_graph::{CheckFault, Link, ScheduleFault};
use module_memory::{ImageFault, MemoryFault};
use std::alloc::AllocError;

/// Room for the line of a refusal, whatever its numbers are.
pub const REFUSAL_ROOM: usize = 100;

/// Why a command, or a line of a session, isn't done. The lines in docs/REFUSALS.md and
/// docs/SESSIONS.md, and which of them comes first, are this project's choice.
///
/// A line of a text is counted from 1, a transfer, a setting and an entry from 0.
#[derive(Clone, Copy)]
pub enum Refusal {
    /// `batch line N`: this line of the batch is wrong, or has no line feed.
    BatchLine(usize),
    /// `moves line N`: this line of the moves is wrong, or has no line feed.
    MovesLine(usize),
    /// `too many`: more transfers, or moves, are announced than a batch may have.
    TooMany,
    /// `no module T`: this transfer names a module that the rack hasn't.
    NoModule(usize),
    /// `no link T`: this transfer needs a link of a module that the board has, and that isn't on
    /// the switch.
    NoLink(usize),
    /// `no block T`: this transfer names a block that the rack hasn't.
    NoBlock(usize),
    /// `count`: there are fewer lines than announced, or something follows them.
    Count,
    /// `settings`: the text of the settings to draw is no range.
    Settings,
    /// `schedule line N`: this line of the schedule is wrong, missing, or one too many.
    ScheduleLine(usize),
    /// `wiring line N`: this line of the wiring is wrong, missing, or one too many.
    WiringLine(usize),
    /// `no certificate`: the schedule ends before its certificate.
    NoCertificate,
    /// `check unknown T`: a setting holds this number, and the batch has no such transfer.
    CheckUnknown(usize),
    /// `check repeated T`: this transfer stands twice.
    CheckRepeated(usize),
    /// `check missing T`: this transfer stands nowhere.
    CheckMissing(usize),
    /// `check clash S link E module M`: two transfers of this setting use this link.
    CheckClash(usize, Link),
    /// `check wrong link T`: this number is named, and is no transfer that uses the link.
    CheckWrongLink(usize),
    /// `check certificate repeats T`: this transfer is named twice.
    CheckCertificateRepeats(usize),
    /// `check not tight S U`: there are so many settings, and another number of named transfers.
    CheckNotTight { settings: usize, named: usize },
    /// `no setting K`: this setting is to be drawn, or driven from, and is the first that the
    /// schedule hasn't.
    NoSetting(usize),
    /// `shape`: the text isn't that of a shape. A run is refused so too where a transfer of its
    /// plan names a module or a block that the rack hasn't. No batch that a session sends has one,
    /// since it is read for the rack's shape; but one that was handed to the exchange otherwise
    /// can.
    Shape,
    /// `image L W`: the image has so many bytes, and the shape wants another number.
    Image { is: usize, wanted: usize },
    /// `overlap I J`: these two transfers write one block.
    Overlap(usize, usize),
    /// `record head`: the record doesn't begin as one of this rack, these words and these clients.
    RecordHead,
    /// `record sum E`: the sum of this entry, or of the end in its place, isn't that of its number
    /// and its lines.
    RecordSum(usize),
    /// `record call E`: no call stands where that of this entry should.
    RecordCall(usize),
    /// `record reply E`: another line than that of the call's reply stands in this entry.
    RecordReply(usize),
    /// `record more`: something follows the record's last entry.
    RecordMore,
    /// `file`: a file, or standard input, can't be read, or a file to be written can't be opened.
    File,
    /// `ports W`: so many ports are wanted, one for each switch that the batch needs, and another
    /// number is named.
    Ports(usize),
    /// `port a` or `port b`: this port can't be opened.
    Port(PortName),
    /// `threads`: there isn't a thread for each client.
    Threads,
    /// `line`: this is no line of a session.
    Line,
    /// `unknown`: the session has no batch of this number.
    Unknown,
    /// `unplanned`: the batch waits for a plan.
    Unplanned,
    /// `stranger`: the plan is one of another batch.
    Stranger,
    /// `already`: the batch has a plan, or was run.
    Already,
    /// `memory no module` and the like: there is no word at this address.
    Memory(MemoryFault),
    /// `book full`: the exchange keeps as many batches as it may.
    BookFull,
    /// `history full`: the exchange has answered as many calls as it may.
    HistoryFull,
    /// `no memory`: there was no memory.
    NoMemory,
}

/// Which of the ports to switches.
#[derive(Clone, Copy)]
pub enum PortName {
    /// The port that is named first: that to the only switch, or to switch A.
    A,
    /// The port that is named second: that to switch B.
    B,
}

impl From<AllocError> for Refusal {
    ghost use Rattle.std.specs.Prelude.{◌≡◌};
    ghost use Rattle.refusals.specs.declared.refusal.Refusal.TheVariants.{NoMemory};

    ghost from_gives = { λ _ gives. gives ≡ NoMemory };

    fn from(_error: AllocError) -> Refusal {
        Refusal::NoMemory
    }
}

impl From<ShapeFault> for Refusal {
    ghost use Rattle.std.specs.Prelude.{◌≡◌};
    ghost use Rattle.refusals.specs.declared.refusal.Refusal.TheVariants.{Shape};

    ghost from_gives = { λ _ gives. gives ≡ Shape };

    fn from(_fault: ShapeFault) -> Refusal {
        Refusal::Shape
    }
}

impl From<BatchFault> for Refusal {
    ghost use Rattle.std.specs.Prelude.{◌≡◌};
    ghost use Rattle.refusals.specs.Sources.{of_batch};

    ghost from_gives = { λ fault gives. gives ≡ of_batch fault };

    fn from(fault: BatchFault) -> Refusal {
        match fault {
            BatchFault::Line(n) => Refusal::BatchLine(n),
            BatchFault::TooMany => Refusal::TooMany,
            BatchFault::NoModule(t) => Refusal::NoModule(t),
            BatchFault::NoBlock(t) => Refusal::NoBlock(t),
            BatchFault::Count => Refusal::Count,
            BatchFault::NoMemory => Refusal::NoMemory,
        }
    }
}

impl From<ScheduleFault> for Refusal {
    ghost use Rattle.std.specs.Prelude.{◌≡◌};
    ghost use Rattle.refusals.specs.Sources.{of_schedule};

    ghost from_gives = { λ fault gives. gives ≡ of_schedule fault };

    fn from(fault: ScheduleFault) -> Refusal {
        match fault {
            ScheduleFault::Line(n) => Refusal::ScheduleLine(n),
            ScheduleFault::NoMemory => Refusal::NoMemory,
        }
    }
}

impl From<CheckFault> for Refusal {
    ghost use Rattle.std.specs.Prelude.{◌≡◌};
    ghost use Rattle.refusals.specs.Sources.{of_check};

    ghost from_gives = { λ fault gives. gives ≡ of_check fault };

    fn from(fault: CheckFault) -> Refusal {
        match fault {
            CheckFault::Unknown(t) => Refusal::CheckUnknown(t),
            CheckFault::Repeated(t) => Refusal::CheckRepeated(t),
            CheckFault::Missing(t) => Refusal::CheckMissing(t),
            CheckFault::Clash(setting, link) => Refusal::CheckClash(setting, link),
            CheckFault::WrongLink(t) => Refusal::CheckWrongLink(t),
            CheckFault::CertificateRepeats(t) => Refusal::CheckCertificateRepeats(t),
            CheckFault::NotTight(settings, named) => Refusal::CheckNotTight { settings, named },
            CheckFault::NoMemory => Refusal::NoMemory,
        }
    }
}

impl From<ImageFault> for Refusal {
    ghost use Rattle.std.specs.Prelude.{◌≡◌};
    ghost use Rattle.refusals.specs.Sources.{of_image};

    ghost from_gives = { λ fault gives. gives ≡ of_image fault };

    fn from(fault: ImageFault) -> Refusal {
        match fault {
            ImageFault::Length { is, wanted } => Refusal::Image { is, wanted },
            ImageFault::NoMemory => Refusal::NoMemory,
        }
    }
}

impl Refusal {
    /// The line of the refusal, with its line feed.
    pub fn line(self) -> Line
        ensures { result ≡ refusal_line self }
    {
        let mut line = Line::new();
        self.put(&mut line);
        line
    }

    /// Puts the line of the refusal, with its line feed, after what stands there.
    pub fn put(self, line: &mut Line)
        requires { length line.old + REFUSAL_ROOM ≤ LINE_ROOM }
        ensures { line.new ≡ line.old ++ refusal_line self }
    {
        line.put(b"refused ");
        self.put_words(line);
        line.put(b"\n");
    }

    /// Puts what stands after `refused `.
    fn put_words(self, line: &mut Line)
        requires { length line.old + 91 ≤ LINE_ROOM }
        ensures words { line.new ≡ line.old ++ refusal_words self }
        ensures room { length line.new ≤ length line.old + 91 }
    {
        match self {
            Refusal::BatchLine(n) => line.put_numbered(b"batch line ", n),
            Refusal::MovesLine(n) => line.put_numbered(b"moves line ", n),
            Refusal::TooMany => line.put(b"too many"),
            Refusal::NoModule(t) => line.put_numbered(b"no module ", t),
            Refusal::NoLink(t) => line.put_numbered(b"no link ", t),
            Refusal::NoBlock(t) => line.put_numbered(b"no block ", t),
            Refusal::Count => line.put(b"count"),
            Refusal::Settings => line.put(b"settings"),
            Refusal::ScheduleLine(n) => line.put_numbered(b"schedule line ", n),
            Refusal::WiringLine(n) => line.put_numbered(b"wiring line ", n),
            Refusal::NoCertificate => line.put(b"no certificate"),
            Refusal::CheckUnknown(t) => line.put_numbered(b"check unknown ", t),
            Refusal::CheckRepeated(t) => line.put_numbered(b"check repeated ", t),
            Refusal::CheckMissing(t) => line.put_numbered(b"check missing ", t),
            Refusal::CheckClash(setting, link) => {
                line.put_numbered(b"check clash ", setting);
                put_link(line, link);
            }
            Refusal::CheckWrongLink(t) => line.put_numbered(b"check wrong link ", t),
            Refusal::CheckCertificateRepeats(t) => {
                line.put_numbered(b"check certificate repeats ", t);
            }
            Refusal::CheckNotTight { settings, named } => {
                put_two(line, b"check not tight ", settings, named);
            }
            Refusal::NoSetting(k) => line.put_numbered(b"no setting ", k),
            Refusal::Shape => line.put(b"shape"),
            Refusal::Image { is, wanted } => put_two(line, b"image ", is, wanted),
            Refusal::Overlap(i, j) => put_two(line, b"overlap ", i, j),
            Refusal::RecordHead => line.put(b"record head"),
            Refusal::RecordSum(e) => line.put_numbered(b"record sum ", e),
            Refusal::RecordCall(e) => line.put_numbered(b"record call ", e),
            Refusal::RecordReply(e) => line.put_numbered(b"record reply ", e),
            Refusal::RecordMore => line.put(b"record more"),
            Refusal::File => line.put(b"file"),
            Refusal::Ports(wanted) => line.put_numbered(b"ports ", wanted),
            Refusal::Port(name) => put_port(line, name),
            Refusal::Threads => line.put(b"threads"),
            Refusal::Line => line.put(b"line"),
            Refusal::Unknown => line.put(b"unknown"),
            Refusal::Unplanned => line.put(b"unplanned"),
            Refusal::Stranger => line.put(b"stranger"),
            Refusal::Already => line.put(b"already"),
            Refusal::Memory(fault) => put_memory(line, fault),
            Refusal::BookFull => line.put(b"book full"),
            Refusal::HistoryFull => line.put(b"history full"),
            Refusal::NoMemory => line.put(b"no memory"),
        }
    }
}

/// Puts these words and two numbers, with a space between them.
fn put_two(line: &mut Line, words: &[u8], n: usize, m: usize)
    requires { length line.old + (length words.now + 41) ≤ LINE_ROOM }
    ensures text { line.new ≡ line.old ++ (words.now ++ two_numbers n m) }
    ensures room { length line.new ≤ length line.old + (length words.now + 41) }
{
    line.put_numbered(words, n);
    line.put(b" ");
    line.put_number(m as u64);
}

/// Puts a link, by the number of its end and its module.
fn put_link(line: &mut Line, link: Link)
    requires { length line.old + 54 ≤ LINE_ROOM }
    ensures text { line.new ≡ line.old ++ link_words link }
    ensures room { length line.new ≤ length line.old + 54 }
{
    line.put(b" link ");
    line.put_number(link.end.number() as u64);
    line.put(b" module ");
    line.put_number(link.module as u64);
}

/// Puts why there is no word at an address.
fn put_memory(line: &mut Line, fault: MemoryFault)
    requires { length line.old + 20 ≤ LINE_ROOM }
    ensures text { line.new ≡ line.old ++ memory_words fault }
    ensures room { length line.new ≤ length line.old + 20 }
{
    line.put(match fault {
        MemoryFault::NoModule => b"memory no module".as_slice(),
        MemoryFault::Misaligned => b"memory misaligned".as_slice(),
        MemoryFault::Outside => b"memory outside".as_slice(),
    });
}

/// Puts which port it is.
fn put_port(line: &mut Line, name: PortName)
    requires { length line.old + 6 ≤ LINE_ROOM }
    ensures text { line.new ≡ line.old ++ port_words name }
    ensures room { length line.new ≤ length line.old + 6 }
{
    line.put(match name {
        PortName::A => b"port a".as_slice(),
        PortName::B => b"port b".as_slice(),
    });
}

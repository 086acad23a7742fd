//! The commands of the program: the one place that names each, with what it takes.

ghost use Rattle.std.specs.Prelude.{◌≡◌, ◌≢◌, IfNone, IfSome};
ghost use Rattle.command_words.specs.declared.commands.CommandName.{CommandName};
ghost use Rattle.command_words.specs.Program.{arguments_of, command_word};

use crate::help::{
    APPLY, C004, CHECK, CommandHelp, DIRECT, DRAW, DRIVE, HOST, ORDERS, PLAN, REPLAY, RUN, SERVE,
    SWITCH, TALK,
};

/// A command by its name.
#[derive(Clone, Copy)]
pub(crate) enum CommandName {
    Plan,
    Check,
    Draw,
    Switch,
    Orders,
    Drive,
    C004,
    Direct,
    Apply,
    Run,
    Serve,
    Host,
    Talk,
    Replay,
}

/// What a command may take: arguments in capitals, which have to be there, and options, which may
/// be left out.
#[derive(Clone, Copy)]
pub(crate) enum Argument {
    /// `SHAPE`.
    Shape,
    /// `FILE`, a batch's.
    File,
    /// `BATCH`.
    Batch,
    /// `SCHEDULE`.
    Schedule,
    /// `PORT`.
    Port,
    /// `PORT_B`, which may be left out.
    PortB,
    /// `MOVES`.
    Moves,
    /// `IMAGE`.
    Image,
    /// `RECORD`.
    Record,
    /// `SCRIPT..`, from 1 to [`MAX_CLIENTS`](crate::MAX_CLIENTS) arguments.
    Scripts,
    /// `CLIENT..`, as many.
    Clients,
    /// `--shape SHAPE`.
    Shaped,
    /// `--image FILE`.
    ImageIn,
    /// `--record FILE`.
    RecordOut,
    /// `--resume`.
    Resume,
    /// `--sync`.
    Sync,
    /// `--image-out FILE`.
    ImageOut,
    /// `--settings A..B`.
    Settings,
    /// `--prices`.
    Prices,
    /// `--schedule FILE`.
    Scheduled,
    /// `--wiring FILE`.
    Wiring,
    /// `--switches 2`.
    Switches,
    /// `--from K`.
    FromSetting,
    /// `--first E`.
    FirstEntries,
    /// `--module M`.
    Module,
    /// `--steady`.
    Steady,
    /// `--go-on`.
    GoOn,
    /// `--workers N`.
    Workers,
    /// `--quiet`.
    Quiet,
}

use Argument::{
    Batch, Clients, File, FirstEntries, FromSetting, GoOn, Image, ImageIn, ImageOut, Module, Moves,
    Port, PortB, Prices, Quiet, Record, RecordOut, Resume, Schedule, Scheduled, Scripts, Settings,
    Shape, Shaped, Steady, Switches, Sync, Wiring, Workers,
};

/// The word that calls each command, and what it takes, in the order of [`CommandName`].
#[rattlefmt::skip]
static SHEETS: [(&str, &[Argument]); 14] = [
    ("plan", &[File, Steady, Workers, Quiet]),
    ("check", &[Batch, Schedule, Quiet]),
    ("draw", &[Batch, Schedule, Settings, Prices, Quiet]),
    ("switch", &[Batch, Scheduled, Steady, Workers, Wiring, Switches, Quiet]),
    ("orders", &[Batch, Scheduled, Steady, Workers, Module, Quiet]),
    ("drive", &[Batch, Port, PortB, Scheduled, Steady, Workers, Wiring, FromSetting, GoOn, Quiet]),
    ("c004", &[Quiet]),
    ("direct", &[Moves, Quiet]),
    ("apply", &[Shape, Batch, Image, Workers, Quiet]),
    ("run", &[Shape, Batch, ImageIn, Scheduled, Steady, Workers, Quiet]),
    ("serve", &[Shape, Scripts, ImageIn, RecordOut, ImageOut, Workers, Quiet]),
    ("host", &[Shape, Clients, ImageIn, RecordOut, Resume, Sync, ImageOut, Workers, Quiet]),
    ("talk", &[Shape, ImageIn, RecordOut, Resume, Sync, ImageOut, Quiet]),
    ("replay", &[Record, Shaped, ImageIn, FirstEntries, Quiet]),
];

impl CommandName {
    /// All commands, in the order in which the program's help lists them.
    pub(crate) const ALL: [CommandName; 14] = [
        CommandName::Plan,
        CommandName::Check,
        CommandName::Draw,
        CommandName::Switch,
        CommandName::Orders,
        CommandName::Drive,
        CommandName::C004,
        CommandName::Direct,
        CommandName::Apply,
        CommandName::Run,
        CommandName::Serve,
        CommandName::Host,
        CommandName::Talk,
        CommandName::Replay,
    ];

    /// The command that this word calls, if one does.
    pub(crate) fn of(word: &str) -> Option<CommandName>
        ensures some { IfSome result (λ name. command_word name ≡ word.now) }
        ensures none { IfNone result ((name : CommandName) → command_word name ≢ word.now) }
    {
        for name in &CommandName::ALL {
            if name.sheet().0 == word {
                return Some(*name);
            }
        }
        None
    }

    /// The word that calls it, and what it takes, in this order.
    pub(crate) fn sheet(self) -> (&'static str, &'static [Argument])
        ensures word { result.0.now ≡ command_word self }
        ensures arguments { result.1.now ≡ arguments_of self }
    {
        SHEETS[self as usize]
    }

    /// What its help says.
    pub(crate) fn help(self) -> &'static CommandHelp {
        match self {
            Self::Plan => &PLAN,
            Self::Check => &CHECK,
            Self::Draw => &DRAW,
            Self::Switch => &SWITCH,
            Self::Orders => &ORDERS,
            Self::Drive => &DRIVE,
            Self::C004 => &C004,
            Self::Direct => &DIRECT,
            Self::Apply => &APPLY,
            Self::Run => &RUN,
            Self::Serve => &SERVE,
            Self::Host => &HOST,
            Self::Talk => &TALK,
            Self::Replay => &REPLAY,
        }
    }
}

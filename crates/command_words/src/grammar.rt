//! The commands as clap has them.

ghost use Rattle.std.specs.Prelude.{◌≡◌, IfErr, IfOk, IfSome, OnOk, OnSome};
ghost use Rattle.command_words.specs.Jobs.{IsFaultIn, IsTaken, texts_of};
ghost use Rattle.clap.specs.Words.{app_of, new_app, subcommand_of, subcommand_rows_of};
ghost use Rattle.command_words.specs.Program.{IsArgument, IsCommand, IsLocal};
ghost use Rattle.command_words.specs.Program.{command as command_app, flag, option, program};
ghost use Rattle.command_words.specs.Program.{rule_for, top, with_arguments, with_command};
ghost use Rattle.command_words.specs.Program.{one_argument, client_arguments};

use crate::commands::{Argument, CommandName};
use crate::help::{CommandHelp, PROGRAM};
use crate::jobs::ArgumentsFault;
use crate::limits::{LAST_MODULE, MAX_CLIENTS, MAX_NUMBER, VERSION};
use clap::{Arg, ArgAction, ArgMatches, Command, value_parser};
use exchange_limits::MAX_WORKERS;
use std::alloc::{AllocError, Global};

/// An argument that has to be there.
fn one_argument<'a>(alloc: Global, id: &'a str, help: &'a str) -> Arg<'a>
    ensures { IsArgument (one_argument id.entry.now) result }
{
    Arg::new(alloc, id).required(true).help(help)
}

/// From 1 to [`MAX_CLIENTS`] arguments.
fn client_arguments<'a>(alloc: Global, id: &'a str, help: &'a str) -> Arg<'a>
    ensures { IsArgument (client_arguments id.entry.now) result }
{
    one_argument(alloc, id, help).num_args(1..=MAX_CLIENTS)
}

/// An option with a value, as `--image FILE`.
fn option<'a>(alloc: Global, id: &'a str, value: &'a str, help: &'a str) -> Arg<'a>
    ensures { IsArgument (option id.entry.now) result }
{
    Arg::new(alloc, id).long(id).value_name(value).help(help)
}

/// An option with no value, as `--quiet`.
fn flag<'a>(alloc: Global, id: &'a str, help: &'a str) -> Arg<'a>
    ensures { IsArgument (flag id.entry.now) result }
{
    Arg::new(alloc, id)
        .long(id)
        .action(ArgAction::SetTrue)
        .help(help)
}

/// What clap calls each argument, and what help says of it, in the order of [`Argument`].
#[rattlefmt::skip]
static WORDS: [(&str, &str); 29] = [
    ("SHAPE", "The shape of the rack, as 3x2x2"),
    ("FILE", "The file of the batch, or - for standard input"),
    ("BATCH", "The file of the batch, or - for standard input"),
    ("SCHEDULE", "The file of the schedule, or - for standard input"),
    ("PORT", "The device of the switch, or the pipes PORT.in and PORT.out"),
    ("PORT_B", "That of switch b, where there are two"),
    ("MOVES", "The file of the moves, or - for standard input"),
    ("IMAGE", "The file of the words before, or - for standard input"),
    ("RECORD", "The file of the record, or - for standard input"),
    ("SCRIPT", "A file of session lines, or - for standard input"),
    ("CLIENT", "The name of a client, whose files are CLIENT.in and CLIENT.out"),
    ("shape", "The shape that the record has to have"),
    ("image", "The file of the words before, an image as `exchange apply --help` shows"),
    ("record", "The file for the record of all sessions' calls"),
    ("resume", "Go on where that file ends, if it has a record already"),
    ("sync", "Send a reply only once its entry is on the disk"),
    ("image-out", "The file for the image of the words after all sessions"),
    ("settings", "The settings to draw, A to B, counted from 0"),
    ("prices", "Print prices that show how many changes are needed, and no picture"),
    ("schedule", "The file of its schedule, or - for standard input"),
    ("wiring", "The file of the board's wiring, or - for standard input"),
    ("switches", "There are two switches, whatever modules BATCH names"),
    ("from", "The setting of the schedule to begin with, counted from 0"),
    ("first", "How many of its entries to replay"),
    ("module", "The module whose orders to print, from 0 to 31"),
    ("steady", "Plan so that the switch changes seldom"),
    ("go-on", "Wait for no line of standard input after a setting"),
    ("workers", "How many workers there may be; one is usually quickest"),
    ("quiet", "Print nothing on standard error beside a refusal"),
];

/// An argument as clap has it, with what help says of it.
#[rattlefmt::skip]
fn arg_of<'a>(alloc: Global, argument: Argument) -> Arg<'a>
    ensures { IsArgument (rule_for argument) result }
{
    use Argument::*;
    let (id, help) = WORDS[argument as usize];
    match argument {
        Shape | File | Batch | Schedule | Port | Moves | Image | Record =>
            one_argument(alloc, id, help),
        PortB => Arg::new(alloc, id).help(help),
        Scripts | Clients => client_arguments(alloc, id, help),
        Shaped => option(alloc, id, "SHAPE", help),
        ImageIn | RecordOut | ImageOut | Scheduled | Wiring => option(alloc, id, "FILE", help),
        Settings => option(alloc, id, "A..B", help),
        Resume | Sync | Prices | Steady | GoOn | Quiet => flag(alloc, id, help),
        Switches => option(alloc, id, "2", help)
            .value_parser(value_parser!(u8).range(2..=2)),
        FromSetting => option(alloc, id, "K", help)
            .value_parser(value_parser!(u32).range(0..=MAX_NUMBER as i64)).default_value("0"),
        FirstEntries => option(alloc, id, "E", help)
            .value_parser(value_parser!(u32).range(0..=MAX_NUMBER as i64)),
        Module => option(alloc, id, "0..31", help)
            .value_parser(value_parser!(u8).range(0..=LAST_MODULE as i64)),
        Workers => option(alloc, id, "1..64", help)
            .value_parser(value_parser!(u8).range(1..=MAX_WORKERS as i64)).default_value("1"),
    }
}

/// A command that this word calls, and that takes nothing, with what its help says.
fn command<'a>(alloc: Global, word: &'a str, help: &CommandHelp) -> Command<'a>
    ensures { IsCommand (new_app word.entry.now) result }
{
    Command::new(alloc, word)
        .about(help.about)
        .before_help(help.example)
        .after_help(help.notes)
}

/// The command with these arguments, in their order.
fn with_arguments<'a>(
    alloc: Global,
    command: Command<'a>,
    arguments: &[Argument],
) -> Result<Command<'a>, AllocError>
    requires { IsLocal command }
    ensures { IfOk result (IsCommand (with_arguments (app_of command.entry) arguments.now)) }
{
    let mut command = command;
    for argument in arguments {
        command = command.arg(arg_of(alloc, *argument))?;
    }
    Ok(command)
}

/// A command as clap has it, with what it takes.
pub(crate) fn command_of<'a>(alloc: Global, name: CommandName) -> Result<Command<'a>, AllocError>
    ensures { IfOk result (IsCommand (command_app name)) }
{
    let (word, arguments): (&'a str, &[Argument]) = name.sheet();
    let command = command(alloc, word, name.help());
    with_arguments(alloc, command, arguments)
}

/// The program with one command more.
fn with_command<'a>(
    alloc: Global,
    program: Command<'a>,
    name: CommandName,
) -> Result<Command<'a>, AllocError>
    requires { IsLocal program }
    ensures { IfOk result (IsCommand (with_command (app_of program.entry) name)) }
{
    // A `?` would take the program apart here, which makes the proof long; `drop` does it
    // elsewhere.
    match command_of(alloc, name) {
        Ok(command) => program.subcommand(command),
        Err(error) => {
            drop(program);
            Err(error)
        }
    }
}

/// The program without its commands.
fn top<'a>(alloc: Global) -> Command<'a>
    ensures { IsCommand top result }
{
    command(alloc, "exchange", &PROGRAM)
        .version(VERSION)
        .subcommand_required(true)
}

/// The program with all its commands.
pub(crate) fn program<'a>(alloc: Global) -> Result<Command<'a>, AllocError>
    ensures { IfOk result (IsCommand program) }
{
    let mut program = top(alloc);
    for name in &CommandName::ALL {
        program = with_command(alloc, program, *name)?;
    }
    Ok(program)
}

/// The matches of arguments that begin with the word of a command and fit it: they are those of the
/// program with this command alone, which is built sooner than the whole program.
fn matches_by_name<'a>(alloc: Global, arguments: &'a [String]) -> Option<ArgMatches<'a>>
    ensures matches { IfSome result (λ found.
        subcommand_rows_of found ≡ subcommand_of program (texts_of arguments.entry.now)) }
    ensures taken { OnSome result (IsTaken (texts_of arguments.entry.now)) }
{
    let name = CommandName::of(arguments.get(1)?.as_str())?;
    let Ok(program) = with_command(alloc, top(alloc), name) else {
        return None;
    };
    program.try_get_matches_from(arguments).ok()
}

/// The matches of the arguments.
pub(crate) fn matches_of<'a>(
    alloc: Global,
    arguments: &'a [String],
) -> Result<ArgMatches<'a>, ArgumentsFault>
    ensures matches { IfOk result (λ found.
        subcommand_rows_of found ≡ subcommand_of program (texts_of arguments.entry.now)) }
    ensures taken { OnOk result (IsTaken (texts_of arguments.entry.now)) }
    ensures fault { IfErr result (IsFaultIn (texts_of arguments.entry.now)) }
{
    if let Some(found) = matches_by_name(alloc, arguments) {
        return Ok(found);
    }
    Ok(program(alloc)?.try_get_matches_from(arguments)?)
}

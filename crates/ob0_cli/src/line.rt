//! Reads the command line.
//!
//! To add a subcommand, write:
//! - an `App` in `specs/ClapCommands.antt`;
//! - a case in each of `IsCommandWithFoundValues`, `HasFilePath` and `HasNeededValues`;
//! - two lemmas in `proofs/Named.antt`, with names that end in `_fits` and `_needs`. They are
//!   proved by `refl` under `unfolding clap_on_literals nth`;
//! - if the `App` has several arguments, a line for each argument in the proof of the function that
//!   makes the subcommand. `add_argument` adds the arguments one after another, and needs each
//!   argument's clause `own` (`global ≡ false`).
//!
//! Only the `App` of `serve` and the function `serve_subcommand` mention the options of `serve`.
//!
//! Pitfalls in the proofs:
//! - No `ghost` clause can depend on a `&str` parameter. So the greatest value of an option is a
//!   function of the option's name (`max_option_value`).
//! - In a `where` block, each argument `_` has to be written out.
//!
//! Help texts are constants, one for each command. A test checks that their lines have at most 80
//! columns.

ghost use Rattle.std.specs.Prelude.{◌≡◌, ◌≢◌, ◌≤◌, Some, false, true, IfOk, IfErr, MatchOption, map};
ghost use Rattle.clap.specs.Words.{App, Rule, app_of, first_of, found_of, new_app, rows_of, rule_of, subcommand_rows_of, with_rule, with_subcommand};
ghost use Rattle.ob0_cli.specs.RequestedCommands.{SpellsCommand, IsCompleteSubcommand, HasBoundedValue, HasCoordinateValue, HasTextValue, IsCommandWithFoundValues, HasNumberValue, YieldsCommandLine, HasFilePath, HasNeededValues, MayBeRefusedWithFault, max_option_value};
ghost use Rattle.ob0_cli.specs.declared.line.CommandLine.TheVariants.{Serve};
ghost use Rattle.ob0_cli.specs.ClapCommands.{client_process_rule, ob0_without_subcommands, ob0_app, calls_rule, check_app, required_number_rule, rename_app, run_app, serve_app, serve_without_options as serve_app_without_options, stdio_rule, turns_rule, required_word_rule};

use clap::error::ErrorKind;
use clap::{Arg, ArgAction, ArgMatches, Command, Error, value_parser};
use ob0_text::Position;
use std::alloc::{AllocError, Global};

const VERSION: &str = "0.1.0";

/// The end of the program's help: the exit statuses of all commands.
const OB0_HELP_NOTES: &str = "\
Exit status:
  0  success
  1  the module has errors, its run ended with a fault, or the new name is
     refused; for serve: exit without shutdown, or input that ends between
     messages
  2  the command line is invalid
  3  for serve: the stream of messages is damaged
  4  a file can't be read or isn't UTF-8, output can't be written, or the
     input of run isn't a list of numbers
  5  out of memory

`ob0 help COMMAND` explains what a command reads and prints.";

const SERVE_HELP_NOTES: &str = "\
An editor starts this. Columns are counted in UTF-16 units, or in bytes of UTF-8
if the client offers that. A fault is printed to standard error as
`fault: NAME`.

Exit status:
  0  the client sent exit after shutdown
  1  exit without shutdown, or input that ends between messages
  2  the command line is invalid
  3  the stream of messages is damaged
  4  a message can't be read or written
  5  out of memory";

const CHECK_HELP_NOTES: &str = "\
Prints a line `LINE:COLUMN: CODE: MESSAGE` for each of the first 100 errors, and
nothing for a valid module. Lines and columns count from 0, columns in UTF-16
units; the lines and columns that an editor shows count from 1.
The FILE /dev/stdin is standard input: `COMMAND | ob0 check /dev/stdin`.
`man ob0` lists the CODEs. docs/MESSAGES.md explains each, and what to do. That
page is in share/doc/ob0 below the folder that ob0 was installed in: /usr with
the Debian package, otherwise /usr/local, ~/.local or another PREFIX.

Exit status:
  0  the module is valid
  1  the module has errors
  2  the command line is invalid
  4  the file can't be read or isn't UTF-8, or the output can't be written
  5  out of memory";

const RUN_HELP_NOTES: &str = "\
The numbers are read first, to the end of standard input, even if the module
reads none; then the module runs. They are whole numbers from -2147483648 to
2147483647 between spaces or line ends. In a terminal, end them with Ctrl-D at
the start of a line. `< /dev/null` gives no numbers, `< FILE` those of a file.
If the module has errors, they are printed as `ob0 check` prints them, and the
module isn't run.

A run ends in one of seven ways. Done means that the module's body was finished;
it prints nothing. The others print `fault: END` to standard error:
  Overflow   a result is below -2147483648 or above 2147483647
  Divisor    DIV or MOD by a number below 1
  Index      an index is outside its array
  InputEnd   Read after the last number
  CallBound  more calls are open than --calls allows
  TurnBound  a loop makes more iterations than --turns allows
The output is printed when the run has ended. If a run doesn't end, or prints
nothing, `--turns 5` ends it after five iterations of a loop and prints the
output so far; Ctrl-C ends it without output.

Exit status:
  0  the run ended with Done
  1  the run ended in another way, or the module has errors
  2  the command line is invalid
  4  `fault: Input`: the input can't be read or isn't a list of numbers;
     the file can't be read or isn't UTF-8, or the output can't be written
  5  out of memory";

const RENAME_HELP_NOTES: &str = "\
LINE and COLUMN are a place in the name or at its end. They count from 0, COLUMN
in UTF-16 units; the lines and columns that an editor shows count from 1.
Prints the new text. The file itself isn't changed; don't redirect the output to
it, because the shell would empty it first. A new name that would change what
the module does is refused, with `refused: REASON` on standard error. If the
module has errors, they go to standard output instead, as `ob0 check` prints
them: check the status before you use the output.
`man ob0` lists the REASONs. docs/MESSAGES.md explains each, and what to do.
That page is in share/doc/ob0 below the folder that ob0 was installed in: /usr
with the Debian package, otherwise /usr/local, ~/.local or another PREFIX.

Exit status:
  0  the new text was printed
  1  the new name is refused, or the module has errors
  2  the command line is invalid
  4  the file can't be read or isn't UTF-8, or the output can't be written
  5  out of memory";

/// The command that a command line requests, with the values of its arguments.
#[derive(Clone, Copy, Drop, PartialEq, Eq)]
pub enum CommandLine<'a> {
    /// Serve one conversation over standard input and output.
    Serve,
    /// Print the errors of a file.
    Check {
        file: &'a str,
    },
    /// Run a file's module on the numbers of standard input.
    Run {
        file: &'a str,
        calls: u32,
        turns: u32,
    },
    /// Print a file's text, with the name or field at a position renamed.
    Rename {
        file: &'a str,
        position: Position,
        name: &'a str,
    },
}

impl<'a> CommandLine<'a> {
    /// Returns the path of the file that the command reads. Returns None for `serve`, which reads
    /// no file.
    pub fn file_path(self) -> Option<&'a str>
        ensures { MatchOption result (self.entry ≡ Serve)
            (λ file. (self.entry ≢ Serve) × HasFilePath self.entry file.now) }
    {
        match self {
            CommandLine::Serve => None,
            CommandLine::Check { file } => Some(file),
            CommandLine::Run {
                file,
                calls: _,
                turns: _,
            } => Some(file),
            CommandLine::Rename {
                file,
                position: _,
                name: _,
            } => Some(file),
        }
    }
}

/// The reason why a command line requests no command.
#[derive(Debug, Drop, thiserror::Error)]
pub enum CommandFault {
    /// The words are refused, or request help or the version.
    #[error(transparent)]
    Refused(Error),
    #[error("out of memory")]
    Memory,
}

/// Returns the command that the words of a command line request, or the reason why they request no
/// command. The first word is the program's name.
pub fn command<'a>(alloc: Global, words: &'a [&'a str]) -> Result<CommandLine<'a>, CommandFault>
    ensures gives { IfOk result (SpellsCommand (map (λ w. w.now) words.entry.now)) }
    ensures refuses { IfErr result (MayBeRefusedWithFault (map (λ w. w.now) words.entry.now)) }
{
    match ob0_command(alloc) {
        Ok(ob0_command) => parse_command_line(ob0_command, words),
        Err(AllocError) => Err(CommandFault::Memory),
    }
}

/// Parses the words of a command line with clap, according to the definition of `ob0`.
fn parse_command_line<'a>(
    ob0_command: Command<'a>,
    words: &'a [&'a str],
) -> Result<CommandLine<'a>, CommandFault>
    requires { app_of ob0_command ≡ ob0_app }
    ensures gives { IfOk result (SpellsCommand (map (λ w. w.now) words.entry.now)) }
    ensures refuses { IfErr result (MayBeRefusedWithFault (map (λ w. w.now) words.entry.now)) }
{
    match ob0_command.try_get_matches_from(words) {
        Ok(matches) => Ok(command_line_of(&matches)),
        Err(error) => if error.kind() == ErrorKind::OutOfMemory {
            Err(CommandFault::Memory)
        } else {
            Err(CommandFault::Refused(error))
        },
    }
}

/// Returns the `CommandLine` for the subcommand that clap found, with the values of its arguments.
fn command_line_of<'a>(matches: &ArgMatches<'a>) -> CommandLine<'a>
    requires { IsCompleteSubcommand (subcommand_rows_of matches.now) }
    ensures { YieldsCommandLine (subcommand_rows_of matches.now) result }
{
    match matches.subcommand() {
        Some((name, given)) => command_line_for_subcommand(name, given),
        None => unreachable!(),
    }
}

/// Returns the `CommandLine` for the subcommand with this name, with the values that clap found for
/// its arguments.
fn command_line_for_subcommand<'a>(name: &str, given: &ArgMatches<'a>) -> CommandLine<'a>
    requires { HasNeededValues name.now (rows_of (found_of given.now)) }
    ensures { IsCommandWithFoundValues name.now (rows_of (found_of given.now)) result }
{
    if name == "serve" {
        CommandLine::Serve
    } else if name == "check" {
        CommandLine::Check {
            file: text_value_of(given, "file"),
        }
    } else if name == "run" {
        CommandLine::Run {
            file: text_value_of(given, "file"),
            calls: bounded_value_of(given, "calls"),
            turns: bounded_value_of(given, "turns"),
        }
    } else {
        CommandLine::Rename {
            file: text_value_of(given, "file"),
            position: Position {
                line: coordinate_value_of(given, "line"),
                character: coordinate_value_of(given, "column"),
            },
            name: text_value_of(given, "name"),
        }
    }
}

/// Returns the text that clap found for the argument `id`.
fn text_value_of<'a>(given: &ArgMatches<'a>, id: &str) -> &'a str
    requires { HasTextValue id.now (rows_of (found_of given.now)) }
    ensures { first_of id.now (rows_of (found_of given.now)) ≡ Some result.now }
{
    match given.get_str(id) {
        Some(text) => text,
        None => unreachable!(),
    }
}

/// Returns the number that clap found for the option `id`, `--calls` or `--turns`. The number is at
/// most the greatest value of that option.
fn bounded_value_of(given: &ArgMatches<'_>, id: &str) -> u32
    requires { HasBoundedValue id.now (rows_of (found_of given.now)) }
    ensures number { HasNumberValue id.now (rows_of (found_of given.now)) result }
    ensures bound { result ≤ max_option_value id.now }
{
    match given.get_one::<u32>(id) {
        Some(number) => number,
        None => unreachable!(),
    }
}

/// Returns the number that clap found for the argument `id`, a line or a column.
fn coordinate_value_of(given: &ArgMatches<'_>, id: &str) -> u64
    requires { HasCoordinateValue id.now (rows_of (found_of given.now)) }
    ensures { HasNumberValue id.now (rows_of (found_of given.now)) result }
{
    match given.get_one::<u64>(id) {
        Some(number) => number,
        None => unreachable!(),
    }
}

/// Makes clap's definition of `ob0`, which has four subcommands. A command line must have one of
/// them. clap also adds the subcommand `help`.
fn ob0_command<'a>(alloc: Global) -> Result<Command<'a>, AllocError>
    ensures { IfOk result (λ c. app_of c ≡ ob0_app) }
{
    let with_serve = add_subcommand(
        Ok(program_without_subcommands(alloc)),
        serve_subcommand(alloc),
    );
    let with_check = add_subcommand(with_serve, check_subcommand(alloc));
    let with_run = add_subcommand(with_check, run_subcommand(alloc));
    add_subcommand(with_run, rename_subcommand(alloc))
}

/// Adds the subcommand `below` to the command `above`. If one of them is an error (out of memory),
/// returns that error. In that case the other command is dropped here, so that no other function's
/// proof has to cover the drop.
fn add_subcommand<'a>(
    above: Result<Command<'a>, AllocError>,
    below: Result<Command<'a>, AllocError>,
) -> Result<Command<'a>, AllocError>
    ensures { (app sub : App) → sub.top.is_plain ≡ true
        → IfOk above.entry (λ c. app_of c ≡ app)
        → IfOk below.entry (λ c. app_of c ≡ sub)
        → IfOk result (λ c. app_of c ≡ with_subcommand app sub.top) }
{
    let below = below?;
    let above = above?;
    above.subcommand(below)
}

/// Adds an argument to a command. If `command` is an error (out of memory), returns that error.
fn add_argument<'a>(
    command: Result<Command<'a>, AllocError>,
    argument: Arg<'a>,
) -> Result<Command<'a>, AllocError>
    ensures { (app : App) (rule : Rule) → argument.entry.global ≡ false
        → rule_of argument.entry ≡ rule
        → IfOk command.entry (λ c. app_of c ≡ app)
        → IfOk result (λ c. app_of c ≡ with_rule app rule) }
{
    command?.arg(argument)
}

/// Makes clap's command for `ob0`, without its subcommands.
fn program_without_subcommands<'a>(alloc: Global) -> Command<'a>
    ensures { app_of result ≡ ob0_without_subcommands }
{
    command_with_help(
        alloc,
        "ob0",
        "A language server for Oberon-0",
        OB0_HELP_NOTES,
    )
    .version(VERSION)
    .subcommand_required(true)
}

/// Makes a command without arguments. The help begins with the text `about` and ends with the text
/// `notes`.
fn command_with_help<'a>(
    alloc: Global,
    name: &'a str,
    about: &'a str,
    notes: &'a str,
) -> Command<'a>
    ensures { app_of result ≡ new_app name.entry.now }
{
    Command::new(alloc, name).about(about).after_help(notes)
}

/// Makes the subcommand `serve`. The subcommand accepts the options that LSP 3.17 recommends, and
/// ignores them.
fn serve_subcommand<'a>(alloc: Global) -> Result<Command<'a>, AllocError>
    ensures { IfOk result (λ c. app_of c ≡ serve_app) }
{
    let with_stdio = add_argument(Ok(serve_without_options(alloc)), stdio_argument(alloc));
    add_argument(with_stdio, client_process_argument(alloc))
}

/// Makes the subcommand `serve` without its options. On a command line, each option may occur
/// several times.
fn serve_without_options<'a>(alloc: Global) -> Command<'a>
    ensures { app_of result ≡ serve_app_without_options }
{
    command_with_help(
        alloc,
        "serve",
        "Serve one conversation with an editor over standard input and output",
        SERVE_HELP_NOTES,
    )
    .args_override_self(true)
}

fn stdio_argument<'a>(alloc: Global) -> Arg<'a>
    ensures rule { rule_of result ≡ stdio_rule }
    ensures own { result.global ≡ false }
{
    Arg::new(alloc, "stdio")
        .long("stdio")
        .action(ArgAction::SetTrue)
        .help("Changes nothing: serve always uses standard input and output")
}

fn client_process_argument<'a>(alloc: Global) -> Arg<'a>
    ensures rule { rule_of result ≡ client_process_rule }
    ensures own { result.global ≡ false }
{
    Arg::new(alloc, "client")
        .long("clientProcessId")
        .value_name("N")
        .help("Changes nothing: the client's process isn't watched")
}

fn check_subcommand<'a>(alloc: Global) -> Result<Command<'a>, AllocError>
    ensures { IfOk result (λ c. app_of c ≡ check_app) }
{
    let file = word_argument(alloc, "file", "FILE", "The file with the module");
    command_with_help(
        alloc,
        "check",
        "Print the errors of a module",
        CHECK_HELP_NOTES,
    )
    .arg(file)
}

fn run_subcommand<'a>(alloc: Global) -> Result<Command<'a>, AllocError>
    ensures { IfOk result (λ c. app_of c ≡ run_app) }
{
    let file = word_argument(alloc, "file", "FILE", "The file with the module");
    let alone = command_with_help(
        alloc,
        "run",
        "Run a module on the numbers of standard input",
        RUN_HELP_NOTES,
    );
    let with_file = add_argument(Ok(alone), file);
    let with_calls = add_argument(with_file, calls_argument(alloc));
    add_argument(with_calls, turns_argument(alloc))
}

fn rename_subcommand<'a>(alloc: Global) -> Result<Command<'a>, AllocError>
    ensures { IfOk result (λ c. app_of c ≡ rename_app) }
{
    let file = word_argument(alloc, "file", "FILE", "The file with the module");
    let alone = command_with_help(
        alloc,
        "rename",
        "Print a module with another name for one of its names",
        RENAME_HELP_NOTES,
    );
    let with_file = add_argument(Ok(alone), file);
    let line = number_argument(
        alloc,
        "line",
        "LINE",
        "The line of the name, counted from 0",
    );
    let with_line = add_argument(with_file, line);
    let column = number_argument(
        alloc,
        "column",
        "COLUMN",
        "Its column, counted from 0 in UTF-16 units",
    );
    let with_column = add_argument(with_line, column);
    add_argument(
        with_column,
        word_argument(alloc, "name", "NAME", "The new name"),
    )
}

/// Makes a required argument whose value is a word. `shown` is the name of the value in the help,
/// and `help` explains the argument.
fn word_argument<'a>(alloc: Global, id: &'a str, shown: &'a str, help: &'a str) -> Arg<'a>
    ensures rule { rule_of result ≡ required_word_rule id.entry.now }
    ensures own { result.global ≡ false }
{
    Arg::new(alloc, id)
        .required(true)
        .action(ArgAction::Set)
        .value_name(shown)
        .help(help)
}

/// Makes a required argument whose value is an unsigned number of 64 bits. `shown` is the name of
/// the value in the help, and `help` explains the argument.
fn number_argument<'a>(alloc: Global, id: &'a str, shown: &'a str, help: &'a str) -> Arg<'a>
    ensures rule { rule_of result ≡ required_number_rule id.entry.now }
    ensures own { result.global ≡ false }
{
    word_argument(alloc, id, shown, help).value_parser(value_parser!(u64))
}

fn calls_argument<'a>(alloc: Global) -> Arg<'a>
    ensures rule { rule_of result ≡ calls_rule }
    ensures own { result.global ≡ false }
{
    Arg::new(alloc, "calls")
        .long("calls")
        .value_parser(value_parser!(u32).range(0..65))
        .default_value("64")
        .value_name("N")
        .help("How many calls may be open at a time, 0 to 64")
}

fn turns_argument<'a>(alloc: Global) -> Arg<'a>
    ensures rule { rule_of result ≡ turns_rule }
    ensures own { result.global ≡ false }
{
    Arg::new(alloc, "turns")
        .long("turns")
        .value_parser(value_parser!(u32).range(0..100001))
        .default_value("100000")
        .value_name("N")
        .help("How many iterations a loop may make, 0 to 100000")
}

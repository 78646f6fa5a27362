//! Performs the command that a command line requests, on the bytes of a file.

ghost use Rattle.std.specs.Prelude.{◌≢◌};
ghost use Rattle.ob0_cli.specs.declared.line.CommandLine.TheVariants.{Serve};
ghost use Rattle.ob0_commands.specs.CommandEffects.{PerformsCommandOnFile};
ghost use Rattle.ob0_commands.specs.StderrLines.{PrintsOptionalLine};

use crate::check_command::check_keeping_analysis;
use crate::rename_command::rename_keeping_analysis;
use crate::run_command::run_text;
use crate::tracked_input::TrackedInput;
use crate::tracked_output::TrackedOutput;
use ob0_analysis::Analysis;
use ob0_cli::CommandLine;
use std::alloc::Global;

/// Performs the command that a command line requests, on a file with these bytes. Returns the
/// program's exit status. The output goes to `out`. Faults and refusals go to `err`. Only `run`
/// reads from `input`. `line` must not be `serve`, because `serve` isn't a command on a file. The
/// analysis that `check` or `rename` makes is put into `kept`, so that a program that ends right
/// after can leave it to the system to free.
pub fn perform_command<R: TrackedInput, O: TrackedOutput, E: TrackedOutput>(
    alloc: Global,
    line: CommandLine<'_>,
    file: &[u8],
    input: &mut R,
    out: &mut O,
    err: &mut E,
    kept: &mut Option<Analysis>,
) -> u8
    requires { line ≢ Serve }
    ensures { PerformsCommandOnFile O.contents O.is_flushed O.has_failed out.old out.new
        (PrintsOptionalLine E.contents E.is_flushed E.has_failed err.old err.new) file.now
        R.remaining R.has_failed input.old input.new line.entry result }
{
    match line {
        CommandLine::Serve => unreachable!(),
        CommandLine::Check { file: _path } => check_keeping_analysis(alloc, file, out, err, kept),
        CommandLine::Run {
            file: _path,
            calls,
            turns,
        } => run_text(alloc, file, input, calls, turns, out, err),
        CommandLine::Rename {
            file: _path,
            position,
            name,
        } => rename_keeping_analysis(alloc, file, position, name, out, err, kept),
    }
}

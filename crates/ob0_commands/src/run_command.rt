//! Runs a file's module on an input, and prints the output.
//!
//! `run_text` analyses the text once and lowers it to a program (`LoweringQuestion`). If the text
//! isn't a well-typed module, the diagnostics are printed. Otherwise the analysis is dropped, the
//! input is read, and the program is executed. `ProgramRunsAsText` states that the program runs
//! like the text's module. From this fact and the contract of `execute` it follows that the outcome
//! is a run of the module.
//!
//! The output is written in pieces of at most `IO_BUFFER_BYTES` bytes (`print_output_items`), so the
//! whole text of the output is never stored. `IsWrittenExceptLastPart` separates the written text
//! from the piece that isn't written yet. A piece is an `ArrayString`: it is on the stack and
//! doesn't grow. The piece is written when the next item might not fit. So nothing is allocated
//! after the first byte is printed. (A `String` could allocate between pieces, because its contract
//! allows that.)

ghost use Rattle.std.specs.Prelude.{◌≡◌, ◌+◌, ◌≤◌, ◌++◌, true, IfOk, IfErr, IfNone, MatchOption, OnOk, OnErr, option_map, suc};
ghost use Rattle.std.specs.Io.KnownBytes.{Appends};
ghost use Rattle.arrayvec.specs.ArrayString.{array_string_len};
ghost use Rattle.ob0_tree.specs.ParsedModule.{named_tree_of};
ghost use Rattle.ob0_analysis.specs.ReportedErrors.{IsWellTypedModule};
ghost use Rattle.ob0_run.specs.Outcomes.{item_of, output_items, run_of};
ghost use Rattle.ob0_run.specs.Programs as lowered;
ghost use Rattle.ob0_commands.specs.InputReaders.{ConsumesAtMost};
ghost use Rattle.ob0_commands.specs.InputNumbers.{max_input_bytes};
ghost use Rattle.ob0_commands.specs.CommandEffects.{RunsFile};
ghost use Rattle.ob0_commands.specs.PrintedTexts.{IsWrittenExceptLastPart, PrintsDiagnostics, run_end_line, output_text, output_item_text};
ghost use Rattle.ob0_commands.specs.StderrLines.{PrintsOptionalLine};
ghost use Rattle.ob0_commands.specs.Statuses.{MemoryFaultImpliesShortFile, IsShortNonUtf8File, KeepsInputFailureUnlessInputFault, OutputFailureMatchesFault, PrintsNothingUnlessWriteFault, IsWriteOrMemoryFault, FaultMayStopRun, run_end_status};
ghost use Rattle.ob0_commands.specs.declared.faults.FileCommandFault.TheVariants as faults;
ghost use Rattle.ob0_commands.specs.TextRuns.{ProgramRunsAsText, RunCommandEndsWithoutFault, IsRunOfText};

use crate::check_command::{decode_or_print_too_long_line, print_diagnoses};
use crate::faults::{FileCommandFault, print_fault};
use crate::input_numbers::read_numbers;
use crate::tracked_input::TrackedInput;
use crate::tracked_output::{IO_BUFFER_BYTES, TrackedOutput, write_and_flush, write_without_flush};
use arrayvec::ArrayString;
use itoa::Buffer;
use ob0_analysis::{Analysis, Question, WellTyped, ask};
use ob0_run::{End, Item, Outcome, Program, execute, lower};
use std::alloc::{AllocError, Global};

/// A question to an analysis. The answer is the program to which the analysed module is lowered.
#[derive(Drop)]
struct LoweringQuestion {}

impl Question for LoweringQuestion {
    type Answer = Program;

    ghost answers = { λ _ names program. lowered.ProgramRunsAsModule (named_tree_of names.module_read) program };

    fn answer(&self, alloc: Global, module: &WellTyped<'_>) -> Result<Program, AllocError> {
        lower(alloc, module)
    }
}

/// Runs a file's module on the numbers of `input`, and returns the program's exit status. At most
/// `calls` calls are open at a time, and each execution of a loop has at most `turns` iterations.
/// The output is printed to `out`. An end other than `Done` is printed to `err` as `fault: NAME`.
/// If the file isn't a well-typed module, its diagnostics are printed as `check_text` prints them,
/// and the input isn't read. The status is 0 for `Done`, and 1 for another end or diagnostics. If
/// the input can't be read, is too long or isn't a list of numbers, the status is 4. It is also 4
/// if a file that isn't too long isn't UTF-8, or if a write to `out` fails. If an allocation fails,
/// it is 5. With status 4 or 5, the fault is also printed to `err` as `fault: NAME`.
pub fn run_text<R: TrackedInput, O: TrackedOutput, E: TrackedOutput>(
    alloc: Global,
    file: &[u8],
    input: &mut R,
    calls: u32,
    turns: u32,
    out: &mut O,
    err: &mut E,
) -> u8
    ensures ends { RunsFile O.contents O.is_flushed O.has_failed out.old out.new
        (PrintsOptionalLine E.contents E.is_flushed E.has_failed err.old err.new) file.now
        R.remaining R.has_failed input.old input.new calls turns result }
    ensures limit { ConsumesAtMost (suc max_input_bytes) (R.remaining input.old)
        (R.remaining input.new) }
    ensures unread { ¬ IsWellTypedModule file.now → input.new ≡ input.old }
{
    match try_run_text(alloc, file, input, calls, turns, out, err) {
        Ok(status) => status,
        Err(fault) => print_fault(fault, err),
    }
}

/// Does the work of `run_text`, but returns a fault instead of printing its line `fault: NAME`.
fn try_run_text<R: TrackedInput, O: TrackedOutput, E: TrackedOutput>(
    alloc: Global,
    file: &[u8],
    input: &mut R,
    calls: u32,
    turns: u32,
    out: &mut O,
    err: &mut E,
) -> Result<u8, FileCommandFault>
    ensures ends { IfOk result (RunCommandEndsWithoutFault O.contents O.is_flushed out.old out.new
        (PrintsOptionalLine E.contents E.is_flushed E.has_failed err.old err.new) file.now
        (R.remaining input.old) calls turns
        (¬ IsShortNonUtf8File file.now × (O.has_failed out.new ≡ O.has_failed out.old)
        × (R.has_failed input.new ≡ R.has_failed input.old))) }
    ensures limit { ConsumesAtMost (suc max_input_bytes) (R.remaining input.old)
        (R.remaining input.new) }
    ensures read { IfErr result (KeepsInputFailureUnlessInputFault (R.has_failed input.old)
        (R.has_failed input.new)) }
    ensures fault { IfErr result
        (FaultMayStopRun file.now (R.remaining input.old) (R.has_failed input.new)) }
    ensures failed { IfErr result
        (OutputFailureMatchesFault (O.has_failed out.old) (O.has_failed out.new)) }
    ensures memory { IfErr result (MemoryFaultImpliesShortFile file.now) }
    ensures kept { IfErr result (PrintsNothingUnlessWriteFault out.old out.new) }
    ensures unread { ¬ IsWellTypedModule file.now → input.new ≡ input.old }
    ensures unsaid { OnErr result (err.new ≡ err.old) }
{
    let Some(text) = decode_or_print_too_long_line(file, out)? else {
        return Ok(1);
    };
    let Some(program) = lower_or_print_diagnoses(alloc, text, out)? else {
        return Ok(1);
    };
    let numbers = read_numbers(alloc, input)?;
    let outcome = execute_lowered_program(alloc, text, &program, numbers.as_slice(), calls, turns)?;
    print_run_outcome(outcome.output.as_slice(), outcome.end, out, err)
}

/// Returns the program that a text is lowered to. If the text isn't a well-typed module, prints its
/// diagnostics and returns None. The analysis is dropped on return, because a run may take long and
/// needs only the program.
fn lower_or_print_diagnoses<O: TrackedOutput>(
    alloc: Global,
    text: &str,
    out: &mut O,
) -> Result<Option<Program>, FileCommandFault>
    ensures found { IfOk result (λ found. MatchOption found
        (PrintsDiagnostics text.now (O.contents out.old) (O.contents out.new))
        (λ program. ProgramRunsAsText text.now program × (out.new ≡ out.old))) }
    ensures flushed { IfOk result (λ found. IfNone found (O.is_flushed out.new ≡ true)) }
    ensures unfailed { OnOk result (O.has_failed out.new ≡ O.has_failed out.old) }
    ensures fault { IfErr result IsWriteOrMemoryFault }
    ensures failed { IfErr result
        (OutputFailureMatchesFault (O.has_failed out.old) (O.has_failed out.new)) }
    ensures kept { IfErr result (PrintsNothingUnlessWriteFault out.old out.new) }
{
    let analysis = Analysis::analyse_text(alloc, text)?;
    match ask(alloc, &analysis, &LoweringQuestion {})? {
        Some(program) => Ok(Some(program)),
        None => {
            let reported = analysis.diagnoses(alloc)?;
            print_diagnoses(alloc, text, reported.as_slice(), out)?;
            Ok(None)
        }
    }
}

/// Runs `program` on `input`. At most `calls` calls are open at a time, and each execution of a
/// loop has at most `turns` iterations. Only the contract uses `text`, the text of the module that
/// was lowered to the program.
fn execute_lowered_program(
    alloc: Global,
    text: &str,
    program: &Program,
    input: &[i32],
    calls: u32,
    turns: u32,
) -> Result<Outcome, AllocError>
    requires { ProgramRunsAsText text.now program.now }
    ensures { IfOk result (λ outcome. IsRunOfText text.now input.now calls turns (run_of outcome)) }
{
    execute(alloc, program, input, calls, turns)
}

/// Returns the line that reports how a run ended, including the line feed. Returns None for `Done`,
/// the normal end.
fn run_end_line_of(end: End) -> Option<&'static str>
    ensures { option_map (λ line. line.now) result ≡ run_end_line end }
{
    match end {
        End::Done => None,
        End::Overflow => Some("fault: Overflow\n"),
        End::Divisor => Some("fault: Divisor\n"),
        End::Index => Some("fault: Index\n"),
        End::InputEnd => Some("fault: InputEnd\n"),
        End::CallBound => Some("fault: CallBound\n"),
        End::TurnBound => Some("fault: TurnBound\n"),
    }
}

/// Prints a run's output to `out`. If the run has an end other than `Done`, prints the line for
/// that end to `err`. Returns the program's exit status: 0 for `Done`, otherwise 1.
pub fn print_run_outcome<O: TrackedOutput, E: TrackedOutput>(
    output: &[Item],
    end: End,
    out: &mut O,
    err: &mut E,
) -> Result<u8, FileCommandFault>
    ensures printed { OnOk result
        (Appends (O.contents out.old) (O.contents out.new) (output_text (output_items output.now))) }
    ensures flushed { OnOk result (O.is_flushed out.new ≡ true) }
    ensures status { IfOk result (λ status. status ≡ run_end_status end) }
    ensures ends { IfOk result (λ status. status ≤ 1) }
    ensures unfailed { OnOk result (O.has_failed out.new ≡ O.has_failed out.old) }
    ensures fault { IfErr result (λ fault. fault ≡ faults.Write) }
    ensures failed { OnErr result (O.has_failed out.new ≡ true) }
    ensures said { OnOk result
        (PrintsOptionalLine E.contents E.is_flushed E.has_failed err.old err.new (run_end_line end)) }
    ensures silent { IfOk result (λ status. status ≡ 0 → err.new ≡ err.old) }
    ensures unsaid { OnErr result (err.new ≡ err.old) }
{
    print_output_items(output, out)?;
    match run_end_line_of(end) {
        Some(line) => {
            let _ = write_and_flush(err, line);
            Ok(1)
        }
        None => Ok(0),
    }
}

/// The greatest length in bytes of an output item's text. The longest text is a space, a sign and
/// ten digits.
const MAX_ITEM_TEXT_BYTES: usize = 12;

/// Prints the items of a run's output, and flushes. Their text is collected in pieces on the stack,
/// so the whole text is never stored and nothing is allocated.
fn print_output_items<O: TrackedOutput>(
    output: &[Item],
    out: &mut O,
) -> Result<(), FileCommandFault>
    ensures printed { OnOk result
        (Appends (O.contents out.old) (O.contents out.new) (output_text (output_items output.now))) }
    ensures flushed { OnOk result (O.is_flushed out.new ≡ true) }
    ensures unfailed { OnOk result (O.has_failed out.new ≡ O.has_failed out.old) }
    ensures fault { IfErr result (λ fault. fault ≡ faults.Write) }
    ensures failed { OnErr result (O.has_failed out.new ≡ true) }
{
    let mut text = ArrayString::<IO_BUFFER_BYTES>::new();
    let mut digits = Buffer::new();
    for item in output {
        append_item_making_room(&mut text, &mut digits, *item, out)?;
    }
    write_and_flush(out, text.as_str())
}

/// Appends an output item to `text`, the collected text that isn't written yet. If the item might
/// not fit, `text` is first written and cleared. `digits` is the buffer in which a number is
/// formatted.
fn append_item_making_room<O: TrackedOutput>(
    text: &mut ArrayString<IO_BUFFER_BYTES>,
    digits: &mut Buffer,
    item: Item,
    out: &mut O,
) -> Result<(), FileCommandFault>
    ensures written { OnOk result (IsWrittenExceptLastPart (O.contents out.old) (O.contents out.new)
        (text.old.bytes ++ output_item_text (item_of item)) text.new.bytes) }
    ensures unfailed { OnOk result (O.has_failed out.new ≡ O.has_failed out.old) }
    ensures fault { IfErr result (λ fault. fault ≡ faults.Write) }
    ensures failed { OnErr result (O.has_failed out.new ≡ true) }
{
    if text.remaining_capacity() < MAX_ITEM_TEXT_BYTES {
        write_without_flush(out, text.as_str())?;
        text.clear();
    }
    append_item_text(text, digits, item);
    Ok(())
}

/// Appends an output item to a text. A number becomes a space and the number in decimal, and a line
/// end becomes a line feed. `digits` is the buffer in which a number is formatted. `text` must have
/// at least 12 bytes of free capacity.
fn append_item_text(text: &mut ArrayString<IO_BUFFER_BYTES>, digits: &mut Buffer, item: Item)
    requires { array_string_len text.old + 12 ≤ 8192 }
    ensures { text.new.bytes ≡ text.old.bytes ++ output_item_text (item_of item) }
{
    match item {
        Item::Number(number) => {
            text.push_str(" ");
            text.push_str(digits.format(number));
        }
        Item::Line => text.push_str("\n"),
    }
}

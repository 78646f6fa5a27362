//! Prints the errors of a file.
//!
//! If a file has more bytes than a text may have, it is reported as too long, and its bytes aren't
//! checked for UTF-8. The positions of all diagnostics are found in one pass over the text.

ghost use Rattle.std.specs.Prelude.{◌≡◌, ◌≢◌, ◌<◌, ◌≤◌, [], true, IfOk, IfNone, IfSome, MatchOption, OnOk, IfErr, length, map, string_bytes};
ghost use Rattle.std.specs.Io.KnownBytes.{Appends};
ghost use Rattle.ob0_commands.specs.CommandEffects.{ChecksFile};
ghost use Rattle.ob0_commands.specs.PrintedTexts.{PrintsDiagnostics, all_diagnosis_lines, diagnosis_line_at, diagnosis_lines_at_positions, too_long_line};
ghost use Rattle.ob0_commands.specs.StderrLines.{PrintsOptionalLine};
ghost use Rattle.ob0_commands.specs.Statuses.{MemoryFaultImpliesShortFile, IsShortNonUtf8File, OutputFailureMatchesFault, PrintsNothingUnlessWriteFault, IsWriteOrMemoryFault, FaultMayStopCommandOnFile};
ghost use Rattle.ob0_commands.specs.declared.faults.FileCommandFault.TheVariants as faults;
ghost use Rattle.ob0_scan.specs.TextWithTokens.{max_text_length};
ghost use Rattle.ob0_analysis.specs.ReportedErrors.{ReportsErrorsOf, reported_diagnosis_of};

use crate::faults::{FileCommandFault, print_fault};
use crate::tracked_input::MAX_FILE_BYTES_READ;
use crate::tracked_output::{TrackedOutput, write_and_flush};
use ob0_analysis::{Analysis, Diagnosis};
use ob0_text::{Lines, Position, TextStore};
use std::alloc::{AllocError, Global};

/// Prints one line `L:C: Code: message` to `out` for each diagnostic of a file, and returns the
/// program's exit status. `L` and `C` are the line and the UTF-16 unit at which the diagnostic
/// starts, counted from 0. `file` holds all bytes of the file, or the first 1,048,577 if the file
/// has more. The status is 0 if there are no diagnostics and 1 if there are some. If a file that
/// isn't too long isn't UTF-8, or if a write fails, the status is 4. If an allocation fails, it is
/// 5. With status 4 or 5, the line `fault: NAME` is printed to `err`.
pub fn check_text<O: TrackedOutput, E: TrackedOutput>(
    alloc: Global,
    file: &[u8],
    out: &mut O,
    err: &mut E,
) -> u8
    ensures { ChecksFile O.contents O.is_flushed O.has_failed out.old out.new
        (PrintsOptionalLine E.contents E.is_flushed E.has_failed err.old err.new) file.now result }
{
    let mut kept = None;
    check_keeping_analysis(alloc, file, out, err, &mut kept)
}

/// Does the work of `check_text`. If the file's text is analysed, the analysis is put into `kept`,
/// so that the caller decides when it is freed.
pub fn check_keeping_analysis<O: TrackedOutput, E: TrackedOutput>(
    alloc: Global,
    file: &[u8],
    out: &mut O,
    err: &mut E,
    kept: &mut Option<Analysis>,
) -> u8
    ensures { ChecksFile O.contents O.is_flushed O.has_failed out.old out.new
        (PrintsOptionalLine E.contents E.is_flushed E.has_failed err.old err.new) file.now result }
{
    match validate_or_print_diagnoses(alloc, file, out, kept) {
        Ok(Some(_text)) => 0,
        Ok(None) => 1,
        Err(fault) => print_fault(fault, err),
    }
}

/// Returns the text of a file that has no diagnostics. Otherwise prints the diagnostics, flushes
/// and returns None. A file that has more bytes than a text may have gets only the diagnostic
/// `TooLong`. If the bytes of any other file aren't UTF-8, the fault is `Utf8`. If a write or an
/// allocation fails, the fault is `Write` or `Memory`. Puts the analysis of the text into `kept`.
fn validate_or_print_diagnoses<'f, O: TrackedOutput>(
    alloc: Global,
    file: &'f [u8],
    out: &mut O,
    kept: &mut Option<Analysis>,
) -> Result<Option<&'f str>, FileCommandFault>
    ensures found { IfOk result (λ found. MatchOption found
        (PrintsDiagnostics file.entry.now (O.contents out.old) (O.contents out.new))
        (λ text. (text.now ≡ file.entry.now) × ReportsErrorsOf file.entry.now [] × (out.new ≡ out.old))) }
    ensures flushed { IfOk result (λ found. IfNone found (O.is_flushed out.new ≡ true)) }
    ensures readable { OnOk result (¬ IsShortNonUtf8File file.entry.now) }
    ensures unfailed { OnOk result (O.has_failed out.new ≡ O.has_failed out.old) }
    ensures fault { IfErr result (FaultMayStopCommandOnFile file.entry.now) }
    ensures failed { IfErr result
        (OutputFailureMatchesFault (O.has_failed out.old) (O.has_failed out.new)) }
    ensures memory { IfErr result (MemoryFaultImpliesShortFile file.entry.now) }
    ensures kept { IfErr result (PrintsNothingUnlessWriteFault out.old out.new) }
{
    let Some(text) = decode_or_print_too_long_line(file, out)? else {
        return Ok(None);
    };
    let reported = diagnose(alloc, text, kept)?;
    if reported.is_empty() {
        return Ok(Some(text));
    }
    print_diagnoses(alloc, text, reported.as_slice(), out)?;
    Ok(None)
}

/// Analyses a text and returns its diagnostics. Puts the analysis into `kept`.
fn diagnose(
    alloc: Global,
    text: &str,
    kept: &mut Option<Analysis>,
) -> Result<Vec<Diagnosis>, AllocError>
    ensures { IfOk result (λ list. ReportsErrorsOf text.now
        (map reported_diagnosis_of list.items)) }
{
    let analysis = Analysis::analyse_text(alloc, text)?;
    let reported = analysis.diagnoses(alloc);
    *kept = Some(analysis);
    reported
}

/// Returns the text of a file. If the file is too long, prints a diagnostic that says so, flushes
/// and returns None. If the bytes of a shorter file aren't UTF-8, the fault is `Utf8`. If the
/// diagnostic can't be written, the fault is `Write`.
pub fn decode_or_print_too_long_line<'f, O: TrackedOutput>(
    file: &'f [u8],
    out: &mut O,
) -> Result<Option<&'f str>, FileCommandFault>
    ensures found { IfOk result (λ found. MatchOption found ((max_text_length < length file.entry.now)
        × Appends (O.contents out.old) (O.contents out.new) too_long_line)
        (λ text. (text.now ≡ file.entry.now) × (out.new ≡ out.old))) }
    ensures flushed { IfOk result (λ found. IfNone found (O.is_flushed out.new ≡ true)) }
    ensures readable { OnOk result (¬ IsShortNonUtf8File file.entry.now) }
    ensures unfailed { OnOk result (O.has_failed out.new ≡ O.has_failed out.old) }
    ensures fault { IfErr result (FaultMayStopCommandOnFile file.entry.now) }
    ensures failed { IfErr result
        (OutputFailureMatchesFault (O.has_failed out.old) (O.has_failed out.new)) }
    ensures short { IfOk result (λ found. IfSome found
        (λ _. length file.entry.now ≤ max_text_length)) }
    ensures memory { IfErr result (λ fault. fault ≢ faults.Memory) }
    ensures kept { IfErr result (PrintsNothingUnlessWriteFault out.old out.new) }
{
    if file.len() >= MAX_FILE_BYTES_READ {
        write_and_flush(out, "0:0: TooLong: text too long\n")?;
        return Ok(None);
    }
    match str::from_utf8(file) {
        Ok(text) => Ok(Some(text)),
        Err(_) => Err(FileCommandFault::Utf8),
    }
}

/// Prints a line for each of these diagnostics of a text, in order, and flushes. If the write or
/// the flush fails, the fault is `Write`. If an allocation fails, it is `Memory`.
pub fn print_diagnoses<O: TrackedOutput>(
    alloc: Global,
    text: &str,
    reported: &[Diagnosis],
    out: &mut O,
) -> Result<(), FileCommandFault>
    ensures printed { OnOk result (Appends (O.contents out.old) (O.contents out.new)
        (all_diagnosis_lines text.now (map reported_diagnosis_of reported.now))) }
    ensures flushed { OnOk result (O.is_flushed out.new ≡ true) }
    ensures unfailed { OnOk result (O.has_failed out.new ≡ O.has_failed out.old) }
    ensures fault { IfErr result IsWriteOrMemoryFault }
    ensures failed { IfErr result
        (OutputFailureMatchesFault (O.has_failed out.old) (O.has_failed out.new)) }
    ensures kept { IfErr result (PrintsNothingUnlessWriteFault out.old out.new) }
{
    write_and_flush(out, all_diagnosis_lines(alloc, text, reported)?.as_str())
}

/// Returns the lines that report the diagnostics of a text, in order.
fn all_diagnosis_lines(
    alloc: Global,
    text: &str,
    reported: &[Diagnosis],
) -> Result<String, AllocError>
    ensures { IfOk result
        (λ lines. string_bytes lines ≡ all_diagnosis_lines text.now (map reported_diagnosis_of reported.now)) }
{
    let store = Lines::from_str(alloc, text)?;
    let starts = diagnosis_starts(alloc, reported)?;
    let positions = store.positions(alloc, starts.as_slice())?;
    diagnosis_lines_at_positions(alloc, reported, positions.as_slice())
}

/// Returns the start of each diagnostic in order, as a byte offset in the text.
fn diagnosis_starts(alloc: Global, reported: &[Diagnosis]) -> Result<Vec<usize>, AllocError>
    ensures { IfOk result (λ starts. starts.items ≡ map (λ d. d.span.start) reported.now) }
{
    reported
        .iter()
        .map(|diagnosis| diagnosis.span.start as usize)
        .collect(alloc)
}

/// Returns the lines that report these diagnostics, in order. The n-th diagnostic starts at the
/// n-th position.
fn diagnosis_lines_at_positions(
    alloc: Global,
    reported: &[Diagnosis],
    positions: &[Position],
) -> Result<String, AllocError>
    ensures { IfOk result
        (λ lines. string_bytes lines ≡ diagnosis_lines_at_positions positions.now (map reported_diagnosis_of reported.now)) }
{
    let mut lines = String::new(alloc);
    for (diagnosis, position) in reported.iter().zip(positions) {
        let line = diagnosis_line_at(alloc, diagnosis, *position)?;
        lines.push_str(line.as_str())?;
    }
    Ok(lines)
}

/// Returns the line `L:C: Code: message` of a diagnostic that starts at this position.
fn diagnosis_line_at(
    alloc: Global,
    diagnosis: &Diagnosis,
    position: Position,
) -> Result<String, AllocError>
    ensures { IfOk result
        (λ line. string_bytes line ≡ diagnosis_line_at position (reported_diagnosis_of diagnosis.now)) }
{
    let (line, character) = (position.line, position.character);
    let code = diagnosis.code;
    let message = diagnosis.message.as_str();
    format!(in alloc; "{line}:{character}: {code}: {message}\n")
}

//! Renames a declaration or field in a file's text, and prints the result.
//!
//! `rename_text` analyses the text once. `renaming_edits` of `ob0_edits` computes the edits from
//! that analysis. If the text isn't a well-typed module, the diagnostics of the same analysis are
//! printed, as in `validate_or_print_diagnoses`.
//!
//! `rename_analysed_text` does the work once the bytes are known to be UTF-8 and are analysed. It is
//! a separate function because its proof needs a `&str`, which relates the bytes of a text to its
//! characters. The contract of `renaming_edits` is about characters, and the contract of `diagnoses`
//! is about bytes.

ghost use Rattle.std.specs.Prelude.{◌≡◌, true, IfOk, IfErr, OnErr};
ghost use Rattle.ob0_commands.specs.CommandEndings.{EndsWithoutFault};
ghost use Rattle.ob0_commands.specs.CommandEffects.{RenamesInFile};
ghost use Rattle.ob0_commands.specs.RenameOutput.{IsErrAndPrintsRefusal, IsOkAndPrintsPatchedText, RenameEndsWithoutFault};
ghost use Rattle.ob0_commands.specs.StderrLines.{PrintsOptionalLine};
ghost use Rattle.ob0_commands.specs.Statuses.{MemoryFaultImpliesShortFile, IsShortNonUtf8File, OutputFailureMatchesFault, PrintsNothingUnlessWriteFault, IsWriteOrMemoryFault, FaultMayStopCommandOnFile};

use crate::check_command::{decode_or_print_too_long_line, print_diagnoses};
use crate::faults::{FileCommandFault, print_fault};
use crate::tracked_output::{TrackedOutput, write_and_flush};
use ob0_analysis::Analysis;
use ob0_edits::renaming_edits;
use ob0_text::{Edit, EditRefusal, Lines, Position, TextStore, patch};
use std::alloc::Global;

/// Prints a file's text to `out`, with the declaration or field at a position renamed to `new`, and
/// returns the program's exit status. The position's line and UTF-16 unit are counted from 0. If
/// the renaming is refused, `refused: TEXT` is printed to `err`. If the file isn't a well-typed
/// module, its diagnostics are printed as `check_text` prints them. The status is 0 if the text is
/// printed, and 1 for a refusal or diagnostics. If a file that isn't too long isn't UTF-8, or if a
/// write to `out` fails, the status is 4. If an allocation fails, it is 5. With status 4 or 5, the
/// line `fault: NAME` is printed to `err`.
pub fn rename_text<O: TrackedOutput, E: TrackedOutput>(
    alloc: Global,
    file: &[u8],
    position: Position,
    new: &str,
    out: &mut O,
    err: &mut E,
) -> u8
    ensures { RenamesInFile O.contents O.is_flushed O.has_failed out.old out.new
        (PrintsOptionalLine E.contents E.is_flushed E.has_failed err.old err.new) file.now position new.now
        result }
{
    let mut kept = None;
    rename_keeping_analysis(alloc, file, position, new, out, err, &mut kept)
}

/// Does the work of `rename_text`. If the file's text is analysed, the analysis is put into `kept`,
/// so that the caller decides when it is freed.
pub fn rename_keeping_analysis<O: TrackedOutput, E: TrackedOutput>(
    alloc: Global,
    file: &[u8],
    position: Position,
    new: &str,
    out: &mut O,
    err: &mut E,
    kept: &mut Option<Analysis>,
) -> u8
    ensures { RenamesInFile O.contents O.is_flushed O.has_failed out.old out.new
        (PrintsOptionalLine E.contents E.is_flushed E.has_failed err.old err.new) file.now position new.now
        result }
{
    match try_rename_text(alloc, file, position, new, out, err, kept) {
        Ok(status) => status,
        Err(fault) => print_fault(fault, err),
    }
}

/// Does the work of `rename_keeping_analysis`, but returns a fault instead of printing its
/// line `fault: NAME`.
fn try_rename_text<O: TrackedOutput, E: TrackedOutput>(
    alloc: Global,
    file: &[u8],
    position: Position,
    new: &str,
    out: &mut O,
    err: &mut E,
    kept: &mut Option<Analysis>,
) -> Result<u8, FileCommandFault>
    ensures ends { IfOk result (RenameEndsWithoutFault O.contents O.is_flushed out.old out.new
        (PrintsOptionalLine E.contents E.is_flushed E.has_failed err.old err.new) file.now position new.now
        (¬ IsShortNonUtf8File file.now × (O.has_failed out.new ≡ O.has_failed out.old))) }
    ensures fault { IfErr result (FaultMayStopCommandOnFile file.now) }
    ensures failed { IfErr result
        (OutputFailureMatchesFault (O.has_failed out.old) (O.has_failed out.new)) }
    ensures memory { IfErr result (MemoryFaultImpliesShortFile file.now) }
    ensures kept { IfErr result (PrintsNothingUnlessWriteFault out.old out.new) }
    ensures unsaid { OnErr result (err.new ≡ err.old) }
{
    let Some(text) = decode_or_print_too_long_line(file, out)? else {
        return Ok(1);
    };
    let analysis = Analysis::analyse_text(alloc, text)?;
    let renamed = rename_analysed_text(alloc, text, &analysis, position, new, out, err);
    *kept = Some(analysis);
    renamed
}

/// Prints a text with the declaration or field at a position renamed to `new`, or prints the
/// refusal of this renaming. If the text isn't a well-typed module, prints its diagnostics instead.
/// `analysis` is the analysis of the text. Returns the program's exit status: 0 for the renamed
/// text, otherwise 1.
fn rename_analysed_text<O: TrackedOutput, E: TrackedOutput>(
    alloc: Global,
    text: &str,
    analysis: &Analysis,
    position: Position,
    new: &str,
    out: &mut O,
    err: &mut E,
) -> Result<u8, FileCommandFault>
    requires { analysis.now ≡ text.now }
    ensures ends { IfOk result (RenameEndsWithoutFault O.contents O.is_flushed out.old out.new
        (PrintsOptionalLine E.contents E.is_flushed E.has_failed err.old err.new) text.now position new.now
        (O.has_failed out.new ≡ O.has_failed out.old)) }
    ensures fault { IfErr result IsWriteOrMemoryFault }
    ensures failed { IfErr result
        (OutputFailureMatchesFault (O.has_failed out.old) (O.has_failed out.new)) }
    ensures kept { IfErr result (PrintsNothingUnlessWriteFault out.old out.new) }
    ensures unsaid { OnErr result (err.new ≡ err.old) }
{
    let store = Lines::from_str(alloc, text)?;
    match renaming_edits(alloc, &store, analysis, position, new)? {
        Some(outcome) => print_rename_outcome(alloc, &store, outcome, out, err),
        None => {
            let reported = analysis.diagnoses(alloc)?;
            print_diagnoses(alloc, text, reported.as_slice(), out)?;
            Ok(1)
        }
    }
}

/// Applies `edits` to the text of `store` and prints the edited text to `out`. If `edits` is a
/// refusal, prints it to `err` as `refused: TEXT`. Returns the program's exit status: 0 for edits,
/// 1 for a refusal. If an allocation fails, the fault is `Memory`. If a write to `out` fails, it is
/// `Write`.
pub fn print_rename_outcome<T: TextStore, O: TrackedOutput, E: TrackedOutput>(
    alloc: Global,
    store: &T,
    edits: Result<Vec<Edit>, EditRefusal>,
    out: &mut O,
    err: &mut E,
) -> Result<u8, FileCommandFault>
    ensures ends { IfOk result (EndsWithoutFault
        (IsOkAndPrintsPatchedText (T.unit_of store.now) (T.content store.now) edits (O.contents out.old)
        (O.contents out.new) × (O.is_flushed out.new ≡ true) × (err.new ≡ err.old))
        (IsErrAndPrintsRefusal edits (PrintsOptionalLine E.contents E.is_flushed E.has_failed err.old err.new)
        × (out.new ≡ out.old))
        (O.has_failed out.new ≡ O.has_failed out.old)) }
    ensures fault { IfErr result IsWriteOrMemoryFault }
    ensures failed { IfErr result
        (OutputFailureMatchesFault (O.has_failed out.old) (O.has_failed out.new)) }
    ensures kept { IfErr result (PrintsNothingUnlessWriteFault out.old out.new) }
    ensures unsaid { OnErr result (err.new ≡ err.old) }
{
    match edits {
        Ok(edits) => match patch(alloc, store, edits.as_slice()) {
            Ok(text) => {
                write_and_flush(out, text.as_str())?;
                Ok(0)
            }
            Err(_) => Err(FileCommandFault::Memory),
        },
        Err(EditRefusal::Memory) => Err(FileCommandFault::Memory),
        Err(refusal) => {
            let text = refusal.text(alloc)?;
            let name = text.as_str();
            let line = format!(in alloc; "refused: {name}\n")?;
            let _ = write_and_flush(err, line.as_str());
            Ok(1)
        }
    }
}

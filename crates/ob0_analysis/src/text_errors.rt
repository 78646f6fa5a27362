//! Makes the diagnoses of a text without lexical faults.

ghost use Rattle.std.specs.Prelude.{IfOk, map};
ghost use Rattle.ob0_parse.specs.IsRightParseRefusal.{IsRightParseRefusal};
ghost use Rattle.ob0_analysis.specs.ReportedErrors.{ReportsErrorsOf, reported_diagnosis_of};

use crate::diagnoses::{Diagnosis, diagnoses_of_faults, diagnosis_of_refusal};
use crate::module_parts::ModuleParts;
use ob0_parse::tree_is_unique;
use ob0_parse_descent::ParseRefusal;
use ob0_scan::Tokens;
use ob0_scan::laws::scan_is_unique;
use std::alloc::{AllocError, Global};

/// Returns the only diagnosis of a text that the parser refuses: the refusal, at the token that was
/// refused. Returns an error if the refusal is `Memory` or an allocation fails.
pub(crate) fn diagnose_refusal(
    alloc: Global,
    tokens: &Tokens,
    refusal: &ParseRefusal,
) -> Result<Vec<Diagnosis>, AllocError>
    requires { IsRightParseRefusal tokens.now refusal.now }
    ensures { IfOk result (λ list. ReportsErrorsOf tokens.now.text
        (map reported_diagnosis_of list.items)) }
{
    scan_is_unique();
    // The proof needs the invariant of the tokens, which this call's contract states.
    let _text = tokens.text();
    let mut reported = Vec::new(alloc);
    reported.push(diagnosis_of_refusal(alloc, tokens, refusal)?)?;
    Ok(reported)
}

/// Returns the diagnoses of a text that has a tree: one for each reported fault of names and types.
/// The list is empty exactly if the module is well-typed.
pub(crate) fn diagnose_module(
    alloc: Global,
    parts: &ModuleParts,
) -> Result<Vec<Diagnosis>, AllocError>
    ensures { IfOk result
        (λ list. ReportsErrorsOf parts.now.module_read.source.text (map reported_diagnosis_of list.items)) }
{
    scan_is_unique();
    tree_is_unique();
    // The proof needs the invariant of the tokens, which this call's contract states.
    let _text = parts.tokens().text();
    let module = parts.module();
    let resolved = parts.resolved_module(&module);
    let checked = parts.checked_module(alloc, &resolved)?;
    let reported = diagnoses_of_faults(alloc, checked.faults())?;
    Ok(reported)
}

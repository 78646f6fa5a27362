//! The names of `ob0_refs`.

use crate::modules::count_bound_after_rename;
use ob0_refs::{At, Capture, Hover, Of, at, captures, definition, hover, references};
use ob0_scan::Span;
use ob0_scope::Resolved;
use ob0_types::WellTyped;
use std::alloc::{AllocError, Global};

/// Returns the ordinal of a declaration, 0 for a predeclared name, and for a field the sum of its
/// numbers.
fn number_of(of: Of) -> usize {
    match of {
        Of::Declared(ordinal) => ordinal,
        Of::Predeclared => 0,
        Of::Field { ordinal, index } => ordinal.saturating_add(index),
    }
}

/// Returns the start of the name at an offset, and the number of its declaration.
fn name_at(module: &WellTyped<'_>, offset: usize) -> Option<(u32, usize)> {
    let found: Option<At> = at(module, offset);
    match found {
        Some(At { span, of }) => Some((span.start, number_of(of))),
        None => None,
    }
}

/// Returns whether each call gives its answer about the variable `r`, which is declared at 59 and
/// used at 71 and 87.
pub fn answers_are_as_expected(alloc: Global, module: &WellTyped<'_>) -> bool {
    let declared: Option<Span> = definition(module, 71);
    match declared {
        Some(span) => span.start == 59
            && name_at(module, 72) == Some((71, 9))
            && texts_are_as_expected(alloc, module) == Ok(true)
            && names_are_as_expected(alloc, module.resolved()) == Ok(true),
        None => false,
    }
}

/// Returns whether the variable has its hover text and its uses.
fn texts_are_as_expected(alloc: Global, module: &WellTyped<'_>) -> Result<bool, AllocError> {
    let uses: Result<Vec<Span>, AllocError> = references(alloc, module, 71, false);
    if uses?.len() != 2 {
        return Ok(false);
    }
    let shown: Result<Option<Hover>, AllocError> = hover(alloc, module, 71);
    match shown? {
        Some(Hover { span, text }) => {
            Ok(span.start == 71 && text.as_str() == "VAR r: RECORD with 1 fields")
        }
        None => Ok(false),
    }
}

/// Returns whether renaming the constant to `r` has a conflict, and to `d` leaves each name bound.
fn names_are_as_expected(alloc: Global, names: &Resolved<'_>) -> Result<bool, AllocError> {
    let conflict: Result<Option<Capture>, AllocError> = captures(alloc, names, 7, "r");
    let Some(Capture { span }) = conflict? else {
        return Ok(false);
    };
    let bound = count_bound_after_rename(alloc, names, 7, "d")?;
    Ok(span.start == 16 && bound == 6)
}

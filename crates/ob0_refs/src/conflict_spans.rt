//! Finds the span of the identifier at which a conflict of a renaming is reported.

ghost use Rattle.std.specs.Prelude.{◌≡◌};
ghost use Rattle.ob0_scope.specs.Renames.{conflict_of};
ghost use Rattle.ob0_refs.specs.ConflictSpans.{conflict_span, occurrence_span, span_or_text_start};

use crate::declaration_spans::declaring_identifier_span;
use ob0_scan::Span;
use ob0_scope::FirstConflict;
use ob0_scope_table::{Resolved, token_span};

/// Returns the span at which the conflict `capture` of a renaming is reported. `declaration` is the
/// ordinal of the renamed declaration. If another declaration of the same block has the new name
/// (`Duplicate`), this is the span of the identifier that declares `declaration`. Otherwise
/// (`Occurrence`) it is the span of the looked-up name whose binding would change. If the
/// identifier isn't found, the span is empty and at the text's start.
pub(crate) fn conflict_span(names: &Resolved, declaration: usize, capture: FirstConflict) -> Span
    ensures { result ≡ conflict_span names.now.module_read declaration (conflict_of capture) }
{
    match capture {
        FirstConflict::Duplicate(_) => span_or_text_start(declaring_identifier_span(
            names,
            declaration,
        )),
        FirstConflict::Occurrence(k) => span_or_text_start(occurrence_span(names, k)),
    }
}

/// Returns the span, or an empty span at the text's start if there is none.
fn span_or_text_start(span: Option<Span>) -> Span
    ensures { result ≡ span_or_text_start span }
{
    match span {
        Some(span) => span,
        None => Span { start: 0, end: 0 },
    }
}

/// Returns the span of the looked-up name with this number, counted from 0 in text order. Returns
/// None if there is no such name.
fn occurrence_span(names: &Resolved, k: usize) -> Option<Span>
    ensures { result ≡ occurrence_span names.now.module_read k }
{
    let tokens = names.module().tokens();
    match names.occurrences().get(k) {
        Some(token) => Some(token_span(tokens, *token)),
        None => None,
    }
}

//! Finds the span of the identifier that declares a name, and the spans of all references to it.

ghost use Rattle.std.specs.Prelude.{◌≡◌, IfOk, map};
ghost use Rattle.ob0_scope_table.specs.Resolution.{token_span};
ghost use Rattle.ob0_refs.specs.Places.{declaring_identifier_span, reference_spans_of_declaration};

use ob0_scan::{Span, Tokens};
use ob0_scope::tokens_bound_to_declaration;
use ob0_scope_table::{Resolved, token_span};
use std::alloc::{AllocError, Global};

/// Returns the span of the identifier that declares the name with this ordinal. Returns None for a
/// predeclared name, and if no declaration has this ordinal.
pub(crate) fn declaring_identifier_span(names: &Resolved, ordinal: usize) -> Option<Span>
    ensures { result ≡ declaring_identifier_span names.now.module_read ordinal }
{
    let tokens = names.module().tokens();
    match names.declaring_token(ordinal) {
        Some(token) => Some(token_span(tokens, token)),
        None => None,
    }
}

/// Returns the spans of all references to the declaration with the ordinal `declaration`, in text
/// order. A procedure's closing name is also a reference. The declaring identifier is among the
/// references if `include` is true.
pub(crate) fn reference_spans_of_declaration(
    alloc: Global,
    names: &Resolved,
    declaration: usize,
    include: bool,
) -> Result<Vec<Span>, AllocError>
    ensures { IfOk result
        (λ spans. spans.items ≡ reference_spans_of_declaration names.now.module_read declaration include) }
{
    let found = tokens_bound_to_declaration(alloc, names, declaration, include)?;
    token_spans(alloc, names.tokens(), &found)
}

/// Returns the spans of the tokens with the indexes `found`, in the same order.
pub(crate) fn token_spans(
    alloc: Global,
    tokens: &Tokens,
    found: &[usize],
) -> Result<Vec<Span>, AllocError>
    ensures { IfOk result (λ spans. spans.items ≡ map (token_span tokens.now) found.now) }
{
    found
        .iter()
        .map(|token| token_span(tokens, *token))
        .collect(alloc)
}

//! Finds a token's ordinal and its span, and compares its spelling with a name. The ordinal is the
//! number of the declaration to which the token's identifier is bound.

ghost use Rattle.std.specs.Prelude.{◌≡◌};
ghost use Rattle.ob0_tree.specs.TokenIndexLeaves.{token_text_at};
ghost use Rattle.ob0_language_names.specs.Names.{same_name};
ghost use Rattle.ob0_language_names.specs.Scopes.{same_ordinal};
ghost use Rattle.ob0_scope_table.specs.Resolution.{ordinal_in, token_span};

use crate::ordinal_entry::OrdinalEntry;
use ob0_scan::{Span, Tokens};
use ob0_tree::token_text_at;

/// Returns the ordinal that the table `ordinals` has for the token with the index `token`. Returns
/// None if the token has no ordinal, or if the index is outside the table.
pub fn ordinal_at(ordinals: &[OrdinalEntry], token: usize) -> Option<usize>
    ensures { result ≡ ordinal_in ordinals.now token }
{
    match ordinals.get(token) {
        Some(entry) => entry.ordinal(),
        None => None,
    }
}

/// Returns whether the optional ordinal `found` equals `ordinal`. Returns false if `found` is None.
pub fn same_ordinal(found: Option<usize>, ordinal: usize) -> bool
    ensures { result ≡ same_ordinal found ordinal }
{
    match found {
        Some(other) => other == ordinal,
        None => false,
    }
}

/// Returns the span, in bytes, of the token with the index `token`. If there is no such token, the
/// span is empty and at the text's start.
pub fn token_span(tokens: &Tokens, token: usize) -> Span
    ensures { result ≡ token_span tokens.now token }
{
    match tokens.tokens().get(token) {
        Some(found) => found.span,
        None => Span { start: 0, end: 0 },
    }
}

/// Returns whether the token with the index `token` has the spelling `name`. A token that doesn't
/// exist has the empty spelling.
pub fn has_spelling(tokens: &Tokens, token: usize, name: &str) -> bool
    ensures { result ≡ same_name (token_text_at tokens.now token) name.now }
{
    token_text_at(tokens, token) == name
}

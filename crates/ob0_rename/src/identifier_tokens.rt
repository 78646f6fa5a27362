//! Finds the identifier at a byte offset and its meaning, the tokens that the renaming of a
//! declaration changes, and the range of a token.

ghost use Rattle.std.specs.Prelude.{◌≡◌, ℕ, IfOk, IfSome, Some};
ghost use Rattle.ob0_scan.specs.LexemeClasses.{IsIdentifier};
ghost use Rattle.ob0_scope_table.specs.Resolution.{token_span};
ghost use Rattle.ob0_text.specs.Units.{width_of};
ghost use Rattle.ob0_tree.specs.TokenIndexLeaves.{token_text_at};
ghost use Rattle.ob0_edits_tokens.specs.Ranges.{range_of};
ghost use Rattle.ob0_edits_tokens.specs.Replacements.{AreIdentifierIndexes};
ghost use Rattle.ob0_types.specs.IdentifierMeanings.{MeansField, identifier_meaning_at_offset};
ghost use Rattle.ob0_rename.specs.Renaming.{declaration_has_name, tokens_to_rename};

use ob0_edits_tokens::range_of;
use ob0_scan::{Span, Tokens};
use ob0_scope::tokens_changed_by_rename;
use ob0_scope_table::{Resolved, has_spelling, token_span};
use ob0_text::{Range, TextStore};
use ob0_types::{IdentifierWithMeaning, WellTyped, identifier_meaning_at_offset};
use std::alloc::{AllocError, Global};

/// Returns the identifier at a byte offset with its meaning: a declared name or a field. Returns
/// None if the offset is on neither. The contract also promises that a field's name is an
/// identifier by the scanner's rules.
pub(crate) fn resolved_identifier_at(
    well_typed: &WellTyped<'_>,
    offset: usize,
) -> Option<IdentifierWithMeaning>
    ensures found { result ≡ identifier_meaning_at_offset well_typed.now offset }
    ensures spelled { IfSome result (λ x. MeansField x.means
        → IsIdentifier (token_text_at well_typed.now.module_read.source x.token)) }
{
    // The proof needs `IsScan` of the tokens, which the contract of this call states.
    let _text = well_typed.resolved().tokens().text();
    identifier_meaning_at_offset(well_typed, offset)
}

/// Returns the indexes of the tokens at which a renaming of a declaration writes `new`, in text
/// order. `declaration` is the declaration's ordinal. The list is empty if the declaration already
/// has the name `new`.
pub(crate) fn tokens_to_rename(
    alloc: Global,
    names: &Resolved,
    declaration: usize,
    new: &str,
) -> Result<Vec<usize>, AllocError>
    ensures value { IfOk result
        (λ found. found.items ≡ tokens_to_rename names.now.module_read declaration new.now) }
    ensures names { IfOk result
        (λ found. AreIdentifierIndexes names.now.module_read.source.tokens 0 found.items) }
{
    if declaration_has_name(names, declaration, new) {
        return Ok(Vec::new(alloc));
    }
    tokens_changed_by_rename(alloc, names, declaration)
}

/// Returns whether the declaration with the ordinal `declaration` has the name `name`. For a
/// predeclared name the result is false, because no token declares it.
fn declaration_has_name(names: &Resolved, declaration: usize, name: &str) -> bool
    ensures { result ≡ declaration_has_name names.now.module_read declaration name.now }
{
    // The proof needs `IsResolution` of the names, which the contract of this call states.
    let _module = names.module();
    match names.declaring_token(declaration) {
        Some(token) => has_spelling(names.tokens(), token, name),
        None => false,
    }
}

/// Returns the range of the token with the index `token`. For None, returns an empty range at the
/// start of the text.
pub(crate) fn token_range<T: TextStore>(store: &T, tokens: &Tokens, token: Option<usize>) -> Range
    ensures { (index : ℕ)
        → token ≡ Some index
        → result
        ≡ range_of (width_of (T.unit_of store.now)) (T.content store.now)
        (token_span tokens.now index) }
{
    match token {
        Some(index) => range_of(store, token_span(tokens, index)),
        None => range_of(store, Span { start: 0, end: 0 }),
    }
}

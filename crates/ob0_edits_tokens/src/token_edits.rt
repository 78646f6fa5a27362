//! Makes the edits that replace several identifiers by one text, and the edit that removes a
//! declaration.

ghost use Rattle.std.specs.Prelude.{◌≡◌, ◌⊎◌, ◌+◌, ◌++◌, ◌∷◌, [], suc, OnOk, ◌≤◌, ◌<◌, nat_lt, List, length, map, IfOk, IfErr, IsErrOf};
ghost use Rattle.std.specs.Str.{chars};
ghost use Rattle.ob0_scan.specs.TextWithTokens.{Word, max_text_length};
ghost use Rattle.ob0_text.specs.declared.refusals.EditRefusal.TheVariants.{TooLong, Memory};
ghost use Rattle.ob0_edits_tokens.specs.WordReplacements.{words_of_text, changed_words, changes_at_indexes};
ghost use Rattle.ob0_edits_tokens.specs.Replacements.{AreIdentifierIndexes, replacement_cut, text_after_replacement, MayReplaceIdentifier, range_and_text, replacement_at_token, EditedTextHasWords};
ghost use Rattle.ob0_text.specs.Units.{width_of};
ghost use Rattle.ob0_edits_tokens.specs.Ranges.{range_of};
ghost use Rattle.ob0_edits_tokens.specs.ByteCuts.{length_after_cuts_from_offset};
ghost use Rattle.ob0_edits_tokens.specs.Removals.{changes_with_removal, MayBeConstantDeclaration, span_of_tokens, text_after_removal_and_replacement};

use crate::spans_and_ranges::{ranges_of_spans, token_span_or_empty, token_spans};
use ob0_scan::{MAX_TEXT_LENGTH, Span, Tokens};
use ob0_text::{Edit, EditRefusal, Range, TextStore};
use std::alloc::Global;

/// Returns the edits that replace identifiers by `new`, in text order. There is one edit for each
/// index in `token_indexes`, which are token indexes of identifiers in ascending order. Fails with
/// `TooLong` if the resulting text is longer than a text may be. Fails with `Memory` if an
/// allocation fails.
pub fn replacement_edits<T: TextStore>(
    alloc: Global,
    store: &T,
    tokens: &Tokens,
    token_indexes: &[usize],
    new: &str,
) -> Result<Vec<Edit>, EditRefusal>
    requires content { T.content store.now ≡ chars tokens.now.text }
    requires names { AreIdentifierIndexes tokens.now.tokens 0 token_indexes.now }
    ensures edits { IfOk result (λ edits. map range_and_text edits.items
        ≡ map (replacement_at_token (T.unit_of store.now) (T.content store.now) tokens.now.tokens new.now)
        token_indexes.now) }
    ensures short { IfOk result
        (λ edits. length (text_after_replacement tokens.now token_indexes.now new.now) ≤ max_text_length) }
    ensures words { (ws : List Word) → MayReplaceIdentifier new.now ws
        → IfOk result (λ edits. EditedTextHasWords (T.unit_of store.now) (T.content store.now) edits.items
        (changed_words (changes_at_indexes token_indexes.now ws) 0 (words_of_text tokens.now))) }
    ensures too_long { IsErrOf result TooLong
        → max_text_length < length (text_after_replacement tokens.now token_indexes.now new.now) }
    ensures refusals { IfErr result (λ refusal. (refusal ≡ TooLong) ⊎ (refusal ≡ Memory)) }
{
    // The proof needs the contract of this call: scanning the text gives these tokens (`IsScan`).
    let _text = tokens.text();
    let nothing = Span { start: 0, end: 0 };
    if is_edited_text_too_long(tokens, nothing, token_indexes, new) {
        return Err(EditRefusal::TooLong);
    }
    let mut edits = Vec::new(alloc);
    add_replacement_edits(alloc, store, tokens, token_indexes, new, &mut edits)?;
    Ok(edits)
}

/// Returns the edits that remove a declaration and replace identifiers after it, in text order. The
/// first edit removes the tokens with the indexes `first` to `last` and all text between them. The
/// other edits replace the tokens with the indexes `token_indexes` by `new`, one edit for each.
/// `token_indexes` are token indexes of identifiers, in ascending order, and all are greater than
/// `last`. Fails with `TooLong` if the resulting text is longer than a text may be. Fails with
/// `Memory` if an allocation fails.
pub fn removal_and_replacement_edits<T: TextStore>(
    alloc: Global,
    store: &T,
    tokens: &Tokens,
    first: usize,
    last: usize,
    token_indexes: &[usize],
    new: &str,
) -> Result<Vec<Edit>, EditRefusal>
    requires content { T.content store.now ≡ chars tokens.now.text }
    requires declaration { MayBeConstantDeclaration tokens.now.tokens first last }
    requires names { AreIdentifierIndexes tokens.now.tokens (suc last) token_indexes.now }
    ensures edits { IfOk result (λ edits. map range_and_text edits.items
        ≡ (
          range_of (width_of (T.unit_of store.now)) (T.content store.now)
              (span_of_tokens tokens.now.tokens first last),
          [],
        ) ∷ map (replacement_at_token (T.unit_of store.now)
        (T.content store.now) tokens.now.tokens new.now) token_indexes.now) }
    ensures short { IfOk result
        (λ edits. length (text_after_removal_and_replacement tokens.now first last token_indexes.now new.now) ≤ max_text_length) }
    ensures words { (ws : List Word) → MayReplaceIdentifier new.now ws
        → IfOk result (λ edits. EditedTextHasWords (T.unit_of store.now) (T.content store.now) edits.items
        (changed_words (changes_with_removal first last (changes_at_indexes token_indexes.now ws)) 0
        (words_of_text tokens.now))) }
    ensures too_long { IsErrOf result TooLong
        → max_text_length < length (text_after_removal_and_replacement tokens.now first last token_indexes.now new.now) }
    ensures refusals { IfErr result (λ refusal. (refusal ≡ TooLong) ⊎ (refusal ≡ Memory)) }
{
    // The proof needs the contract of this call: scanning the text gives these tokens (`IsScan`).
    let _text = tokens.text();
    let start = token_span_or_empty(tokens.tokens(), first).start;
    let end = token_span_or_empty(tokens.tokens(), last).end;
    let declaration = Span { start, end };
    if is_edited_text_too_long(tokens, declaration, token_indexes, new) {
        return Err(EditRefusal::TooLong);
    }
    let mut edits = Vec::new(alloc);
    edits.push(Edit {
        range: range_of(store, declaration),
        text: String::new(alloc),
    })?;
    add_replacement_edits(alloc, store, tokens, token_indexes, new, &mut edits)?;
    Ok(edits)
}

/// Appends to `edits` one edit for each index in `token_indexes`, in the same order. The edit
/// replaces the token with this index by `new`. The only refusal is `Memory`, if an allocation
/// fails.
fn add_replacement_edits<T: TextStore>(
    alloc: Global,
    store: &T,
    tokens: &Tokens,
    token_indexes: &[usize],
    new: &str,
    edits: &mut Vec<Edit>,
) -> Result<(), EditRefusal>
    ensures added { OnOk result (map range_and_text edits.new.items
        ≡ map range_and_text edits.old.items
        ++ map (replacement_at_token (T.unit_of store.now) (T.content store.now) tokens.now.tokens new.now)
        token_indexes.now) }
    ensures memory { IfErr result (λ refusal. refusal ≡ Memory) }
{
    let spans = token_spans(alloc, tokens.tokens(), token_indexes)?;
    let ranges = ranges_of_spans(alloc, store, &spans)?;
    for range in &ranges {
        let text = String::from_str(alloc, new)?;
        let edit = Edit {
            range: *range,
            text,
        };
        edits.push(edit)?;
    }
    Ok(())
}

/// Returns the range of a span of bytes. Its positions are counted in the store's unit.
pub fn range_of<T: TextStore>(store: &T, span: Span) -> Range
    ensures { result ≡ range_of (width_of (T.unit_of store.now)) (T.content store.now) span }
{
    Range {
        start: store.position(span.start as usize),
        end: store.position(span.end as usize),
    }
}

/// Returns whether an edited text is longer than a text may be. The edits remove the bytes of the
/// span `removed`. After that span, they replace each token whose index is in `token_indexes` by
/// `new`.
fn is_edited_text_too_long(
    tokens: &Tokens,
    removed: Span,
    token_indexes: &[usize],
    new: &str,
) -> bool
    ensures { result
        ≡ nat_lt max_text_length (removed.start + length_after_cuts_from_offset (length tokens.now.text) removed.end
        (map (replacement_cut tokens.now.tokens new.now) token_indexes.now)) }
{
    let mut length = removed.start as usize;
    let mut end = removed.end as usize;
    for token_index in token_indexes {
        let span = token_span_or_empty(tokens.tokens(), *token_index);
        length += (span.start as usize).saturating_sub(end) + new.len();
        end = span.end as usize;
        if length > MAX_TEXT_LENGTH {
            return true;
        }
    }
    length + tokens.text().len().saturating_sub(end) > MAX_TEXT_LENGTH
}

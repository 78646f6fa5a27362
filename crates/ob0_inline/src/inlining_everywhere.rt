//! Makes the edits that inline a constant at all its uses and remove its declaration, or returns a
//! refusal.

ghost use Rattle.std.specs.Prelude.{◌≡◌, ◌⊎◌, ◌<◌, ◌≤◌, ◌∷◌, [], IfOk, IfErr, IsErrOf, length, map};
ghost use Rattle.std.specs.List.{list_any};
ghost use Rattle.std.specs.Str.{chars};
ghost use Rattle.ob0_scan.specs.TextWithTokens.{max_text_length};
ghost use Rattle.ob0_text.specs.declared.refusals.EditRefusal.TheVariants.{Memory, TooDeep, TooLong};
ghost use Rattle.ob0_text.specs.Texts.{offset_of};
ghost use Rattle.ob0_text.specs.Units.{width_of};
ghost use Rattle.ob0_tree.specs.Module.{max_nesting};
ghost use Rattle.ob0_tree.specs.Tree.{nesting};
ghost use Rattle.ob0_edits_tokens.specs.Ranges.{range_of};
ghost use Rattle.ob0_edits_tokens.specs.Removals.{span_of_tokens};
ghost use Rattle.ob0_edits_tokens.specs.Replacements.{replacement_at_token, range_and_text};
ghost use Rattle.ob0_inline.specs.Declarations.{contains_span};
ghost use Rattle.ob0_inline.specs.Everywhere.{AnswersInliningOfConstant, AnswersInliningEverywhere, IsDeclaredConstant, UsesAreFactors, tree_inlined_everywhere, text_inlined_everywhere, tokens_of_uses};
ghost use Rattle.ob0_inline.specs.EditedModuleTexts.{EditedTextHasTree};
ghost use Rattle.ob0_inline.specs.Values.{value_text};

use crate::declared_constants::{DeclaredConstant, constant_at};
use crate::nesting_limit::is_edited_text_nested_too_deeply;
use crate::shadowed_truth_names::has_shadowed_use;
use crate::value_texts::{scalar_fits_in_32_bits, value_text};
use ob0_edits_tokens::removal_and_replacement_edits;
use ob0_language_runs::laws::inlining_everywhere_keeps_typing_and_runs;
use ob0_language_types::laws::constant_uses_are_factors;
use ob0_scan::{Span, Tokens};
use ob0_scope_table::{Resolved, same_ordinal};
use ob0_text::{Edit, EditRefusal, Position, TextStore};
use ob0_types::WellTyped;
use std::alloc::{AllocError, Global};

/// Returns the edits that inline the constant whose name is at `place`. The edits write the
/// constant's value in place of all its uses, and remove its declaration, from its name to its `;`.
/// The first edit removes the declaration, and the other edits follow in text order. If `place`
/// isn't on the name of a constant, the refusal is `NoName`. Otherwise the first refusal that
/// applies is returned (`refusal_of_inlining_everywhere`), or `Memory` if an allocation fails.
pub fn inline_all<T: TextStore>(
    alloc: Global,
    store: &T,
    module: &WellTyped,
    place: Position,
) -> Result<Vec<Edit>, EditRefusal>
    requires content { T.content store.now ≡ chars «module».now.module_read.source.text }
    ensures { AnswersInliningEverywhere (T.unit_of store.now) (T.content store.now) «module».now.module_read
        (offset_of (width_of (T.unit_of store.now)) (T.content store.now) place) result }
{
    match constant_at(module, store.offset(place)) {
        Some(found) => inline_constant(alloc, store, module, found),
        None => Err(EditRefusal::NoName),
    }
}

/// Returns the edits that write the value of `constant` in place of all its uses and remove its
/// declaration, or the first refusal that applies.
fn inline_constant<T: TextStore>(
    alloc: Global,
    store: &T,
    module: &WellTyped,
    constant: DeclaredConstant,
) -> Result<Vec<Edit>, EditRefusal>
    requires content { T.content store.now ≡ chars «module».now.module_read.source.text }
    requires is_constant { IsDeclaredConstant «module».now.module_read constant }
    ensures { AnswersInliningOfConstant (T.unit_of store.now) (T.content store.now) «module».now.module_read
        constant result }
{
    constant_uses_are_factors();
    inlining_everywhere_keeps_typing_and_runs();
    scalar_fits_in_32_bits(constant.value);
    let names = module.resolved();
    match edits_to_inline_everywhere(alloc, store, names, constant) {
        Ok(edits) => {
            if has_shadowed_use(alloc, names, constant)? {
                return Err(EditRefusal::Shadowed);
            }
            if declaration_has_comment(names.tokens(), constant) {
                return Err(EditRefusal::CommentInside);
            }
            Ok(edits)
        }
        Err(refusal) => Err(refusal),
    }
}

/// Returns the edits that inline `constant` everywhere. The first edit removes the constant's
/// declaration. Each further edit writes the value in place of one use, in text order. If the
/// edited text is too long, the refusal is `TooLong`. If it is nested too deep, the refusal is
/// `TooDeep`. If an allocation fails, it is `Memory`.
fn edits_to_inline_everywhere<T: TextStore>(
    alloc: Global,
    store: &T,
    names: &Resolved,
    constant: DeclaredConstant,
) -> Result<Vec<Edit>, EditRefusal>
    requires content { T.content store.now ≡ chars names.now.module_read.source.text }
    requires is_constant { IsDeclaredConstant names.now.module_read constant }
    ensures edits { IfOk result (λ edits. map range_and_text edits.items
        ≡ (
          range_of (width_of (T.unit_of store.now)) (T.content store.now)
              (span_of_tokens names.now.module_read.source.tokens constant.first constant.last),
          [],
        )
        ∷ map (replacement_at_token (T.unit_of store.now)
        (T.content store.now) names.now.module_read.source.tokens (value_text constant.value))
        (tokens_of_uses names.now.module_read constant.ordinal)) }
    ensures inlined { UsesAreFactors names.now.module_read constant.ordinal
        → IfOk result (λ edits. EditedTextHasTree (T.unit_of store.now) (T.content store.now) edits.items
        (tree_inlined_everywhere names.now.module_read constant)) }
    ensures too_long { IsErrOf result TooLong
        → max_text_length < length (text_inlined_everywhere names.now.module_read constant) }
    ensures too_deep { UsesAreFactors names.now.module_read constant.ordinal
        → IsErrOf result TooDeep
        → max_nesting < nesting (tree_inlined_everywhere names.now.module_read constant) }
    ensures short { IfOk result
        (λ edits. length (text_inlined_everywhere names.now.module_read constant) ≤ max_text_length) }
    ensures deep_and_short { IsErrOf result TooDeep
        → length (text_inlined_everywhere names.now.module_read constant) ≤ max_text_length }
    ensures refusals { IfErr result
        (λ refusal. (refusal ≡ TooLong) ⊎ ((refusal ≡ TooDeep) ⊎ (refusal ≡ Memory))) }
{
    let read = names.module();
    let text = value_text(alloc, constant.value)?;
    let uses = tokens_of_uses(alloc, names, constant.ordinal)?;
    let (first, last) = (constant.first, constant.last);
    let edits = removal_and_replacement_edits(
        alloc,
        store,
        names.tokens(),
        first,
        last,
        &uses,
        &text,
    )?;
    if is_edited_text_nested_too_deeply(alloc, store, read, constant.value, &edits)? {
        return Err(EditRefusal::TooDeep);
    }
    Ok(edits)
}

/// Returns the token indexes of all uses of the constant with the ordinal `constant`, in text
/// order.
fn tokens_of_uses(
    alloc: Global,
    names: &Resolved,
    constant: usize,
) -> Result<Vec<usize>, AllocError>
    ensures { IfOk result (λ uses. uses.items ≡ tokens_of_uses names.now.module_read constant) }
{
    // The proof needs `IsResolution` of the names, which the contract of this call states.
    let _module = names.module();
    let mut uses = Vec::new(alloc);
    for token in names.occurrences() {
        if same_ordinal(names.ordinal_at(*token), constant) {
            uses.push(*token)?;
        }
    }
    Ok(uses)
}

/// Returns whether the constant's declaration has a comment between the constant's name and the
/// declaration's `;`.
fn declaration_has_comment(tokens: &Tokens, constant: DeclaredConstant) -> bool
    requires inside { constant.last < length tokens.now.tokens }
    requires order { constant.first < constant.last }
    ensures { result
        ≡ list_any (contains_span (span_of_tokens tokens.now.tokens constant.first constant.last))
        tokens.now.comments }
{
    let part = Span {
        start: tokens.tokens()[constant.first].span.start,
        end: tokens.tokens()[constant.last].span.end,
    };
    tokens.comments().iter().any(|comment| part.start <= comment.start && comment.end <= part.end)
}

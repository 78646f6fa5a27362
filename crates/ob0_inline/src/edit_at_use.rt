//! Makes the edit that writes a constant's value in place of one use.

ghost use Rattle.std.specs.Prelude.{◌≡◌, ◌⊎◌, ◌<◌, ◌≤◌, ◌∷◌, [], IfOk, IfErr, IsErrOf, length, map};
ghost use Rattle.std.specs.Str.{chars};
ghost use Rattle.ob0_scan.specs.TextWithTokens.{max_text_length};
ghost use Rattle.ob0_text.specs.declared.refusals.EditRefusal.TheVariants.{Memory, TooDeep, TooLong};
ghost use Rattle.ob0_tree.specs.Module.{max_nesting};
ghost use Rattle.ob0_tree.specs.Tree.{nesting};
ghost use Rattle.ob0_edits_tokens.specs.Replacements.{replacement_at_token, range_and_text, text_after_replacement};
ghost use Rattle.ob0_inline.specs.Everywhere.{UsesAreFactors};
ghost use Rattle.ob0_inline.specs.EditedModuleTexts.{EditedTextHasTree};
ghost use Rattle.ob0_inline.specs.Uses.{IsConstantUse, tree_with_inlined_use};
ghost use Rattle.ob0_inline.specs.Values.{value_text};

use crate::constant_uses::ConstantUse;
use crate::nesting_limit::is_edited_text_nested_too_deeply;
use crate::value_texts::value_text;
use ob0_edits_tokens::replacement_edits;
use ob0_scope_table::Resolved;
use ob0_text::{Edit, EditRefusal, TextStore};
use std::alloc::Global;

/// Returns the edit that writes a constant's value in place of the use `found`. If the edited text
/// is too long, the refusal is `TooLong`. If it is nested too deep, the refusal is `TooDeep`. If an
/// allocation fails, it is `Memory`.
pub(crate) fn edits_to_inline_use<T: TextStore>(
    alloc: Global,
    store: &T,
    names: &Resolved,
    found: ConstantUse,
) -> Result<Vec<Edit>, EditRefusal>
    requires content { T.content store.now ≡ chars names.now.module_read.source.text }
    requires is_use { IsConstantUse names.now.module_read found }
    ensures edits { IfOk result (λ edits. map range_and_text edits.items
        ≡ replacement_at_token (T.unit_of store.now) (T.content store.now)
        names.now.module_read.source.tokens (value_text found.value) found.token ∷ []) }
    ensures inlined { UsesAreFactors names.now.module_read found.constant
        → IfOk result (λ edits. EditedTextHasTree (T.unit_of store.now) (T.content store.now) edits.items
        (tree_with_inlined_use names.now.module_read found)) }
    ensures too_long { IsErrOf result TooLong
        → max_text_length < length (text_after_replacement names.now.module_read.source (found.token ∷ [])
        (value_text found.value)) }
    ensures too_deep { UsesAreFactors names.now.module_read found.constant
        → IsErrOf result TooDeep
        → max_nesting < nesting (tree_with_inlined_use names.now.module_read found) }
    ensures short { IfOk result (λ edits. length
        (text_after_replacement names.now.module_read.source (found.token ∷ []) (value_text found.value))
        ≤ max_text_length) }
    ensures deep_and_short { IsErrOf result TooDeep
        → length (text_after_replacement names.now.module_read.source (found.token ∷ [])
        (value_text found.value)) ≤ max_text_length }
    ensures refusals { IfErr result
        (λ refusal. (refusal ≡ TooLong) ⊎ ((refusal ≡ TooDeep) ⊎ (refusal ≡ Memory))) }
{
    let read = names.module();
    let text = value_text(alloc, found.value)?;
    let edits = replacement_edits(alloc, store, names.tokens(), &[found.token], &text)?;
    if is_edited_text_nested_too_deeply(alloc, store, read, found.value, &edits)? {
        return Err(EditRefusal::TooDeep);
    }
    Ok(edits)
}

//! Makes the edits that rename a record's field.

ghost use Rattle.std.specs.Prelude.{◌≡◌, Err, IfOk, None, if◌then◌else◌};
ghost use Rattle.std.specs.Str.{chars};
ghost use Rattle.ob0_scan.specs.LexemeClasses.{IsIdentifier};
ghost use Rattle.ob0_text.specs.declared.position_types.Position as positions;
ghost use Rattle.ob0_text.specs.declared.refusals.EditRefusal.TheVariants as refused;
ghost use Rattle.ob0_tree.specs.TokenIndexLeaves.{token_text_at};
ghost use Rattle.ob0_language_names.specs.Names.{same_name};
ghost use Rattle.ob0_edits_tokens.specs.Replacements.{AreIdentifierIndexes};
ghost use Rattle.ob0_types_fields.specs.FieldIdentifiers.{field_declaring_token};
ghost use Rattle.ob0_rename.specs.Answers.{AnswersRenamingOfField, FailsOnlyForMemory};
ghost use Rattle.ob0_rename.specs.Renaming.{field_tokens_to_rename};

use crate::identifier_tokens::token_range;
use ob0_edits_tokens::laws::{
    identifier_may_replace_identifier, renamed_tree_spells_renamed_words,
};
use ob0_edits_tokens::replacement_edits;
use ob0_language_field_laws::laws::renaming_field_to_free_name_keeps_typing_and_runs;
use ob0_scan::is_identifier;
use ob0_text::{Edit, EditRefusal, TextStore};
use ob0_tree::token_text_at;
use ob0_types::{WellTyped, field_declaring_token, field_tokens_in_module};
use ob0_types_fields::laws::{
    duplicate_field_name_has_declaring_token, renaming_changes_field_tokens,
};
use std::alloc::{AllocError, Global};

/// Returns the edits that rename a field to `new`, in text order, or the first refusal that
/// applies. The token with the index `token` declares or selects the field. `owner` is the ordinal
/// of the field's record. Ordinals of array and record types count the words ARRAY and RECORD of
/// the text from 0.
pub(crate) fn rename_field<T: TextStore>(
    alloc: Global,
    store: &T,
    well_typed: &WellTyped<'_>,
    token: usize,
    owner: usize,
    new: &str,
) -> Result<Vec<Edit>, EditRefusal>
    requires { T.content store.now ≡ chars well_typed.now.module_read.source.text }
    ensures answers { (place : positions.Position)
        → AnswersRenamingOfField (record {
          unit = T.unit_of store.now;
          text = T.content store.now;
          names = well_typed.now;
          place = place;
          new = new.now;
        }) owner
        (token_text_at well_typed.now.module_read.source token) result }
    ensures memory { result ≡ Err refused.Memory → IsIdentifier new.now }
    ensures own_name { IsIdentifier new.now
        → new.now ≡ token_text_at well_typed.now.module_read.source token
        → FailsOnlyForMemory result }
{
    identifier_may_replace_identifier();
    renamed_tree_spells_renamed_words();
    renaming_field_to_free_name_keeps_typing_and_runs();
    renaming_changes_field_tokens();
    duplicate_field_name_has_declaring_token();
    let names = well_typed.resolved();
    // The proof needs `IsScan` of the tokens, which the contract of this call states.
    let _text = names.tokens().text();
    if !is_identifier(new) {
        return Err(EditRefusal::BadName);
    }
    let old = token_text_at(names.tokens(), token);
    match conflicting_field_token(well_typed, owner, old, new) {
        Some(other) => Err(EditRefusal::Duplicate {
            range: token_range(store, names.tokens(), Some(other)),
        }),
        None => {
            let tokens = field_tokens_to_rename(alloc, well_typed, owner, old, new)?;
            replacement_edits(alloc, store, names.tokens(), &tokens, new)
        }
    }
}

/// Returns the index of the token that declares another field with the name `new` in the record
/// with the ordinal `owner`. Returns None if no field of that record has this name, or if `new` is
/// the present name `old`.
fn conflicting_field_token(
    well_typed: &WellTyped<'_>,
    owner: usize,
    old: &str,
    new: &str,
) -> Option<usize>
    ensures { result
        ≡ (if same_name new.now old.now
        then None
        else field_declaring_token well_typed.now.module_read owner new.now) }
{
    if new == old {
        return None;
    }
    field_declaring_token(well_typed, owner, new)
}

/// Returns the indexes of the tokens that declare or select the field `old` of the record with the
/// ordinal `owner`, in text order. The list is empty if `new` is equal to `old`.
fn field_tokens_to_rename(
    alloc: Global,
    well_typed: &WellTyped<'_>,
    owner: usize,
    old: &str,
    new: &str,
) -> Result<Vec<usize>, AllocError>
    ensures value { IfOk result
        (λ found. found.items ≡ field_tokens_to_rename well_typed.now owner old.now new.now) }
    ensures names { IfOk result
        (λ found. AreIdentifierIndexes well_typed.now.module_read.source.tokens 0 found.items) }
{
    if new == old {
        return Ok(Vec::new(alloc));
    }
    field_tokens_in_module(alloc, well_typed, owner, old)
}

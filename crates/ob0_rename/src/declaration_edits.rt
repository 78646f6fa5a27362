//! Makes the edits that rename a declaration or a field.

ghost use Rattle.std.specs.Prelude.{◌≡◌, ℕ, Err, Some, slice_get, true};
ghost use Rattle.std.specs.Str.{chars};
ghost use Rattle.ob0_scan.specs.LexemeClasses.{IsIdentifier};
ghost use Rattle.ob0_text.specs.Units.{width_of};
ghost use Rattle.ob0_text.specs.declared.position_types.Position as positions;
ghost use Rattle.ob0_tree.specs.ParsedModule.{tree_of};
ghost use Rattle.ob0_tree.specs.Tree.{occurrences};
ghost use Rattle.ob0_scope_table.specs.Resolution.{token_span};
ghost use Rattle.ob0_scope.specs.declared.name_conflicts.FirstConflict.TheVariants.{Duplicate, Occurrence};
ghost use Rattle.ob0_text.specs.declared.refusals.EditRefusal.TheVariants as refused;
ghost use Rattle.ob0_edits_tokens.specs.Ranges.{range_of};
ghost use Rattle.ob0_rename.specs.Answers.{RenameAnswers, AnswersRenamingOfDeclaration, RenamingCanFailForMemory, FailsOnlyForMemory, AcceptsPresentName};
ghost use Rattle.ob0_rename.specs.Renaming.{declaring_token, declaration_has_name, renaming_at_place};

use crate::field_edits::rename_field;
use crate::identifier_tokens::{resolved_identifier_at, token_range, tokens_to_rename};
use ob0_edits_tokens::laws::{
    identifier_may_replace_identifier, renamed_tree_spells_renamed_words,
};
use ob0_edits_tokens::replacement_edits;
use ob0_language_runs::laws::renaming_to_free_name_keeps_typing_and_runs;
use ob0_scan::is_identifier;
use ob0_scope::{FirstConflict, captures};
use ob0_scope_table::{PREDECLARED_COUNT, Resolved};
use ob0_text::{Edit, EditRefusal, Position, TextStore};
use ob0_types::{IdentifierMeaning, WellTyped};
use std::alloc::Global;

/// Returns the edits that rename the declaration or field at `place` to `new`, in text order. For a
/// declaration, there is one edit for each identifier that declares it, refers to it or repeats its
/// name after END. For a field, there is one edit for each identifier that declares or selects it.
/// If the name is already `new`, there are no edits. The place may be in the name or at its end.
///
/// If several refusals apply, the first in this order is returned:
/// - `NoName`: `place` is neither on a declared name nor on a field. The module's name doesn't
///   count as a declared name.
/// - `Predeclared`: the name at `place` is predeclared.
/// - `BadName`: `new` isn't an identifier.
/// - `Duplicate`: another declaration of the block, or another field of the record, has the name
///   `new`. The range is the range of that name.
/// - `Captures`: an occurrence (a name that is looked up) would be bound to another declaration.
///   The range is the range of the first such occurrence. A field is never refused with `Captures`.
/// - `TooLong`: the edited text would be longer than a text may be.
///
/// If an allocation fails, the refusal is `Memory`.
pub fn rename<T: TextStore>(
    alloc: Global,
    store: &T,
    well_typed: &WellTyped<'_>,
    place: Position,
    new: &str,
) -> Result<Vec<Edit>, EditRefusal>
    requires { T.content store.now ≡ chars well_typed.now.module_read.source.text }
    ensures answers { RenameAnswers (renaming_at_place (T.unit_of store.now) (T.content store.now)
        well_typed.now place new.now) result }
    ensures memory { result ≡ Err refused.Memory
        → RenamingCanFailForMemory (renaming_at_place (T.unit_of store.now) (T.content store.now) well_typed.now place new.now) }
    ensures own_name { AcceptsPresentName (renaming_at_place (T.unit_of store.now)
        (T.content store.now) well_typed.now place new.now) result }
{
    let offset = store.offset(place);
    match resolved_identifier_at(well_typed, offset) {
        None => Err(EditRefusal::NoName),
        Some(found) => match found.means {
            IdentifierMeaning::Name(ordinal) => {
                if ordinal < PREDECLARED_COUNT {
                    Err(EditRefusal::Predeclared)
                } else {
                    rename_declaration(alloc, store, well_typed, ordinal, new)
                }
            }
            IdentifierMeaning::Field(owner) => {
                let token = found.token;
                rename_field(alloc, store, well_typed, token, owner, new)
            }
        },
    }
}

/// Returns the edits that rename the declaration with the ordinal `declaration` to `new`, in text
/// order, or the first refusal that applies.
fn rename_declaration<T: TextStore>(
    alloc: Global,
    store: &T,
    well_typed: &WellTyped<'_>,
    declaration: usize,
    new: &str,
) -> Result<Vec<Edit>, EditRefusal>
    requires { T.content store.now ≡ chars well_typed.now.module_read.source.text }
    ensures answers { (place : positions.Position)
        → AnswersRenamingOfDeclaration (renaming_at_place (T.unit_of store.now) (T.content store.now) well_typed.now place new.now) declaration result }
    ensures memory { result ≡ Err refused.Memory → IsIdentifier new.now }
    ensures own_name { declaration_has_name well_typed.now.module_read declaration new.now ≡ true
        → FailsOnlyForMemory result }
{
    identifier_may_replace_identifier();
    renamed_tree_spells_renamed_words();
    renaming_to_free_name_keeps_typing_and_runs();
    let names = well_typed.resolved();
    // The proof needs `IsScan` of the tokens, which the contract of this call states.
    let _text = names.tokens().text();
    if !is_identifier(new) {
        return Err(EditRefusal::BadName);
    }
    match captures(alloc, names, declaration, new)? {
        Some(capture) => Err(refusal_of_conflict(store, names, capture)),
        None => {
            let tokens = tokens_to_rename(alloc, names, declaration, new)?;
            replacement_edits(alloc, store, names.tokens(), &tokens, new)
        }
    }
}

/// Returns the refusal for the first conflict of the new name (`capture`). A conflict with a
/// declaration gives `Duplicate` with the range of that declaration's name. A conflict at an
/// occurrence gives `Captures` with the range of the occurrence, which would be bound to another
/// declaration.
fn refusal_of_conflict<T: TextStore>(
    store: &T,
    names: &Resolved,
    capture: FirstConflict,
) -> EditRefusal
    ensures duplicate { (other token : ℕ) → capture ≡ Duplicate other
        → declaring_token names.now.module_read other ≡ Some token
        → result ≡ refused.Duplicate (range_of (width_of (T.unit_of store.now))
        (T.content store.now) (token_span names.now.module_read.source token)) }
    ensures occurrence { (k token : ℕ) → capture ≡ Occurrence k
        → slice_get (occurrences (tree_of names.now.module_read)) k ≡ Some token
        → result ≡ refused.Captures (range_of (width_of (T.unit_of store.now))
        (T.content store.now) (token_span names.now.module_read.source token)) }
{
    // The proof needs `IsResolution` of the names, which the contract of this call states.
    let _module = names.module();
    match capture {
        FirstConflict::Duplicate(other) => EditRefusal::Duplicate {
            range: token_range(store, names.tokens(), names.declaring_token(other)),
        },
        FirstConflict::Occurrence(k) => EditRefusal::Captures {
            range: token_range(store, names.tokens(), names.occurrence_token(k)),
        },
    }
}

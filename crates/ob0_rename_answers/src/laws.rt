//! Proves that a request for a rename has an answer for each text: some list of edits is right. The
//! proof assumes that each well-typed text has a module whose names are bound to declarations. The
//! right list is empty if the rename is refused or the text isn't a well-typed module.

ghost use Rattle.ob0_rename_answers.specs.RenameAnswers.{RenamingAlwaysHasAnswer};

use ob0_edits_tokens::laws::{
    identifier_may_replace_identifier, renamed_tree_spells_renamed_words,
};
use ob0_language_field_laws::laws::renaming_field_to_free_name_keeps_typing_and_runs;
use ob0_language_runs::laws::renaming_to_free_name_keeps_typing_and_runs;
use ob0_types_fields::laws::{
    duplicate_field_name_has_declaring_token, renaming_changes_field_tokens,
};

/// Proves that a request for a rename has an answer for each text. The proof assumes that each
/// well-typed text has a module whose names are bound to declarations
/// (`WellTypedTextsCanBeResolved`).
pub fn renaming_always_has_answer()
    ensures { RenamingAlwaysHasAnswer }
{
    renaming_to_free_name_keeps_typing_and_runs();
    renaming_field_to_free_name_keeps_typing_and_runs();
    renaming_changes_field_tokens();
    duplicate_field_name_has_declaring_token();
    renamed_tree_spells_renamed_words();
    identifier_may_replace_identifier();
}

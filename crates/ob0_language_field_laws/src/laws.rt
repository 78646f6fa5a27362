//! Laws about renaming the fields of records. Each function does nothing; its contract is the law.

ghost use Rattle.ob0_language_field_laws.specs.FieldLaws.{RenamingFieldToFreeNameKeepsTypingAndRuns, FieldRenamingKeepsTypeCheck, FieldRenamingKeepsTypingAndRuns};

/// Proves that renaming fields doesn't change whether a module passes the type check, which ignores
/// duplicate names and wrong closing names. Different fields of the same record must get different
/// names.
pub fn field_renaming_keeps_type_check()
    ensures { FieldRenamingKeepsTypeCheck }
{}

/// Proves that a well-typed module remains well-typed and has the same runs if its fields are
/// renamed. Different fields of the same record must get different names.
pub fn field_renaming_keeps_typing_and_runs()
    ensures { FieldRenamingKeepsTypingAndRuns }
{}

/// Proves that a well-typed module remains well-typed and has the same runs if a field is renamed
/// to a free name. A free name is a name that no other field of the record has.
pub fn renaming_field_to_free_name_keeps_typing_and_runs()
    ensures { RenamingFieldToFreeNameKeepsTypingAndRuns }
{}

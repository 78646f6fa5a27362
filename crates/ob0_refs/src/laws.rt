//! States laws about definition, hover and renaming at an identifier that refers to a field. Each
//! function does nothing, and its contract is the law.

ghost use Rattle.ob0_refs.specs.Laws.{FieldsHaveDefinitions, FieldRenamingChangesReferences, FieldsHaveHovers};

/// Proves that in a valid module, definition finds a span at each identifier that refers to a
/// field. Such an identifier is the field's declaration or a selector.
pub fn fields_have_definitions()
    ensures { FieldsHaveDefinitions }
{}

/// Proves that renaming at any identifier that refers to a field finds that field and changes
/// exactly its references.
pub fn field_renaming_changes_references()
    ensures { FieldRenamingChangesReferences }
{}

/// Proves that in a valid module, hover returns a text at each identifier that refers to a field.
/// Such an identifier is the field's declaration or a selector.
pub fn fields_have_hovers()
    ensures { FieldsHaveHovers }
{}

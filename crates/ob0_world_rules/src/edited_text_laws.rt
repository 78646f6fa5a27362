//! Proves a law about the definitions of edited texts.
ghost use Rattle.ob0_world_rules.specs.TextEdits.{EditedTextDefinitionsAgree};

/// Proves that two definitions of the text after edits agree. `text_after_edits` takes edits of the
/// model's type `Replacement`, and `patched_text` takes edits of the code's type `Edit`.
pub fn edited_text_definitions_agree()
    ensures { EditedTextDefinitionsAgree }
{}

//! Defines applied edits, and the result of applying an answer.
ghost use Rattle.std.specs.Prelude.{◌≡◌, IfOk, string_bytes};
ghost use Rattle.std.specs.Str.{chars};
ghost use Rattle.ob0_world_editor.specs.ModelValues.{model_applied_edit_of};

use std::alloc::{AllocError, Global};

/// An edit that the editor applied: the document's uri, and its text before and after the edit.
#[derive(Debug, Drop)]
pub struct Applied {
    pub uri: String,
    pub before: String,
    pub after: String,
}

/// The result of applying an answer.
#[derive(Drop)]
pub enum ApplyOutcome {
    /// The editor has no answer to the request with this number.
    NoSuchAnswer,
    /// The answer was discarded and its edits weren't made, because the document has been changed,
    /// closed or reopened since the request, or because two edits share a character.
    Dropped,
    /// The edits were made. `applied` records the uri and the text before and after the edits.
    /// `content` is the content of the notification that gives the server the new text.
    EditsMade { applied: Applied, content: Vec<u8> },
}

/// Returns the record of an applied edit, with copies of the uri and of the text before the edit.
/// The text after the edit is moved, not copied.
pub fn applied_edit(
    alloc: Global,
    uri: &str,
    before: &str,
    after: String,
) -> Result<Applied, AllocError>
    ensures { IfOk result (λ applied. model_applied_edit_of applied ≡ record
        { uri = uri.now; before = chars before.now; after = chars (string_bytes after) }) }
{
    let uri = String::from_str(alloc, uri)?;
    let before = String::from_str(alloc, before)?;
    Ok(Applied { uri, before, after })
}

//! Writes the notifications and requests of an editor.
ghost use Rattle.std.specs.Prelude.{◌≤◌, ◌<◌, ◌^◌, ◌∷◌, [], pos, IfOk, map};
ghost use Rattle.std.specs.Str.{chars};
ghost use Rattle.serde_json.specs.Data.{depth};
ghost use Rattle.ob0_text.specs.OpenDocuments.{Opened, Changed, Closed, text_change_of};
ghost use Rattle.ob0_rpc.specs.WrittenMessages.{Writes};
ghost use Rattle.ob0_world_rules.specs.TextEdits.{whole_text_change};
ghost use Rattle.ob0_world_editor.specs.ModelValues.{model_ask_of};
ghost use Rattle.ob0_world_editor.specs.MessagesToServer.{IsNotificationOfEvent, IsRequestWithNumber};
ghost use Rattle.ob0_world_editor.specs.Shapes.{request_message};

use crate::asks::Ask;
use crate::params::{
    CodeActionParams, ContentChange, ContentChangeList, DidChangeParams, DocumentId,
    FormattingOptions, FormattingParams, RenameParams, Request, TextDocumentItem,
    VersionedDocumentId,
};
use ob0_rpc::{OneMemberObject, WriteJson, content_of_message, notification_text};
use ob0_text::Change;
use std::alloc::{AllocError, Global};

/// Returns the content of the notification that a document was opened.
pub fn did_open_notification(
    alloc: Global,
    uri: &str,
    version: u64,
    text: &str,
) -> Result<Vec<u8>, AllocError>
    requires { version < 2 ^ 63 }
    ensures { IfOk result
        (λ content. IsNotificationOfEvent (Opened uri.now (pos version) (chars text.now)) content.items) }
{
    let value = TextDocumentItem { uri, version, text };
    let key = "textDocument";
    notification_text(
        alloc,
        "textDocument/didOpen",
        &OneMemberObject { key, value },
    )
}

/// Returns the content of the notification that these changes were made in a document.
pub fn did_change_notification(
    alloc: Global,
    uri: &str,
    version: u64,
    changes: &[Change],
) -> Result<Vec<u8>, AllocError>
    requires { version < 2 ^ 63 }
    ensures { IfOk result (λ content. IsNotificationOfEvent
        (Changed uri.now (pos version) (map text_change_of changes.now)) content.items) }
{
    let changes = ContentChangeList { changes };
    let document = VersionedDocumentId { uri, version };
    notification_text(
        alloc,
        "textDocument/didChange",
        &DidChangeParams { changes, document },
    )
}

/// Returns the content of the notification that this text has replaced the whole text of a
/// document.
pub fn whole_text_notification(
    alloc: Global,
    uri: &str,
    version: u64,
    text: &str,
) -> Result<Vec<u8>, AllocError>
    requires { version < 2 ^ 63 }
    ensures { IfOk result (λ content. IsNotificationOfEvent
        (Changed uri.now (pos version) (whole_text_change (chars text.now) ∷ [])) content.items) }
{
    let whole = [ContentChange { range: None, text }];
    let changes = whole.as_slice();
    let document = VersionedDocumentId { uri, version };
    notification_text(
        alloc,
        "textDocument/didChange",
        &DidChangeParams { changes, document },
    )
}

/// Returns the content of the notification that a document was closed.
pub fn did_close_notification(alloc: Global, uri: &str) -> Result<Vec<u8>, AllocError>
    ensures { IfOk result (λ content. IsNotificationOfEvent (Closed uri.now) content.items) }
{
    let value = DocumentId { uri };
    let key = "textDocument";
    notification_text(
        alloc,
        "textDocument/didClose",
        &OneMemberObject { key, value },
    )
}

/// Returns the content of a message that makes the request for edits `ask`. The message has this
/// number as its id. For both kinds of inlining, it requests the code actions at the position in
/// `ask`.
pub fn request_for_edits(
    alloc: Global,
    number: u64,
    uri: &str,
    ask: &Ask,
) -> Result<Vec<u8>, AllocError>
    ensures { IfOk result (λ content. IsRequestWithNumber number uri.now (model_ask_of ask.now)
        content.items) }
{
    let document = DocumentId { uri };
    match ask {
        Ask::Rename { position, name } => {
            let (position, new_name) = (*position, name.as_str());
            let params = RenameParams {
                new_name,
                position,
                document,
            };
            request_content(alloc, number, "textDocument/rename", &params)
        }
        Ask::InlineHere { position } => {
            let position = *position;
            let params = CodeActionParams { position, document };
            request_content(alloc, number, "textDocument/codeAction", &params)
        }
        Ask::InlineAll { position } => {
            let position = *position;
            let params = CodeActionParams { position, document };
            request_content(alloc, number, "textDocument/codeAction", &params)
        }
        Ask::Format { indent } => {
            let options = FormattingOptions::for_indent(*indent);
            let params = FormattingParams { options, document };
            request_content(alloc, number, "textDocument/formatting", &params)
        }
    }
}

fn request_content<P: WriteJson>(
    alloc: Global,
    number: u64,
    method: &str,
    params: &P,
) -> Result<Vec<u8>, AllocError>
    ensures { IfOk result (λ content.
        depth (request_message number method.now (P.value params.now)) ≤ 127
        → Writes (request_message number method.now (P.value params.now)) content.items) }
{
    let id = number;
    content_of_message(alloc, &Request { id, method, params })
}

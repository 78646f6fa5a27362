//! Writes edits of documents, and the code actions that apply them.
ghost use Rattle.ob0_session_json.specs.JsonViews.{code_action_view, workspace_edit_view};
ghost use Rattle.ob0_session_json.specs.JsonShapes.{document_edit_value, versioned_document_value};

use ob0_rpc::{
    ClientFeatures, OneMemberObject, WriteJson, end_object, write_first_member, write_next_member,
};
use ob0_text::Edit;
use std::alloc::AllocError;

/// The edits of one document, which are written in the form that the client accepts. The form
/// `documentChanges` contains the document's uri and version, and the form `changes` contains only
/// the uri.
#[derive(Drop)]
pub struct WorkspaceEdit<'a> {
    pub client: ClientFeatures,
    pub uri: &'a str,
    pub version: i64,
    pub edits: &'a [Edit],
}

impl<'a> WriteJson for WorkspaceEdit<'a> {
    ghost value = { workspace_edit_view };

    fn write(&self, out: &mut Vec<u8>) -> Result<(), AllocError> {
        if self.client.accepts_document_changes {
            let text_document = VersionedDocument {
                uri: self.uri,
                version: self.version,
            };
            let changes = [TextDocumentEdit {
                edits: self.edits,
                text_document,
            }];
            write_first_member(out, "documentChanges", &changes.as_slice())?;
            end_object(out)
        } else {
            let key = self.uri;
            let value = self.edits;
            write_first_member(out, "changes", &OneMemberObject { key, value })?;
            end_object(out)
        }
    }
}

/// The edits of one version of a document.
#[derive(Drop)]
struct TextDocumentEdit<'a> {
    edits: &'a [Edit],
    text_document: VersionedDocument<'a>,
}

impl<'a> WriteJson for TextDocumentEdit<'a> {
    ghost value = { λ e.
        document_edit_value e.text_document.uri.now e.text_document.version e.edits.now };

    fn write(&self, out: &mut Vec<u8>) -> Result<(), AllocError> {
        write_first_member(out, "edits", &self.edits)?;
        write_next_member(out, "textDocument", &self.text_document)?;
        end_object(out)
    }
}

/// The uri and the version of a document to which edits apply.
#[derive(Drop)]
struct VersionedDocument<'a> {
    uri: &'a str,
    version: i64,
}

impl<'a> WriteJson for VersionedDocument<'a> {
    ghost value = { λ d. versioned_document_value d.uri.now d.version };

    fn write(&self, out: &mut Vec<u8>) -> Result<(), AllocError> {
        write_first_member(out, "uri", &self.uri)?;
        write_next_member(out, "version", &self.version)?;
        end_object(out)
    }
}

/// A code action: its edits and its title.
#[derive(Drop)]
pub struct CodeAction<'a> {
    pub edit: WorkspaceEdit<'a>,
    pub title: &'a str,
}

impl<'a> WriteJson for CodeAction<'a> {
    ghost value = { code_action_view };

    fn write(&self, out: &mut Vec<u8>) -> Result<(), AllocError> {
        write_first_member(out, "edit", &self.edit)?;
        write_next_member(out, "kind", &"refactor.inline")?;
        write_next_member(out, "title", &self.title)?;
        end_object(out)
    }
}

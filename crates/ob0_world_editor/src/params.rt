//! Defines types for the JSON values in an editor's messages (LSP 3.17). Each type implements
//! `WriteJson`, which writes a value as JSON.
ghost use Rattle.std.specs.Prelude.{◌≡◌, false, Some, None, OnOk, codes, map};
ghost use Rattle.serde_json.specs.Data.{array, member, no_members, object};
ghost use Rattle.serde_json.specs.View.{items_of};
ghost use Rattle.ob0_rpc.specs.AppendedJson.{AppendsEachValue};
ghost use Rattle.ob0_rpc.specs.JsonShapes.{jsonrpc_version, text_value as text_data};
ghost use Rattle.ob0_world_editor.specs.Shapes.{code_action_params, change_value_of_range_and_text, change_value, document_id_value, text_document_item_value, formatting_options_value, formatting_options_value_for_indent, rename_params, versioned_document_id_value};

use crate::json_objects::{write_three_members, write_two_members};
use ob0_rpc::{
    OneMemberObject, WriteJson, begin_list, end_list, end_object, write_first_member,
    write_list_item, write_next_member,
};
use ob0_text::{Change, Indent, Position, Range};
use std::alloc::AllocError;

/// A JSON-RPC request. `I` is the type of its id.
#[derive(Drop)]
pub struct Request<'a, I, P> {
    pub id: I,
    pub method: &'a str,
    pub params: &'a P,
}

impl<'a, I: WriteJson, P: WriteJson> WriteJson for Request<'a, I, P> {
    ghost value = { λ r. object (member (codes "id") (I.value r.id)
        (member (codes "jsonrpc") jsonrpc_version
        (member (codes "method") (text_data r.method.now)
        (member (codes "params") (P.value r.params.now) no_members)))) };

    fn write(&self, out: &mut Vec<u8>) -> Result<(), AllocError> {
        write_first_member(out, "id", &self.id)?;
        write_next_member(out, "jsonrpc", &"2.0")?;
        write_next_member(out, "method", &self.method)?;
        write_next_member(out, "params", self.params)?;
        end_object(out)
    }
}

/// A document's identifier: its uri.
#[derive(Drop)]
pub struct DocumentId<'a> {
    pub uri: &'a str,
}

impl<'a> WriteJson for DocumentId<'a> {
    ghost value = { λ d. document_id_value d.uri.now };

    fn write(&self, out: &mut Vec<u8>) -> Result<(), AllocError> {
        let (key, value) = ("uri", self.uri);
        OneMemberObject { key, value }.write(out)
    }
}

/// A document's identifier with its version.
#[derive(Drop)]
pub struct VersionedDocumentId<'a> {
    pub uri: &'a str,
    pub version: u64,
}

impl<'a> WriteJson for VersionedDocumentId<'a> {
    ghost value = { λ d. versioned_document_id_value d.uri.now d.version };

    fn write(&self, out: &mut Vec<u8>) -> Result<(), AllocError> {
        write_two_members(out, "uri", &self.uri, "version", &self.version)
    }
}

/// A document that is opened, with its version and text.
#[derive(Drop)]
pub struct TextDocumentItem<'a> {
    pub uri: &'a str,
    pub version: u64,
    pub text: &'a str,
}

impl<'a> WriteJson for TextDocumentItem<'a> {
    ghost value = { λ d. text_document_item_value d.uri.now d.version d.text.now };

    fn write(&self, out: &mut Vec<u8>) -> Result<(), AllocError> {
        write_first_member(out, "languageId", &"oberon-0")?;
        write_next_member(out, "text", &self.text)?;
        write_next_member(out, "uri", &self.uri)?;
        write_next_member(out, "version", &self.version)?;
        end_object(out)
    }
}

/// A change of a document: the new text of a range, or of the whole document if the range is None.
#[derive(Drop)]
pub struct ContentChange<'a> {
    pub range: Option<Range>,
    pub text: &'a str,
}

impl<'a> WriteJson for ContentChange<'a> {
    ghost value = { λ c. change_value_of_range_and_text c.range c.text.now };

    fn write(&self, out: &mut Vec<u8>) -> Result<(), AllocError> {
        match self.range {
            Some(range) => write_two_members(out, "range", &range, "text", &self.text),
            None => {
                let (key, value) = ("text", self.text);
                OneMemberObject { key, value }.write(out)
            }
        }
    }
}

/// The changes of a document, which are written in order as a JSON array.
#[derive(Drop)]
pub struct ContentChangeList<'a> {
    pub changes: &'a [Change],
}

impl<'a> WriteJson for ContentChangeList<'a> {
    ghost value = { λ c. array (items_of (map change_value c.changes.now)) };

    fn write(&self, out: &mut Vec<u8>) -> Result<(), AllocError> {
        begin_list(out)?;
        write_changes(out, self.changes)?;
        end_list(out)
    }
}

fn write_changes(out: &mut Vec<u8>, changes: &[Change]) -> Result<(), AllocError>
    ensures { OnOk result
        (AppendsEachValue false (map change_value changes.now) out.old.items out.new.items) }
{
    let mut later = false;
    for change in changes {
        let text = change.text.as_str();
        let range = change.range;
        write_list_item(out, later, &ContentChange { range, text })?;
        later = true;
    }
    Ok(())
}

/// The params of a `textDocument/didChange`: the changes, and the document's identifier with its
/// version after the changes.
#[derive(Drop)]
pub struct DidChangeParams<'a, C> {
    pub changes: C,
    pub document: VersionedDocumentId<'a>,
}

impl<'a, C: WriteJson> WriteJson for DidChangeParams<'a, C> {
    ghost value = { λ p. object (member (codes "contentChanges") (C.value p.changes)
        (member (codes "textDocument") (versioned_document_id_value p.document.uri.now p.document.version)
        no_members)) };

    fn write(&self, out: &mut Vec<u8>) -> Result<(), AllocError> {
        write_two_members(
            out,
            "contentChanges",
            &self.changes,
            "textDocument",
            &self.document,
        )
    }
}

/// The params of a rename: the new name, the position of the old name, and the document.
#[derive(Drop)]
pub struct RenameParams<'a> {
    pub new_name: &'a str,
    pub position: Position,
    pub document: DocumentId<'a>,
}

impl<'a> WriteJson for RenameParams<'a> {
    ghost value = { λ p. rename_params p.document.uri.now p.position p.new_name.now };

    fn write(&self, out: &mut Vec<u8>) -> Result<(), AllocError> {
        write_three_members(
            out,
            "newName",
            &self.new_name,
            "position",
            &self.position,
            "textDocument",
            &self.document,
        )
    }
}

/// The params of a request for the code actions at a position.
#[derive(Drop)]
pub struct CodeActionParams<'a> {
    pub position: Position,
    pub document: DocumentId<'a>,
}

impl<'a> WriteJson for CodeActionParams<'a> {
    ghost value = { λ p. code_action_params p.document.uri.now p.position };

    fn write(&self, out: &mut Vec<u8>) -> Result<(), AllocError> {
        let none: [Range; 0] = [];
        let context = OneMemberObject {
            key: "diagnostics",
            value: none.as_slice(),
        };
        let range = Range {
            start: self.position,
            end: self.position,
        };
        write_three_members(
            out,
            "context",
            &context,
            "range",
            &range,
            "textDocument",
            &self.document,
        )
    }
}

/// The formatting options of a request. If `insert_spaces` is true, a level of indentation consists
/// of `tab_size` spaces, otherwise of one tab.
#[derive(Drop)]
pub struct FormattingOptions {
    pub insert_spaces: bool,
    pub tab_size: u64,
}

impl WriteJson for FormattingOptions {
    ghost value = { λ o. formatting_options_value o.insert_spaces o.tab_size };

    fn write(&self, out: &mut Vec<u8>) -> Result<(), AllocError> {
        write_two_members(
            out,
            "insertSpaces",
            &self.insert_spaces,
            "tabSize",
            &self.tab_size,
        )
    }
}

impl FormattingOptions {
    /// Returns the formatting options for an indent.
    pub fn for_indent(indent: Indent) -> FormattingOptions
        ensures { formatting_options_value result.insert_spaces result.tab_size
            ≡ formatting_options_value_for_indent indent }
    {
        match indent {
            Indent::Tab => FormattingOptions {
                insert_spaces: false,
                tab_size: 1,
            },
            Indent::Spaces(count) => FormattingOptions {
                insert_spaces: true,
                tab_size: u64::from(count),
            },
        }
    }
}

/// The params of a formatting request.
#[derive(Drop)]
pub struct FormattingParams<'a> {
    pub options: FormattingOptions,
    pub document: DocumentId<'a>,
}

impl<'a> WriteJson for FormattingParams<'a> {
    ghost value = { λ p. object
        (member (codes "options") (formatting_options_value p.options.insert_spaces p.options.tab_size)
        (member (codes "textDocument") (document_id_value p.document.uri.now) no_members)) };

    fn write(&self, out: &mut Vec<u8>) -> Result<(), AllocError> {
        write_two_members(
            out,
            "options",
            &self.options,
            "textDocument",
            &self.document,
        )
    }
}

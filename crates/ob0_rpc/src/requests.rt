//! Reads the requests of a client (LSP 3.17) from their methods and params.
ghost use Rattle.std.specs.Prelude.{◌≡◌, IfOk, option_map, option_and_then, map, string_bytes, codes};
ghost use Rattle.serde_json.specs.Find.{get};
ghost use Rattle.serde_json.specs.View.{view, items_view};
ghost use Rattle.ob0_text.specs.Indents.{indent_spaces_for_tab_size};
ghost use Rattle.ob0_rpc.specs.Requests as asks;
ghost use Rattle.ob0_rpc.specs.Requests.{document_place_of, request_by_method, references_request_of, rename_request_of, code_action_request_of, formatting_request_of, document_request_by_method, texts_of_optional_list, requested_action_kinds, texts_of_items as texts_in, requested_indent as indent_in, request_or_bad_params, initialize_request_of};
ghost use Rattle.ob0_rpc.specs.Members.{bool_member};
ghost use Rattle.ob0_rpc.specs.MessageViews.{ReadsClientRequest, document_place_view, action_kinds_view};

use crate::client_capabilities::{ClientFeatures, client_features};
use crate::incoming_messages::RpcFault;
use crate::members::{
    bool_of_member, document_uri_in_params, position_of_member, range_of_member, text_of_member,
    unsigned_of_member,
};
use ob0_text::{Indent, MAX_SPACES_PER_LEVEL, Position, Range};
use serde_json::Value;
use std::alloc::{AllocError, Global};

/// A position in a document.
#[derive(Drop)]
pub struct DocumentPosition {
    pub uri: String,
    pub position: Position,
}

/// A request whose method the server knows, with its params.
#[derive(Drop)]
pub enum ClientRequest {
    Initialize(ClientFeatures),
    Shutdown,
    Hover(DocumentPosition),
    Definition(DocumentPosition),
    References {
        place: DocumentPosition,
        include_declaration: bool,
    },
    PrepareRename(DocumentPosition),
    Rename {
        place: DocumentPosition,
        new_name: String,
    },
    CodeAction {
        uri: String,
        range: Range,
        /// The requested kinds of actions, or None if all kinds are requested.
        only: Option<Vec<String>>,
    },
    Formatting {
        uri: String,
        indent: Indent,
    },
}

/// Reads a request from its method and its params. If the method is unknown, the fault is
/// `UnknownMethod`. If the params can't be read, the fault is `BadParams`. The params of
/// `initialize` must be an object. `shutdown` accepts any params.
pub fn request(alloc: Global, method: &str, params: &Value) -> Result<ClientRequest, RpcFault>
    ensures { ReadsClientRequest (request_by_method method.now (view params.now)) result }
{
    if method == "initialize" {
        read_initialize(params)
    } else if method == "shutdown" {
        Ok(ClientRequest::Shutdown)
    } else {
        read_document_request(alloc, method, params)
    }
}

/// Reads a request about a document from its method and its params. If the method is unknown, the
/// fault is `UnknownMethod`. If the params can't be read, the fault is `BadParams`.
fn read_document_request(
    alloc: Global,
    method: &str,
    params: &Value,
) -> Result<ClientRequest, RpcFault>
    ensures { ReadsClientRequest (document_request_by_method method.now (view params.now)) result }
{
    if method == "textDocument/hover" {
        read_hover(alloc, params)
    } else if method == "textDocument/definition" {
        read_definition(alloc, params)
    } else if method == "textDocument/references" {
        read_references(alloc, params)
    } else if method == "textDocument/prepareRename" {
        read_prepare_rename(alloc, params)
    } else if method == "textDocument/rename" {
        read_rename(alloc, params)
    } else if method == "textDocument/codeAction" {
        read_code_action(alloc, params)
    } else if method == "textDocument/formatting" {
        read_formatting(alloc, params)
    } else {
        Err(RpcFault::UnknownMethod)
    }
}

/// Reads the params of `initialize`. If they aren't an object, the fault is `BadParams`.
fn read_initialize(params: &Value) -> Result<ClientRequest, RpcFault>
    ensures { ReadsClientRequest (request_or_bad_params (initialize_request_of (view params.now)))
        result }
{
    if params.is_object() {
        Ok(ClientRequest::Initialize(client_features(params)))
    } else {
        Err(RpcFault::BadParams)
    }
}

/// Reads the params of `textDocument/hover`. If they can't be read, the fault is `BadParams`.
fn read_hover(alloc: Global, params: &Value) -> Result<ClientRequest, RpcFault>
    ensures { ReadsClientRequest (request_or_bad_params
        (option_map asks.hover (document_place_of (view params.now)))) result }
{
    let Some(place) = read_document_position(alloc, params)? else {
        return Err(RpcFault::BadParams);
    };
    Ok(ClientRequest::Hover(place))
}

/// Reads the params of `textDocument/definition`. If they can't be read, the fault is `BadParams`.
fn read_definition(alloc: Global, params: &Value) -> Result<ClientRequest, RpcFault>
    ensures { ReadsClientRequest (request_or_bad_params
        (option_map asks.definition (document_place_of (view params.now)))) result }
{
    let Some(place) = read_document_position(alloc, params)? else {
        return Err(RpcFault::BadParams);
    };
    Ok(ClientRequest::Definition(place))
}

/// Reads the params of `textDocument/prepareRename`. If they can't be read, the fault is
/// `BadParams`.
fn read_prepare_rename(alloc: Global, params: &Value) -> Result<ClientRequest, RpcFault>
    ensures { ReadsClientRequest (request_or_bad_params
        (option_map asks.prepare_rename (document_place_of (view params.now)))) result }
{
    let Some(place) = read_document_position(alloc, params)? else {
        return Err(RpcFault::BadParams);
    };
    Ok(ClientRequest::PrepareRename(place))
}

/// Reads the params of `textDocument/references`. If they can't be read, the fault is `BadParams`.
fn read_references(alloc: Global, params: &Value) -> Result<ClientRequest, RpcFault>
    ensures { ReadsClientRequest (request_or_bad_params (references_request_of (view params.now)))
        result }
{
    let Some(place) = read_document_position(alloc, params)? else {
        return Err(RpcFault::BadParams);
    };
    let Some(include_declaration) = includes_declaration(params) else {
        return Err(RpcFault::BadParams);
    };
    Ok(ClientRequest::References {
        place,
        include_declaration,
    })
}

/// Reads the params of `textDocument/rename`. If they can't be read, the fault is `BadParams`.
fn read_rename(alloc: Global, params: &Value) -> Result<ClientRequest, RpcFault>
    ensures { ReadsClientRequest (request_or_bad_params (rename_request_of (view params.now)))
        result }
{
    let Some(place) = read_document_position(alloc, params)? else {
        return Err(RpcFault::BadParams);
    };
    let Some(new_name) = text_of_member(params, "newName") else {
        return Err(RpcFault::BadParams);
    };
    let new_name = String::from_str(alloc, new_name)?;
    Ok(ClientRequest::Rename { place, new_name })
}

/// Reads the params of `textDocument/codeAction`. If they can't be read, the fault is `BadParams`.
fn read_code_action(alloc: Global, params: &Value) -> Result<ClientRequest, RpcFault>
    ensures { ReadsClientRequest (request_or_bad_params (code_action_request_of (view params.now)))
        result }
{
    let Some(uri) = document_uri_in_params(params) else {
        return Err(RpcFault::BadParams);
    };
    let uri = String::from_str(alloc, uri)?;
    let Some(range) = range_of_member(params, "range") else {
        return Err(RpcFault::BadParams);
    };
    let Some(only) = read_requested_action_kinds(alloc, params.get("context"))? else {
        return Err(RpcFault::BadParams);
    };
    Ok(ClientRequest::CodeAction { uri, range, only })
}

/// Reads the params of `textDocument/formatting`. If they can't be read, the fault is `BadParams`.
fn read_formatting(alloc: Global, params: &Value) -> Result<ClientRequest, RpcFault>
    ensures { ReadsClientRequest (request_or_bad_params (formatting_request_of (view params.now)))
        result }
{
    let Some(uri) = document_uri_in_params(params) else {
        return Err(RpcFault::BadParams);
    };
    let uri = String::from_str(alloc, uri)?;
    let Some(indent) = requested_indent(params) else {
        return Err(RpcFault::BadParams);
    };
    Ok(ClientRequest::Formatting { uri, indent })
}

/// Reads the uri of a document (`textDocument.uri`) and the member `position` from params. Returns
/// None if either can't be read.
fn read_document_position(
    alloc: Global,
    params: &Value,
) -> Result<Option<DocumentPosition>, AllocError>
    ensures { IfOk result (λ found. option_map document_place_view found
        ≡ document_place_of (view params.now)) }
{
    let Some(uri) = document_uri_in_params(params) else {
        return Ok(None);
    };
    let uri = String::from_str(alloc, uri)?;
    match position_of_member(params, "position") {
        Some(position) => Ok(Some(DocumentPosition { uri, position })),
        None => Ok(None),
    }
}

/// Returns the member `includeDeclaration` of the object `context` in params. Returns None if the
/// object is missing, or if the member is missing or isn't a boolean.
fn includes_declaration(params: &Value) -> Option<bool>
    ensures { result
        ≡ option_and_then (bool_member (codes "includeDeclaration"))
        (get (codes "context") (view params.now)) }
{
    bool_of_member(params.get("context")?, "includeDeclaration")
}

/// Returns the indentation that the object `options` in params requests. Returns None if `options`,
/// its number `tabSize` or its boolean `insertSpaces` is missing or has another JSON type.
fn requested_indent(params: &Value) -> Option<Indent>
    ensures { result ≡ option_and_then indent_in (get (codes "options") (view params.now)) }
{
    let options = params.get("options")?;
    let size = unsigned_of_member(options, "tabSize")?;
    let spaces = bool_of_member(options, "insertSpaces")?;
    Some(if spaces {
        Indent::Spaces(spaces_per_level(size))
    } else {
        Indent::Tab
    })
}

/// Returns the number of spaces for one level of indentation: the requested number `size`, but at
/// least 1 and at most [`MAX_SPACES_PER_LEVEL`].
fn spaces_per_level(size: u64) -> u8
    ensures { result ≡ indent_spaces_for_tab_size size }
{
    size.min(MAX_SPACES_PER_LEVEL as u64).max(1) as u8
}

/// Returns the kinds of code actions that the object `context` requests in its member `only`. The
/// result `Some(None)` means that all kinds are requested. The result `None` means that the context
/// is missing or isn't an object, or that the kinds can't be read.
fn read_requested_action_kinds(
    alloc: Global,
    context: Option<&Value>,
) -> Result<Option<Option<Vec<String>>>, AllocError>
    ensures { IfOk result (λ found. option_map action_kinds_view found
        ≡ option_and_then requested_action_kinds (option_map (λ v. view v.now) context.entry)) }
{
    let Some(context) = context else {
        return Ok(None);
    };
    if !context.is_object() {
        return Ok(None);
    }
    read_texts_of_optional_list(alloc, context.get("only"))
}

/// Returns the items of the member `only` as texts. The result `Some(None)` means that the member
/// is absent or null. The result `None` means that the member isn't a list, or that an item isn't a
/// string.
fn read_texts_of_optional_list(
    alloc: Global,
    only: Option<&Value>,
) -> Result<Option<Option<Vec<String>>>, AllocError>
    ensures { IfOk result
        (λ found. option_map action_kinds_view found ≡ texts_of_optional_list (option_map (λ v. view v.now) only.entry)) }
{
    let Some(only) = only else {
        return Ok(Some(None));
    };
    if only.is_null() {
        return Ok(Some(None));
    }
    let Some(items) = only.as_array() else {
        return Ok(None);
    };
    match texts_of_items(alloc, items)? {
        Some(kinds) => Ok(Some(Some(kinds))),
        None => Ok(None),
    }
}

/// Returns the items of a list as texts, or None if an item isn't a string.
fn texts_of_items(alloc: Global, items: &[Value]) -> Result<Option<Vec<String>>, AllocError>
    ensures { IfOk result (λ found. option_map (λ texts. map string_bytes texts.items) found
        ≡ texts_in (items_view items.now)) }
{
    let mut texts = Vec::new(alloc);
    for item in items {
        match item.as_str() {
            Some(text) => texts.push(String::from_str(alloc, text)?)?,
            None => return Ok(None),
        }
    }
    Ok(Some(texts))
}

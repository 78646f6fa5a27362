//! Reads the server's messages: publications, and answers to requests for edits.
ghost use Rattle.std.specs.Prelude.{◌≡◌, IfOk, codes, option_map, option_and_then, map};
ghost use Rattle.serde_json.specs.Find.{get, as_number, as_i64, as_array};
ghost use Rattle.serde_json.specs.View.{view, items_view};
ghost use Rattle.ob0_rpc.specs.Members.{text_member};
ghost use Rattle.ob0_world_editor.specs.ModelValues.{model_message_of, model_ask_of, model_sent_ask_of};
ghost use Rattle.ob0_world_rules.specs.TextEdits.{replacement_of_edit, replacements_of_edits};
ghost use Rattle.ob0_world_editor.specs.MessagesToServer.{request_number_from_id};
ghost use Rattle.ob0_world_editor.specs.MessagesToEditor.{message_to_editor_in_content, message_to_editor_of_value, publication_of_params, answer_of_response, has_no_items, edit_of_value, edits_of_items, text_edits_in_workspace_edit, equals_optional_text, first_action_with_title, text_edits_in_action, text_edits_in_result as items_of_answer, edits_in_answer};
ghost use Rattle.ob0_world_rules.specs.ClientAndServer.{sent_ask_with_number};

use crate::asks::Ask;
use crate::editor::SentAsk;
use ob0_rpc::{range_of_member, text_of_member};
use ob0_text::Edit;
use serde_json::Value;
use std::alloc::{AllocError, Global};

/// A message of the server that the editor uses: a publication, or the answer to a request for
/// edits.
#[derive(Drop)]
pub enum ServerMessage {
    Published {
        uri: String,
        version: Option<i64>,
        empty: bool,
    },
    /// The answer to the request for edits with this number. A refusal has no edits.
    Answered {
        number: u64,
        edits: Vec<Edit>,
    },
}

/// Reads the message in a content. `requested` lists the requests for edits that the editor has
/// sent. Returns None if the content is neither a publication nor the answer to one of these
/// requests.
pub fn read_message(
    alloc: Global,
    requested: &[SentAsk],
    content: &[u8],
) -> Result<Option<ServerMessage>, AllocError>
    ensures { IfOk result
        (λ found. option_map model_message_of found
        ≡ message_to_editor_in_content (map model_sent_ask_of requested.now) content.now) }
{
    match Value::from_slice(alloc, content) {
        Ok(message) => read_message_from_value(alloc, requested, &message),
        Err(error) => if error.is_memory() {
            Err(AllocError)
        } else {
            Ok(None)
        },
    }
}

fn read_message_from_value(
    alloc: Global,
    requested: &[SentAsk],
    message: &Value,
) -> Result<Option<ServerMessage>, AllocError>
    ensures { IfOk result (λ found. option_map model_message_of found
        ≡ message_to_editor_of_value request_number_from_id (map model_sent_ask_of requested.now) (view message.now)) }
{
    if message.get("method").is_none() {
        return read_answer(alloc, requested, message);
    }
    if !has_string_member(message, "method", "textDocument/publishDiagnostics") {
        return Ok(None);
    }
    match message.get("params") {
        Some(params) => read_publication(alloc, params),
        None => Ok(None),
    }
}

// ---- publications

fn read_publication(alloc: Global, params: &Value) -> Result<Option<ServerMessage>, AllocError>
    ensures { IfOk result
        (λ found. option_map model_message_of found ≡ publication_of_params (view params.now)) }
{
    let Some(uri) = text_of_member(params, "uri") else {
        return Ok(None);
    };
    let Some(empty) = has_no_diagnostics(params) else {
        return Ok(None);
    };
    let version = published_version(params);
    let uri = String::from_str(alloc, uri)?;
    Ok(Some(ServerMessage::Published {
        uri,
        version,
        empty,
    }))
}

fn published_version(params: &Value) -> Option<i64>
    ensures { result
        ≡ option_and_then as_i64
        (option_and_then as_number (get (codes "version") (view params.now))) }
{
    params.get("version")?.as_i64()
}

fn has_no_diagnostics(params: &Value) -> Option<bool>
    ensures { result
        ≡ option_map has_no_items
        (option_and_then as_array (get (codes "diagnostics") (view params.now))) }
{
    let diagnostics = published_diagnostics(params)?;
    Some(diagnostics.is_empty())
}

fn published_diagnostics(params: &Value) -> Option<&Vec<Value>>
    ensures { option_map (λ v. items_view v.now.items) result
        ≡ option_and_then as_array (get (codes "diagnostics") (view params.now)) }
{
    params.get("diagnostics")?.as_array()
}

// ---- answers

fn read_answer(
    alloc: Global,
    requested: &[SentAsk],
    answer: &Value,
) -> Result<Option<ServerMessage>, AllocError>
    ensures { IfOk result (λ found. option_map model_message_of found
        ≡ answer_of_response request_number_from_id (map model_sent_ask_of requested.now) (view answer.now)) }
{
    let Some(number) = answer_number(answer) else {
        return Ok(None);
    };
    let Some(requested) = sent_ask_with_number(requested, number) else {
        return Ok(None);
    };
    let edits = read_answer_edits(alloc, requested.uri.as_str(), &requested.ask, answer)?;
    Ok(Some(ServerMessage::Answered { number, edits }))
}

fn answer_number(answer: &Value) -> Option<u64>
    ensures { result ≡ option_and_then request_number_from_id (get (codes "id") (view answer.now)) }
{
    answer.get("id")?.as_u64()
}

/// Returns the sent request for edits with this number, counted from 1, or None if there is no such
/// request.
pub fn sent_ask_with_number(requested: &[SentAsk], number: u64) -> Option<&SentAsk>
    ensures { option_map (λ a. model_sent_ask_of a.now) result
        ≡ sent_ask_with_number (map model_sent_ask_of requested.now) number }
{
    if number == 0 {
        return None;
    }
    let index = (number - 1) as usize;
    if index < requested.len() {
        Some(&requested[index])
    } else {
        None
    }
}

/// Returns the edits in the answer to `ask`, a request for edits of this document. The list is
/// empty if the answer has no edits, or if one of its edits can't be read.
fn read_answer_edits(
    alloc: Global,
    uri: &str,
    ask: &Ask,
    answer: &Value,
) -> Result<Vec<Edit>, AllocError>
    ensures { IfOk result
        (λ edits. replacements_of_edits edits.items
        ≡ edits_in_answer uri.now (model_ask_of ask.now) (view answer.now)) }
{
    let Some(values) = text_edits_in_answer(uri, ask, answer) else {
        return Ok(Vec::new(alloc));
    };
    match read_edit_list(alloc, values)? {
        Some(edits) => Ok(edits),
        None => Ok(Vec::new(alloc)),
    }
}

fn text_edits_in_answer<'v>(uri: &str, ask: &Ask, answer: &'v Value) -> Option<&'v Vec<Value>>
    ensures { option_map (λ v. items_view v.now.items) result
        ≡ option_and_then (items_of_answer uri.now (model_ask_of ask.now))
        (get (codes "result") (view answer.now)) }
{
    let result = answer.get("result")?;
    match ask {
        Ask::Rename {
            position: _position,
            name: _name,
        } => text_edits_in_workspace_edit(result, uri),
        Ask::InlineHere {
            position: _position,
        } => text_edits_in_action(result, "Inline here", uri),
        Ask::InlineAll {
            position: _position,
        } => text_edits_in_action(result, "Inline everywhere", uri),
        Ask::Format { indent: _indent } => result.as_array(),
    }
}

/// Returns the JSON list of the text edits in a WorkspaceEdit. If there is a member
/// `documentChanges`, the list is in the member's first element, whose uri is ignored. Otherwise
/// the list is in the member `changes`, under this uri. Returns None if the list is missing.
fn text_edits_in_workspace_edit<'v>(edit: &'v Value, uri: &str) -> Option<&'v Vec<Value>>
    ensures { option_map (λ v. items_view v.now.items) result
        ≡ text_edits_in_workspace_edit uri.now (view edit.now) }
{
    match edit.get("documentChanges") {
        Some(documents) => documents.get(0)?.get("edits")?.as_array(),
        None => edit.get("changes")?.get(uri)?.as_array(),
    }
}

/// Returns the JSON list of the text edits in the first code action with this title.
/// `text_edits_in_workspace_edit` finds the list in the action's WorkspaceEdit. Returns None if the action
/// or the list is missing.
fn text_edits_in_action<'v>(actions: &'v Value, title: &str, uri: &str) -> Option<&'v Vec<Value>>
    ensures { option_map (λ v. items_view v.now.items) result
        ≡ text_edits_in_action title.now uri.now (view actions.now) }
{
    let action = action_with_title(actions.as_array()?, title)?;
    text_edits_in_workspace_edit(action.get("edit")?, uri)
}

fn action_with_title<'v>(actions: &'v [Value], title: &str) -> Option<&'v Value>
    ensures { option_map (λ v. view v.now) result
        ≡ first_action_with_title title.now (items_view actions.now) }
{
    for action in actions {
        if has_string_member(action, "title", title) {
            return Some(action);
        }
    }
    None
}

/// Returns whether a JSON value has a member with this name whose value is this text.
fn has_string_member(value: &Value, name: &str, text: &str) -> bool
    ensures { result ≡ equals_optional_text text.now (text_member name.now (view value.now)) }
{
    match text_of_member(value, name) {
        Some(found) => found == text,
        None => false,
    }
}

// ---- edits

/// Reads each JSON value of a list as an edit, and returns the edits in order. Returns None if one
/// of the values can't be read as an edit.
fn read_edit_list(alloc: Global, values: &[Value]) -> Result<Option<Vec<Edit>>, AllocError>
    ensures { IfOk result (λ found. option_map (λ edits. replacements_of_edits edits.items) found
        ≡ edits_of_items (items_view values.now)) }
{
    let mut edits = Vec::new(alloc);
    for value in values {
        match read_edit(alloc, value)? {
            Some(edit) => edits.push(edit)?,
            None => return Ok(None),
        }
    }
    Ok(Some(edits))
}

fn read_edit(alloc: Global, value: &Value) -> Result<Option<Edit>, AllocError>
    ensures { IfOk result (λ found. option_map replacement_of_edit found
        ≡ edit_of_value (view value.now)) }
{
    let Some(range) = range_of_member(value, "range") else {
        return Ok(None);
    };
    let Some(text) = text_of_member(value, "newText") else {
        return Ok(None);
    };
    let text = String::from_str(alloc, text)?;
    Ok(Some(Edit { range, text }))
}

//! Reads the changes of a document from the params of a notification.
//!
//! The text of a change may be long, so it isn't copied: it is moved out of the params. Moving a
//! member out of an object consumes the object, so the object's other members are read first. A uri
//! and a method are copied, because they are short and the value that contains them is still
//! needed. A member `range` that is null counts as absent: the change replaces the whole text. If
//! any range can't be read, the notification counts as unreadable.
ghost use Rattle.std.specs.Prelude.{◌≡◌, IfOk, codes, option_and_then, option_map, map};
ghost use Rattle.ob0_text.specs.OpenDocuments.{text_change_of};
ghost use Rattle.serde_json.specs.Find.{get, as_array};
ghost use Rattle.serde_json.specs.View.{view, items_view};
ghost use Rattle.ob0_rpc.specs.Notifications.{content_changes_of_params as changes_in, content_change_from_json, range_of_change};

use crate::members::{into_member, into_text_member, is_absent_or_null, read_json_range};
use ob0_text::{Change, Range};
use serde_json::Value;
use std::alloc::{AllocError, Global};

/// Returns the changes in the list `contentChanges` of params, in order. Returns None if the list
/// or one of its items can't be read.
pub fn read_changes(alloc: Global, params: Value) -> Result<Option<Vec<Change>>, AllocError>
    ensures { IfOk result (λ found. option_map (λ cs. map text_change_of cs.items) found
        ≡ changes_in (view params)) }
{
    let Some(entries) = into_content_changes(params) else {
        return Ok(None);
    };
    let mut changes = Vec::new(alloc);
    for entry in entries {
        match read_content_change(entry) {
            Some(change) => changes.push(change)?,
            None => return Ok(None),
        }
    }
    Ok(Some(changes))
}

/// Moves the items of the list `contentChanges` out of params. Returns None if there is no such
/// list.
fn into_content_changes(params: Value) -> Option<Vec<Value>>
    ensures { option_map (λ v. items_view v.items) result
        ≡ option_and_then as_array (get (codes "contentChanges") (view params)) }
{
    into_list_items(into_member(params, "contentChanges")?)
}

/// Moves the items out of a JSON list. Returns None if the value isn't a list.
fn into_list_items(value: Value) -> Option<Vec<Value>>
    ensures { option_map (λ v. items_view v.items) result ≡ as_array (view value) }
{
    match value {
        Value::Null => None,
        Value::Bool(_) => None,
        Value::Number(_) => None,
        Value::String(_) => None,
        Value::Array(list) => Some(list),
        Value::Object(_) => None,
    }
}

/// Reads an item of the list `contentChanges` as a change of a range or of the whole text. Returns
/// None if the item can't be read.
fn read_content_change(entry: Value) -> Option<Change>
    ensures { option_map text_change_of result ≡ content_change_from_json (view entry) }
{
    let range = read_change_range(entry.get("range"))?;
    let text = into_text_member(entry, "text")?;
    Some(Change { range, text })
}

/// Reads the member `range` of a change, which is optional. Returns `Some(None)` if the member is
/// absent or null: the change then replaces the whole text. Returns `None` if the range can't be
/// read.
fn read_change_range(member: Option<&Value>) -> Option<Option<Range>>
    ensures { result ≡ range_of_change (option_map (λ v. view v.now) member.entry) }
{
    if is_absent_or_null(member) {
        return Some(None);
    }
    let range = read_json_range(member?)?;
    Some(Some(range))
}

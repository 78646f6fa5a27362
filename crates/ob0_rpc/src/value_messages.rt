//! Writes responses whose result is a `serde_json::Value`, and notifications whose params are a
//! `serde_json::Value`.
ghost use Rattle.std.specs.Prelude.{◌≡◌, ◌≤◌, false, IfOk};
ghost use Rattle.serde_json.specs.Data.{depth};
ghost use Rattle.serde_json.specs.View.{view};
ghost use Rattle.serde_json.specs.Written.{has_float};
ghost use Rattle.ob0_rpc.specs.JsonShapes.{result_message, notification_message};
ghost use Rattle.ob0_rpc.specs.MessageViews.{json_of_id};
ghost use Rattle.ob0_rpc.specs.WrittenMessages.{FitsInMessage, Writes};

use crate::incoming_messages::Id;
use serde_json::{Value, json};
use std::alloc::{AllocError, Global};

/// Returns the JSON text of the answer to a request, with `value` as its result. The text reads
/// back as that answer if `value` is nested at most 126 deep and has only whole numbers.
pub fn result(alloc: Global, id: &Id, value: Value) -> Result<Vec<u8>, AllocError>
    ensures { IfOk result (λ bytes. has_float (view value) ≡ false
        → FitsInMessage (view value)
        → Writes (result_message (json_of_id id.now) (view value)) bytes.items) }
{
    let message = response_value(alloc, id, value)?;
    message_text(alloc, &message)
}

/// Returns the JSON text of a notification. The text reads back as that notification if `params`
/// are nested at most 126 deep and have only whole numbers.
pub fn notification(alloc: Global, method: &str, params: Value) -> Result<Vec<u8>, AllocError>
    ensures { IfOk result (λ bytes. has_float (view params) ≡ false
        → FitsInMessage (view params)
        → Writes (notification_message method.now (view params)) bytes.items) }
{
    let message = notification_value(alloc, method, params)?;
    message_text(alloc, &message)
}

/// Returns the JSON value of the answer to a request, with `value` as its result.
fn response_value(alloc: Global, id: &Id, value: Value) -> Result<Value, AllocError>
    ensures { IfOk result (λ v. view v ≡ result_message (json_of_id id.now) (view value)) }
{
    let id = id_value(alloc, id)?;
    json!(in alloc; {"id": id, "jsonrpc": "2.0", "result": value})
}

/// Returns the JSON value of a notification with this method and these params.
fn notification_value(alloc: Global, method: &str, params: Value) -> Result<Value, AllocError>
    ensures { IfOk result (λ v. view v ≡ notification_message method.now (view params)) }
{
    json!(in alloc; {"jsonrpc": "2.0", "method": method, "params": params})
}

/// Returns the JSON value of an id: a number or a string.
fn id_value(alloc: Global, id: &Id) -> Result<Value, AllocError>
    ensures { IfOk result (λ v. view v ≡ json_of_id id.now) }
{
    match id {
        Id::Signed(n) => Ok(Value::from(*n)),
        Id::Unsigned(n) => Ok(Value::from(*n)),
        Id::Text(text) => Value::try_from_str(alloc, text.as_str()),
    }
}

/// Returns the JSON text of a message. The text reads back as the message if the message is nested
/// at most 127 deep and has only whole numbers.
fn message_text(alloc: Global, message: &Value) -> Result<Vec<u8>, AllocError>
    ensures { IfOk result (λ bytes. has_float (view message.now) ≡ false
        → depth (view message.now) ≤ 127
        → Writes (view message.now) bytes.items) }
{
    let text = message.to_string(alloc)?;
    Ok(text.into_bytes())
}

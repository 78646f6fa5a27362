//! Defines the messages that a server sends (JSON-RPC 2.0), as types.
ghost use Rattle.std.specs.Prelude.{◌≤◌, IfOk, option_map};
ghost use Rattle.serde_json.specs.Data.{depth};
ghost use Rattle.ob0_rpc.specs.JsonShapes.{result_message, error_response_message, notification_message, error_value};
ghost use Rattle.ob0_rpc.specs.MessageViews.{json_of_id, id_or_null};
ghost use Rattle.ob0_rpc.specs.WrittenMessages.{FitsInMessage, Writes};

use crate::incoming_messages::Id;
use crate::json_text::WriteJson;
use crate::objects::{end_object, write_first_member, write_next_member};
use std::alloc::{AllocError, Global};

/// A success response: the answer to a request, with the request's id and the result.
#[derive(Drop)]
pub struct SuccessResponse<'a, W> {
    pub id: &'a Id,
    pub result: &'a W,
}

impl<'a, W: WriteJson> WriteJson for SuccessResponse<'a, W> {
    ghost value = { λ r. result_message (json_of_id r.id.now) (W.value r.result.now) };

    fn write(&self, out: &mut Vec<u8>) -> Result<(), AllocError> {
        write_first_member(out, "id", self.id)?;
        write_next_member(out, "jsonrpc", &"2.0")?;
        write_next_member(out, "result", self.result)?;
        end_object(out)
    }
}

/// The error that an error response contains: a code and a message.
#[derive(Drop)]
pub struct ErrorObject<'a> {
    pub code: i32,
    pub message: &'a str,
}

impl<'a> WriteJson for ErrorObject<'a> {
    ghost value = { λ e. error_value e.code e.message.now };

    fn write(&self, out: &mut Vec<u8>) -> Result<(), AllocError> {
        write_first_member(out, "code", &self.code)?;
        write_next_member(out, "message", &self.message)?;
        end_object(out)
    }
}

/// An error response: the answer to a refused request, or to received bytes that aren't a message.
/// `id` is the id of the request, or None if the received bytes aren't a message.
#[derive(Drop)]
pub struct ErrorResponse<'a> {
    pub error: ErrorObject<'a>,
    pub id: Option<&'a Id>,
}

impl<'a> WriteJson for ErrorResponse<'a> {
    ghost value = { λ r. error_response_message (id_or_null (option_map (λ i. i.now) r.id))
        r.error.code r.error.message.now };

    fn write(&self, out: &mut Vec<u8>) -> Result<(), AllocError> {
        write_first_member(out, "error", &self.error)?;
        write_next_member(out, "id", &self.id)?;
        write_next_member(out, "jsonrpc", &"2.0")?;
        end_object(out)
    }
}

/// A notification that the server sends.
#[derive(Drop)]
pub struct ServerNotification<'a, W> {
    pub method: &'a str,
    pub params: &'a W,
}

impl<'a, W: WriteJson> WriteJson for ServerNotification<'a, W> {
    ghost value = { λ n. notification_message n.method.now (W.value n.params.now) };

    fn write(&self, out: &mut Vec<u8>) -> Result<(), AllocError> {
        write_first_member(out, "jsonrpc", &"2.0")?;
        write_next_member(out, "method", &self.method)?;
        write_next_member(out, "params", self.params)?;
        end_object(out)
    }
}

impl WriteJson for Id {
    ghost value = { json_of_id };

    fn write(&self, out: &mut Vec<u8>) -> Result<(), AllocError> {
        match self {
            Id::Signed(n) => n.write(out),
            Id::Unsigned(n) => n.write(out),
            Id::Text(text) => text.as_str().write(out),
        }
    }
}

impl<'a> WriteJson for &'a Id {
    ghost value = { λ i. json_of_id i.now };

    fn write(&self, out: &mut Vec<u8>) -> Result<(), AllocError> {
        Id::write(*self, out)
    }
}

/// Returns the JSON text of a message. If the message is nested at most 127 deep, the text reads
/// back as that message.
pub fn content_of_message<W: WriteJson>(alloc: Global, message: &W) -> Result<Vec<u8>, AllocError>
    ensures { IfOk result
        (λ bytes. depth (W.value message.now) ≤ 127 → Writes (W.value message.now) bytes.items) }
{
    let mut out = Vec::new(alloc);
    message.write(&mut out)?;
    Ok(out)
}

/// Returns the JSON text of the answer to a request, with this result. If the result is nested at
/// most 126 deep, the text reads back as that answer.
pub fn success_response_text<W: WriteJson>(
    alloc: Global,
    id: &Id,
    value: &W,
) -> Result<Vec<u8>, AllocError>
    ensures { IfOk result (λ bytes. FitsInMessage (W.value value.now)
        → Writes (result_message (json_of_id id.now) (W.value value.now)) bytes.items) }
{
    content_of_message(alloc, &SuccessResponse { id, result: value })
}

/// Returns the JSON text of an error response. `id` is the id of the refused request, or None if
/// the received bytes aren't a message.
pub fn error(
    alloc: Global,
    id: Option<&Id>,
    code: i32,
    message: &str,
) -> Result<Vec<u8>, AllocError>
    ensures { IfOk result (λ bytes. Writes
        (error_response_message (id_or_null (option_map (λ i. i.now) id.entry)) code message.now)
        bytes.items) }
{
    let error = ErrorObject { code, message };
    content_of_message(alloc, &ErrorResponse { error, id })
}

/// Returns the JSON text of a notification. If the params are nested at most 126 deep, the text
/// reads back as that notification.
pub fn notification_text<W: WriteJson>(
    alloc: Global,
    method: &str,
    params: &W,
) -> Result<Vec<u8>, AllocError>
    ensures { IfOk result (λ bytes. FitsInMessage (W.value params.now)
        → Writes (notification_message method.now (W.value params.now)) bytes.items) }
{
    content_of_message(alloc, &ServerNotification { method, params })
}

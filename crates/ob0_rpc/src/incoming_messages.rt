//! Reads the content of a message: the id, the method and the params. The params are returned as a
//! JSON value, because their form depends on the method.
ghost use Rattle.std.specs.Prelude.{◌≡◌, true, false, IfOk, MatchOption};
ghost use Rattle.serde_json.specs.View.{view, number_view};
ghost use Rattle.serde_json.specs.Data.{number};
ghost use Rattle.ob0_rpc.specs.Messages.{is_id, params_of};
ghost use Rattle.ob0_rpc.specs.MessageViews.{InterpretsMessage, ReadsMessage, json_of_id};

use crate::members::into_member;
use serde_json::{Number, Value};
use std::alloc::{AllocError, AllocFailed, Global};
use thiserror::Error;

/// The id of a request: a whole number that fits in 64 bits (signed or unsigned), or a string.
#[derive(Drop)]
pub enum Id {
    Signed(i64),
    Unsigned(u64),
    Text(String),
}

/// A message that has been read: a request (id, method and params), a notification (method and
/// params), or a response. The server ignores responses, so `Ignored` has no fields.
#[derive(Drop)]
pub enum Incoming {
    Request(Id, String, Value),
    Notice(String, Value),
    Ignored,
}

/// The reason why a message, its method or its params can't be read.
#[derive(Clone, Copy, Debug, Drop, PartialEq, Eq, Error)]
pub enum RpcFault {
    #[error("not JSON")]
    NotJson,
    #[error("not a message")]
    NotAMessage,
    #[error("unknown method")]
    UnknownMethod,
    #[error("bad params")]
    BadParams,
    #[error("out of memory")]
    Memory,
}

impl RpcFault {
    ghost use Rattle.std.specs.Prelude.{◌≡◌};
    ghost use Rattle.ob0_rpc.specs.Faults.{error_code, error_text};

    /// Returns the JSON-RPC 2.0 error code that reports this fault.
    pub fn code(self) -> i32
        ensures { result ≡ error_code self }
    {
        match self {
            RpcFault::NotJson => -32700,
            RpcFault::NotAMessage => -32600,
            RpcFault::UnknownMethod => -32601,
            RpcFault::BadParams => -32602,
            RpcFault::Memory => -32603,
        }
    }

    /// Returns the message of the error that reports this fault.
    pub fn text(self) -> &'static str
        ensures { result.now ≡ error_text self }
    {
        match self {
            RpcFault::NotJson => "not JSON",
            RpcFault::NotAMessage => "not a message",
            RpcFault::UnknownMethod => "unknown method",
            RpcFault::BadParams => "bad params",
            RpcFault::Memory => "out of memory",
        }
    }
}

impl From<AllocError> for RpcFault {
    ghost use Rattle.std.specs.Prelude.{◌≡◌};
    ghost use Rattle.ob0_rpc.specs.declared.incoming_messages.RpcFault.TheVariants.{Memory};

    ghost from_gives = { λ _ e. e ≡ Memory };

    fn from(_refused: AllocError) -> RpcFault {
        RpcFault::Memory
    }
}

impl<T: Drop> From<AllocFailed<T>> for RpcFault {
    ghost use Rattle.std.specs.Prelude.{◌≡◌};
    ghost use Rattle.ob0_rpc.specs.declared.incoming_messages.RpcFault.TheVariants.{Memory};

    ghost from_gives = { λ _ e. e ≡ Memory };

    fn from(_refused: AllocFailed<T>) -> RpcFault {
        RpcFault::Memory
    }
}

/// Reads the content of one message: the bytes after the head. The content must be one JSON value
/// in UTF-8, nested at most 127 deep; otherwise the fault is `NotJson`. If the JSON value isn't a
/// message, the fault is `NotAMessage`. If an allocation fails, the fault is `Memory`.
pub fn read(alloc: Global, content: &[u8]) -> Result<Incoming, RpcFault>
    ensures { ReadsMessage content.now result }
{
    match Value::from_slice(alloc, content) {
        Ok(value) => interpret_message(alloc, value),
        Err(error) => if error.is_memory() {
            Err(RpcFault::Memory)
        } else {
            Err(RpcFault::NotJson)
        },
    }
}

// Reads a JSON value as a message. If the value isn't a message, returns the fault `NotAMessage`.
fn interpret_message(alloc: Global, message: Value) -> Result<Incoming, RpcFault>
    ensures { InterpretsMessage (view message) result }
{
    let Some(method) = message.get("method") else {
        return if message.get("result").is_some() || message.get("error").is_some() {
            Ok(Incoming::Ignored)
        } else {
            Err(RpcFault::NotAMessage)
        };
    };
    let Some(method) = method.as_str() else {
        return Err(RpcFault::NotAMessage);
    };
    let Some(id) = message.get("id") else {
        let method = String::from_str(alloc, method)?;
        return Ok(Incoming::Notice(method, into_params(message)));
    };
    let Some(id) = read_id(alloc, id)? else {
        return Err(RpcFault::NotAMessage);
    };
    let method = String::from_str(alloc, method)?;
    Ok(Incoming::Request(id, method, into_params(message)))
}

// Moves the params out of a message. Returns null if the message has no params.
fn into_params(message: Value) -> Value
    ensures { view result ≡ params_of (view message) }
{
    match into_member(message, "params") {
        Some(params) => params,
        None => Value::Null,
    }
}

// Reads a JSON value as an id. Returns None if the value is neither a whole number of 64 bits nor a
// string.
fn read_id(alloc: Global, value: &Value) -> Result<Option<Id>, AllocError>
    ensures { IfOk result (λ found. MatchOption found
        (is_id (view value.now) ≡ false)
        (λ id. (is_id (view value.now) ≡ true) × (json_of_id id ≡ view value.now))) }
{
    if let Some(text) = value.as_str() {
        return Ok(Some(Id::Text(String::from_str(alloc, text)?)));
    }
    match value.as_number() {
        Some(number) => Ok(id_of_number(number)),
        None => Ok(None),
    }
}

/// Reads a JSON number as an id. Returns None if the number isn't a whole number of 64 bits.
fn id_of_number(n: &Number) -> Option<Id>
    ensures { MatchOption result
        (is_id (number (number_view n.now)) ≡ false)
        (λ id. (is_id (number (number_view n.now)) ≡ true)
        × (json_of_id id ≡ number (number_view n.now))) }
{
    match n.as_u64() {
        Some(unsigned) => Some(Id::Unsigned(unsigned)),
        None => n.as_i64().map(Id::Signed),
    }
}

//! The names of `ob0_rpc`. `Call` and `Note` are short names for `ClientRequest` and
//! `ClientNotification`. `notice` takes its params by value.

use ob0_rpc::{
    Call, Id, Incoming, Note, RpcFault, error, notice, notification, read, request, result,
};
use ob0_text::Indent;
use serde_json::{Value, json};
use std::alloc::{AllocError, Global};
use std::process::Abort;

/// Returns the number of a fault in the order of the variants, from 1.
fn number_of_fault(fault: RpcFault) -> u8 {
    match fault {
        RpcFault::NotJson => 1,
        RpcFault::NotAMessage => 2,
        RpcFault::UnknownMethod => 3,
        RpcFault::BadParams => 4,
        RpcFault::Memory => 5,
    }
}

/// Returns the kind of an id in a word.
fn kind_of_id(id: &Id) -> &'static str {
    match id {
        Id::Signed(number) => if *number < 0 { "negative" } else { "signed" },
        Id::Unsigned(_number) => "unsigned",
        Id::Text(_text) => "text",
    }
}

/// Returns the kind of a message in a word. A request has the kind of its id.
fn kind_of_message(message: &Incoming) -> &'static str {
    match message {
        Incoming::Request(id, _method, _params) => kind_of_id(id),
        Incoming::Notice(_method, _params) => "notice",
        Incoming::Ignored => "ignored",
    }
}

/// Returns the kind of a content in a word, or the text of the fault.
fn kind_of_content(alloc: Global, content: &[u8]) -> &'static str {
    let found: Result<Incoming, RpcFault> = read(alloc, content);
    match found {
        Ok(message) => kind_of_message(&message),
        Err(fault) => RpcFault::text(fault),
    }
}

/// Returns the name of a call in a word.
fn name_of_call(call: &Call) -> &'static str {
    match call {
        Call::Initialize(_client) => "initialize",
        Call::Shutdown => "shutdown",
        Call::Hover(_place) => "hover",
        Call::Definition(_place) => "definition",
        Call::References { .. } => "references",
        Call::PrepareRename(_place) => "prepareRename",
        Call::Rename { .. } => "rename",
        Call::CodeAction { .. } => "codeAction",
        Call::Formatting {
            uri: _,
            indent: Indent::Tab,
        } => "formatting by tabs",
        Call::Formatting {
            uri: _,
            indent: Indent::Spaces(_),
        } => "formatting by spaces",
    }
}

/// Returns the name of a request's call in a word, or the number of the fault.
fn name_of_request(alloc: Global, method: &str, params: &Value) -> Result<&'static str, u8> {
    let found: Result<Call, RpcFault> = request(alloc, method, params);
    match found {
        Ok(call) => Ok(name_of_call(&call)),
        Err(fault) => Err(number_of_fault(fault)),
    }
}

/// Returns the name of a notification in a word.
fn name_of_note(note: &Note) -> &'static str {
    match note {
        Note::Exit => "exit",
        Note::Open { .. } => "open",
        Note::Change { .. } => "change",
        Note::Close { .. } => "close",
        Note::Unreadable { uri: Some(_uri) } => "unreadable, of a document",
        Note::Unreadable { uri: None } => "unreadable",
        Note::Other => "other",
    }
}

/// Returns the name of a notification without params, or the number of the fault.
fn name_of_notification(alloc: Global, method: &str) -> Result<&'static str, u8> {
    let params: Value = Value::Null;
    let found: Result<Note, RpcFault> = notice(alloc, method, params);
    match found {
        Ok(note) => Ok(name_of_note(&note)),
        Err(fault) => Err(number_of_fault(fault)),
    }
}

/// Returns whether each writer writes its message.
fn writes_messages(alloc: Global) -> Result<bool, AllocError> {
    let answer: Result<Vec<u8>, AllocError> = result(alloc, &Id::Signed(1), Value::Null);
    if answer?.as_slice() != r#"{"id":1,"jsonrpc":"2.0","result":null}"#.as_bytes() {
        return Ok(false);
    }
    let refusal: Result<Vec<u8>, AllocError> = error(alloc, Some(&Id::Unsigned(2)), -32600, "x");
    let expected = r#"{"error":{"code":-32600,"message":"x"},"id":2,"jsonrpc":"2.0"}"#;
    if refusal?.as_slice() != expected.as_bytes() {
        return Ok(false);
    }
    let note: Result<Vec<u8>, AllocError> = notification(alloc, "m", Value::Null);
    Ok(note?.as_slice() == r#"{"jsonrpc":"2.0","method":"m","params":null}"#.as_bytes())
}

/// Returns the name of a request with empty params, or the number of the fault.
fn name_of_request_without_params(alloc: Global, method: &str) -> Result<&'static str, u8> {
    match json!(in alloc; {}) {
        Ok(params) => name_of_request(alloc, method, &params),
        Err(AllocError) => Err(5),
    }
}

/// Contents, each with its kind in a word or the text of the fault.
static CONTENT_CASES: &[(&str, &str)] = &[
    ("{", "not JSON"),
    (r#"{"id":"","method":"m"}"#, "text"),
    (r#"{"id":-1,"method":"m"}"#, "negative"),
    (r#"{"method":"m"}"#, "notice"),
    (r#"{"id":1,"result":1}"#, "ignored"),
];

#[test]
fn contents_are_read(rt: HostRuntime) {
    for row in CONTENT_CASES {
        assert!(rt;
            kind_of_content(rt.alloc(), row.0.as_bytes()) == row.1,
            "{}",
            row.1
        );
    }
}

/// Requests without params, each with its name or the number of the fault.
static REQUEST_CASES: &[(&str, Result<&str, u8>)] = &[
    ("initialize", Ok("initialize")),
    ("shutdown", Ok("shutdown")),
    ("exit", Err(3)),
    ("textDocument/hover", Err(4)),
];

#[test]
fn requests_are_read(rt: HostRuntime) {
    for row in REQUEST_CASES {
        assert!(rt;
            name_of_request_without_params(rt.alloc(), row.0) == row.1,
            "{}",
            row.0
        );
    }
}

/// Notifications without params, each with its name.
static NOTIFICATION_CASES: &[(&str, &str)] = &[
    ("exit", "exit"),
    ("textDocument/didOpen", "unreadable"),
    ("initialized", "other"),
];

#[test]
fn notifications_are_read(rt: HostRuntime) {
    for row in NOTIFICATION_CASES {
        assert!(rt;
            name_of_notification(rt.alloc(), row.0) == Ok(row.1),
            "{}",
            row.0
        );
    }
}

#[test]
fn messages_are_written(rt: HostRuntime) {
    assert!(rt; writes_messages(rt.alloc()) == Ok(true));
}

//! Reads and writes the messages of the protocol (JSON-RPC 2.0, and the params of LSP 3.17 that
//! this server knows).
#![tactic(auto)]

mod changes;
mod client_capabilities;
mod incoming_messages;
mod json_text;
mod members;
mod notifications;
mod objects;
mod outgoing_messages;
mod ranges;
mod requests;
mod value_messages;

pub use client_capabilities::ClientFeatures;
pub use incoming_messages::{Id, Incoming, RpcFault, read};
pub use json_text::{WriteJson, begin_list, end_list, write_list_item};
pub use members::{range_of_member, text_of_member};
pub use notifications::{ClientNotification, notice};
/// A short name for `ClientNotification`.
pub use notifications::ClientNotification as Note;
pub use objects::{OneMemberObject, end_object, write_first_member, write_next_member};
pub use outgoing_messages::{
    ErrorObject, ErrorResponse, ServerNotification, SuccessResponse, content_of_message, error,
    notification_text, success_response_text,
};
pub use ranges::{write_range_ending_at, write_verbatim_ending_at};
pub use requests::{ClientRequest, DocumentPosition, request};
/// A short name for `ClientRequest`.
pub use requests::ClientRequest as Call;
pub use value_messages::{notification, result};

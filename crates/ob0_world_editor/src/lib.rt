//! Models an LSP client: its documents, its requests, the messages that it writes, and the server's
//! messages that it reads.
#![tactic(auto)]

mod applied_edits;
mod asks;
mod documents;
mod edited_texts;
mod editor;
mod initialize_request;
mod json_objects;
mod message_reader;
mod message_writer;
mod params;

pub use applied_edits::{Applied, ApplyOutcome};
pub use asks::Ask;
pub use editor::Editor;
pub use initialize_request::initialize;
pub use message_reader::ServerMessage;

//! Defines the requests about a document. Each request is a type that computes its answer from the
//! document's text. There are questions about the name or field at a position, requests for edits,
//! and the publication of diagnostics.
#![tactic(auto)]

mod actions;
pub mod diagnostics;
mod formatting_request;
mod questions;
mod rename_request;

pub use actions::ActionsRequest;
pub use diagnostics::PublishDiagnosticsRequest;
pub use formatting_request::FormattingRequest;
pub use questions::{DefinitionRequest, HoverRequest, PrepareRenameRequest, ReferencesRequest};
pub use rename_request::RenameRequest;

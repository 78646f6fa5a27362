//! Renames a declaration or a field of a well-typed module. The result is edits or a refusal
//! (docs/PROTOCOL.md, Requests on documents and Refusals of edits). The edited module has the same
//! runs.
#![tactic(auto)]

mod declaration_edits;
mod field_edits;
mod identifier_tokens;

pub use declaration_edits::rename;

//! Makes edits that replace tokens of a text or remove a declaration, and proves which text results
//! from the edits.
#![tactic(auto)]

pub mod laws;
mod spans_and_ranges;
mod token_edits;

pub use spans_and_ranges::ranges_of_spans;
pub use token_edits::{range_of, removal_and_replacement_edits, replacement_edits};

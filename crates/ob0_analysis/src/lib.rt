//! Analyses a text, and keeps the results as one value (`Analysis`). From this value, `ask` answers
//! questions about the text's module, and `Analysis::diagnoses` returns the errors of the text.
#![tactic(auto)]

mod analysis;
mod changed_body;
mod diagnoses;
mod differences;
mod last_module;
pub mod laws;
mod module_parts;
mod questions;
mod replaced_body;
mod scanned_text;
mod text_errors;

pub use analysis::Analysis;
pub use diagnoses::Diagnosis;
pub use ob0_types::WellTyped;
pub use questions::{Question, ask};

//! Keeps the open documents, with analyses of their texts.
#![tactic(auto)]

mod analysed_documents;
mod analysis_cache;
mod document_requests;

pub use analysed_documents::AnalysedDocuments;
pub use document_requests::{DocumentRequest, RequestOutcome};

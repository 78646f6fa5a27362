//! Answers hover, definition, references and prepareRename for the name or field at a place in a
//! valid module. Also finds the first conflict of a new name for a declaration (docs/PROTOCOL.md,
//! Requests on documents).
#![tactic(auto)]

mod answer_types;
mod answers_at_places;
mod conflict_spans;
mod declaration_spans;
mod declaration_texts;
pub mod hover_laws;
mod hover_texts;
mod hovers_at_places;
pub mod laws;
mod name_answers;
mod new_name_conflicts;
mod type_texts;

pub use answer_types::{At, Capture, Hover, Of};
pub use answers_at_places::{at, definition, references, renamable_span};
pub use hovers_at_places::hover;
pub use new_name_conflicts::captures;

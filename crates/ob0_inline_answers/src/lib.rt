//! Proves that a request to inline a constant has an answer for each text: some list of edits is
//! right. The proof assumes that the parser accepts each well-typed text. The right list is empty
//! if the inlining is refused or the text isn't a well-typed module.
#![tactic(auto)]

pub mod laws;

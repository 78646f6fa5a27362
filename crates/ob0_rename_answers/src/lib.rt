//! Proves that a request for a rename has an answer for each text: some list of edits is right. The
//! proof assumes that each well-typed text has a module whose names are bound to declarations. The
//! right list is empty if the rename is refused or the text isn't a well-typed module.
#![tactic(auto)]

pub mod laws;

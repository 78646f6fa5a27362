//! Writes results as JSON (docs/PROTOCOL.md, JSON shapes): capabilities, diagnostics, locations,
//! edits and actions.
#![tactic(auto)]

pub mod capabilities;
pub mod edits;
pub mod locations_and_hovers;
pub mod publication;
pub mod refusals;

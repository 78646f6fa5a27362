//! Definitions and laws of the run of a module (docs/LANGUAGE.md, Runs).
#![tactic(auto)]

pub mod laws;

//! Proves that each request for edits has an answer, and that each list of events leads to some
//! state of the model of client and server.
#![tactic(auto)]

pub mod laws;

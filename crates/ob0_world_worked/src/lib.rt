//! Proves which answers four requests about an example text get, and that an example exchange
//! exists. Also proves that a request for formatting has an answer for each text.
#![tactic(auto)]

pub mod laws;

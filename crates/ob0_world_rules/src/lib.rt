//! Defines a client and a server with a queue of messages in each direction, and proves the
//! guarantees that hold after every list of events.
#![tactic(auto)]

pub mod edited_text_laws;
pub mod laws;

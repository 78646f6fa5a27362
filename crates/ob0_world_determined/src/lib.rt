//! Proves that the server's input determines the server's output: the diagnostics of a text, the
//! replies to a message, and the bytes that are written.
//!
//! A law whose name ends in "determined" states that a relation of the session has at most one
//! output for each input. This is clear for relations that are defined by equations. The others
//! need proofs: any two scans of a text are equal, and any two trees over the text's tokens are
//! also equal. Any two lists of faults are equal because both are sorted permutations of the same
//! list (`sorted_one`). Two edits may have the same text in different allocations, so edits are
//! compared by their ranges and texts (proofs/Replies). Two resolutions of a module are compared by
//! the ordinals that they give each token (proofs/Tables, proofs/SameTables). A stream has at most
//! one list of contents, no matter how the stream is cut into pieces (proofs/Streams,
//! proofs/Fronts).
//!
//! If the grammar gets another production, proofs/SameTables needs a line for it. If the server
//! gets another method, proofs/Replies or proofs/NamesShown needs a line for it.
#![tactic(auto)]

pub mod laws;

//! Defines the results of performing a list of events.

use ob0_world_editor::Applied;
use std::collections::VecDeque;

/// A publication of diagnostics: the document's uri and version, and the text for which the
/// diagnostics were made. `empty` is true if the list of diagnostics is empty.
#[derive(Debug, Drop)]
pub struct Made {
    pub uri: String,
    pub version: i64,
    pub text: String,
    pub empty: bool,
}

/// The results of a list of events: the applied edits, the publications with a version, and the
/// contents of the messages. Each list is in the order of the events. The contents that still wait
/// for the session are left out.
#[derive(Debug, Drop)]
pub struct Played {
    pub applied: Vec<Applied>,
    pub made: Vec<Made>,
    /// The contents that the session took. The first is the editor's `initialize`.
    pub taken: Vec<Vec<u8>>,
    /// The contents that the editor took. The first is the session's answer to `initialize`.
    pub got: Vec<Vec<u8>>,
    /// The contents that the session sent and the editor hasn't taken yet.
    pub unread: VecDeque<Vec<u8>>,
}

//! Defines the events of an editor and a server, and the report on each event.

use ob0_text::Change;
use ob0_world_editor::Ask;

/// An event: the editor acts, or the server or the editor takes a message.
#[derive(Debug, Drop)]
pub enum Event {
    /// The editor opens a document, with version 1. If it is open already, nothing happens.
    OpenDoc { uri: String, text: String },
    /// The editor makes these changes in order, each in the text that results from the previous
    /// change. If the document isn't open, nothing happens.
    ChangeDoc { uri: String, changes: Vec<Change> },
    /// The editor closes a document. If the document isn't open, nothing happens.
    CloseDoc { uri: String },
    /// The editor sends a request for edits of a document. If the document isn't open, nothing
    /// happens. These requests (asks) are numbered from 1, in the order in which they are sent.
    Ask { uri: String, ask: Ask },
    /// The server takes the first message that waits for it, and sends its replies.
    Serve,
    /// The editor takes the first message that waits for it.
    Take,
    /// The editor applies the answer to the request for edits with number `k`. If the editor
    /// doesn't have this answer, nothing happens.
    Apply { k: u64 },
    /// The editor discards the answer to the request for edits with number `k`. If the editor
    /// doesn't have this answer, nothing happens.
    Discard { k: u64 },
}

/// The report on an event, which `World::step` returns.
#[derive(Debug, Drop)]
pub enum Seen {
    /// Nothing happened.
    Nothing,
    /// The editor sent a message.
    Sent,
    /// The server took a message and sent this many replies.
    Served(usize),
    /// The editor took the diagnostics of the document `uri`. `empty` is true if the list of
    /// diagnostics is empty.
    Published { uri: String, empty: bool },
    /// The editor took the answer to the request for edits with number `k`. `edits` is true if the
    /// answer has edits. The editor stores only answers with edits.
    Answered { k: u64, edits: bool },
    /// The editor made the edits of the answer to request `k`.
    Applied { k: u64 },
    /// The editor discarded the answer to request `k`. The event was `Discard`, or it was `Apply`
    /// and the edits couldn't be made.
    Dropped { k: u64 },
}

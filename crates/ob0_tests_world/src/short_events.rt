//! Defines short forms of events and of reports, for the tests' tables. Builds the events from
//! their short forms, and performs them in a world.
//!
//! If an allocation fails while a story's list of events is built, the list is built a second time.
//! The second time succeeds, because only one allocation of a test's run fails.

use ob0_text::{Change, Indent, Position, Range, TextStore};
use ob0_world::{Ask, Event, Seen, World, WorldFault};
use std::alloc::{AllocError, Global};

/// The short form of an event of a world. The event is about the document `u`, unless it is
/// `AboutOtherDocument`.
#[derive(Clone, Copy)]
pub enum ShortEvent {
    /// The given event, about the document `v` instead of `u`.
    AboutOtherDocument(&'static ShortEvent),
    Open(&'static str),
    /// A change notification without changes.
    NoChange,
    /// A change of a range in one line: the line, the range's start and end, and the new text. The
    /// end isn't in the range. Lines and characters are counted from 0.
    ReplaceInLine(u64, u64, u64, &'static str),
    Close,
    Rename(u64, u64, &'static str),
    InlineHere(u64, u64),
    InlineAll(u64, u64),
    /// A request for formatting with two spaces for each level of indentation.
    Format,
    Serve,
    Take,
    Apply(u64),
    Discard(u64),
}

/// The short form of the report on an event.
#[derive(Clone, Copy, PartialEq, Eq)]
pub enum ShortReport {
    Nothing,
    Sent,
    /// The server took a message and sent this many messages in reply.
    Served(usize),
    /// The editor took the diagnostics of `u`. The Bool says whether the list is empty.
    Published(bool),
    /// The editor took the diagnostics of `v`. The Bool says whether the list is empty.
    PublishedOther(bool),
    /// The editor took the answer to the request with this number. The Bool says whether the answer
    /// has edits.
    Answered(u64, bool),
    Applied(u64),
    Dropped(u64),
}

/// A list of events in a world that counts positions in `unit`, with the expected reports and
/// results.
pub struct Story {
    pub name: &'static str,
    pub unit: ob0_text::Unit,
    /// Each event with its expected report.
    pub events_with_reports: &'static [(ShortEvent, ShortReport)],
    /// The text before and the text after each applied edit, in order.
    pub applied: &'static [(&'static str, &'static str)],
    /// The version and text of each published list of diagnostics, in order, and whether the list
    /// is empty.
    pub made: &'static [(i64, &'static str, bool)],
}

/// The result of one or more steps, compared with the expected result.
#[derive(Clone, Copy, PartialEq, Eq)]
pub enum StepsResult {
    AsExpected,
    /// An allocation failed. The steps before the failure are as expected, and each step after the
    /// failure returns that the world or the session has ended.
    OutOfMemory,
    Ended,
    Unexpected,
}

/// Returns the common result of several steps. `before` is the result of all steps except the last,
/// and `next` is the result of the last step. Each step after a failed allocation must return
/// `Ended`, and no other step may. Otherwise the common result is `Unexpected`.
pub fn join_results(before: StepsResult, next: StepsResult) -> StepsResult {
    match (before, next) {
        (StepsResult::AsExpected, StepsResult::Ended) => StepsResult::Unexpected,
        (StepsResult::AsExpected, next) => next,
        (StepsResult::OutOfMemory, StepsResult::Ended) => StepsResult::OutOfMemory,
        _ => StepsResult::Unexpected,
    }
}

/// Returns the position with this line and character, both counted from 0.
fn position_at(line: u64, character: u64) -> Position {
    Position { line, character }
}

/// Returns a list of one change, which replaces a range by a text.
fn list_of_one_change(alloc: Global, range: Range, text: &str) -> Result<Vec<Change>, AllocError> {
    let text = String::from_str(alloc, text)?;
    let mut changes = Vec::new(alloc);
    let range = Some(range);
    changes.push(Change { range, text })?;
    Ok(changes)
}

/// Returns the request to rename the name at this position to `name`.
fn rename_ask(alloc: Global, position: Position, name: &str) -> Result<Ask, AllocError> {
    let name = String::from_str(alloc, name)?;
    Ok(Ask::Rename { position, name })
}

/// Returns the request for edits whose short form is `act`. If `act` is neither a rename nor an
/// inlining, returns a request for formatting.
fn ask_from_short_form(alloc: Global, act: ShortEvent) -> Result<Ask, AllocError> {
    match act {
        ShortEvent::Rename(line, character, name) => rename_ask(
            alloc,
            position_at(line, character),
            name,
        ),
        ShortEvent::InlineHere(line, character) => Ok(Ask::InlineHere {
            position: position_at(line, character),
        }),
        ShortEvent::InlineAll(line, character) => Ok(Ask::InlineAll {
            position: position_at(line, character),
        }),
        _ => Ok(Ask::Format {
            indent: Indent::Spaces(2),
        }),
    }
}

/// Returns the event whose short form is `act`, about the document with this uri. If `act` isn't an
/// opening, a change or a closing, the event is a request for edits.
fn event_about_document(alloc: Global, uri: String, act: ShortEvent) -> Result<Event, AllocError> {
    match act {
        ShortEvent::Open(text) => {
            let text = String::from_str(alloc, text)?;
            Ok(Event::OpenDoc { uri, text })
        }
        ShortEvent::NoChange => {
            let changes = Vec::new(alloc);
            Ok(Event::ChangeDoc { uri, changes })
        }
        ShortEvent::ReplaceInLine(line, start, end, text) => {
            let (start, end) = (position_at(line, start), position_at(line, end));
            let changes = list_of_one_change(alloc, Range { start, end }, text)?;
            Ok(Event::ChangeDoc { uri, changes })
        }
        ShortEvent::Close => Ok(Event::CloseDoc { uri }),
        act => {
            let ask = ask_from_short_form(alloc, act)?;
            Ok(Event::Ask { uri, ask })
        }
    }
}

/// Returns the event whose short form is `act`.
fn event_from_short_form(alloc: Global, act: ShortEvent) -> Result<Event, AllocError> {
    match act {
        ShortEvent::Serve => Ok(Event::Serve),
        ShortEvent::Take => Ok(Event::Take),
        ShortEvent::Apply(k) => Ok(Event::Apply { k }),
        ShortEvent::Discard(k) => Ok(Event::Discard { k }),
        ShortEvent::AboutOtherDocument(act) => event_about_document(
            alloc,
            String::from_str(alloc, "v")?,
            *act,
        ),
        act => event_about_document(alloc, String::from_str(alloc, "u")?, act),
    }
}

/// Returns the events with these short forms. The expected reports in the list are ignored.
fn events_from_short_forms(
    alloc: Global,
    events_with_reports: &[(ShortEvent, ShortReport)],
) -> Result<Vec<Event>, AllocError> {
    let mut events = Vec::new(alloc);
    for pair in events_with_reports {
        events.push(event_from_short_form(alloc, pair.0)?)?;
    }
    Ok(events)
}

/// Returns the events of a story. If an allocation fails, the list of events is built once more.
pub fn build_events_with_retry(alloc: Global, story: &Story) -> Result<Vec<Event>, AllocError> {
    match events_from_short_forms(alloc, story.events_with_reports) {
        Ok(events) => Ok(events),
        Err(AllocError) => events_from_short_forms(alloc, story.events_with_reports),
    }
}

/// Returns the short form of the report on an event.
fn short_report_of(seen: &Seen) -> ShortReport {
    match seen {
        Seen::Nothing => ShortReport::Nothing,
        Seen::Sent => ShortReport::Sent,
        Seen::Served(count) => ShortReport::Served(*count),
        Seen::Published { uri, empty } if uri.as_str() == "v" => ShortReport::PublishedOther(
            *empty,
        ),
        Seen::Published { empty, .. } => ShortReport::Published(*empty),
        Seen::Answered { k, edits } => ShortReport::Answered(*k, *edits),
        Seen::Applied { k } => ShortReport::Applied(*k),
        Seen::Dropped { k } => ShortReport::Dropped(*k),
    }
}

/// Performs an event in a world. Returns whether the report is the expected one (`wanted`), or why
/// the event failed. After more than 1,000,000 steps, no event is performed and the result is
/// `Unexpected`.
pub fn perform_expected_event<T: TextStore>(
    world: &mut World<T>,
    event: &Event,
    wanted: ShortReport,
) -> StepsResult {
    if world.steps() > 1_000_000 {
        return StepsResult::Unexpected;
    }
    match world.step(event) {
        Ok(seen) if short_report_of(&seen) == wanted => StepsResult::AsExpected,
        Ok(_seen) => StepsResult::Unexpected,
        Err(WorldFault::Memory) => StepsResult::OutOfMemory,
        Err(WorldFault::Ended) => StepsResult::Ended,
    }
}

//! Tests the state of documents that are opened, changed, lost (their text becomes unknown) and
//! closed, with both text stores. Also tests documents and a text after an allocation has failed.

use crate::cases::{TestCase, first_failing_row};
use crate::documents::DocumentAction::{ApplyChanges, Close, Lose, Open};
use crate::documents::ExpectedState::{Closed, InStep, OutOfStep};
use crate::text::{ASSIGNMENT_AFTER_EMOJI, range_between_positions};
use ob0_text::{Change, Documents, Held, Lines, TextStore, Unit, Whole};
use std::alloc::{AllocError, Global};
use std::process::Abort;

/// A change: its start and its end, each as line and character, and its new text.
type ChangeRow = ((u64, u64), (u64, u64), &'static str);

/// An action on a document. `Lose` puts the document out of step: its text becomes unknown.
enum DocumentAction {
    Open(i64, &'static str),
    /// The document gets a notification with this version and these changes.
    ApplyChanges(i64, &'static [ChangeRow]),
    Lose,
    /// The document is closed. The Bool says whether it is expected to be open before.
    Close(bool),
}

/// The expected state of a document: in step with this version and text, out of step, or closed.
#[derive(Clone, Copy)]
enum ExpectedState {
    InStep(i64, &'static str),
    OutOfStep,
    Closed,
}

const OPENED_TEXT: &str = "a\rb";

/// Three changes of `OPENED_TEXT` in one notification; `TEXT_AFTER_THREE_CHANGES` is the result.
const THREE_CHANGES: &[ChangeRow] =
    rows![((1, 0), (1, 0), "\n"); ((1, 1), (1, 1), "\nc"); ((2, 0), (2, 1), "d");];

const TEXT_AFTER_THREE_CHANGES: &str = "a\r\nb\nd";

const TWO_CHANGES_NEAR_EMOJI: &[ChangeRow] = &[((0, 9), (0, 10), "yz"), ((0, 4), (0, 4), "!")];

/// The unit of positions, and actions on a document, each with the expected state of the document
/// after the action.
struct DocumentCase(Unit, &'static [(DocumentAction, ExpectedState)]);

static DOCUMENT_CASES: &[DocumentCase] = rows![
    DocumentCase(Unit::Utf16, rows![
        Open(1, ASSIGNMENT_AFTER_EMOJI) => InStep(1, ASSIGNMENT_AFTER_EMOJI);
        ApplyChanges(2, TWO_CHANGES_NEAR_EMOJI) => InStep(2, "(* !😀 *) yz := 1;");
    ]);
    DocumentCase(Unit::Utf16, rows![
        Open(1, OPENED_TEXT) => InStep(1, OPENED_TEXT);
        ApplyChanges(2, THREE_CHANGES) => InStep(2, TEXT_AFTER_THREE_CHANGES);
    ]);
    DocumentCase(Unit::Utf8, rows![
        Open(1, "a") => InStep(1, "a");
        Close(true) => Closed;
        Close(false) => Closed;
        Open(1, "a") => InStep(1, "a");
        Lose => OutOfStep;
        ApplyChanges(2, &[]) => OutOfStep;
        Open(3, "b") => InStep(3, "b");
    ]);
];

/// Returns the change that a row describes.
fn change_of_row(alloc: Global, row: &ChangeRow) -> Result<Change, AllocError> {
    let (start, end, text) = *row;
    let text = String::from_str(alloc, text)?;
    let range = Some(range_between_positions(start, end));
    Ok(Change { range, text })
}

/// Returns the changes that these rows describe.
fn changes_of_rows(alloc: Global, rows: &[ChangeRow]) -> Result<Vec<Change>, AllocError> {
    let mut changes = Vec::new(alloc);
    for row in rows {
        changes.push(change_of_row(alloc, row)?)?;
    }
    Ok(changes)
}

/// Returns whether a document has the expected state.
fn has_state<T: TextStore>(documents: &Documents<T>, uri: &str, wanted: ExpectedState) -> bool {
    match (documents.get(uri), wanted) {
        (Some(Held::InStep { version, text }), InStep(number, content)) => {
            version == number && text.as_str() == content
        }
        (Some(Held::OutOfStep), OutOfStep) => true,
        (None, Closed) => true,
        _ => false,
    }
}

/// Performs an action, and returns whether its result is the expected one.
fn perform_action<T: TextStore>(
    alloc: Global,
    documents: &mut Documents<T>,
    act: &DocumentAction,
) -> Result<bool, AllocError> {
    match act {
        Open(version, text) => {
            documents.did_open("u", *version, text)?;
        }
        ApplyChanges(version, rows) => {
            let changes = changes_of_rows(alloc, rows)?;
            documents.did_change("u", *version, changes.as_slice())?;
        }
        Lose => documents.lose("u"),
        Close(was_open) => return Ok(documents.did_close("u") == *was_open),
    }
    Ok(true)
}

/// Performs the actions one after another. Returns whether each action has its expected result and
/// leaves the document in the expected state.
fn perform_all_actions<T: TextStore>(
    alloc: Global,
    documents: &mut Documents<T>,
    acts: &[(DocumentAction, ExpectedState)],
) -> Result<bool, AllocError> {
    for act in acts {
        if !perform_action(alloc, documents, &act.0)? || !has_state(documents, "u", act.1) {
            return Ok(false);
        }
    }
    Ok(true)
}

/// Performs the actions of a row, with positions counted in the row's unit. Returns whether each
/// action has its expected result and leaves the document in the expected state.
fn performs_as_expected<T: TextStore>(
    alloc: Global,
    row: &DocumentCase,
) -> Result<bool, AllocError> {
    let mut documents: Documents<T> = Documents::new(alloc);
    if row.0 == Unit::Utf8 {
        documents.set_unit(Unit::Utf8);
    }
    Ok(perform_all_actions(alloc, &mut documents, row.1)? && documents.unit() == row.0)
}

impl TestCase for DocumentCase {
    fn has_expected_outcome(&self, alloc: Global) -> Result<bool, AllocError> {
        Ok(
            performs_as_expected::<Whole>(alloc, self)?
                && performs_as_expected::<Lines>(alloc, self)?,
        )
    }
}

#[test]
fn documents_change_state_as_expected(rt: HostRuntime) {
    let wrong = first_failing_row(rt.alloc(), DOCUMENT_CASES);
    assert!(rt; wrong.is_none(), "row {wrong:?}");
}

/// Opens a document, and tries once more if an allocation fails. Returns whether the document is
/// open in the end. If the first attempt failed, the document must still be closed after that
/// attempt.
fn open_with_retry(documents: &mut Documents<Lines>, uri: &str) -> bool {
    if documents.did_open(uri, 1, OPENED_TEXT).is_err() {
        if documents.get(uri).is_some() || documents.did_open(uri, 1, OPENED_TEXT).is_err() {
            return false;
        }
    }
    has_state(documents, uri, InStep(1, OPENED_TEXT))
}

/// Changes a document. Returns whether the document then has its new text, or is out of step if an
/// allocation failed.
fn changes_or_is_out_of_step(documents: &mut Documents<Lines>, uri: &str, note: &[Change]) -> bool {
    match documents.did_change(uri, 2, note) {
        Ok(()) => has_state(documents, uri, InStep(2, TEXT_AFTER_THREE_CHANGES)),
        Err(AllocError) => has_state(documents, uri, OutOfStep),
    }
}

/// Opens two documents and changes one of them. Returns whether both have their expected states.
fn change_one_of_two_documents(alloc: Global) -> Result<bool, AllocError> {
    let note = changes_of_rows(alloc, THREE_CHANGES)?;
    let mut documents: Documents<Lines> = Documents::new(alloc);
    Ok(
        open_with_retry(&mut documents, "u")
            && open_with_retry(&mut documents, "v")
            && changes_or_is_out_of_step(&mut documents, "u", note.as_slice())
            && has_state(&documents, "v", InStep(1, OPENED_TEXT)),
    )
}

/// Replaces a range of a text. Returns whether the text is the expected one, or is unchanged if an
/// allocation failed.
fn replaces_text_or_leaves_it_unchanged(alloc: Global) -> Result<bool, AllocError> {
    let mut store = Lines::from_str(alloc, OPENED_TEXT)?;
    match store.replace(
        range_between_positions((1, 0), (1, 0)),
        "\nmore than there was room for",
    ) {
        Ok(()) => Ok(store.as_str() == "a\r\nmore than there was room forb"),
        Err(AllocError) => Ok(store.as_str() == OPENED_TEXT),
    }
}

// `make test` runs this test once for each allocation, and lets that allocation fail. (If the
// failing allocation is made by the test itself and not by `Documents`, the test runs once more.)
#[test]
fn a_refused_change_puts_only_its_document_out_of_step(rt: HostRuntime) {
    let held = change_one_of_two_documents(rt.alloc());
    assert!(rt;
        held == Ok(true) || held.is_err() && change_one_of_two_documents(rt.alloc()) == Ok(true)
    );
}

// `make test` runs this test once for each allocation, and lets that allocation fail.
#[test]
fn a_refused_replacement_leaves_the_text_unchanged(rt: HostRuntime) {
    let left = replaces_text_or_leaves_it_unchanged(rt.alloc());
    assert!(rt;
        left == Ok(true)
            || left.is_err() && replaces_text_or_leaves_it_unchanged(rt.alloc()) == Ok(true)
    );
}

//! The names of `ob0_text`: positions, edits, stores and documents.

use ob0_text::{
    Change, Documents, Edit, EditRefusal, Held, Indent, Lines, PatchFault, Position, Range,
    TextStore, Unit, Whole, patch,
};
use std::alloc::{AllocError, Global};
use std::process::Abort;

/// Returns the range of one character at this character of the first line.
fn range_of_character(character: u64) -> Range {
    let start: Position = Position { line: 0, character };
    let end: Position = Position {
        line: 0,
        character: character.saturating_add(1),
    };
    Range { start, end }
}

/// Returns the line and the character of a position.
fn numbers_of_position(position: Position) -> (u64, u64) {
    let Position { line, character } = position;
    (line, character)
}

/// Returns the number of units of a character that has two UTF-16 units and four bytes.
fn units_of_wide_character(unit: Unit) -> u64 {
    match unit {
        Unit::Utf16 => 2,
        Unit::Utf8 => 4,
    }
}

/// Returns how many spaces a level of indentation has, or 0 for a tab.
fn spaces_of_indent(indent: Indent) -> u8 {
    match indent {
        Indent::Tab => 0,
        Indent::Spaces(count) => count,
    }
}

/// Returns whether a store of a wide character and `b` counts in this unit, and has the text `b`
/// after the character is removed.
fn removes_wide_character<T: TextStore>(
    alloc: Global,
    unit: Unit,
    mut store: T,
) -> Result<bool, AllocError> {
    let counted: Unit = T::unit(&store);
    let len: usize = T::len(&store);
    let position: Position = T::position(&store, 4);
    let offset: usize = T::offset(&store, position);
    if counted != unit || len != 5 || offset != 4 {
        return Ok(false);
    }
    if numbers_of_position(position) != (0, units_of_wide_character(unit)) {
        return Ok(false);
    }
    let range = Range {
        start: Position {
            line: 0,
            character: 0,
        },
        end: position,
    };
    let replaced: Result<(), AllocError> = T::replace(&mut store, range, "");
    replaced?;
    let text: Result<String, AllocError> = T::to_string(&store, alloc);
    Ok(text?.as_str() == "b")
}

/// Returns whether a store that is made in each way has each call of the trait.
fn has_each_call<T: TextStore>(alloc: Global) -> Result<bool, AllocError> {
    let usual: Result<T, AllocError> = T::from_str(alloc, "\u{1F600}b");
    if !removes_wide_character(alloc, Unit::Utf16, usual?)? {
        return Ok(false);
    }
    let other: Result<T, AllocError> = T::from_str_in(alloc, "\u{1F600}b", Unit::Utf8);
    removes_wide_character(alloc, Unit::Utf8, other?)
}

/// Returns whether the second line of a text is `b`, and there is no third one.
fn has_second_line_b(alloc: Global) -> Result<bool, AllocError> {
    let store: Lines = Lines::from_str(alloc, "a\nb")?;
    let second: Option<&str> = Lines::line(&store, 1);
    let third: Option<&str> = Lines::line(&store, 2);
    Ok(second == Some("b") && third.is_none())
}

/// Returns whether replacing the first character of `ab` by `c` gives `cb`.
fn patches(alloc: Global) -> Result<bool, AllocError> {
    let store: Whole = Whole::from_str(alloc, "ab")?;
    let mut edits: Vec<Edit> = Vec::new(alloc);
    edits.push(Edit {
        range: range_of_character(0),
        text: String::from_str(alloc, "c")?,
    })?;
    let patched: Result<String, PatchFault> = patch(alloc, &store, edits.as_slice());
    match patched {
        Ok(text) => Ok(text.as_str() == "cb"),
        Err(PatchFault::Overlap) => Ok(false),
        Err(PatchFault::Memory) => Err(AllocError),
    }
}

/// Returns the version and the length of a held text, or two zeros if the document is out of step.
fn version_and_length<T: TextStore>(held: Held<'_, T>) -> (i64, usize) {
    match held {
        Held::InStep { version, text } => (version, T::len(text)),
        Held::OutOfStep => (0, 0),
    }
}

/// Returns the version and the length of a document's text. Returns None if it isn't open.
fn held_of<T: TextStore>(documents: &Documents<T>, uri: &str) -> Option<(i64, usize)> {
    let held: Option<Held<'_, T>> = Documents::get(documents, uri);
    match held {
        Some(held) => Some(version_and_length(held)),
        None => None,
    }
}

/// Returns a list of one change, which replaces the whole text.
fn change_of_whole_text(alloc: Global, text: &str) -> Result<Vec<Change>, AllocError> {
    let mut changes: Vec<Change> = Vec::new(alloc);
    let (range, text): (Option<Range>, String) = (None, String::from_str(alloc, text)?);
    changes.push(Change { range, text })?;
    Ok(changes)
}

/// Opens, changes, loses and closes a document. Returns whether each call has its result.
fn keeps_document<T: TextStore>(
    alloc: Global,
    documents: &mut Documents<T>,
) -> Result<bool, AllocError> {
    let opened: Result<(), AllocError> = Documents::did_open(documents, "u", 1, "a");
    opened?;
    let changes = change_of_whole_text(alloc, "ab")?;
    let changed: Result<(), AllocError> = Documents::did_change(
        documents,
        "u",
        2,
        changes.as_slice(),
    );
    changed?;
    let in_step = held_of(documents, "u") == Some((2, 2));
    Documents::lose(documents, "u");
    let out_of_step = held_of(documents, "u") == Some((0, 0));
    let closed: bool = Documents::did_close(documents, "u");
    Ok(in_step && out_of_step && closed && held_of(documents, "u").is_none())
}

/// Returns whether new documents that count in bytes keep a document.
fn new_documents_keep_document<T: TextStore>(alloc: Global) -> Result<bool, AllocError> {
    let mut documents: Documents<T> = Documents::new(alloc);
    Documents::set_unit(&mut documents, Unit::Utf8);
    keeps_document(alloc, &mut documents)
}

/// Returns the name of a refusal.
fn name_of_refusal(refusal: EditRefusal) -> &'static str {
    match refusal {
        EditRefusal::NoName => "NoName",
        EditRefusal::Predeclared => "Predeclared",
        EditRefusal::BadName => "BadName",
        EditRefusal::Duplicate { range: _ } => "Duplicate",
        EditRefusal::Captures { range: _ } => "Captures",
        EditRefusal::TooLong => "TooLong",
        EditRefusal::TooDeep => "TooDeep",
        EditRefusal::Shadowed => "Shadowed",
        EditRefusal::CommentInside => "CommentInside",
        EditRefusal::Memory => "Memory",
    }
}

/// Returns whether a refusal has this text.
fn has_text(alloc: Global, refusal: EditRefusal, text: &str) -> Result<bool, AllocError> {
    let found: Result<String, AllocError> = EditRefusal::text(&refusal, alloc);
    Ok(found?.as_str() == text)
}

fn stores_are_as_expected(alloc: Global) -> Result<bool, AllocError> {
    Ok(
        has_each_call::<Whole>(alloc)?
            && has_each_call::<Lines>(alloc)?
            && has_second_line_b(alloc)?
            && patches(alloc)?
            && spaces_of_indent(Indent::Spaces(2)) == 2
            && spaces_of_indent(Indent::Tab) == 0,
    )
}

#[test]
fn stores_have_each_call(rt: HostRuntime) {
    assert!(rt; stores_are_as_expected(rt.alloc()) == Ok(true));
}

fn documents_are_as_expected(alloc: Global) -> Result<bool, AllocError> {
    Ok(new_documents_keep_document::<Whole>(alloc)? && new_documents_keep_document::<Lines>(alloc)?)
}

#[test]
fn documents_have_each_call(rt: HostRuntime) {
    assert!(rt; documents_are_as_expected(rt.alloc()) == Ok(true));
}

const RANGE: Range = Range {
    start: Position {
        line: 0,
        character: 3,
    },
    end: Position {
        line: 0,
        character: 4,
    },
};

/// Refusals with their texts.
static REFUSAL_CASES: &[(EditRefusal, &str)] = &[
    (EditRefusal::NoName, "NoName"),
    (EditRefusal::Predeclared, "Predeclared"),
    (EditRefusal::BadName, "BadName"),
    (EditRefusal::Duplicate { range: RANGE }, "Duplicate 0:3-0:4"),
    (EditRefusal::Captures { range: RANGE }, "Captures 0:3-0:4"),
    (EditRefusal::TooLong, "TooLong"),
    (EditRefusal::TooDeep, "TooDeep"),
    (EditRefusal::Shadowed, "Shadowed"),
    (EditRefusal::CommentInside, "CommentInside"),
    (EditRefusal::Memory, "Memory"),
];

/// Returns whether each refusal has its text, which begins with its name.
fn refusals_are_as_expected(alloc: Global) -> Result<bool, AllocError> {
    for row in REFUSAL_CASES {
        let (refusal, text) = *row;
        if !has_text(alloc, refusal, text)? || !text.starts_with(name_of_refusal(refusal)) {
            return Ok(false);
        }
    }
    Ok(true)
}

#[test]
fn refusals_have_their_texts(rt: HostRuntime) {
    assert!(rt; refusals_are_as_expected(rt.alloc()) == Ok(true));
}

//! Tests the store of lines (`Lines`) by comparing it with the store of a whole text (`Whole`). The
//! stores are compared after many changes of short texts, and in long lines. Also tests into which
//! lines `Lines` cuts a text.

use crate::cases::{TestCase, first_failing_row};
use crate::lines::LinesCase::{CutIntoLines, LongLines, ShortText};
use crate::text::{position_at, range_between_positions};
use ob0_text::{Lines, Range, TextStore, Unit, Whole};
use std::alloc::{AllocError, Global};
use std::process::Abort;

/// A text on which the store of lines is tested.
enum LinesCase {
    /// A short text. Many changes are tried on it.
    ShortText(&'static str),
    /// A text with long lines, in which both stores are compared.
    LongLines(&'static str),
    /// A text, and its lines with their endings.
    CutIntoLines(&'static str, &'static [&'static str]),
}

static TEXTS_TO_CHANGE: &[LinesCase] = rows![
    ShortText("");
    ShortText("\r");
    ShortText("\r\n");
    ShortText("a\r\nb\rc\nd");
    ShortText("\r\r\n\n\r");
    ShortText("x\n\né\r\n😀y\n");
    ShortText("one line alone");
    ShortText("\r\n\r\n");
];

static LONG_AND_CUT_TEXTS: &[LinesCase] = rows![
    LongLines("x := 0123456789 + 0123456789 + 0123456789 + 0123456789 + 0123456789 + 0123456789 + 0123456789 \
        + 0123456789 + 0123456789;\r\ny");
    LongLines("(* 0123456789 0123456789 0123456789 0123456789 0123456789 0123456789 0123456789 😀 0123456789 \
        0123456789 é 0123456789 *)\ry\n");
    LongLines("\n\t0123456789 0123456789 0123456789 0123456789 0123456789 012345678\n\
        0123456789 0123456789 0123456789 0123456789 0123456789");
    CutIntoLines("a\r\nb\nd", &["a\r\n", "b\n", "d"]);
    CutIntoLines("a\r\n😀b\rc\n", &["a\r\n", "😀b\r", "c\n", ""]);
    CutIntoLines("", &[""]);
];

/// One text in both stores: as lines and as a whole.
#[derive(Drop)]
struct BothStores {
    lines: Lines,
    whole: Whole,
}

/// Returns both stores of a text. They count positions in this unit.
fn both_stores_of(alloc: Global, text: &str, unit: Unit) -> Result<BothStores, AllocError> {
    let lines = Lines::from_str_in(alloc, text, unit)?;
    let whole = Whole::from_str_in(alloc, text, unit)?;
    Ok(BothStores { lines, whole })
}

impl BothStores {
    /// Returns whether both stores have the same text and convert positions and offsets alike. Only
    /// lines less than `lines`, characters less than `characters` and offsets less than 20 are
    /// tried.
    fn have_same_text_and_positions(&self, lines: u64, characters: u64) -> bool {
        for line in 0..lines {
            for character in 0..characters {
                let place = position_at(line, character);
                if self.lines.offset(place) != self.whole.offset(place) {
                    return false;
                }
            }
        }
        for offset in 0..20 {
            if self.lines.position(offset) != self.whole.position(offset) {
                return false;
            }
        }
        self.lines.as_str() == self.whole.as_str()
    }

    /// Replaces a range by `new` in both stores.
    fn replace(&mut self, range: Range, new: &str) -> Result<(), AllocError> {
        self.lines.replace(range, new)?;
        self.whole.replace(range, new)
    }

    /// Replaces the two units that begin at this line and column by a short text, in both stores.
    /// Returns whether both stores have the same text.
    fn change_two_units(&mut self, line: u64, column: u64) -> Result<bool, AllocError> {
        let range = range_between_positions((line, column), (line, column.saturating_add(2)));
        self.replace(range, "é-")?;
        Ok(self.lines.as_str() == self.whole.as_str())
    }

    /// Changes each of the first three lines at these columns, one after another. Returns whether
    /// both stores have the same text after each change.
    fn change_first_lines_at_columns(&mut self, columns: &[u64]) -> Result<bool, AllocError> {
        for line in 0..3 {
            for column in columns {
                if !self.change_two_units(line, *column)? {
                    return Ok(false);
                }
            }
        }
        Ok(true)
    }
}

/// Returns whether a store has the same text and the same lines as a store newly built from its
/// text. Only the first 16 lines are compared.
fn has_lines_of_new_store(alloc: Global, lines: &Lines, unit: Unit) -> Result<bool, AllocError> {
    let again = Lines::from_str_in(alloc, lines.as_str(), unit)?;
    for k in 0..16 {
        if lines.line(k) != again.line(k) {
            return Ok(false);
        }
    }
    Ok(lines.as_str() == again.as_str())
}

/// Makes one change in both stores of a text. Returns whether both stores have the same text and
/// convert positions and offsets alike. The store of lines must also have the same lines as a store
/// newly built from the changed text.
fn stores_agree_after_change(
    alloc: Global,
    text: &str,
    unit: Unit,
    range: Range,
    new: &str,
) -> Result<bool, AllocError> {
    let mut stores = both_stores_of(alloc, text, unit)?;
    stores.replace(range, new)?;
    Ok(
        has_lines_of_new_store(alloc, &stores.lines, unit)?
            && stores.have_same_text_and_positions(10, 8),
    )
}

/// Makes two changes of the text, each in stores newly built from it. Returns whether the stores
/// agree after each change. Both changes begin in `line`. The change `wide` ends `further` lines
/// later, and its positions are counted in UTF-16 units. The change `narrow` ends in the same line,
/// and its positions are counted in bytes.
fn stores_agree_after_each_of_two_changes(
    alloc: Global,
    text: &str,
    new: &str,
    line: u64,
    further: u64,
) -> Result<bool, AllocError> {
    let wide = range_between_positions((line, 1), (line.saturating_add(further), further));
    let narrow = range_between_positions((line, 0), (line, further));
    Ok(
        stores_agree_after_change(alloc, text, Unit::Utf16, wide, new)?
            && stores_agree_after_change(alloc, text, Unit::Utf8, narrow, new)?,
    )
}

/// Makes several changes of the text, each in stores newly built from it. Returns whether the
/// stores agree after each change. Each change begins in one of the first four lines, and ends in
/// the same line or in one of the next two.
fn stores_agree_after_each_change(
    alloc: Global,
    text: &str,
    new: &str,
) -> Result<bool, AllocError> {
    for line in 0..4 {
        for further in 0..3 {
            if !stores_agree_after_each_of_two_changes(alloc, text, new, line, further)? {
                return Ok(false);
            }
        }
    }
    Ok(true)
}

static REPLACEMENT_TEXTS: &[&str] = &["", "\n", "\r", "\r\n", "é", "\n\r", "a\rb"];

/// Returns whether the stores of a text agree after changes that insert one of `REPLACEMENT_TEXTS`.
/// Every text of this list is tried.
fn stores_agree_after_each_replacement(alloc: Global, text: &str) -> Result<bool, AllocError> {
    for new in REPLACEMENT_TEXTS {
        if !stores_agree_after_each_change(alloc, text, new)? {
            return Ok(false);
        }
    }
    Ok(true)
}

/// Lists of columns. Lines are changed at the columns of a list one after another: forwards,
/// backwards, or in mixed order.
static COLUMN_SEQUENCES: &[&[u64]] = &[
    &[0, 3, 70, 71, 130, 140],
    &[150, 140, 100, 99, 66, 30, 2, 0],
    &[10, 120, 60, 64, 128, 1, 90, 89],
];

/// Returns whether both stores of a text agree on positions far to the right in its lines. They
/// must also agree after the lines are changed at the columns of each list in `COLUMN_SEQUENCES`.
fn stores_agree_in_long_lines(alloc: Global, text: &str, unit: Unit) -> Result<bool, AllocError> {
    if !both_stores_of(alloc, text, unit)?.have_same_text_and_positions(4, 160) {
        return Ok(false);
    }
    for columns in COLUMN_SEQUENCES {
        if !both_stores_of(alloc, text, unit)?.change_first_lines_at_columns(columns)? {
            return Ok(false);
        }
    }
    Ok(true)
}

/// Returns whether a store has exactly these lines.
fn has_lines(lines: &Lines, wanted: &[&str]) -> bool {
    for k in 0..wanted.len() {
        if lines.line(k) != Some(wanted[k]) {
            return false;
        }
    }
    lines.line(wanted.len()).is_none()
}

impl TestCase for LinesCase {
    fn has_expected_outcome(&self, alloc: Global) -> Result<bool, AllocError> {
        match self {
            ShortText(text) => stores_agree_after_each_replacement(alloc, text),
            LongLines(text) => Ok(
                stores_agree_in_long_lines(alloc, text, Unit::Utf16)?
                    && stores_agree_in_long_lines(alloc, text, Unit::Utf8)?,
            ),
            CutIntoLines(text, wanted) => Ok(has_lines(&Lines::from_str(alloc, text)?, wanted)),
        }
    }
}

#[test]
fn lines_are_updated_after_changes(rt: HostRuntime) {
    let wrong = first_failing_row(rt.alloc(), TEXTS_TO_CHANGE);
    assert!(rt; wrong.is_none(), "row {wrong:?}");
}

#[test]
fn lines_agree_with_whole_text(rt: HostRuntime) {
    let wrong = first_failing_row(rt.alloc(), LONG_AND_CUT_TEXTS);
    assert!(rt; wrong.is_none(), "row {wrong:?}");
}

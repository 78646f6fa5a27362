//! Looks up offsets and positions with the table of a text's lines.
//!
//! `count_starts_before` is a binary search. Its contract splits the table into the line starts
//! below a byte offset and the line starts at or above it. The result is the length of the first
//! part. The loop keeps this length between `low` and `high` (the lemmas `in_front` and
//! `not_in_front` in `Halving`). A pass to an offset or a position may begin at any line start that
//! isn't after it (`line_counted`, `line_sought` in `LinePlaces`). The result is the same for each
//! of these line starts. Beginning at the nearest one only saves time.
//!
//! A list of offsets or positions is looked up in its order. Each pass continues at the place that
//! the previous pass reached, if this place is in the same line and not after the offset or
//! position. A pass to an offset also continues at that place if the offset is less than 32 bytes
//! ahead, even in another line. Otherwise the pass begins at the start of the line, which the table
//! gives (`pass_start_for_offset`, `place_from_previous_position`). So ascending offsets or
//! positions in one long line take a single pass over that line, as in the plain store `Whole`. If
//! an offset isn't near, its line is found by binary search. If both ends of a changed range are in
//! one line, one pass finds both ends (`range_offsets`).

ghost use Rattle.std.specs.Prelude.{◌≡◌, ◌+◌, ◌-◌, ◌<◌, ◌≤◌, IfOk, length, map, min, slice_get, slice_index};
ghost use Rattle.std.specs.Option.{option_map};
ghost use Rattle.std.specs.Str.{chars};
ghost use Rattle.ob0_text.specs.Texts.{lines, offset_of, position_of};
ghost use Rattle.ob0_text.specs.Units.{width_of};
ghost use Rattle.ob0_text.specs.PassInvariants.{PositionsCanBeCountedFromPlace, OffsetsCanBeFoundFromPlace};
ghost use Rattle.ob0_text.specs.declared.position_types.Unit.{Unit};
ghost use Rattle.ob0_text.specs.LineStarts.{IsLineTableOf, line_with_ending};
ghost use Rattle.ob0_text.specs.Stretches.{IsPieceOfLine};

use crate::counted_pieces::{CountedPiece, piece_end_within_units};
use crate::line_table::LineTable;
use crate::passes::{
    PlaceInText, TEXT_START, advance_to_offset, advance_to_position, is_at_or_before,
    position_of_place,
};
use crate::position_types::{Position, Range, Unit};
use std::alloc::{AllocError, Global};

/// An offset is near if it is fewer than this many bytes ahead. A pass continues to a near offset
/// without a look-up in the table.
const NEAR_DISTANCE_BYTES: usize = 32;

/// Returns the byte offset of a position in the text whose line table is `table`.
pub fn offset_from_line_table(
    text: &str,
    table: &LineTable,
    unit: Unit,
    position: Position,
) -> usize
    requires { IsLineTableOf text.now table.now }
    ensures { result ≡ offset_of (width_of unit) (chars text.now) position }
{
    place_of_position(text, table, unit, position).offset
}

/// The byte offsets at which a range starts and ends, and how far the units of the line in which it
/// starts have been counted, so that the next look-up needn't count from the line's start.
#[derive(Clone, Copy, Drop)]
pub struct RangeOffsets {
    pub start: usize,
    pub end: usize,
    pub counted_piece: CountedPiece,
}

/// Returns the byte offsets of a range's start and end, and a counted piece (`CountedPiece`) of the
/// line in which the range starts. If `last`, the piece that was counted last, begins at the start
/// of this line, only the difference between the two pieces is counted. If the range's end is in
/// the same line as its start and not before the start, the search for the end begins at the
/// range's start.
pub fn range_offsets(
    text: &str,
    table: &LineTable,
    unit: Unit,
    last: CountedPiece,
    range: Range,
) -> RangeOffsets
    requires lines { IsLineTableOf text.now table.now }
    requires last { IsPieceOfLine (width_of unit) text.now last.start last.end_and_units }
    ensures start { result.start ≡ offset_of (width_of unit) (chars text.now) range.start }
    ensures end { result.end ≡ offset_of (width_of unit) (chars text.now) range.end }
    ensures counted { IsPieceOfLine (width_of unit) text.now result.counted_piece.start
        result.counted_piece.end_and_units }
{
    let counted = counted_piece_before_position(text, table, unit, last, range.start);
    let start = place_from_counted_piece(text, table, unit, counted, range.start);
    let end = if range.start.line == range.end.line && is_at_or_before(range.start, range.end) {
        advance_to_position(text, unit, start, range.end)
    } else {
        place_of_position(text, table, unit, range.end)
    };
    RangeOffsets {
        start: start.offset,
        end: end.offset,
        counted_piece: counted,
    }
}

/// Returns a counted piece (`CountedPiece`) that begins at the start of the position's line and
/// ends at or before the position. If the text has no such line, the piece is in the last line. If
/// `last`, the piece that was counted last, begins at the same offset, only the difference between
/// the two pieces is counted.
fn counted_piece_before_position(
    text: &str,
    table: &LineTable,
    unit: Unit,
    last: CountedPiece,
    position: Position,
) -> CountedPiece
    requires lines { IsLineTableOf text.now table.now }
    requires last { IsPieceOfLine (width_of unit) text.now last.start last.end_and_units }
    ensures { IsPieceOfLine (width_of unit) text.now result.start result.end_and_units }
{
    let start = line_start_place(table, position.line);
    if start.offset > text.len() {
        return last;
    }
    CountedPiece {
        start: start.offset,
        end_and_units: piece_end_within_units(text, unit, start.offset, last, position.character),
    }
}

/// Returns the place of a position. If the piece `counted` is the beginning of the position's line
/// and ends at or before the position, the search begins at the end of this piece. Otherwise the
/// search begins at the start of the line.
fn place_from_counted_piece(
    text: &str,
    table: &LineTable,
    unit: Unit,
    counted: CountedPiece,
    position: Position,
) -> PlaceInText
    requires lines { IsLineTableOf text.now table.now }
    requires counted { IsPieceOfLine (width_of unit) text.now counted.start counted.end_and_units }
    ensures place { OffsetsCanBeFoundFromPlace (width_of unit) text.now position result }
    ensures offset { result.offset ≡ offset_of (width_of unit) (chars text.now) position }
{
    let start = line_start_place(table, position.line);
    if start.line != position.line
        || start.offset != counted.start
        || counted.end_and_units.units > position.character
    {
        return place_of_position(text, table, unit, position);
    }
    let near = PlaceInText {
        offset: counted.end_and_units.end,
        line: start.line,
        character: counted.end_and_units.units,
    };
    advance_to_position(text, unit, near, position)
}

/// Returns the place of a position. The start of the position's line is looked up in the table, and
/// the characters from there are counted.
fn place_of_position(text: &str, table: &LineTable, unit: Unit, position: Position) -> PlaceInText
    requires { IsLineTableOf text.now table.now }
    ensures place { OffsetsCanBeFoundFromPlace (width_of unit) text.now position result }
    ensures offset { result.offset ≡ offset_of (width_of unit) (chars text.now) position }
{
    let start = line_start_place(table, position.line);
    advance_to_position(text, unit, start, position)
}

/// Returns the position of a byte offset. The offset's line is found by binary search.
pub fn position_from_line_table(
    text: &str,
    table: &LineTable,
    unit: Unit,
    offset: usize,
) -> Position
    requires { IsLineTableOf text.now table.now }
    ensures { result ≡ position_of (width_of unit) (chars text.now) offset }
{
    let place = line_start_before_offset(text, table, offset);
    position_of_place(advance_to_offset(text, unit, place, offset))
}

/// Returns the position of each byte offset, in the order of `offsets`. Each position is counted
/// from the previous offset's place or from the start of a line.
pub fn positions_from_line_table(
    alloc: Global,
    text: &str,
    table: &LineTable,
    unit: Unit,
    offsets: &[usize],
) -> Result<Vec<Position>, AllocError>
    requires { IsLineTableOf text.now table.now }
    ensures { IfOk result (λ positions. positions.items
        ≡ map (position_of (width_of unit) (chars text.now)) offsets.now) }
{
    let mut positions = Vec::with_capacity(alloc, offsets.len())?;
    let mut place = TEXT_START;
    for offset in offsets {
        let from = pass_start_for_offset(text, table, place, *offset);
        place = advance_to_offset(text, unit, from, *offset);
        positions.push(position_of_place(place))?;
    }
    Ok(positions)
}

/// Returns the byte offset of each position, in the order of `positions`. The search for a position
/// begins at the previous position's place if this place is in the same line and not after the
/// position. Otherwise it begins at the start of the position's line.
pub fn offsets_from_line_table(
    alloc: Global,
    text: &str,
    table: &LineTable,
    unit: Unit,
    positions: &[Position],
) -> Result<Vec<usize>, AllocError>
    requires { IsLineTableOf text.now table.now }
    ensures { IfOk result (λ offsets. offsets.items
        ≡ map (offset_of (width_of unit) (chars text.now)) positions.now) }
{
    let mut offsets = Vec::new(alloc);
    let mut place = TEXT_START;
    let mut last = position_of_place(TEXT_START);
    for position in positions {
        place = place_from_previous_position(text, table, unit, last, place, *position);
        last = *position;
        offsets.push(place.offset)?;
    }
    Ok(offsets)
}

/// Returns the place of `position`. If the previous position `last` is in the same line and not
/// after `position`, the search begins at `place`, the place of `last`. Otherwise the search begins
/// at the start of the position's line.
fn place_from_previous_position(
    text: &str,
    table: &LineTable,
    unit: Unit,
    last: Position,
    place: PlaceInText,
    position: Position,
) -> PlaceInText
    requires lines { IsLineTableOf text.now table.now }
    requires last { OffsetsCanBeFoundFromPlace (width_of unit) text.now last place }
    ensures place { OffsetsCanBeFoundFromPlace (width_of unit) text.now position result }
    ensures offset { result.offset ≡ offset_of (width_of unit) (chars text.now) position }
{
    if last.line == position.line && is_at_or_before(last, position) {
        advance_to_position(text, unit, place, position)
    } else {
        place_of_position(text, table, unit, position)
    }
}

/// Returns the place at which a pass to a byte offset begins. The result is `place`, the previous
/// offset's place, if `place` isn't after the offset, and is near the offset or in the offset's
/// line. Otherwise the result is the start of the offset's line.
fn pass_start_for_offset(
    text: &str,
    table: &LineTable,
    place: PlaceInText,
    offset: usize,
) -> PlaceInText
    requires { IsLineTableOf text.now table.now }
    ensures place { (unit : Unit) → PositionsCanBeCountedFromPlace (width_of unit) text.now place
        → PositionsCanBeCountedFromPlace (width_of unit) text.now result }
    ensures following { result.offset ≤ offset }
{
    if place.offset <= offset && offset - place.offset < NEAR_DISTANCE_BYTES {
        return place;
    }
    let start = line_start_before_offset(text, table, offset);
    if start.offset <= place.offset && place.offset <= offset {
        return place;
    }
    start
}

/// Returns the place at which the line of a byte offset starts. The line is found by binary search.
fn line_start_before_offset(text: &str, table: &LineTable, offset: usize) -> PlaceInText
    requires { IsLineTableOf text.now table.now }
    ensures place { (unit : Unit) → PositionsCanBeCountedFromPlace (width_of unit) text.now result }
    ensures following { result.offset ≤ offset }
{
    let started = table.count_starts_before(offset.min(text.len()) + 1);
    line_start_place(table, started as u64 - 1)
}

/// Returns line `k`, counted from 0, with its ending. Returns None if the text has no such line.
pub fn line_from_line_table<'a>(text: &'a str, table: &LineTable, k: usize) -> Option<&'a str>
    requires { IsLineTableOf text.now table.now }
    ensures { option_map (λ line. chars line.now) result
        ≡ option_map line_with_ending (slice_get (lines (chars text.now)) k) }
{
    if k >= table.count() {
        return None;
    }
    let end = line_end_offset(table, text.len(), k);
    Some(&text[table.line_start(k)..end])
}

/// Returns the byte offset at which line `k`, counted from 0, ends together with its line ending.
/// The result is the start of the next line, or the text's length `len` if line `k` is the last
/// one.
fn line_end_offset(table: &LineTable, len: usize, k: usize) -> usize
    requires { k < length table.now.starts }
    ensures next { k + 1 < length table.now.starts → result ≡ slice_index table.now.starts (k + 1) }
    ensures last { length table.now.starts ≤ k + 1 → result ≡ len }
{
    let count = table.count();
    if k + 1 < count {
        table.line_start(k + 1)
    } else {
        len
    }
}

/// Returns the place at which a line, counted from 0, starts. If there is no such line, the result
/// is the start of the last line.
fn line_start_place(table: &LineTable, line: u64) -> PlaceInText
    requires { 0 < length table.now.starts }
    ensures offset { result.offset ≡ slice_index table.now.starts result.line }
    ensures line { result.line ≡ min line (length table.now.starts - 1) }
    ensures character { result.character ≡ 0 }
{
    let line = line.min(table.count() as u64 - 1);
    PlaceInText {
        offset: table.line_start(line as usize),
        line,
        character: 0,
    }
}

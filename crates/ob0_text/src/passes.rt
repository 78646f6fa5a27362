//! Converts offsets to positions, and positions to offsets, in passes over a text.
//!
//! There are two kinds of passes: to a byte offset (`advance_to_offset`) and to a position
//! (`advance_to_position`). Both first advance by stretches of a line: runs of up to 64 bytes
//! (`stretches.rt`). Then the pass to an offset advances over ASCII bytes (`skip_ascii`), even
//! across lines, because the offset is usually only a few lines ahead. This pass decodes only CR
//! and characters outside ASCII. The pass to a position decodes each remaining character. If the
//! pass began in the position's line, fewer than 64 characters remain to be decoded. The pass to an
//! offset preserves the invariant `PositionsCanBeCountedFromPlace`. The pass to a position
//! preserves `OffsetsCanBeFoundFromPlace`. `StretchSteps` proves that a step over a whole stretch
//! preserves both, because a step over one character does.

ghost use Rattle.std.specs.Prelude.{◌≡◌, ◌↔◌, ◌==◌, ◌||◌, ◌+◌, ◌-◌, ◌<◌, ◌≤◌, IfOk, IfSome, IsTrue, None, map};
ghost use Rattle.std.specs.Str.{IsCharBoundary, chars};
ghost use Rattle.ob0_text.specs.Texts.{LF, CR, ends_line, offset_of, position_of};
ghost use Rattle.ob0_text.specs.Units.{width_of};
ghost use Rattle.ob0_text.specs.Stretches.{IsStretch};
ghost use Rattle.ob0_text.specs.PassInvariants.{position_at_character, PositionIsAtOrBefore, PositionsCanBeCountedFromPlace, OffsetsCanBeFoundFromPlace};

use crate::position_types::{Position, Unit};
use crate::stretches::{Stretch, next_stretch};
use std::alloc::{AllocError, Global};

/// A place that a pass has reached: its byte offset, its line (counted from 0), and the number of
/// units from the line's start to the place.
#[derive(Clone, Copy)]
pub struct PlaceInText {
    pub offset: usize,
    pub line: u64,
    pub character: u64,
}

/// The place at the start of a text.
pub const TEXT_START: PlaceInText = PlaceInText {
    offset: 0,
    line: 0,
    character: 0,
};

/// Returns the position of each byte offset, in the order of `offsets`. If the offsets ascend, a
/// single pass over the text finds all positions.
pub fn positions_of(
    alloc: Global,
    text: &str,
    unit: Unit,
    offsets: &[usize],
) -> Result<Vec<Position>, AllocError>
    ensures { IfOk result (λ positions. positions.items
        ≡ map (position_of (width_of unit) (chars text.now)) offsets.now) }
{
    let mut positions = Vec::new(alloc);
    let mut place = TEXT_START;
    for offset in offsets {
        if *offset < place.offset {
            place = TEXT_START;
        }
        place = advance_to_offset(text, unit, place, *offset);
        positions.push(position_of_place(place))?;
    }
    Ok(positions)
}

/// Returns the byte offset of each position, in the order of `positions`. If the positions ascend,
/// a single pass over the text finds all offsets.
pub fn offsets_of(
    alloc: Global,
    text: &str,
    unit: Unit,
    positions: &[Position],
) -> Result<Vec<usize>, AllocError>
    ensures { IfOk result (λ offsets. offsets.items
        ≡ map (offset_of (width_of unit) (chars text.now)) positions.now) }
{
    let mut offsets = Vec::new(alloc);
    let mut place = TEXT_START;
    let mut last = position_of_place(TEXT_START);
    for position in positions {
        if !is_at_or_before(last, *position) {
            place = TEXT_START;
        }
        place = advance_to_position(text, unit, place, *position);
        last = *position;
        offsets.push(place.offset)?;
    }
    Ok(offsets)
}

/// Returns the position of a byte offset. The position's `character` is counted in `unit`.
pub fn position_of(text: &str, unit: Unit, offset: usize) -> Position
    ensures { result ≡ position_of (width_of unit) (chars text.now) offset }
{
    position_of_place(advance_to_offset(text, unit, TEXT_START, offset))
}

/// Returns the byte offset of a position. The position's `character` is counted in `unit`.
pub fn offset_of(text: &str, unit: Unit, position: Position) -> usize
    ensures { result ≡ offset_of (width_of unit) (chars text.now) position }
{
    advance_to_position(text, unit, TEXT_START, position).offset
}

/// Returns the position of the place that a pass has reached.
pub fn position_of_place(place: PlaceInText) -> Position
    ensures { result ≡ position_at_character place.line place.character }
{
    Position {
        line: place.line,
        character: place.character,
    }
}

/// Returns whether `from` equals `position` or comes before `position` in the text.
pub fn is_at_or_before(from: Position, position: Position) -> bool
    ensures { IsTrue result ↔ PositionIsAtOrBefore from position }
{
    from.line < position.line
        || (from.line == position.line && from.character <= position.character)
}

/// Returns whether the character is LF or CR.
fn is_line_break(c: char) -> bool
    ensures { result ≡ (c == LF || c == CR) }
{
    c == '\n' || c == '\r'
}

/// Returns whether the character `c` ends a line if the text `rest` follows `c`. A CR before an LF
/// doesn't end the line, because the LF does.
fn ends_line(c: char, rest: &str) -> bool
    ensures { result ≡ ends_line c (chars rest.now) }
{
    c == '\n' || (c == '\r' && !rest.starts_with('\n'))
}

/// Returns the number of units of a character: its length in UTF-16 units or in bytes of UTF-8.
fn character_width(c: char, unit: Unit) -> u64
    ensures { result ≡ width_of unit c }
{
    match unit {
        Unit::Utf16 => c.len_utf16() as u64,
        Unit::Utf8 => c.len_utf8() as u64,
    }
}

/// Advances from the place `from` to a byte offset, and returns the place there. `from` must be at
/// or before the offset. If the offset is inside a character, the result is the place before that
/// character. If the offset is after the text's end, the result is the text's end.
pub fn advance_to_offset(text: &str, unit: Unit, from: PlaceInText, offset: usize) -> PlaceInText
    requires place { PositionsCanBeCountedFromPlace (width_of unit) text.now from }
    requires following { from.offset ≤ offset }
    ensures place { PositionsCanBeCountedFromPlace (width_of unit) text.now result }
    ensures within { result.offset ≤ offset }
    ensures position { position_at_character result.line result.character
        ≡ position_of (width_of unit) (chars text.now) offset }
{
    let from = skip_stretches_to_offset(text, unit, from, offset);
    let mut place = skip_ascii(text, unit, from, offset);
    while let Some(next) = skip_char(text, unit, place, offset) {
        place = skip_ascii(text, unit, next, offset);
    }
    place
}

/// Advances from the place `from` by whole stretches (`Stretch`) of its line, but not beyond the
/// byte offset `offset`. Returns the place reached.
fn skip_stretches_to_offset(text: &str, unit: Unit, from: PlaceInText, offset: usize) -> PlaceInText
    requires place { PositionsCanBeCountedFromPlace (width_of unit) text.now from }
    requires following { from.offset ≤ offset }
    ensures place { PositionsCanBeCountedFromPlace (width_of unit) text.now result }
    ensures within { result.offset ≤ offset }
{
    let mut place = from;
    while let Some(stretch) = next_stretch(
        text,
        unit,
        place.offset,
        (offset - place.offset) as u64,
    ) {
        place = PlaceInText {
            offset: stretch.end,
            line: place.line,
            character: place.character + stretch.units,
        };
    }
    place
}

/// Advances from the place `from` over ASCII characters other than CR, but not beyond the byte
/// offset `offset`. Returns the place reached. The characters are recognized by their bytes,
/// without decoding.
fn skip_ascii(text: &str, unit: Unit, from: PlaceInText, offset: usize) -> PlaceInText
    requires place { PositionsCanBeCountedFromPlace (width_of unit) text.now from }
    requires following { from.offset ≤ offset }
    ensures place { PositionsCanBeCountedFromPlace (width_of unit) text.now result }
    ensures within { result.offset ≤ offset }
    ensures onward { from.offset ≤ result.offset }
{
    let bytes = text.as_bytes();
    let end = offset.min(bytes.len());
    let (mut line, mut character, mut reached) = (from.line, from.character, from.offset);
    while reached < end {
        let byte = bytes[reached];
        if b'\r' < byte && byte < 128 {
            reached += 1;
            character += 1;
            continue;
        }
        if 128 <= byte || byte == b'\r' {
            break;
        }
        reached += 1;
        if byte == b'\n' {
            line += 1;
            character = 0;
        } else {
            character += 1;
        }
    }
    PlaceInText {
        offset: reached,
        line,
        character,
    }
}

/// Returns the place after the character that begins at `place`. Returns None if the result would
/// be beyond the byte offset `offset`, or if no character follows `place`.
fn skip_char(text: &str, unit: Unit, place: PlaceInText, offset: usize) -> Option<PlaceInText>
    requires place { PositionsCanBeCountedFromPlace (width_of unit) text.now place }
    requires following { place.offset ≤ offset }
    ensures next { IfSome result (λ p. PositionsCanBeCountedFromPlace (width_of unit) text.now p) }
    ensures onward { IfSome result (λ p. (place.offset < p.offset) × (p.offset ≤ offset)) }
    ensures last { result ≡ None
        → position_at_character place.line place.character ≡ position_of (width_of unit) (chars text.now) offset }
{
    if offset <= place.offset {
        return None;
    }
    let mut chars = text[place.offset..].chars();
    let Some(c) = chars.next() else {
        return None;
    };
    if offset - place.offset < c.len_utf8() {
        return None;
    }
    let reached = place.offset + c.len_utf8();
    if ends_line(c, chars.as_str()) {
        return Some(PlaceInText {
            offset: reached,
            line: place.line + 1,
            character: 0,
        });
    }
    let units = if c == '\r' {
        0
    } else {
        character_width(c, unit)
    };
    Some(PlaceInText {
        offset: reached,
        line: place.line,
        character: place.character + units,
    })
}

/// Advances from the place `from` to a position, and returns the place there. `from` must be at or
/// before the position.
pub fn advance_to_position(
    text: &str,
    unit: Unit,
    from: PlaceInText,
    position: Position,
) -> PlaceInText
    requires place { OffsetsCanBeFoundFromPlace (width_of unit) text.now position from }
    ensures place { OffsetsCanBeFoundFromPlace (width_of unit) text.now position result }
    ensures offset { result.offset ≡ offset_of (width_of unit) (chars text.now) position }
{
    let from = skip_stretches_to_position(text, unit, from, position);
    let (mut line, mut character, mut reached) = (from.line, from.character, from.offset);
    let mut chars = text[from.offset..].chars();
    while let Some(c) = chars.next() {
        if line < position.line {
            if ends_line(c, chars.as_str()) {
                line += 1;
                character = 0;
            }
        } else {
            if is_line_break(c) {
                break;
            }
            let units = character_width(c, unit);
            if position.character - character < units {
                break;
            }
            character += units;
        }
        reached += c.len_utf8();
    }
    PlaceInText {
        offset: reached,
        line,
        character,
    }
}

/// Advances from the place `from` by whole stretches (`Stretch`) of the position's line, but not
/// beyond the position. Returns the place reached. If `from` is in another line, the result is
/// `from`.
fn skip_stretches_to_position(
    text: &str,
    unit: Unit,
    from: PlaceInText,
    position: Position,
) -> PlaceInText
    requires place { OffsetsCanBeFoundFromPlace (width_of unit) text.now position from }
    ensures place { OffsetsCanBeFoundFromPlace (width_of unit) text.now position result }
{
    let mut place = from;
    while let Some(stretch) = next_stretch_before_position(text, unit, place, position) {
        place = PlaceInText {
            offset: stretch.end,
            line: place.line,
            character: place.character + stretch.units,
        };
    }
    place
}

/// Returns the stretch that begins at `place`. Returns None if `place` isn't in the line of
/// `position`, if the stretch might end after `position`, or if `next_stretch` returns None.
fn next_stretch_before_position(
    text: &str,
    unit: Unit,
    place: PlaceInText,
    position: Position,
) -> Option<Stretch>
    requires { IsCharBoundary text.now place.offset }
    ensures is { IfSome result (λ s. IsStretch (width_of unit) text.now place.offset s) }
    ensures line { IfSome result (λ s. place.line ≡ position.line) }
    ensures fits { IfSome result
        (λ s. place.character + (s.end - place.offset) ≤ position.character) }
{
    if place.line != position.line || position.character < place.character {
        return None;
    }
    let room = position.character - place.character;
    next_stretch(text, unit, place.offset, room)
}

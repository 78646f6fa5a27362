//! Keeps the part of a line whose units (`Unit`) were counted last. The next position is usually
//! near the end of this part, so the next count continues from that end.
//!
//! `Lines` keeps the counted part of the line of the last change: from the line's start to a place
//! shortly before the change. The search for the start of the next change begins at the end of this
//! part. Short runs of characters (`stretches.rt`) are removed from the end of the part or added to
//! it (`shorten_piece_to_units`, `extend_piece_within_units`). So if an editor replaces all
//! occurrences of a word in one long line, forwards or backwards, only the text between two changes
//! is visited. The part contains only text before the change (`piece_or_empty_if_beyond`). So it
//! remains a piece of a line (`IsPieceOfLine`), even if the change adds or removes lines.
//! `place_from_counted_piece` tests whether a line still starts at the part's start. If changes
//! alternate between two places of one long line, each change visits the text between these places.

ghost use Rattle.std.specs.Prelude.{◌≡◌, ◌+◌, ◌-◌, ◌<◌, ◌≤◌, ◌++◌, ℕ, List, IfSome, length, take};
ghost use Rattle.ob0_text.specs.Units.{width_of};
ghost use Rattle.ob0_text.specs.Stretches.{IsPieceOfLine, IsStretch};

use crate::position_types::Unit;
use crate::stretches::{MAX_STRETCH_BYTES, Stretch, next_stretch, units_if_in_one_line};

/// Consecutive characters of a line whose units (`Unit`) have been counted. The characters begin at
/// the byte offset `start`. `end_and_units` has the byte offset of their end and the number of
/// their units.
#[derive(Clone, Copy, Drop)]
pub struct CountedPiece {
    pub start: usize,
    pub end_and_units: Stretch,
}

/// Returns an empty piece at the text's start, for use when nothing has been counted. It is a
/// correct counted piece of every text.
pub fn empty_counted_piece() -> CountedPiece
    ensures { (width : ℕ → ℕ) (text : List ℕ)
        → IsPieceOfLine width text result.start result.end_and_units }
{
    CountedPiece {
        start: 0,
        end_and_units: Stretch { end: 0, units: 0 },
    }
}

impl CountedPiece {
    /// Returns this piece if it ends at or before the byte offset `offset`, otherwise an empty
    /// piece. The result remains correct if the text after `offset` changes. More precisely: if
    /// this piece is a piece of a line of some text, the result is a piece of a line of every text
    /// with the same first `offset` bytes.
    pub fn piece_or_empty_if_beyond(self, offset: usize) -> CountedPiece
        ensures { (width : ℕ → ℕ) (text rest : List ℕ)
            → IsPieceOfLine width text self.start self.end_and_units
            → offset ≤ length text
            → IsPieceOfLine width (take offset text ++ rest) result.start result.end_and_units }
    {
        if self.end_and_units.end > offset {
            return empty_counted_piece();
        }
        self
    }
}

/// Returns the end and the number of units of a piece of one line. The piece begins at the byte
/// offset `start` and has at most `units` units. If the rest of the line has at least `units`
/// units, the piece has more than `units - 64` units. If the piece `last` also begins at `start`,
/// only the difference between the two pieces is counted.
pub fn piece_end_within_units(
    text: &str,
    unit: Unit,
    start: usize,
    last: CountedPiece,
    units: u64,
) -> Stretch
    requires start { start ≤ length text.now }
    requires last { IsPieceOfLine (width_of unit) text.now last.start last.end_and_units }
    ensures is { IsPieceOfLine (width_of unit) text.now start result }
    ensures fits { result.units ≤ units }
{
    if last.start == start {
        let shorter = shorten_piece_to_units(text, unit, start, last.end_and_units, units);
        return extend_piece_within_units(text, unit, start, shorter, units);
    }
    let nothing = Stretch {
        end: start,
        units: 0,
    };
    extend_piece_within_units(text, unit, start, nothing, units)
}

/// Returns the piece `from`, which begins at the byte offset `start`, shortened to at most `units`
/// units. Characters are removed from its end in steps of at most 64 bytes. A piece with at most
/// `units` units is returned unchanged.
fn shorten_piece_to_units(
    text: &str,
    unit: Unit,
    start: usize,
    from: Stretch,
    units: u64,
) -> Stretch
    requires start { start ≤ length text.now }
    requires is { IsPieceOfLine (width_of unit) text.now start from }
    ensures is { IsPieceOfLine (width_of unit) text.now start result }
    ensures fits { result.units ≤ units }
{
    let mut kept = from;
    while kept.units > units {
        let Some(less) = piece_without_last_characters(text, unit, start, kept) else {
            return Stretch {
                end: start,
                units: 0,
            };
        };
        kept = less;
    }
    kept
}

/// Removes whole characters, at most 64 bytes in all, from the end of `piece`, and returns the
/// rest. `piece` begins at the byte offset `start`. Returns None if nothing would be left.
fn piece_without_last_characters(
    text: &str,
    unit: Unit,
    start: usize,
    piece: Stretch,
) -> Option<Stretch>
    requires { IsPieceOfLine (width_of unit) text.now start piece }
    ensures is { IfSome result (IsPieceOfLine (width_of unit) text.now start) }
    ensures shorter { IfSome result (λ s. s.end < piece.end) }
{
    let end = text.floor_char_boundary(piece.end.saturating_sub(MAX_STRETCH_BYTES - 3));
    if end <= start || piece.end <= end || piece.end - end > MAX_STRETCH_BYTES {
        return None;
    }
    if !text.is_char_boundary(start) || !text.is_char_boundary(piece.end) {
        return None;
    }
    // The proof needs this slice: it shows that the rest also consists of whole characters.
    let _left = &text[start..end];
    let last = units_if_in_one_line(&text[end..piece.end], unit)?;
    if piece.units < last {
        return None;
    }
    Some(Stretch {
        end,
        units: piece.units - last,
    })
}

/// Returns the piece `from`, which begins at the byte offset `start`, extended by whole stretches
/// (`Stretch`) of the same line. The extension stops before the result might have more than `units`
/// units.
fn extend_piece_within_units(
    text: &str,
    unit: Unit,
    start: usize,
    from: Stretch,
    units: u64,
) -> Stretch
    requires few { from.units ≤ units }
    requires is { IsPieceOfLine (width_of unit) text.now start from }
    ensures is { IsPieceOfLine (width_of unit) text.now start result }
    ensures fits { result.units ≤ units }
{
    let mut counted = from;
    while let Some(next) = stretch_after_piece(text, unit, counted, units) {
        counted = Stretch {
            end: next.end,
            units: counted.units + next.units,
        };
    }
    counted
}

/// Returns the stretch that begins at the end of `piece`. Returns None if both together might have
/// more than `units` units, or if `next_stretch` returns None.
fn stretch_after_piece(text: &str, unit: Unit, piece: Stretch, units: u64) -> Option<Stretch>
    ensures is { IfSome result (IsStretch (width_of unit) text.now piece.end) }
    ensures fits { IfSome result (λ s. piece.units + (s.end - piece.end) ≤ units) }
{
    if units < piece.units || !text.is_char_boundary(piece.end) {
        return None;
    }
    next_stretch(text, unit, piece.end, units - piece.units)
}

//! Defines the store `Lines`: a text as one `String`, with a table of the offsets at which its
//! lines start.
//!
//! The model is the text and the unit. The invariant says that the table and the counted piece
//! match the text (`TableAndPieceMatchText`). Functions over a text and its table implement all of
//! `TextStore` (`line_lookups.rt`, `line_table.rt`). The session, `serve` and the commands use this
//! store. Tests compare it with the plain store `Whole`.

ghost use Rattle.std.specs.Prelude.{◌≡◌, slice_get};
ghost use Rattle.std.specs.Option.{option_map};
ghost use Rattle.std.specs.Str.{chars};
ghost use Rattle.ob0_text.specs.Texts.{lines, offset_of};
ghost use Rattle.ob0_text.specs.Units.{width_of};
ghost use Rattle.ob0_text.specs.LineStarts.{line_with_ending};

use crate::counted_pieces::{CountedPiece, empty_counted_piece};
use crate::line_lookups::{
    line_from_line_table, offset_from_line_table, offsets_from_line_table,
    position_from_line_table, positions_from_line_table, range_offsets,
};
use crate::line_table::LineTable;
use crate::position_types::{Position, Range, Unit};
use crate::stores::TextStore;
use std::alloc::{AllocError, Global};
use std::marker::Model;

/// A text with the table of its lines. A look-up of one offset or position counts only the
/// characters of its line. If a change starts in the line of the previous change, the search for
/// its start usually visits little more than the text between the two changes.
#[derive(Drop)]
pub struct Lines {
    text: String,
    table: LineTable,
    unit: Unit,
    counted_piece: CountedPiece,
}

impl Model for Lines {
    ghost use Rattle.std.specs.Prelude.{string_bytes};
    ghost use Rattle.std.specs.Str.{chars};
    ghost use Rattle.ob0_text.specs.LinesInvariant.{TableAndPieceMatchText};
    ghost use Rattle.ob0_text.specs.LineStarts.{TextWithUnit, coded_text_with_unit};

    ghost Value = { TextWithUnit };

    ghost coded = { coded_text_with_unit };

    ghost view = { λ lines. record { text = chars (string_bytes lines.text); unit = lines.unit } };

    ghost invariant = { λ lines. TableAndPieceMatchText (string_bytes lines.text) lines.unit lines.table
        lines.counted_piece };
}

impl Lines {
    /// Returns line `k`, counted from 0, with its ending, or None if the text has no such line.
    /// Only the last line has no ending.
    pub fn line(&self, k: usize) -> Option<&str>
        ensures { option_map (λ line. chars line.now) result
            ≡ option_map line_with_ending (slice_get (lines self.now.text) k) }
    {
        line_from_line_table(self.text.as_str(), &self.table, k)
    }
}

impl TextStore for Lines {
    ghost content = { λ lines. lines.text };

    ghost unit_of = { λ lines. lines.unit };

    fn from_str_in(alloc: Global, text: &str, unit: Unit) -> Result<Lines, AllocError> {
        let table = LineTable::of_text(alloc, text)?;
        let text = String::from_str(alloc, text)?;
        Ok(Lines {
            text,
            table,
            unit,
            counted_piece: empty_counted_piece(),
        })
    }

    fn unit(&self) -> Unit {
        self.unit
    }

    fn len(&self) -> usize {
        self.text.len()
    }

    fn offset(&self, position: Position) -> usize {
        offset_from_line_table(self.text.as_str(), &self.table, self.unit, position)
    }

    fn position(&self, offset: usize) -> Position {
        position_from_line_table(self.text.as_str(), &self.table, self.unit, offset)
    }

    fn positions(&self, alloc: Global, offsets: &[usize]) -> Result<Vec<Position>, AllocError> {
        positions_from_line_table(alloc, self.text.as_str(), &self.table, self.unit, offsets)
    }

    fn offsets(&self, alloc: Global, positions: &[Position]) -> Result<Vec<usize>, AllocError> {
        offsets_from_line_table(alloc, self.text.as_str(), &self.table, self.unit, positions)
    }

    fn replace(&mut self, range: Range, text: &str) -> Result<(), AllocError> {
        let found = range_offsets(
            self.text.as_str(),
            &self.table,
            self.unit,
            self.counted_piece,
            range,
        );
        let (from, to) = (found.start.min(found.end), found.start.max(found.end));
        self.table.replace(&mut self.text, from, to, text)?;
        self.counted_piece = found.counted_piece.piece_or_empty_if_beyond(from);
        Ok(())
    }

    fn as_str(&self) -> &str {
        self.text.as_str()
    }

    fn to_string(&self, alloc: Global) -> Result<String, AllocError> {
        String::from_str(alloc, self.text.as_str())
    }
}

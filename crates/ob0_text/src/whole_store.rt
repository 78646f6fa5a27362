//! Defines the plain store `Whole`: a text as one `String`, without a table of its lines.

ghost use Rattle.std.specs.Prelude.{string_bytes};
ghost use Rattle.std.specs.Str.{chars};

use crate::passes::{offset_of, offsets_of, position_of, positions_of};
use crate::position_types::{Position, Range, Unit};
use crate::stores::TextStore;
use std::alloc::{AllocError, Global};

/// A text without a table of its lines. Each look-up passes over the text from its start.
#[derive(Drop)]
pub struct Whole {
    text: String,
    unit: Unit,
}

impl TextStore for Whole {
    ghost content = { λ whole. chars (string_bytes whole.text) };

    ghost unit_of = { λ whole. whole.unit };

    fn from_str_in(alloc: Global, text: &str, unit: Unit) -> Result<Whole, AllocError> {
        let text = String::from_str(alloc, text)?;
        Ok(Whole { text, unit })
    }

    fn unit(&self) -> Unit {
        self.unit
    }

    fn len(&self) -> usize {
        self.text.len()
    }

    fn offset(&self, position: Position) -> usize {
        offset_of(self.text.as_str(), self.unit, position)
    }

    fn position(&self, offset: usize) -> Position {
        position_of(self.text.as_str(), self.unit, offset)
    }

    fn positions(&self, alloc: Global, offsets: &[usize]) -> Result<Vec<Position>, AllocError> {
        positions_of(alloc, self.text.as_str(), self.unit, offsets)
    }

    fn offsets(&self, alloc: Global, positions: &[Position]) -> Result<Vec<usize>, AllocError> {
        offsets_of(alloc, self.text.as_str(), self.unit, positions)
    }

    fn replace(&mut self, range: Range, text: &str) -> Result<(), AllocError> {
        let start = self.offset(range.start);
        let end = self.offset(range.end);
        let (from, to) = (start.min(end), start.max(end));
        self.text.replace_range(from..to, text)?;
        Ok(())
    }

    fn as_str(&self) -> &str {
        self.text.as_str()
    }

    fn to_string(&self, alloc: Global) -> Result<String, AllocError> {
        String::from_str(alloc, self.text.as_str())
    }
}

//! Writes positions, ranges and edits as JSON.
//!
//! The text of a range is built backwards, from its last byte to its first, because the digits of a
//! number are computed in that order. So each digit is written directly to its final position in
//! the buffer.
//!
//! The buffer is a fixed array on the stack, which is appended to the output in one copy. If the
//! text were appended piece by piece, each piece would cost a capacity check and a copy.

ghost use Rattle.std.specs.Prelude.{◌≡◌, ◌++◌, ◌∷◌, [], ◌+◌, ◌<◌, ◌≤◌, ◌^◌, OnOk, codes, decimal, drop, length};
ghost use Rattle.serde_json.specs.Written.{compact_text};
ghost use Rattle.ob0_rpc.specs.AppendedJson.{AppendsValue, ReadsBack};
ghost use Rattle.ob0_rpc.specs.JsonShapes.{edit_value, position_value, range_value};

use crate::json_text::{WriteJson, write_escaped_text, write_verbatim};
use crate::objects::{end_object, write_first_member, write_next_member};
use itoa::write_digits;
use ob0_text::{Edit, Position, Range};
use std::alloc::AllocError;

/// The size in bytes of the buffer in which the text of a range is built. The range takes at most
/// 160 bytes. The other 16 bytes are for the parts of an edit around its range: `","range":` before
/// the range, and `}` after it.
const RANGE_BUFFER_BYTES: usize = 176;

impl WriteJson for Position {
    ghost value = { λ p. position_value p };

    fn write(&self, out: &mut Vec<u8>) -> Result<(), AllocError> {
        write_first_member(out, "character", &self.character)?;
        write_next_member(out, "line", &self.line)?;
        end_object(out)
    }
}

impl WriteJson for Range {
    ghost value = { λ r. range_value r.start r.end };

    fn write(&self, out: &mut Vec<u8>) -> Result<(), AllocError> {
        write_range(out, self.start, self.end)
    }
}

impl WriteJson for Edit {
    ghost value = { edit_value };

    fn write(&self, out: &mut Vec<u8>) -> Result<(), AllocError> {
        write_verbatim(out, b"{\"newText\":\"")?;
        write_escaped_text(out, self.text.as_str().as_bytes())?;
        write_range_and_end_of_edit(out, self.range.start, self.range.end)
    }
}

/// Writes the last part of an edit: the closing quote of the new text, the member `range`, and the
/// closing brace of the edit.
fn write_range_and_end_of_edit(
    out: &mut Vec<u8>,
    start: Position,
    end: Position,
) -> Result<(), AllocError>
    ensures text { OnOk result (out.new.items ≡ out.old.items
        ++ (codes "\",\"range\":" ++ (compact_text (range_value start end) ++ 125 ∷ []))) }
    ensures reads { ReadsBack (range_value start end) }
{
    let mut buffer = [0; RANGE_BUFFER_BYTES];
    let following = write_verbatim_ending_at(&mut buffer, RANGE_BUFFER_BYTES, b"}");
    let at_range = write_range_ending_at(&mut buffer, following, start, end);
    let at = write_verbatim_ending_at(&mut buffer, at_range, b"\",\"range\":");
    write_verbatim(out, &buffer[at..])
}

/// Writes the JSON text of a range at the end of `out`.
fn write_range(out: &mut Vec<u8>, start: Position, end: Position) -> Result<(), AllocError>
    ensures { OnOk result (AppendsValue (range_value start end) out.old.items out.new.items) }
{
    let mut buffer = [0; RANGE_BUFFER_BYTES];
    let at = write_range_ending_at(&mut buffer, RANGE_BUFFER_BYTES, start, end);
    write_verbatim(out, &buffer[at..])
}

/// Writes the JSON text of the range from `start` to `end` into the buffer. The text takes at most
/// 160 bytes, and ends right before the index `at`. Returns the index of the first byte written.
pub fn write_range_ending_at(buffer: &mut [u8], at: usize, start: Position, end: Position) -> usize
    requires { (160 ≤ at) × (at ≤ length buffer.old) }
    ensures within { (at ≤ result + 160) × (result ≤ at) }
    ensures text { drop result buffer.new
        ≡ compact_text (range_value start end) ++ drop at buffer.old }
    ensures reads { ReadsBack (range_value start end) }
{
    let index_after_start = write_verbatim_ending_at(buffer, at, b"}");
    let at_start = write_position_ending_at(buffer, index_after_start, start);
    let index_after_end = write_verbatim_ending_at(buffer, at_start, b",\"start\":");
    let at_end = write_position_ending_at(buffer, index_after_end, end);
    write_verbatim_ending_at(buffer, at_end, b"{\"end\":")
}

/// Writes a position's JSON text into the buffer. The text takes at most 62 bytes, and ends right
/// before the index `at`. Returns the index of the first byte written.
fn write_position_ending_at(buffer: &mut [u8], at: usize, position: Position) -> usize
    requires { (62 ≤ at) × (at ≤ length buffer.old) }
    ensures within { (at ≤ result + 62) × (result ≤ at) }
    ensures text { drop result buffer.new
        ≡ compact_text (position_value position) ++ drop at buffer.old }
    ensures reads { ReadsBack (position_value position) }
{
    let index_after_line = write_verbatim_ending_at(buffer, at, b"}");
    let at_line = write_digits_ending_at(buffer, index_after_line, position.line);
    let index_after_character = write_verbatim_ending_at(buffer, at_line, b",\"line\":");
    let at_character = write_digits_ending_at(buffer, index_after_character, position.character);
    write_verbatim_ending_at(buffer, at_character, b"{\"character\":")
}

/// Writes the decimal digits of `count` into the buffer. They take at most 20 bytes, and end right
/// before the index `at`. Returns the index of the first digit.
#[inline(always)]
fn write_digits_ending_at(buffer: &mut [u8], at: usize, count: u64) -> usize
    requires { (20 ≤ at) × (at ≤ length buffer.old) }
    ensures within { (at ≤ result + 20) × (result ≤ at) }
    ensures text { drop result buffer.new ≡ decimal count ++ drop at buffer.old }
    ensures fits { count < 2 ^ 64 }
{
    write_digits(count, buffer, at)
}

/// Writes a piece of text into the buffer. The piece ends right before the index `at`. Returns the
/// index at which the piece begins.
#[inline(always)]
pub fn write_verbatim_ending_at(buffer: &mut [u8], at: usize, piece: &[u8]) -> usize
    requires { (length piece.now ≤ at) × (at ≤ length buffer.old) }
    ensures start { result + length piece.now ≡ at }
    ensures text { drop result buffer.new ≡ piece.now ++ drop at buffer.old }
{
    let from = at - piece.len();
    buffer[from..at].copy_from_slice(piece);
    from
}

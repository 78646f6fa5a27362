//! Writes locations in documents, and the text that hover displays.
ghost use Rattle.std.specs.Prelude.{◌≡◌, ◌++◌, ◌<◌, ◌≤◌, false, IfOk, OnOk, codes, drop, length, map};
ghost use Rattle.serde_json.specs.Data.{array};
ghost use Rattle.serde_json.specs.View.{items_of};
ghost use Rattle.serde_json.specs.Written.{compact_text};
ghost use Rattle.ob0_rpc.specs.AppendedJson.{AppendsEachValue, ReadsBack};
ghost use Rattle.ob0_rpc.specs.JsonShapes.{range_value};
ghost use Rattle.ob0_session_json.specs.LocationBuffer.{EndsWithUriMember};
ghost use Rattle.ob0_session_json.specs.JsonShapes.{hover_value, location_value_of_range, plain_text_value};

use ob0_rpc::{
    WriteJson, begin_list, end_list, end_object, write_first_member, write_next_member,
    write_range_ending_at, write_verbatim_ending_at,
};
use ob0_text::Range;
use std::alloc::{AllocError, Global};

/// The size in bytes of the free space at the start of the buffer in which a location is built. A
/// comma and the location's text up to and including its member `range` fit into this space.
const MAX_LOCATION_START_BYTES: usize = 192;

/// An estimate of the length in bytes of a location's text before its member `uri`. The estimate is
/// used to reserve capacity for a list of locations.
const TYPICAL_LOCATION_START_BYTES: usize = 96;

/// A location: a range in the document with this uri.
#[derive(Drop)]
pub struct Location<'a> {
    pub range: Range,
    pub uri: &'a str,
}

impl<'a> WriteJson for Location<'a> {
    ghost value = { λ l. location_value_of_range l.uri.now l.range };

    fn write(&self, out: &mut Vec<u8>) -> Result<(), AllocError> {
        write_first_member(out, "range", &self.range)?;
        write_next_member(out, "uri", &self.uri)?;
        end_object(out)
    }
}

/// Ranges in one document, which are written as a list of locations.
#[derive(Drop)]
pub struct LocationList<'a> {
    pub ranges: &'a [Range],
    pub uri: &'a str,
}

impl<'a> WriteJson for LocationList<'a> {
    ghost value = { λ l. array (items_of (map (location_value_of_range l.uri.now) l.ranges.now)) };

    fn write(&self, out: &mut Vec<u8>) -> Result<(), AllocError> {
        begin_list(out)?;
        write_locations(out, self.uri, self.ranges)?;
        end_list(out)
    }
}

/// Writes the locations of these ranges, with commas between them, but without the brackets of the
/// list.
fn write_locations(out: &mut Vec<u8>, uri: &str, ranges: &[Range]) -> Result<(), AllocError>
    ensures { OnOk result
        (AppendsEachValue false (map (location_value_of_range uri.now) ranges.now) out.old.items out.new.items) }
{
    let alloc = *out.allocator();
    let mut text = location_buffer_with_uri(alloc, uri)?;
    let each = text.len() - MAX_LOCATION_START_BYTES + TYPICAL_LOCATION_START_BYTES;
    out.reserve(ranges.len().saturating_mul(each))?;
    let buffer = text.as_mut_slice();
    let mut needs_comma = false;
    for range in ranges {
        let at = write_location_start(buffer, *range);
        let from = if needs_comma { at } else { at + 1 };
        out.extend_from_slice(&buffer[from..])?;
        needs_comma = true;
    }
    Ok(())
}

/// Returns a buffer in which the texts of locations are built, one after another. The first 192
/// bytes of the buffer are free space. The other bytes are the last part of each location's text: a
/// comma, the member `uri` and the closing brace.
fn location_buffer_with_uri(alloc: Global, uri: &str) -> Result<Vec<u8>, AllocError>
    ensures { IfOk result (λ buffer. EndsWithUriMember uri.now buffer.items) }
{
    let mut buffer = vec![in alloc; 0u8; MAX_LOCATION_START_BYTES]?;
    write_next_member(&mut buffer, "uri", &uri)?;
    end_object(&mut buffer)?;
    Ok(buffer)
}

/// Writes a comma and the first part of a location's text, up to and including the member `range`,
/// into the free space of the buffer. The written bytes end right before the index 192, at which
/// the last part of the location's text begins. Returns the index of the comma.
fn write_location_start(buffer: &mut [u8], range: Range) -> usize
    requires { 192 ≤ length buffer.old }
    ensures within { result < 192 }
    ensures text { drop result buffer.new ≡ codes ",{\"range\":"
        ++ (compact_text (range_value range.start range.end) ++ drop 192 buffer.old) }
    ensures kept { drop 192 buffer.new ≡ drop 192 buffer.old }
    ensures reads { ReadsBack (range_value range.start range.end) }
{
    let at = write_range_ending_at(buffer, MAX_LOCATION_START_BYTES, range.start, range.end);
    write_verbatim_ending_at(buffer, at, b",{\"range\":")
}

/// The result of a hover request: plain text, and the range of the name or field that the text
/// describes.
#[derive(Drop)]
pub struct HoverResult<'a> {
    pub contents: MarkupContent<'a>,
    pub range: Range,
}

impl<'a> WriteJson for HoverResult<'a> {
    ghost value = { λ h. hover_value h.contents.value.now (range_value h.range.start h.range.end) };

    fn write(&self, out: &mut Vec<u8>) -> Result<(), AllocError> {
        write_first_member(out, "contents", &self.contents)?;
        write_next_member(out, "range", &self.range)?;
        end_object(out)
    }
}

/// The contents of a hover: a text that the editor displays unchanged, as plain text.
#[derive(Drop)]
pub struct MarkupContent<'a> {
    pub value: &'a str,
}

impl<'a> WriteJson for MarkupContent<'a> {
    ghost value = { λ m. plain_text_value m.value.now };

    fn write(&self, out: &mut Vec<u8>) -> Result<(), AllocError> {
        write_first_member(out, "kind", &"plaintext")?;
        write_next_member(out, "value", &self.value)?;
        end_object(out)
    }
}

//! Counts the units of stretches. A stretch is a short run of characters of one line. Its units are
//! counted without decoding the characters.
//!
//! A stretch has at most 64 bytes of whole characters, and no character in it is LF or CR. One loop
//! counts the bytes that are LF or CR. If the unit is UTF-16, another loop counts the first byte of
//! each character, and counts this byte twice if the character has four bytes
//! (`utf16_units_at_byte`). `StretchBytes` proves that this sum is the width of the characters.
//! Both loops add to an 8-bit number and have no early exit, so the compiler vectorizes them. It
//! doesn't vectorize a loop that sets a flag.

ghost use Rattle.std.specs.Prelude.{◌≡◌, ◌==◌, ◌||◌, ◌+◌, ◌<◌, ◌≤◌, false, IfSome, length, sum_by};
ghost use Rattle.std.specs.List.{All};
ghost use Rattle.std.specs.Str.{IsCharBoundary, chars};
ghost use Rattle.ob0_text.specs.Texts.{LF, CR};
ghost use Rattle.ob0_text.specs.Units.{width_of};
ghost use Rattle.ob0_text.specs.Stretches.{IsNotLineBreak, utf16_units_at_byte, AreInOneLineWithUnits, IsStretch};

use crate::position_types::Unit;

/// A stretch: the byte offset at which it ends, and the number of units of its characters.
#[derive(Clone, Copy)]
pub struct Stretch {
    pub end: usize,
    pub units: u64,
}

/// The greatest number of bytes in a stretch.
pub(crate) const MAX_STRETCH_BYTES: usize = 64;

/// Returns the stretch that begins at the byte offset `from`: as many whole characters as 64 bytes
/// can hold. `room` is the greatest number of bytes that the stretch may have. Returns None if
/// fewer than 64 bytes follow `from`, if `room` is less than 64, or if the stretch would contain LF
/// or CR.
pub fn next_stretch(text: &str, unit: Unit, from: usize, room: u64) -> Option<Stretch>
    requires { IsCharBoundary text.now from }
    ensures is { IfSome result (λ s. IsStretch (width_of unit) text.now from s) }
    ensures fits { IfSome result (λ s. s.end ≤ from + room) }
{
    if room < MAX_STRETCH_BYTES as u64 || text.len().saturating_sub(from) < MAX_STRETCH_BYTES {
        return None;
    }
    let end = text.floor_char_boundary(from + MAX_STRETCH_BYTES);
    if end <= from {
        return None;
    }
    let units = units_if_in_one_line(&text[from..end], unit)?;
    Some(Stretch { end, units })
}

/// Returns the number of units of the characters in `piece`, or None if one of them is LF or CR.
pub(crate) fn units_if_in_one_line(piece: &str, unit: Unit) -> Option<u64>
    requires { length piece.now ≤ 64 }
    ensures { IfSome result (λ units. AreInOneLineWithUnits (width_of unit) (chars piece.now)
        units) }
{
    if has_line_break(piece.as_bytes()) {
        return None;
    }
    match unit {
        Unit::Utf16 => Some(utf16_units(piece.as_bytes())),
        Unit::Utf8 => Some(piece.len() as u64),
    }
}

/// Returns whether one of these bytes is LF or CR. The loop counts all such bytes instead of
/// stopping at the first, because the compiler vectorizes a loop without an early exit.
fn has_line_break(bytes: &[u8]) -> bool
    requires { length bytes.now ≤ 64 }
    ensures no { result ≡ false → All IsNotLineBreak bytes.now }
{
    let mut breaks: u8 = 0;
    for byte in bytes {
        if is_line_break(*byte) {
            breaks += 1;
        }
    }
    0 < breaks
}

/// Returns whether the byte is LF or CR.
fn is_line_break(byte: u8) -> bool
    ensures { result ≡ (byte == LF || byte == CR) }
{
    byte == b'\n' || byte == b'\r'
}

/// Returns the number of UTF-16 units of a piece of text, whose UTF-8 bytes are `bytes`.
fn utf16_units(bytes: &[u8]) -> u64
    requires { length bytes.now ≤ 64 }
    ensures { result ≡ sum_by utf16_units_at_byte bytes.now }
{
    let mut units: u8 = 0;
    for byte in bytes {
        units += utf16_units_at_byte(*byte);
    }
    units as u64
}

/// Returns the number of UTF-16 units that one byte of UTF-8 counts for. The first byte of a
/// four-byte character counts for 2, and the first byte of any other character for 1. Every other
/// byte counts for 0.
fn utf16_units_at_byte(byte: u8) -> u8
    ensures { result ≡ utf16_units_at_byte byte }
{
    (byte < 0x80 || 0xC0 <= byte) as u8 + (0xF0 <= byte) as u8
}

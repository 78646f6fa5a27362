//! Writes JSON values directly into the text of a message.
//!
//! The types of the server's messages, and of the parts of these messages, implement `WriteJson`.
//! The trait defines the JSON value of a message or part, and writes its text without making a
//! `serde_json::Value` first. The contract of a function that writes a JSON value is
//! `AppendsValue`. It states that the function appends the value's compact text (without added
//! white space), and that reading this text gives the value. A text in which no byte needs an
//! escape is written in one piece.
ghost use Rattle.std.specs.Prelude.{◌≡◌, ◌<◌, ◌≤◌, ◌^◌, ◌++◌, [], ◌∷◌, true, false, OnOk, map};
ghost use Rattle.std.specs.Char.{digit_char};
ghost use Rattle.json.specs.Print.{escape, escape_byte, escape_letter};
ghost use Rattle.serde_json.specs.Data.{Data, array, boolean, null, number, string, unsigned};
ghost use Rattle.serde_json.specs.Find.{of_integer};
ghost use Rattle.serde_json.specs.View.{items_of};
ghost use Rattle.ob0_rpc.specs.AppendedJson.{AppendsValue, AppendsEachValue, AppendsListItem, json_or_null};

use std::alloc::AllocError;

/// The greatest number of bytes that are reserved in advance for the items of a list.
const MAX_RESERVED_BYTES: usize = 1 << 26;

/// A type whose values can be written as JSON. After a failed write, `out` may contain any bytes.
pub trait WriteJson {
    /// Returns the JSON value that is written for a value of this type.
    ghost value: { Self → Data };

    /// Writes the text of the JSON value at the end of `out`. Fails only if an allocation fails.
    fn write(&self, out: &mut Vec<u8>) -> Result<(), AllocError>
        ensures { OnOk result (AppendsValue (value self.now) out.old.items out.new.items) };
}

impl WriteJson for () {
    ghost value = { λ _. null };

    fn write(&self, out: &mut Vec<u8>) -> Result<(), AllocError> {
        write_verbatim(out, b"null")
    }
}

impl WriteJson for bool {
    ghost value = { λ b. boolean b };

    fn write(&self, out: &mut Vec<u8>) -> Result<(), AllocError> {
        if *self {
            write_verbatim(out, b"true")
        } else {
            write_verbatim(out, b"false")
        }
    }
}

impl WriteJson for u64 {
    ghost value = { λ n. number (unsigned n) };

    fn write(&self, out: &mut Vec<u8>) -> Result<(), AllocError> {
        write_unsigned_integer(out, *self)
    }
}

impl WriteJson for i32 {
    ghost value = { λ z. number (of_integer z) };

    fn write(&self, out: &mut Vec<u8>) -> Result<(), AllocError> {
        write_integer(out, i64::from(*self))
    }
}

impl WriteJson for i64 {
    ghost value = { λ z. number (of_integer z) };

    fn write(&self, out: &mut Vec<u8>) -> Result<(), AllocError> {
        write_integer(out, *self)
    }
}

impl<'a> WriteJson for &'a str {
    ghost value = { λ t. string t.now };

    fn write(&self, out: &mut Vec<u8>) -> Result<(), AllocError> {
        write_json_string(out, *self)
    }
}

impl<W: WriteJson> WriteJson for Option<W> {
    ghost value = { λ o. json_or_null W.value o };

    fn write(&self, out: &mut Vec<u8>) -> Result<(), AllocError> {
        match self {
            Some(value) => value.write(out),
            None => ().write(out),
        }
    }
}

impl<'a, W: WriteJson> WriteJson for &'a [W] {
    ghost value = { λ l. array (items_of (map W.value l.now)) };

    fn write(&self, out: &mut Vec<u8>) -> Result<(), AllocError> {
        begin_list(out)?;
        write_all_list_items(out, *self)?;
        end_list(out)
    }
}

/// Writes the items of a list with commas between them, without brackets.
fn write_all_list_items<W: WriteJson>(out: &mut Vec<u8>, values: &[W]) -> Result<(), AllocError>
    ensures { OnOk result
        (AppendsEachValue false (map W.value values.now) out.old.items out.new.items) }
{
    let mut needs_comma = false;
    for value in values {
        write_list_item_and_reserve(out, values.len(), needs_comma, value)?;
        needs_comma = true;
    }
    Ok(())
}

/// Writes one item of a list of `count` items, after a comma if `needs_comma` is true. If it is
/// false, the item is the first of the list. Capacity is then reserved for the other items, as if
/// each were about as long as the first.
fn write_list_item_and_reserve<W: WriteJson>(
    out: &mut Vec<u8>,
    count: usize,
    needs_comma: bool,
    value: &W,
) -> Result<(), AllocError>
    ensures { OnOk result (AppendsListItem needs_comma (W.value value.now) out.old.items
        out.new.items) }
{
    let before = out.len();
    write_list_item(out, needs_comma, value)?;
    if !needs_comma {
        out.reserve(capacity_for_other_items(count, out.len().saturating_sub(before)))?;
    }
    Ok(())
}

/// Returns the number of bytes to reserve for the items of a list after its first item, which is
/// already written. The list has `count` items, each about `len` bytes long. The result is at most
/// 2^26.
fn capacity_for_other_items(count: usize, len: usize) -> usize
    ensures { result ≤ 2 ^ 26 }
{
    let others = count.saturating_sub(1);
    others
        .saturating_mul(len.saturating_add(16))
        .min(MAX_RESERVED_BYTES)
}

/// Writes the bracket that opens a list.
pub fn begin_list(out: &mut Vec<u8>) -> Result<(), AllocError>
    ensures { OnOk result (out.new.items ≡ out.old.items ++ 91 ∷ []) }
{
    write_verbatim(out, b"[")
}

/// Writes one item of a list. If `needs_comma` is true, a comma is written before the item. The
/// caller passes false for the first item and true for each other item.
#[inline(always)]
pub fn write_list_item<W: WriteJson>(
    out: &mut Vec<u8>,
    needs_comma: bool,
    value: &W,
) -> Result<(), AllocError>
    ensures { OnOk result (AppendsListItem needs_comma (W.value value.now) out.old.items
        out.new.items) }
{
    if needs_comma {
        write_verbatim(out, b",")?;
    }
    value.write(out)
}

/// Writes the bracket that closes a list.
pub fn end_list(out: &mut Vec<u8>) -> Result<(), AllocError>
    ensures { OnOk result (out.new.items ≡ out.old.items ++ 93 ∷ []) }
{
    write_verbatim(out, b"]")
}

/// Writes a piece of text unchanged, without escapes: for example a bracket, a brace, a comma,
/// digits or the name of a member.
pub(crate) fn write_verbatim(out: &mut Vec<u8>, piece: &[u8]) -> Result<(), AllocError>
    ensures { OnOk result (out.new.items ≡ out.old.items ++ piece.now) }
{
    out.extend_from_slice(piece)
}

/// Writes a text as a JSON string, in quotes. Characters that need an escape are escaped.
fn write_json_string(out: &mut Vec<u8>, text: &str) -> Result<(), AllocError>
    ensures { OnOk result (AppendsValue (string text.now) out.old.items out.new.items) }
{
    write_verbatim(out, b"\"")?;
    write_escaped_text(out, text.as_bytes())?;
    write_verbatim(out, b"\"")
}

/// Writes the text of a JSON string without the quotes around it. Characters that need an escape
/// are escaped.
pub(crate) fn write_escaped_text(out: &mut Vec<u8>, text: &[u8]) -> Result<(), AllocError>
    ensures { OnOk result (out.new.items ≡ out.old.items ++ escape text.now) }
{
    if needs_no_escape(text) {
        return write_verbatim(out, text);
    }
    write_each_byte_escaped(out, text)
}

/// Returns true if the text can be written unchanged, because no byte needs an escape.
fn needs_no_escape(text: &[u8]) -> bool
    ensures plain { result ≡ true → escape text.now ≡ text.now }
{
    for byte in text {
        if *byte < 32 || *byte == b'"' || *byte == b'\\' {
            return false;
        }
    }
    true
}

/// Writes the bytes of a text one by one, each as an escape if it needs one.
fn write_each_byte_escaped(out: &mut Vec<u8>, text: &[u8]) -> Result<(), AllocError>
    ensures { OnOk result (out.new.items ≡ out.old.items ++ escape text.now) }
{
    for byte in text {
        write_escaped_byte(out, *byte)?;
    }
    Ok(())
}

/// Writes one byte of a text. A quote, a backslash or a control character is written as an escape.
fn write_escaped_byte(out: &mut Vec<u8>, byte: u8) -> Result<(), AllocError>
    ensures { OnOk result (out.new.items ≡ out.old.items ++ escape_byte byte) }
{
    let short = short_escape_letter(byte);
    if short != 0 {
        return write_verbatim(out, &[b'\\', short]);
    }
    if byte < 32 {
        return write_verbatim(
            out,
            &[
                b'\\',
                b'u',
                b'0',
                b'0',
                hexadecimal_digit(byte / 16),
                hexadecimal_digit(byte % 16),
            ],
        );
    }
    out.push(byte)?;
    Ok(())
}

/// Returns the character after the backslash in the short escape of a byte, for example `n` for a
/// line feed. Returns 0 if the byte has no short escape.
fn short_escape_letter(byte: u8) -> u8
    ensures { result ≡ escape_letter byte }
{
    match byte {
        b'"' | b'\\' => byte,
        8 => b'b',
        9 => b't',
        10 => b'n',
        12 => b'f',
        13 => b'r',
        _ => 0,
    }
}

/// Returns the hexadecimal digit of a value below 16, as an ASCII character.
fn hexadecimal_digit(value: u8) -> u8
    requires { value < 16 }
    ensures { result ≡ digit_char value }
{
    if value < 10 {
        b'0' + value
    } else {
        b'a' - 10 + value
    }
}

/// Writes an unsigned whole number as decimal digits.
fn write_unsigned_integer(out: &mut Vec<u8>, count: u64) -> Result<(), AllocError>
    ensures { OnOk result (AppendsValue (number (unsigned count)) out.old.items out.new.items) }
{
    let mut digits = itoa::Buffer::new();
    write_verbatim(out, digits.format(count).as_bytes())
}

/// Writes a signed whole number as decimal digits, after a minus sign if it is negative.
fn write_integer(out: &mut Vec<u8>, whole: i64) -> Result<(), AllocError>
    ensures { OnOk result (AppendsValue (number (of_integer whole)) out.old.items out.new.items) }
{
    let mut digits = itoa::Buffer::new();
    write_verbatim(out, digits.format(whole).as_bytes())
}

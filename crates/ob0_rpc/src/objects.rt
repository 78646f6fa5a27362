//! Writes JSON objects member by member. `write_first_member` and `write_next_member` write a
//! member's name unchanged. So a name mustn't contain a character that needs an escape.
ghost use Rattle.std.specs.Prelude.{◌≡◌, ◌++◌, [], ◌∷◌, OnOk};
ghost use Rattle.serde_json.specs.Data.{member, no_members, object};
ghost use Rattle.ob0_rpc.specs.AppendedJson.{AppendsMember};

use crate::json_text::{WriteJson, write_verbatim};
use std::alloc::AllocError;

/// Writes an object's opening brace and its first member. `name` is written unchanged, so it
/// mustn't contain a character that needs an escape.
#[inline(always)]
pub fn write_first_member<W: WriteJson>(
    out: &mut Vec<u8>,
    name: &str,
    value: &W,
) -> Result<(), AllocError>
    ensures { OnOk result
        (AppendsMember 123 name.now (W.value value.now) out.old.items out.new.items) }
{
    write_verbatim(out, b"{\"")?;
    write_verbatim(out, name.as_bytes())?;
    write_verbatim(out, b"\":")?;
    value.write(out)
}

/// Writes a comma and another member of an object. `name` is written unchanged, so it mustn't
/// contain a character that needs an escape.
#[inline(always)]
pub fn write_next_member<W: WriteJson>(
    out: &mut Vec<u8>,
    name: &str,
    value: &W,
) -> Result<(), AllocError>
    ensures { OnOk result
        (AppendsMember 44 name.now (W.value value.now) out.old.items out.new.items) }
{
    write_verbatim(out, b",\"")?;
    write_verbatim(out, name.as_bytes())?;
    write_verbatim(out, b"\":")?;
    value.write(out)
}

/// Writes the brace that closes an object.
#[inline(always)]
pub fn end_object(out: &mut Vec<u8>) -> Result<(), AllocError>
    ensures { OnOk result (out.new.items ≡ out.old.items ++ 125 ∷ []) }
{
    write_verbatim(out, b"}")
}

/// A JSON object with exactly one member. The member's name (`key`) can be any text, such as a uri.
/// Characters of the name that need an escape are escaped.
#[derive(Drop)]
pub struct OneMemberObject<'a, W> {
    pub key: &'a str,
    pub value: W,
}

impl<'a, W: WriteJson> WriteJson for OneMemberObject<'a, W> {
    ghost value = { λ e. object (member e.key.now (W.value e.value) no_members) };

    fn write(&self, out: &mut Vec<u8>) -> Result<(), AllocError> {
        write_verbatim(out, b"{")?;
        self.key.write(out)?;
        write_verbatim(out, b":")?;
        self.value.write(out)?;
        write_verbatim(out, b"}")
    }
}

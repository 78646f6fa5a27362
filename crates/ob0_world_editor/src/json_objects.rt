//! Writes JSON objects of two and three members. The names of members are written without escapes,
//! so a name mustn't contain a character that needs an escape.
//!
//! Each JSON value in an editor's messages is a type that implements `WriteJson`. An object with
//! one member is a `OneMemberObject`. An object with two or three members is written by one call of
//! a function of this file. The proof of such a `write` applies the lemma `object_of` (ob0_rpc) to
//! the contract of that function.
//!
//! Each `?` in a `write` makes the proof much slower. So only the `write` functions for objects
//! with four members and for the list of changes use `?`.
ghost use Rattle.std.specs.Prelude.{OnOk};
ghost use Rattle.serde_json.specs.Data.{member, no_members};
ghost use Rattle.ob0_rpc.specs.AppendedJson.{AppendsMembersAndBrace};

use ob0_rpc::{WriteJson, end_object, write_first_member, write_next_member};
use std::alloc::AllocError;

/// Appends a JSON object of two members to `out`.
pub fn write_two_members<A: WriteJson, B: WriteJson>(
    out: &mut Vec<u8>,
    name: &str,
    value: &A,
    second_name: &str,
    second: &B,
) -> Result<(), AllocError>
    ensures { OnOk result (AppendsMembersAndBrace 123
        (member name.now (A.value value.now) (member second_name.now (B.value second.now)
        no_members)) out.old.items out.new.items) }
{
    write_first_member(out, name, value)?;
    write_next_member(out, second_name, second)?;
    end_object(out)
}

/// Appends a JSON object of three members to `out`.
pub fn write_three_members<A: WriteJson, B: WriteJson, C: WriteJson>(
    out: &mut Vec<u8>,
    name: &str,
    value: &A,
    second_name: &str,
    second: &B,
    third_name: &str,
    third: &C,
) -> Result<(), AllocError>
    ensures { OnOk result (AppendsMembersAndBrace 123
        (member name.now (A.value value.now) (member second_name.now (B.value second.now)
        (member third_name.now (C.value third.now) no_members))) out.old.items out.new.items) }
{
    write_first_member(out, name, value)?;
    write_next_member(out, second_name, second)?;
    write_next_member(out, third_name, third)?;
    end_object(out)
}

//! Finds the meaning of the identifier at an offset of the text: a declaration or a field.
//!
//! Requests about an identifier, such as hover and renaming, are answered according to this
//! meaning.

ghost use Rattle.std.specs.Prelude.{◌≡◌, IfSome};
ghost use Rattle.ob0_tree.specs.IdentifierIndexes.{IsIdentifierToken};
ghost use Rattle.ob0_types.specs.IdentifierMeanings.{MeansField, identifier_meaning_at_offset};

use crate::checked_modules::WellTyped;
use crate::fields::module_field_at_offset;
use ob0_scope::name_at_offset;

/// The meaning of an identifier: a declaration or a field.
#[derive(Clone, Copy, PartialEq, Eq)]
pub enum IdentifierMeaning {
    /// A name of the declaration with this ordinal, which may be predeclared.
    Name(usize),
    /// A field of the record with this ordinal.
    Field(usize),
}

/// An identifier: its token index, and the declaration or field that it means.
#[derive(Clone, Copy, PartialEq, Eq)]
pub struct IdentifierWithMeaning {
    pub token: usize,
    pub means: IdentifierMeaning,
}

/// Returns the identifier that contains the byte offset `offset` or ends there, with its meaning.
/// The closing name of a procedure means the procedure. Returns None if there is no identifier at
/// `offset`, or if the identifier is the module's name.
pub fn identifier_meaning_at_offset(
    well_typed: &WellTyped<'_>,
    offset: usize,
) -> Option<IdentifierWithMeaning>
    ensures value { result ≡ identifier_meaning_at_offset well_typed.now offset }
    ensures are_identifiers { IfSome result (λ x. MeansField x.means
        → IsIdentifierToken well_typed.now.module_read.source.tokens x.token) }
{
    match name_at_offset(well_typed.resolved(), offset) {
        Some(name) => Some(IdentifierWithMeaning {
            token: name.token,
            means: IdentifierMeaning::Name(name.ordinal),
        }),
        None => match module_field_at_offset(well_typed, offset) {
            None => None,
            Some(field) => Some(IdentifierWithMeaning {
                token: field.token,
                means: IdentifierMeaning::Field(field.owner),
            }),
        },
    }
}

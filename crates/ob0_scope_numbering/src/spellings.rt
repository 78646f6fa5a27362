//! Gives the spellings of a text's identifiers, either as written or after a renaming.
//!
//! An identifier has its spelling in the text, unless the table of ordinals binds it to the renamed
//! declaration. In that case it has the name that the renaming introduces. So one walk can number
//! a module as it is, and also as it is after a renaming.

ghost use Rattle.std.specs.Prelude.{◌≡◌};
ghost use Rattle.ob0_scope_numbering.specs.IdentifierSpellings.{original_spellings, is_bound_to_renamed_declaration};

use ob0_scan::Tokens;
use ob0_scope_table::OrdinalEntry;
use std::marker::Model;

/// The spellings of a text's identifiers after one declaration is renamed. `ordinals` is the table
/// of the text's ordinals by token index. `declaration` is the ordinal of the renamed declaration,
/// or None if nothing is renamed. `new` is the name that the renaming introduces, for all
/// identifiers with the ordinal `declaration`.
#[derive(Drop)]
pub struct Spellings<'t> {
    pub tokens: &'t Tokens,
    pub ordinals: &'t [OrdinalEntry],
    pub declaration: Option<usize>,
    pub new: &'t str,
}

impl<'t> Model for Spellings<'t> {
    ghost use Rattle.ob0_scope_numbering.specs.IdentifierSpellings as written;

    ghost Value = { written.Spellings };

    ghost view = { λ w. record {
      source = w.tokens.now;
      ordinals = w.ordinals.now;
      declaration = w.declaration;
      new = w.new.now;
    } };
}

/// Returns whether an identifier's ordinal (`ordinal`) is the ordinal of the renamed declaration
/// (`declaration`). Returns false if no declaration is renamed or the identifier has no ordinal.
pub(crate) fn is_bound_to_renamed_declaration(
    declaration: Option<usize>,
    ordinal: Option<usize>,
) -> bool
    ensures { result ≡ is_bound_to_renamed_declaration declaration ordinal }
{
    match declaration {
        Some(renamed) => match ordinal {
            Some(found) => found == renamed,
            None => false,
        },
        None => false,
    }
}

impl<'t> Spellings<'t> {
    /// Returns the spellings that the identifiers have in the text, without a renaming.
    pub fn original_spellings(tokens: &'t Tokens) -> Spellings<'t>
        ensures { result ≡ original_spellings tokens.now }
    {
        Spellings {
            tokens,
            ordinals: &[],
            declaration: None,
            new: "",
        }
    }
}

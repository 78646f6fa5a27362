//! Visits the identifiers of a module and assigns to each identifier the ordinal of its
//! declaration. The declaration is found among the names that are visible at the identifier. An
//! ordinal is a declaration's number: 0 to 6 for the predeclared names, then 7 upwards for the
//! text's declarations in text order. The identifiers can have the spellings of the text, or the
//! spellings after a renaming of one declaration.
#![tactic(auto)]

mod newest_bindings;
mod numbering;
mod scope_bindings;
mod spellings;

pub use numbering::{NumberingWalk, number_identifiers, renumber_body};
pub use spellings::Spellings;

//! Builds what `at` (the look-up at a byte offset) returns for a name: its span and its
//! declaration.

ghost use Rattle.std.specs.Prelude.{◌≡◌};
ghost use Rattle.ob0_refs.specs.NameAnswers.{answer_about_name, referent_of_ordinal};

use crate::answer_types::{At, Of};
use ob0_scope::BoundName;
use ob0_scope_table::{PREDECLARED_COUNT, Resolved, token_span};

/// Returns the span of a name, in bytes, and the declaration to which the name refers (or
/// Predeclared).
pub(crate) fn answer_about_name(names: &Resolved, name: BoundName) -> At
    ensures { result ≡ answer_about_name names.now.module_read name }
{
    At {
        span: token_span(names.tokens(), name.token),
        of: referent_of_ordinal(name.ordinal),
    }
}

/// Returns the declaration of the text that has this ordinal. The ordinals 0 to 6 are predeclared
/// names, and the result for them is Predeclared.
fn referent_of_ordinal(ordinal: usize) -> Of
    ensures { result ≡ referent_of_ordinal ordinal }
{
    if ordinal < PREDECLARED_COUNT {
        Of::Predeclared
    } else {
        Of::Declared(ordinal)
    }
}

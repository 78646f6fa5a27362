//! Proves that a request to inline a constant has an answer for each text: some list of edits is
//! right. The proof assumes that the parser accepts each well-typed text. The right list is empty
//! if the inlining is refused or the text isn't a well-typed module.

ghost use Rattle.ob0_inline_answers.specs.InlineAnswers.{InliningEverywhereAlwaysHasAnswer, InliningHereAlwaysHasAnswer};

use ob0_language_runs::laws::{
    inlining_everywhere_keeps_typing_and_runs, inlining_keeps_typing_and_runs,
};
use ob0_language_types::laws::constant_uses_are_factors;

/// Proves that each request to inline a constant at a use has an answer. The proof assumes that the
/// parser accepts each well-typed text (`WellTypedTextsCanBeParsed`).
pub fn inlining_here_always_has_answer()
    ensures { InliningHereAlwaysHasAnswer }
{
    constant_uses_are_factors();
    inlining_keeps_typing_and_runs();
}

/// Proves that each request to inline a constant everywhere has an answer. The proof assumes that
/// the parser accepts each well-typed text (`WellTypedTextsCanBeParsed`).
pub fn inlining_everywhere_always_has_answer()
    ensures { InliningEverywhereAlwaysHasAnswer }
{
    constant_uses_are_factors();
    inlining_everywhere_keeps_typing_and_runs();
}

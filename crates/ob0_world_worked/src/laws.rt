//! Proves which answers four requests about an example text (`example_text`) get, and that an
//! example exchange exists. Also proves that a request for formatting has an answer for each text.
ghost use Rattle.ob0_world_worked.specs.Formatting.{FormattingAlwaysHasAnswer};
ghost use Rattle.ob0_world_worked.specs.WorkedExchange.{ExampleExchangeExists};
ghost use Rattle.ob0_world_worked.specs.WorkedAnswers.{CapturingRenameIsRefused, RenameAnswerHasThreeEdits, InlineHereAnswerHasOneEdit, InlineAllAnswerHasTwoEdits};

use ob0_language_runs::laws::{
    inlining_everywhere_keeps_typing_and_runs, inlining_keeps_typing_and_runs,
    renaming_to_free_name_keeps_typing_and_runs,
};
use ob0_language_types::laws::constant_uses_are_factors;
use ob0_layout::laws::{
    formatting_keeps_module_tree, formatting_keeps_tokens_and_comments,
    replacing_gaps_gives_formatted_text,
};
use ob0_world_rules::laws::answers_are_unique;

/// Proves that renaming the variable `x` of `example_text` to `y` is answered by three edits, and
/// by no others.
pub fn rename_answer_has_three_edits()
    ensures { RenameAnswerHasThreeEdits }
{
    renaming_to_free_name_keeps_typing_and_runs();
    answers_are_unique();
}

/// Proves that renaming `x` to `Write` is refused, because the renamed variable would capture a
/// call of `Write`. The refusal has the range of the call, and the answer has no edits.
pub fn capturing_rename_is_refused()
    ensures { CapturingRenameIsRefused }
{
    answers_are_unique();
}

/// Proves that inlining the constant `n` of `example_text` at its use is answered by one edit, and
/// by no other.
pub fn inline_here_answer_has_one_edit()
    ensures { InlineHereAnswerHasOneEdit }
{
    constant_uses_are_factors();
    inlining_keeps_typing_and_runs();
    answers_are_unique();
}

/// Proves that inlining the constant `n` of `example_text` everywhere is answered by two edits, and
/// by no others.
pub fn inline_all_answer_has_two_edits()
    ensures { InlineAllAnswerHasTwoEdits }
{
    constant_uses_are_factors();
    inlining_everywhere_keeps_typing_and_runs();
    answers_are_unique();
}

/// Proves that a request for formatting has an answer for each text: it is impossible that there is
/// none (`AlwaysHasAnswer`).
pub fn formatting_always_has_answer()
    ensures { FormattingAlwaysHasAnswer }
{
    formatting_keeps_module_tree();
    formatting_keeps_tokens_and_comments();
    replacing_gaps_gives_formatted_text();
}

/// Proves that the example exchange exists. An editor initializes a session and opens a document
/// with version 0. The editor sends a hover request, and a request for the code actions of one kind
/// in a range. It applies the answer to the second request as two changes in one notification.
pub fn example_exchange_exists()
    ensures { ExampleExchangeExists }
{
    constant_uses_are_factors();
    inlining_keeps_typing_and_runs();
    inlining_everywhere_keeps_typing_and_runs();
}

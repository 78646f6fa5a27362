//! Proves that each request for edits has an answer, and that each list of events leads to some
//! state of the model of client and server. So a law about every list of events isn't vacuous.
ghost use Rattle.ob0_world_answers.specs.AnswersExist.{EachAskAlwaysHasAnswer, EachEventListHasACourse};

use ob0_inline_answers::laws::{
    inlining_everywhere_always_has_answer, inlining_here_always_has_answer,
};
use ob0_parse::tree_is_unique;
use ob0_rename_answers::laws::renaming_always_has_answer;
use ob0_world_rules::laws::course_exists_if_asks_have_answers;
use ob0_world_worked::laws::formatting_always_has_answer;

/// Proves that each request for edits has an answer for each text: it is impossible that there is
/// none (`AlwaysHasAnswer`).
pub fn each_ask_always_has_answer()
    ensures { EachAskAlwaysHasAnswer }
{
    tree_is_unique();
    formatting_always_has_answer();
    renaming_always_has_answer();
    inlining_here_always_has_answer();
    inlining_everywhere_always_has_answer();
}

/// Proves that each list of events has a course: it is impossible that the events lead from the
/// initial state to no state.
pub fn each_event_list_has_a_course()
    ensures { EachEventListHasACourse }
{
    each_ask_always_has_answer();
    course_exists_if_asks_have_answers();
}

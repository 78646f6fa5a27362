//! Formats a text, using its analysis.

ghost use Rattle.std.specs.Prelude.{◌≡◌, IfOk};
ghost use Rattle.std.specs.Str.{chars};
ghost use Rattle.ob0_analysis.specs.AnalysisAnswers.{IsResolvedWellTypedModule};
ghost use Rattle.ob0_analysis.specs.TextBytes.{utf8};
ghost use Rattle.ob0_edits.specs.FormattingEdits.{IsOptionalFormatResult, IsFormatResult};

use crate::memory_refusals::memory_refusal_as_error;
use ob0_analysis::{Analysis, Question, WellTyped, ask};
use ob0_layout::format;
use ob0_layout::laws::{
    formatting_keeps_module_tree, formatting_keeps_tokens_and_comments,
    replacing_gaps_gives_formatted_text,
};
use ob0_text::{Edit, EditRefusal, Indent, TextStore};
use std::alloc::{AllocError, Global};

/// A question about a well-typed text: which edits format it with the indentation `indent`.
#[derive(Drop)]
struct FormatQuestion<'a, T: TextStore> {
    store: &'a T,
    indent: Indent,
}

impl<'a, T: TextStore> Question for FormatQuestion<'a, T> {
    type Answer = Result<Vec<Edit>, EditRefusal>;

    ghost answers = { λ q names outcome. IsResolvedWellTypedModule (utf8 (T.content q.store.now)) names
        → T.content q.store.now ≡ chars names.module_read.source.text
        → IsFormatResult (T.unit_of q.store.now) q.indent (T.content q.store.now) outcome };

    fn answer(
        &self,
        alloc: Global,
        module: &WellTyped<'_>,
    ) -> Result<Result<Vec<Edit>, EditRefusal>, AllocError> {
        formatting_keeps_tokens_and_comments();
        formatting_keeps_module_tree();
        replacing_gaps_gives_formatted_text();
        let module = module.resolved().module();
        memory_refusal_as_error(format(alloc, self.store, module, self.indent))
    }
}

/// Returns the edits that format a store's text, or the refusal if the formatted text is too long.
/// Returns None if the text isn't a well-typed module. A failed allocation is an error, never a
/// refusal.
pub fn formatting_edits<T: TextStore>(
    alloc: Global,
    store: &T,
    analysis: &Analysis,
    indent: Indent,
) -> Result<Option<Result<Vec<Edit>, EditRefusal>>, AllocError>
    requires { T.content store.now ≡ chars analysis.now }
    ensures { IfOk result
        (λ found. IsOptionalFormatResult (T.unit_of store.now) indent (T.content store.now) found) }
{
    ask(alloc, analysis, &FormatQuestion { store, indent })
}

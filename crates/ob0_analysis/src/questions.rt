//! Answers questions about the module of a text, for example hover, definition and references.
//!
//! `ask` takes an analysis of the text. If the text is a well-typed module, `ask` passes the
//! question a view of this module (`WellTyped`). The view is built from the analysis's tokens,
//! tree, bindings and types. If the text isn't a well-typed module, `ask` returns None, and
//! `diagnoses` of the same analysis gives the reason.
//!
//! A question is a struct that implements `Question`: it defines the type `Answer` of the answers
//! and the function `answer`. The contract of this function is the ghost member
//! `answers = { λ question names answer. .. }`. `names` is the module, with its text as bytes.
//!
//! Some questions state something about the text's characters (`content`). In `answers`, they do
//! this under two conditions: `IsResolvedWellTypedModule (utf8 content) names` and
//! `content ≡ chars names.module_read.source.text`.
//!
//! If a question can be asked about only one text, the ghost member `is_about` states which text
//! this is. Callers of `ask` must prove that the analysed text is this text.

ghost use Rattle.std.specs.Prelude.{⊤, ℕ, List, IfOk};
ghost use Rattle.std.specs.Str.{IsUtf8};
ghost use Rattle.ob0_scope_table.specs.Resolution.{Resolution};
ghost use Rattle.ob0_analysis.specs.AnalysisAnswers.{AnswersExactlyIfWellTyped};

use crate::analysis::Analysis;
use ob0_parse::tree_is_unique;
use ob0_scan::laws::scan_is_unique;
use ob0_types::WellTyped;
use std::alloc::{AllocError, Global};

/// A question about a well-typed module, which `ask` answers.
pub trait Question {
    type Answer;

    /// The condition on the question and the text's bytes that callers of `ask` must prove. By
    /// default, there is none.
    ghost is_about: { Self → List ℕ → Type 0 } = { λ _ _. ⊤ };

    /// States that an answer (the last argument) is right for a question about a well-typed module.
    ghost answers: { Self → Resolution → Self.Answer → Type 0 };

    /// Answers the question about this module. Fails only if an allocation fails.
    fn answer(&self, alloc: Global, module: &WellTyped<'_>) -> Result<Self::Answer, AllocError>
        requires { is_about self.now module.now.module_read.source.text }
        ensures { IfOk result (λ answer. answers self.now module.now answer) };
}

/// Returns the answer to a question about the module of the analysed text. Returns None if that
/// text isn't a well-typed module. Fails only if an allocation fails.
pub fn ask<Q: Question>(
    alloc: Global,
    analysis: &Analysis,
    question: &Q,
) -> Result<Option<Q::Answer>, AllocError>
    requires { Q.is_about question.now analysis.now }
    ensures found { IfOk result (AnswersExactlyIfWellTyped analysis.now (Q.answers question.now)) }
    ensures utf8 { IsUtf8 analysis.now }
{
    scan_is_unique();
    tree_is_unique();
    // The proof needs the invariant of the analysis, which this call's contract states.
    let _text = analysis.text();
    let Some(parts) = analysis.module_parts() else {
        return Ok(None);
    };
    let module = parts.module();
    let resolved = parts.resolved_module(&module);
    let checked = parts.checked_module(alloc, &resolved)?;
    match checked.well_typed() {
        Some(module) => {
            // The proof needs the invariant of the module, which this call's contract states.
            let _names = module.resolved();
            Ok(Some(question.answer(alloc, &module)?))
        }
        None => Ok(None),
    }
}

//! Inlines a constant in a text, using the text's analysis.
//!
//! `InlineQuestion` asks for the edits of both kinds of inlining. `ask` answers it only for a
//! well-typed text. `edits_unless_refused` separates a failed allocation from the refusals. To add
//! another kind of inlining, add a variant of `InliningKind`, a line in `AnswersInlining`, a field
//! in `InliningEdits`, and a case in `inlines_in` of `proofs/Inlined`.

ghost use Rattle.std.specs.Prelude.{◌≡◌, IfOk};
ghost use Rattle.std.specs.Str.{chars};
ghost use Rattle.ob0_text.specs.Texts.{offset_of};
ghost use Rattle.ob0_text.specs.Units.{width_of};
ghost use Rattle.ob0_edits.specs.InliningEdits.{AreOptionalInlineResults, IsInlineResult, AreEditsUnlessRefused};
ghost use Rattle.ob0_edits.specs.declared.inline_question.InliningKind.TheVariants as how;

use crate::memory_refusals::memory_refusal_as_error;
use ob0_analysis::{Analysis, Question, WellTyped, ask};
use ob0_inline::{inline_all, inline_here};
use ob0_text::{Edit, EditRefusal, Position, TextStore};
use std::alloc::{AllocError, Global};

/// The kind of an inlining: of one use of a constant, or of all its uses. If all uses are inlined,
/// the constant's declaration is removed.
#[derive(Clone, Copy, Debug, Drop, PartialEq, Eq)]
pub enum InliningKind {
    OneUse,
    Everywhere,
}

/// The edits of each kind of inlining, or None for a kind that is refused.
#[derive(Drop)]
pub struct InliningEdits {
    pub here: Option<Vec<Edit>>,
    pub everywhere: Option<Vec<Edit>>,
}

/// A question about a well-typed text: which edits inline the constant at the position `place`, for
/// each kind of inlining.
#[derive(Drop)]
struct InlineQuestion<'a, T: TextStore> {
    store: &'a T,
    place: Position,
}

impl<'a, T: TextStore> Question for InlineQuestion<'a, T> {
    type Answer = InliningEdits;

    ghost is_about = { λ q text. T.content q.store.now ≡ chars text };

    ghost answers = { λ q names found.
        IsInlineResult how.OneUse (T.unit_of q.store.now) (T.content q.store.now) names.module_read
        (offset_of (width_of (T.unit_of q.store.now)) (T.content q.store.now) q.place)
        found.here
        × IsInlineResult how.Everywhere (T.unit_of q.store.now) (T.content q.store.now) names.module_read
        (offset_of (width_of (T.unit_of q.store.now)) (T.content q.store.now) q.place)
        found.everywhere };

    fn answer(&self, alloc: Global, module: &WellTyped<'_>) -> Result<InliningEdits, AllocError> {
        let here = edits_unless_refused(inline_here(alloc, self.store, module, self.place))?;
        let everywhere = edits_unless_refused(inline_all(alloc, self.store, module, self.place))?;
        Ok(InliningEdits { here, everywhere })
    }
}

/// Returns the edits in an answer, or None if the answer is a refusal. A failed allocation (the
/// refusal `Memory`) is returned as an error.
fn edits_unless_refused(
    answer: Result<Vec<Edit>, EditRefusal>,
) -> Result<Option<Vec<Edit>>, AllocError>
    ensures { IfOk result (λ edits. AreEditsUnlessRefused answer edits) }
{
    let kept = memory_refusal_as_error(answer)?;
    match kept {
        Ok(edits) => Ok(Some(edits)),
        Err(_refusal) => Ok(None),
    }
}

/// Returns the edits that inline the constant at a position, for each kind of inlining. A kind that
/// is refused has None instead of edits. If the store's text isn't a well-typed module, the whole
/// result is None. A failed allocation is an error, never a refusal.
pub fn inlining_edits<T: TextStore>(
    alloc: Global,
    store: &T,
    analysis: &Analysis,
    place: Position,
) -> Result<Option<InliningEdits>, AllocError>
    requires { T.content store.now ≡ chars analysis.now }
    ensures { IfOk result (λ found. AreOptionalInlineResults (T.unit_of store.now) (T.content store.now)
        (offset_of (width_of (T.unit_of store.now)) (T.content store.now) place) found) }
{
    ask(alloc, analysis, &InlineQuestion { store, place })
}

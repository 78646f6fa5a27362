//! Answers requests for renames in an analysed text.
//!
//! `renaming_edits` asks a `RenameQuestion`. The function `ask` answers this question only for a
//! well-typed text.
//!
//! `AreRenameEdits` and `IsRenameRefusal` of `ob0_rename` each have a case for declarations and a
//! case for fields. Both cases of `AreRenameEdits` state which tokens get the new name
//! (`WritesNewName`), so one lemma covers both: `renames_in` of `proofs/Renamings`. A second lemma,
//! `new_name_found`, derives `RenamesInText` from the contract of `ask`. `RenamesInText` is about
//! the text's characters, and that contract is about the text's bytes.
//!
//! `RenamesInText` and `IsRenameRefusedInText` are about the module with its names bound
//! (`IsResolvedWellTypedModule`), because fields are found through the bindings of names.

ghost use Rattle.std.specs.Prelude.{◌≡◌, IfOk};
ghost use Rattle.std.specs.Str.{chars};
ghost use Rattle.ob0_rename.specs.Renaming.{renaming_at_place};
ghost use Rattle.ob0_edits.specs.Renamings.{IsOptionalRenameResult, IsRenameResult};

use crate::memory_refusals::memory_refusal_as_error;
use ob0_analysis::{Analysis, Question, WellTyped, ask};
use ob0_rename::rename;
use ob0_text::{Edit, EditRefusal, Position, TextStore};
use std::alloc::{AllocError, Global};

/// A question about a well-typed text: which edits rename the declaration or field at the position
/// `place` to `new`.
#[derive(Drop)]
struct RenameQuestion<'a, T: TextStore> {
    store: &'a T,
    place: Position,
    new: &'a str,
}

impl<'a, T: TextStore> Question for RenameQuestion<'a, T> {
    type Answer = Result<Vec<Edit>, EditRefusal>;

    ghost is_about = { λ q text. T.content q.store.now ≡ chars text };

    ghost answers = { λ q names outcome. IsRenameResult (renaming_at_place (T.unit_of q.store.now)
        (T.content q.store.now) names q.place q.new.now) outcome };

    fn answer(
        &self,
        alloc: Global,
        module: &WellTyped<'_>,
    ) -> Result<Result<Vec<Edit>, EditRefusal>, AllocError> {
        memory_refusal_as_error(rename(alloc, self.store, module, self.place, self.new))
    }
}

/// Returns the edits that rename the declaration or field at a position in a store's text to `new`,
/// or the refusal. Returns None if the text isn't a well-typed module. A failed allocation is an
/// error, never a refusal.
pub fn renaming_edits<T: TextStore>(
    alloc: Global,
    store: &T,
    analysis: &Analysis,
    place: Position,
    new: &str,
) -> Result<Option<Result<Vec<Edit>, EditRefusal>>, AllocError>
    requires { T.content store.now ≡ chars analysis.now }
    ensures { IfOk result
        (λ found. IsOptionalRenameResult (T.unit_of store.now) (T.content store.now) place new.now found) }
{
    let question = RenameQuestion { store, place, new };
    ask(alloc, analysis, &question)
}

//! Makes the edit that inlines a constant at one use, or returns a refusal.

ghost use Rattle.std.specs.Prelude.{◌≡◌};
ghost use Rattle.std.specs.Str.{chars};
ghost use Rattle.ob0_text.specs.Texts.{offset_of};
ghost use Rattle.ob0_text.specs.Units.{width_of};
ghost use Rattle.ob0_inline.specs.Uses.{AnswersInliningHere, AnswersInliningOfUse, IsConstantUse};

use crate::constant_uses::{ConstantUse, constant_use_at};
use crate::edit_at_use::edits_to_inline_use;
use crate::shadowed_truth_names::value_text_keeps_meaning;
use crate::value_texts::scalar_fits_in_32_bits;
use ob0_language_runs::laws::inlining_keeps_typing_and_runs;
use ob0_language_types::laws::constant_uses_are_factors;
use ob0_text::{Edit, EditRefusal, Position, TextStore};
use ob0_types::WellTyped;
use std::alloc::Global;

/// Returns the edit that writes a constant's value in place of the use at `place`. If `place` isn't
/// on a use of a constant, the refusal is `NoName`. Otherwise the first refusal that applies is
/// returned (`refusal_of_inlining_use`), or `Memory` if an allocation fails.
pub fn inline_here<T: TextStore>(
    alloc: Global,
    store: &T,
    module: &WellTyped,
    place: Position,
) -> Result<Vec<Edit>, EditRefusal>
    requires content { T.content store.now ≡ chars «module».now.module_read.source.text }
    ensures { AnswersInliningHere (T.unit_of store.now) (T.content store.now) «module».now.module_read
        (offset_of (width_of (T.unit_of store.now)) (T.content store.now) place) result }
{
    match constant_use_at(module, store.offset(place)) {
        Some(found) => inline_use(alloc, store, module, found),
        None => Err(EditRefusal::NoName),
    }
}

/// Returns the edit that writes a constant's value in place of the use `found`, or the first
/// refusal that applies.
fn inline_use<T: TextStore>(
    alloc: Global,
    store: &T,
    module: &WellTyped,
    found: ConstantUse,
) -> Result<Vec<Edit>, EditRefusal>
    requires content { T.content store.now ≡ chars «module».now.module_read.source.text }
    requires is_use { IsConstantUse «module».now.module_read found }
    ensures { AnswersInliningOfUse (T.unit_of store.now) (T.content store.now) «module».now.module_read found
        result }
{
    constant_uses_are_factors();
    inlining_keeps_typing_and_runs();
    scalar_fits_in_32_bits(found.value);
    let names = module.resolved();
    match edits_to_inline_use(alloc, store, names, found) {
        Ok(edits) => {
            if value_text_keeps_meaning(alloc, names, found.occurrence, found.value)? {
                Ok(edits)
            } else {
                Err(EditRefusal::Shadowed)
            }
        }
        Err(refusal) => Err(refusal),
    }
}

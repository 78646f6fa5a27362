//! Separates failed allocations from the refusals of edits.
ghost use Rattle.std.specs.Prelude.{◌≡◌, ◌≢◌, IfOk, IfErr};
ghost use Rattle.ob0_text.specs.declared.refusals.EditRefusal.TheVariants.{Memory};

use ob0_text::{Edit, EditRefusal};
use std::alloc::AllocError;

/// Returns edits or a refusal unchanged, except that the refusal `Memory` is returned as an error.
pub(crate) fn memory_refusal_as_error(
    outcome: Result<Vec<Edit>, EditRefusal>,
) -> Result<Result<Vec<Edit>, EditRefusal>, AllocError>
    ensures { IfOk result
        (λ kept. (kept ≡ outcome) × IfErr kept (λ refusal. refusal ≢ Memory)) }
{
    match outcome {
        Ok(edits) => Ok(Ok(edits)),
        Err(refusal) => {
            if refusal == EditRefusal::Memory {
                Err(AllocError)
            } else {
                Ok(Err(refusal))
            }
        }
    }
}

//! Finds the use of a constant at a byte offset in the text.

ghost use Rattle.std.specs.Prelude.{◌≡◌, ◌==◌, MatchOption, Some};
ghost use Rattle.std.specs.List.{position_from};
ghost use Rattle.ob0_inline.specs.Uses.{IsConstantUse, IsConstantUseAtOffset};

use ob0_language_values::Scalar;
use ob0_scope::name_at_offset;
use ob0_scope_table::Resolved;
use ob0_types::WellTyped;

/// A use of a constant, with the constant's value. `token` is the index of the use's token.
/// `occurrence` is the number of the use among all occurrences in the text, counted from 0. An
/// occurrence is a name that is looked up to find its declaration. `constant` is the ordinal of the
/// constant's declaration.
#[derive(Clone, Copy)]
pub struct ConstantUse {
    pub token: usize,
    pub occurrence: usize,
    pub constant: usize,
    pub value: Scalar,
}

/// Returns the use of a constant at a byte offset, or None if the offset isn't on a use of a
/// constant.
pub(crate) fn constant_use_at(module: &WellTyped, offset: usize) -> Option<ConstantUse>
    ensures at { MatchOption result ((u : ConstantUse) → IsConstantUseAtOffset «module».now.module_read offset u → ⊥)
        (λ u. IsConstantUseAtOffset «module».now.module_read offset u) }
    ensures is_use { (u : ConstantUse) → result ≡ Some u
        → IsConstantUse «module».now.module_read u }
{
    let names = module.resolved();
    match name_at_offset(names, offset) {
        Some(found) => match module.constant(found.ordinal) {
            Some(value) => match occurrence_number_of_token(names, found.token) {
                Some(occurrence) => Some(ConstantUse {
                    token: found.token,
                    occurrence,
                    constant: found.ordinal,
                    value,
                }),
                None => None,
            },
            None => None,
        },
        None => None,
    }
}

/// Returns the number of the occurrence whose token has the index `token`, counted from 0. Returns
/// None if that token isn't an occurrence. A binary search finds the number, because the token
/// indexes of occurrences ascend.
fn occurrence_number_of_token(names: &Resolved, token: usize) -> Option<usize>
    ensures { result ≡ position_from (λ other. other == token) 0 names.now.uses }
{
    // The proof needs `IsResolution` of the names, which the contract of this call states.
    let _module = names.module();
    names.occurrences().binary_search(&token).ok()
}

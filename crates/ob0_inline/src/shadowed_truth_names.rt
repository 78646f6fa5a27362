//! Tests whether TRUE or FALSE would refer to the predeclared name if it were written in place of
//! an occurrence. An occurrence is a name in the text that is looked up to find its declaration.

ghost use Rattle.std.specs.Prelude.{◌≡◌, IfOk, ◌==◌, ◌&&◌, not, length, option_and_then, slice_get};
ghost use Rattle.std.specs.List.{list_any, range_with_len};
ghost use Rattle.ob0_tree.specs.ParsedModule.{named_tree_of};
ghost use Rattle.ob0_language_names.specs.Occurrences.{labels_of_occurrences, ordinal_bound_at_occurrence};
ghost use Rattle.ob0_language_names.specs.Scopes.{same_ordinal};
ghost use Rattle.ob0_language_names.specs.OccurrenceLookup.{resolve_name_at_occurrence};
ghost use Rattle.ob0_inline.specs.Everywhere.{has_shadowed_use};
ghost use Rattle.ob0_inline.specs.Uses.{value_text_keeps_meaning};

use crate::declared_constants::DeclaredConstant;
use ob0_language_values::Scalar;
use ob0_scope::resolve_name_at_each_occurrence;
use ob0_scope_table::{FALSE_ORDINAL, Resolved, TRUE_ORDINAL, same_ordinal};
use std::alloc::{AllocError, Global};

/// Returns whether the word for the truth value `value`, TRUE or FALSE, would refer to the
/// predeclared name if it replaced an occurrence. `occurrence` is the number of this occurrence in
/// text order, counted from 0. If the value is a number, the result is true.
pub(crate) fn value_text_keeps_meaning(
    alloc: Global,
    names: &Resolved,
    occurrence: usize,
    value: Scalar,
) -> Result<bool, AllocError>
    ensures { IfOk result (λ shown. shown
        ≡ value_text_keeps_meaning (named_tree_of names.now.module_read) occurrence value) }
{
    match value {
        Scalar::Number(_) => Ok(true),
        Scalar::Truth(true) => {
            name_would_be_bound_to_ordinal(alloc, names, occurrence, "TRUE", TRUE_ORDINAL)
        }
        Scalar::Truth(false) => {
            name_would_be_bound_to_ordinal(alloc, names, occurrence, "FALSE", FALSE_ORDINAL)
        }
    }
}

/// Returns whether `name` would be bound to the declaration with the ordinal `ordinal` if it
/// replaced the occurrence with the number `occurrence`. Occurrences are numbered from 0 in text
/// order.
fn name_would_be_bound_to_ordinal(
    alloc: Global,
    names: &Resolved,
    occurrence: usize,
    name: &str,
    ordinal: usize,
) -> Result<bool, AllocError>
    ensures { IfOk result (λ is. is
        ≡ same_ordinal (resolve_name_at_occurrence (named_tree_of names.now.module_read) occurrence name.now) ordinal) }
{
    let bound = resolve_name_at_each_occurrence(alloc, names, name)?;
    Ok(is_bound_to_ordinal(&bound, occurrence, ordinal))
}

/// Returns whether the item of `bound` with the index `occurrence` is `ordinal`. `bound` has an
/// item for each occurrence in the text, in text order: the ordinal of a declaration, or None. If
/// the item is None or missing, the result is false.
fn is_bound_to_ordinal(bound: &[Option<usize>], occurrence: usize, ordinal: usize) -> bool
    ensures { result
        ≡ same_ordinal (option_and_then (λ found. found) (slice_get bound.now occurrence)) ordinal }
{
    match bound.get(occurrence) {
        Some(found) => same_ordinal(*found, ordinal),
        None => false,
    }
}

/// Returns whether the constant has a shadowed use. A use is shadowed if TRUE or FALSE, the
/// constant's value, wouldn't refer to the predeclared name there. If the value is a number, the
/// result is false.
pub(crate) fn has_shadowed_use(
    alloc: Global,
    names: &Resolved,
    constant: DeclaredConstant,
) -> Result<bool, AllocError>
    ensures { IfOk result
        (λ hidden. hidden ≡ has_shadowed_use (named_tree_of names.now.module_read) constant) }
{
    let value = constant.value;
    match value {
        Scalar::Number(_) => Ok(false),
        Scalar::Truth(true) => is_name_shadowed_at_some_use(
            alloc,
            names,
            constant.ordinal,
            "TRUE",
            TRUE_ORDINAL,
        ),
        Scalar::Truth(false) => is_name_shadowed_at_some_use(
            alloc,
            names,
            constant.ordinal,
            "FALSE",
            FALSE_ORDINAL,
        ),
    }
}

/// Returns whether `name` is shadowed at some use of the constant with the ordinal `constant`. The
/// name is shadowed at a use if, in place of that use, it wouldn't be bound to the declaration with
/// the ordinal `ordinal`.
fn is_name_shadowed_at_some_use(
    alloc: Global,
    names: &Resolved,
    constant: usize,
    name: &str,
    ordinal: usize,
) -> Result<bool, AllocError>
    ensures { IfOk result (λ hidden.
        hidden
        ≡ list_any (λ k. same_ordinal (ordinal_bound_at_occurrence (named_tree_of names.now.module_read) k) constant
        && not (same_ordinal (resolve_name_at_occurrence (named_tree_of names.now.module_read) k name.now) ordinal))
        (range_with_len 0 (length (labels_of_occurrences (named_tree_of names.now.module_read))))) }
{
    // The proof needs `IsResolution` of the names, which the contract of this call states.
    let _module = names.module();
    let bound = resolve_name_at_each_occurrence(alloc, names, name)?;
    Ok(has_use_with_shadowed_name(names, &bound, constant, ordinal))
}

/// Returns whether the constant with the ordinal `constant` has a use whose item in `bound` isn't
/// `ordinal`. `bound` has an item for each occurrence, in text order: the ordinal of a declaration,
/// or None.
fn has_use_with_shadowed_name(
    names: &Resolved,
    bound: &[Option<usize>],
    constant: usize,
    ordinal: usize,
) -> bool
    ensures { result
        ≡ list_any (λ k. same_ordinal (ordinal_bound_at_occurrence (named_tree_of names.now.module_read) k) constant
        && not (same_ordinal (option_and_then (λ found. found) (slice_get bound.now k)) ordinal))
        (range_with_len 0 (length names.now.uses)) }
{
    for occurrence in 0..names.occurrences().len() {
        if is_use_with_shadowed_name(names, bound, occurrence, constant, ordinal) {
            return true;
        }
    }
    false
}

/// Returns whether the occurrence with the number `occurrence` is a use of the constant with the
/// ordinal `constant`, and its item in `bound` isn't `ordinal`. `bound` has an item for each
/// occurrence, in text order: the ordinal of a declaration, or None.
fn is_use_with_shadowed_name(
    names: &Resolved,
    bound: &[Option<usize>],
    occurrence: usize,
    constant: usize,
    ordinal: usize,
) -> bool
    ensures { result
        ≡ (same_ordinal (ordinal_bound_at_occurrence (named_tree_of names.now.module_read) occurrence) constant
        && not (same_ordinal (option_and_then (λ found. found) (slice_get bound.now occurrence))
        ordinal)) }
{
    same_ordinal(names.declaration_of(occurrence), constant)
        && !is_bound_to_ordinal(bound, occurrence, ordinal)
}

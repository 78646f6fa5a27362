//! Tests the layers on one module, one after another: scan, parse, resolve and check. The function
//! of each layer is imported from the layer's crate.
//!
//! An ordinal is the number of a declaration. The predeclared names have the ordinals 0 to 6, and
//! the declarations of the module follow in text order.

use ob0_parse::{ParseRefusal, parse};
use ob0_run::laws::{
    numbered_tree_decides_runs, numbered_tree_decides_typing, numbering_keeps_runs,
    renaming_field_to_free_name_keeps_typing_and_runs, runs_never_get_stuck,
};
use ob0_scan::{Tokens, scan};
use ob0_scope::{Resolved, resolve};
use ob0_tree::Module;
use ob0_types::{Checked, Constant, WellTyped, check};
use std::alloc::Global;
use std::process::Abort;

const MODULE_TEXT: &str =
    "MODULE M; CONST c = 3; VAR x: INTEGER; BEGIN x := c; IF x = c THEN Write(x) END END M.";

/// The ordinals of the declarations to which the name occurrences in `MODULE_TEXT` are bound, in
/// text order: INTEGER, x, c, x, c, Write and x.
static EXPECTED_ORDINALS: &[usize] = &[0, 8, 7, 8, 7, 5, 8];

/// Returns whether the occurrences in the module are bound to `EXPECTED_ORDINALS`, there are no
/// more occurrences, and no fault is reported.
fn has_expected_bindings(names: &Resolved<'_>) -> bool {
    for occurrence in 0..EXPECTED_ORDINALS.len() {
        if names.declaration_of(occurrence) != Some(EXPECTED_ORDINALS[occurrence]) {
            return false;
        }
    }
    names.declaration_of(EXPECTED_ORDINALS.len()) == None
        && names.faults().is_empty()
        && names.tokens().text() == names.module().tokens().text()
}

/// Returns whether the constant (ordinal 7) has its value, and the variable (ordinal 8) has a type
/// but no value. There must be no type for ordinal 9, and there must be no faults.
fn has_expected_types(typed: &WellTyped<'_>) -> bool {
    typed.constant(7) == Some(Constant::Number(3))
        && typed.constant(8) == None
        && typed.shape(8).is_some()
        && typed.shape(9).is_none()
        && typed.checked().faults().is_empty()
}

/// Returns whether the module has no faults and is well-typed, with the expected types
/// (`has_expected_types`).
fn is_checked_as_expected(checked: &Checked<'_>) -> bool {
    if !checked.faults().is_empty() || !checked.resolved().faults().is_empty() {
        return false;
    }
    match &checked.well_typed() {
        Some(typed) => has_expected_types(typed),
        None => false,
    }
}

/// Checks the module's types. Returns whether the module is well-typed, with the expected types.
fn checks_as_expected(alloc: Global, names: &Resolved<'_>) -> bool {
    match check(alloc, names) {
        Ok(checked) => is_checked_as_expected(&checked),
        Err(_refused) => false,
    }
}

/// Resolves the module's names. Returns whether the names are bound as expected and the module is
/// well-typed.
fn resolves_as_expected(alloc: Global, module: &Module<'_>) -> bool {
    match resolve(alloc, module) {
        Ok(names) => has_expected_bindings(&names) && checks_as_expected(alloc, &names),
        Err(_refused) => false,
    }
}

/// Returns whether the module has this depth of nesting and this many identifiers.
fn has_nesting_and_identifiers(
    alloc: Global,
    module: &Module<'_>,
    nesting: u32,
    count: usize,
) -> bool {
    match module.identifiers(alloc) {
        Ok(identifiers) => module.nesting() == nesting && identifiers.len() == count,
        Err(_refused) => false,
    }
}

/// Parses the tokens. Returns whether they are a module with the expected nesting, identifiers,
/// bindings and types.
fn parses_as_expected(alloc: Global, tokens: &Tokens) -> bool {
    match parse(alloc, tokens) {
        Ok(module) => has_nesting_and_identifiers(alloc, &module, 1, 11)
            && resolves_as_expected(alloc, &module),
        Err(ParseRefusal::Syntax { .. } | ParseRefusal::TooDeep { .. } | ParseRefusal::Memory) =>
            false,
    }
}

/// Returns whether the text passes through all layers with the expected results.
fn passes_all_layers(alloc: Global) -> bool {
    match scan(alloc, MODULE_TEXT) {
        Ok(tokens) => parses_as_expected(alloc, &tokens),
        Err(_refusal) => false,
    }
}

#[test]
fn module_passes_all_layers(rt: HostRuntime) {
    assert!(rt; passes_all_layers(rt.alloc()));
}

#[test]
fn laws_of_runs_can_be_called(_rt: HostRuntime) {
    numbering_keeps_runs();
    numbered_tree_decides_runs();
    numbered_tree_decides_typing();
    renaming_field_to_free_name_keeps_typing_and_runs();
    runs_never_get_stuck();
}

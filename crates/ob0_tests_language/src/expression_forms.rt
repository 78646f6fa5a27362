//! Tests how the parser represents expressions. An expression that is a single factor is an
//! `Expression::Factor`, and any other expression is a `CompoundExpression`. No contract
//! distinguishes the two. Also tests the sizes of nodes, and of an entry in a table of ordinals.

use ob0_parse::parse;
use ob0_scan::{Tokens, scan};
use ob0_scope_table::OrdinalEntry;
use ob0_tree::{Expression, Module, OptionalFieldGroup, Statement};
use std::alloc::Global;
use std::mem::size_of;
use std::process::Abort;

const _: () = prove!(size_of::<Expression>() == 48);

const _: () = prove!(size_of::<Statement>() == 48);

const _: () = prove!(size_of::<OptionalFieldGroup>() == 16);

const _: () = prove!(size_of::<OrdinalEntry>() == 4);

const SINGLE_FACTOR_ASSIGNMENTS: &str =
    "MODULE M; VAR x: INTEGER; BEGIN x := x; x := 1; x := (x); x := a[i].b; x := ~b; x := (x + 1); x := f.g[1] END M.";

const OPERATION_ASSIGNMENTS: &str =
    "MODULE M; VAR x: INTEGER; BEGIN x := -x; x := +1; x := (x) * 2; x := a[i].b + 1; x := ~b & c; x := x = 1; x := (x) # y; x := a.b < 3; x := -(x) END M.";

/// Returns whether a statement assigns an `Expression::Factor`. Returns None if the statement isn't
/// an assignment.
fn assigns_factor(s: &Statement) -> Option<bool> {
    match s {
        Statement::Assign(a) => match &a.value {
            Expression::Factor(_) => Some(true),
            Expression::CompoundExpression(_) => Some(false),
        },
        _ => None,
    }
}

/// Returns whether the statements are this many assignments. If `factor` is true, each must assign
/// an `Expression::Factor`. If it is false, none may.
fn are_assignments(statements: &[Statement], count: usize, factor: bool) -> bool {
    for s in statements {
        if assigns_factor(s) != Some(factor) {
            return false;
        }
    }
    statements.len() == count
}

/// Returns whether the module's body consists of this many assignments. If `factor` is true, each
/// must assign an `Expression::Factor`. If it is false, none may.
fn has_assignments(module: &Module<'_>, count: usize, factor: bool) -> bool {
    match &module.block().body {
        Some(body) => are_assignments(body.as_slice(), count, factor),
        None => false,
    }
}

/// Returns whether the tokens are a module whose body consists of this many assignments. If
/// `factor` is true, each must assign an `Expression::Factor`. If it is false, none may.
fn tokens_parse_to_assignments(alloc: Global, tokens: &Tokens, count: usize, factor: bool) -> bool {
    match parse(alloc, tokens) {
        Ok(module) => has_assignments(&module, count, factor),
        Err(_refusal) => false,
    }
}

/// Returns whether the text is a module whose body consists of this many assignments. If `factor`
/// is true, each must assign an `Expression::Factor`. If it is false, none may.
fn text_has_assignments(alloc: Global, text: &str, count: usize, factor: bool) -> bool {
    match scan(alloc, text) {
        Ok(tokens) => tokens_parse_to_assignments(alloc, &tokens, count, factor),
        Err(_refusal) => false,
    }
}

#[test]
fn single_factors_are_not_compound(rt: HostRuntime) {
    assert!(rt; text_has_assignments(rt.alloc(), SINGLE_FACTOR_ASSIGNMENTS, 7, true));
    assert!(rt; text_has_assignments(rt.alloc(), OPERATION_ASSIGNMENTS, 9, false));
}

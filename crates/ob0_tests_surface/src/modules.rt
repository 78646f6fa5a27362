//! The names of `ob0_scope`, `ob0_types` and `ob0_run`. `shape` returns a `Shape` by value, which
//! has the module's table of types.

use crate::edits::edits_are_as_expected;
use crate::questions::answers_are_as_expected;
use ob0_parse::parse;
use ob0_run::laws::{
    numbered_tree_decides_runs, numbered_tree_decides_typing, numbering_keeps_runs,
    renaming_field_to_free_name_keeps_typing_and_runs, runs_never_get_stuck,
};
use ob0_run::{End, Item, Outcome, run};
use ob0_scan::{Fault, Tokens, scan};
use ob0_scope::{Resolved, resolve, resolve_renamed};
use ob0_tree::Module;
use ob0_types::{
    Checked, Constant, Shape, TypeWithParts, WellTyped, check, field_declaring_token,
    field_index_in_record, field_tokens_in_module,
};
use std::alloc::{AllocError, Global};
use std::process::Abort;

/// A module with a constant (the declaration with the ordinal 7), a type (8), and a variable (9).
const MODULE_TEXT: &str = "MODULE M; CONST c = 3; TYPE R = RECORD a: INTEGER END; VAR r: R; \
    BEGIN r.a := c; Write(r.a) END M.";

/// The ordinals of the declarations to which the occurrences of names are bound, in text order:
/// INTEGER, R, r, c, Write and r.
static BOUND_ORDINALS: &[usize] = &[0, 8, 9, 7, 5, 9];

/// The answers about a module that the tests compare.
#[derive(Clone, Copy)]
pub enum TestedPart {
    Types,
    Runs,
    Answers,
    Edits,
}

/// Returns whether a text is a well-typed module of which the calls of this part return what is
/// expected.
fn is_as_expected(alloc: Global, text: &str, part: TestedPart) -> bool {
    match scan(alloc, text) {
        Ok(tokens) => parses_as_expected(alloc, &tokens, part),
        Err(_refusal) => false,
    }
}

fn parses_as_expected(alloc: Global, tokens: &Tokens, part: TestedPart) -> bool {
    match parse(alloc, tokens) {
        Ok(module) => resolves_as_expected(alloc, &module, part),
        Err(_refusal) => false,
    }
}

fn resolves_as_expected(alloc: Global, module: &Module<'_>, part: TestedPart) -> bool {
    let resolved: Result<Resolved<'_>, AllocError> = resolve(alloc, module);
    match resolved {
        Ok(names) => are_bound(&names) && checks_as_expected(alloc, &names, part),
        Err(AllocError) => false,
    }
}

/// Returns whether the occurrences of names are bound as expected, and there are no others.
fn are_bound(names: &Resolved<'_>) -> bool {
    for occurrence in 0..BOUND_ORDINALS.len() {
        let ordinal: Option<usize> = Resolved::declaration_of(names, occurrence);
        if ordinal != Some(BOUND_ORDINALS[occurrence]) {
            return false;
        }
    }
    let lent: &Module<'_> = Resolved::module(names);
    let occurrences: &[usize] = Resolved::occurrences(names);
    lent.tokens().text() == Resolved::tokens(names).text()
        && Resolved::faults(names).is_empty()
        && occurrences.len() == BOUND_ORDINALS.len()
}

fn checks_as_expected(alloc: Global, names: &Resolved<'_>, part: TestedPart) -> bool {
    let checked: Result<Checked<'_>, AllocError> = check(alloc, names);
    match checked {
        Ok(checked) => has_no_fault_and_is_as_expected(alloc, &checked, part),
        Err(AllocError) => false,
    }
}

fn has_no_fault_and_is_as_expected(alloc: Global, checked: &Checked<'_>, part: TestedPart) -> bool {
    let faults: &[Fault] = Checked::faults(checked);
    let lent: &Resolved<'_> = Checked::resolved(checked);
    if !faults.is_empty() || !lent.faults().is_empty() {
        return false;
    }
    let well_typed: Option<WellTyped<'_>> = Checked::well_typed(checked);
    match well_typed {
        Some(module) => part_is_as_expected(alloc, &module, part),
        None => false,
    }
}

fn part_is_as_expected(alloc: Global, module: &WellTyped<'_>, part: TestedPart) -> bool {
    match part {
        TestedPart::Types => types_are_as_expected(module) && fields_are_found(alloc, module),
        TestedPart::Runs => runs_as_expected(alloc, module) == Ok(true),
        TestedPart::Answers => answers_are_as_expected(alloc, module),
        TestedPart::Edits => edits_are_as_expected(alloc, module),
    }
}

/// Returns whether the constant has its value and the variable its type.
fn types_are_as_expected(module: &WellTyped<'_>) -> bool {
    let lent: &Checked<'_> = WellTyped::checked(module);
    let constant: Option<Constant> = WellTyped::constant(module, 7);
    let shape: Option<Shape<'_>> = WellTyped::shape(module, 9);
    lent.faults().is_empty()
        && number_of_constant(constant) == Some(3)
        && number_of_fields(shape) == Some(1)
        && WellTyped::constant(module, 9).is_none()
        && WellTyped::shape(module, 5).is_none()
}

/// Returns the number of a constant, 1 for TRUE and 0 for FALSE.
fn number_of_constant(constant: Option<Constant>) -> Option<i32> {
    match constant {
        Some(Constant::Number(number)) => Some(number),
        Some(Constant::Truth(truth)) => Some(if truth { 1 } else { 0 }),
        None => None,
    }
}

/// Returns how many fields a type has. A type that isn't a record has none.
fn number_of_fields(shape: Option<Shape<'_>>) -> Option<usize> {
    match Shape::parts(&shape?) {
        TypeWithParts::Integer => Some(0),
        TypeWithParts::Boolean => Some(0),
        TypeWithParts::Array(_array) => Some(0),
        TypeWithParts::Record(record) => Some(record.fields.as_slice().len()),
        TypeWithParts::Faulty => None,
    }
}

/// Returns whether the field `a` of the first record is the record's first field, and is declared
/// at the first of three tokens.
fn fields_are_found(alloc: Global, module: &WellTyped<'_>) -> bool {
    let index: Option<usize> = field_index_in_record(module, 0, "a");
    let declaring: Option<usize> = field_declaring_token(module, 0, "a");
    let tokens: Result<Vec<usize>, AllocError> = field_tokens_in_module(alloc, module, 0, "a");
    match tokens {
        Ok(tokens) => index == Some(0) && tokens.len() == 3 && declaring == tokens.first().copied(),
        Err(AllocError) => false,
    }
}

/// Returns whether the module's run prints 3 and ends.
fn runs_as_expected(alloc: Global, module: &WellTyped<'_>) -> Result<bool, AllocError> {
    let outcome: Result<Outcome, AllocError> = run(alloc, module, &[], 0, 0);
    let Outcome { output, end } = outcome?;
    Ok(number_of_end(end) == 0 && output.as_slice() == [Item::Number(3)].as_slice())
}

/// Returns the number of an end in the order of the variants, from 0.
fn number_of_end(end: End) -> u8 {
    match end {
        End::Done => 0,
        End::Overflow => 1,
        End::Divisor => 2,
        End::Index => 3,
        End::InputEnd => 4,
        End::CallBound => 5,
        End::TurnBound => 6,
    }
}

/// Returns the number of an item, or 0 for the end of a line.
fn number_of_item(item: Item) -> i32 {
    match item {
        Item::Number(number) => number,
        Item::Line => 0,
    }
}

/// Returns how many occurrences of names are bound if the declaration with this ordinal is renamed
/// to `new`.
pub fn count_bound_after_rename(
    alloc: Global,
    names: &Resolved<'_>,
    declaration: usize,
    new: &str,
) -> Result<usize, AllocError> {
    let bound: Result<Vec<Option<usize>>, AllocError> = resolve_renamed(
        alloc,
        names,
        declaration,
        new,
    );
    Ok(bound?.iter().filter(|it| it.is_some()).count())
}

#[test]
fn modules_are_checked(rt: HostRuntime) {
    assert!(rt; is_as_expected(rt.alloc(), MODULE_TEXT, TestedPart::Types));
}

#[test]
fn modules_are_run(rt: HostRuntime) {
    assert!(rt; is_as_expected(rt.alloc(), MODULE_TEXT, TestedPart::Runs));
    assert!(rt; number_of_item(Item::Line) == 0 && number_of_item(Item::Number(2)) == 2);
}

#[test]
fn questions_are_answered(rt: HostRuntime) {
    assert!(rt; is_as_expected(rt.alloc(), MODULE_TEXT, TestedPart::Answers));
}

#[test]
fn edits_are_made(rt: HostRuntime) {
    assert!(rt; is_as_expected(rt.alloc(), MODULE_TEXT, TestedPart::Edits));
}

#[test]
fn laws_of_runs_can_be_called(_rt: HostRuntime) {
    numbering_keeps_runs();
    numbered_tree_decides_runs();
    numbered_tree_decides_typing();
    renaming_field_to_free_name_keeps_typing_and_runs();
    runs_never_get_stuck();
}

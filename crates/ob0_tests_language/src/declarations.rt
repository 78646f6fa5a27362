//! Tests the types of declarations, and the name conflicts and bindings after a declaration is
//! renamed. A declaration is given by its ordinal: predeclared names have the ordinals 0 to 6, and
//! the text's declarations follow.

use crate::test_questions::TestQuestion::{
    ConflictAfterRename, OrdinalsAfterRename, TypeOfDeclaration,
};
use crate::test_questions::{
    CheckMode, QuestionCase, first_failing_row, push_number, push_span, rows,
};
use ob0_refs::{Capture, captures};
use ob0_scope::resolve_renamed;
use ob0_types::{ArrayShape, RecordShape, Shape, TypeWithParts, WellTyped};
use std::alloc::{AllocError, Global};
use std::process::Abort;

/// Appends the type of the declaration with this ordinal, or `none` if it has no type.
pub fn push_type(
    out: &mut String,
    module: &WellTyped<'_>,
    declaration: usize,
) -> Result<(), AllocError> {
    match module.shape(declaration) {
        None => out.push_str("none"),
        Some(shape) => push_shape(out, shape),
    }
}

/// Appends a type: its array levels from the outside in, and then the element type. A type with
/// more than two array levels is cut off after the third.
fn push_shape(out: &mut String, shape: Shape<'_>) -> Result<(), AllocError> {
    let mut level = shape;
    for _ in 0..3 {
        match level.parts() {
            TypeWithParts::Integer => return out.push_str("INTEGER"),
            TypeWithParts::Boolean => return out.push_str("BOOLEAN"),
            TypeWithParts::Faulty => return out.push_str("faulty"),
            TypeWithParts::Record(record) => {
                return push_record(out, record);
            }
            TypeWithParts::Array(array) => {
                push_array_prefix(out, &array)?;
                level = Shape {
                    known: level.known,
                    of: array.element,
                };
            }
        }
    }
    Ok(())
}

/// Appends `ARRAY`, an array type's ordinal and length, and `OF`. The element type comes next.
fn push_array_prefix(out: &mut String, array: &ArrayShape) -> Result<(), AllocError> {
    let (ordinal, length) = (array.ordinal, array.length);
    write!(out, "ARRAY {ordinal} {length} OF ")
}

/// Appends `RECORD`, a record type's ordinal, and its number of fields.
fn push_record(out: &mut String, record: &RecordShape) -> Result<(), AllocError> {
    let (ordinal, fields) = (record.ordinal, record.fields.as_slice().len());
    write!(out, "RECORD {ordinal} with {fields}")
}

/// Appends the byte range of the first name conflict that renaming the declaration with this
/// ordinal to `new` would cause. Appends `free` if there is no conflict.
pub fn push_first_conflict(
    alloc: Global,
    out: &mut String,
    module: &WellTyped<'_>,
    declaration: usize,
    new: &str,
) -> Result<(), AllocError> {
    match captures(alloc, module.resolved(), declaration, new)? {
        None => out.push_str("free"),
        Some(Capture { span }) => push_span(out, "", span),
    }
}

/// Appends the ordinal of the declaration to which each occurrence would be bound if the
/// declaration with this ordinal were renamed to `new`.
pub fn push_bound_ordinals(
    alloc: Global,
    out: &mut String,
    module: &WellTyped<'_>,
    declaration: usize,
    new: &str,
) -> Result<(), AllocError> {
    let bound = resolve_renamed(alloc, module.resolved(), declaration, new)?;
    push_ordinals(out, bound.as_slice())
}

/// Appends each of these ordinals, or `none` for an occurrence that isn't bound.
fn push_ordinals(out: &mut String, ordinals: &[Option<usize>]) -> Result<(), AllocError> {
    for ordinal in ordinals {
        match ordinal {
            Some(ordinal) => push_number(out, " ", *ordinal)?,
            None => out.push_str(" none")?,
        }
    }
    Ok(())
}

const DECLARED_TYPES: &str =
    "MODULE M; CONST c = 3; TYPE R = RECORD a, b: INTEGER END; VAR v: ARRAY c OF ARRAY 2 OF R; t: BOOLEAN; \
    PROCEDURE P; END P; END M.";

const GLOBAL_AND_LOCAL_VARIABLES: &str =
    "MODULE M;\nVAR x: INTEGER; y: INTEGER;\nPROCEDURE P; VAR z: INTEGER; BEGIN z := x END P;\nBEGIN P END M.";

static DECLARATION_CASES: &[QuestionCase] = rows![
    DECLARED_TYPES, TypeOfDeclaration(0) => "INTEGER";
    DECLARED_TYPES, TypeOfDeclaration(4) => "none";
    DECLARED_TYPES, TypeOfDeclaration(7) => "INTEGER";
    DECLARED_TYPES, TypeOfDeclaration(8) => "RECORD 0 with 2";
    DECLARED_TYPES, TypeOfDeclaration(9) => "ARRAY 1 3 OF ARRAY 2 2 OF RECORD 0 with 2";
    DECLARED_TYPES, TypeOfDeclaration(10) => "BOOLEAN";
    DECLARED_TYPES, TypeOfDeclaration(11) => "none";
    DECLARED_TYPES, TypeOfDeclaration(12) => "none";
    GLOBAL_AND_LOCAL_VARIABLES, ConflictAfterRename(7, "y") => "14-15";
    GLOBAL_AND_LOCAL_VARIABLES, ConflictAfterRename(7, "z") => "78-79";
    GLOBAL_AND_LOCAL_VARIABLES, ConflictAfterRename(7, "w") => "free";
    GLOBAL_AND_LOCAL_VARIABLES, ConflictAfterRename(10, "x") => "78-79";
    GLOBAL_AND_LOCAL_VARIABLES, ConflictAfterRename(10, "y") => "free";
    GLOBAL_AND_LOCAL_VARIABLES, OrdinalsAfterRename(7, "w") => " 0 0 0 10 7 9";
    GLOBAL_AND_LOCAL_VARIABLES, OrdinalsAfterRename(7, "z") => " 0 0 0 10 10 9";
    GLOBAL_AND_LOCAL_VARIABLES, OrdinalsAfterRename(10, "x") => " 0 0 0 10 10 9";
    GLOBAL_AND_LOCAL_VARIABLES, OrdinalsAfterRename(9, "INTEGER") => " 0 0 9 10 7 9";
];

#[test]
fn types_and_conflicts_are_as_expected(rt: HostRuntime) {
    let (text, wanted) = first_failing_row(
        rt.alloc(),
        DECLARATION_CASES,
        CheckMode::AskingQuestions,
    );
    assert!(rt; text.is_empty(), "{wanted} in {text}");
}

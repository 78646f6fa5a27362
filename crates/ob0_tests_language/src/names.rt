//! Tests the answers about names in example modules: referents, uses and hover texts.

use crate::test_questions::TestQuestion::{AllHovers, NameAtOffset};
use crate::test_questions::{
    CheckMode, FIELDS_OF_TWO_RECORDS, QuestionCase, RECURSIVE_PROCEDURE, first_failing_row,
    push_number, push_span, rows,
};
use ob0_refs::{At, Hover, Of, at, definition, hover, references};
use ob0_scan::Span;
use ob0_types::WellTyped;
use std::alloc::{AllocError, Global};
use std::process::Abort;

/// Appends a description of the name at a byte offset. The description has the declaration or field
/// that the name refers to, the byte ranges of its declaration and uses, and the hover text.
/// Appends nothing if there is no name at the offset.
pub fn push_name_description(
    alloc: Global,
    out: &mut String,
    module: &WellTyped<'_>,
    offset: usize,
) -> Result<(), AllocError> {
    let Some(At { span, of }) = at(module, offset) else {
        return Ok(());
    };
    push_referent(out, of)?;
    if let Some(declared) = definition(module, offset) {
        push_span(out, " from ", declared)?;
    }
    push_uses(alloc, out, module, offset)?;
    push_hover_at(alloc, out, module, offset, span)
}

/// Appends the referent of a name: a declaration's ordinal, `predeclared`, or a field's record (the
/// record type's ordinal) and index.
fn push_referent(out: &mut String, of: Of) -> Result<(), AllocError> {
    match of {
        Of::Declared(ordinal) => push_number(out, "", ordinal),
        Of::Predeclared => out.push_str("predeclared"),
        Of::Field { ordinal, index } => write!(out, "{ordinal}.{index}"),
    }
}

/// Appends the byte ranges of the uses of the name at a byte offset.
fn push_uses(
    alloc: Global,
    out: &mut String,
    module: &WellTyped<'_>,
    offset: usize,
) -> Result<(), AllocError> {
    let named = references(alloc, module, offset, false)?;
    push_spans(out, named.as_slice())
}

/// Appends `, at` and these byte ranges.
fn push_spans(out: &mut String, spans: &[Span]) -> Result<(), AllocError> {
    out.push_str(", at")?;
    for span in spans {
        push_span(out, " ", *span)?;
    }
    Ok(())
}

/// Appends the hover at a byte offset as `push_hover` does. `name` is the byte range of the name at
/// the offset. Appends nothing if there is no hover.
fn push_hover_at(
    alloc: Global,
    out: &mut String,
    module: &WellTyped<'_>,
    offset: usize,
    name: Span,
) -> Result<(), AllocError> {
    match hover(alloc, module, offset)? {
        Some(shown) => push_hover(out, &shown, name),
        None => Ok(()),
    }
}

/// Appends the byte range for which a hover is shown, and then its text. If this range isn't
/// `name`, the range of the name, a remark comes first.
fn push_hover(out: &mut String, shown: &Hover, name: Span) -> Result<(), AllocError> {
    if shown.span != name {
        out.push_str(", not at the name")?;
    }
    push_span(out, ", shown at ", shown.span)?;
    out.push_str(": ")?;
    out.push_str(shown.text.as_str())
}

static NAME_CASES: &[QuestionCase] = rows![
    RECURSIVE_PROCEDURE, NameAtOffset(20) => "7 from 20-21, at 65-66 82-83 91-92, shown at 20-21: PROCEDURE F(n: INTEGER)";
    RECURSIVE_PROCEDURE, NameAtOffset(21) => "7 from 20-21, at 65-66 82-83 91-92, shown at 20-21: PROCEDURE F(n: INTEGER)";
    RECURSIVE_PROCEDURE, NameAtOffset(82) => "7 from 20-21, at 65-66 82-83 91-92, shown at 82-83: PROCEDURE F(n: INTEGER)";
    RECURSIVE_PROCEDURE, NameAtOffset(83) => "7 from 20-21, at 65-66 82-83 91-92, shown at 82-83: PROCEDURE F(n: INTEGER)";
    RECURSIVE_PROCEDURE, NameAtOffset(60) => "predeclared, at 55-60, shown at 55-60: predeclared Write";
    RECURSIVE_PROCEDURE, NameAtOffset(0) => "";
    RECURSIVE_PROCEDURE, NameAtOffset(7) => "";
    RECURSIVE_PROCEDURE, NameAtOffset(34) => "";
    RECURSIVE_PROCEDURE, NameAtOffset(104) => "";
    FIELDS_OF_TWO_RECORDS, NameAtOffset(26) => "0.0 from 26-27, at 101-102 126-127, shown at 26-27: FIELD a: INTEGER";
    FIELDS_OF_TWO_RECORDS, NameAtOffset(101) => "0.0 from 26-27, at 101-102 126-127, shown at 101-102: FIELD a: INTEGER";
    FIELDS_OF_TWO_RECORDS, NameAtOffset(29) => "0.1 from 29-30, at, shown at 29-30: FIELD b: INTEGER";
    FIELDS_OF_TWO_RECORDS, NameAtOffset(81) => "10 from 81-82, at 119-120 141-142, shown at 81-82: VAR a: INTEGER";
    FIELDS_OF_TWO_RECORDS, NameAtOffset(99) => "8 from 49-50, at 99-100 124-125, shown at 99-100: VAR r: RECORD with 2 fields";
];

#[test]
fn names_and_fields_are_found(rt: HostRuntime) {
    let (text, wanted) = first_failing_row(rt.alloc(), NAME_CASES, CheckMode::AskingQuestions);
    assert!(rt; text.is_empty(), "{wanted} in {text}");
}

/// Appends the hover text of each name that has one, in text order, each followed by a bar.
pub fn push_all_hovers(
    alloc: Global,
    out: &mut String,
    module: &WellTyped<'_>,
) -> Result<(), AllocError> {
    let mut end = 0;
    for token in module.resolved().tokens().tokens() {
        let span = token.span;
        if span.start != end && push_hover_if_any(alloc, out, module, span)? {
            end = span.end;
        }
    }
    Ok(())
}

/// Appends the hover text at the start of `span`, and then a bar. Returns true if there is a hover
/// text. Otherwise appends nothing and returns false.
fn push_hover_if_any(
    alloc: Global,
    out: &mut String,
    module: &WellTyped<'_>,
    span: Span,
) -> Result<bool, AllocError> {
    match hover(alloc, module, span.start as usize)? {
        Some(shown) => {
            out.push_str(shown.text.as_str())?;
            out.push_str(" | ")?;
            Ok(true)
        }
        None => Ok(false),
    }
}

const NAMES_OF_EACH_KIND: &str =
    "MODULE M; CONST c = -3; on = TRUE; TYPE R = RECORD x, y: BOOLEAN END; A = ARRAY 2 OF R; \
    VAR a: ARRAY 3 OF A; r: R; PROCEDURE P(a, b: A; VAR c: BOOLEAN); VAR r: INTEGER; BEGIN r := 1; \
    c := a[0].x END P; PROCEDURE Q; BEGIN r.x := on; P(a[0], a[c + 3], r.x) END Q; BEGIN Q END M.";

const HOVERS_OF_EACH_KIND: &str =
    "CONST c = -3 | CONST on = TRUE | predeclared TRUE | TYPE R = RECORD with 2 fields | FIELD x: BOOLEAN | \
    FIELD y: BOOLEAN | predeclared BOOLEAN | TYPE A = ARRAY 2 OF RECORD with 2 fields | \
    TYPE R = RECORD with 2 fields | VAR a: ARRAY 3 OF ARRAY 2 OF RECORD with 2 fields | \
    TYPE A = ARRAY 2 OF RECORD with 2 fields | VAR r: RECORD with 2 fields | TYPE R = RECORD with 2 fields | \
    PROCEDURE P(a: ARRAY 2 OF RECORD with 2 fields; b: ARRAY 2 OF RECORD with 2 fields; VAR c: BOOLEAN) | \
    VAR a: ARRAY 2 OF RECORD with 2 fields | VAR b: ARRAY 2 OF RECORD with 2 fields | \
    TYPE A = ARRAY 2 OF RECORD with 2 fields | VAR c: BOOLEAN | predeclared BOOLEAN | VAR r: INTEGER | \
    predeclared INTEGER | VAR r: INTEGER | VAR c: BOOLEAN | VAR a: ARRAY 2 OF RECORD with 2 fields | \
    FIELD x: BOOLEAN | \
    PROCEDURE P(a: ARRAY 2 OF RECORD with 2 fields; b: ARRAY 2 OF RECORD with 2 fields; VAR c: BOOLEAN) | \
    PROCEDURE Q() | VAR r: RECORD with 2 fields | FIELD x: BOOLEAN | CONST on = TRUE | \
    PROCEDURE P(a: ARRAY 2 OF RECORD with 2 fields; b: ARRAY 2 OF RECORD with 2 fields; VAR c: BOOLEAN) | \
    VAR a: ARRAY 3 OF ARRAY 2 OF RECORD with 2 fields | VAR a: ARRAY 3 OF ARRAY 2 OF RECORD with 2 fields | \
    CONST c = -3 | VAR r: RECORD with 2 fields | FIELD x: BOOLEAN | PROCEDURE Q() | PROCEDURE Q() | ";

// A module with records within arrays, within records and in parameters, and with a type whose name
// is declared again in a procedure.
const NESTED_RECORDS: &str =
    "MODULE M; TYPE A = ARRAY 2 OF RECORD x: BOOLEAN END; PROCEDURE P(VAR p, q: RECORD x: A; \
    y, z: RECORD x: INTEGER END END); TYPE A = INTEGER; VAR v: RECORD x: A END; BEGIN p.y.x := v.x END P; \
    END M.";

const HOVERS_OF_NESTED_RECORDS: &str =
    "TYPE A = ARRAY 2 OF RECORD with 1 fields | FIELD x: BOOLEAN | predeclared BOOLEAN | \
    PROCEDURE P(VAR p: RECORD with 3 fields; VAR q: RECORD with 3 fields) | VAR p: RECORD with 3 fields | \
    VAR q: RECORD with 3 fields | FIELD x: ARRAY 2 OF RECORD with 1 fields | \
    TYPE A = ARRAY 2 OF RECORD with 1 fields | FIELD y: RECORD with 1 fields | FIELD z: RECORD with 1 fields | \
    FIELD x: INTEGER | predeclared INTEGER | TYPE A = INTEGER | predeclared INTEGER | VAR v: RECORD with 1 fields | \
    FIELD x: INTEGER | TYPE A = INTEGER | VAR p: RECORD with 3 fields | FIELD y: RECORD with 1 fields | \
    FIELD x: INTEGER | VAR v: RECORD with 1 fields | FIELD x: INTEGER | \
    PROCEDURE P(VAR p: RECORD with 3 fields; VAR q: RECORD with 3 fields) | ";

// A module whose fields are declared and selected at three levels, and a procedure without fields.
const FIELDS_AT_THREE_LEVELS: &str =
    "MODULE M; VAR r: RECORD a: INTEGER END; PROCEDURE P; VAR s: RECORD b: INTEGER END; \
    PROCEDURE Q; VAR t: RECORD c: INTEGER END; BEGIN t.c := s.b; r.a := t.c END Q; \
    PROCEDURE E; BEGIN END E; BEGIN s.b := r.a END P; BEGIN r.a := 1 END M.";

const HOVERS_AT_THREE_LEVELS: &str =
    "VAR r: RECORD with 1 fields | FIELD a: INTEGER | predeclared INTEGER | PROCEDURE P() | \
    VAR s: RECORD with 1 fields | FIELD b: INTEGER | predeclared INTEGER | PROCEDURE Q() | \
    VAR t: RECORD with 1 fields | FIELD c: INTEGER | predeclared INTEGER | \
    VAR t: RECORD with 1 fields | FIELD c: INTEGER | VAR s: RECORD with 1 fields | FIELD b: INTEGER | \
    VAR r: RECORD with 1 fields | FIELD a: INTEGER | VAR t: RECORD with 1 fields | FIELD c: INTEGER | \
    PROCEDURE Q() | PROCEDURE E() | PROCEDURE E() | VAR s: RECORD with 1 fields | FIELD b: INTEGER | \
    VAR r: RECORD with 1 fields | FIELD a: INTEGER | PROCEDURE P() | VAR r: RECORD with 1 fields | \
    FIELD a: INTEGER | ";

static HOVER_CASES: &[QuestionCase] = rows![
    NAMES_OF_EACH_KIND, AllHovers => HOVERS_OF_EACH_KIND;
    NESTED_RECORDS, AllHovers => HOVERS_OF_NESTED_RECORDS;
    FIELDS_AT_THREE_LEVELS, AllHovers => HOVERS_AT_THREE_LEVELS;
];

fn all_hover_cases() -> &'static [QuestionCase] {
    HOVER_CASES
}

#[test]
fn each_kind_of_name_has_its_hover_text(rt: HostRuntime) {
    let (text, _) = first_failing_row(rt.alloc(), all_hover_cases(), CheckMode::AskingQuestions);
    assert!(rt; text.is_empty(), "{text}");
}

// `make faults` runs this test once for each allocation, and lets that allocation fail.
#[test]
fn a_refused_allocation_changes_no_answer(rt: HostRuntime) {
    let (text, _) = first_failing_row(
        rt.alloc(),
        all_hover_cases(),
        CheckMode::AllowingFailedAllocation,
    );
    assert!(rt; text.is_empty(), "{text}");
}

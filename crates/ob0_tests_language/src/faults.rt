//! Tests the faults of example texts: the code, start and end of each, in text order. Also tests
//! that reanalysis of a changed text finds the same faults as an analysis from scratch.

use crate::test_questions::TestQuestion::Faults;
use crate::test_questions::{
    CheckMode, QuestionCase, faults_of_analysis, first_failing_row, position_at, rows,
};
use ob0_analysis::Analysis;
use ob0_text::{Range, TextStore, Whole};
use std::alloc::{AllocError, Global};
use std::process::Abort;

static FAULT_CASES: &[QuestionCase] = rows![
    "MODULE M; END M." => "";
    "MODULE M; VAR n: INTEGER; BEGIN Read(n); REPEAT Write(n); n := n - 1 UNTIL n <= 0 END M." => "";
    // Lexemes.
    "MODULE M; BEGIN 12ab $ END M." => "NumberJoinsLetter 16-20; BadChar 21-22; ";
    // Syntax: the byte range of the unexpected token, and the expected token.
    "MODULE M; BEGIN x = 1 END M." => "Syntax 18-19; expected END";
    "MODULE M; BEGIN x[0] END M." => "Syntax 21-24; expected :=";
    "MODULE M; VAR x INTEGER; END M." => "Syntax 16-23; expected :";
    "MODULE M; VAR x: ; END M." => "Syntax 17-18; expected type";
    "MODULE M; END M. x" => "Syntax 17-18; expected end of text";
    "MODULE M; BEGIN WriteLn END M" => "Syntax 29-29; expected .";
    "" => "Syntax 0-0; expected MODULE";
    "MODULE M; VAR UNTIL: INTEGER; END M." => "Syntax 14-19; expected END";
    "MODULE M; BEGIN x := a - -5 END M." => "Syntax 25-26; expected expression";
    "MODULE 3; END M." => "Syntax 7-8; expected identifier";
    // Names.
    "MODULE M; PROCEDURE P(a: P); END P; END M." => "Undeclared 25-26; ";
    "MODULE M; CONST k = k; END M." => "Undeclared 20-21; ";
    "MODULE M; PROCEDURE P; BEGIN Q END P; PROCEDURE Q; END Q; END M." => "Undeclared 29-30; ";
    "MODULE M; VAR r: RECORD a: RECORD a: INTEGER END; a: INTEGER END; END M." => "Duplicate 50-51; ";
    "MODULE M; PROCEDURE P(x: INTEGER); VAR x: INTEGER; END P; END M." => "Duplicate 39-40; ";
    // One fault of each of ten kinds.
    "MODULE M;\nCONST k = 1 DIV 0; m = 1;\nVAR i: INTEGER; b: BOOLEAN;\n\
        PROCEDURE P(VAR j: INTEGER); BEGIN j := 1 END Q;\n\
        BEGIN i := b; P(3); P; z := 1; i.f := 1; i[0] := 1; Write(P); m := 2 END M." =>
        "ConstFault 20-27; EndName 110-111; TypeMismatch 124-125; NotVariable 129-130; ArgumentCount 133-134; \
        Undeclared 136-137; NotRecord 145-146; NotArray 155-156; WrongKind 171-172; NotVariable 175-176; ";
    // Types.
    "MODULE M; VAR a: ARRAY 3 OF INTEGER; b: ARRAY 3 OF INTEGER; BEGIN a := b END M." => "TypeMismatch 71-72; ";
    "MODULE M; VAR a, b: ARRAY 3 OF INTEGER; BEGIN a := b END M." => "";
    "MODULE M; TYPE T = ARRAY 3 OF INTEGER; VAR a: T; b: T; BEGIN a := b END M." => "";
    "MODULE M; VAR a: ARRAY 256 OF ARRAY 256 OF INTEGER; END M." => "";
    "MODULE M; VAR a: ARRAY 256 OF ARRAY 257 OF INTEGER; END M." => "TypeTooLarge 17-22; ";
    "MODULE M; VAR a: ARRAY 65536 OF INTEGER; END M." => "";
    "MODULE M; VAR a: ARRAY 65537 OF INTEGER; END M." => "ArrayLength 23-28; ";
    "MODULE M; VAR a: ARRAY 0 OF INTEGER; END M." => "ArrayLength 23-24; ";
    "MODULE M; VAR b: BOOLEAN; BEGIN b := TRUE + FALSE END M." => "TypeMismatch 37-41; ";
    "MODULE M; VAR b: BOOLEAN; BEGIN b := 1 = TRUE END M." => "TypeMismatch 41-45; ";
    "MODULE M; VAR b: BOOLEAN; BEGIN b := u + 1 END M." => "Undeclared 37-38; ";
    "MODULE M; VAR a: ARRAY 2 OF INTEGER; BEGIN a[TRUE] := TRUE END M." => "TypeMismatch 45-49; ";
    "MODULE M; BEGIN IF 1 THEN END; WHILE ~(1 < 2) & TRUE DO WriteLn END; REPEAT UNTIL 3 END M." =>
        "TypeMismatch 19-20; TypeMismatch 82-83; ";
    "MODULE M; TYPE R = RECORD x, y: INTEGER; a: ARRAY 2 OF BOOLEAN END; VAR r: R; PROCEDURE P(VAR s: R; \
        b: BOOLEAN); BEGIN s.x := 1; s.a[s.x] := b; s.z := 1 END P; BEGIN P(r, TRUE); P(r, r.a[0]); Read(r.x); \
        Write(r.y) END M." => "NoField 146-147; ";
    "MODULE M; CONST c = 2147483647 + 1; d = -(-2147483647 - 1); e = (1 = 2) & (1 DIV 0 = 1); \
        f = e OR INTEGER; END M." => "ConstFault 20-34; ConstFault 40-58; WrongKind 98-105; ";
    "MODULE M; VAR x: INTEGER; PROCEDURE P; CONST c = x; END P; BEGIN TRUE := FALSE; INTEGER := 1; Read(1); \
        Read(TRUE); x(1); P(u) END M." =>
        "NotConstant 49-50; NotVariable 65-69; WrongKind 80-87; NotVariable 99-100; NotVariable 108-112; \
        WrongKind 115-116; ArgumentCount 121-122; Undeclared 123-124; ";
    "MODULE M; VAR a: ARRAY 256 OF RECORD f, g: ARRAY 256 OF ARRAY 3 OF Write END; END M." => "WrongKind 67-72; ";
    "MODULE M; PROCEDURE P(x: INTEGER; VAR y: BOOLEAN); END P; BEGIN P; P(u, TRUE + 1, v); P(TRUE, 1 < 2); \
        Q(~1) END M." =>
        "ArgumentCount 64-65; ArgumentCount 67-68; Undeclared 69-70; Undeclared 82-83; TypeMismatch 88-92; \
        NotVariable 94-99; Undeclared 102-103; TypeMismatch 105-106; ";
    "MODULE M; CONST n = 3; VAR a: ARRAY n * 2 OF INTEGER; b: ARRAY n = 3 OF u; c: ARRAY a[b] OF BOOLEAN; \
        BEGIN Read(n); Read(a); Read(a[n]); Read((a[n])); Read(-a[n]); n[TRUE] := v END M." =>
        "TypeMismatch 63-68; Undeclared 72-73; NotConstant 84-85; NotConstant 86-87; NotVariable 112-113; \
        TypeMismatch 121-122; NotVariable 142-148; NotVariable 156-161; NotVariable 164-165; \
        TypeMismatch 166-170; Undeclared 175-176; ";
    "MODULE M; VAR x: INTEGER; r: RECORD a: INTEGER END; t: T; BEGIN x[TRUE] := 1; x.f := 1; r.b := TRUE; \
        t[1].f := x END M." =>
        "Undeclared 55-56; NotArray 65-66; TypeMismatch 66-70; NotRecord 79-80; NoField 90-91; ";
    "MODULE M; TYPE T = ARRAY 2 OF RECORD f: BOOLEAN; g: U; f: INTEGER END; VAR t: T; PROCEDURE P(T: INTEGER; \
        x: T); BEGIN t[T].f := x; t[0].f := T; P(t[1].g, t[2].g) END P; END M." =>
        "Undeclared 52-53; Duplicate 55-56; WrongKind 108-109; TypeMismatch 141-142; ";
];

#[test]
fn faults_of_example_texts_are_reported(rt: HostRuntime) {
    let (text, wanted) = first_failing_row(rt.alloc(), FAULT_CASES, CheckMode::AskingQuestions);
    assert!(rt; text.is_empty(), "{wanted} of {text}");
}

/// Builds a list of changes, each written `TEXT, START, END, NEW;`.
macro_rules! changes {
    ($($text:expr, $start:expr, $end:expr, $new:expr;)*) => { &[$(($text, $start, $end, $new)),*] };
}

const TWO_VARIABLES: &str = "MODULE M; VAR x, y: INTEGER; BEGIN x := y END M.";

const ONE_PROCEDURE: &str =
    "MODULE M; VAR x, y: INTEGER; PROCEDURE P; BEGIN x := y END P; BEGIN P; z := x END M.";

const RECORD_PARAMETERS: &str =
    "MODULE M; TYPE T = RECORD f, g: INTEGER END; VAR t: T; PROCEDURE P(a, b: T); BEGIN a := b; a.f := t.g END P; \
    BEGIN P(t, t); z := t END M.";

const TWO_TYPE_ERRORS: &str =
    "MODULE M; VAR x: INTEGER; PROCEDURE P; BEGIN x := 1 END P; PROCEDURE Q; \
    BEGIN x := TRUE END Q; BEGIN x := P END M.";

const DECLARATION_ERRORS: &str = "MODULE M; CONST n = TRUE + 1; VAR x: INTEGER; y: T; PROCEDURE P; \
    BEGIN x := n END P; BEGIN x := 1; y := x END M.";

/// Texts of one line, each with a change: the index of the first replaced character, the index
/// after the last one, and the new text.
static TEXTS_WITH_CHANGES: &[(&str, u64, u64, &str)] = changes![
    // A change of a number on which types depend.
    "MODULE M; CONST n = 2; VAR a: ARRAY n OF INTEGER; BEGIN a[n - 1] := 1; a[2] := n END M.", 20, 21, "20";
    // A change of a number before an undeclared name and before a name that is declared twice.
    "MODULE M; CONST n = 2; VAR x, x: INTEGER; BEGIN y := n END M.", 20, 21, "234";
    // White space that is inserted next to a name.
    "MODULE M; VAR x: INTEGER; BEGIN x := TRUE END M.", 15, 15, " ";
    // A declared name that is replaced by a new name, and by a name that is already declared.
    TWO_VARIABLES, 17, 18, "z";
    TWO_VARIABLES, 17, 18, "x";
    // A statement that is added to the first of two procedures, and a value that is removed from a
    // statement of the second procedure.
    "MODULE M; VAR x: INTEGER; PROCEDURE P; BEGIN x := 1 END P; PROCEDURE Q; BEGIN P; y := 1 END Q; BEGIN Q END M.",
        51, 51, "; x := TRUE";
    "MODULE M; VAR x: INTEGER; PROCEDURE P; BEGIN x := z END P; PROCEDURE Q; BEGIN P; y := 1 END Q; BEGIN Q END M.", 86, 88, "";
    // A statement that is added to a body of a valid module: without an error, with a type error,
    // with an undeclared name, and with selected fields.
    TWO_VARIABLES, 41, 41, "; y := x + 1";
    TWO_VARIABLES, 41, 41, "; y := TRUE";
    TWO_VARIABLES, 41, 41, "; z := 1";
    "MODULE M; TYPE T = RECORD f, g: INTEGER END; VAR t: T; PROCEDURE P(a, b: T); BEGIN a := b; a.f := t.g END P; \
        BEGIN P(t, t); t := t END M.", 101, 101, "; a.g := b.f";
    // A statement is added to a body of a module with errors: before and after bodies with type errors,
    // in a body with a type error, and in a module with errors in declarations.
    TWO_TYPE_ERRORS, 51, 51, "; x := x + 1";
    TWO_TYPE_ERRORS, 51, 51, "; IF x THEN z := x END";
    TWO_TYPE_ERRORS, 87, 87, "; x := 2";
    TWO_TYPE_ERRORS, 107, 107, "; Q";
    DECLARATION_ERRORS, 77, 77, "; x := x + n";
    DECLARATION_ERRORS, 97, 97, "; P; y := TRUE";
    // A name in a body that is replaced by the name of a later procedure, the name of an earlier
    // procedure, a variable of an enclosing block, and an undeclared name. The first three texts
    // have undeclared names outside that body.
    "MODULE M; VAR x, u: INTEGER; PROCEDURE P(a: INTEGER); VAR y: BOOLEAN; PROCEDURE Q(x: BOOLEAN); BEGIN x := y \
        END Q; PROCEDURE R; BEGIN q := 1 END R; BEGIN x := a END P; BEGIN P(x); v := u END M.", 106, 107, "R";
    "MODULE M; VAR x, u: INTEGER; PROCEDURE P(a: INTEGER); VAR y: BOOLEAN; PROCEDURE Q(x: BOOLEAN); BEGIN x := y \
        END Q; PROCEDURE R; BEGIN R END R; BEGIN x := a END P; BEGIN P(x); v := u END M.", 134, 135, "Q";
    "MODULE M; VAR x, u: INTEGER; PROCEDURE P(a: INTEGER); VAR y: BOOLEAN; PROCEDURE Q; BEGIN u := x; u := y END Q; \
        BEGIN x := a; w := w END P; PROCEDURE S; BEGIN w := 1 END S; BEGIN P(x); v := u END M.", 130, 131, "u";
    "MODULE M; VAR x: INTEGER; PROCEDURE P; VAR x: BOOLEAN; BEGIN x := TRUE END P; BEGIN x := 1; Write(x) END M.", 98, 99, "y";
    // A change of a body's first name and the number before it, and a change of both names of a
    // body.
    "MODULE M; VAR x, y: INTEGER; PROCEDURE P; BEGIN IF 1 < x THEN y := x END END P; BEGIN P; z := x END M.", 51, 56, "2 < q";
    ONE_PROCEDURE, 48, 54, "q := r";
    // A change of a closing name, and of a closing name together with the last name of its body.
    ONE_PROCEDURE, 59, 60, "Q";
    ONE_PROCEDURE, 53, 60, "q END Q";
    // A change of a parameter, of a field in its declaration, and of a field in a selection.
    RECORD_PARAMETERS, 70, 71, "a";
    RECORD_PARAMETERS, 29, 30, "f";
    RECORD_PARAMETERS, 100, 101, "h";
];

/// Returns the faults of the text `new`, from an analysis that reuses the analysis of the text
/// `old`.
fn faults_after_change(alloc: Global, old: &str, new: &str) -> Result<String, AllocError> {
    let analysis = Analysis::analyse_text(alloc, old)?.reanalyse(alloc, new)?;
    faults_of_analysis(alloc, &analysis)
}

/// Returns the faults of a text that is analysed from scratch.
fn faults_from_scratch(alloc: Global, text: &str) -> Result<String, AllocError> {
    let analysis = Analysis::analyse_text(alloc, text)?;
    faults_of_analysis(alloc, &analysis)
}

/// Returns whether an analysis of the text `new` that reuses the analysis of the text `old` finds
/// the same faults as an analysis from scratch.
fn reanalysis_agrees_with_scratch(alloc: Global, old: &str, new: &str) -> Result<bool, AllocError> {
    let found = faults_after_change(alloc, old, new)?;
    let wanted = faults_from_scratch(alloc, new)?;
    Ok(found.as_str() == wanted.as_str())
}

/// Makes the row's change in the row's text, and then undoes the change. Returns whether reanalysis
/// finds the same faults as an analysis from scratch each time.
fn change_and_undo_agree_with_scratch(
    alloc: Global,
    row: &(&str, u64, u64, &str),
) -> Result<bool, AllocError> {
    let (text, start, end, new) = *row;
    let mut store = Whole::from_str(alloc, text)?;
    let (start, end) = (position_at(0, start), position_at(0, end));
    store.replace(Range { start, end }, new)?;
    Ok(
        reanalysis_agrees_with_scratch(alloc, text, store.as_str())?
            && reanalysis_agrees_with_scratch(alloc, store.as_str(), text)?,
    )
}

/// Returns the index, from 0, of the first change that fails: reanalysis finds other faults than an
/// analysis from scratch, or an allocation fails. Returns None if there is no such change.
fn first_failing_change(alloc: Global, changes: &[(&str, u64, u64, &str)]) -> Option<usize> {
    for i in 0..changes.len() {
        if change_and_undo_agree_with_scratch(alloc, &changes[i]) != Ok(true) {
            return Some(i);
        }
    }
    None
}

#[test]
fn reanalysis_finds_faults_as_from_scratch(rt: HostRuntime) {
    let number = first_failing_change(rt.alloc(), TEXTS_WITH_CHANGES);
    assert!(rt; number.is_none(), "change {number:?}");
}

//! Tests the output of example modules, and how their runs end.

use crate::test_questions::TestQuestion::Run;
use crate::test_questions::{
    CheckMode, NESTED_PROCEDURES, QuestionCase, RECURSIVE_PROCEDURE, REPEAT_COUNTDOWN,
    first_failing_row, rows,
};
use ob0_run::{End, Item, run};
use ob0_types::WellTyped;
use std::alloc::{AllocError, Global};
use std::process::Abort;

/// Appends the output of a run, with `/` for a line break, and then how the run ends.
pub fn push_run(
    alloc: Global,
    out: &mut String,
    module: &WellTyped<'_>,
    input: &[i32],
    calls: u32,
    turns: u32,
) -> Result<(), AllocError> {
    let outcome = run(alloc, module, input, calls, turns)?;
    push_outcome(out, outcome.output.as_slice(), outcome.end)
}

fn push_outcome(out: &mut String, output: &[Item], end: End) -> Result<(), AllocError> {
    for item in output {
        push_output_item(out, *item)?;
    }
    out.push_str("; ")?;
    out.push_str(name_of_end(end))
}

fn push_output_item(out: &mut String, item: Item) -> Result<(), AllocError> {
    match item {
        Item::Number(number) => write!(out, " {number}"),
        Item::Line => out.push('/'),
    }
}

fn name_of_end(end: End) -> &'static str {
    match end {
        End::Done => "Done",
        End::Overflow => "Overflow",
        End::Divisor => "Divisor",
        End::Index => "Index",
        End::InputEnd => "InputEnd",
        End::CallBound => "CallBound",
        End::TurnBound => "TurnBound",
    }
}

const WHILE_COUNTDOWN: &str = "MODULE M;\nVAR n: INTEGER;\nPROCEDURE P; BEGIN Write(n) END P;\n\
    BEGIN Read(n); WHILE n > 0 DO n := n - 1; WriteLn END; P END M.";

const ALIASED_PARAMETERS: &str = "MODULE M;\nVAR a: ARRAY 2 OF INTEGER; i: INTEGER;\n\
    PROCEDURE S(VAR p: INTEGER; q: INTEGER; VAR r: INTEGER);\n\
    BEGIN i := 1; p := q + 1; r := p * 10; Write(q) END S;\n\
    BEGIN i := 0; S(a[i], a[i], a[i]); Write(a[0]); Write(a[1]); S(i, i, i); Write(i); a[i] := 0 END M.";

const RECURSIVE_ACTIVATIONS: &str =
    "MODULE M;\nPROCEDURE P(n: INTEGER);\nVAR k: INTEGER;\nPROCEDURE Q; BEGIN k := k + n END Q;\n\
    BEGIN IF n > 0 THEN P(n - 1) END; Q; Q; Write(k) END P;\nBEGIN P(2) END M.";

const RECORD_COPIES: &str =
    "MODULE M;\nTYPE P = RECORD x, y: INTEGER; on: BOOLEAN END;\nVAR p, q: P; ps: ARRAY 2 OF P;\n\
    PROCEDURE Set(VAR r: P; s: P); BEGIN r.x := 5; Write(s.x); s.x := 9 END Set;\n\
    BEGIN p.x := 1; q := p; q.x := 2; Set(p, p); Write(p.x); Write(q.x); ps[1] := p; Write(ps[1].x + ps[0].y); \
    IF ~ps[0].on THEN WriteLn END END M.";

const ELEMENT_ARITHMETIC: &str = "MODULE M;\nVAR a: ARRAY 2 OF INTEGER; i: INTEGER;\n\
    BEGIN a[0] := 3; a[1] := -a[0] * a[0]; i := 1; Write(a[i] - 1); i := a[0]; a[i - 1] := 1 DIV 0 END M.";

const BOOLEAN_OPERATORS: &str = "MODULE M;\nVAR b: ARRAY 2 OF BOOLEAN; p: BOOLEAN;\n\
    BEGIN b[1] := TRUE; p := b[1] = ~b[0]; IF p & (b[0] # TRUE) THEN Write(1) END;\n\
    IF p OR (1 DIV 0 = 1) THEN Write(2) END; IF b[0] & (1 DIV 0 = 1) OR (1 DIV 0 = 1) THEN Write(3) END END M.";

const ARRAY_OF_ARRAYS: &str = "MODULE M;\nVAR m: ARRAY 2 OF ARRAY 3 OF INTEGER; i: INTEGER;\n\
    BEGIN i := 2; m[1][i] := 4; m[0] := m[1]; m[1][i] := 5; Write(m[0][i]); Write(m[1][2]); \
    Write(m[1][i + 1]) END M.";

const LARGE_ARRAY_ARGUMENT: &str = "MODULE M;\nTYPE A = ARRAY 65536 OF INTEGER;\nVAR a: A;\n\
    PROCEDURE P(b: A); BEGIN b[65535] := 5; Write(b[65535]); Write(b[0]) END P;\n\
    BEGIN a[0] := 3; a[65535] := 4; P(a); Write(a[65535]) END M.";

const THIRTY_FIELDS: &str = "MODULE M;\n\
    VAR r: RECORD a, b, c, d, e, f, g, h, i, j, k, l, m, n, o, p, q, r, s, t, u, v, w, x, y, z, aa, bb, cc, \
    dd: INTEGER END;\n\
    BEGIN r.a := 1; r.cc := 29; r.dd := 30; Write(r.a + r.dd); Write(r.cc); Write(r.bb) END M.";

const TWELVE_VAR_PARAMETERS: &str =
    "MODULE M;\nVAR x: ARRAY 12 OF INTEGER;\nPROCEDURE P(VAR a, b, c, d, e, f, g, h, i, j, k, l: INTEGER);\n\
    BEGIN a := 1; l := a + 11; f := l END P;\n\
    BEGIN P(x[0], x[1], x[2], x[3], x[4], x[5], x[6], x[7], x[8], x[9], x[10], x[11]);\n\
    Write(x[0]); Write(x[11]); Write(x[5]); Write(x[4]) END M.";

const HUNDRED_OPEN_CALLS: &str =
    "MODULE M;\nVAR k: INTEGER;\nPROCEDURE D(n: INTEGER); BEGIN k := k + 1; IF n > 1 THEN D(n - 1) END END D;\n\
    BEGIN D(100); Write(k) END M.";

const THOUSAND_OPEN_CALLS: &str =
    "MODULE M;\nVAR k: INTEGER;\nPROCEDURE D(n: INTEGER); BEGIN k := k + 1; IF n > 1 THEN D(n - 1) END END D;\n\
    BEGIN D(1000); Write(k) END M.";

const FIELDS_OF_NESTED_RECORDS: &str =
    "MODULE M;\nTYPE P = RECORD x, y: INTEGER END; R = RECORD n: INTEGER; p: P; ps: ARRAY 3 OF P END;\n\
    VAR r: R; rs: ARRAY 2 OF R; i, j: INTEGER;\nPROCEDURE Set(n: INTEGER; VAR r: R);\n\
    PROCEDURE Inner; BEGIN r.p.y := r.n + 1; r.ps[2].y := r.p.y * 2 END Inner;\n\
    BEGIN r.n := n; r.p.x := n; i := 1; r.ps[i].x := n + 4; Inner END Set;\n\
    BEGIN i := 0; j := 2; Set(5, r); Write(r.n + r.p.x); Write(r.p.y); Write(r.ps[1].x); Write(r.ps[j].y); \
    Set(7, rs[1]); Write(rs[i].ps[j].y); Write(rs[1].p.y); Write(rs[i].ps[1].x); rs[0].ps[i] := r.ps[2]; \
    Write(rs[0].ps[1].y + rs[0].ps[1].x); Write(r.ps[3].x) END M.";

static RUN_CASES: &[QuestionCase] = rows![
    "MODULE M; BEGIN Write(-7 DIV 3); Write((-7) DIV 3); Write((-7) MOD 3); Write(1 MOD 0) END M.",
        Run(&[], 64, 100_000) =>
        " -2 -3 2; Divisor";
    "MODULE M; BEGIN Write(7 MOD (-2)) END M.", Run(&[], 0, 0) => "; Divisor";
    "MODULE M; BEGIN Write(2147483647); Write(2147483647 + 1) END M.", Run(&[], 0, 0) =>
        " 2147483647; Overflow";
    "MODULE M; BEGIN Write(-(-2147483647 - 1)) END M.", Run(&[], 0, 0) => "; Overflow";
    "MODULE M;\nVAR x: INTEGER;\nPROCEDURE P;\nVAR y: INTEGER;\nBEGIN y := 1; x := y END P;\n\
        BEGIN P; Write(x) END M.", Run(&[], 1, 0) => " 1; Done";
    NESTED_PROCEDURES, Run(&[], 64, 0) => " 2 7; Done";
    NESTED_PROCEDURES, Run(&[], 1, 0) => "; CallBound";
    RECURSIVE_PROCEDURE, Run(&[], 3, 0) => " 2 1; Done";
    RECURSIVE_PROCEDURE, Run(&[], 2, 0) => " 2 1; CallBound";
    "MODULE M; PROCEDURE P; BEGIN Write(1) END P; BEGIN P; P; P END M.", Run(&[], 1, 0) => " 1 1 1; Done";
    "MODULE M;\nCONST c = -2147483647 - 1;\nVAR x: INTEGER;\nBEGIN x := 0 + c; Write(x) END M.",
        Run(&[], 0, 0) =>
        " -2147483648; Done";
    "MODULE M; CONST n = 3; m = n * 2; TYPE T = ARRAY m OF INTEGER; VAR a: T; BEGIN a[m - 1] := n; \
        Write(a[5]); IF TRUE & (m = 6) THEN Write(m) END END M.", Run(&[], 0, 0) => " 3 6; Done";
    WHILE_COUNTDOWN, Run(&[], 64, 100_000) => "; InputEnd";
    WHILE_COUNTDOWN, Run(&[7], 0, 3) => "///; TurnBound";
    WHILE_COUNTDOWN, Run(&[2], 0, 3) => "//; CallBound";
    WHILE_COUNTDOWN, Run(&[2], 1, 3) => "// 0; Done";
    REPEAT_COUNTDOWN, Run(&[0], 0, 0) => " 0; Done";
    REPEAT_COUNTDOWN, Run(&[2], 0, 0) => " 2; TurnBound";
    REPEAT_COUNTDOWN, Run(&[2], 0, 1) => " 2; TurnBound";
    REPEAT_COUNTDOWN, Run(&[2], 0, 2) => " 2 1; Done";
    ALIASED_PARAMETERS, Run(&[], 1, 0) => " 0 10 0 1 20; Index";
    ALIASED_PARAMETERS, Run(&[], 0, 0) => "; CallBound";
    RECURSIVE_ACTIVATIONS, Run(&[], 4, 0) => " 0 2 4; Done";
    RECURSIVE_ACTIVATIONS, Run(&[], 3, 0) => "; CallBound";
    RECORD_COPIES, Run(&[], 1, 0) => " 1 5 2 5/; Done";
    ELEMENT_ARITHMETIC, Run(&[], 0, 0) => " -10; Index";
    BOOLEAN_OPERATORS, Run(&[], 0, 0) => " 1 2; Divisor";
    ARRAY_OF_ARRAYS, Run(&[], 0, 0) => " 4 5; Index";
    FIELDS_OF_NESTED_RECORDS, Run(&[], 64, 0) => " 10 6 9 12 16 8 11 12; Index";
    LARGE_ARRAY_ARGUMENT, Run(&[], 64, 0) => " 5 3 4; Done";
    THIRTY_FIELDS, Run(&[], 0, 0) => " 31 29 0; Done";
    TWELVE_VAR_PARAMETERS, Run(&[], 1, 0) => " 1 12 12 0; Done";
    HUNDRED_OPEN_CALLS, Run(&[], 100, 0) => " 100; Done";
    HUNDRED_OPEN_CALLS, Run(&[], 99, 0) => "; CallBound";
    THOUSAND_OPEN_CALLS, Run(&[], 1000, 0) => " 1000; Done";
    THOUSAND_OPEN_CALLS, Run(&[], u32::MAX, 0) => " 1000; Done";
    "MODULE M; VAR a: ARRAY 1 OF INTEGER; BEGIN a[0] := 1 DIV 0 END M.", Run(&[], 0, 0) => "; Divisor";
    "MODULE M; VAR a: ARRAY 1 OF INTEGER; BEGIN a[0 - 1] := 1 END M.", Run(&[], 0, 0) => "; Index";
];

fn all_run_cases() -> &'static [QuestionCase] {
    RUN_CASES
}

#[test]
fn modules_run_as_expected(rt: HostRuntime) {
    let (text, wanted) = first_failing_row(rt.alloc(), all_run_cases(), CheckMode::AskingQuestions);
    assert!(rt; text.is_empty(), "{wanted} of {text}");
}

// `make faults` runs this test once for each allocation, and lets that allocation fail.
#[test]
fn a_refused_allocation_changes_no_run(rt: HostRuntime) {
    let (text, wanted) = first_failing_row(
        rt.alloc(),
        all_run_cases(),
        CheckMode::AllowingFailedAllocation,
    );
    assert!(rt; text.is_empty(), "{wanted} of {text}");
}

//! Tests renaming, inlining and formatting: the resulting texts, and the refusals.

ghost use Rattle.std.specs.Prelude.{◌≡◌};
ghost use Rattle.std.specs.Str.{chars};

use crate::test_questions::TestQuestion::{self, FormatWithIndent, InlineAll, InlineHere, Rename};
use crate::test_questions::{
    CheckMode, FIELDS_OF_TWO_RECORDS, NESTED_PROCEDURES, QuestionCase, RECURSIVE_PROCEDURE,
    REPEAT_COUNTDOWN, faults_of_analysis, first_failing_row, position_at, rows,
};
use ob0_analysis::Analysis;
use ob0_edits::renaming_edits;
use ob0_inline::{inline_all, inline_here};
use ob0_layout::format;
use ob0_rename::rename;
use ob0_text::{Edit, EditRefusal, Indent, PatchFault, TextStore, Whole, patch};
use ob0_types::WellTyped;
use std::alloc::{AllocError, Global};
use std::process::Abort;

/// Appends the text that the module has after the edit in the question `asked`, or the refusal.
pub fn push_edited_text(
    alloc: Global,
    out: &mut String,
    module: &WellTyped<'_>,
    asked: TestQuestion,
) -> Result<(), AllocError> {
    let store = Whole::from_str(alloc, module.resolved().tokens().text())?;
    let edits = edits_for_question(alloc, &store, module, asked);
    out.push_str(edited_text_or_refusal(alloc, &store, edits)?.as_str())
}

/// Returns the edits for the question `asked`, or the refusal. If the question isn't about edits,
/// the list is empty.
fn edits_for_question<T: TextStore>(
    alloc: Global,
    store: &T,
    module: &WellTyped<'_>,
    asked: TestQuestion,
) -> Result<Vec<Edit>, EditRefusal>
    requires { T.content store.now ≡ chars «module».now.module_read.source.text }
{
    match asked {
        Rename(line, character, new) => rename(
            alloc,
            store,
            module,
            position_at(line, character),
            new,
        ),
        InlineHere(line, character) => inline_here(
            alloc,
            store,
            module,
            position_at(line, character),
        ),
        InlineAll(line, character) => inline_all(
            alloc,
            store,
            module,
            position_at(line, character),
        ),
        FormatWithIndent(indent) => format(alloc, store, module.resolved().module(), indent),
        _ => Ok(Vec::new(alloc)),
    }
}

/// Returns the text with the edits applied, or the refusal.
fn edited_text_or_refusal(
    alloc: Global,
    store: &Whole,
    edits: Result<Vec<Edit>, EditRefusal>,
) -> Result<String, AllocError> {
    match edits {
        Ok(edits) => match patch(alloc, store, edits.as_slice()) {
            Ok(text) => Ok(text),
            Err(PatchFault::Overlap) => String::from_str(alloc, "Overlap"),
            Err(PatchFault::Memory) => Err(AllocError),
        },
        Err(refusal) => refusal.text(alloc),
    }
}

/// Returns the analysed text after the renaming in the question `asked`, or the refusal. If the
/// text has faults, returns the faults. If the question isn't a renaming, the string is empty.
pub fn renamed_text_or_faults(
    alloc: Global,
    analysis: &Analysis,
    asked: TestQuestion,
) -> Result<String, AllocError> {
    let Rename(line, character, new) = asked else {
        return Ok(String::new(alloc));
    };
    let store = Whole::from_str(alloc, analysis.text())?;
    match renaming_edits(alloc, &store, analysis, position_at(line, character), new)? {
        Some(edits) => edited_text_or_refusal(alloc, &store, edits),
        None => faults_of_analysis(alloc, analysis),
    }
}

const LOCAL_AND_GLOBAL_VARIABLE: &str =
    "MODULE M;\nVAR x: INTEGER;\nPROCEDURE P;\nVAR y: INTEGER;\nBEGIN y := 1; x := y END P;\n\
    BEGIN P; Write(x) END M.";

const ARRAY_OF_NESTED_RECORDS: &str = "MODULE M;\nTYPE P = RECORD x, y: INTEGER END;\n\
    VAR q: ARRAY 2 OF RECORD x: P; n: RECORD x: INTEGER END END;\n\
    BEGIN q[0].x.x := 1; q[q[0].x.x].n.x := 2; q[1].x.y := 3 END M.";

const REDECLARED_RECORD_TYPE: &str =
    "MODULE M;\nTYPE R = RECORD a: INTEGER END;\nVAR r: R;\nPROCEDURE P(VAR r: R; s: RECORD a: INTEGER END);\n\
    TYPE R = RECORD b, a: INTEGER END;\nVAR t: R;\nBEGIN r.a := s.a; t.a := t.b END P;\nBEGIN r.a := 1 END M.";

static RENAME_CASES: &[QuestionCase] = rows![
    RECURSIVE_PROCEDURE, Rename(2, 47, "G12") =>
        "MODULE M;\nPROCEDURE G12(n: INTEGER);\nBEGIN IF n > 0 THEN Write(n); G12(n - 1) END END G12;\n\
        BEGIN G12(2) END M.";
    RECURSIVE_PROCEDURE, Rename(1, 11, "Repeat") =>
        "MODULE M;\nPROCEDURE Repeat(n: INTEGER);\n\
        BEGIN IF n > 0 THEN Write(n); Repeat(n - 1) END END Repeat;\nBEGIN Repeat(2) END M.";
    RECURSIVE_PROCEDURE, Rename(2, 47, "F") => RECURSIVE_PROCEDURE;
    NESTED_PROCEDURES, Rename(4, 10, "Q") =>
        "MODULE M;\nVAR Q: INTEGER;\nPROCEDURE A;\nPROCEDURE P; BEGIN Q := 7 END P;\n\
        PROCEDURE Q; BEGIN Write(2) END Q;\nBEGIN P; Q END A;\nBEGIN A; Write(Q) END M.";
    NESTED_PROCEDURES, Rename(4, 10, "P") => "Duplicate 3:10-3:11";
    NESTED_PROCEDURES, Rename(3, 10, "R") => "Duplicate 4:10-4:11";
    NESTED_PROCEDURES, Rename(1, 4, "P") => "Captures 3:19-3:20";
    LOCAL_AND_GLOBAL_VARIABLE, Rename(1, 4, "y") => "Captures 4:14-4:15";
    LOCAL_AND_GLOBAL_VARIABLE, Rename(1, 4, "Write") => "Captures 5:9-5:14";
    RECURSIVE_PROCEDURE, Rename(2, 47, "n") => "Captures 2:30-2:31";
    RECURSIVE_PROCEDURE, Rename(2, 47, "END") => "BadName";
    RECURSIVE_PROCEDURE, Rename(2, 47, "a b") => "BadName";
    RECURSIVE_PROCEDURE, Rename(0, 7, "END") => "NoName";
    RECURSIVE_PROCEDURE, Rename(2, 15, "END") => "NoName";
    RECURSIVE_PROCEDURE, Rename(2, 22, "END") => "Predeclared";
    FIELDS_OF_TWO_RECORDS, Rename(2, 36, "b") =>
        "MODULE M;\nTYPE R = RECORD a, b: INTEGER END;\nVAR r: R; s: RECORD a: INTEGER END; b: INTEGER;\n\
        BEGIN r.a := 1; s.a := 2; b := r.a + s.a; Write(b) END M.";
    FIELDS_OF_TWO_RECORDS, Rename(3, 8, "INTEGER") =>
        "MODULE M;\nTYPE R = RECORD INTEGER, b: INTEGER END;\nVAR r: R; s: RECORD a: INTEGER END; a: INTEGER;\n\
        BEGIN r.INTEGER := 1; s.a := 2; a := r.INTEGER + s.a; Write(a) END M.";
    FIELDS_OF_TWO_RECORDS, Rename(3, 18, "b") =>
        "MODULE M;\nTYPE R = RECORD a, b: INTEGER END;\nVAR r: R; s: RECORD b: INTEGER END; a: INTEGER;\n\
        BEGIN r.a := 1; s.b := 2; a := r.a + s.b; Write(a) END M.";
    FIELDS_OF_TWO_RECORDS, Rename(3, 8, "b") => "Duplicate 1:19-1:20";
    FIELDS_OF_TWO_RECORDS, Rename(3, 8, "1a") => "BadName";
    FIELDS_OF_TWO_RECORDS, Rename(3, 18, "a") => FIELDS_OF_TWO_RECORDS;
    ARRAY_OF_NESTED_RECORDS, Rename(3, 11, "n") => "Duplicate 2:31-2:32";
    ARRAY_OF_NESTED_RECORDS, Rename(2, 25, "y") =>
        "MODULE M;\nTYPE P = RECORD x, y: INTEGER END;\n\
        VAR q: ARRAY 2 OF RECORD y: P; n: RECORD x: INTEGER END END;\n\
        BEGIN q[0].y.x := 1; q[q[0].y.x].n.x := 2; q[1].y.y := 3 END M.";
    REDECLARED_RECORD_TYPE, Rename(6, 20, "b") => "Duplicate 4:16-4:17";
    REDECLARED_RECORD_TYPE, Rename(7, 8, "b") =>
        "MODULE M;\nTYPE R = RECORD b: INTEGER END;\nVAR r: R;\nPROCEDURE P(VAR r: R; s: RECORD a: INTEGER END);\n\
        TYPE R = RECORD b, a: INTEGER END;\nVAR t: R;\nBEGIN r.b := s.a; t.a := t.b END P;\nBEGIN r.b := 1 END M.";
    REDECLARED_RECORD_TYPE, Rename(6, 15, "b") =>
        "MODULE M;\nTYPE R = RECORD a: INTEGER END;\nVAR r: R;\nPROCEDURE P(VAR r: R; s: RECORD b: INTEGER END);\n\
        TYPE R = RECORD b, a: INTEGER END;\nVAR t: R;\nBEGIN r.a := s.b; t.a := t.b END P;\nBEGIN r.a := 1 END M.";
];

fn all_rename_cases() -> &'static [QuestionCase] {
    RENAME_CASES
}

#[test]
fn names_are_renamed_in_well_typed_modules(rt: HostRuntime) {
    let (text, wanted) = first_failing_row(
        rt.alloc(),
        all_rename_cases(),
        CheckMode::AskingQuestions,
    );
    assert!(rt; text.is_empty(), "{wanted} in {text}");
}

#[test]
fn names_are_renamed_in_analyses(rt: HostRuntime) {
    let (text, wanted) = first_failing_row(
        rt.alloc(),
        all_rename_cases(),
        CheckMode::RenamingInAnalysis,
    );
    assert!(rt; text.is_empty(), "{wanted} in {text}");
}

const CONSTANT_OF_LEAST_NUMBER: &str =
    "MODULE M;\nCONST c = -2147483647 - 1;\nVAR x: INTEGER;\nBEGIN x := 0 + c; Write(x) END M.";

const SHADOWED_TRUE: &str =
    "MODULE M;\nCONST on = TRUE;\nPROCEDURE P; VAR TRUE, b: BOOLEAN; BEGIN b := on END P;\nBEGIN P END M.";

const COMMENTED_CONSTANT: &str = "MODULE M; CONST c (* five *) = 5; (* on *) BEGIN Write(c) END M.";

const SEVERAL_CONSTANTS: &str =
    "MODULE M; CONST a = 9; c = -5; d = c; BEGIN Write(a - c); Write(c DIV 3) END M.";

/// A module that is nested as deeply as allowed. Inlining its constant would write the value in
/// parentheses, which would nest one level too deeply.
const DEEPEST_NESTING: &str = "MODULE M; CONST c = -1; VAR x: INTEGER; BEGIN x := \
    ((((((((((((((((((((((((((((((((((((((((((((((((((\
    ((((((((((((((((((((((((((((((((((((((((((((((((((c\
    ))))))))))))))))))))))))))))))))))))))))))))))))))\
    )))))))))))))))))))))))))))))))))))))))))))))))))) END M.";

static INLINING_CASES: &[QuestionCase] = rows![
    CONSTANT_OF_LEAST_NUMBER, InlineHere(3, 15) =>
        "MODULE M;\nCONST c = -2147483647 - 1;\nVAR x: INTEGER;\nBEGIN x := 0 + (-2147483647 - 1); Write(x) END M.";
    CONSTANT_OF_LEAST_NUMBER, InlineHere(1, 6) => "NoName";
    CONSTANT_OF_LEAST_NUMBER, InlineHere(3, 6) => "NoName";
    CONSTANT_OF_LEAST_NUMBER, InlineAll(1, 6) =>
        "MODULE M;\nCONST \nVAR x: INTEGER;\nBEGIN x := 0 + (-2147483647 - 1); Write(x) END M.";
    CONSTANT_OF_LEAST_NUMBER, InlineAll(3, 15) =>
        "MODULE M;\nCONST \nVAR x: INTEGER;\nBEGIN x := 0 + (-2147483647 - 1); Write(x) END M.";
    CONSTANT_OF_LEAST_NUMBER, InlineAll(2, 4) => "NoName";
    "MODULE M; CONST t = 1 = 2; VAR b: BOOLEAN; BEGIN b := t END M.", InlineHere(0, 54) =>
        "MODULE M; CONST t = 1 = 2; VAR b: BOOLEAN; BEGIN b := FALSE END M.";
    "MODULE M; CONST c = 1; PROCEDURE P; CONST c = 2; BEGIN Write(c) END P; BEGIN Write(c) END M.",
        InlineHere(0, 61) =>
        "MODULE M; CONST c = 1; PROCEDURE P; CONST c = 2; BEGIN Write(2) END P; BEGIN Write(c) END M.";
    SHADOWED_TRUE, InlineHere(2, 46) => "Shadowed";
    SHADOWED_TRUE, InlineAll(1, 8) => "Shadowed";
    "MODULE M; CONST TRUE = 1 = 1; VAR b: BOOLEAN; BEGIN b := TRUE END M.", InlineAll(0, 58) => "Shadowed";
    "MODULE M; CONST TRUE = 1 = 1; VAR b: BOOLEAN; BEGIN b := TRUE END M.", InlineHere(0, 58) => "Shadowed";
    DEEPEST_NESTING, InlineHere(0, 151) => "TooDeep";
    DEEPEST_NESTING, InlineAll(0, 151) => "TooDeep";
    COMMENTED_CONSTANT, InlineAll(0, 16) => "CommentInside";
    COMMENTED_CONSTANT, InlineHere(0, 55) => "MODULE M; CONST c (* five *) = 5; (* on *) BEGIN Write(5) END M.";
    SEVERAL_CONSTANTS, InlineAll(0, 23) =>
        "MODULE M; CONST a = 9;  d = (-5); BEGIN Write(a - (-5)); Write((-5) DIV 3) END M.";
    "MODULE M; CONST c = 1; PROCEDURE P; CONST c = 2; PROCEDURE Q; BEGIN Write(c) END Q; BEGIN Q END P; \
        BEGIN Write(c) END M.", InlineAll(0, 42) =>
        "MODULE M; CONST c = 1; PROCEDURE P; CONST  PROCEDURE Q; BEGIN Write(2) END Q; BEGIN Q END P; BEGIN \
        Write(c) END M.";
    "MODULE M; CONST on = TRUE; PROCEDURE P; VAR TRUE: BOOLEAN; BEGIN END P; END M.", InlineAll(0, 16) =>
        "MODULE M; CONST  PROCEDURE P; VAR TRUE: BOOLEAN; BEGIN END P; END M.";
];

#[test]
fn constants_are_inlined(rt: HostRuntime) {
    let (text, wanted) = first_failing_row(rt.alloc(), INLINING_CASES, CheckMode::AskingQuestions);
    assert!(rt; text.is_empty(), "{wanted} in {text}");
}

const TWO_SPACES: Indent = Indent::Spaces(2);

/// Builds two rows from each line `TEXT, INDENT => FORMATTED;`. The second row states that
/// formatting the formatted text changes nothing.
macro_rules! formatting_rows {
    ($($text:expr, $indent:expr => $wanted:expr;)*) => {
        &[$(($text, FormatWithIndent($indent), $wanted), ($wanted, FormatWithIndent($indent), $wanted)),*]
    };
}

static FORMATTING_CASES: &[QuestionCase] = formatting_rows![
    "MODULE M;VAR x:INTEGER;BEGIN x:=-1;IF x<0 THEN Write(x)(* a (* b *) c *)END;WriteLn END M.(* end *)", TWO_SPACES =>
        "MODULE M;\nVAR\n  x: INTEGER;\nBEGIN\n  x := -1;\n  IF x < 0 THEN\n    Write(x) (* a (* b *) c *)\n  END;\
        \n  WriteLn\nEND M. (* end *)\n";
    " \r\n(* 😀 *)(* two *)\r\nMODULE M;VAR x:INTEGER;\r(* own line *)BEGIN x := (\r (* inside\r\
        \n*) 1) (* behind *) ;\n\n(* before END *)END M.\n\n (* last *)", TWO_SPACES =>
        "(* 😀 *) (* two *)\nMODULE M;\nVAR\n  x: INTEGER;\n(* own line *)\nBEGIN\n  x := (\n  (* inside\r\
        \n*) 1) (* behind *) ;\n(* before END *)\nEND M.\n(* last *)\n";
    "MODULE M;CONST a=1;b=-a;TYPE T=RECORD x,y:INTEGER END;PROCEDURE P(VAR t:T;n:INTEGER);BEGIN t.x:=-n+t.y;WHILE \
        ~(n=0)DO P(t,n-1)END END P;END M.", Indent::Tab =>
        "MODULE M;\nCONST\n\ta = 1;\n\tb = -a;\nTYPE\n\tT = RECORD x, y: INTEGER END;\
        \n\tPROCEDURE P(VAR t: T; n: INTEGER);\n\tBEGIN\n\t\tt.x := -n + t.y;\n\t\tWHILE ~(n = 0) DO\
        \n\t\t\tP(t, n - 1)\n\t\tEND\n\tEND P;\nEND M.\n";
    "MODULE M; BEGIN ; WriteLn; END M.", TWO_SPACES =>
        "MODULE M;\nBEGIN;\n  WriteLn;\nEND M.\n";
    REPEAT_COUNTDOWN, TWO_SPACES =>
        "MODULE M;\nVAR\n  n: INTEGER;\nBEGIN\n  Read(n);\n  REPEAT\n    Write(n);\n    n := n - 1\n  UNTIL n <= 0\
        \nEND M.\n";
    "MODULE M;VAR a:ARRAY 2 OF INTEGER;PROCEDURE A;PROCEDURE B();END B;BEGIN IF a[0]=1 THEN B() ELSIF a [1]=2 THEN \
        ELSE B;WHILE TRUE DO END END END A;BEGIN A END M.", TWO_SPACES =>
        "MODULE M;\nVAR\n  a: ARRAY 2 OF INTEGER;\n  PROCEDURE A;\n    PROCEDURE B();\n    END B;\n  BEGIN\
        \n    IF a[0] = 1 THEN\n      B()\n    ELSIF a[1] = 2 THEN\n    ELSE\n      B;\n      WHILE TRUE DO\
        \n      END\n    END\n  END A;\nBEGIN\n  A\nEND M.\n";
];

#[test]
fn texts_are_formatted_idempotently(rt: HostRuntime) {
    let (text, wanted) = first_failing_row(
        rt.alloc(),
        FORMATTING_CASES,
        CheckMode::AskingQuestions,
    );
    assert!(rt; text.is_empty(), "{wanted} of {text}");
}

//! Defines the questions in the tests' tables, such as the type of a declaration or the text after
//! a renaming. Finds the first row of a table whose answer isn't the expected one.

ghost use Rattle.std.specs.Prelude.{⊤};

use crate::declarations::{push_bound_ordinals, push_first_conflict, push_type};
use crate::edits::{push_edited_text, renamed_text_or_faults};
use crate::lowered_nodes::push_names_of_nodes;
use crate::names::{push_all_hovers, push_name_description};
use crate::runs::push_run;
use ob0_analysis::{Analysis, Diagnosis, Question, ask};
use ob0_scan::Span;
use ob0_text::{Indent, Position};
use ob0_types::WellTyped;
use std::alloc::{AllocError, Global};

/// A question about a well-typed module.
#[derive(Clone, Copy)]
pub enum TestQuestion {
    /// No question: only the faults of the text are reported.
    Faults,
    /// The type of the declaration with this ordinal.
    TypeOfDeclaration(usize),
    /// The byte range of the first name conflict that renaming the declaration with this ordinal to
    /// this new name would cause. The answer is `free` if there is no conflict.
    ConflictAfterRename(usize, &'static str),
    /// The ordinal of the declaration to which each occurrence would be bound if the declaration
    /// with this ordinal were renamed to this new name.
    OrdinalsAfterRename(usize, &'static str),
    /// The declaration or field to which the name at this byte offset refers, its uses, and its
    /// hover text.
    NameAtOffset(usize),
    /// The hover text of each name, in text order, each followed by a bar.
    AllHovers,
    /// The output and the end of a run on this input. The two numbers bound the open calls and the
    /// iterations of each loop.
    Run(&'static [i32], u32, u32),
    /// The names of nodes in the lowered body, as `push_names_of_nodes` appends them.
    NodeNames,
    /// The text after a renaming to this new name, or the refusal. The renamed name is at this line
    /// and character, both counted from 0.
    Rename(u64, u64, &'static str),
    InlineHere(u64, u64),
    InlineAll(u64, u64),
    FormatWithIndent(Indent),
}

/// A text, a question about it, and the expected answer. If the text isn't a well-typed module, its
/// faults are expected instead.
pub type QuestionCase = (&'static str, TestQuestion, &'static str);

/// Builds a table of rows, each written `TEXT, QUESTION => ANSWER;`, or of rows that are each
/// written `TEXT => FAULTS;`.
macro_rules! rows {
    ($($text:expr, $asked:expr => $wanted:expr;)*) => { &[$(($text, $asked, $wanted)),*] };
    ($($text:expr => $wanted:expr;)*) => { &[$(($text, Faults, $wanted)),*] };
}

pub(crate) use rows;

/// The way in which the rows of a table are checked.
#[derive(Clone, Copy, PartialEq, Eq)]
pub enum CheckMode {
    AskingQuestions,
    /// Each question is asked, and an allocation may fail. If the answer to a row isn't found
    /// because an allocation failed, the row is accepted.
    AllowingFailedAllocation,
    /// Each question is a renaming. `renaming_edits` makes the edits: it takes the analysis instead
    /// of the well-typed module.
    RenamingInAnalysis,
}

// Texts that several tables use.

pub const NESTED_PROCEDURES: &str =
    "MODULE M;\nVAR Q: INTEGER;\nPROCEDURE A;\nPROCEDURE P; BEGIN Q := 7 END P;\n\
    PROCEDURE R; BEGIN Write(2) END R;\nBEGIN P; R END A;\nBEGIN A; Write(Q) END M.";

pub const RECURSIVE_PROCEDURE: &str =
    "MODULE M;\nPROCEDURE F(n: INTEGER);\nBEGIN IF n > 0 THEN Write(n); F(n - 1) END END F;\nBEGIN F(2) END M.";

pub const FIELDS_OF_TWO_RECORDS: &str =
    "MODULE M;\nTYPE R = RECORD a, b: INTEGER END;\nVAR r: R; s: RECORD a: INTEGER END; a: INTEGER;\n\
    BEGIN r.a := 1; s.a := 2; a := r.a + s.a; Write(a) END M.";

pub const REPEAT_COUNTDOWN: &str =
    "MODULE M;\nVAR n: INTEGER;\nBEGIN Read(n); REPEAT Write(n); n := n - 1 UNTIL n <= 0 END M.";

impl Question for TestQuestion {
    type Answer = String;

    ghost answers = { λ _ _ _. ⊤ };

    fn answer(&self, alloc: Global, module: &WellTyped<'_>) -> Result<String, AllocError> {
        let mut out = String::new(alloc);
        push_answer(alloc, &mut out, module, *self)?;
        Ok(out)
    }
}

/// Appends the answer to a question about a well-typed module.
fn push_answer(
    alloc: Global,
    out: &mut String,
    module: &WellTyped<'_>,
    asked: TestQuestion,
) -> Result<(), AllocError> {
    match asked {
        TestQuestion::Faults => Ok(()),
        TestQuestion::TypeOfDeclaration(declaration) => push_type(out, module, declaration),
        TestQuestion::ConflictAfterRename(declaration, new) => push_first_conflict(
            alloc,
            out,
            module,
            declaration,
            new,
        ),
        TestQuestion::OrdinalsAfterRename(declaration, new) => push_bound_ordinals(
            alloc,
            out,
            module,
            declaration,
            new,
        ),
        TestQuestion::NameAtOffset(offset) => push_name_description(alloc, out, module, offset),
        TestQuestion::AllHovers => push_all_hovers(alloc, out, module),
        TestQuestion::NodeNames => push_names_of_nodes(alloc, out, module),
        TestQuestion::Run(input, calls, turns) => push_run(alloc, out, module, input, calls, turns),
        edit => push_edited_text(alloc, out, module, edit),
    }
}

/// Returns the answer to a row's question, or the faults if the row's text isn't a well-typed
/// module. (In a function that owns an analysis, each statement takes long to prove. So this
/// function only makes the analysis and passes it on.)
fn answer_for_row(
    alloc: Global,
    row: &QuestionCase,
    check_mode: CheckMode,
) -> Result<String, AllocError> {
    let analysis = Analysis::analyse_text(alloc, row.0)?;
    answer_or_faults(alloc, &analysis, &row.1, check_mode)
}

/// Returns the answer to a question, or the faults of a text that isn't a well-typed module.
fn answer_or_faults(
    alloc: Global,
    analysis: &Analysis,
    asked: &TestQuestion,
    check_mode: CheckMode,
) -> Result<String, AllocError> {
    if check_mode == CheckMode::RenamingInAnalysis {
        return renamed_text_or_faults(alloc, analysis, *asked);
    }
    match ask(alloc, analysis, asked)? {
        Some(answer) => Ok(answer),
        None => faults_of_analysis(alloc, analysis),
    }
}

/// Returns whether a row has its expected answer. If an allocation fails, returns whether
/// allocations may fail (`CheckMode::AllowingFailedAllocation`).
fn has_expected_answer(alloc: Global, row: &QuestionCase, check_mode: CheckMode) -> bool {
    match answer_for_row(alloc, row, check_mode) {
        Ok(found) => found.as_str() == row.2,
        Err(_refused) => check_mode == CheckMode::AllowingFailedAllocation,
    }
}

/// Returns the text and the expected answer of the first row whose answer isn't the expected one.
/// Returns two empty texts if there is no such row.
pub fn first_failing_row(
    alloc: Global,
    rows: &'static [QuestionCase],
    check_mode: CheckMode,
) -> (&'static str, &'static str) {
    for row in rows {
        if !has_expected_answer(alloc, row, check_mode) {
            return (row.0, row.2);
        }
    }
    ("", "")
}

/// Returns the position with this line and character, both counted from 0.
pub fn position_at(line: u64, character: u64) -> Position {
    Position { line, character }
}

/// Returns the faults of an analysed text, one after another, each as `push_fault` writes it. The
/// string is empty if the text has no faults.
pub fn faults_of_analysis(alloc: Global, analysis: &Analysis) -> Result<String, AllocError> {
    let faults = analysis.diagnoses(alloc)?;
    faults_as_text(alloc, faults.as_slice())
}

/// Returns a text with each fault's code and byte range. For a syntax fault, the text also has the
/// expected token.
fn faults_as_text(alloc: Global, faults: &[Diagnosis]) -> Result<String, AllocError> {
    let mut out = String::new(alloc);
    for fault in faults {
        push_fault(&mut out, fault)?;
    }
    Ok(out)
}

/// Appends a fault's code and byte range. For a syntax fault, also appends the expected token.
fn push_fault(out: &mut String, fault: &Diagnosis) -> Result<(), AllocError> {
    let (code, start, end) = (fault.code, fault.span.start, fault.span.end);
    let expected = if code == "Syntax" {
        fault.message.as_str()
    } else {
        ""
    };
    write!(out, "{code} {start}-{end}; {expected}")
}

/// Appends the text `before`, and then a number.
pub fn push_number(out: &mut String, before: &str, number: usize) -> Result<(), AllocError> {
    write!(out, "{before}{number}")
}

/// Appends the text `before`, and then the start and end of a span in bytes.
pub fn push_span(out: &mut String, before: &str, span: Span) -> Result<(), AllocError> {
    let (start, end) = (span.start, span.end);
    write!(out, "{before}{start}-{end}")
}

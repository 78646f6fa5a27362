//! Tests the nodes that statements are lowered to. A fused node replaces several nodes and has the
//! same effect, so no contract distinguishes them. Without fused nodes, programs would only be
//! slower.

use crate::test_questions::TestQuestion::NodeNames;
use crate::test_questions::{CheckMode, QuestionCase, first_failing_row, rows};
use ob0_run::lower;
use ob0_run_machine::code::{Instruction, Number, Truth};
use ob0_types::WellTyped;
use std::alloc::{AllocError, Global};
use std::process::Abort;

/// Appends the names of nodes in the lowered body of a module, each preceded by a blank. These are
/// the nodes of the body's statements. After a `StoreNumber`, `StoreNumberInVariable` or
/// `StoreTruth` comes the outermost node of the stored value. After an `If` or a `While` come the
/// outermost node of its condition, and the nodes of the statements directly in it.
pub fn push_names_of_nodes(
    alloc: Global,
    out: &mut String,
    module: &WellTyped<'_>,
) -> Result<(), AllocError> {
    let program = lower(alloc, module)?;
    for s in &program.code.body {
        push_names_of_statement_nodes(out, s)?;
    }
    Ok(())
}

fn push_blank_and_name(out: &mut String, name: &str) -> Result<(), AllocError> {
    out.push(' ')?;
    out.push_str(name)
}

fn push_names_of_statement_nodes(out: &mut String, s: &Instruction) -> Result<(), AllocError> {
    push_blank_and_name(out, name_of_statement(s))?;
    match s {
        Instruction::StoreNumber(_, n) => push_blank_and_name(out, name_of_number_node(n)),
        Instruction::StoreNumberInVariable(_, n) => push_blank_and_name(
            out,
            name_of_number_node(n),
        ),
        Instruction::StoreTruth(_, t) => push_blank_and_name(out, name_of_truth_node(t)),
        Instruction::If(i) => {
            push_blank_and_name(out, name_of_truth_node(&i.condition))?;
            push_names_of_inner_statements(out, i.body.as_slice())
        }
        Instruction::While(w) => {
            push_blank_and_name(out, name_of_truth_node(&w.condition))?;
            push_names_of_inner_statements(out, w.body.as_slice())
        }
        _ => Ok(()),
    }
}

fn push_names_of_inner_statements(
    out: &mut String,
    statements: &[Instruction],
) -> Result<(), AllocError> {
    for s in statements {
        push_blank_and_name(out, name_of_statement(s))?;
    }
    Ok(())
}

fn name_of_statement(s: &Instruction) -> &'static str {
    match s {
        Instruction::StoreNumber(_, _) => "StoreNumber",
        Instruction::StoreNumberInVariable(_, _) => "StoreNumberInVariable",
        Instruction::StoreChain(_, _) => "StoreChain",
        Instruction::Update(_, _) => "Update",
        Instruction::Increase(_, _) => "Increase",
        Instruction::StoreTruth(_, _) => "StoreTruth",
        Instruction::StoreConstantInElement(_, _) => "StoreConstantInElement",
        Instruction::If(_) => "If",
        Instruction::While(_) => "While",
        _ => "other",
    }
}

fn name_of_number_node(n: &Number) -> &'static str {
    match n {
        Number::Literal(_) => "Literal",
        Number::Variable(_) => "Variable",
        Number::Cell(_) => "Cell",
        Number::Negative(_) => "Negative",
        Number::Operation(_) => "Operation",
        Number::Chain(_) => "Chain",
    }
}

fn name_of_truth_node(t: &Truth) -> &'static str {
    match t {
        Truth::NegatedFlag(_) => "NegatedFlag",
        Truth::All(_) => "All",
        Truth::Any(_) => "Any",
        Truth::VariableLessThanLiteral(_, _) => "VariableLessThanLiteral",
        Truth::VariableComparedToLiteral(_, _, _) => "VariableComparedToLiteral",
        Truth::VariableComparedToVariable(_, _, _) => "VariableComparedToVariable",
        Truth::ElementComparedToVariable(_, _, _) => "ElementComparedToVariable",
        _ => "other",
    }
}

const WHILE_LOOPS: &str = "MODULE M;\nVAR i, j, m: INTEGER;\n\
    BEGIN WHILE j < 9 DO j := j + 1 END; WHILE i <= m DO j := 0; i := i + 2 END; WHILE j # 9 DO i := i + 1 END END M.";

const ARRAY_ELEMENTS: &str =
    "MODULE M;\nVAR a: ARRAY 9 OF INTEGER; on: ARRAY 9 OF BOOLEAN; i, m: INTEGER;\n\
    BEGIN on[i] := TRUE; IF a[i] < m THEN m := a[i] END; IF ~on[i] THEN a[i] := m END END M.";

const FIELD_ASSIGNMENTS: &str = "MODULE M;\nVAR r: RECORD f, g: INTEGER END;\n\
    BEGIN r.f := r.f * 2; r.g := r.f; r.g := r.f + r.g * 3; r.f := r.g + 1 END M.";

const AND_OR_CHAINS: &str = "MODULE M;\nVAR a, b, c: BOOLEAN;\n\
    BEGIN IF a & b & c THEN a := b END; IF a OR b OR c THEN WriteLn END; a := a & ~b & c END M.";

static NODE_NAME_CASES: &[QuestionCase] = rows![
    WHILE_LOOPS, NodeNames => " While VariableLessThanLiteral Increase While VariableComparedToVariable StoreNumberInVariable Increase \
        While VariableComparedToLiteral Increase";
    ARRAY_ELEMENTS, NodeNames => " StoreConstantInElement If ElementComparedToVariable StoreNumberInVariable If NegatedFlag StoreNumber";
    FIELD_ASSIGNMENTS, NodeNames => " Update StoreNumberInVariable Variable StoreChain StoreNumberInVariable Operation";
    AND_OR_CHAINS, NodeNames => " If All StoreTruth If Any other StoreTruth All";
];

fn all_node_name_cases() -> &'static [QuestionCase] {
    NODE_NAME_CASES
}

#[test]
fn statements_are_lowered_to_fused_nodes(rt: HostRuntime) {
    let (text, wanted) = first_failing_row(
        rt.alloc(),
        all_node_name_cases(),
        CheckMode::AskingQuestions,
    );
    assert!(rt; text.is_empty(), "{wanted} of {text}");
}

//! Lowers statements.
//!
//! Each loop visits the parts of a tree: statements, branches or arguments. Its invariant
//! (`SequenceMade`, `BranchesMade`, `ArgumentsMade`) is about the code so far, followed by any
//! correct code for the remaining parts. Together they are correct code for all parts. At the end
//! of the loop no part remains, so the code so far is correct for all of them. An empty statement
//! has no code, so there may be fewer instructions than statements.

ghost use Rattle.std.specs.Prelude.{◌≡◌, ◌++◌, IfOk, OnOk, option_map, option_to_list};
ghost use Rattle.ob0_tree.specs.View as view;
ghost use Rattle.ob0_tree.specs.View.{body_of, if_of, sequence_of_vec};
ghost use Rattle.ob0_scope_table.specs.LabelledTrees.{tree_with_labels};
ghost use Rattle.ob0_run_machine.specs.LoweredCodeViews.{sequence_of, statement_of};
ghost use Rattle.ob0_run_lowering.specs.LoweredBodies.{LowersBody, LowersOptionalStatement, LowersSequence, LowersStatement};

use crate::Scene;
use crate::lowered_assignments::lower_assignment;
use crate::lowered_calls::lower_call_statement;
use ob0_run_machine::code;
use ob0_tree::{If, Statement};
use std::alloc::{AllocError, Global};

/// Returns the code of a block's statements. The code is empty if the block has no BEGIN.
pub fn lower_body(
    alloc: Global,
    scene: &Scene<'_, '_, '_>,
    statements: &Option<Vec<Statement>>,
) -> Result<Vec<code::Instruction>, AllocError>
    ensures { IfOk result (λ made. LowersBody scene.now (sequence_of made.items)
        (tree_with_labels scene.now.resolved.now (body_of statements.now))) }
{
    match statements {
        None => Ok(Vec::new(alloc)),
        Some(statements) => lower_sequence(alloc, scene, statements),
    }
}

/// Adds the code of a statement at the end of a list. Does nothing for None, which is the code of
/// an empty statement.
fn push_optional_instruction(
    made: &mut Vec<code::Instruction>,
    next: Option<code::Instruction>,
) -> Result<(), AllocError>
    ensures { OnOk result (made.new.items ≡ made.old.items ++ option_to_list next) }
{
    match next {
        None => Ok(()),
        Some(next) => {
            made.push(next)?;
            Ok(())
        }
    }
}

/// Returns the code of a statement, or None if the statement is empty.
#[cycle(statements)]
fn lower_statement(
    alloc: Global,
    scene: &Scene<'_, '_, '_>,
    s: &Statement,
) -> Result<Option<code::Instruction>, AllocError>
    ensures { IfOk result (λ made. LowersOptionalStatement scene.now (option_map statement_of made)
        (tree_with_labels scene.now.resolved.now (view.statement_of s.now))) }
{
    match s {
        Statement::Empty => Ok(None),
        Statement::Assign(a) => Ok(Some(lower_assignment(alloc, scene, a)?)),
        Statement::Call(c) => Ok(Some(lower_call_statement(alloc, scene, c)?)),
        Statement::If(i) => Ok(Some(lower_if(alloc, scene, i)?)),
        Statement::While(w) => {
            let condition = scene.lower_to_truth(alloc, &w.condition)?;
            let body = lower_sequence(alloc, scene, &w.body)?;
            Ok(Some(code::Instruction::While(code::WhileLoop { condition, body })))
        }
        Statement::Repeat(r) => {
            let body = lower_sequence(alloc, scene, &r.body)?;
            let condition = scene.lower_to_truth(alloc, &r.condition)?;
            Ok(Some(code::Instruction::Repeat(code::RepeatLoop { body, condition })))
        }
    }
}

/// Returns the code of a list of statements, in order. Empty statements are left out.
#[cycle(statements)]
fn lower_sequence(
    alloc: Global,
    scene: &Scene<'_, '_, '_>,
    statements: &Vec<Statement>,
) -> Result<Vec<code::Instruction>, AllocError>
    ensures { IfOk result (λ made. LowersSequence scene.now (sequence_of made.items)
        (tree_with_labels scene.now.resolved.now (sequence_of_vec statements.now))) }
{
    let mut made = Vec::new(alloc);
    for s in statements {
        let next = lower_statement(alloc, scene, s)?;
        push_optional_instruction(&mut made, next)?;
    }
    Ok(made)
}

/// Returns the code of an IF with its ELSIF parts and its ELSE part.
#[cycle(statements)]
fn lower_if(
    alloc: Global,
    scene: &Scene<'_, '_, '_>,
    i: &If,
) -> Result<code::Instruction, AllocError>
    ensures { IfOk result (λ made. LowersStatement scene.now (statement_of made)
        (tree_with_labels scene.now.resolved.now (if_of i.now))) }
{
    let first = scene.lower_to_truth(alloc, &i.condition)?;
    let then = lower_sequence(alloc, scene, &i.then)?;
    let mut others = Vec::new(alloc);
    for part in &i.elsifs {
        let condition = scene.lower_to_truth(alloc, &part.condition)?;
        let body = lower_sequence(alloc, scene, &part.then)?;
        others.push(code::Branch { condition, body })?;
    }
    match &i.otherwise {
        None => Ok(code::Instruction::If(code::Conditional {
            condition: first,
            body: then,
            others,
            otherwise: Vec::new(alloc),
        })),
        Some(statements) => {
            let otherwise = lower_sequence(alloc, scene, statements)?;
            Ok(code::Instruction::If(code::Conditional {
                condition: first,
                body: then,
                others,
                otherwise,
            }))
        }
    }
}

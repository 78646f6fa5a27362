//! Lowers calls of declared procedures and of standard procedures. No well-typed module calls a
//! variable, or calls Read without an argument. Such calls are lowered to `WriteLine`, since some
//! instruction has to be returned.
//!
//! Arguments and parameters are visited in pairs, and the lengths of the two lists aren't compared.
//! If one list is longer, the call isn't well-typed, and nothing is claimed about its code. Read
//! needs the place of its argument (`locate_var_argument`), Write the value of its argument
//! (`lower_to_number`).

ghost use Rattle.std.specs.Prelude.{◌≡◌, IfOk, Some, map, option_map, slice_get};
ghost use Rattle.ob0_tree.specs.View.{arguments_of, call_of};
ghost use Rattle.ob0_tree.specs.Tree.{calls};
ghost use Rattle.ob0_language_names.specs.Names.{Label};
ghost use Rattle.ob0_types_table.specs.DeclarationTables.{shapes_of};
ghost use Rattle.ob0_types_table.specs.DeclarationTableView.{formal_parameter_view, standard_procedure_of};
ghost use Rattle.ob0_types_table.specs.Designators.{labelled_expressions};
ghost use Rattle.ob0_scope_table.specs.LabelledTrees.{tree_with_labels, label_at_token};
ghost use Rattle.ob0_language_types.specs.Expressions.{a_procedure, a_standard_procedure, read_procedure, write_procedure};
ghost use Rattle.ob0_run_machine.specs.LoweredCodeViews.{argument_of, statement_of};
ghost use Rattle.ob0_run_lowering.specs.Scenes.{object_of_label};
ghost use Rattle.ob0_run_lowering.specs.LoweredBodies.{LowersArguments, LowersStatement, arguments_or_empty_list};

use crate::Scene;
use ob0_run_machine::code;
use ob0_run_machine::code::{Argument, Instruction};
use ob0_tree::{Call, Expression};
use ob0_types_table::{FormalParameter, Object, StandardProcedure};
use std::alloc::{AllocError, Global};

/// Returns the code of a statement that calls a declared procedure or a standard procedure. If the
/// called name is neither, the code is `WriteLine`.
pub(crate) fn lower_call_statement(
    alloc: Global,
    scene: &Scene<'_, '_, '_>,
    c: &Call,
) -> Result<Instruction, AllocError>
    ensures { IfOk result (λ made. LowersStatement scene.now (statement_of made)
        (tree_with_labels scene.now.resolved.now (call_of c.now))) }
{
    match scene.object_at_token(c.procedure) {
        None => Ok(Instruction::WriteLine),
        Some(object) => match object {
            Object::Procedure(formals) => lower_procedure_call(alloc, scene, c, formals.as_slice()),
            Object::StandardProcedure(standard) => lower_standard_call(
                alloc,
                scene,
                *standard,
                &c.arguments,
            ),
            Object::TypeName(_) => Ok(Instruction::WriteLine),
            Object::Constant(_) => Ok(Instruction::WriteLine),
            Object::FaultyConstant => Ok(Instruction::WriteLine),
            Object::Variable(_) => Ok(Instruction::WriteLine),
        },
    }
}

/// Returns the code of a call of a declared procedure with the parameters `formals`.
fn lower_procedure_call(
    alloc: Global,
    scene: &Scene<'_, '_, '_>,
    c: &Call,
    formals: &[FormalParameter],
) -> Result<Instruction, AllocError>
    ensures { IfOk result (λ made. object_of_label scene.now.types.now
        (label_at_token scene.now.resolved.now c.now.procedure)
        ≡ Some (a_procedure (map (formal_parameter_view (shapes_of scene.now.types.now)) formals.now))
        → LowersStatement scene.now (statement_of made)
        (tree_with_labels scene.now.resolved.now (call_of c.now))) }
{
    let arguments = lower_arguments(alloc, scene, formals, &c.arguments)?;
    let target = scene.call_target_at_token(c.procedure);
    Ok(Instruction::Call(code::ProcedureCall {
        procedure: target.procedure,
        up: target.up,
        arguments,
    }))
}

/// Returns the code of a call's arguments, each according to its parameter. Returns an empty list
/// if the call has no argument list.
fn lower_arguments(
    alloc: Global,
    scene: &Scene<'_, '_, '_>,
    formals: &[FormalParameter],
    given: &Option<Vec<Expression>>,
) -> Result<Vec<Argument>, AllocError>
    ensures { IfOk result (λ made. LowersArguments scene.now
        (map (formal_parameter_view (shapes_of scene.now.types.now)) formals.now) (map argument_of made.items)
        (labelled_expressions scene.now.resolved.now (arguments_or_empty_list given.now))) }
{
    match given {
        None => Ok(Vec::new(alloc)),
        Some(given) => lower_argument_list(alloc, scene, formals, given),
    }
}

fn lower_argument_list(
    alloc: Global,
    scene: &Scene<'_, '_, '_>,
    formals: &[FormalParameter],
    given: &Vec<Expression>,
) -> Result<Vec<Argument>, AllocError>
    ensures { IfOk result (λ made. LowersArguments scene.now
        (map (formal_parameter_view (shapes_of scene.now.types.now)) formals.now) (map argument_of made.items)
        (labelled_expressions scene.now.resolved.now given.now.items)) }
{
    let mut made = Vec::new(alloc);
    for (formal, e) in formals.iter().zip(given) {
        let argument = scene.lower_to_argument(alloc, formal, e)?;
        made.push(argument)?;
    }
    Ok(made)
}

/// Returns the first argument of a call, or None if the call has no arguments.
fn first_argument(given: &Option<Vec<Expression>>) -> Option<&Expression>
    ensures { option_map (λ e. e.now) result ≡ slice_get (arguments_or_empty_list given.now) 0 }
{
    match given {
        None => None,
        Some(given) => given.first(),
    }
}

/// Returns the code of a call of a standard procedure with the arguments `given`.
fn lower_standard_call(
    alloc: Global,
    scene: &Scene<'_, '_, '_>,
    standard: StandardProcedure,
    given: &Option<Vec<Expression>>,
) -> Result<Instruction, AllocError>
    ensures { IfOk result (λ made. (x : Label)
        → object_of_label scene.now.types.now x ≡ Some (a_standard_procedure (standard_procedure_of standard))
        → LowersStatement scene.now (statement_of made)
        (calls x (tree_with_labels scene.now.resolved.now (arguments_of given.now)))) }
{
    match standard {
        StandardProcedure::Read => lower_read(alloc, scene, given),
        StandardProcedure::Write => lower_write(alloc, scene, given),
        StandardProcedure::WriteLn => Ok(Instruction::WriteLine),
    }
}

fn lower_read(
    alloc: Global,
    scene: &Scene<'_, '_, '_>,
    given: &Option<Vec<Expression>>,
) -> Result<Instruction, AllocError>
    ensures { IfOk result (λ made. (x : Label)
        → object_of_label scene.now.types.now x ≡ Some (a_standard_procedure read_procedure)
        → LowersStatement scene.now (statement_of made)
        (calls x (tree_with_labels scene.now.resolved.now (arguments_of given.now)))) }
{
    match first_argument(given) {
        None => Ok(Instruction::WriteLine),
        Some(e) => {
            let at = scene.locate_var_argument(alloc, e)?;
            Ok(Instruction::Read(at.place))
        }
    }
}

fn lower_write(
    alloc: Global,
    scene: &Scene<'_, '_, '_>,
    given: &Option<Vec<Expression>>,
) -> Result<Instruction, AllocError>
    ensures { IfOk result (λ made. (x : Label)
        → object_of_label scene.now.types.now x ≡ Some (a_standard_procedure write_procedure)
        → LowersStatement scene.now (statement_of made)
        (calls x (tree_with_labels scene.now.resolved.now (arguments_of given.now)))) }
{
    match first_argument(given) {
        None => Ok(Instruction::WriteLine),
        Some(e) => {
            let n = scene.lower_to_number(alloc, e)?;
            Ok(Instruction::Write(n))
        }
    }
}

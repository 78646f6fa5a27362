//! Lowers assignments. In a well-typed module the right side of an assignment has code. If the
//! right side has no code, the assignment is lowered to `WriteLine`, since some instruction has to
//! be returned.

ghost use Rattle.std.specs.Prelude.{◌≡◌, IfOk};
ghost use Rattle.ob0_tree.specs.View.{assignment_of};
ghost use Rattle.ob0_scope_table.specs.LabelledTrees.{tree_with_labels};
ghost use Rattle.ob0_run_machine.specs.LoweredSyntax as machine;
ghost use Rattle.ob0_run_machine.specs.LoweredCodeViews.{operation_with_link, number_of, operation_of, place_of, statement_of, truth_of, variable_of};
ghost use Rattle.ob0_run_lowering.specs.LoweredBodies.{LowersStatement};

use crate::{LoweredExpression, Scene};
use ob0_run_machine::code::{
    ChainLink, FirstOperand, Instruction, Number, Operation, Place, Truth, Variable,
};
use ob0_tree::Assignment;
use std::alloc::{AllocError, Global};

/// Returns the code that assigns a number to a place.
fn number_assignment(alloc: Global, place: Place, n: Number) -> Result<Instruction, AllocError>
    ensures { IfOk result
        (λ made. statement_of made ≡ machine.stores_number (place_of place) (number_of n)) }
{
    match place {
        Place::Variable(variable) => variable_assignment(alloc, variable, n),
        other => Ok(Instruction::StoreNumber(other, n)),
    }
}

/// Returns the code that assigns a number to a variable.
fn variable_assignment(
    alloc: Global,
    variable: Variable,
    n: Number,
) -> Result<Instruction, AllocError>
    ensures { IfOk result
        (λ made. statement_of made ≡ machine.stores_number (variable_of variable) (number_of n)) }
{
    match n {
        Number::Operation(operation) => {
            operation_assignment(alloc, variable, Box::into_inner(operation))
        }
        Number::Chain(chain) => Ok(Instruction::StoreChain(variable, chain)),
        other => Ok(Instruction::StoreNumberInVariable(variable, other)),
    }
}

/// Returns the code that applies a link to a variable's value, and assigns the result to the same
/// variable.
fn update_assignment(variable: Variable, link: ChainLink) -> Instruction
    ensures { statement_of result ≡ machine.stores_number (variable_of variable)
        (operation_with_link link (machine.cell (variable_of variable))) }
{
    match link {
        ChainLink::SumWithLiteral(n) => Instruction::Increase(variable, n),
        link => Instruction::Update(variable, link),
    }
}

/// Returns the code that assigns the result of an operation to a variable. If the first operand is
/// the same variable, the code is an `Update` or an `Increase`.
fn operation_assignment(
    alloc: Global,
    variable: Variable,
    operation: Operation,
) -> Result<Instruction, AllocError>
    ensures { IfOk result (λ made. statement_of made
        ≡ machine.stores_number (variable_of variable) (operation_of operation)) }
{
    let Operation { first, link } = operation;
    match first {
        FirstOperand::Variable(left) => {
            if left == variable {
                return Ok(update_assignment(variable, link));
            }
            let operation = Operation {
                first: FirstOperand::Variable(left),
                link,
            };
            let n = Number::Operation(Box::new(alloc, operation)?);
            Ok(Instruction::StoreNumberInVariable(variable, n))
        }
        first => {
            let n = Number::Operation(Box::new(alloc, Operation { first, link })?);
            Ok(Instruction::StoreNumberInVariable(variable, n))
        }
    }
}

/// Returns the code that assigns TRUE or FALSE to a place. If the place is an element whose array
/// and index are variables, the code is a single node.
fn truth_constant_assignment(place: Place, b: bool) -> Instruction
    ensures { statement_of result ≡ machine.stores_truth (place_of place) (machine.constant b) }
{
    match place {
        Place::VariableElement(row) => Instruction::StoreConstantInElement(row, b),
        other => Instruction::StoreTruth(other, Truth::Constant(b)),
    }
}

/// Returns the code that assigns a truth value to a place.
fn truth_assignment(place: Place, t: Truth) -> Instruction
    ensures { statement_of result ≡ machine.stores_truth (place_of place) (truth_of t) }
{
    match t {
        Truth::Constant(b) => truth_constant_assignment(place, b),
        other => Instruction::StoreTruth(place, other),
    }
}

/// Returns the code of the assignment `a`. The assigned value is a number, a truth, or the cells of
/// an array or a record.
pub(crate) fn lower_assignment(
    alloc: Global,
    scene: &Scene<'_, '_, '_>,
    a: &Assignment,
) -> Result<Instruction, AllocError>
    ensures { IfOk result (λ made. LowersStatement scene.now (statement_of made)
        (tree_with_labels scene.now.resolved.now (assignment_of a.now))) }
{
    let target = scene.lower_to_place(alloc, &a.target)?;
    match scene.lower_to_code(alloc, &a.value)? {
        LoweredExpression::Number(n) => number_assignment(alloc, target.place, n),
        LoweredExpression::Truth(t) => Ok(truth_assignment(target.place, t)),
        LoweredExpression::Block(from, cells) => Ok(Instruction::Copy(target.place, from, cells)),
        LoweredExpression::NoCode => Ok(Instruction::WriteLine),
    }
}

//! Makes chains of operations. A second operation on the result of the first makes a `Chain`. A
//! third operand of `&` makes an `All`, a third operand of OR an `Any`.
//!
//! In `v + i * j` the sum becomes the last operation of the chain that begins with `i * j`.
//! According to `LoweredCodeViews`, these nodes have the same meaning as nested pairs, so no other module has
//! to distinguish chains from nested pairs. The same holds for the forms of places, negations and
//! assignments that the machine evaluates in fewer steps.
//!
//! Clauses about meaning don't tell chains from nested pairs. So separate clauses bound how deep
//! conjunctions and disjunctions are nested in left operands (`specs/TruthDepths`). Adding an
//! operand makes a conjunction no deeper (`WholeIsNoDeeperThanLeft`). If the left operand isn't a
//! conjunction, the result has depth 1. So the first operand of a conjunction is never a
//! conjunction (`IsNotNestedOnLeft`). The same holds for disjunctions. `conjunction_of_two_truths` and
//! `disjunction_of_two_truths` list each case of the left operand, since a proof knows nothing about an
//! operand in a wildcard arm.

ghost use Rattle.std.specs.Prelude.{◌≡◌, ◌≤◌, IfOk, IfSome, max, suc};
ghost use Rattle.ob0_run_machine.specs.LoweredSyntax as machine;
ghost use Rattle.ob0_run_machine.specs.LoweredCodeViews.{conjunction_of, disjunction_of, operation_with_link, chain_of, first_operand_of, number_of, operation_of, operator_of, truth_of, variable_of};
ghost use Rattle.ob0_run_lowering.specs.TruthDepths.{conjunction_depth, disjunction_depth};
ghost use Rattle.ob0_run_machine.specs.declared.code.TruthList.{out-TruthList};

use ob0_run_machine::code::{
    Chain, ChainLink, FirstOperand, Number, Operation, Operator, Truth, TruthList, TruthPair,
    Variable,
};
use std::alloc::{AllocError, Global};

/// Returns the link that applies an operator to the result so far, with the number `right` as the
/// right operand.
fn link_with_right_operand(operator: Operator, right: Number) -> ChainLink
    ensures { (left : machine.Number)
        → operation_with_link result left ≡ machine.operation (operator_of operator) left (number_of right) }
{
    match operator {
        Operator::Sum => match right {
            Number::Literal(n) => ChainLink::SumWithLiteral(n),
            Number::Variable(v) => ChainLink::SumWithVariable(v),
            other => ChainLink::Other(Operator::Sum, other),
        },
        Operator::Difference => match right {
            Number::Literal(n) => ChainLink::DifferenceWithLiteral(n),
            Number::Variable(v) => ChainLink::DifferenceWithVariable(v),
            other => ChainLink::Other(Operator::Difference, other),
        },
        Operator::Product => match right {
            Number::Literal(n) => ChainLink::ProductWithLiteral(n),
            Number::Variable(v) => ChainLink::ProductWithVariable(v),
            other => ChainLink::Other(Operator::Product, other),
        },
        Operator::Quotient => match right {
            Number::Literal(n) => ChainLink::QuotientWithLiteral(n),
            Number::Variable(v) => ChainLink::QuotientWithVariable(v),
            other => ChainLink::Other(Operator::Quotient, other),
        },
        Operator::Remainder => match right {
            Number::Literal(n) => ChainLink::RemainderWithLiteral(n),
            Number::Variable(v) => ChainLink::RemainderWithVariable(v),
            other => ChainLink::Other(Operator::Remainder, other),
        },
    }
}

/// Returns the link that applies an operator with a variable as the left operand and the result so
/// far as the right operand. Returns None for a quotient or a remainder, which have no such link.
fn link_with_left_variable(operator: Operator, variable: Variable) -> Option<ChainLink>
    ensures { IfSome result (λ l. (right : machine.Number) → operation_with_link l right
        ≡ machine.operation (operator_of operator) (machine.cell (variable_of variable)) right) }
{
    match operator {
        Operator::Sum => Some(ChainLink::SumWithLeftVariable(variable)),
        Operator::Difference => Some(ChainLink::DifferenceWithLeftVariable(variable)),
        Operator::Product => Some(ChainLink::ProductWithLeftVariable(variable)),
        Operator::Quotient => None,
        Operator::Remainder => None,
    }
}

/// Returns the number that is a single operation: the link applied to the first operand.
fn single_operation(
    alloc: Global,
    first: FirstOperand,
    link: ChainLink,
) -> Result<Number, AllocError>
    ensures { IfOk result (λ n. number_of n ≡ operation_with_link link (first_operand_of first)) }
{
    Ok(Number::Operation(Box::new(alloc, Operation { first, link })?))
}

/// Returns the chain that applies a second link, `next`, to the result of an operation.
fn chain_of_two_operations(
    alloc: Global,
    operation: Operation,
    next: ChainLink,
) -> Result<Number, AllocError>
    ensures { IfOk result (λ n. number_of n ≡ operation_with_link next (operation_of operation)) }
{
    let Operation { first, link } = operation;
    let mut rest = Vec::new(alloc);
    rest.push(link)?;
    rest.push(next)?;
    Ok(Number::Chain(Box::new(alloc, Chain { first, rest })?))
}

/// Returns a chain with one more link at its end.
fn extended_chain(alloc: Global, chain: Chain, link: ChainLink) -> Result<Number, AllocError>
    ensures { IfOk result (λ n. number_of n ≡ operation_with_link link (chain_of chain)) }
{
    let Chain { first, mut rest } = chain;
    rest.push(link)?;
    Ok(Number::Chain(Box::new(alloc, Chain { first, rest })?))
}

/// Returns the operation with a variable as the left operand and the number `right` as the right
/// operand. The result is a single operation, even if `right` is a chain.
fn single_operation_on_variable(
    alloc: Global,
    operator: Operator,
    variable: Variable,
    right: Number,
) -> Result<Number, AllocError>
    ensures { IfOk result (λ n. number_of n ≡ machine.operation (operator_of operator)
        (machine.cell (variable_of variable)) (number_of right)) }
{
    single_operation(
        alloc,
        FirstOperand::Variable(variable),
        link_with_right_operand(operator, right),
    )
}

/// Returns the operation with a variable as the left operand and the number `right` as the right
/// operand. A sum, a difference or a product becomes one chain if `right` is an operation or a
/// chain. This chain evaluates the variable last. The variable has the same value then, since the
/// evaluation of `right` changes no variable. In all other cases, the result is a single operation.
fn operation_on_variable(
    alloc: Global,
    operator: Operator,
    variable: Variable,
    right: Number,
) -> Result<Number, AllocError>
    ensures { IfOk result (λ n. number_of n ≡ machine.operation (operator_of operator)
        (machine.cell (variable_of variable)) (number_of right)) }
{
    let Some(link) = link_with_left_variable(operator, variable) else {
        return single_operation_on_variable(alloc, operator, variable, right);
    };
    match right {
        Number::Chain(chain) => extended_chain(alloc, Box::into_inner(chain), link),
        Number::Operation(operation) => chain_of_two_operations(
            alloc,
            Box::into_inner(operation),
            link,
        ),
        other => single_operation_on_variable(alloc, operator, variable, other),
    }
}

/// Returns the operation on two numbers. If the left number is an operation or a chain, the result
/// is one chain. If the left number is a variable, the result is made by `operation_on_variable`.
pub(crate) fn operation_on_numbers(
    alloc: Global,
    operator: Operator,
    left: Number,
    right: Number,
) -> Result<Number, AllocError>
    ensures { IfOk result (λ n. number_of n
        ≡ machine.operation (operator_of operator) (number_of left) (number_of right)) }
{
    match left {
        Number::Variable(v) => operation_on_variable(alloc, operator, v, right),
        Number::Chain(chain) => extended_chain(
            alloc,
            Box::into_inner(chain),
            link_with_right_operand(operator, right),
        ),
        Number::Operation(operation) => {
            chain_of_two_operations(
                alloc,
                Box::into_inner(operation),
                link_with_right_operand(operator, right),
            )
        }
        Number::Literal(n) => single_operation(
            alloc,
            FirstOperand::Literal(n),
            link_with_right_operand(operator, right),
        ),
        Number::Cell(place) => single_operation(
            alloc,
            FirstOperand::Cell(place),
            link_with_right_operand(operator, right),
        ),
        Number::Negative(number) => {
            single_operation(
                alloc,
                FirstOperand::Negative(number),
                link_with_right_operand(operator, right),
            )
        }
    }
}

/// Returns the conjunction of several truths, with the truth `right` added at the end.
fn extended_conjunction(
    alloc: Global,
    several: TruthList,
    right: Truth,
) -> Result<Truth, AllocError>
    ensures meaning { IfOk result
        (λ t. truth_of t ≡ machine.both (conjunction_of several) (truth_of right)) }
    ensures depth { IfOk result (λ t. conjunction_depth t
        ≡ suc (conjunction_depth (out-TruthList several).first)) }
    ensures other { IfOk result (λ t. disjunction_depth t ≡ 0) }
{
    let TruthList { first, mut rest } = several;
    rest.push(right)?;
    let several = Box::new(alloc, TruthList { first, rest })?;
    Ok(Truth::All(several))
}

/// Returns the disjunction of several truths, with the truth `right` added at the end.
fn extended_disjunction(
    alloc: Global,
    several: TruthList,
    right: Truth,
) -> Result<Truth, AllocError>
    ensures meaning { IfOk result
        (λ t. truth_of t ≡ machine.either (disjunction_of several) (truth_of right)) }
    ensures depth { IfOk result (λ t. disjunction_depth t
        ≡ suc (disjunction_depth (out-TruthList several).first)) }
    ensures other { IfOk result (λ t. conjunction_depth t ≡ 0) }
{
    let TruthList { first, mut rest } = several;
    rest.push(right)?;
    let several = Box::new(alloc, TruthList { first, rest })?;
    Ok(Truth::Any(several))
}

/// Returns a conjunction of three truths.
fn conjunction_of_three_truths(
    alloc: Global,
    first: Truth,
    second: Truth,
    third: Truth,
) -> Result<Truth, AllocError>
    ensures meaning { IfOk result (λ t. truth_of t
        ≡ machine.both (machine.both (truth_of first) (truth_of second)) (truth_of third)) }
    ensures depth { IfOk result (λ t. conjunction_depth t ≡ suc (conjunction_depth first)) }
    ensures other { IfOk result (λ t. disjunction_depth t ≡ 0) }
{
    let mut rest = Vec::new(alloc);
    rest.push(second)?;
    extended_conjunction(alloc, TruthList { first, rest }, third)
}

/// Returns a disjunction of three truths.
fn disjunction_of_three_truths(
    alloc: Global,
    first: Truth,
    second: Truth,
    third: Truth,
) -> Result<Truth, AllocError>
    ensures meaning { IfOk result (λ t. truth_of t
        ≡ machine.either (machine.either (truth_of first) (truth_of second)) (truth_of third)) }
    ensures depth { IfOk result (λ t. disjunction_depth t ≡ suc (disjunction_depth first)) }
    ensures other { IfOk result (λ t. conjunction_depth t ≡ 0) }
{
    let mut rest = Vec::new(alloc);
    rest.push(second)?;
    extended_disjunction(alloc, TruthList { first, rest }, third)
}

/// Returns the negation of a truth. If the truth is a flag, the negation is a single node
/// (`NegatedFlag`).
pub(crate) fn negation(alloc: Global, truth: Truth) -> Result<Truth, AllocError>
    ensures meaning { IfOk result (λ t. truth_of t ≡ machine.negation (truth_of truth)) }
    ensures flat { IfOk result (λ t. (conjunction_depth t ≡ 0) × (disjunction_depth t ≡ 0)) }
{
    match truth {
        Truth::Flag(place) => Ok(Truth::NegatedFlag(place)),
        other => Ok(Truth::Negation(Box::new(alloc, other)?)),
    }
}

fn conjunction_pair(alloc: Global, left: Truth, right: Truth) -> Result<Truth, AllocError>
    ensures meaning { IfOk result
        (λ t. truth_of t ≡ machine.both (truth_of left) (truth_of right)) }
    ensures depth { IfOk result (λ t. conjunction_depth t ≡ suc (conjunction_depth left)) }
    ensures other { IfOk result (λ t. disjunction_depth t ≡ 0) }
{
    Ok(Truth::Both(Box::new(alloc, TruthPair { left, right })?))
}

fn disjunction_pair(alloc: Global, left: Truth, right: Truth) -> Result<Truth, AllocError>
    ensures meaning { IfOk result
        (λ t. truth_of t ≡ machine.either (truth_of left) (truth_of right)) }
    ensures depth { IfOk result (λ t. disjunction_depth t ≡ suc (disjunction_depth left)) }
    ensures other { IfOk result (λ t. conjunction_depth t ≡ 0) }
{
    Ok(Truth::Either(Box::new(alloc, TruthPair { left, right })?))
}

/// Returns the conjunction of two truths. If the left truth is a conjunction, the right truth is
/// added at its end.
pub(crate) fn conjunction_of_two_truths(
    alloc: Global,
    left: Truth,
    right: Truth,
) -> Result<Truth, AllocError>
    ensures meaning { IfOk result
        (λ t. truth_of t ≡ machine.both (truth_of left) (truth_of right)) }
    ensures flat { IfOk result (λ t. conjunction_depth t ≤ max 1 (conjunction_depth left)) }
    ensures other { IfOk result (λ t. disjunction_depth t ≡ 0) }
{
    match left {
        Truth::All(several) => extended_conjunction(alloc, Box::into_inner(several), right),
        Truth::Both(truths) => {
            let TruthPair {
                left,
                right: second,
            } = Box::into_inner(truths);
            conjunction_of_three_truths(alloc, left, second, right)
        }
        Truth::Constant(b) => conjunction_pair(alloc, Truth::Constant(b), right),
        Truth::Flag(place) => conjunction_pair(alloc, Truth::Flag(place), right),
        Truth::NegatedFlag(place) => conjunction_pair(alloc, Truth::NegatedFlag(place), right),
        Truth::Negation(truth) => conjunction_pair(alloc, Truth::Negation(truth), right),
        Truth::Either(truths) => conjunction_pair(alloc, Truth::Either(truths), right),
        Truth::Any(several) => conjunction_pair(alloc, Truth::Any(several), right),
        Truth::NumberComparison(relation, operands) => conjunction_pair(
            alloc,
            Truth::NumberComparison(relation, operands),
            right,
        ),
        Truth::VariableLessThanLiteral(variable, n) => conjunction_pair(
            alloc,
            Truth::VariableLessThanLiteral(variable, n),
            right,
        ),
        Truth::VariableComparedToLiteral(relation, variable, n) => conjunction_pair(
            alloc,
            Truth::VariableComparedToLiteral(relation, variable, n),
            right,
        ),
        Truth::VariableComparedToVariable(relation, variable, other) => conjunction_pair(
            alloc,
            Truth::VariableComparedToVariable(relation, variable, other),
            right,
        ),
        Truth::ElementComparedToVariable(relation, row, variable) => conjunction_pair(
            alloc,
            Truth::ElementComparedToVariable(relation, row, variable),
            right,
        ),
        Truth::Same(truths) => conjunction_pair(alloc, Truth::Same(truths), right),
        Truth::Different(truths) => conjunction_pair(alloc, Truth::Different(truths), right),
    }
}

/// Returns the disjunction of two truths. If the left truth is a disjunction, the right truth is
/// added at its end.
pub(crate) fn disjunction_of_two_truths(
    alloc: Global,
    left: Truth,
    right: Truth,
) -> Result<Truth, AllocError>
    ensures meaning { IfOk result
        (λ t. truth_of t ≡ machine.either (truth_of left) (truth_of right)) }
    ensures flat { IfOk result (λ t. disjunction_depth t ≤ max 1 (disjunction_depth left)) }
    ensures other { IfOk result (λ t. conjunction_depth t ≡ 0) }
{
    match left {
        Truth::Any(several) => extended_disjunction(alloc, Box::into_inner(several), right),
        Truth::Either(truths) => {
            let TruthPair {
                left,
                right: second,
            } = Box::into_inner(truths);
            disjunction_of_three_truths(alloc, left, second, right)
        }
        Truth::Constant(b) => disjunction_pair(alloc, Truth::Constant(b), right),
        Truth::Flag(place) => disjunction_pair(alloc, Truth::Flag(place), right),
        Truth::NegatedFlag(place) => disjunction_pair(alloc, Truth::NegatedFlag(place), right),
        Truth::Negation(truth) => disjunction_pair(alloc, Truth::Negation(truth), right),
        Truth::Both(truths) => disjunction_pair(alloc, Truth::Both(truths), right),
        Truth::All(several) => disjunction_pair(alloc, Truth::All(several), right),
        Truth::NumberComparison(relation, operands) => disjunction_pair(
            alloc,
            Truth::NumberComparison(relation, operands),
            right,
        ),
        Truth::VariableLessThanLiteral(variable, n) => disjunction_pair(
            alloc,
            Truth::VariableLessThanLiteral(variable, n),
            right,
        ),
        Truth::VariableComparedToLiteral(relation, variable, n) => disjunction_pair(
            alloc,
            Truth::VariableComparedToLiteral(relation, variable, n),
            right,
        ),
        Truth::VariableComparedToVariable(relation, variable, other) => disjunction_pair(
            alloc,
            Truth::VariableComparedToVariable(relation, variable, other),
            right,
        ),
        Truth::ElementComparedToVariable(relation, row, variable) => disjunction_pair(
            alloc,
            Truth::ElementComparedToVariable(relation, row, variable),
            right,
        ),
        Truth::Same(truths) => disjunction_pair(alloc, Truth::Same(truths), right),
        Truth::Different(truths) => disjunction_pair(alloc, Truth::Different(truths), right),
    }
}

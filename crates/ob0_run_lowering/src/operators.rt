//! Makes the code of an operation from the code of its operands.

ghost use Rattle.std.specs.Prelude.{◌≡◌, IfOk, Some};
ghost use Rattle.ob0_tree.specs.declared.tree.Sign.TheVariants as signs;
ghost use Rattle.ob0_run_machine.specs.LoweredSyntax as machine;
ghost use Rattle.ob0_run_machine.specs.LoweredCodeViews.{number_of, operator_of, truth_of};
ghost use Rattle.ob0_run_cells.specs.LoweredExpressions.{comparator_of_relation};
ghost use Rattle.ob0_run_machine.specs.LoweredCodeViews as view;
ghost use Rattle.ob0_run_lowering.specs.OperationCodes as codes;
ghost use Rattle.ob0_run_lowering.specs.CodeParts.{number_in_code, truth_in_code};
ghost use Rattle.ob0_run_lowering.specs.TruthDepths.{WholeIsNoDeeperThanLeft, IsNotNestedOnLeft, conjunction_depth, disjunction_depth};
ghost use Rattle.ob0_run_lowering.specs.TreeCodes.{expression_code_of};

use crate::lowered_expression::LoweredExpression;
use crate::operation_chains::{
    conjunction_of_two_truths, disjunction_of_two_truths, negation, operation_on_numbers,
};
use ob0_run_machine::code;
use ob0_run_machine::code::{
    Number, NumberPair, Operator, Place, Truth, TruthPair, Variable, VariableElement,
};
use ob0_tree::{AddOperator, MultiplyOperator, Relation, Sign};
use std::alloc::{AllocError, Global};

/// Returns an operand's code if this code is a number, otherwise None.
fn number_in_code(operand: LoweredExpression) -> Option<Number>
    ensures { result ≡ number_in_code operand }
{
    match operand {
        LoweredExpression::Number(number) => Some(number),
        LoweredExpression::Truth(_) => None,
        LoweredExpression::Block(_, _) => None,
        LoweredExpression::NoCode => None,
    }
}

/// Returns an operand's code if this code is a truth, otherwise None.
fn truth_in_code(operand: LoweredExpression) -> Option<Truth>
    ensures { result ≡ truth_in_code operand }
{
    match operand {
        LoweredExpression::Truth(truth) => Some(truth),
        LoweredExpression::Number(_) => None,
        LoweredExpression::Block(_, _) => None,
        LoweredExpression::NoCode => None,
    }
}

fn lower_number_operation(
    alloc: Global,
    operator: Operator,
    left: LoweredExpression,
    right: LoweredExpression,
) -> Result<LoweredExpression, AllocError>
    ensures code { IfOk result
        (λ l. expression_code_of l ≡ codes.number_operation_code (operator_of operator) (expression_code_of left) (expression_code_of right)) }
    ensures flat { IfOk result (WholeIsNoDeeperThanLeft left) }
{
    let Some(first) = number_in_code(left) else {
        return Ok(LoweredExpression::NoCode);
    };
    let Some(second) = number_in_code(right) else {
        return Ok(LoweredExpression::NoCode);
    };
    let number = operation_on_numbers(alloc, operator, first, second)?;
    Ok(LoweredExpression::Number(number))
}

fn lower_conjunction(
    alloc: Global,
    left: LoweredExpression,
    right: LoweredExpression,
) -> Result<LoweredExpression, AllocError>
    ensures code { IfOk result
        (λ l. expression_code_of l ≡ codes.truth_operation_code machine.both (expression_code_of left) (expression_code_of right)) }
    ensures flat { IfOk result (WholeIsNoDeeperThanLeft left) }
{
    let Some(first) = truth_in_code(left) else {
        return Ok(LoweredExpression::NoCode);
    };
    let Some(second) = truth_in_code(right) else {
        return Ok(LoweredExpression::NoCode);
    };
    let truth = conjunction_of_two_truths(alloc, first, second)?;
    Ok(LoweredExpression::Truth(truth))
}

fn lower_disjunction(
    alloc: Global,
    left: LoweredExpression,
    right: LoweredExpression,
) -> Result<LoweredExpression, AllocError>
    ensures code { IfOk result
        (λ l. expression_code_of l ≡ codes.truth_operation_code machine.either (expression_code_of left) (expression_code_of right)) }
    ensures flat { IfOk result (WholeIsNoDeeperThanLeft left) }
{
    let Some(first) = truth_in_code(left) else {
        return Ok(LoweredExpression::NoCode);
    };
    let Some(second) = truth_in_code(right) else {
        return Ok(LoweredExpression::NoCode);
    };
    let truth = disjunction_of_two_truths(alloc, first, second)?;
    Ok(LoweredExpression::Truth(truth))
}

pub(crate) fn lower_addition(
    alloc: Global,
    operator: AddOperator,
    left: LoweredExpression,
    right: LoweredExpression,
) -> Result<LoweredExpression, AllocError>
    ensures code { IfOk result
        (λ l. expression_code_of l ≡ codes.addition_code operator (expression_code_of left) (expression_code_of right)) }
    ensures flat { IfOk result (WholeIsNoDeeperThanLeft left) }
{
    match operator {
        AddOperator::Add => lower_number_operation(alloc, Operator::Sum, left, right),
        AddOperator::Subtract => lower_number_operation(alloc, Operator::Difference, left, right),
        AddOperator::Or => lower_disjunction(alloc, left, right),
    }
}

pub(crate) fn lower_multiplication(
    alloc: Global,
    operator: MultiplyOperator,
    left: LoweredExpression,
    right: LoweredExpression,
) -> Result<LoweredExpression, AllocError>
    ensures code { IfOk result
        (λ l. expression_code_of l ≡ codes.multiplication_code operator (expression_code_of left) (expression_code_of right)) }
    ensures flat { IfOk result (WholeIsNoDeeperThanLeft left) }
{
    match operator {
        MultiplyOperator::Multiply => lower_number_operation(alloc, Operator::Product, left, right),
        MultiplyOperator::Divide => lower_number_operation(alloc, Operator::Quotient, left, right),
        MultiplyOperator::Modulo => lower_number_operation(alloc, Operator::Remainder, left, right),
        MultiplyOperator::And => lower_conjunction(alloc, left, right),
    }
}

fn lower_unary_minus(
    alloc: Global,
    operand: LoweredExpression,
) -> Result<LoweredExpression, AllocError>
    ensures code { IfOk result
        (λ l. expression_code_of l ≡ codes.signed_term_code (Some signs.Minus) (expression_code_of operand)) }
    ensures flat { IfOk result (WholeIsNoDeeperThanLeft operand) }
{
    match operand {
        LoweredExpression::Number(number) => {
            Ok(LoweredExpression::Number(Number::Negative(Box::new(alloc, number)?)))
        }
        LoweredExpression::Truth(_) => Ok(LoweredExpression::NoCode),
        LoweredExpression::Block(_, _) => Ok(LoweredExpression::NoCode),
        LoweredExpression::NoCode => Ok(LoweredExpression::NoCode),
    }
}

/// Returns the code of a term with the sign `+`, which is the sum of the term and 0. Returns
/// `NoCode` if the term isn't a number.
fn lower_unary_plus(
    alloc: Global,
    operand: LoweredExpression,
) -> Result<LoweredExpression, AllocError>
    ensures code { IfOk result
        (λ l. expression_code_of l ≡ codes.signed_term_code (Some signs.Plus) (expression_code_of operand)) }
    ensures flat { IfOk result (WholeIsNoDeeperThanLeft operand) }
{
    lower_number_operation(
        alloc,
        Operator::Sum,
        operand,
        LoweredExpression::Number(Number::Literal(0)),
    )
}

/// Returns the code of a term with its sign, or the code of the term if there is no sign. Returns
/// `NoCode` if a term with a sign isn't a number.
pub(crate) fn lower_signed_term(
    alloc: Global,
    sign: Option<Sign>,
    operand: LoweredExpression,
) -> Result<LoweredExpression, AllocError>
    ensures code { IfOk result (λ l. expression_code_of l
        ≡ codes.signed_term_code sign (expression_code_of operand)) }
    ensures flat { IfOk result (WholeIsNoDeeperThanLeft operand) }
{
    match sign {
        None => Ok(operand),
        Some(sign) => match sign {
            Sign::Plus => lower_unary_plus(alloc, operand),
            Sign::Minus => lower_unary_minus(alloc, operand),
        },
    }
}

pub(crate) fn lower_negation(
    alloc: Global,
    operand: LoweredExpression,
) -> Result<LoweredExpression, AllocError>
    ensures code { IfOk result (λ l. expression_code_of l
        ≡ codes.negation_code (expression_code_of operand)) }
    ensures flat { IfOk result IsNotNestedOnLeft }
{
    match operand {
        LoweredExpression::Truth(truth) => Ok(LoweredExpression::Truth(negation(alloc, truth)?)),
        LoweredExpression::Number(_) => Ok(LoweredExpression::NoCode),
        LoweredExpression::Block(_, _) => Ok(LoweredExpression::NoCode),
        LoweredExpression::NoCode => Ok(LoweredExpression::NoCode),
    }
}

fn comparator_of(relation: Relation) -> code::Comparator
    ensures { view.relation_of result ≡ comparator_of_relation relation }
{
    match relation {
        Relation::Equal => code::Comparator::Equal,
        Relation::NotEqual => code::Comparator::NotEqual,
        Relation::Less => code::Comparator::Less,
        Relation::LessEqual => code::Comparator::LessEqual,
        Relation::Greater => code::Comparator::Greater,
        Relation::GreaterEqual => code::Comparator::GreaterEqual,
    }
}

/// Returns the code of a comparison of a variable with a literal.
fn lower_literal_comparison(relation: code::Comparator, variable: Variable, n: i32) -> Truth
    ensures code { truth_of result ≡ view.variable_comparison relation variable
        (machine.literal n) }
    ensures flat { (conjunction_depth result ≡ 0) × (disjunction_depth result ≡ 0) }
{
    match relation {
        code::Comparator::Less => Truth::VariableLessThanLiteral(variable, n),
        other => Truth::VariableComparedToLiteral(other, variable, n),
    }
}

/// Returns the code of a comparison of a variable with a number. If the number is a literal or
/// another variable, the code is one node.
fn lower_variable_comparison(
    alloc: Global,
    relation: code::Comparator,
    variable: Variable,
    right: Number,
) -> Result<Truth, AllocError>
    ensures code { IfOk result
        (λ t. truth_of t ≡ view.variable_comparison relation variable (number_of right)) }
    ensures flat { IfOk result (λ t. (conjunction_depth t ≡ 0) × (disjunction_depth t ≡ 0)) }
{
    match right {
        Number::Literal(n) => Ok(lower_literal_comparison(relation, variable, n)),
        Number::Variable(other) => Ok(Truth::VariableComparedToVariable(relation, variable, other)),
        right => {
            let left = Number::Variable(variable);
            let operands = Box::new(alloc, NumberPair { left, right })?;
            Ok(Truth::NumberComparison(relation, operands))
        }
    }
}

/// Returns the code of a comparison of the number at a place with the number `right`. The code is
/// one node if the place is an element whose array and index are variables, and `right` is a
/// variable.
fn lower_cell_comparison(
    alloc: Global,
    relation: code::Comparator,
    place: Place,
    right: Number,
) -> Result<Truth, AllocError>
    ensures code { IfOk result (λ t. truth_of t ≡ machine.related (view.relation_of relation)
        (machine.cell (view.place_of place)) (number_of right)) }
    ensures flat { IfOk result (λ t. (conjunction_depth t ≡ 0) × (disjunction_depth t ≡ 0)) }
{
    match place {
        Place::VariableElement(row) => lower_element_comparison(alloc, relation, *row, right),
        place => {
            let left = Number::Cell(place);
            let operands = Box::new(alloc, NumberPair { left, right })?;
            Ok(Truth::NumberComparison(relation, operands))
        }
    }
}

fn lower_element_comparison(
    alloc: Global,
    relation: code::Comparator,
    row: VariableElement,
    right: Number,
) -> Result<Truth, AllocError>
    ensures code { IfOk result (λ t. truth_of t ≡ machine.related (view.relation_of relation)
        (machine.cell (view.variable_element_of row)) (number_of right)) }
    ensures flat { IfOk result (λ t. (conjunction_depth t ≡ 0) × (disjunction_depth t ≡ 0)) }
{
    match right {
        Number::Variable(variable) => {
            let row = Box::new(alloc, row)?;
            Ok(Truth::ElementComparedToVariable(relation, row, variable))
        }
        right => {
            let left = Number::Cell(Place::VariableElement(Box::new(alloc, row)?));
            let operands = Box::new(alloc, NumberPair { left, right })?;
            Ok(Truth::NumberComparison(relation, operands))
        }
    }
}

/// Returns the code of a comparison of two numbers.
fn lower_number_comparison(
    alloc: Global,
    relation: Relation,
    left: Number,
    right: Number,
) -> Result<Truth, AllocError>
    ensures code { IfOk result (λ t. truth_of t
        ≡ machine.related (comparator_of_relation relation) (number_of left) (number_of right)) }
    ensures flat { IfOk result (λ t. (conjunction_depth t ≡ 0) × (disjunction_depth t ≡ 0)) }
{
    let relation = comparator_of(relation);
    match left {
        Number::Variable(variable) => lower_variable_comparison(alloc, relation, variable, right),
        Number::Cell(place) => lower_cell_comparison(alloc, relation, place, right),
        left => {
            let operands = Box::new(alloc, NumberPair { left, right })?;
            Ok(Truth::NumberComparison(relation, operands))
        }
    }
}

/// Returns the code of `=` or `#` between two truths. Returns `NoCode` for any other relation.
fn lower_truth_comparison(
    alloc: Global,
    relation: Relation,
    left: Truth,
    right: Truth,
) -> Result<LoweredExpression, AllocError>
    ensures code { IfOk result (λ l. expression_code_of l
        ≡ codes.relation_code relation (codes.a_truth (truth_of left)) (codes.a_truth (truth_of right))) }
    ensures flat { IfOk result IsNotNestedOnLeft }
{
    let truths = TruthPair { left, right };
    match relation {
        Relation::Equal => {
            let sides = Box::new(alloc, truths)?;
            Ok(LoweredExpression::Truth(Truth::Same(sides)))
        }
        Relation::NotEqual => {
            let sides = Box::new(alloc, truths)?;
            Ok(LoweredExpression::Truth(Truth::Different(sides)))
        }
        Relation::Less => Ok(LoweredExpression::NoCode),
        Relation::LessEqual => Ok(LoweredExpression::NoCode),
        Relation::Greater => Ok(LoweredExpression::NoCode),
        Relation::GreaterEqual => Ok(LoweredExpression::NoCode),
    }
}

/// Returns the code of a relation between a number and an operand, or `NoCode` if the operand
/// isn't a number.
fn lower_number_relation(
    alloc: Global,
    relation: Relation,
    left: Number,
    right: LoweredExpression,
) -> Result<LoweredExpression, AllocError>
    ensures code { IfOk result (λ l. expression_code_of l
        ≡ codes.relation_code relation (codes.a_number (number_of left)) (expression_code_of right)) }
    ensures flat { IfOk result IsNotNestedOnLeft }
{
    let Some(second) = number_in_code(right) else {
        return Ok(LoweredExpression::NoCode);
    };
    let truth = lower_number_comparison(alloc, relation, left, second)?;
    Ok(LoweredExpression::Truth(truth))
}

/// Returns the code of a relation between a truth and an operand. Returns `NoCode` if the operand
/// isn't a truth, or if the relation is neither `=` nor `#`.
fn lower_truth_relation(
    alloc: Global,
    relation: Relation,
    left: Truth,
    right: LoweredExpression,
) -> Result<LoweredExpression, AllocError>
    ensures code { IfOk result
        (λ l. expression_code_of l ≡ codes.relation_code relation (codes.a_truth (truth_of left)) (expression_code_of right)) }
    ensures flat { IfOk result IsNotNestedOnLeft }
{
    let Some(second) = truth_in_code(right) else {
        return Ok(LoweredExpression::NoCode);
    };
    lower_truth_comparison(alloc, relation, left, second)
}

pub(crate) fn lower_relation(
    alloc: Global,
    relation: Relation,
    left: LoweredExpression,
    right: LoweredExpression,
) -> Result<LoweredExpression, AllocError>
    ensures code { IfOk result
        (λ l. expression_code_of l ≡ codes.relation_code relation (expression_code_of left) (expression_code_of right)) }
    ensures flat { IfOk result IsNotNestedOnLeft }
{
    match left {
        LoweredExpression::Number(number) => lower_number_relation(alloc, relation, number, right),
        LoweredExpression::Truth(truth) => lower_truth_relation(alloc, relation, truth, right),
        LoweredExpression::Block(_, _) => Ok(LoweredExpression::NoCode),
        LoweredExpression::NoCode => Ok(LoweredExpression::NoCode),
    }
}

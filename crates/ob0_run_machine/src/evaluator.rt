//! Evaluates places, numbers and truth values, given the running activation and the cells. A
//! function that is marked `#[inline(never)]` returns a `FlatOutcome`, in registers. The other
//! functions that can fail return a `Result`.

ghost use Rattle.std.specs.Prelude.{◌≡◌, List, ℤ, false, if◌then◌else◌, true};
ghost use Rattle.ob0_run_machine.specs.StepOutcomes.{outcome_of_applied_link, outcome_of, outcome_of_result};
ghost use Rattle.ob0_run_machine.specs.Evaluation.{place_address, cell_at, gives, number_value, truth_value};
ghost use Rattle.ob0_run_machine.specs.declared.code.TruthPair.{out-TruthPair};
ghost use Rattle.ob0_run_machine.specs.LoweredSyntax as lowered;
ghost use Rattle.ob0_run_machine.specs.Levels.{levels_of};
ghost use Rattle.ob0_run_machine.specs.LoweredCodeViews.{conjunction_of, disjunction_of, operation_with_link, chain_of, variable_comparison, element_of, first_operand_of, number_of, operation_of, operator_of, place_of, operands_comparison, element_comparison, variable_element_of, truth_of, variable_of};

use crate::code::{
    Chain, ChainLink, Comparator, Element, FirstOperand, Number, NumberPair, Operation, Operator,
    Place, Truth, TruthList, TruthPair, Variable, VariableElement,
};
use crate::flat_outcome::{FlatOutcome, into_flat_outcome, into_result};
use crate::level::{
    Level, base_of_enclosing_level, outer_var_parameter_address, var_parameter_address,
};
use crate::operators::{
    add, add_offset, apply_operator, are_truths_equal, compare, divide, element_address,
    is_cell_true, modulo, multiply, negate, subtract,
};
use crate::stop_reasons::EvaluationFault;

/// Returns the value of a cell, or 0 if there is no cell at the address.
#[inline(always)]
pub(crate) fn cell_at(cells: &[i32], address: usize) -> i32
    ensures { result ≡ cell_at cells.now address }
{
    match cells.get(address) {
        None => 0,
        Some(cell) => *cell,
    }
}

/// Returns the address of a variable: the index of its first cell in the list of all cells.
#[inline(always)]
pub(crate) fn variable_address(variable: &Variable, level: &Level<'_>) -> usize
    ensures { (cells : List ℤ)
        → place_address (levels_of level.now) cells (variable_of variable.now) ≡ gives result }
{
    // A copy is read at once, which takes fewer instructions than a read in each arm.
    let copy = *variable;
    match copy {
        Variable::InModule(offset) => offset,
        Variable::InOwnActivation(offset) => add_offset(level.base, offset),
        Variable::ByReference { index, offset } => {
            add_offset(
                var_parameter_address(level, index as usize),
                offset as usize,
            )
        }
    }
}

/// Returns the number in a variable's cell, or 0 if that cell doesn't exist.
#[inline(always)]
fn variable_value(variable: &Variable, level: &Level<'_>, cells: &[i32]) -> i32
    ensures { number_value (levels_of level.now) cells.now
        (lowered.cell (variable_of variable.now)) ≡ gives result }
{
    cell_at(cells, variable_address(variable, level))
}

/// Returns the address of a place in an array's element whose array and index are variables.
/// Returns the fault Index if the array has no element at this index.
#[inline(always)]
pub(crate) fn variable_element_address(
    row: &VariableElement,
    level: &Level<'_>,
    cells: &[i32],
) -> Result<usize, EvaluationFault>
    ensures { outcome_of_result result ≡ place_address (levels_of level.now) cells.now
        (variable_element_of row.now) }
{
    let index = variable_value(&row.index, level, cells);
    let array = add_offset(variable_address(&row.array, level), row.offset);
    element_address(array, row.length, row.stride, index)
}

/// Returns the address of a place, or the first fault that occurs. A fault occurs if the evaluation
/// of an index in the place fails, or if the index is outside its array.
#[inline(always)]
#[cycle(evaluation)]
pub(crate) fn locate_place(
    place: &Place,
    level: &Level<'_>,
    cells: &[i32],
) -> Result<usize, EvaluationFault>
    ensures { outcome_of_result result
        ≡ place_address (levels_of level.now) cells.now (place_of place.now) }
{
    match place {
        Place::Variable(variable) => Ok(variable_address(variable, level)),
        Place::InEnclosingActivation { up, offset } => Ok(add_offset(
            base_of_enclosing_level(level, *up),
            *offset,
        )),
        Place::InVarParameter(r) => Ok(add_offset(
            outer_var_parameter_address(level, r.up, r.index),
            r.offset,
        )),
        Place::VariableElement(r) => variable_element_address(r, level, cells),
        Place::Element(e) => into_result(locate_element_as_flat_outcome(e, level, cells)),
    }
}

/// Returns the result of `locate_element` as a `FlatOutcome`, so that it is returned in registers.
#[inline(never)]
#[cycle(evaluation)]
fn locate_element_as_flat_outcome(
    e: &Element,
    level: &Level<'_>,
    cells: &[i32],
) -> FlatOutcome<usize>
    ensures { outcome_of result ≡ place_address (levels_of level.now) cells.now (element_of e.now) }
{
    into_flat_outcome(locate_element(e, level, cells))
}

#[inline(always)]
#[cycle(evaluation)]
fn locate_element(e: &Element, level: &Level<'_>, cells: &[i32]) -> Result<usize, EvaluationFault>
    ensures { outcome_of_result result
        ≡ place_address (levels_of level.now) cells.now (element_of e.now) }
{
    let a = locate_place(&e.array, level, cells)?;
    let i = evaluate_number(&e.index, level, cells)?;
    element_address(add_offset(a, e.offset), e.length, e.stride, i)
}

/// Returns the value of an expression of type INTEGER, or the fault that ends its evaluation.
#[inline(always)]
#[cycle(evaluation)]
pub(crate) fn evaluate_number(
    n: &Number,
    level: &Level<'_>,
    cells: &[i32],
) -> Result<i32, EvaluationFault>
    ensures { outcome_of_result result ≡ number_value (levels_of level.now) cells.now
        (number_of n.now) }
{
    match n {
        Number::Literal(n) => Ok(*n),
        Number::Variable(variable) => Ok(variable_value(variable, level, cells)),
        Number::Cell(place) => {
            let a = locate_place(place, level, cells)?;
            Ok(cell_at(cells, a))
        }
        Number::Negative(operand) => into_result(evaluate_unary_minus(operand, level, cells)),
        Number::Operation(o) => into_result(evaluate_operation(o, level, cells)),
        Number::Chain(c) => into_result(evaluate_chain_as_flat_outcome(c, level, cells)),
    }
}

/// Returns the value of the first operand of an operation or a chain, or the fault that ends its
/// evaluation.
#[inline(always)]
#[cycle(evaluation)]
fn evaluate_first_operand(
    n: &FirstOperand,
    level: &Level<'_>,
    cells: &[i32],
) -> Result<i32, EvaluationFault>
    ensures { outcome_of_result result ≡ number_value (levels_of level.now) cells.now
        (first_operand_of n.now) }
{
    match n {
        FirstOperand::Literal(n) => Ok(*n),
        FirstOperand::Variable(variable) => Ok(variable_value(variable, level, cells)),
        FirstOperand::Cell(place) => {
            let a = locate_place(place, level, cells)?;
            Ok(cell_at(cells, a))
        }
        FirstOperand::Negative(operand) => into_result(evaluate_unary_minus(operand, level, cells)),
    }
}

#[inline(never)]
#[cycle(evaluation)]
fn evaluate_unary_minus(operand: &Number, level: &Level<'_>, cells: &[i32]) -> FlatOutcome<i32>
    ensures { outcome_of result
        ≡ number_value (levels_of level.now) cells.now (lowered.negative (number_of operand.now)) }
{
    match evaluate_number(operand, level, cells) {
        Ok(a) => into_flat_outcome(negate(a)),
        Err(ending) => into_flat_outcome(Err(ending)),
    }
}

/// Returns the value of an operation, or the fault that ends its evaluation. This function handles
/// the most frequent case, in which the first operand is a variable. It leaves all other cases to
/// `evaluate_general_operation`, so it has no registers to save.
#[inline(never)]
#[cycle(evaluation)]
fn evaluate_operation(o: &Operation, level: &Level<'_>, cells: &[i32]) -> FlatOutcome<i32>
    ensures { outcome_of result ≡ number_value (levels_of level.now) cells.now
        (operation_of o.now) }
{
    match &o.first {
        FirstOperand::Variable(v) => into_flat_outcome(apply_link(
            &o.link,
            variable_value(v, level, cells),
            level,
            cells,
        )),
        _ => evaluate_general_operation(o, level, cells),
    }
}

#[inline(never)]
#[cycle(evaluation)]
fn evaluate_general_operation(o: &Operation, level: &Level<'_>, cells: &[i32]) -> FlatOutcome<i32>
    ensures { outcome_of result ≡ number_value (levels_of level.now) cells.now
        (operation_of o.now) }
{
    match evaluate_first_operand(&o.first, level, cells) {
        Ok(left) => into_flat_outcome(apply_link(&o.link, left, level, cells)),
        Err(ending) => into_flat_outcome(Err(ending)),
    }
}

#[inline(never)]
#[cycle(evaluation)]
fn evaluate_chain_as_flat_outcome(c: &Chain, level: &Level<'_>, cells: &[i32]) -> FlatOutcome<i32>
    ensures { outcome_of result ≡ number_value (levels_of level.now) cells.now (chain_of c.now) }
{
    into_flat_outcome(evaluate_chain(c, level, cells))
}

/// Returns the value of a chain of operations, or the first fault that occurs. The links are
/// applied in order, each to the result so far.
#[inline(always)]
#[cycle(evaluation)]
pub(crate) fn evaluate_chain(
    c: &Chain,
    level: &Level<'_>,
    cells: &[i32],
) -> Result<i32, EvaluationFault>
    ensures { outcome_of_result result ≡ number_value (levels_of level.now) cells.now
        (chain_of c.now) }
{
    let mut left = evaluate_first_operand(&c.first, level, cells)?;
    for link in &c.rest {
        left = apply_link(link, left, level, cells)?;
    }
    Ok(left)
}

/// Applies a link to the number `left`, which is the result so far. Returns the new result, or the
/// fault that ends the evaluation. If the link's operand is neither a literal nor a variable,
/// `apply_operator_to_expression` evaluates it. So `apply_link` is small enough to be inlined.
#[inline(always)]
#[cycle(evaluation)]
fn apply_link(
    link: &ChainLink,
    left: i32,
    level: &Level<'_>,
    cells: &[i32],
) -> Result<i32, EvaluationFault>
    ensures { outcome_of_result result ≡ outcome_of_applied_link (levels_of level.now) cells.now
        link.now left }
{
    match link {
        ChainLink::SumWithLiteral(n) => add(left, *n),
        ChainLink::SumWithVariable(v) => add(left, variable_value(v, level, cells)),
        ChainLink::DifferenceWithLiteral(n) => subtract(left, *n),
        ChainLink::DifferenceWithVariable(v) => subtract(left, variable_value(v, level, cells)),
        ChainLink::ProductWithLiteral(n) => multiply(left, *n),
        ChainLink::ProductWithVariable(v) => multiply(left, variable_value(v, level, cells)),
        ChainLink::QuotientWithLiteral(n) => divide(left, *n),
        ChainLink::QuotientWithVariable(v) => divide(left, variable_value(v, level, cells)),
        ChainLink::RemainderWithLiteral(n) => modulo(left, *n),
        ChainLink::RemainderWithVariable(v) => modulo(left, variable_value(v, level, cells)),
        ChainLink::SumWithLeftVariable(v) => add(variable_value(v, level, cells), left),
        ChainLink::DifferenceWithLeftVariable(v) => subtract(variable_value(v, level, cells), left),
        ChainLink::ProductWithLeftVariable(v) => multiply(variable_value(v, level, cells), left),
        ChainLink::Other(o, n) => into_result(apply_operator_to_expression(
            *o, left, n, level, cells,
        )),
    }
}

/// Evaluates the expression `n`, and applies the operator to `left` and the value of `n`. Returns
/// the result, or the first fault that occurs.
#[inline(never)]
#[cycle(evaluation)]
fn apply_operator_to_expression(
    operator: Operator,
    left: i32,
    n: &Number,
    level: &Level<'_>,
    cells: &[i32],
) -> FlatOutcome<i32>
    ensures { outcome_of result
        ≡ number_value (levels_of level.now) cells.now
        (lowered.operation (operator_of operator) (lowered.literal left) (number_of n.now)) }
{
    match evaluate_number(n, level, cells) {
        Ok(right) => into_flat_outcome(apply_operator(operator, left, right)),
        Err(ending) => into_flat_outcome(Err(ending)),
    }
}

/// Applies the operator of a `ChainLink` to the value of a variable and the link's operand. Returns
/// the result, or the fault that ends the evaluation.
#[inline(always)]
pub(crate) fn evaluate_update(
    variable: &Variable,
    link: &ChainLink,
    level: &Level<'_>,
    cells: &[i32],
) -> Result<i32, EvaluationFault>
    ensures { outcome_of_result result
        ≡ number_value (levels_of level.now) cells.now
        (operation_with_link link.now (lowered.cell (variable_of variable.now))) }
{
    let left = variable_value(variable, level, cells);
    apply_link(link, left, level, cells)
}

/// Returns whether the cell at a place is TRUE, or the fault that ends the evaluation of the place.
#[inline(never)]
fn evaluate_flag(place: &Place, level: &Level<'_>, cells: &[i32]) -> FlatOutcome<bool>
    ensures { outcome_of result
        ≡ truth_value (levels_of level.now) cells.now (lowered.flag (place_of place.now)) }
{
    match locate_place(place, level, cells) {
        Ok(a) => FlatOutcome::Value(is_cell_true(cell_at(cells, a))),
        Err(ending) => into_flat_outcome(Err(ending)),
    }
}

/// Returns whether the cell at a place is FALSE, or the fault that ends the evaluation of the
/// place.
#[inline(always)]
fn evaluate_negated_flag(
    place: &Place,
    level: &Level<'_>,
    cells: &[i32],
) -> Result<bool, EvaluationFault>
    ensures { outcome_of_result result
        ≡ truth_value (levels_of level.now) cells.now
        (lowered.negation (lowered.flag (place_of place.now))) }
{
    let a = into_result(evaluate_flag(place, level, cells))?;
    Ok(!a)
}

/// Returns the value of an expression of type BOOLEAN, or the fault that ends its evaluation.
/// Constants and comparisons of variables are evaluated inline. Flags and comparisons of elements
/// are evaluated by small functions, and all other forms by `evaluate_truth_out_of_line`.
#[inline(always)]
pub(crate) fn evaluate_truth(
    t: &Truth,
    level: &Level<'_>,
    cells: &[i32],
) -> Result<bool, EvaluationFault>
    ensures { outcome_of_result result ≡ truth_value (levels_of level.now) cells.now
        (truth_of t.now) }
{
    match t {
        Truth::Constant(b) => Ok(*b),
        Truth::Flag(place) => into_result(evaluate_flag(place, level, cells)),
        Truth::NegatedFlag(place) => evaluate_negated_flag(place, level, cells),
        Truth::VariableLessThanLiteral(v, n) => {
            Ok(compare_variable(Comparator::Less, v, *n, level, cells))
        }
        Truth::VariableComparedToLiteral(r, v, n) => Ok(compare_variable(*r, v, *n, level, cells)),
        Truth::VariableComparedToVariable(r, v, w) => {
            let right = variable_value(w, level, cells);
            Ok(compare_variable(*r, v, right, level, cells))
        }
        Truth::ElementComparedToVariable(r, q, v) => into_result(compare_element(
            *r, q, v, level, cells,
        )),
        _ => evaluate_truth_out_of_line(t, level, cells),
    }
}

#[inline(always)]
#[cycle(truths)]
fn evaluate_truth_out_of_line(
    t: &Truth,
    level: &Level<'_>,
    cells: &[i32],
) -> Result<bool, EvaluationFault>
    ensures { outcome_of_result result ≡ truth_value (levels_of level.now) cells.now
        (truth_of t.now) }
{
    into_result(evaluate_truth_as_flat_outcome(t, level, cells))
}

#[inline(never)]
#[cycle(truths)]
fn evaluate_truth_as_flat_outcome(t: &Truth, level: &Level<'_>, cells: &[i32]) -> FlatOutcome<bool>
    ensures { outcome_of result ≡ truth_value (levels_of level.now) cells.now (truth_of t.now) }
{
    into_flat_outcome(evaluate_general_truth(t, level, cells))
}

#[inline(always)]
#[cycle(truths)]
fn evaluate_general_truth(
    t: &Truth,
    level: &Level<'_>,
    cells: &[i32],
) -> Result<bool, EvaluationFault>
    ensures { outcome_of_result result ≡ truth_value (levels_of level.now) cells.now
        (truth_of t.now) }
{
    match t {
        Truth::Constant(b) => Ok(*b),
        Truth::Flag(place) => into_result(evaluate_flag(place, level, cells)),
        Truth::NegatedFlag(place) => evaluate_negated_flag(place, level, cells),
        Truth::Negation(operand) => {
            let a = evaluate_truth_out_of_line(operand, level, cells)?;
            Ok(!a)
        }
        Truth::Both(operands) => evaluate_conjunction_pair(operands, level, cells),
        Truth::Either(operands) => evaluate_disjunction_pair(operands, level, cells),
        Truth::All(several) => evaluate_conjunction_list(several, level, cells),
        Truth::Any(several) => evaluate_disjunction_list(several, level, cells),
        Truth::NumberComparison(relation, operands) => compare_operands(
            *relation, operands, level, cells,
        ),
        Truth::VariableLessThanLiteral(v, n) => {
            Ok(compare_variable(Comparator::Less, v, *n, level, cells))
        }
        Truth::VariableComparedToLiteral(r, v, n) => Ok(compare_variable(*r, v, *n, level, cells)),
        Truth::VariableComparedToVariable(r, v, w) => {
            let right = variable_value(w, level, cells);
            Ok(compare_variable(*r, v, right, level, cells))
        }
        Truth::ElementComparedToVariable(r, q, v) => into_result(compare_element(
            *r, q, v, level, cells,
        )),
        Truth::Same(operands) => evaluate_truth_equality(operands, level, cells),
        Truth::Different(operands) => evaluate_truth_inequality(operands, level, cells),
    }
}

/// Returns whether a relation holds between the value of a variable and a number.
#[inline(always)]
fn compare_variable(
    relation: Comparator,
    variable: &Variable,
    right: i32,
    level: &Level<'_>,
    cells: &[i32],
) -> bool
    ensures { truth_value (levels_of level.now) cells.now
        (variable_comparison relation variable.now (lowered.literal right)) ≡ gives result }
{
    compare(relation, variable_value(variable, level, cells), right)
}

/// Returns whether a relation holds between an array's element and the value of a variable. Returns
/// the fault Index if the array has no such element.
#[inline(never)]
fn compare_element(
    relation: Comparator,
    left: &VariableElement,
    right: &Variable,
    level: &Level<'_>,
    cells: &[i32],
) -> FlatOutcome<bool>
    ensures { outcome_of result
        ≡ truth_value (levels_of level.now) cells.now
        (element_comparison relation left.now right.now) }
{
    match variable_element_address(left, level, cells) {
        Ok(a) => {
            let right = variable_value(right, level, cells);
            FlatOutcome::Value(compare(relation, cell_at(cells, a), right))
        }
        Err(ending) => into_flat_outcome(Err(ending)),
    }
}

/// Returns whether a relation holds between the values of two expressions, or the first fault that
/// occurs.
#[inline(always)]
fn compare_operands(
    relation: Comparator,
    operands: &NumberPair,
    level: &Level<'_>,
    cells: &[i32],
) -> Result<bool, EvaluationFault>
    ensures { outcome_of_result result
        ≡ truth_value (levels_of level.now) cells.now (operands_comparison relation operands.now) }
{
    let left = evaluate_number(&operands.left, level, cells)?;
    let right = evaluate_number(&operands.right, level, cells)?;
    Ok(compare(relation, left, right))
}

#[cycle(truths)]
fn evaluate_conjunction_pair(
    operands: &TruthPair,
    level: &Level<'_>,
    cells: &[i32],
) -> Result<bool, EvaluationFault>
    ensures { outcome_of_result result
        ≡ truth_value (levels_of level.now) cells.now (lowered.both
        (truth_of (out-TruthPair operands.now).left) (truth_of (out-TruthPair operands.now).right)) }
{
    if evaluate_truth_out_of_line(&operands.left, level, cells)? {
        evaluate_truth_out_of_line(&operands.right, level, cells)
    } else {
        Ok(false)
    }
}

#[cycle(truths)]
fn evaluate_disjunction_pair(
    operands: &TruthPair,
    level: &Level<'_>,
    cells: &[i32],
) -> Result<bool, EvaluationFault>
    ensures { outcome_of_result result
        ≡ truth_value (levels_of level.now) cells.now (lowered.either
        (truth_of (out-TruthPair operands.now).left) (truth_of (out-TruthPair operands.now).right)) }
{
    if evaluate_truth_out_of_line(&operands.left, level, cells)? {
        Ok(true)
    } else {
        evaluate_truth_out_of_line(&operands.right, level, cells)
    }
}

#[cycle(truths)]
fn evaluate_truth_equality(
    operands: &TruthPair,
    level: &Level<'_>,
    cells: &[i32],
) -> Result<bool, EvaluationFault>
    ensures { outcome_of_result result
        ≡ truth_value (levels_of level.now) cells.now (lowered.same
        (truth_of (out-TruthPair operands.now).left) (truth_of (out-TruthPair operands.now).right)) }
{
    let left = evaluate_truth_out_of_line(&operands.left, level, cells)?;
    let right = evaluate_truth_out_of_line(&operands.right, level, cells)?;
    Ok(are_truths_equal(left, right))
}

#[cycle(truths)]
fn evaluate_truth_inequality(
    operands: &TruthPair,
    level: &Level<'_>,
    cells: &[i32],
) -> Result<bool, EvaluationFault>
    ensures { outcome_of_result result
        ≡ truth_value (levels_of level.now) cells.now (lowered.different
        (truth_of (out-TruthPair operands.now).left) (truth_of (out-TruthPair operands.now).right)) }
{
    let left = evaluate_truth_out_of_line(&operands.left, level, cells)?;
    let right = evaluate_truth_out_of_line(&operands.right, level, cells)?;
    Ok(!are_truths_equal(left, right))
}

/// Returns the conjunction of several truth values, or the first fault that occurs. The values are
/// evaluated from left to right. After the first FALSE nothing more is evaluated.
#[cycle(truths)]
fn evaluate_conjunction_list(
    several: &TruthList,
    level: &Level<'_>,
    cells: &[i32],
) -> Result<bool, EvaluationFault>
    ensures { outcome_of_result result
        ≡ truth_value (levels_of level.now) cells.now (conjunction_of several.now) }
{
    let mut left = evaluate_truth_out_of_line(&several.first, level, cells)?;
    for t in &several.rest {
        left = evaluate_and_with_left_value(left, t, level, cells)?;
    }
    Ok(left)
}

#[inline(always)]
#[cycle(truths)]
fn evaluate_and_with_left_value(
    left: bool,
    t: &Truth,
    level: &Level<'_>,
    cells: &[i32],
) -> Result<bool, EvaluationFault>
    ensures { outcome_of_result result
        ≡ (if left then truth_value (levels_of level.now) cells.now (truth_of t.now) else gives false) }
{
    if left {
        evaluate_truth_out_of_line(t, level, cells)
    } else {
        Ok(false)
    }
}

/// Returns the disjunction of several truth values, or the first fault that occurs. The values are
/// evaluated from left to right. After the first TRUE nothing more is evaluated.
#[cycle(truths)]
fn evaluate_disjunction_list(
    several: &TruthList,
    level: &Level<'_>,
    cells: &[i32],
) -> Result<bool, EvaluationFault>
    ensures { outcome_of_result result
        ≡ truth_value (levels_of level.now) cells.now (disjunction_of several.now) }
{
    let mut left = evaluate_truth_out_of_line(&several.first, level, cells)?;
    for t in &several.rest {
        left = evaluate_or_with_left_value(left, t, level, cells)?;
    }
    Ok(left)
}

#[inline(always)]
#[cycle(truths)]
fn evaluate_or_with_left_value(
    left: bool,
    t: &Truth,
    level: &Level<'_>,
    cells: &[i32],
) -> Result<bool, EvaluationFault>
    ensures { outcome_of_result result
        ≡ (if left then gives true else truth_value (levels_of level.now) cells.now (truth_of t.now)) }
{
    if left {
        Ok(true)
    } else {
        evaluate_truth_out_of_line(t, level, cells)
    }
}

//! Computes the operators on numbers and truth values, and the addresses of parts of variables.

ghost use Rattle.std.specs.Int.{w32};
ghost use Rattle.std.specs.Prelude.{◌≡◌, ◌+ℤ◌, ◌-ℤ◌, ◌*ℤ◌, FitsSigned, SomeIff, neg_ℤ};
ghost use Rattle.ob0_run_machine.specs.StepOutcomes.{number_or_overflow, outcome_of_result};
ghost use Rattle.ob0_run_machine.specs.Evaluation.{compare, division_outcome, element_address, add_offset, checked_number, is_cell_true, truth_as_cell, apply_operator, same_truth};
ghost use Rattle.ob0_run_machine.specs.LoweredSyntax.{difference, product, quotient, remainder, sum};
ghost use Rattle.ob0_run_machine.specs.LoweredCodeViews.{operator_of, relation_of};

use crate::code::{Comparator, Operator};
use crate::stop_reasons::EvaluationFault;

/// Returns the number, or the fault Overflow for None. `number` is the result of an operation, and
/// None means that this result has more than 32 bits.
#[inline(always)]
fn checked_number(number: Option<i32>) -> Result<i32, EvaluationFault>
    ensures { outcome_of_result result ≡ number_or_overflow number }
{
    match number {
        Some(number) => Ok(number),
        None => Err(EvaluationFault::Overflow),
    }
}

/// Returns the number, or the fault Divisor for None. `number` is the result of a division, and
/// None means that its divisor is below 1.
#[inline(always)]
fn number_or_divisor_fault(number: Option<i32>) -> Result<i32, EvaluationFault>
    ensures { outcome_of_result result ≡ division_outcome number }
{
    match number {
        Some(number) => Ok(number),
        None => Err(EvaluationFault::Divisor),
    }
}

/// Returns the quotient, rounded down. Returns the fault Divisor if the divisor is below 1.
#[inline(always)]
pub(crate) fn divide(left: i32, right: i32) -> Result<i32, EvaluationFault>
    ensures { outcome_of_result result ≡ apply_operator quotient left right }
{
    number_or_divisor_fault(ob0_language_values::divide(left, right))
}

/// Returns the remainder, which is never negative. Returns the fault Divisor if the divisor is
/// below 1.
#[inline(always)]
pub(crate) fn modulo(left: i32, right: i32) -> Result<i32, EvaluationFault>
    ensures { outcome_of_result result ≡ apply_operator remainder left right }
{
    number_or_divisor_fault(ob0_language_values::modulo(left, right))
}

/// Returns the sum, or None if it has more than 32 bits. The sum is computed in 64 bits, and one
/// comparison decides whether it fits in 32 bits. This compiles to an addition and a jump on
/// overflow. `checked_add` takes five instructions more.
#[inline(always)]
fn checked_sum(left: i32, right: i32) -> Option<i32>
    ensures { SomeIff result (FitsSigned w32 (left +ℤ right)) (left +ℤ right) }
{
    let sum = left as i64 + right as i64;
    // The distance of the sum from -2^31, as an unsigned number. The distance has more than 32
    // bits exactly if the sum does.
    let distance = (sum + 2_147_483_648).cast_unsigned();
    if distance > 4_294_967_295 {
        None
    } else {
        Some(sum as i32)
    }
}

/// Returns the difference, or None if it has more than 32 bits. Computes the difference in 64 bits,
/// which compiles to a subtraction and a jump on overflow. (`checked_sub` takes four instructions
/// more.)
#[inline(always)]
fn checked_difference(left: i32, right: i32) -> Option<i32>
    ensures { SomeIff result (FitsSigned w32 (left -ℤ right)) (left -ℤ right) }
{
    let difference = left as i64 - right as i64;
    if difference > 2_147_483_647 {
        return None;
    }
    if difference < -2_147_483_648 {
        return None;
    }
    Some(difference as i32)
}

/// Returns the product, or None if it has more than 32 bits. Computes the product in 64 bits, which
/// it always fits. (`checked_mul` computes it a second time, in 32 bits.)
#[inline(always)]
fn checked_product(left: i32, right: i32) -> Option<i32>
    ensures { SomeIff result (FitsSigned w32 (left *ℤ right)) (left *ℤ right) }
{
    let product = left as i64 * right as i64;
    if product > 2_147_483_647 {
        return None;
    }
    if product < -2_147_483_648 {
        return None;
    }
    Some(product as i32)
}

/// Returns the sum, or the fault Overflow if it has more than 32 bits. `subtract` and `multiply` do
/// the same for the difference and the product.
#[inline(always)]
pub(crate) fn add(left: i32, right: i32) -> Result<i32, EvaluationFault>
    ensures { outcome_of_result result ≡ apply_operator sum left right }
{
    checked_number(checked_sum(left, right))
}

#[inline(always)]
pub(crate) fn subtract(left: i32, right: i32) -> Result<i32, EvaluationFault>
    ensures { outcome_of_result result ≡ apply_operator difference left right }
{
    checked_number(checked_difference(left, right))
}

#[inline(always)]
pub(crate) fn multiply(left: i32, right: i32) -> Result<i32, EvaluationFault>
    ensures { outcome_of_result result ≡ apply_operator product left right }
{
    checked_number(checked_product(left, right))
}

/// Applies an operator to two numbers. Returns the result, or the fault Overflow or Divisor.
#[inline(always)]
pub(crate) fn apply_operator(
    operator: Operator,
    left: i32,
    right: i32,
) -> Result<i32, EvaluationFault>
    ensures { outcome_of_result result ≡ apply_operator (operator_of operator) left right }
{
    match operator {
        Operator::Sum => add(left, right),
        Operator::Difference => subtract(left, right),
        Operator::Product => multiply(left, right),
        Operator::Quotient => divide(left, right),
        Operator::Remainder => modulo(left, right),
    }
}

/// Returns the number with the opposite sign, or the fault Overflow if it has more than 32 bits.
#[inline(always)]
pub(crate) fn negate(number: i32) -> Result<i32, EvaluationFault>
    ensures { outcome_of_result result ≡ checked_number (neg_ℤ number) }
{
    checked_number(number.checked_neg())
}

/// Returns whether a relation holds between two numbers.
#[inline(always)]
pub(crate) fn compare(relation: Comparator, left: i32, right: i32) -> bool
    ensures { result ≡ compare (relation_of relation) left right }
{
    match relation {
        Comparator::Equal => left == right,
        Comparator::NotEqual => left != right,
        Comparator::Less => left < right,
        Comparator::LessEqual => left <= right,
        Comparator::Greater => right < left,
        Comparator::GreaterEqual => right <= left,
    }
}

/// Returns whether two truth values are equal.
#[inline(always)]
pub(crate) fn are_truths_equal(left: bool, right: bool) -> bool
    ensures { result ≡ same_truth left right }
{
    left == right
}

/// Returns the truth value that is stored in a cell: FALSE for 0, TRUE for any other number.
#[inline(always)]
pub(crate) fn is_cell_true(number: i32) -> bool
    ensures { result ≡ is_cell_true number }
{
    number != 0
}

/// Returns the number that is stored in a cell for a truth value: 1 for TRUE, 0 for FALSE.
#[inline(always)]
pub(crate) fn truth_as_cell(truth: bool) -> i32
    ensures { result ≡ truth_as_cell truth }
{
    if truth { 1 } else { 0 }
}

/// Returns the address that is `offset` cells after an address. The sum wraps at 64 bits.
#[inline(always)]
pub(crate) fn add_offset(address: usize, offset: usize) -> usize
    ensures { result ≡ add_offset address offset }
{
    address.wrapping_add(offset)
}

/// Returns the address of the element at `index`, in an array of `length` elements with `stride`
/// cells each. `address` is the address of the array's first element. If `address` is instead the
/// address of a cell inside the first element, returns the address of the corresponding cell of the
/// element at `index`. Returns the fault Index if the array has no such element.
#[inline(always)]
pub(crate) fn element_address(
    address: usize,
    length: usize,
    stride: usize,
    index: i32,
) -> Result<usize, EvaluationFault>
    ensures { outcome_of_result result ≡ element_address address length stride index }
{
    if index < 0 {
        return Err(EvaluationFault::Index);
    }
    let index = index as usize;
    if index < length {
        Ok(address.wrapping_add(index.wrapping_mul(stride)))
    } else {
        Err(EvaluationFault::Index)
    }
}

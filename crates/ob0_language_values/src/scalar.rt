//! Defines scalars, which are numbers and truth values, and the operators on them
//! (docs/LANGUAGE.md, Runs 2 and 3).

ghost use Rattle.std.specs.Prelude.{◌≡◌};
ghost use Rattle.ob0_language_values.specs.Values.{apply_add_operator, add_operator_short_circuits, compare_numbers, division_outcome, checked_number, apply_multiply_operator, multiply_operator_short_circuits, apply_not, number, apply_relation, apply_sign, truth};
ghost use Rattle.ob0_language_values.specs.Scalars.{number_outcome, scalar_outcome, scalar_value};
ghost use Rattle.ob0_tree.specs.declared.tree.MultiplyOperator.TheVariants.{Divide, Modulo};

use ob0_tree::{AddOperator, MultiplyOperator, Relation, Sign};

/// A value without parts: a number or a truth value.
#[derive(Clone, Copy, Debug, PartialEq, Eq)]
pub enum Scalar {
    /// A 32-bit number.
    Number(i32),
    Truth(bool),
}

/// The reason why an operation has no result.
#[derive(Clone, Copy, Debug, PartialEq, Eq)]
pub enum OperatorFault {
    /// The result doesn't fit in 32 bits.
    Overflow,
    /// The divisor of a DIV or MOD is below 1.
    Divisor,
    /// The operator isn't defined for an operand's type. A well-typed module contains no such
    /// operation.
    Operand,
}

/// Returns the result of an operation as a scalar. Returns the error `Overflow` if `number` is
/// None, which means that the result doesn't fit in 32 bits.
fn checked_number(number: Option<i32>) -> Result<Scalar, OperatorFault>
    ensures { scalar_outcome result ≡ number_outcome number }
{
    match number {
        Some(number) => Ok(Scalar::Number(number)),
        None => Err(OperatorFault::Overflow),
    }
}

/// Returns the result of a DIV or MOD as a scalar. Returns the error `Divisor` if `number` is None,
/// which means that the divisor is below 1.
fn division_result(number: Option<i32>) -> Result<Scalar, OperatorFault>
    ensures { scalar_outcome result ≡ division_outcome number }
{
    match number {
        Some(number) => Ok(Scalar::Number(number)),
        None => Err(OperatorFault::Divisor),
    }
}

/// Returns the quotient `left DIV right`, rounded down. Returns the error `Divisor` if the divisor
/// `right` is below 1.
fn divide(left: i32, right: i32) -> Result<Scalar, OperatorFault>
    ensures { scalar_outcome result ≡ apply_multiply_operator Divide (number left) (number right) }
{
    division_result(crate::divide(left, right))
}

/// Returns the remainder `left MOD right`, which is never negative. Returns the error `Divisor` if
/// the divisor `right` is below 1.
fn modulo(left: i32, right: i32) -> Result<Scalar, OperatorFault>
    ensures { scalar_outcome result ≡ apply_multiply_operator Modulo (number left) (number right) }
{
    division_result(crate::modulo(left, right))
}

/// Returns `left + right`, `left - right` or `left OR right`.
///
/// # Errors
///
/// `Overflow` if the result doesn't fit in 32 bits, `Operand` if the operator isn't defined for the
/// operands.
pub fn apply_add_operator(
    operator: AddOperator,
    left: Scalar,
    right: Scalar,
) -> Result<Scalar, OperatorFault>
    ensures { scalar_outcome result ≡ apply_add_operator operator (scalar_value left) (scalar_value right) }
{
    match left {
        Scalar::Number(a) => match right {
            Scalar::Number(b) => apply_add_operator_to_numbers(operator, a, b),
            Scalar::Truth(_) => Err(OperatorFault::Operand),
        },
        Scalar::Truth(a) => match right {
            Scalar::Number(_) => Err(OperatorFault::Operand),
            Scalar::Truth(b) => apply_add_operator_to_truth_values(operator, a, b),
        },
    }
}

/// Returns `a + b` or `a - b`. Returns the error `Overflow` if the result doesn't fit in 32 bits,
/// and the error `Operand` if the operator is OR.
fn apply_add_operator_to_numbers(
    operator: AddOperator,
    a: i32,
    b: i32,
) -> Result<Scalar, OperatorFault>
    ensures { scalar_outcome result ≡ apply_add_operator operator (number a) (number b) }
{
    match operator {
        AddOperator::Add => checked_number(a.checked_add(b)),
        AddOperator::Subtract => checked_number(a.checked_sub(b)),
        AddOperator::Or => Err(OperatorFault::Operand),
    }
}

/// Returns `a OR b`. Returns the error `Operand` if the operator is `+` or `-`.
fn apply_add_operator_to_truth_values(
    operator: AddOperator,
    a: bool,
    b: bool,
) -> Result<Scalar, OperatorFault>
    ensures { scalar_outcome result ≡ apply_add_operator operator (truth a) (truth b) }
{
    match operator {
        AddOperator::Add => Err(OperatorFault::Operand),
        AddOperator::Subtract => Err(OperatorFault::Operand),
        AddOperator::Or => Ok(Scalar::Truth(a || b)),
    }
}

/// Returns `left * right`, `left DIV right`, `left MOD right` or `left & right`. DIV rounds down,
/// and MOD is never negative.
///
/// # Errors
///
/// `Overflow` if the result doesn't fit in 32 bits, `Divisor` if the divisor is below 1, `Operand`
/// if the operator isn't defined for the operands.
pub fn apply_multiply_operator(
    operator: MultiplyOperator,
    left: Scalar,
    right: Scalar,
) -> Result<Scalar, OperatorFault>
    ensures { scalar_outcome result ≡ apply_multiply_operator operator (scalar_value left) (scalar_value right) }
{
    match left {
        Scalar::Number(a) => match right {
            Scalar::Number(b) => apply_multiply_operator_to_numbers(operator, a, b),
            Scalar::Truth(_) => Err(OperatorFault::Operand),
        },
        Scalar::Truth(a) => match right {
            Scalar::Number(_) => Err(OperatorFault::Operand),
            Scalar::Truth(b) => apply_multiply_operator_to_truth_values(operator, a, b),
        },
    }
}

/// Returns `a * b`, `a DIV b` or `a MOD b`. Returns the error `Overflow` if the result doesn't fit
/// in 32 bits. Returns `Divisor` if the divisor is below 1, and `Operand` if the operator is `&`.
fn apply_multiply_operator_to_numbers(
    operator: MultiplyOperator,
    a: i32,
    b: i32,
) -> Result<Scalar, OperatorFault>
    ensures { scalar_outcome result ≡ apply_multiply_operator operator (number a) (number b) }
{
    match operator {
        MultiplyOperator::Multiply => checked_number(a.checked_mul(b)),
        MultiplyOperator::Divide => divide(a, b),
        MultiplyOperator::Modulo => modulo(a, b),
        MultiplyOperator::And => Err(OperatorFault::Operand),
    }
}

/// Returns `a & b`. Returns the error `Operand` if the operator is `*`, DIV or MOD.
fn apply_multiply_operator_to_truth_values(
    operator: MultiplyOperator,
    a: bool,
    b: bool,
) -> Result<Scalar, OperatorFault>
    ensures { scalar_outcome result ≡ apply_multiply_operator operator (truth a) (truth b) }
{
    match operator {
        MultiplyOperator::Multiply => Err(OperatorFault::Operand),
        MultiplyOperator::Divide => Err(OperatorFault::Operand),
        MultiplyOperator::Modulo => Err(OperatorFault::Operand),
        MultiplyOperator::And => Ok(Scalar::Truth(a && b)),
    }
}

/// Returns whether the operator is OR and the left operand is TRUE. The right operand isn't
/// evaluated then.
pub fn add_operator_short_circuits(operator: AddOperator, left: Scalar) -> bool
    ensures { result ≡ add_operator_short_circuits operator (scalar_value left) }
{
    match operator {
        AddOperator::Add => false,
        AddOperator::Subtract => false,
        AddOperator::Or => match left {
            Scalar::Number(_) => false,
            Scalar::Truth(a) => a,
        },
    }
}

/// Returns whether the operator is `&` and the left operand is FALSE. The right operand isn't
/// evaluated then.
pub fn multiply_operator_short_circuits(operator: MultiplyOperator, left: Scalar) -> bool
    ensures { result ≡ multiply_operator_short_circuits operator (scalar_value left) }
{
    match operator {
        MultiplyOperator::Multiply => false,
        MultiplyOperator::Divide => false,
        MultiplyOperator::Modulo => false,
        MultiplyOperator::And => match left {
            Scalar::Number(_) => false,
            Scalar::Truth(a) => !a,
        },
    }
}

/// Returns whether the relation holds between the operands, as a truth value. Every relation is
/// defined for two numbers. Only `=` and `#` are defined for two truth values.
///
/// # Errors
///
/// `Operand` if the relation isn't defined for the operands.
pub fn apply_relation(
    relation: Relation,
    left: Scalar,
    right: Scalar,
) -> Result<Scalar, OperatorFault>
    ensures { scalar_outcome result ≡ apply_relation relation (scalar_value left)
        (scalar_value right) }
{
    match left {
        Scalar::Number(a) => match right {
            Scalar::Number(b) => Ok(Scalar::Truth(compare_numbers(relation, a, b))),
            Scalar::Truth(_) => Err(OperatorFault::Operand),
        },
        Scalar::Truth(a) => match right {
            Scalar::Number(_) => Err(OperatorFault::Operand),
            Scalar::Truth(b) => compare_truth_values(relation, a, b),
        },
    }
}

/// Returns whether the relation holds between the numbers `a` and `b`, in this order.
fn compare_numbers(relation: Relation, a: i32, b: i32) -> bool
    ensures { result ≡ compare_numbers relation a b }
{
    match relation {
        Relation::Equal => a == b,
        Relation::NotEqual => a != b,
        Relation::Less => a < b,
        Relation::LessEqual => a <= b,
        Relation::Greater => b < a,
        Relation::GreaterEqual => b <= a,
    }
}

/// Returns the truth value of `a = b` or `a # b`. Returns the error `Operand` for any other
/// relation.
fn compare_truth_values(relation: Relation, a: bool, b: bool) -> Result<Scalar, OperatorFault>
    ensures { scalar_outcome result ≡ apply_relation relation (truth a) (truth b) }
{
    match relation {
        Relation::Equal => Ok(Scalar::Truth(a == b)),
        Relation::NotEqual => Ok(Scalar::Truth(a != b)),
        Relation::Less => Err(OperatorFault::Operand),
        Relation::LessEqual => Err(OperatorFault::Operand),
        Relation::Greater => Err(OperatorFault::Operand),
        Relation::GreaterEqual => Err(OperatorFault::Operand),
    }
}

/// Applies the sign to the operand. If there is no sign, returns the operand unchanged.
///
/// # Errors
///
/// `Overflow` if the sign is minus and the operand is the least 32-bit number. `Operand` if a truth
/// value has a sign.
pub fn apply_sign(sign: Option<Sign>, operand: Scalar) -> Result<Scalar, OperatorFault>
    ensures { scalar_outcome result ≡ apply_sign sign (scalar_value operand) }
{
    match sign {
        None => Ok(operand),
        Some(sign) => match operand {
            Scalar::Number(a) => match sign {
                Sign::Plus => Ok(Scalar::Number(a)),
                Sign::Minus => checked_number(a.checked_neg()),
            },
            Scalar::Truth(_) => Err(OperatorFault::Operand),
        },
    }
}

/// Returns the negation `~operand` of a truth value.
///
/// # Errors
///
/// `Operand` if the operand is a number.
pub fn apply_not(operand: Scalar) -> Result<Scalar, OperatorFault>
    ensures { scalar_outcome result ≡ apply_not (scalar_value operand) }
{
    match operand {
        Scalar::Number(_) => Err(OperatorFault::Operand),
        Scalar::Truth(a) => Ok(Scalar::Truth(!a)),
    }
}

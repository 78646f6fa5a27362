//! Tests calculations with numbers and truth values.

use crate::cases::{TestCase, first_failing_row};
use crate::values::Computation::{Add, ApplyRelation, ApplySign, Multiply, Negate};
use ob0_language_values::Scalar::{Number, Truth};
use ob0_language_values::scalar::{
    apply_add_operator, apply_multiply_operator, apply_not, apply_relation, apply_sign,
};
use ob0_language_values::{OperatorFault, Scalar};
use ob0_tree::AddOperator::{self, Or, Subtract};
use ob0_tree::MultiplyOperator::{self, Divide, Modulo};
use ob0_tree::{Relation, Sign};
use std::alloc::{AllocError, Global};
use std::process::Abort;

/// An operator with its operands.
#[derive(Clone, Copy)]
enum Computation {
    Multiply(MultiplyOperator, i32, i32),
    Add(AddOperator, Scalar, Scalar),
    ApplyRelation(Relation, Scalar, Scalar),
    ApplySign(Sign, i32),
    Negate(Scalar),
}

/// A computation with its expected result.
type ComputationCase = (Computation, Result<Scalar, OperatorFault>);

static COMPUTATION_CASES: &[ComputationCase] = rows![
    Multiply(Divide, -7, 3) => Ok(Number(-3));
    Multiply(Modulo, -7, 3) => Ok(Number(2));
    Multiply(Modulo, 1, 0) => Err(OperatorFault::Divisor);
    Multiply(Divide, 1, -7) => Err(OperatorFault::Divisor);
    Add(AddOperator::Add, Number(i32::MAX), Number(1)) => Err(OperatorFault::Overflow);
    Add(Subtract, Number(i32::MIN), Number(1)) => Err(OperatorFault::Overflow);
    Add(Subtract, Number(-2147483647), Number(1)) => Ok(Number(i32::MIN));
    Add(Or, Truth(false), Truth(true)) => Ok(Truth(true));
    ApplySign(Sign::Minus, i32::MIN) => Err(OperatorFault::Overflow);
    Negate(Truth(true)) => Ok(Truth(false));
    ApplyRelation(Relation::NotEqual, Truth(true), Truth(false)) => Ok(Truth(true));
    ApplyRelation(Relation::Less, Truth(true), Truth(false)) => Err(OperatorFault::Operand);
];

/// Applies an operator to its operands, and returns the result or the operator's fault.
fn compute(computation: Computation) -> Result<Scalar, OperatorFault> {
    match computation {
        Multiply(operator, left, right) => apply_multiply_operator(
            operator,
            Number(left),
            Number(right),
        ),
        Add(operator, left, right) => apply_add_operator(operator, left, right),
        ApplyRelation(relation, left, right) => apply_relation(relation, left, right),
        ApplySign(sign, number) => apply_sign(Some(sign), Number(number)),
        Negate(truth) => apply_not(truth),
    }
}

impl TestCase for ComputationCase {
    fn has_expected_outcome(&self, _alloc: Global) -> Result<bool, AllocError> {
        Ok(compute(self.0) == self.1)
    }
}

#[test]
fn operators_compute_as_expected(rt: HostRuntime) {
    let wrong = first_failing_row(rt.alloc(), COMPUTATION_CASES);
    assert!(rt; wrong.is_none(), "row {wrong:?}");
}
